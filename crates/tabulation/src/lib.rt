// The table of an accepted descriptor, and the check of any bytes that gives it.
#![tactic(auto)]

pub mod check;
pub mod table;

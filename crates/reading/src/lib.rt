// The value at a path.
#![tactic(auto)]

pub mod reading;
pub mod value;

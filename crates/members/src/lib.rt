// The members of a cluster: their rows, where they and their names stand, which have a name, and their bytes joined.
#![tactic(auto)]

pub mod chains;
pub mod joining;
pub mod names;
pub mod roster;
pub mod rows;

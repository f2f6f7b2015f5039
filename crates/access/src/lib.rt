// The part of data at a path.
#![tactic(auto)]

pub mod part;
pub mod past;
pub mod spot;
pub mod steps;

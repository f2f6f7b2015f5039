// A record in a reader's shape.
#![tactic(auto)]

pub mod reading;
pub mod top;

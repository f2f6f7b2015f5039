// Flattened data under a type.
#![tactic(auto)]

pub mod cursor;
pub mod extent;
pub mod limits;
pub mod order;
pub mod progress;
pub mod scalar;
pub mod sizes;
pub mod texts;

// An array's elements, looked at together.
#![tactic(auto)]

pub mod columns;
pub mod largest;

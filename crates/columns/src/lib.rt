// An array's elements that all take the same bytes, written in the other byte order column by column: the numbers at one place of every
// element, then those at the next.
#![tactic(auto)]

pub mod column;
pub mod even;

// Numbers written in the other byte order: one, a row of them, and those of scalars.
#![tactic(auto)]

pub mod numbers;
pub mod runs;
pub mod scalars;

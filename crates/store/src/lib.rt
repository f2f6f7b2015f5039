// The blank book: checked, searched, listed, and one record added at its end.
#![tactic(auto)]

pub mod add;
pub mod blank;
pub mod bodies;
pub mod entry;
pub mod fixed;
pub mod identity;
pub mod judged;
pub mod marks;
pub mod open;
pub mod questions;
pub mod runs;
pub mod unused;

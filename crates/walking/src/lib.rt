// The walk of data under a type, and the check of data by it.
#![tactic(auto)]

pub mod arrays;
pub mod check;
pub mod walk;

pub use check::check_data;

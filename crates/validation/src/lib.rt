// The check of any bytes as a type descriptor.
#![tactic(auto)]

pub mod accepted;
pub mod fields;
pub mod name;
pub mod rest;
pub mod validate;

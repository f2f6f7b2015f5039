// What a LabVIEW type descriptor is, its header, and what is inside an accepted one.
#![tactic(auto)]

pub mod answer;
pub mod codes;
pub mod header;
pub mod inside;
pub mod limits;
pub mod refusal;
pub mod step;
pub mod width;

// What a record in a reader's shape is made of: the reader's names, the rig's data, and the rig's members by name and type.
#![tactic(auto)]

pub mod data;
pub mod equality;
pub mod names;
pub mod namesakes;
pub mod picking;

use descriptor::answer::Row;

// What the search for a name among the rig's members finds: "missing, doubled, found with its row".
#[derive(Clone, Copy)]
pub enum Search {
    Missing,
    Doubled,
    Found(Row),
}

// Equality of descriptors, and their normal form.
#![tactic(auto)]

pub mod compare;
pub mod normal;

use descriptor::answer::Answer;

// The answer of a comparison: "yes or no".
#[repr(C)]
#[derive(Clone, Copy)]
pub struct Compared {
    pub answer: Answer,
    pub equal: bool,
}

// What reading a part of a descriptor comes to: a step, or a refusal.
ghost use Rattle.std.specs.Prelude.{◌≡◌, ◌<◌};
ghost use Rattle.descriptor.specs.Header.{code_at};
ghost use Rattle.descriptor.specs.inner.Steps.{refusal_at, read_step};
ghost use Rattle.descriptor.specs.inner.Promises.{addressable};

use super::header::code_place;
use super::refusal::{Fault, Refusal};

// The next byte, the number that was read for (a count, a name's length, how many rows there are then: each function says which), and how
// many children follow.
#[derive(Clone, Copy, Debug, PartialEq, Eq)]
pub struct Step {
    pub next: usize,
    pub value: usize,
    pub children: usize,
}

// A step that no children follow.
pub fn past(next: usize, value: usize) -> Step
    ensures { result ≡ read_step next value 0 }
{
    Step {
        next,
        value,
        children: 0,
    }
}

// The refusals of a descriptor, with their places.

// 5: the one at p is not carried; its low code byte.
pub fn not_carried(p: usize) -> Refusal
    requires { p < addressable }
    ensures { result ≡ refusal_at 5 (code_at p) }
{
    Fault::Code.at(code_place(p))
}

// 8: its body does not fit; its end.
pub fn overrun(stop: usize) -> Refusal
    ensures { result ≡ refusal_at 8 stop }
{
    Fault::Body.at(stop)
}

// 9: the count at `word` is outside its limits.
pub fn bad_count(word: usize) -> Refusal
    ensures { result ≡ refusal_at 9 word }
{
    Fault::Count.at(word)
}

// 10: the word or byte at `at` is wrong.
pub fn bad_contents(at: usize) -> Refusal
    ensures { result ≡ refusal_at 10 at }
{
    Fault::Contents.at(at)
}

// 11: what is left from `at` on is no name.
pub fn no_name(at: usize) -> Refusal
    ensures { result ≡ refusal_at 11 at }
{
    Fault::Name.at(at)
}

// Descriptors that were judged: one with the bytes of one that is right is right.
ghost use Rattle.std.specs.Prelude.{◌≡◌, true, IfSome, MatchOption};
ghost use Rattle.store.specs.inner.Judging.{Good, Mute};

use super::fixed::{Span, span_of};
use super::identity::carrier;
use canonical::compare::first_difference;
use validation::accepted::Descriptor;

// A descriptor that is right: itself, which member carries the identifier, and the span of its data, where all of it has one.
#[derive(Clone, Copy)]
pub struct Judged<'a> {
    pub descriptor: Descriptor<'a>,
    pub member: usize,
    pub span: Option<Span>,
    pub ghost good: { ∥ Good descriptor.bytes.now member span ∥₁ },
}

impl Judged<'_> {
    // Whether d has its bytes.
    pub fn is(self, d: &[u8]) -> bool
        ensures { result ≡ true → self.entry.descriptor.bytes.now ≡ d.now }
    {
        let bytes = self.descriptor.bytes;
        if bytes.len() != d.len() {
            return false;
        }
        first_difference(d, bytes) == d.len()
    }
}

// What was judged, where d has its bytes.
fn same_again<'a>(d: &[u8], judged: Option<Judged<'a>>) -> Option<Judged<'a>>
    ensures { IfSome result (λ j. j.descriptor.bytes.now ≡ d.now) }
{
    let j = judged?;
    if !j.is(d) {
        return None;
    }
    Some(j)
}

// The descriptor d; none where it is not right.
fn judge_new(d: &[u8]) -> Option<Judged<'_>>
    ensures { MatchOption result (Mute d.now) (λ j. j.descriptor.bytes.now ≡ d.now) }
{
    let Ok(descriptor) = Descriptor::try_from(d) else {
        return None;
    };
    let Ok(member) = carrier(descriptor) else {
        return None;
    };
    Some(Judged {
        descriptor,
        member,
        span: span_of(descriptor, member),
    })
}

// The two descriptors judged last: the records of a book mostly come from one rig, or from two by turns.
#[derive(Clone, Copy)]
pub struct Recent<'a> {
    pub last: Option<Judged<'a>>,
    pub other: Option<Judged<'a>>,
}

impl<'a> Recent<'a> {
    // The descriptor d; none where it is not right.
    pub fn judge(&mut self, d: &'a [u8]) -> Option<Judged<'a>>
        ensures { MatchOption result (Mute d.now) (λ j. j.descriptor.bytes.now ≡ d.now) }
    {
        if let Some(j) = same_again(d, self.last) {
            return Some(j);
        }
        let j = match same_again(d, self.other) {
            Some(j) => j,
            None => judge_new(d)?,
        };
        self.other = self.last;
        self.last = Some(j);
        Some(j)
    }
}

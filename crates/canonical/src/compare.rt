// Whether two descriptors are equal: "Only the reserved byte is ignored."
ghost use Rattle.std.specs.Prelude.{◌≡◌, ◌≤◌, ◌<◌, ◌^◌, length};
ghost use Rattle.descriptor.specs.Faults.{input_of};
ghost use Rattle.canonical.specs.Equality.{not_compared, both_compared, comparison};
ghost use Rattle.canonical.specs.inner.Walk.{Both, RowInside, SameFront, FirstDifference, Telling, same_run, same_within};

use super::Compared;
use descriptor::answer::{Answer, Input};
use descriptor::header::{reserved_at, size_at};
use descriptor::inside::inside_of;
use descriptor::limits::DEPTH_LIMIT;
use descriptor::refusal::Refusal;
use number::endian::read_le;
use validation::accepted::Descriptor;
use validation::validate::validate;

// Whether a and b hold the same bytes from `from` up to `to`.
#[tactic(auto, using(crate::proofs::Same::run_laws), unfolding(crate::specs::inner::Walk::same_run))]
fn same_run(a: &[u8], b: &[u8], from: usize, to: usize) -> bool
    requires { Both a.now b.now from to }
    ensures { result ≡ same_run a.now b.now from to }
{
    byte_runs::same(&a[from..to], &b[from..to])
}

// Whether a and b hold the same bytes from `start` up to `stop`, but for the reserved bytes of the k descriptors that stand in a from
// `start` on and of those in them, which go no deeper than `levels`. What is left after the k is the name of the one that they stand in.
#[tactic(auto, using(crate::proofs::Spelled::same_laws))]
fn same_within(a: &[u8], b: &[u8], k: usize, start: usize, stop: usize, levels: usize) -> bool
    requires row_inside { RowInside a.now k start stop levels }
    requires a_in_bounds { length a.now ≤ length b.now }
    ensures { result ≡ same_within a.now b.now k start stop }
{
    let mut p = start;
    for _ in 0..k {
        let end = p + size_at(a, p);
        let reserved = reserved_at(p);
        if !same_run(a, b, p, reserved) {
            return false;
        }
        let f = inside_of(a, p);
        let same = if f.children == 0 {
            same_run(a, b, reserved + 1, end)
        } else {
            same_run(a, b, reserved + 1, f.at)
                && same_within(a, b, f.children, f.at, end, levels - 1)
        };
        if !same {
            return false;
        }
        p = end;
    }
    same_run(a, b, p, stop)
}

// How many bytes at the front of a and b, of one length, are the same: those before the first eight that are not.
#[tactic(auto, using(crate::proofs::Fronts::front_laws))]
fn same_front(a: &[u8], b: &[u8]) -> usize
    requires { length a.now ≡ length b.now }
    ensures { SameFront a.now b.now result }
{
    let eights = a.len() / 8;
    for n in 0..eights {
        if read_le(a, 8 * n, 8) != read_le(b, 8 * n, 8) {
            return 8 * n;
        }
    }
    8 * eights
}

// The place of the first byte of a and b, of one length, that is not the same; or their length.
#[tactic(auto, using(crate::proofs::Fronts::front_laws))]
pub fn first_difference(a: &[u8], b: &[u8]) -> usize
    requires { length a.now ≡ length b.now }
    ensures { FirstDifference a.now b.now result }
{
    for i in same_front(a, b)..a.len() {
        if a[i] != b[i] {
            return i;
        }
    }
    a.len()
}

// Whether the byte at q is the reserved byte of the accepted descriptor a or of one in it. Else bytes that differ there are not equal
// descriptors. Only the descriptors that q stands in are opened.
#[tactic(auto, using(crate::proofs::Unlike::seeking))]
fn is_reserved(a: Descriptor, q: usize) -> bool
    requires { q < length a.bytes.now }
    ensures { Telling a.entry.bytes.now q result }
{
    let d = a.bytes;
    let mut p = 0;
    let mut k = 1;
    while 0 < k {
        let end = p + size_at(d, p);
        if end <= q {
            p = end;
            k -= 1;
        } else {
            if q == reserved_at(p) {
                return true;
            }
            let f = inside_of(d, p);
            if f.children == 0 || q < f.at {
                return false;
            }
            p = f.at;
            k = f.children;
        }
    }
    false
}

// Whether b is a descriptor equal to the accepted descriptor a: as long as a, and the same but for the reserved bytes of a. Nothing is
// asked of b: bytes that are so are a descriptor with a's tree. The first byte that is not the same decides, unless it is a reserved one.
#[tactic(auto, using(crate::proofs::Judged::equal_laws))]
pub fn same_as_accepted(a: Descriptor, b: &[u8]) -> bool
    ensures { result ≡ (comparison a.entry.bytes.now b.now).equal }
{
    let d = a.bytes;
    if d.len() != b.len() {
        return false;
    }
    let q = first_difference(d, b);
    q == d.len() || is_reserved(a, q) && same_within(d, b, 1, 0, d.len(), DEPTH_LIMIT)
}

// The answer for an input that is no descriptor.
fn not_compared(refusal: Refusal, input: Input) -> Compared
    requires { refusal.place < 2 ^ 32 }
    ensures { result ≡ not_compared refusal.number (input_of input) refusal.place }
{
    Compared {
        answer: refusal.of(input),
        equal: false,
    }
}

// The answer for two descriptors.
fn both_compared(equal: bool) -> Compared
    ensures { result ≡ both_compared equal }
{
    Compared {
        answer: Answer::accepted(0),
        equal,
    }
}

// Whether two descriptors are equal. A refusal names the first of the two that is no descriptor, and says no. The second is checked only
// where it is not equal to the first.
#[tactic(auto, using(crate::proofs::Judged::compare_laws))]
pub fn compare(first: &[u8], second: &[u8]) -> Compared
    ensures { result ≡ comparison first.now second.now }
{
    let accepted = match Descriptor::try_from(first) {
        Ok(accepted) => accepted,
        Err(refusal) => return not_compared(refusal, Input::First),
    };
    if same_as_accepted(accepted, second) {
        return both_compared(true);
    }
    if let Err(refusal) = validate(second) {
        return not_compared(refusal, Input::Second);
    }
    both_compared(false)
}

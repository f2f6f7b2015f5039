// The normal form: "the same descriptor with every reserved byte zero".
ghost use Rattle.std.specs.Prelude.{◌≡◌, ◌≤◌, length};
ghost use Rattle.descriptor.specs.inner.Standing.{standing_row, forest_of};
ghost use Rattle.canonical.specs.Normal.{normal_form};
ghost use Rattle.canonical.specs.inner.Walk.{RowInside, clear_forest};

use descriptor::answer::{Answer, Input};
use descriptor::header::{reserved_at, size_at};
use descriptor::inside::inside_of;
use descriptor::limits::DEPTH_LIMIT;
use descriptor::refusal::Fault;
use validation::validate::validate;

// Writes zero to the reserved bytes of the k descriptors that stand in d from `start` on and of those in them, at their places in out.
// They go no deeper than `levels`.
#[tactic(auto, using(crate::proofs::Cleared::clear_laws))]
fn clear_row(d: &[u8], out: &mut [u8], k: usize, start: usize, levels: usize)
    requires row_inside { RowInside d.now k start (length d.now) levels }
    requires d_in_bounds { length d.now ≤ length out.old }
    ensures { out.new ≡ clear_forest start (forest_of (standing_row d.now k start)) out.old }
{
    let mut p = start;
    for _ in 0..k {
        let end = p + size_at(d, p);
        out[reserved_at(p)] = 0;
        let f = inside_of(d, p);
        if 0 < f.children {
            clear_row(d, out, f.children, f.at, levels - 1);
        }
        p = end;
    }
}

// Writes the normal form of d to the front of out; the place is its length. A refusal writes nothing: d's own, or 50 where out is too
// small, with the length needed.
#[tactic(auto, using(crate::proofs::Judged::form_laws))]
pub fn normal_form(d: &[u8], out: &mut [u8]) -> Answer
    ensures answer { result ≡ (normal_form d.now out.old).answer }
    ensures wrote { out.new ≡ (normal_form d.now out.old).out }
{
    if let Err(refusal) = validate(d) {
        return refusal.of(Input::First);
    }
    let n = d.len();
    if out.len() < n {
        return Answer::refused(Fault::Room, Input::Request, n);
    }
    byte_runs::copy(d, out);
    clear_row(d, out, 1, 0, DEPTH_LIMIT);
    Answer::accepted(n)
}

// The check of any bytes as a descriptor, with no table.
ghost use Rattle.std.specs.Prelude.{◌≡◌, ◌+◌, ◌≤◌};
ghost use Rattle.descriptor.specs.Limits.{depth_limit};
ghost use Rattle.descriptor.specs.Tree.{row_count};
ghost use Rattle.descriptor.specs.Check.{checked};
ghost use Rattle.descriptor.specs.inner.Steps.{counted};
ghost use Rattle.descriptor.specs.inner.Promises.{Within, row_step};

use super::fields::fields;
use super::rest::rest;
use descriptor::codes::is_array;
use descriptor::header::header;
use descriptor::limits::{DEPTH_LIMIT, DESCRIPTOR_LIMIT};
use descriptor::refusal::{Fault, Refusal};
use descriptor::step::{Step, past};

// k descriptors in a row from `start` on, in a parent that ends at `end`, with `levels` left of the depth and n rows before them: where
// they end and, the value, how many rows there are then. It calls itself for a descriptor that has children; `&d[..]` is d, and quicker to
// hand on (docs/DECISIONS.md, "Code").
#[tactic(auto, using(crate::proofs::Members::row_steps))]
fn validate_row(
    d: &[u8],
    levels: usize,
    in_array: bool,
    end: usize,
    k: usize,
    start: usize,
    n: usize,
) -> Result<Step, Refusal>
    requires within { Within d.now start end }
    requires levels_le_depth_limit { levels ≤ depth_limit }
    ensures { result ≡ row_step d.now levels in_array end k start n }
{
    let mut p = start;
    let mut rows = n;
    for _ in 0..k {
        let h = header(d, levels, in_array, end, p, rows)?;
        let stop = p + h.size;
        let b = fields(d, h.code, p, h.body, stop)?;
        rows += 1;
        let inner = if 0 < b.children {
            validate_row(
                &d[..],
                levels - 1,
                is_array(h.code),
                stop,
                b.children,
                b.next,
                rows,
            )?
        } else {
            past(b.next, rows)
        };
        rest(d, h.code, p, b.next, stop, inner.next)?;
        rows = inner.value;
        p = stop;
    }
    Ok(past(p, rows))
}

// The first refusal of d as a descriptor; where there is none, the value is how many rows it has.
#[tactic(auto, using(crate::proofs::Members::row_one), unfolding(descriptor::specs::Check::checked))]
pub fn validate(d: &[u8]) -> Result<Step, Refusal>
    ensures { result ≡ counted row_count (checked d.now) }
{
    if DESCRIPTOR_LIMIT < d.len() {
        return Err(Fault::DescriptorLength.at(0));
    }
    let w = validate_row(&d[..], DEPTH_LIMIT, false, d.len(), 1, 0, 0)?;
    if w.next != d.len() {
        return Err(Fault::AfterTop.at(w.next));
    }
    Ok(w)
}

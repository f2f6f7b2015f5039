// The steps of a path in accepted data.
ghost use Rattle.std.specs.Prelude.{◌+◌, ◌-◌, ◌^◌, ◌<◌};
ghost use Rattle.descriptor.specs.Limits.{depth_limit};
ghost use Rattle.descriptor.specs.Tree.{dimensions, nil, cons};
ghost use Rattle.flattened.specs.inner.Types.{type_at, types_at};
ghost use Rattle.access.specs.Path.{member_at, step_at, step_into, spot_of};
ghost use Rattle.access.specs.inner.Spots.{Lies, ArrayLies, RowLies, Reaches};

use super::past::{past_elements, past_member};
use super::spot::Spot;
use descriptor::codes::{Kind, is_compound, kind_of};
use descriptor::header::{code_at, size_at};
use descriptor::inside::inside_of;
use flattened::cursor::Cursor;
use flattened::order::Order;
use flattened::sizes::size_words;

// Element k of the array of `dims` dimensions whose elements are of the type at p; i is the number of the step.
fn element(
    d: &[u8],
    p: usize,
    dims: usize,
    k: usize,
    i: usize,
    s: &[u8],
    from: Cursor,
) -> Result<Spot, usize>
    requires array_lies { ArrayLies d.now p dims (depth_limit - (i + 1)) s.now from.at }
    requires small { (k < 2 ^ 32) × (i < depth_limit) }
    ensures { Reaches d.now (depth_limit - (i + 1)) s.now (step_at i (dimensions dims) (cons (type_at d.now p) nil) k s.now from.at) result }
{
    let Ok(sizes) = size_words(s, from, dims, Order::Big) else {
        // The sizes of accepted data are not refused.
        return Err(i);
    };
    if sizes.count <= k {
        return Err(i);
    }
    Ok(Spot {
        place: p,
        start: past_elements(d, p, k, s, sizes.elements),
    })
}

// Member k of the n types that stand in a row from `start` on; i is the number of the step.
fn member(
    d: &[u8],
    start: usize,
    n: usize,
    k: usize,
    i: usize,
    s: &[u8],
    from: Cursor,
) -> Result<Spot, usize>
    requires row_lies { RowLies d.now n start (depth_limit - (i + 1)) s.now from.at }
    requires deep { i < depth_limit }
    ensures { Reaches d.now (depth_limit - (i + 1)) s.now (member_at i (types_at d.now n start) k s.now from.at) result }
{
    if n <= k {
        return Err(i);
    }
    let mut p = start;
    let mut next = from;
    for _ in 0..k {
        next = past_member(d, p, s, next);
        p += size_at(d, p);
    }
    Ok(Spot {
        place: p,
        start: next,
    })
}

// Part k of the value at a spot; i is the number of the step.
fn step(d: &[u8], x: Spot, k: usize, i: usize, s: &[u8]) -> Result<Spot, usize>
    requires lies { Lies d.now x.place (depth_limit - i) s.now x.start.at }
    requires small { k < 2 ^ 32 }
    ensures { Reaches d.now (depth_limit - (i + 1)) s.now (step_into i (type_at d.now x.place) k s.now x.start.at) result }
{
    let code = code_at(d, x.place);
    if let Kind::Array = kind_of(code) {
        let inside = inside_of(d, x.place);
        return element(d, inside.at, inside.count, k, i, s, x.start);
    }
    if is_compound(code) {
        let inside = inside_of(d, x.place);
        return member(d, inside.at, inside.children, k, i, s, x.start);
    }
    Err(i)
}

// The spot at a path; or the number of the step that leads nowhere.
pub fn spot_at(d: &[u8], s: &[u8], path: &[u32]) -> Result<Spot, usize>
    requires { Lies d.now 0 depth_limit s.now 0 }
    ensures { Reaches d.now depth_limit s.now (spot_of path.now (type_at d.now 0) s.now) result }
{
    let mut spot = Spot {
        place: 0,
        start: Cursor { at: 0 },
    };
    for (i, k) in path.iter().enumerate() {
        spot = step(d, spot, *k as usize, i, s)?;
    }
    Ok(spot)
}

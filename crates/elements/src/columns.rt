// The judged numbers of an array's elements, column by column: those that stand at one place in every element are looked at in one loop.
ghost use Rattle.std.specs.Prelude.{◌≡◌, true, ◌+◌, ◌*◌, ◌≤◌, ◌<◌, length};
ghost use Rattle.descriptor.specs.Header.{code_in};
ghost use Rattle.descriptor.specs.Width.{width_of};
ghost use Rattle.descriptor.specs.inner.Standing.{Stands};
ghost use Rattle.flattened.specs.inner.Order.{order_of, Narrow};
ghost use Rattle.flattened.specs.inner.Types.{type_at, types_at, TypeStands, RowStands};
ghost use Rattle.flattened.specs.inner.Extent.{joint, extent_of, extent_all};
ghost use Rattle.flattened.specs.inner.Columns.{judged_in, Definite, Ahead, Across, EachBelow, EachKept, EachKeptAll, EachKeptHere};
ghost use Rattle.elements.specs.inner.Placing.{Roomy, Beside, StandsIn, BelowFixed, BelowAround};

use super::largest::low;
use descriptor::codes::is_compound;
use descriptor::header::{code_at, size_at};
use descriptor::inside::inside_of;
use descriptor::width::width;
use flattened::cursor::Cursor;
use flattened::extent::{Extent, extent_of, joint, limit_of};
use flattened::order::{Order, narrow_number};

// Past `before` bytes, a string and `after` bytes; none where the data ends before.
#[tactic(auto, unfolding(flattened::specs::inner::Columns::ArrivesAt, flattened::specs::inner::Cursor::skipped, flattened::specs::inner::Cursor::word_at))]
pub fn across(before: usize, after: usize, s: &[u8], from: Cursor, o: Order) -> Option<Cursor>
    requires { from.at ≤ length s.now }
    ensures { Across (order_of o) s.now before after from.at result }
{
    let text = from.skip(s, before)?;
    let length = text.word(s, o)?;
    let end = length.next.skip(s, length.number)?;
    end.skip(s, after)
}

// Whether a number of w bytes past `front` stands beside a string: in the bytes before it, or in those after it.
#[tactic(auto, unfolding(crate::specs::inner::Placing::Beside))]
fn beside(front: Extent, before: usize, after: usize, w: usize) -> bool
    ensures { result ≡ true → Beside front before after w }
{
    match front {
        Extent::Varies => false,
        Extent::Fixed(f, ..) => w <= before && f <= before - w,
        Extent::Around(b, a, ..) => b == before && w <= after && a <= after - w,
    }
}

// Where it stands, in an element from `start` to `end`: so many bytes past the start, or so many before the end.
#[tactic(auto, unfolding(crate::specs::inner::Placing::Beside, flattened::specs::inner::Columns::beyond))]
fn place_in(front: Extent, before: usize, after: usize, w: usize, start: usize, end: usize) -> usize
    requires beside { Beside front before after w }
    requires room { start + before + 4 + after ≤ end }
    ensures { StandsIn front before after w start end result }
{
    match front {
        Extent::Varies => start,
        Extent::Fixed(f, ..) => start + f,
        Extent::Around(_, a, ..) => end - (after - a),
    }
}

// How many of the first of n elements, of `before` bytes, a string and `after` bytes each, have a number of w bytes past `front` that is
// below a limit.
#[tactic(auto, unfolding(flattened::specs::inner::Columns::ArrivesAt))]
fn column_around(
    front: Extent,
    before: usize,
    after: usize,
    w: usize,
    limit: usize,
    n: usize,
    s: &[u8],
    from: Cursor,
    o: Order,
) -> usize
    requires narrow { Narrow w }
    requires inside { from.at ≤ length s.now }
    ensures { (result ≤ n) × BelowAround (order_of o) s.now front before after from.at w limit result }
{
    if !beside(front, before, after, w) {
        return 0;
    }
    let mut next = from;
    // Counted by hand: as a `for` it takes a seventh longer.
    let mut count = 0;
    while count < n {
        let Some(end) = across(before, after, s, next, o) else {
            return count;
        };
        let place = place_in(front, before, after, w, next.at, end.at);
        if limit <= narrow_number(s, place, w, o) {
            return count;
        }
        next = end;
        count += 1;
    }
    count
}

// The same, of elements of `step` bytes each, which fit.
fn column_fixed(
    front: Extent,
    step: usize,
    w: usize,
    limit: usize,
    n: usize,
    s: &[u8],
    at: usize,
    o: Order,
) -> usize
    requires narrow { Narrow w }
    requires fit { at + n * step ≤ length s.now }
    ensures { (result ≤ n) × BelowFixed (order_of o) s.now front step at w limit result }
{
    let Extent::Fixed(f, ..) = front else {
        return 0;
    };
    if n == 0 || step < w || step - w < f {
        return 0;
    }
    low(limit, s, at + f, w, step, n, o)
}

// How many of the first of n elements of the extent `whole`, which fit where it is fixed, have a number of w bytes past `front` that is
// below a limit.
#[tactic(auto, unfolding(crate::specs::inner::Placing::Roomy))]
fn column(
    front: Extent,
    whole: Extent,
    w: usize,
    limit: usize,
    n: usize,
    s: &[u8],
    from: Cursor,
    o: Order,
) -> usize
    requires narrow { Narrow w }
    requires roomy { Roomy s.now whole from.at n }
    ensures { (result ≤ n) × EachBelow (order_of o) s.now front whole from.at w limit result }
{
    match whole {
        Extent::Varies => 0,
        Extent::Fixed(step, ..) => column_fixed(front, step, w, limit, n, s, from.at, o),
        Extent::Around(before, after, ..) => {
            column_around(front, before, after, w, limit, n, s, from, o)
        }
    }
}

// How many of the first of n elements keep the rule of the scalar past `front`, of w bytes and the type at p.
fn scalar_column(
    d: &[u8],
    p: usize,
    w: usize,
    front: Extent,
    whole: Extent,
    n: usize,
    s: &[u8],
    from: Cursor,
    o: Order,
) -> usize
    requires stands { Stands d.now p }
    requires wide { (w ≡ width_of (code_in d.now p)) × (0 < w) }
    requires roomy { Roomy s.now whole from.at n }
    ensures { (result ≤ n) × EachKept (order_of o) s.now (type_at d.now p) front whole from.at result }
{
    match limit_of(d, p) {
        None => n,
        Some(limit) => column(front, whole, w, limit, n, s, from, o),
    }
}

// How many of the first of n elements keep the rules of the type at p, whose value stands past `front` in each.
#[cycle(columns_of_columns_row)]
fn columns_of(
    d: &[u8],
    p: usize,
    front: Extent,
    whole: Extent,
    n: usize,
    s: &[u8],
    from: Cursor,
    o: Order,
    left: usize,
) -> usize
    requires type_stands { TypeStands d.now p left }
    requires ahead { Ahead front p × Definite (joint front (extent_of (type_at d.now p))) }
    requires roomy { Roomy s.now whole from.at n }
    ensures { (result ≤ n) × EachKept (order_of o) s.now (type_at d.now p) front whole from.at result }
{
    let code = code_at(d, p);
    let w = width(code);
    if w != 0 {
        return scalar_column(d, p, w, front, whole, n, s, from, o);
    }
    if is_compound(code) {
        let inside = inside_of(d, p);
        return columns_row(
            d,
            inside.at,
            inside.children,
            front,
            whole,
            n,
            s,
            from,
            o,
            left - 1,
        );
    }
    n
}

// And those of the k types that stand in a row from `start` on.
#[cycle(columns_of_columns_row)]
fn columns_row(
    d: &[u8],
    start: usize,
    k: usize,
    before: Extent,
    whole: Extent,
    n: usize,
    s: &[u8],
    from: Cursor,
    o: Order,
    left: usize,
) -> usize
    requires row_stands { RowStands d.now k start left }
    requires ahead { Ahead before start × Definite (joint before (extent_all (types_at d.now k start))) }
    requires roomy { Roomy s.now whole from.at n }
    ensures { (result ≤ n) × EachKeptAll (order_of o) s.now (types_at d.now k start) before whole from.at result }
{
    let mut p = start;
    let mut front = before;
    let mut count = n;
    for _ in 0..k {
        count = columns_of(d, p, front, whole, count, s, from, o, left);
        if count == 0 {
            return 0;
        }
        front = joint(front, extent_of(d, p, left));
        p += size_at(d, p);
    }
    count
}

// Whether any number in it is judged.
#[tactic(auto, unfolding(flattened::specs::inner::Columns::judged_in))]
pub fn judged_in(x: Extent) -> bool
    ensures { result ≡ judged_in x }
{
    match x {
        Extent::Varies => true,
        Extent::Fixed(_, _, judged) => judged,
        Extent::Around(_, _, _, judged) => judged,
    }
}

// How many of the first of n elements of the type at p, of the extent `whole`, keep the rules of the numbers in them.
pub fn keeping(
    d: &[u8],
    p: usize,
    whole: Extent,
    n: usize,
    s: &[u8],
    from: Cursor,
    o: Order,
    left: usize,
) -> usize
    requires type_stands { TypeStands d.now p left }
    requires whole_extent { (whole ≡ extent_of (type_at d.now p)) × Definite whole }
    requires roomy { Roomy s.now whole from.at n }
    ensures { (result ≤ n) × EachKeptHere (order_of o) s.now (type_at d.now p) whole from.at result }
{
    if judged_in(whole) {
        return columns_of(d, p, Extent::Fixed(0, 0, false), whole, n, s, from, o, left);
    }
    n
}

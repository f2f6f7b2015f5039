// An array's elements that all take the same bytes: as one run of numbers where they have one width, else column by column, the numbers
// that stand at one place of every element in one loop.
ghost use Rattle.std.specs.Prelude.{◌≡◌, ◌+◌, IfSome};
ghost use Rattle.flattened.specs.inner.Types.{type_at, types_at, TypeStands, RowStands};
ghost use Rattle.columns.specs.inner.Columns.{numbers_in, numbers_all, total, joined_width, common_width, turned_elements, Spread, Laid, Even, Stepped, ColumnsTurned};

use super::column::turn_scalar_column;
use byte_order::runs::turn_run;
use byte_order::scalars::number_width;
use descriptor::codes::is_compound;
use descriptor::header::{code_at, size_at};
use descriptor::inside::inside_of;
use descriptor::width::width;
use flattened::extent::{Extent, extent_of};

// How many bytes of elements are turned at a time.
const NEAR: usize = 8192;

// How many elements are worth a look at their type.
const SEVERAL: usize = 4;

// The width that numbers have in common.
#[derive(Clone, Copy, Debug, PartialEq, Eq)]
enum Common {
    // There are no numbers.
    Free,
    Width(usize),
    // They have several.
    Mixed,
}

// The width of numbers of the width `before` and one of w bytes.
fn joined_width(before: Common, w: usize) -> Common
    ensures { result ≡ joined_width before w }
{
    match before {
        Common::Free => Common::Width(w),
        Common::Width(v) if v == w => Common::Width(w),
        _ => Common::Mixed,
    }
}

// The width of the numbers of the type at p, after others of the width `before`.
#[cycle(common_row_common_width)]
fn common_width(d: &[u8], p: usize, before: Common, left: usize) -> Common
    requires { TypeStands d.now p left }
    ensures { result ≡ common_width before (numbers_in (type_at d.now p)) }
{
    let code = code_at(d, p);
    let w = width(code);
    if w != 0 {
        return joined_width(before, number_width(code, w));
    }
    if is_compound(code) {
        let inside = inside_of(d, p);
        return common_row(d, inside.at, inside.children, before, left - 1);
    }
    before
}

// And those of the k types that stand in a row from `start` on.
#[cycle(common_row_common_width)]
fn common_row(d: &[u8], start: usize, k: usize, before: Common, left: usize) -> Common
    requires { RowStands d.now k start left }
    ensures { result ≡ common_width before (numbers_all (types_at d.now k start)) }
{
    let mut p = start;
    let mut w = before;
    for _i in 0..k {
        w = common_width(d, p, w, left);
        p += size_at(d, p);
    }
    w
}

// The columns of the type at p: n elements, `step` bytes apart, the first with the type's value at `at`. Where its value ends there.
#[cycle(turn_columns_turn_columns_row)]
fn turn_columns(
    d: &[u8],
    p: usize,
    s: &[u8],
    out: &mut [u8],
    at: usize,
    step: usize,
    n: usize,
    left: usize,
) -> usize
    requires type_stands { TypeStands d.now p left }
    requires spread { Spread s.now out.old (at + total (numbers_in (type_at d.now p))) step n }
    ensures { ColumnsTurned (numbers_in (type_at d.now p)) s.now step n at out.old out.new result }
{
    let code = code_at(d, p);
    let w = width(code);
    if w != 0 {
        turn_scalar_column(s, out, at, code, w, step, n);
        return at + w;
    }
    if is_compound(code) {
        let inside = inside_of(d, p);
        return turn_columns_row(d, inside.at, inside.children, s, out, at, step, n, left - 1);
    }
    at
}

// The columns of the k types that stand in a row from `start` on.
#[cycle(turn_columns_turn_columns_row)]
fn turn_columns_row(
    d: &[u8],
    start: usize,
    k: usize,
    s: &[u8],
    out: &mut [u8],
    from: usize,
    step: usize,
    n: usize,
    left: usize,
) -> usize
    requires row_stands { RowStands d.now k start left }
    requires spread { Spread s.now out.old (from + total (numbers_all (types_at d.now k start))) step n }
    ensures { ColumnsTurned (numbers_all (types_at d.now k start)) s.now step n from out.old out.new result }
{
    let mut p = start;
    let mut at = from;
    for _i in 0..k {
        at = turn_columns(d, p, s, out, at, step, n, left);
        p += size_at(d, p);
    }
    at
}

// n elements of the type at p, of `step` bytes each, column by column: some at a time, so that they stay near for one column after another.
fn turn_blocks(
    d: &[u8],
    p: usize,
    n: usize,
    s: &[u8],
    out: &mut [u8],
    from: usize,
    step: usize,
    left: usize,
)
    requires type_stands { TypeStands d.now p left }
    requires even { Even (type_at d.now p) step }
    requires laid { Laid s.now out.old from step n }
    ensures { out.new ≡ turned_elements (numbers_in (type_at d.now p)) s.now step n from out.old }
{
    let most = NEAR / step + 1;
    let mut at = from;
    let mut rest = n;
    while most < rest {
        turn_columns(d, p, s, out, at, step, most, left);
        at += most * step;
        rest -= most;
    }
    turn_columns(d, p, s, out, at, step, rest, left);
}

// n elements of the type at p, of `step` bytes each.
pub fn turn_even(
    d: &[u8],
    p: usize,
    n: usize,
    s: &[u8],
    out: &mut [u8],
    from: usize,
    step: usize,
    left: usize,
)
    requires type_stands { TypeStands d.now p left }
    requires even { Even (type_at d.now p) step }
    requires laid { Laid s.now out.old from step n }
    ensures { out.new ≡ turned_elements (numbers_in (type_at d.now p)) s.now step n from out.old }
{
    if let Common::Width(w) = common_width(d, p, Common::Free, left) {
        turn_run(s, out, from, w, n * (step / w));
    } else {
        turn_blocks(d, p, n, s, out, from, step, left);
    }
}

// The bytes that each of n values of the type at p takes, where they do not vary and the values are enough to be looked at together.
pub fn even_step(d: &[u8], p: usize, n: usize, left: usize) -> Option<usize>
    requires { TypeStands d.now p left }
    ensures { IfSome result (Stepped (type_at d.now p) n) }
{
    if n < SEVERAL {
        return None;
    }
    match extent_of(d, p, left) {
        Extent::Varies => None,
        Extent::Fixed(step, ..) => Some(step),
        Extent::Around(..) => None,
    }
}

// What a type takes in data where that is the same for every value of it, or but for one string; and how the numbers of a scalar are judged.
ghost use Rattle.std.specs.Prelude.{◌≡◌, ◌||◌, ◌+◌, ◌^◌, ◌<◌};
ghost use Rattle.descriptor.specs.inner.Standing.{Stands};
ghost use Rattle.flattened.specs.inner.Types.{type_at, types_at, TypeStands, RowStands};
ghost use Rattle.flattened.specs.inner.Extent.{type_limit, joint, least, tokens_in, extent_of, extent_all};
ghost use Rattle.flattened.specs.declared.extent.Extent.TheVariants.{Fixed, Around};

use descriptor::codes::{Kind, is_compound, is_enumeration, kind_of};
use descriptor::header::{code_at, size_at};
use descriptor::inside::inside_of;
use descriptor::width::width;

// The limit that the numbers of the type at p are below, else refused; none where any will do.
pub fn limit_of(d: &[u8], p: usize) -> Option<usize>
    requires { Stands d.now p }
    ensures { result ≡ type_limit (type_at d.now p) }
{
    if !is_enumeration(code_at(d, p)) {
        return None;
    }
    Some(inside_of(d, p).count)
}

// Bytes and tokens, and whether any number among them is judged; or the bytes before and after one string, the tokens, and whether any
// number is judged. A type with an array or two strings inside varies.
#[derive(Clone, Copy, Debug, PartialEq, Eq)]
pub enum Extent {
    Varies,
    Fixed(usize, usize, bool),
    Around(usize, usize, usize, bool),
}

// Bytes and tokens and then others.
fn fixed_joint(w: usize, k: usize, j: bool, next: Extent) -> Extent
    requires { (w + least next < 2 ^ 40) × (k + tokens_in next < 2 ^ 40) }
    ensures { result ≡ joint (Fixed w k j) next }
{
    match next {
        Extent::Varies => Extent::Varies,
        Extent::Fixed(v, n, i) => Extent::Fixed(w + v, k + n, j | i),
        Extent::Around(before, after, n, i) => { Extent::Around(w + before, after, k + n, j | i) }
    }
}

// The bytes before and after a string and then others.
fn around_joint(before: usize, after: usize, k: usize, j: bool, next: Extent) -> Extent
    requires { (after + least next < 2 ^ 40) × (k + tokens_in next < 2 ^ 40) }
    ensures { result ≡ joint (Around before after k j) next }
{
    match next {
        Extent::Varies => Extent::Varies,
        Extent::Fixed(v, n, i) => Extent::Around(before, after + v, k + n, j | i),
        Extent::Around(b, a, n, i) => Extent::Varies,
    }
}

// One extent and then another.
pub fn joint(first: Extent, next: Extent) -> Extent
    requires { (least first + least next < 2 ^ 40) × (tokens_in first + tokens_in next < 2 ^ 40) }
    ensures { result ≡ joint first next }
{
    match first {
        Extent::Varies => Extent::Varies,
        Extent::Fixed(w, k, j) => fixed_joint(w, k, j, next),
        Extent::Around(before, after, k, j) => around_joint(before, after, k, j, next),
    }
}

// The extent of the type at p.
#[cycle(extent_of_extent_row)]
pub fn extent_of(d: &[u8], p: usize, left: usize) -> Extent
    requires { TypeStands d.now p left }
    ensures { result ≡ extent_of (type_at d.now p) }
{
    let code = code_at(d, p);
    let w = width(code);
    if w != 0 {
        return Extent::Fixed(w, 1, limit_of(d, p).is_some());
    }
    let k = kind_of(code);
    if let Kind::Text = k {
        return Extent::Around(0, 0, 1, false);
    }
    if is_compound(code) {
        let inside = inside_of(d, p);
        return extent_row(d, inside.at, inside.children, left - 1);
    }
    Extent::Varies
}

// The extent of k types in a row from `start` on.
#[cycle(extent_of_extent_row)]
fn extent_row(d: &[u8], start: usize, k: usize, left: usize) -> Extent
    requires { RowStands d.now k start left }
    ensures { result ≡ extent_all (types_at d.now k start) }
{
    let mut p = start;
    let mut extent = Extent::Fixed(0, 0, false);
    for _ in 0..k {
        extent = joint(extent, extent_of(d, p, left));
        p += size_at(d, p);
    }
    extent
}

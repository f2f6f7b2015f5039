// The front of an array: its size words, and the elements that are passed in one step.
ghost use Rattle.std.specs.Prelude.{◌≡◌, ◌+◌, ◌*◌, ◌/◌, ◌^◌, ◌≤◌, ◌<◌, min, length};
ghost use Rattle.descriptor.specs.Limits.{data_limit, dimension_limit};
ghost use Rattle.descriptor.specs.Header.{code_in};
ghost use Rattle.descriptor.specs.Width.{width_of};
ghost use Rattle.descriptor.specs.inner.Standing.{Stands};
ghost use Rattle.flattened.specs.inner.Order.{order_of};
ghost use Rattle.flattened.specs.inner.Extent.{type_limit, extent_of};
ghost use Rattle.flattened.specs.inner.Types.{type_at, TypeStands, DataAt};
ghost use Rattle.flattened.specs.inner.Arrays.{EachKeeps};
ghost use Rattle.walking.specs.inner.Fronts.{Passes, PassesEither, PassesAround, passed, Together, together, LiesIn, left_after, FrontMet};

use descriptor::refusal::Refusal;
use elements::columns::{across, judged_in, keeping};
use elements::largest::{longer, low};
use flattened::cursor::Cursor;
use flattened::extent::{Extent, extent_of, limit_of};
use flattened::limits::ELEMENT_CAP;
use flattened::order::Order;
use flattened::progress::Walked;
use flattened::sizes::{Sizes, size_words};
use std::ops::Add;

// The elements that are judged together first, where any are.
const FIRST_STRETCH: usize = 64;

// How many elements are passed in one step, and their bytes and tokens.
#[derive(Clone, Copy, Debug, Default, PartialEq, Eq)]
pub struct Passed {
    pub count: usize,
    pub bytes: usize,
    pub tokens: usize,
}

// Elements that are passed after others.
impl Add for Passed {
    type Output = Passed;

    ghost can_add = { Together };

    ghost add_gives = { λ a b r. r ≡ together a b };

    fn add(self, more: Passed) -> Passed {
        Passed {
            count: self.count + more.count,
            bytes: self.bytes + more.bytes,
            tokens: self.tokens + more.tokens,
        }
    }
}

// What the front of an array leaves to walk: so many elements, and how far the walk came before them.
#[derive(Clone, Copy, Debug, PartialEq, Eq)]
pub struct Front {
    pub left: usize,
    pub walked: Walked,
}

// How many of n elements of w bytes fit into `room` bytes.
fn fitting(n: usize, w: usize, room: usize) -> usize
    requires { (0 < w) × (w < 2 ^ 40) × (room ≤ data_limit) }
    ensures { result ≡ min n (room / w) }
{
    if n <= room && n * w <= room {
        return n;
    }
    room / w
}

// How many of the first of n scalars of the type at p, of w bytes each, keep its rule.
fn kept(d: &[u8], p: usize, w: usize, n: usize, s: &[u8], at: usize, o: Order) -> usize
    requires stands { Stands d.now p }
    requires wide { w ≡ width_of (code_in d.now p) }
    requires fit { at + n * w ≤ length s.now }
    ensures { (result ≤ n) × EachKeeps (type_limit (type_at d.now p)) (order_of o) s.now w at result }
{
    match limit_of(d, p) {
        None => n,
        Some(limit) => low(limit, s, at, w, w, n, o),
    }
}

// How many of the first of n scalars of the type at p, of w bytes each, are passed in one step: of those that fit, the ones before the
// first that is refused.
fn pass_scalars(d: &[u8], p: usize, w: usize, n: usize, s: &[u8], at: usize, o: Order) -> Passed
    requires stands { Stands d.now p }
    requires wide { (w ≡ width_of (code_in d.now p)) × (0 < w) }
    requires data_at { DataAt s.now at }
    ensures { Passes (order_of o) (type_at d.now p) s.now n at result }
{
    let most = fitting(n, w, s.len() - at);
    let count = kept(d, p, w, most, s, at, o);
    Passed {
        count,
        bytes: count * w,
        tokens: count,
    }
}

// So many values, of `tokens` tokens each.
fn many(count: usize, bytes: usize, tokens: usize) -> Passed
    requires { count * tokens < 2 ^ 64 }
    ensures { result ≡ passed count bytes (count * tokens) }
{
    Passed {
        count,
        bytes,
        tokens: count * tokens,
    }
}

// n values of w bytes and `tokens` tokens each are passed in one step: they fit.
fn pass_fixed(w: usize, tokens: usize, n: usize, s: &[u8], at: usize) -> Passed
    requires tokens { tokens ≤ w }
    requires fit { at + n * w ≤ length s.now }
    ensures { PassesEither w tokens s.now n at result }
{
    many(n, n * w, tokens)
}

// How many of the first of n values are passed, each of `before` bytes, a string and `after` bytes, with `tokens` tokens in all: those
// that fit.
fn pass_around(
    before: usize,
    after: usize,
    tokens: usize,
    n: usize,
    s: &[u8],
    from: Cursor,
    o: Order,
) -> Passed
    requires tokens { tokens ≤ before + 4 + after }
    requires data_at { DataAt s.now from.at }
    ensures { PassesAround (order_of o) before after tokens s.now n from.at result }
{
    let mut next = from;
    for count in 0..n {
        let Some(end) = across(before, after, s, next, o) else {
            return many(count, next.at - from.at, tokens);
        };
        next = end;
    }
    many(n, next.at - from.at, tokens)
}

// How many of the first of n elements of the type at p, of the extent x, are passed in one step: those that fit, up to one that is refused.
#[tactic(auto, unfolding(flattened::specs::inner::Columns::Definite, elements::specs::inner::Placing::Roomy))]
fn pass_extent(
    d: &[u8],
    p: usize,
    x: Extent,
    n: usize,
    s: &[u8],
    from: Cursor,
    o: Order,
    left: usize,
) -> Passed
    requires type_stands { TypeStands d.now p left }
    requires extent { x ≡ extent_of (type_at d.now p) }
    requires data_at { DataAt s.now from.at }
    ensures { Passes (order_of o) (type_at d.now p) s.now n from.at result }
{
    match x {
        Extent::Varies => Passed::default(),
        Extent::Fixed(w, tokens, _) => {
            let fit = fitting(n, w, s.len() - from.at);
            let most = keeping(d, p, x, fit, s, from, o, left);
            pass_fixed(w, tokens, most, s, from.at)
        }
        Extent::Around(before, after, tokens, _) => {
            let most = keeping(d, p, x, n, s, from, o, left);
            pass_around(before, after, tokens, most, s, from, o)
        }
    }
}

// The same, stretch by stretch: all judged numbers of a stretch are looked at before its first element is passed, and where one is refused,
// nothing behind its stretch is looked at.
fn pass_stretches(
    d: &[u8],
    p: usize,
    x: Extent,
    first: usize,
    n: usize,
    s: &[u8],
    from: Cursor,
    o: Order,
    left: usize,
) -> Passed
    requires type_stands { TypeStands d.now p left }
    requires extent { x ≡ extent_of (type_at d.now p) }
    requires first { 0 < first }
    requires data_at { DataAt s.now from.at }
    ensures { Passes (order_of o) (type_at d.now p) s.now n from.at result }
{
    let mut passed = Passed::default();
    let mut stretch = first;
    while passed.count < n {
        let span = stretch.min(n - passed.count);
        let more = pass_extent(d, p, x, span, s, from.past(passed.bytes), o, left);
        passed = passed + more;
        if more.count < span {
            return passed;
        }
        stretch = longer(stretch);
    }
    passed
}

// How many of the first of n elements of the type at p are passed in one step, by their extent; where none is judged, as one stretch of
// all that an array can have.
fn pass(d: &[u8], p: usize, n: usize, s: &[u8], from: Cursor, o: Order, left: usize) -> Passed
    requires type_stands { TypeStands d.now p left }
    requires data_at { DataAt s.now from.at }
    ensures { Passes (order_of o) (type_at d.now p) s.now n from.at result }
{
    let x = extent_of(d, p, left);
    let first = if judged_in(x) {
        FIRST_STRETCH
    } else {
        ELEMENT_CAP
    };
    pass_stretches(d, p, x, first, n, s, from, o, left)
}

// What is left of an array's elements, after those passed and the token of the sizes.
fn left_after(sizes: Sizes, passed: Passed) -> Front
    requires { LiesIn sizes passed }
    ensures { result ≡ left_after sizes passed }
{
    Front {
        left: sizes.count - passed.count,
        walked: Walked {
            next: sizes.elements.past(passed.bytes),
            tokens: 1 + passed.tokens,
        },
    }
}

// The front of an array of scalars of the type at p, of w bytes each. It hands on no slice to a function that stands by itself, so that its
// own are never laid down and read back.
pub fn scalar_front(
    d: &[u8],
    p: usize,
    w: usize,
    dims: usize,
    s: &[u8],
    from: Cursor,
    o: Order,
) -> Result<Front, Refusal>
    requires stands { Stands d.now p }
    requires wide { (w ≡ width_of (code_in d.now p)) × (0 < w) }
    requires dims { (1 ≤ dims) × (dims ≤ dimension_limit) }
    requires data_at { DataAt s.now from.at }
    ensures { FrontMet (order_of o) dims (type_at d.now p) s.now from.at result }
{
    let sizes = size_words(s, from, dims, o)?;
    let passed = pass_scalars(d, p, w, sizes.count, s, sizes.elements.at, o);
    Ok(left_after(sizes, passed))
}

// The front of the array whose elements are of the type at p.
pub fn array_front(
    d: &[u8],
    p: usize,
    dims: usize,
    s: &[u8],
    from: Cursor,
    o: Order,
    left: usize,
) -> Result<Front, Refusal>
    requires type_stands { TypeStands d.now p left }
    requires dims { (1 ≤ dims) × (dims ≤ dimension_limit) }
    requires data_at { DataAt s.now from.at }
    ensures { FrontMet (order_of o) dims (type_at d.now p) s.now from.at result }
{
    let sizes = size_words(s, from, dims, o)?;
    let passed = pass(d, p, sizes.count, s, sizes.elements, o, left);
    Ok(left_after(sizes, passed))
}

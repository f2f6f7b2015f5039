// Past values of one type in accepted data.
ghost use Rattle.std.specs.Prelude.{◌≡◌, ◌+◌, ◌-◌, ◌*◌, ◌≤◌};
ghost use Rattle.descriptor.specs.Limits.{data_limit, depth_limit};
ghost use Rattle.flattened.specs.inner.Cursor.{cursor};
ghost use Rattle.flattened.specs.inner.Types.{DataAt};
ghost use Rattle.access.specs.inner.Past.{Values, past_values, around_end, past_array};
ghost use Rattle.access.specs.inner.Spots.{ArrayLies};

use descriptor::codes::{Kind, kind_of};
use descriptor::header::code_at;
use descriptor::inside::inside_of;
use descriptor::limits::DEPTH_LIMIT;
use descriptor::width::width;
use flattened::cursor::Cursor;
use flattened::extent::{Extent, extent_of};
use flattened::order::Order;
use flattened::sizes::size_words;
use walking::walk::walk;

// Where n values end that are all in the data, the first at `from`, each of `before` bytes, a string and `after` bytes.
#[tactic(auto, using(crate::proofs::Arounds::around_laws), unfolding(flattened::specs::inner::Order::order_of))]
fn past_around(before: usize, after: usize, n: usize, s: &[u8], from: Cursor) -> Cursor
    requires { DataAt s.now (around_end before after s.now from.at n) }
    ensures { result ≡ cursor (around_end before after s.now from.at n) }
{
    let mut next = from;
    for _ in 0..n {
        let text = next.past(before);
        let length = text.number(s, Order::Big);
        next = text.past(4 + length + after);
    }
    next
}

// Where n values end, each of w bytes.
fn past_fixed(w: usize, n: usize, from: Cursor) -> Cursor
    requires { from.at + n * w ≤ data_limit }
    ensures { result ≡ cursor (from.at + n * w) }
{
    from.past(n * w)
}

// Where n values of the type at p end, by the walk of them.
#[tactic(auto, using(crate::proofs::Runs::run_laws), unfolding(flattened::specs::inner::Order::order_of))]
fn past_walked(d: &[u8], p: usize, n: usize, s: &[u8], from: Cursor) -> Cursor
    requires { Values d.now p n s.now from.at }
    ensures { result ≡ past_values d.now p n s.now from.at }
{
    match walk(d, p, n, s, from, Order::Big, DEPTH_LIMIT) {
        Ok(walked) => walked.next,
        // No walk of accepted data is refused.
        Err(_) => from,
    }
}

// Where n values of the type at p end, the first at `from`: one multiplication where no value takes more or less, the lengths of the
// strings where each has one, else the walk.
#[tactic(auto, using(crate::proofs::Runs::run_laws))]
pub fn past(d: &[u8], p: usize, n: usize, s: &[u8], from: Cursor) -> Cursor
    requires { Values d.now p n s.now from.at }
    ensures { result ≡ past_values d.now p n s.now from.at }
{
    match extent_of(d, p, DEPTH_LIMIT) {
        Extent::Varies => past_walked(d, p, n, s, from),
        Extent::Fixed(w, ..) => past_fixed(w, n, from),
        Extent::Around(before, after, ..) => past_around(before, after, n, s, from),
    }
}

// Where the array of `dims` dimensions ends whose elements are of the type at p.
#[tactic(auto, using(crate::proofs::Elements::array_laws), unfolding(flattened::specs::inner::Order::order_of))]
fn past_array(d: &[u8], p: usize, dims: usize, s: &[u8], from: Cursor) -> Cursor
    requires { ArrayLies d.now p dims (depth_limit - 1) s.now from.at }
    ensures { result ≡ past_array d.now p dims s.now from.at }
{
    match size_words(s, from, dims, Order::Big) {
        Ok(sizes) => past(d, p, sizes.count, s, sizes.elements),
        // The sizes of accepted data are not refused.
        Err(_) => from,
    }
}

// Where one value ends. Where an array's elements need no walk, it needs none.
pub fn past_one(d: &[u8], p: usize, s: &[u8], from: Cursor) -> Cursor
    requires { Values d.now p 1 s.now from.at }
    ensures { result ≡ past_values d.now p 1 s.now from.at }
{
    if let Kind::Array = kind_of(code_at(d, p)) {
        let inside = inside_of(d, p);
        return past_array(d, inside.at, inside.count, s, from);
    }
    past(d, p, 1, s, from)
}

// Where n elements of the type at p end, which are mostly scalars: each takes its width.
#[tactic(auto, using(crate::proofs::Runs::run_laws))]
pub fn past_elements(d: &[u8], p: usize, n: usize, s: &[u8], from: Cursor) -> Cursor
    requires { Values d.now p n s.now from.at }
    ensures { result ≡ past_values d.now p n s.now from.at }
{
    let w = width(code_at(d, p));
    if w != 0 {
        return past_fixed(w, n, from);
    }
    past(d, p, n, s, from)
}

// The same for a member, which is mostly a scalar: that takes its width.
#[tactic(auto, using(crate::proofs::Runs::run_laws))]
pub fn past_member(d: &[u8], p: usize, s: &[u8], from: Cursor) -> Cursor
    requires { Values d.now p 1 s.now from.at }
    ensures { result ≡ past_values d.now p 1 s.now from.at }
{
    let w = width(code_at(d, p));
    if w != 0 {
        return from.past(w);
    }
    past_one(d, p, s, from)
}

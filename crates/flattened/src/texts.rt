// Strings in data.
ghost use Rattle.std.specs.Prelude.{◌≡◌, ◌≤◌, length};
ghost use Rattle.flattened.specs.Walk.{text_at, repeat};
ghost use Rattle.flattened.specs.inner.Order.{order_of};
ghost use Rattle.flattened.specs.inner.Progress.{progress};

use super::cursor::Cursor;
use super::limits::LENGTH_LIMIT;
use super::order::Order;
use super::progress::Walked;
use descriptor::refusal::{Fault, Refusal};

// n strings, one after another: a length word and characters each.
pub fn texts(s: &[u8], n: usize, from: Cursor, o: Order) -> Result<Walked, Refusal>
    requires { from.at ≤ length s.now }
    ensures { result ≡ progress (repeat (λ a. text_at (order_of o) s.now a) n from.at) }
{
    let mut next = from;
    for _ in 0..n {
        let at = next.at;
        let Some(length) = next.word(s, o) else {
            return Err(Fault::DataEnd.at(at));
        };
        if LENGTH_LIMIT <= length.number {
            return Err(Fault::Length.at(at));
        }
        let Some(end) = length.next.skip(s, length.number) else {
            return Err(Fault::DataEnd.at(at));
        };
        next = end;
    }
    Ok(Walked { next, tokens: n })
}

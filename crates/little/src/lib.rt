// The little-endian form of flattened data, there and back.
#![tactic(auto)]

ghost use Rattle.std.specs.Prelude.{◌≡◌};
ghost use Rattle.flattened.specs.inner.Order.{order_of};
ghost use Rattle.byte_order.specs.Reversal.{turned, to_little_endian, from_little_endian};

use descriptor::answer::{Answer, Input};
use descriptor::limits::DEPTH_LIMIT;
use descriptor::refusal::Fault;
use flattened::order::Order;
use turning::turn::turn_values;
use walking::check::check_ordered;

// The data s under the descriptor d, read in the order o and written in the other to the front of out; the place is its length. A refusal
// writes nothing: that of the check, or 50 where out is too small, with the length needed.
fn turn_data(d: &[u8], s: &[u8], out: &mut [u8], o: Order) -> Answer
    ensures answer { result ≡ (turned (order_of o) d.now s.now out.old).answer }
    ensures wrote { out.new ≡ (turned (order_of o) d.now s.now out.old).out }
{
    let checked = check_ordered(d, s, o);
    if checked.number != 0 {
        return checked;
    }
    let n = s.len();
    if out.len() < n {
        return Answer::refused(Fault::Room, Input::Request, n);
    }
    turn_values(d, 0, 1, s, out, 0, o, DEPTH_LIMIT);
    Answer::accepted(n)
}

// Writes the little-endian form of the data s under the descriptor d to the front of out. An accepted answer's place is the length written,
// and output beyond it keeps its bytes; a refusal writes nothing.
pub fn to_little_endian(d: &[u8], s: &[u8], out: &mut [u8]) -> Answer
    ensures answer { result ≡ (to_little_endian d.now s.now out.old).answer }
    ensures wrote { out.new ≡ (to_little_endian d.now s.now out.old).out }
{
    turn_data(d, s, out, Order::Big)
}

// Writes the data whose little-endian form under the descriptor d is s to the front of out. The refusals are those of the data check with
// lengths, sizes and numbers read little-endian.
pub fn from_little_endian(d: &[u8], s: &[u8], out: &mut [u8]) -> Answer
    ensures answer { result ≡ (from_little_endian d.now s.now out.old).answer }
    ensures wrote { out.new ≡ (from_little_endian d.now s.now out.old).out }
{
    turn_data(d, s, out, Order::Little)
}

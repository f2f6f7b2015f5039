// One number or flag in data.
ghost use Rattle.std.specs.Prelude.{◌≡◌, ◌≤◌, ◌<◌, length};
ghost use Rattle.descriptor.specs.Header.{code_in};
ghost use Rattle.descriptor.specs.Width.{width_of};
ghost use Rattle.descriptor.specs.inner.Standing.{Stands};
ghost use Rattle.flattened.specs.Walk.{walk};
ghost use Rattle.flattened.specs.inner.Order.{order_of};
ghost use Rattle.flattened.specs.inner.Progress.{progress};
ghost use Rattle.flattened.specs.inner.Types.{type_at};

use super::cursor::Cursor;
use super::extent::limit_of;
use super::order::{Order, narrow_number};
use super::progress::Walked;
use descriptor::refusal::{Fault, Refusal};

// The value of the type at p, which takes w bytes.
pub fn scalar(
    d: &[u8],
    p: usize,
    w: usize,
    s: &[u8],
    from: Cursor,
    o: Order,
) -> Result<Walked, Refusal>
    requires stands { Stands d.now p }
    requires w_value { (w ≡ width_of (code_in d.now p)) × (0 < w) }
    requires at_in_bounds { from.at ≤ length s.now }
    ensures { result ≡ progress (walk (order_of o) (type_at d.now p) s.now from.at) }
{
    let at = from.at;
    let Some(next) = from.skip(s, w) else {
        return Err(Fault::DataEnd.at(at));
    };
    if let Some(limit) = limit_of(d, p) {
        if limit <= narrow_number(s, at, w, o) {
            return Err(Fault::Enumeration.at(at));
        }
    }
    Ok(Walked { next, tokens: 1 })
}

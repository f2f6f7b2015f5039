// The data of a rig's members.
ghost use Rattle.std.specs.Prelude.{◌≡◌, suc, IfOk};
ghost use Rattle.descriptor.specs.Limits.{depth_limit};
ghost use Rattle.flattened.specs.Order.{big};
ghost use Rattle.flattened.specs.Walk.{walk, walk_all};
ghost use Rattle.flattened.specs.inner.Progress.{progress};
ghost use Rattle.flattened.specs.inner.Types.{type_at, types_at, TypeStands, DataAt};
ghost use Rattle.members.specs.inner.Members.{Members, Column};
ghost use Rattle.resolution.specs.inner.Data.{data_from, end_of};

use descriptor::header::{code_at, size_at};
use descriptor::limits::DEPTH_LIMIT;
use descriptor::refusal::Refusal;
use descriptor::width::width;
use flattened::cursor::Cursor;
use flattened::order::Order;
use flattened::progress::Walked;
use flattened::scalar::scalar;
use walking::walk::walk;

// The walk of the type at p. A number or flag is passed with no call for what stands inside it.
#[tactic(auto, using(crate::proofs::Walking::walk_laws), unfolding(flattened::specs::inner::Order::order_of))]
fn walk_member(d: &[u8], p: usize, s: &[u8], from: Cursor) -> Result<Walked, Refusal>
    requires type_stands { TypeStands d.now p depth_limit }
    requires data_at { DataAt s.now from.at }
    ensures { result ≡ progress (walk big (type_at d.now p) s.now from.at) }
{
    let w = width(code_at(d, p));
    if w != 0 {
        return scalar(d, p, w, s, from, Order::Big);
    }
    walk(d, p, 1, s, from, Order::Big, DEPTH_LIMIT)
}

// The walk of the k types that stand in d from `start` on, and where it ends. Where each one's data starts goes to `starts`, and where the last
// ends after them.
#[tactic(auto, using(crate::proofs::Walking::walk_laws))]
pub fn walk_members(
    d: &[u8],
    k: usize,
    start: usize,
    s: &[u8],
    starts: &mut [u32; 257],
) -> Result<usize, Refusal>
    requires members { Members d.now k start }
    requires data_at { DataAt s.now 0 }
    ensures end { result ≡ end_of (walk_all big (types_at d.now k start) s.now 0) }
    ensures starts { IfOk result (λ _. Column (data_from d.now start s.now) (suc k) starts.new) }
{
    let mut p = start;
    let mut next = Cursor { at: 0 };
    for i in 0..k {
        starts[i] = next.at as u32;
        next = walk_member(d, p, s, next)?.next;
        p += size_at(d, p);
    }
    starts[k] = next.at as u32;
    Ok(next.at)
}

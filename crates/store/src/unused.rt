// Unused entries: each of them is zero.
ghost use Rattle.std.specs.Prelude.{◌≡◌, ◌+◌, ◌-◌, ◌≤◌, length, replicate};
ghost use Rattle.std.proofs.Math.Seq.{slice};
ghost use Rattle.canonical.specs.Equality.{same_chars};
ghost use Rattle.store.specs.Check.{unused_at};
ghost use Rattle.resolution.specs.inner.Data.{passed};

use super::entry::{Entries, entry_place};
use descriptor::refusal::{Fault, Refusal};
use elements::largest::largest;
use flattened::order::Order;

// Whether the bytes from `from` on, so many, are zero: none is larger.
fn is_zero(s: &[u8], from: usize, size: usize) -> bool
    requires { from + size ≤ length s.now }
    ensures { result ≡ same_chars (slice from (from + size) s.now) (replicate size 0) }
{
    largest(s, from, 1, 1, size, Order::Big) == 0
}

// Of these entries, those from n on, which are not in use, all at once; where one is not zero, one after the other.
pub fn check_unused(entries: Entries, n: usize) -> Result<(), Refusal>
    requires { n ≤ entries.count }
    ensures { result ≡ passed (unused_at entries.entry.bytes.now (entries.entry.count - n) n) }
{
    if is_zero(entries.bytes, entry_place(n), 16 * (entries.count - n)) {
        return Ok(());
    }
    for i in n..entries.count {
        if !is_zero(entries.bytes, entry_place(i), 16) {
            return Err(Fault::Book.at(i));
        }
    }
    Ok(())
}

// A descriptor's name.
ghost use Rattle.std.specs.Prelude.{◌≡◌};
ghost use Rattle.descriptor.specs.Check.{name_at};
ghost use Rattle.descriptor.specs.Table.{length_of_name};
ghost use Rattle.descriptor.specs.inner.Steps.{counted};
ghost use Rattle.descriptor.specs.inner.Promises.{Within};

use descriptor::refusal::Refusal;
use descriptor::step::{Step, no_name, past};
use number::endian::wide;

// What is left of a descriptor from `at` up to `stop`, as a name; the value is its length. There is none where `at` is `stop`.
#[tactic(auto, unfolding(descriptor::specs::Check::name_at, descriptor::specs::Table::length_of_name))]
pub fn name(d: &[u8], stop: usize, at: usize) -> Result<Step, Refusal>
    requires { Within d.now at stop }
    ensures { result ≡ counted length_of_name (name_at d.now stop at) }
{
    if at == stop {
        return Ok(past(at, 0));
    }
    let len = wide(d[at]);
    let last = at + 1 + len;
    let odd = (1 + len) % 2;
    if last + odd != stop {
        return Err(no_name(at));
    }
    if odd != 0 && d[last] != 0 {
        return Err(no_name(at));
    }
    Ok(past(stop, len))
}

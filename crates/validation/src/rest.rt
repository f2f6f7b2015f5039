// What is left of a descriptor after its children.
ghost use Rattle.std.specs.Prelude.{◌≡◌, true, ◌≤◌, length};
ghost use Rattle.descriptor.specs.Codes.{kind_of, is_stamp};
ghost use Rattle.descriptor.specs.Header.{body_at};
ghost use Rattle.descriptor.specs.Table.{length_of_name};
ghost use Rattle.descriptor.specs.inner.Steps.{counted};
ghost use Rattle.descriptor.specs.inner.Promises.{Within};
ghost use Rattle.validation.specs.inner.Rest.{bare_at, stamp_at, rest_at, Lies};

use super::name::name;
use descriptor::codes::{CLUSTER, is_stamp};
use descriptor::header::{code_at, size_at};
use descriptor::refusal::{Fault, Refusal};
use descriptor::step::Step;
use number::endian::be16;

// Whether a descriptor of the code stands at p with nothing after its header.
fn bare_at(d: &[u8], code: u8, p: usize) -> bool
    requires { body_at p ≤ length d.now }
    ensures { result ≡ bare_at d.now code p }
{
    size_at(d, p) == 4 && code_at(d, p) == code
}

// Whether the descriptor at p, which is accepted by itself, is what stands in a time stamp: an unnamed cluster of four unnamed integers.
#[tactic(auto, unfolding(crate::specs::inner::Rest::stamp_at, crate::specs::inner::Rest::bares_at))]
fn stamp_at(d: &[u8], p: usize) -> bool
    requires { Lies d.now p }
    ensures { result ≡ stamp_at d.now p }
{
    size_at(d, p) == 22
        && code_at(d, p) == CLUSTER
        && be16(d, p + 4) == 4
        && bare_at(d, 3, p + 6)
        && bare_at(d, 3, p + 10)
        && bare_at(d, 7, p + 14)
        && bare_at(d, 7, p + 18)
}

// What is left of the descriptor at p, of the code, from `at` up to `stop`. Its children stand from `inside` on: 10 where they are not those
// of a time stamp that it is. Then its name; the value is the name's length.
#[tactic(auto, unfolding(crate::specs::inner::Rest::rest_at))]
pub fn rest(
    d: &[u8],
    code: u8,
    p: usize,
    inside: usize,
    stop: usize,
    at: usize,
) -> Result<Step, Refusal>
    requires within { Within d.now at stop }
    requires lies { is_stamp (kind_of code) ≡ true → Lies d.now inside }
    ensures { result ≡ counted length_of_name (rest_at (kind_of code) d.now p inside stop at) }
{
    if is_stamp(code) && !stamp_at(d, inside) {
        return Err(Fault::Contents.at(p));
    }
    name(d, stop, at)
}

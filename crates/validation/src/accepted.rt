// Descriptors that are accepted.
ghost use Rattle.std.specs.Prelude.{◌≡◌, ◌<◌, true, ℕ, MatchResult, slice_index};
ghost use Rattle.descriptor.specs.Outcome.{refused};
ghost use Rattle.descriptor.specs.Check.{checked};
ghost use Rattle.descriptor.specs.inner.Standing.{is_read};

use super::validate::validate;
use descriptor::refusal::Refusal;

// The bytes of a descriptor that the check accepts.
#[derive(Clone, Copy, Debug)]
pub struct Descriptor<'a> {
    pub bytes: &'a [u8],
    pub ghost accepted: { is_read (checked bytes.now) ≡ true },
    pub ghost small: { (k : ℕ) → slice_index bytes.now k < 256 },
}

// The bytes as a descriptor, or their first refusal.
impl<'a> TryFrom<&'a [u8]> for Descriptor<'a> {
    type Error = Refusal;

    ghost try_from_gives = { λ d r. MatchResult r (λ a. a.bytes.now ≡ d.now) (λ e. checked d.now ≡ refused e.number e.place) };

    fn try_from(d: &'a [u8]) -> Result<Descriptor<'a>, Refusal> {
        validate(d)?;
        Ok(Descriptor { bytes: d })
    }
}

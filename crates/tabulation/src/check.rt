// The check of any bytes as a descriptor, with its table.
ghost use Rattle.std.specs.Prelude.{◌≡◌};
ghost use Rattle.descriptor.specs.Answers.{descriptor_check, with_table};

use super::table::{tabulate, zero_rows};
use descriptor::answer::{Answer, Checked, Input};
use validation::validate::validate;

// The first refusal and the zero table; or the row count and the rows, in order of first byte.
#[tactic(auto, using(descriptor::proofs::Checked::answered))]
pub fn check_descriptor(d: &[u8]) -> Checked
    ensures { result ≡ with_table (descriptor_check d.now) }
{
    match validate(d) {
        Ok(v) => Checked {
            answer: Answer::accepted(v.value),
            rows: tabulate(d),
        },
        Err(refusal) => Checked {
            answer: refusal.of(Input::First),
            rows: zero_rows(),
        },
    }
}

// The check of data under a descriptor.
ghost use Rattle.std.specs.Prelude.{◌≡◌};
ghost use Rattle.flattened.specs.Answers.{data_check};
ghost use Rattle.flattened.specs.inner.Order.{order_of};
ghost use Rattle.flattened.specs.inner.Checks.{ordered_check};

use super::walk::walk_one;
use descriptor::answer::{Answer, Input};
use descriptor::limits::DEPTH_LIMIT;
use descriptor::refusal::Fault;
use flattened::cursor::Cursor;
use flattened::limits::DATA_LIMIT;
use flattened::order::Order;
use validation::validate::validate;

// The answer for data in the byte order o. `&d[..]` is d, and quicker to hand on (docs/DECISIONS.md, "Code").
#[tactic(auto, using(crate::proofs::Checking::check_laws))]
pub fn check_ordered(d: &[u8], s: &[u8], o: Order) -> Answer
    ensures { result ≡ ordered_check (order_of o) d.now s.now }
{
    if let Err(refusal) = validate(d) {
        return refusal.of(Input::First);
    }
    if DATA_LIMIT < s.len() {
        return Answer::refused(Fault::DataLength, Input::Data, 0);
    }
    match walk_one(&d[..], 0, &s[..], Cursor { at: 0 }, o, DEPTH_LIMIT) {
        Err(refusal) => refusal.of(Input::Data),
        Ok(walked) if walked.next.at != s.len() => {
            Answer::refused(Fault::LeftOver, Input::Data, walked.next.at)
        }
        Ok(walked) => Answer::accepted(walked.tokens),
    }
}

// The first refusal, of the descriptor or of the data; or how many tokens the data has.
#[tactic(auto, using(crate::proofs::Checking::check_big), unfolding(flattened::specs::inner::Order::order_of))]
pub fn check_data(d: &[u8], s: &[u8]) -> Answer
    ensures { result ≡ data_check d.now s.now }
{
    check_ordered(d, s, Order::Big)
}

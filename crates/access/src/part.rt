// The part of data at a path.
ghost use Rattle.std.specs.Prelude.{◌≡◌, ◌+◌, ◌≤◌, length};
ghost use Rattle.access.specs.Path.{no_part, located, viewed, place_in};

use super::past::past_one;
use super::steps::spot_at;
use descriptor::answer::{Answer, Input};
use descriptor::refusal::Fault;
use walking::check::check_data;

// The answer to a view, with where the part starts in the data and how long it is; 0 and 0 where it is refused.
#[repr(C)]
#[derive(Clone, Copy)]
pub struct Part {
    pub answer: Answer,
    pub start: usize,
    pub length: usize,
}

// A refusal gives "an empty part at the front of the data"; so where a part of a book is asked for.
pub fn no_part(answer: Answer) -> Part
    ensures { result ≡ no_part answer.number answer.input answer.place }
{
    Part {
        answer,
        start: 0,
        length: 0,
    }
}

// Where the part at a path stands in the data: up to where its type's data ends.
#[tactic(auto, using(crate::proofs::Parts::part_laws))]
pub fn locate(d: &[u8], s: &[u8], path: &[u32]) -> Part
    ensures value { result ≡ located d.now s.now path.now }
    ensures within { result.start + result.length ≤ length s.now }
{
    let checked = check_data(d, s);
    if checked.number != 0 {
        return no_part(checked);
    }
    match spot_at(d, s, path) {
        Err(i) => no_part(Answer::refused(Fault::Step, Input::Request, i)),
        Ok(spot) => {
            let end = past_one(d, spot.place, s, spot.start);
            Part {
                answer: Answer::accepted(0),
                start: spot.start.at,
                length: end.at - spot.start.at,
            }
        }
    }
}

// The part itself; a refusal gives an empty part at the front of the data.
pub fn view<'a>(d: &[u8], s: &'a [u8], path: &[u32]) -> &'a [u8]
    ensures bytes { result.now ≡ viewed d.now s.now path.now }
    ensures place { result.ref_ptr ≡ place_in s.entry (located d.now s.now path.now).start }
{
    let part = locate(d, s, path);
    let end = part.start + part.length;
    &s[part.start..end]
}

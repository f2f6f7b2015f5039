// The value at a path.
ghost use Rattle.std.specs.Prelude.{◌≡◌, ◌+◌, ◌^◌, ◌≤◌, length};
ghost use Rattle.number.specs.Endian.{be};
ghost use Rattle.number.specs.inner.Post.{Bounded};
ghost use Rattle.descriptor.specs.Limits.{depth_limit};
ghost use Rattle.reading.specs.Values.{value_at, no_value, read_value};
ghost use Rattle.access.specs.inner.Spots.{Lies, spot};

use super::value::{Reading, Value, value_of};
use access::spot::Spot;
use access::steps::spot_at;
use descriptor::answer::{Answer, Input};
use descriptor::header::code_at;
use descriptor::refusal::Fault;
use descriptor::width::width;
use number::endian::{be64, read_be};
use walking::check::check_data;

// The widest number: more bytes are an extended or a complex number.
const WIDEST: usize = 8;

// The number of the w bytes at `at`. Eight, as a double has, are read as two halves.
fn number_at(s: &[u8], at: usize, w: usize) -> u64
    requires { (w ≤ 8) × (at + w ≤ length s.now) }
    ensures { Bounded result (be s.now at w) (256 ^ w) }
{
    if w == WIDEST {
        return be64(s, at);
    }
    read_be(s, at, w)
}

// The value at a spot; `Nothing` where there is no single number.
#[tactic(auto, using(crate::proofs::Readings::spot_laws))]
fn value_at(d: &[u8], x: Spot, s: &[u8]) -> Value
    requires { Lies d.now x.place depth_limit s.now x.start.at }
    ensures { result ≡ value_at s.now (spot d.now x.place x.start.at) }
{
    let code = code_at(d, x.place);
    let w = width(code);
    if WIDEST < w {
        return Value::Nothing;
    }
    value_of(code, number_at(s, x.start.at, w))
}

// A refusal gives "no value".
fn no_value(answer: Answer) -> Reading
    ensures { result ≡ no_value answer.number answer.input answer.place }
{
    Reading {
        answer,
        value: Value::Nothing,
    }
}

// The value at a path: 31 where there is no single number. `&d[..]` is d, and quicker to hand on (docs/DECISIONS.md, "Code").
#[tactic(auto, using(crate::proofs::Readings::reading_laws))]
pub fn read_value(d: &[u8], s: &[u8], path: &[u32]) -> Reading
    ensures { result ≡ read_value d.now s.now path.now }
{
    let checked = check_data(d, s);
    if checked.number != 0 {
        return no_value(checked);
    }
    match spot_at(&d[..], &s[..], path) {
        Err(i) => no_value(Answer::refused(Fault::Step, Input::Request, i)),
        Ok(spot) => match value_at(d, spot, s) {
            Value::Nothing => no_value(Answer::refused(Fault::NoNumber, Input::Request, 0)),
            value => Reading {
                answer: Answer::accepted(0),
                value,
            },
        },
    }
}

// The exact difference of two time stamps.
#![tactic(auto)]

ghost use Rattle.std.specs.Prelude.{◌≡◌, ◌+◌, ◌*◌, ◌^◌, pos, ◌+ℤ◌, ◌*ℤ◌};
ghost use Rattle.timestamp.specs.Difference.{bits_of, difference};

use descriptor::answer::{Answer, Input};
use descriptor::refusal::Fault;

// The seconds and the fraction of the first stamp less the second, in units of 2^-64 second; both 0 where it is refused.
#[repr(C)]
#[derive(Clone, Copy)]
pub struct Difference {
    pub answer: Answer,
    pub seconds: i64,
    pub fraction: u64,
}

// The fraction of the two halves.
fn fraction_of(high: u32, low: u32) -> u64
    ensures { result ≡ high * 2 ^ 32 + low }
{
    u64::from(high) * 4294967296 + u64::from(low)
}

// The seconds of the two halves, of which the low one counts by its bits.
fn seconds_of(high: i32, low: i32) -> i64
    ensures { result ≡ high *ℤ pos (2 ^ 32) +ℤ pos (bits_of low) }
{
    i64::from(high) * 4294967296 + i64::from(low.cast_unsigned())
}

// The first stamp less the second, each as its four integers: seconds high and low, fraction high and low.
pub fn stamp_difference(
    a: i32,
    b: i32,
    c: u32,
    d: u32,
    e: i32,
    f: i32,
    g: u32,
    h: u32,
) -> Difference
    ensures { result ≡ difference a b c d e f g h }
{
    let x = fraction_of(c, d);
    let y = fraction_of(g, h);
    let borrowed = i128::from(x < y);
    let seconds = i128::from(seconds_of(a, b)) - i128::from(seconds_of(e, f)) - borrowed;
    match i64::try_from(seconds) {
        Ok(seconds) => Difference {
            answer: Answer::accepted(0),
            seconds,
            fraction: x.wrapping_sub(y),
        },
        // 32: no seconds of 64 signed bits are the difference's.
        Err(_) => Difference {
            answer: Answer::refused(Fault::Difference, Input::Request, 0),
            seconds: 0,
            fraction: 0,
        },
    }
}

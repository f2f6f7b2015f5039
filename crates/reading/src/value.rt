// The values that data holds, and their kinds and bits for callers in C.
ghost use Rattle.std.specs.Prelude.{◌≡◌, ◌^◌, ◌<◌};
ghost use Rattle.std.specs.Float.{binary32, binary64};
ghost use Rattle.std.specs.Float.Ieee.{to_bits};
ghost use Rattle.number.specs.Float.{single_of, double_of};
ghost use Rattle.descriptor.specs.Width.{width_of};
ghost use Rattle.reading.specs.Values.{of_single, of_double, value_of, value_kind, value_bits};

use descriptor::answer::Answer;
use descriptor::width::width;
use number::float::{Double, Single, double_of, single_of};
use number::signed::signed_of;

// "an unsigned number, a signed number, a single, a double or a flag". A float of the language holds no NaN's bits, so the patterns of
// NaNs are cases of their own; a refusal gives `Nothing`. That is a case and no `Option` around the others, since it is one of the kinds.
#[derive(Clone, Copy, Debug, PartialEq)]
pub enum Value {
    Nothing,
    Unsigned(u64),
    Signed(i64),
    Single(f32),
    SingleNan(u32),
    Double(f64),
    DoubleNan(u64),
    Flag(bool),
}

// The answer to a reading, with the value.
#[derive(Clone, Copy)]
pub struct Reading {
    pub answer: Answer,
    pub value: Value,
}

impl From<Single> for Value {
    ghost from_gives = { λ single v. v ≡ of_single single };

    #[tactic(auto, unfolding(crate::specs::Values::of_single))]
    fn from(single: Single) -> Value {
        match single {
            Single::Number(x) => Value::Single(x),
            Single::Nan(bits) => Value::SingleNan(bits),
        }
    }
}

impl From<Double> for Value {
    ghost from_gives = { λ double v. v ≡ of_double double };

    #[tactic(auto, unfolding(crate::specs::Values::of_double))]
    fn from(double: Double) -> Value {
        match double {
            Double::Number(x) => Value::Double(x),
            Double::Nan(bits) => Value::DoubleNan(bits),
        }
    }
}

// The value of a code whose bytes are the number `bits`; `Nothing` where a value of the code is no single number.
#[tactic(auto, using(crate::proofs::Values::value_laws))]
pub fn value_of(code: u8, bits: u64) -> Value
    requires { bits < 256 ^ width_of code }
    ensures { result ≡ value_of code bits }
{
    match code {
        0x01..=0x04 => Value::Signed(signed_of(bits, width(code))),
        0x05..=0x08 | 0x15..=0x17 => Value::Unsigned(bits),
        0x09 | 0x19 => Value::from(single_of(bits as u32)),
        0x0A | 0x1A => Value::from(double_of(bits)),
        0x21 => Value::Flag(bits != 0),
        _ => Value::Nothing,
    }
}

// A value's kind: 0 no value, 1 unsigned, 2 signed, 3 single, 4 double, 5 flag.
#[tactic(auto, unfolding(crate::specs::Values::value_kind))]
pub fn value_kind(v: Value) -> u32
    ensures { result ≡ value_kind v }
{
    match v {
        Value::Nothing => 0,
        Value::Unsigned(_) => 1,
        Value::Signed(_) => 2,
        Value::Single(_) | Value::SingleNan(_) => 3,
        Value::Double(_) | Value::DoubleNan(_) => 4,
        Value::Flag(_) => 5,
    }
}

// Two functions for the bits of floats, and no generic one: f32 and f64 share no trait that has them, and one of ours is longer than both.

// The bits of a single; of a NaN that holds none, those that the definitions give it.
#[tactic(auto, using(crate::proofs::Signs::nan_bits))]
fn single_bits(x: f32) -> u32
    ensures { result ≡ to_bits binary32 x }
{
    if x.is_nan() {
        return 0x7FC0_0000;
    }
    x.to_bits()
}

// The bits of a double, likewise.
#[tactic(auto, using(crate::proofs::Signs::nan_bits))]
fn double_bits(x: f64) -> u64
    ensures { result ≡ to_bits binary64 x }
{
    if x.is_nan() {
        return 0x7FF8_0000_0000_0000;
    }
    x.to_bits()
}

// A value's bits.
#[tactic(auto, using(crate::proofs::Signs::turned_over), unfolding(crate::specs::Values::value_bits))]
pub fn value_bits(v: Value) -> u64
    ensures { result ≡ value_bits v }
{
    match v {
        Value::Nothing => 0,
        Value::Unsigned(n) => n,
        Value::Signed(z) => z.cast_unsigned(),
        Value::Single(x) => single_bits(x) as u64,
        Value::SingleNan(bits) => bits as u64,
        Value::Double(x) => double_bits(x),
        Value::DoubleNan(bits) => bits,
        Value::Flag(b) => b as u64,
    }
}

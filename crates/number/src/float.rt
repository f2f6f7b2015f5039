// Singles and doubles by their bits. A float of the language holds no NaN's bits, so a NaN is a case of its own. There are two of each type
// and function: a trait with the float, its bits and infinity's pattern would take more lines than the second of each does.
ghost use Rattle.std.specs.Prelude.{◌≡◌};
ghost use Rattle.number.specs.Float.{single_of, double_of};

// The patterns of infinity.
const SINGLE_INFINITY: u32 = 0x7F80_0000;

const DOUBLE_INFINITY: u64 = 0x7FF0_0000_0000_0000;

// A 32-bit float: a number or an infinity, or the bits of a NaN.
#[derive(Clone, Copy, Debug, PartialEq)]
pub enum Single {
    Number(f32),
    Nan(u32),
}

// A 64-bit float: a number or an infinity, or the bits of a NaN.
#[derive(Clone, Copy, Debug, PartialEq)]
pub enum Double {
    Number(f64),
    Nan(u64),
}

// The single whose bits are `bits`: past the sign, a pattern above infinity's is a NaN's.
pub fn single_of(bits: u32) -> Single
    ensures { result ≡ single_of bits }
{
    if bits % 0x8000_0000 <= SINGLE_INFINITY {
        Single::Number(f32::from_bits(bits))
    } else {
        Single::Nan(bits)
    }
}

// The double whose bits are `bits`: past the sign, a pattern above infinity's is a NaN's.
pub fn double_of(bits: u64) -> Double
    ensures { result ≡ double_of bits }
{
    if bits % 0x8000_0000_0000_0000 <= DOUBLE_INFINITY {
        Double::Number(f64::from_bits(bits))
    } else {
        Double::Nan(bits)
    }
}

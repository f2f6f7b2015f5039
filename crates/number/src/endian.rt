// Reading and writing numbers of up to eight bytes, in either byte order.
ghost use Rattle.std.specs.Prelude.{◌≡◌, ◌+◌, ◌^◌, ◌≤◌, length};
ghost use Rattle.std.proofs.lemmas.List.Edits.{sets};
ghost use Rattle.number.specs.Endian.{be, le, be_bytes, le_bytes};
ghost use Rattle.number.specs.inner.Post.{Bounded};

// How many numbers four bytes can say.
pub const WORD_RANGE: u64 = 0x1_0000_0000;

// A byte as a `usize`.
pub fn wide(x: u8) -> usize
    ensures { Bounded result x 256 }
{
    x as usize
}

// The big-endian number of the two bytes at `at`.
pub fn be16(s: &[u8], at: usize) -> usize
    requires { at + 2 ≤ length s.now }
    ensures { Bounded result (be s.now at 2) 65536 }
{
    wide(s[at]) * 256 + wide(s[at + 1])
}

// The big-endian number of the four bytes at `at`.
pub fn be32(s: &[u8], at: usize) -> usize
    requires { at + 4 ≤ length s.now }
    ensures { Bounded result (be s.now at 4) 4294967296 }
{
    be16(s, at) * 65536 + be16(s, at + 2)
}

// The big-endian number of the n bytes at `at`.
pub fn read_be(s: &[u8], at: usize, n: usize) -> u64
    requires { (n ≤ 8) × (at + n ≤ length s.now) }
    ensures { Bounded result (be s.now at n) (256 ^ n) }
{
    let mut v: u64 = 0;
    for byte in &s[at..at + n] {
        v = v * 256 + u64::from(*byte);
    }
    v
}

// The big-endian number of the four bytes at `at` as one of 32 bits, so that it is one load and one swap of bytes.
fn half(s: &[u8], at: usize) -> u32
    requires { at + 4 ≤ length s.now }
    ensures { Bounded result (be s.now at 4) (256 ^ 4) }
{
    read_be(s, at, 4) as u32
}

// The big-endian number of the eight bytes at `at`: two halves of four, joined.
pub fn be64(s: &[u8], at: usize) -> u64
    requires { at + 8 ≤ length s.now }
    ensures { Bounded result (be s.now at 8) (256 ^ 8) }
{
    let high = half(s, at) as u64;
    let low = half(s, at + 4) as u64;
    high * WORD_RANGE + low
}

// The little-endian number of the n bytes at `at`.
pub fn read_le(s: &[u8], at: usize, n: usize) -> u64
    requires { (n ≤ 8) × (at + n ≤ length s.now) }
    ensures { Bounded result (le s.now at n) (256 ^ n) }
{
    let mut v: u64 = 0;
    for left in (0..n).rev() {
        v = v * 256 + u64::from(s[at + left]);
    }
    v
}

// Writes the n bytes of v to `out` from `at` on, most significant first.
pub fn write_be(out: &mut [u8], at: usize, n: usize, v: u64)
    requires { at + n ≤ length out.old }
    ensures { out.new ≡ sets out.old at (be_bytes n v) }
{
    let mut rest = v;
    for left in (0..n).rev() {
        out[at + left] = (rest % 256) as u8;
        rest /= 256;
    }
}

// Writes the n bytes of v to `out` from `at` on, least significant first.
pub fn write_le(out: &mut [u8], at: usize, n: usize, v: u64)
    requires { at + n ≤ length out.old }
    ensures { out.new ≡ sets out.old at (le_bytes n v) }
{
    let mut rest = v;
    for i in 0..n {
        out[at + i] = (rest % 256) as u8;
        rest /= 256;
    }
}

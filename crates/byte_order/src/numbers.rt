// One number reversed by value: read most significant byte first and written least significant byte first. Each step is a function of
// its own, so that it is simplified before it is put into a loop.
ghost use Rattle.std.specs.Prelude.{◌≡◌, ℕ, ◌+◌, ◌≤◌, length};
ghost use Rattle.std.proofs.lemmas.List.Edits.{sets};
ghost use Rattle.number.specs.Endian.{be, le_bytes};
ghost use Rattle.byte_order.specs.inner.Turning.{turned_at, NumberWide, Room};

use flattened::order::{Number, Order};
use number::endian::{read_be, write_le};

// How many numbers four bytes can say.
const WORD_RANGE: u64 = 4294967296;

// The numbers of one width, by the type that holds one.
pub trait Turn {
    // How many bytes a number has.
    ghost WIDTH: { ℕ };

    const WIDTH: usize;

    // Turns the number at `at`.
    fn turn(s: &[u8], out: &mut [u8], at: usize)
        requires { Room s.now out.old (at + WIDTH) }
        ensures { out.new ≡ turned_at WIDTH s.now at out.old };
}

// A single byte stays as it is.
impl Turn for u8 {
    ghost WIDTH = { 1 };

    const WIDTH: usize = 1;

    fn turn(s: &[u8], out: &mut [u8], at: usize) {
        out[at] = s[at];
    }
}

impl Turn for u16 {
    ghost WIDTH = { 2 };

    const WIDTH: usize = 2;

    fn turn(s: &[u8], out: &mut [u8], at: usize) {
        write_le(out, at, 2, u16::read(s, at, Order::Big) as u64);
    }
}

impl Turn for u32 {
    ghost WIDTH = { 4 };

    const WIDTH: usize = 4;

    fn turn(s: &[u8], out: &mut [u8], at: usize) {
        write_le(out, at, 4, u32::read(s, at, Order::Big) as u64);
    }
}

impl Turn for u64 {
    ghost WIDTH = { 8 };

    const WIDTH: usize = 8;

    fn turn(s: &[u8], out: &mut [u8], at: usize) {
        write_8(out, at, read_8(s, at));
    }
}

// Two eights, each reversed, exchanged.
impl Turn for u128 {
    ghost WIDTH = { 16 };

    const WIDTH: usize = 16;

    fn turn(s: &[u8], out: &mut [u8], at: usize) {
        let high = read_8(s, at);
        let low = read_8(s, at + 8);
        write_8(out, at, low);
        write_8(out, at + 8, high);
    }
}

fn read_word(s: &[u8], at: usize) -> u32
    requires { at + 4 ≤ length s.now }
    ensures { result ≡ be s.now at 4 }
{
    read_be(s, at, 4) as u32
}

fn write_word(out: &mut [u8], at: usize, v: u32)
    requires { at + 4 ≤ length out.old }
    ensures { out.new ≡ sets out.old at (le_bytes 4 v) }
{
    write_le(out, at, 4, v as u64);
}

// Eight bytes are read as two words: each is one load and one swap of bytes.
fn read_8(s: &[u8], at: usize) -> u64
    requires { at + 8 ≤ length s.now }
    ensures { result ≡ be s.now at 8 }
{
    (read_word(s, at) as u64) * WORD_RANGE + (read_word(s, at + 4) as u64)
}

fn write_8(out: &mut [u8], at: usize, v: u64)
    requires { at + 8 ≤ length out.old }
    ensures { out.new ≡ sets out.old at (le_bytes 8 v) }
{
    write_word(out, at, (v % WORD_RANGE) as u32);
    write_word(out, at + 4, (v / WORD_RANGE) as u32);
}

// The number of w bytes at `at`. Its width is found by ranges: tests of equality become a jump by a table, which takes longer.
pub fn turn_number(s: &[u8], out: &mut [u8], at: usize, w: usize)
    requires number_wide { NumberWide w }
    requires room { Room s.now out.old (at + w) }
    ensures { out.new ≡ turned_at w s.now at out.old }
{
    if w < 2 {
        u8::turn(s, out, at);
    } else if w < 4 {
        u16::turn(s, out, at);
    } else if w < 8 {
        u32::turn(s, out, at);
    } else if w < 16 {
        u64::turn(s, out, at);
    } else {
        u128::turn(s, out, at);
    }
}

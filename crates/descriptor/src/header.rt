// A descriptor's two words: the one reader of size and code, and where the parts of a descriptor stand.
ghost use Rattle.std.specs.Prelude.{◌≡◌, ◌+◌, ◌≤◌, ◌<◌, length};
ghost use Rattle.number.specs.inner.Post.{Bounded};
ghost use Rattle.descriptor.specs.Header.{header_size, reserved_at, code_at, body_at, size_in, code_in};
ghost use Rattle.descriptor.specs.inner.Steps.{refusal_at};
ghost use Rattle.descriptor.specs.inner.Promises.{Within, HeadMet, addressable};

use super::codes::{is_array, is_carried};
use super::limits::{HIGH_BIT, ROW_LIMIT};
use super::refusal::{Fault, Refusal};
use super::step::not_carried;
use number::endian::be16;

// The bytes of the two words.
const HEADER_SIZE: usize = 4;

// A header that was read: the descriptor's size, where its body starts, and its low code byte.
#[derive(Clone, Copy, Debug, PartialEq, Eq)]
pub struct Head {
    pub size: usize,
    pub body: usize,
    pub code: u8,
}

// Where the reserved byte of the descriptor at p stands.
pub fn reserved_at(p: usize) -> usize
    requires { p < addressable }
    ensures { result ≡ reserved_at p }
{
    p + 2
}

// Where its low code byte stands.
pub fn code_place(p: usize) -> usize
    requires { p < addressable }
    ensures { result ≡ code_at p }
{
    p + 3
}

// Where its body starts.
pub fn body_at(p: usize) -> usize
    requires { p < addressable }
    ensures { result ≡ body_at p }
{
    p + HEADER_SIZE
}

// The size word of the descriptor at p.
pub fn size_at(d: &[u8], p: usize) -> usize
    requires { body_at p ≤ length d.now }
    ensures { Bounded result (size_in d.now p) 65536 }
{
    be16(d, p)
}

// Its low code byte.
pub fn code_at(d: &[u8], p: usize) -> u8
    requires { body_at p ≤ length d.now }
    ensures { result ≡ code_in d.now p }
{
    d[p + 3]
}

// 10: the descriptor at p is an array in an array.
fn nested_array(p: usize) -> Refusal
    requires { p < addressable }
    ensures { result ≡ refusal_at 10 (code_at p) }
{
    Fault::Contents.at(code_place(p))
}

// The header of the descriptor at p, whose parent ends at `end`, with `levels` left of the depth and n rows before it.
pub fn header(
    d: &[u8],
    levels: usize,
    in_array: bool,
    end: usize,
    p: usize,
    n: usize,
) -> Result<Head, Refusal>
    requires { Within d.now p end }
    ensures { HeadMet d.now levels in_array end p n result }
{
    if end - p < HEADER_SIZE {
        return Err(Fault::Header.at(p));
    }
    let size = size_at(d, p);
    if HIGH_BIT <= size {
        return Err(Fault::SizeBit.at(p));
    }
    if size % 2 != 0 {
        return Err(Fault::Size.at(p));
    }
    if size < HEADER_SIZE {
        return Err(Fault::Size.at(p));
    }
    if end - p < size {
        return Err(Fault::Size.at(p));
    }
    let code = code_at(d, p);
    if !is_carried(code) {
        return Err(not_carried(p));
    }
    if levels == 0 {
        return Err(Fault::Depth.at(p));
    }
    if ROW_LIMIT <= n {
        return Err(Fault::Rows.at(p));
    }
    if in_array {
        if is_array(code) {
            return Err(nested_array(p));
        }
    }
    Ok(Head {
        size,
        body: p + HEADER_SIZE,
        code,
    })
}

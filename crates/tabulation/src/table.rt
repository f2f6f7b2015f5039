// The table of an accepted descriptor.
ghost use Rattle.std.specs.Prelude.{◌≡◌, ◌+◌, ◌-◌};
ghost use Rattle.descriptor.specs.Limits.{depth_limit};
ghost use Rattle.descriptor.specs.Header.{size_in, code_in};
ghost use Rattle.descriptor.specs.inner.Standing.{Stands, shape_of};
ghost use Rattle.descriptor.specs.inner.Filling.{zero_rows, RowPre, TablePre, row_read, empty_table, filled};

use descriptor::answer::Row;
use descriptor::codes::is_enumeration;
use descriptor::header::{code_at, size_at};
use descriptor::inside::{Inside, inside_of};
use descriptor::limits::DEPTH_LIMIT;
use validation::fields::packed_strings;

// A zero row repeated.
#[tactic(auto, unfolding(descriptor::specs::inner::Filling::zero_rows))]
pub fn zero_rows() -> [Row; 256]
    ensures { result ≡ zero_rows }
{
    [Row::default(); 256]
}

// The row of the descriptor at p; what is left of it for a name starts at `at`.
#[tactic(auto, unfolding(descriptor::specs::inner::Filling::row_read))]
pub fn row_at(
    d: &[u8],
    depth: usize,
    p: usize,
    code: u8,
    size: usize,
    count: usize,
    at: usize,
) -> Row
    requires { RowPre d.now depth p size count at }
    ensures { result ≡ row_read d.now depth p code size count at }
{
    let (name_place, name_length) = if at == p + size {
        (0, 0)
    } else {
        ((at + 1) as u16, u16::from(d[at]))
    };
    Row {
        code: u16::from(code),
        start: p as u16,
        size: size as u16,
        depth: depth as u16,
        count: count as u16,
        name_place,
        name_length,
    }
}

// What stands inside the accepted descriptor at p, which ends at `stop`, with the first byte after its fields: past an enumeration's items
// and their fill.
#[tactic(auto, using(crate::proofs::Items::shape_laws))]
pub fn shape(d: &[u8], p: usize, stop: usize) -> Inside
    requires stands { Stands d.now p }
    requires stop_value { stop ≡ p + size_in d.now p }
    ensures { result ≡ shape_of d.now p }
{
    let b = inside_of(d, p);
    if !is_enumeration(code_at(d, p)) {
        return b;
    }
    let Ok(w) = packed_strings(d, stop, b.count, b.at) else {
        // The items of an accepted descriptor are read.
        return b;
    };
    Inside {
        at: w.next + (w.next - p) % 2,
        ..b
    }
}

// The same where the code is in hand: most have no items, and `inside_of` is enough.
#[tactic(auto, using(crate::proofs::Items::shape_laws))]
fn shape_by(d: &[u8], p: usize, stop: usize, code: u8) -> Inside
    requires stands { Stands d.now p }
    requires stop_value { stop ≡ p + size_in d.now p }
    requires code_value { code ≡ code_in d.now p }
    ensures { result ≡ shape_of d.now p }
{
    if is_enumeration(code) {
        return shape(d, p, stop);
    }
    inside_of(d, p)
}

// A descriptor whose children are being filled: its row's number, what its row says, and how many descriptors stand after it in its row.
#[derive(Clone, Copy, Default)]
pub struct Open {
    pub n: usize,
    pub start: usize,
    pub size: usize,
    pub count: usize,
    pub rest: usize,
    pub code: u8,
}

// The rows of an accepted descriptor. The descriptors whose children are being filled lie in `open`, the top first; k stand ahead at `at`
// in the innermost.
#[tactic(auto, using(crate::proofs::Resuming::turns))]
pub fn tabulate(d: &[u8]) -> [Row; 256]
    requires { TablePre d.now depth_limit 1 empty_table }
    ensures { result ≡ (filled d.now depth_limit 1 empty_table).rows }
{
    let mut rows = zero_rows();
    let mut open = [Open::default(); DEPTH_LIMIT];
    let mut n = 0;
    let mut at = 0;
    let mut level = 0;
    let mut k = 1;
    loop {
        if k == 0 {
            if level == 0 {
                return rows;
            }
            level -= 1;
            let o = open[level];
            rows[o.n] = row_at(d, level + 1, o.start, o.code, o.size, o.count, at);
            at = o.start + o.size;
            k = o.rest;
        } else {
            let size = size_at(d, at);
            let code = code_at(d, at);
            let b = shape_by(d, at, at + size, code);
            if 0 < b.children {
                open[level] = Open {
                    n,
                    start: at,
                    size,
                    count: b.count,
                    rest: k - 1,
                    code,
                };
                level += 1;
                n += 1;
                at = b.at;
                k = b.children;
            } else {
                rows[n] = row_at(d, level + 1, at, code, size, b.count, b.at);
                n += 1;
                at += size;
                k -= 1;
            }
        }
    }
}

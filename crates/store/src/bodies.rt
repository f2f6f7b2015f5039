// The body of a record whose descriptor was judged: its data decides.
ghost use Rattle.std.specs.Prelude.{◌≡◌, Some};
ghost use Rattle.store.specs.Book.{identified};
ghost use Rattle.store.specs.Check.{says};

use super::blank::Blank;
use super::fixed::Span;
use super::judged::Judged;
use number::endian::be32;
use records::top::walk_top;

// Whether the data of the record, which under the judged descriptor has this span, is accepted and has the record's identifier.
pub fn says_at_once(d: Judged, span: Span, r: Blank) -> bool
    requires { d.span ≡ Some span }
    ensures { result ≡ says r.entry.identifier (identified d.entry.descriptor.bytes.now r.entry.flattened.now) }
{
    if r.flattened.len() != span.width {
        return false;
    }
    be32(r.flattened, span.place) == r.identifier
}

// The same of any data under the judged descriptor, by walking it.
pub fn says_walked(d: Judged, r: Blank, starts: &mut [u32; 257]) -> bool
    ensures { result ≡ says r.entry.identifier (identified d.entry.descriptor.bytes.now r.entry.flattened.now) }
{
    if walk_top(d.descriptor, r.flattened, starts).is_err() {
        return false;
    }
    be32(r.flattened, starts[d.member] as usize) == r.identifier
}

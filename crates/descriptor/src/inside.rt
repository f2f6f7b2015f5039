// What stands inside an accepted descriptor, with nothing judged again.
ghost use Rattle.std.specs.Prelude.{◌≡◌};
ghost use Rattle.descriptor.specs.inner.Standing.{Stands, leaf_inside, inside_of};

use super::codes::{Kind, STAMP_PARTS, kind_of};
use super::header::{body_at, code_at};
use number::endian::be16;

// Where the descriptors in a body start, or an enumeration's items; the count of items, pairs, dimensions or members; and how many
// descriptors there are.
#[derive(Clone, Copy)]
pub struct Inside {
    pub at: usize,
    pub count: usize,
    pub children: usize,
}

// Nothing inside, and nothing counted.
fn leaf(at: usize) -> Inside
    ensures { result ≡ leaf_inside at }
{
    Inside {
        at,
        count: 0,
        children: 0,
    }
}

// What stands inside the accepted descriptor at p.
pub fn inside_of(d: &[u8], p: usize) -> Inside
    requires { Stands d.now p }
    ensures { result ≡ inside_of d.now p }
{
    let body = body_at(p);
    let k = kind_of(code_at(d, p));
    match k {
        Kind::Plain => leaf(body),
        Kind::Enumeration => {
            let n = be16(d, body);
            Inside {
                at: body + 2,
                count: n,
                children: 0,
            }
        }
        Kind::Quantity => {
            let n = be16(d, body);
            Inside {
                at: body + 2 + 4 * n,
                count: n,
                children: 0,
            }
        }
        Kind::Text => leaf(body + 4),
        Kind::Array => {
            let n = be16(d, body);
            Inside {
                at: body + 2 + 4 * n,
                count: n,
                children: 1,
            }
        }
        Kind::Cluster => {
            let n = be16(d, body);
            Inside {
                at: body + 2,
                count: n,
                children: n,
            }
        }
        Kind::Stamp => Inside {
            at: body + 2,
            count: 0,
            children: STAMP_PARTS,
        },
        // No descriptor with such a code is accepted.
        Kind::Unknown => leaf(body),
    }
}

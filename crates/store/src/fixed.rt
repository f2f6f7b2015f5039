// Records whose data takes as many bytes whatever its values are: where the identifier stands in it.
ghost use Rattle.std.specs.Prelude.{◌≡◌, IfSome};
ghost use Rattle.flattened.specs.inner.Extent.{extent_of};
ghost use Rattle.flattened.specs.inner.Types.{type_at};
ghost use Rattle.store.specs.inner.Identity.{Bears};
ghost use Rattle.store.specs.inner.Steady.{steady_width, Steady};

use descriptor::header::size_at;
use descriptor::inside::inside_of;
use descriptor::limits::DEPTH_LIMIT;
use flattened::extent::{Extent, extent_of};
use validation::accepted::Descriptor;

// How long the data is, and where the identifier stands in it.
#[derive(Clone, Copy, Debug, PartialEq, Eq)]
pub struct Span {
    pub width: usize,
    pub place: usize,
}

// How long the data of the accepted descriptor d is; none where that varies, or a number in it is judged.
fn fixed_width(d: Descriptor) -> Option<usize>
    ensures { result ≡ steady_width (extent_of (type_at d.entry.bytes.now 0)) }
{
    match extent_of(d.bytes, 0, DEPTH_LIMIT) {
        Extent::Fixed(width, _, false) => Some(width),
        _ => None,
    }
}

// The span of all data of d, whose member m carries the identifier.
pub fn span_of(d: Descriptor, m: usize) -> Option<Span>
    requires { Bears d.bytes.now m }
    ensures { IfSome result (Steady d.entry.bytes.now m) }
{
    let width = fixed_width(d)?;
    let mut p = inside_of(d.bytes, 0).at;
    let mut place = 0;
    for _ in 0..m {
        let Extent::Fixed(w, _, _) = extent_of(d.bytes, p, DEPTH_LIMIT) else {
            return None;
        };
        place += w;
        p += size_at(d.bytes, p);
    }
    Some(Span { width, place })
}

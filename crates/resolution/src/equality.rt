// Whether two members are of one type, by the rule of equal descriptors.
ghost use Rattle.std.specs.Prelude.{◌≡◌, length};
ghost use Rattle.descriptor.specs.Outcome.{read};
ghost use Rattle.descriptor.specs.Check.{checked};
ghost use Rattle.canonical.specs.Equality.{same_tree};
ghost use Rattle.flattened.specs.inner.Types.{type_at};
ghost use Rattle.members.specs.inner.Members.{Inner};

use canonical::compare::same_as_accepted;
use descriptor::header::size_at;
use validation::accepted::Descriptor;

// The descriptor at p as one of its own.
#[tactic(auto, using(crate::proofs::Apart::apart_laws))]
fn alone(d: &[u8], p: usize) -> Descriptor
    requires { Inner d.now p }
    ensures { checked result.bytes.now ≡ read (length result.bytes.now) (type_at d.now p) }
{
    let end = p + size_at(d, p);
    Descriptor { bytes: &d[p..end] }
}

// Whether the descriptors at q of r and at p of w are equal, their names too.
#[tactic(auto, using(crate::proofs::Apart::apart_laws))]
pub fn same_type(r: &[u8], q: usize, w: &[u8], p: usize) -> bool
    requires reader { Inner r.now q }
    requires writer { Inner w.now p }
    ensures { result ≡ same_tree (type_at r.now q) (type_at w.now p) }
{
    same_as_accepted(alone(r, q), alone(w, p).bytes)
}

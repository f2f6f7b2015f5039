// Names by their places: "Names match by bytes".
ghost use Rattle.std.specs.Prelude.{◌≡◌, MatchOption};
ghost use Rattle.descriptor.specs.Tree.{unnamed, named};
ghost use Rattle.members.specs.inner.Names.{NameFits, named_at, has_chars};

// The characters of the name at x of d, whose length stands before them; where x is 0 there is none.
pub fn name_at(d: &[u8], x: usize) -> Option<&[u8]>
    requires { NameFits d.now x }
    ensures { MatchOption result (named_at d.now x ≡ unnamed) (λ name. named_at d.now x ≡ named name.now) }
{
    if x == 0 {
        return None;
    }
    let end = x + usize::from(d[x - 1]);
    Some(&d[x..end])
}

// Whether the name at x of d is this one; where x is 0 there is none.
#[tactic(auto, using(crate::proofs::Same::same_laws))]
pub fn same_name(d: &[u8], x: usize, name: &[u8]) -> bool
    requires { NameFits d.now x }
    ensures { result ≡ has_chars name.now (named_at d.now x) }
{
    name_at(d, x) == Some(name)
}

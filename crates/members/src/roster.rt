// The members of a cluster, listed: where each one's descriptor stands, and where its name does.
ghost use Rattle.std.specs.Prelude.{◌≡◌, ◌<◌, MatchOption, slice_index};
ghost use Rattle.descriptor.specs.Tree.{unnamed, named};
ghost use Rattle.descriptor.specs.inner.Standing.{Stands};
ghost use Rattle.members.specs.inner.Members.{Members, Listed, Column, top_at, top_count, place_from, name_from, row_from};
ghost use Rattle.members.specs.inner.Names.{named_at, has_chars};

use super::names::{name_at, same_name};
use super::rows::{member_row, name_place};
use descriptor::answer::Row;
use descriptor::header::size_at;
use descriptor::inside::inside_of;

// The members of the cluster d, in columns that are lent: where each one's descriptor stands, and where its name does. Where it has none there
// is 0, as a new column is of zeros; `name` gives an `Option`.
#[derive(Clone, Copy)]
pub struct Roster<'a> {
    pub d: &'a [u8],
    pub count: usize,
    pub places: &'a [u16; 256],
    pub names: &'a [u16; 256],
    ghost listed: { Listed d.now count places.now names.now },
}

// Fills the columns with the k members that stand in d from `start` on.
#[tactic(auto, using(crate::proofs::Listing::roster_laws))]
fn fill(d: &[u8], k: usize, start: usize, places: &mut [u16; 256], names: &mut [u16; 256])
    requires { Members d.now k start }
    ensures places { Column (place_from d.now start) k places.new }
    ensures names { Column (name_from d.now start) k names.new }
{
    let mut p = start;
    for i in 0..k {
        let size = size_at(d, p);
        places[i] = p as u16;
        names[i] = name_place(d, p, size);
        p += size;
    }
}

impl<'a> Roster<'a> {
    // The members of the cluster d.
    #[tactic(auto, using(crate::proofs::Listing::roster_laws))]
    pub fn list(d: &'a [u8], places: &'a mut [u16; 256], names: &'a mut [u16; 256]) -> Roster<'a>
        requires stands { Stands d.now 0 }
        requires members { Members d.now (top_count d.now) (top_at d.now) }
        ensures of { result.d.now ≡ d.now }
        ensures all { result.count ≡ top_count d.now }
    {
        let top = inside_of(d, 0);
        fill(d, top.children, top.at, places, names);
        Roster {
            d,
            count: top.children,
            places,
            names,
        }
    }

    // The characters of member i's name.
    #[tactic(auto, using(crate::proofs::Listing::roster_laws))]
    pub fn name(&self, i: usize) -> Option<&'a [u8]>
        requires { i < self.now.count }
        ensures { MatchOption result (named_at self.now.d.now (slice_index self.now.names.now i) ≡ unnamed)
            (λ name. named_at self.now.d.now (slice_index self.now.names.now i) ≡ named name.now) }
    {
        name_at(self.d, usize::from(self.names[i]))
    }

    // Whether that is its name.
    #[tactic(auto, using(crate::proofs::Listing::roster_laws))]
    pub fn is_named(&self, i: usize, name: &[u8]) -> bool
        requires { i < self.now.count }
        ensures { result ≡ has_chars name.now (named_at self.now.d.now (slice_index self.now.names.now i)) }
    {
        same_name(self.d, usize::from(self.names[i]), name)
    }

    // Its row.
    #[tactic(auto, using(crate::proofs::Listing::roster_laws))]
    pub fn row(&self, i: usize) -> Row
        requires { i < self.now.count }
        ensures { result ≡ row_from self.now.d.now (top_at self.now.d.now) i }
    {
        member_row(self.d, usize::from(self.places[i]))
    }
}

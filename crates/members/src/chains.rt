// Members by the marks of their names: those with one mark are chained, so that a search passes all others by.
ghost use Rattle.std.specs.Prelude.{◌≡◌, ◌<◌, ◌^◌};
ghost use Rattle.number.specs.inner.Post.{Bounded};
ghost use Rattle.members.specs.inner.Names.{NamesLie, has_chars};
ghost use Rattle.members.specs.inner.Chains.{spread, mark_of, last_of, member, Unchained, Linked, Chained, Marked};

use super::names::same_name;
use super::roster::Roster;
use number::endian::{be32, read_be};

// The members of a roster, chained. In `heads` is the last of each mark, in `links` the one of the same mark before each member, both counted
// from 1, 0 being none, as a new column is of zeros; `member` gives an `Option`.
#[derive(Clone, Copy)]
pub struct Chains<'a> {
    pub roster: Roster<'a>,
    pub heads: &'a [u16; 256],
    pub links: &'a [u16; 256],
    ghost chained: { Chained roster.d.now roster.names.now roster.count heads.now links.now },
}

// A number below 256 to which each byte of both words gives.
#[tactic(auto, unfolding(crate::specs::inner::Chains::spread))]
fn spread(first: usize, last: usize) -> usize
    requires { (first < 2 ^ 32) × (last < 2 ^ 32) }
    ensures { Bounded result (spread first last) 256 }
{
    (first * 1393620033 + last * 1759876303) / 16777216 % 256
}

// The mark of a name: from its first and its last four characters, from all where there are fewer.
#[tactic(auto, using(crate::proofs::Chaining::mark_laws))]
pub fn mark(name: &[u8]) -> usize
    ensures { Bounded result (mark_of name.now) 256 }
{
    let n = name.len();
    if n < 4 {
        let all = read_be(name, 0, n) as usize;
        return spread(all, all);
    }
    spread(be32(name, 0), be32(name, n - 4))
}

// The member that an entry of these columns names.
fn member(entry: u16) -> Option<usize>
    ensures { result ≡ member entry }
{
    usize::from(entry).checked_sub(1)
}

// The last of the k members that has this name, of those up to the one that `from` names, which has its mark.
#[tactic(auto, using(crate::proofs::Chaining::chain_laws))]
pub fn last_namesake(
    d: &[u8],
    k: usize,
    names: &[u16; 256],
    links: &[u16; 256],
    from: u16,
    name: &[u8],
) -> Option<usize>
    requires names_lie { NamesLie d.now names.now k }
    requires linked { Linked d.now names.now k links.now }
    requires marked { Marked d.now names.now k (mark_of name.now) from }
    ensures { result ≡ member (last_of (has_chars name.now) d.now names.now from) }
{
    let mut entry = from;
    while let Some(i) = member(entry) {
        if same_name(d, usize::from(names[i]), name) {
            return Some(i);
        }
        entry = links[i];
    }
    None
}

impl<'a> Chains<'a> {
    // Chains the members of a roster, in columns of zeros.
    #[tactic(auto, using(crate::proofs::Chaining::chain_laws))]
    pub fn of(
        roster: Roster<'a>,
        heads: &'a mut [u16; 256],
        links: &'a mut [u16; 256],
    ) -> Chains<'a>
        requires { Unchained heads.old }
        ensures { result.roster ≡ roster.entry }
    {
        for i in 0..roster.count {
            if let Some(name) = roster.name(i) {
                let m = mark(name);
                links[i] = heads[m];
                heads[m] = (i + 1) as u16;
            }
        }
        Chains {
            roster,
            heads,
            links,
        }
    }

    // The last member that has this name, of those up to the one that `from` names, which has its mark.
    #[tactic(auto, using(crate::proofs::Listing::roster_laws))]
    pub fn last_namesake(&self, from: u16, name: &[u8]) -> Option<usize>
        requires { Marked self.now.roster.d.now self.now.roster.names.now self.now.roster.count (mark_of name.now) from }
        ensures { result ≡ member (last_of (has_chars name.now) self.now.roster.d.now self.now.roster.names.now from) }
    {
        last_namesake(
            self.roster.d,
            self.roster.count,
            self.roster.names,
            self.links,
            from,
            name,
        )
    }
}

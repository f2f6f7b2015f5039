// The search for a name among the rig's members.
ghost use Rattle.std.specs.Prelude.{◌≡◌};
ghost use Rattle.members.specs.inner.Names.{NamesLie, has_chars};
ghost use Rattle.members.specs.inner.Chains.{member, last_of, Linked, Chained};
ghost use Rattle.resolution.specs.Record.{search_number};
ghost use Rattle.resolution.specs.inner.Searching.{Finds};

use super::Search;
use descriptor::refusal::Fault;
use members::chains::{last_namesake, mark};
use members::roster::Roster;

// The last of the rig's k members that has this name.
#[tactic(auto, using(crate::proofs::Seeking::search_laws))]
pub fn last_named(
    w: &[u8],
    k: usize,
    names: &[u16; 256],
    heads: &[u16; 256],
    links: &[u16; 256],
    name: &[u8],
) -> Option<usize>
    requires names_lie { NamesLie w.now names.now k }
    requires chained { Chained w.now names.now k heads.now links.now }
    ensures { result ≡ member (last_of (has_chars name.now) w.now names.now k) }
{
    last_namesake(w, k, names, links, heads[mark(name)], name)
}

// What the search for a name finds among the rig's members, `last` being the last that has it.
#[tactic(auto, using(crate::proofs::Seeking::search_laws))]
pub fn search(w: &Roster, links: &[u16; 256], name: &[u8], last: Option<usize>) -> Search
    requires linked { Linked w.now.d.now w.now.names.now w.now.count links.now }
    requires last { last ≡ member (last_of (has_chars name.now) w.now.d.now w.now.names.now w.now.count) }
    ensures { Finds w.now.d.now w.now.count name.now result }
{
    let Some(i) = last else {
        return Search::Missing;
    };
    if last_namesake(w.d, w.count, w.names, links, links[i], name).is_some() {
        return Search::Doubled;
    }
    Search::Found(w.row(i))
}

// Document 01's number for what a search finds.
#[tactic(auto, unfolding(crate::specs::Record::search_number))]
pub fn search_number(found: Search) -> u32
    ensures { result ≡ search_number found }
{
    match found {
        Search::Missing => Fault::Missing.number(),
        Search::Doubled => Fault::Doubled.number(),
        Search::Found(_) => 0,
    }
}

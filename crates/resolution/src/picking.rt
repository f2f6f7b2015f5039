// The rig's members that a reader's members are read from.
ghost use Rattle.flattened.specs.inner.Types.{type_at};
ghost use Rattle.resolution.specs.inner.Names.{Naming};
ghost use Rattle.resolution.specs.inner.Picking.{Called, Picks, Ascends, Plans};

use super::Search;
use super::equality::same_type;
use super::namesakes::{last_named, search, search_number};
use descriptor::refusal::{Fault, Refusal};
use members::chains::Chains;
use members::roster::Roster;

// The number of the rig's member that the reader's member j is read from. The reader's member stands at q of r and has this name.
#[tactic(auto, using(crate::proofs::Chosen::pick_laws))]
pub fn pick(w: &Chains, r: &[u8], q: usize, name: &[u8], j: usize) -> Result<usize, Refusal>
    requires { Called r.now q name.now }
    ensures { Picks w.now.roster.d.now w.now.roster.count (type_at r.now q) j result }
{
    let last = last_named(
        w.roster.d,
        w.roster.count,
        w.roster.names,
        w.heads,
        w.links,
        name,
    );
    let found = search(&w.roster, w.links, name, last);
    let Search::Found(row) = found else {
        return Err(Refusal {
            number: search_number(found),
            place: j,
        });
    };
    let i = last.unwrap();
    if !same_type(r, q, w.roster.d, usize::from(row.start)) {
        return Err(Fault::Type.at(j));
    }
    Ok(i)
}

// The rig's members that the reader's are read from, in order, into `picks`, and how long their bytes are, joined. The first member at fault is
// the refusal.
pub fn pick_all(
    w: &Roster,
    r: &Roster,
    starts: &[u32; 257],
    picks: &mut [u8; 256],
) -> Result<usize, Refusal>
    requires naming { Naming r.now.count r.now.names.now }
    requires ascends { Ascends w.now.count starts.now }
    ensures { Plans w.now.d.now w.now.count r.now.d.now r.now.count starts.now picks.new result }
{
    let mut heads = [0u16; 256];
    let mut links = [0u16; 256];
    let chains = Chains::of(*w, &mut heads, &mut links);
    let mut total = 0;
    for j in 0..r.count {
        let q = usize::from(r.places[j]);
        let name = r.name(j).unwrap();
        let i = pick(&chains, r.d, q, name, j)?;
        picks[j] = i as u8;
        total += (starts[i + 1] - starts[i]) as usize;
    }
    Ok(total)
}

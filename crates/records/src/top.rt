// The top descriptors of a record: the rig's data, and the reader's names.
ghost use Rattle.std.specs.Prelude.{◌≡◌};
ghost use Rattle.descriptor.specs.inner.Standing.{Stands};
ghost use Rattle.flattened.specs.Order.{big};
ghost use Rattle.flattened.specs.Walk.{walked};
ghost use Rattle.flattened.specs.inner.Types.{type_at};
ghost use Rattle.resolution.specs.inner.Data.{passed};
ghost use Rattle.resolution.specs.inner.Tops.{is_cluster, TopRow, TopStarts, TopNames};

use descriptor::codes::{Kind, kind_of};
use descriptor::header::code_at;
use descriptor::inside::{Inside, inside_of};
use descriptor::refusal::{Fault, Refusal};
use flattened::limits::DATA_LIMIT;
use members::roster::Roster;
use resolution::data::walk_members;
use resolution::names::check_names;
use validation::accepted::Descriptor;

// Whether the top descriptor is a cluster.
#[tactic(auto, using(crate::proofs::Topmost::top_laws))]
pub fn is_cluster(d: &[u8]) -> bool
    requires { Stands d.now 0 }
    ensures { result ≡ is_cluster d.now }
{
    matches!(kind_of(code_at(d, 0)), Kind::Cluster)
}

// The types whose data is that of the top: a cluster's members, or the type itself.
#[tactic(auto, using(crate::proofs::Topmost::top_laws))]
fn top_row(d: Descriptor) -> Inside
    ensures { TopRow d.entry.bytes.now result }
{
    if is_cluster(d.bytes) {
        return inside_of(d.bytes, 0);
    }
    Inside {
        at: 0,
        count: 0,
        children: 1,
    }
}

// The walk of the data s under the descriptor d, and where the data of each member of a cluster starts.
#[tactic(auto, using(crate::proofs::Topmost::top_laws))]
pub fn walk_top(d: Descriptor, s: &[u8], starts: &mut [u32; 257]) -> Result<(), Refusal>
    ensures whole { result ≡ passed (walked big (type_at d.entry.bytes.now 0) s.now) }
    ensures starts { TopStarts d.entry.bytes.now s.now starts.new result }
{
    if DATA_LIMIT < s.len() {
        return Err(Fault::DataLength.at(0));
    }
    let top = top_row(d);
    let end = walk_members(d.bytes, top.children, top.at, s, starts)?;
    if end != s.len() {
        return Err(Fault::LeftOver.at(end));
    }
    Ok(())
}

// The reader's members: 40 where there are none, or a name is wrong.
#[tactic(auto, using(crate::proofs::Topmost::top_laws))]
pub fn read_names<'a>(
    d: Descriptor<'a>,
    places: &'a mut [u16; 256],
    names: &'a mut [u16; 256],
) -> Result<Roster<'a>, Refusal>
    ensures { TopNames d.entry.bytes.now result }
{
    if !is_cluster(d.bytes) {
        return Err(Fault::Reader.at(0));
    }
    let reader = Roster::list(d.bytes, places, names);
    check_names(&reader)?;
    Ok(reader)
}

// The identifier of a record: which member carries it, and what it is.
ghost use Rattle.std.specs.Prelude.{◌≡◌};
ghost use Rattle.store.specs.Book.{identified};
ghost use Rattle.store.specs.inner.Identity.{told, Carries};

use descriptor::answer::{Answer, Input};
use descriptor::refusal::Fault;
use members::chains::Chains;
use members::roster::Roster;
use number::endian::be32;
use records::top::{is_cluster, walk_top};
use resolution::picking::pick;
use validation::accepted::Descriptor;

// The number of the member of an accepted descriptor that the reader's shape asks for: 41, then 42 to 44. In the shape, that member stands
// at 6.
pub fn carrier(d: Descriptor) -> Result<usize, Answer>
    ensures { Carries d.entry.bytes.now result }
{
    if !is_cluster(d.bytes) {
        return Err(Answer::refused(Fault::Writer, Input::First, 0));
    }
    let mut places = [0u16; 256];
    let mut names = [0u16; 256];
    let roster = Roster::list(d.bytes, &mut places, &mut names);
    let mut heads = [0u16; 256];
    let mut links = [0u16; 256];
    let chains = Chains::of(roster, &mut heads, &mut links);
    let shape = [0u8, 16, 0, 80, 0, 1, 0, 10, 0, 7, 5, 98, 108, 97, 110, 107];
    match pick(&chains, &shape, 6, b"blank", 0) {
        Ok(member) => Ok(member),
        Err(refusal) => Err(refusal.of(Input::Second)),
    }
}

// The identifier of the record of d with the data x.
pub fn identify(d: &[u8], x: &[u8]) -> Result<u32, Answer>
    ensures { result ≡ told (identified d.now x.now) }
{
    let descriptor = match Descriptor::try_from(d) {
        Ok(descriptor) => descriptor,
        Err(refusal) => return Err(refusal.of(Input::First)),
    };
    let mut starts = [0u32; 257];
    if let Err(refusal) = walk_top(descriptor, x, &mut starts) {
        return Err(refusal.of(Input::Data));
    }
    let member = carrier(descriptor)?;
    Ok(be32(x, starts[member] as usize) as u32)
}

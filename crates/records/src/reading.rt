// The record in a reader's shape.
ghost use Rattle.std.specs.Prelude.{◌≡◌};
ghost use Rattle.resolution.specs.Record.{resolved};
ghost use Rattle.records.specs.inner.Ready.{Ready};

use super::top::{is_cluster, read_names, walk_top};
use descriptor::answer::{Answer, Input};
use descriptor::refusal::Fault;
use members::joining::copy_picked;
use members::roster::Roster;
use resolution::picking::pick_all;
use validation::accepted::Descriptor;

// Reads the reader's members from the cluster w, once all else is judged.
fn read_members(w: &[u8], reader: &Roster, s: &[u8], out: &mut [u8], starts: &[u32; 257]) -> Answer
    requires { Ready w.now s.now starts.now reader.now }
    ensures answer { result ≡ (resolved w.now reader.now.d.now s.now out.old).answer }
    ensures wrote { out.new ≡ (resolved w.now reader.now.d.now s.now out.old).out }
{
    let mut places = [0u16; 256];
    let mut names = [0u16; 256];
    let writer = Roster::list(w, &mut places, &mut names);
    let mut picks = [0u8; 256];
    let total = match pick_all(&writer, reader, starts, &mut picks) {
        Ok(total) => total,
        Err(lost) => return lost.of(Input::Second),
    };
    if out.len() < total {
        return Answer::refused(Fault::Room, Input::Request, total);
    }
    copy_picked(s, starts, &picks[..reader.count], out);
    Answer::accepted(total)
}

// Reads the data s of w in the shape of r, both accepted: the data, then the reader's names, then whether the rig's top is a cluster.
#[tactic(auto, using(crate::proofs::Answering::reading_laws))]
fn read_accepted(w: Descriptor, r: Descriptor, s: &[u8], out: &mut [u8]) -> Answer
    ensures answer { result ≡ (resolved w.entry.bytes.now r.entry.bytes.now s.now out.old).answer }
    ensures wrote { out.new ≡ (resolved w.entry.bytes.now r.entry.bytes.now s.now out.old).out }
{
    let mut starts = [0u32; 257];
    if let Err(stopped) = walk_top(w, s, &mut starts) {
        return stopped.of(Input::Data);
    }
    let mut reading = [0u16; 256];
    let mut called = [0u16; 256];
    let reader = match read_names(r, &mut reading, &mut called) {
        Ok(reader) => reader,
        Err(wrong) => return wrong.of(Input::Second),
    };
    if !is_cluster(w.bytes) {
        return Answer::refused(Fault::Writer, Input::First, 0);
    }
    read_members(w.bytes, &reader, s, out, &starts)
}

// Writes the reader's members' bytes, joined in the reader's order, to the front of out: the place is their length. A refusal writes nothing.
#[tactic(auto, using(crate::proofs::Answering::reading_laws))]
pub fn read_record(writer: &[u8], reader: &[u8], data: &[u8], out: &mut [u8]) -> Answer
    ensures answer { result ≡ (resolved writer.now reader.now «data».now out.old).answer }
    ensures wrote { out.new ≡ (resolved writer.now reader.now «data».now out.old).out }
{
    let w = match Descriptor::try_from(writer) {
        Ok(w) => w,
        Err(refusal) => return refusal.of(Input::First),
    };
    let r = match Descriptor::try_from(reader) {
        Ok(r) => r,
        Err(refusal) => return refusal.of(Input::Second),
    };
    read_accepted(w, r, data, out)
}

// Runs of entries whose bodies have one descriptor, as those of one rig do, gone over in a tight loop.
ghost use Rattle.store.specs.inner.Runs.{Ran};

use super::bodies::says_at_once;
use super::entry::Entries;
use super::judged::Judged;
use super::marks::Marks;

// How far a run goes: the entry after it, and where the last body in it ends.
#[derive(Clone, Copy, Debug, PartialEq, Eq)]
pub struct Run {
    pub next: usize,
    pub at: usize,
}

// Goes on from the entry after `run` over those that have the bytes of d, data of its one span that is right, and an identifier whose mark was
// not met. What ends the run is not judged; where there is no d, or its data varies in length, there is none.
pub fn run_on(entries: Entries, run: Run, d: Option<Judged>, marks: &mut Marks) -> Run
    ensures { Ran entries.entry.bytes.now entries.entry.count marks.old.met run marks.new.met result }
{
    let Some(d) = d else {
        return run;
    };
    let Some(span) = d.span else {
        return run;
    };
    let mut run = run;
    for i in run.next..entries.count {
        let Some(r) = entries.blank(i, run.at) else {
            return run;
        };
        if !d.is(r.descriptor) {
            return run;
        }
        if !says_at_once(d, span, r) {
            return run;
        }
        if marks.met(r.identifier) {
            return run;
        }
        marks.leave(r.identifier);
        run = Run {
            next: i + 1,
            at: r.stop(),
        };
    }
    run
}

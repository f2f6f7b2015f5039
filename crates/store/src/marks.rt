// Which identifiers were met: each leaves a mark, so that most are known to be new without a search.
ghost use Rattle.std.specs.Prelude.{◌≡◌, true, false, not, set, length, slice_index_or};
ghost use Rattle.store.specs.Book.{is_one_of};
ghost use Rattle.store.specs.inner.Entries.{seen_before, Placed};
ghost use Rattle.store.specs.inner.Marks.{mark_count, mark_of, Marked, NoneLeft};

use super::entry::Entries;

// How many marks there are.
const MARK_COUNT: usize = 4096;

// The marks, by the identifier modulo their count.
#[derive(Drop)]
pub struct Marks {
    pub met: [bool; MARK_COUNT],
    pub ghost long: { length met ≡ mark_count },
}

impl Marks {
    // None was left.
    pub fn new() -> Marks
        ensures { NoneLeft result.met }
    {
        Marks {
            met: [false; MARK_COUNT],
        }
    }

    // Whether the identifier's mark was met.
    pub fn met(&self, identifier: usize) -> bool
        ensures { result ≡ slice_index_or self.now.met (mark_of identifier) false }
    {
        self.met[identifier % MARK_COUNT]
    }

    // The identifier leaves its mark.
    pub fn leave(&mut self, identifier: usize)
        ensures { self.new.met ≡ set self.old.met (mark_of identifier) true }
    {
        self.met[identifier % MARK_COUNT] = true;
    }
}

// The first entry that has this identifier; else the number of the entry that a record with it gets, which is how many there are. Those have
// left their marks: where it meets none, there is no search.
pub fn entry_of(entries: Entries, identifier: usize, marks: &Marks) -> Result<usize, usize>
    requires { Marked entries.bytes.now entries.count marks.now.met }
    ensures { Placed entries.entry.bytes.now entries.entry.count identifier result }
{
    if !marks.met(identifier) {
        return Err(entries.count);
    }
    match entries.seek(identifier) {
        Some(i) => Ok(i),
        None => Err(entries.count),
    }
}

// Whether the identifier, that of the entry after these, is none of theirs. They have left their marks; so has it then.
pub fn is_new(entries: Entries, identifier: usize, marks: &mut Marks) -> bool
    requires { Marked entries.bytes.now entries.count marks.old.met }
    ensures fresh { result ≡ not (is_one_of identifier (seen_before entries.entry.bytes.now entries.entry.count)) }
    ensures marked { marks.new.met ≡ set marks.old.met (mark_of identifier) true }
{
    let met = marks.met(identifier);
    marks.leave(identifier);
    if !met {
        return true;
    }
    entries.seek(identifier).is_none()
}

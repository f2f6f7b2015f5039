// Any bytes as a book.
ghost use Rattle.std.specs.Prelude.{◌≡◌, [], IfOk};
ghost use Rattle.store.specs.Check.{entries_at};
ghost use Rattle.store.specs.inner.Marks.{Marked};
ghost use Rattle.resolution.specs.inner.Data.{end_of};
ghost use Rattle.store.specs.inner.Opens.{Opens};

use super::bodies::says_walked;
use super::entry::{BOOK_LIMIT, Entries, entry_place};
use super::judged::Recent;
use super::marks::{Marks, is_new};
use super::runs::{Run, run_on};
use super::unused::check_unused;
use descriptor::refusal::{Fault, Refusal};
use number::endian::be16;

// A book: its entries in use, how many entries it has, and where its last body ends.
#[derive(Clone, Copy)]
pub struct Book<'a> {
    pub entries: Entries<'a>,
    pub capacity: usize,
    pub end: usize,
}

// The entries in use, whose bodies start at `from`: where the last body ends. They leave their marks, where none was left.
fn check_used(entries: Entries, from: usize, marks: &mut Marks) -> Result<usize, Refusal>
    ensures used { result ≡ end_of (entries_at entries.entry.bytes.now [] entries.entry.count 0 from) }
    ensures marked { IfOk result (λ _. Marked entries.entry.bytes.now entries.entry.count marks.new.met) }
{
    let mut starts = [0u32; 257];
    let mut recent = Recent {
        last: None,
        other: None,
    };
    let mut run = Run { next: 0, at: from };
    // One turn may go over many entries.
    while run.next < entries.count {
        let i = run.next;
        let Some(r) = entries.blank(i, run.at) else {
            return Err(Fault::Book.at(i));
        };
        let Some(d) = recent.judge(r.descriptor) else {
            return Err(Fault::Book.at(i));
        };
        if !says_walked(d, r, &mut starts) {
            return Err(Fault::Book.at(i));
        }
        if !is_new(entries.first(i), r.identifier, marks) {
            return Err(Fault::Book.at(i));
        }
        let one = Run {
            next: i + 1,
            at: r.stop(),
        };
        run = run_on(entries, one, Some(d), marks);
    }
    Ok(run.at)
}

// The book that the bytes are. The identifiers of its entries in use leave marks.
pub fn open_marked<'a>(s: &'a [u8], marks: &mut Marks) -> Result<Book<'a>, Refusal>
    ensures book { Opens s.now result }
    ensures marked { IfOk result (λ b. Marked s.now b.entries.count marks.new.met) }
{
    let size = s.len();
    if size < 4 || BOOK_LIMIT < size {
        return Err(Fault::Book.at(0));
    }
    let capacity = be16(s, 0);
    let n = be16(s, 2);
    let contents = entry_place(capacity);
    if size < contents || capacity < n {
        return Err(Fault::Book.at(capacity));
    }
    let all = Entries {
        bytes: s,
        count: capacity,
    };
    let entries = all.first(n);
    let end = check_used(entries, contents, marks)?;
    check_unused(all, n)?;
    Ok(Book {
        entries,
        capacity,
        end,
    })
}

// The same, where the marks serve nobody after it.
pub fn open_book(s: &[u8]) -> Result<Book<'_>, Refusal>
    ensures { Opens s.now result }
{
    let mut marks = Marks::new();
    open_marked(s, &mut marks)
}

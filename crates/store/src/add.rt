// A record added at the end of a book.
ghost use Rattle.std.specs.Prelude.{◌≡◌, ◌++◌, ◌+◌, ◌≤◌, length};
ghost use Rattle.std.proofs.lemmas.List.Edits.{sets};
ghost use Rattle.store.specs.Questions.{with_record, added};
ghost use Rattle.store.specs.inner.Entries.{entry_spelled};
ghost use Rattle.store.specs.inner.Blanks.{blank_of};
ghost use Rattle.store.specs.inner.Marks.{Marked};
ghost use Rattle.store.specs.inner.Adding.{FitsEntry, Entered, Admits};

use super::blank::Blank;
use super::entry::{Entries, Entry, entry_place};
use super::identity::identify;
use super::marks::{Marks, entry_of};
use super::open::open_marked;
use descriptor::answer::{Answer, Input};
use descriptor::refusal::Fault;
use number::endian::write_be;

// Writes a body at `at`.
fn write_body(s: &mut [u8], at: usize, d: &[u8], x: &[u8])
    requires { at + (length d.now + length x.now) ≤ length s.old }
    ensures { s.new ≡ sets s.old at (d.now ++ x.now) }
{
    let middle = at + d.len();
    byte_runs::copy(d, &mut s[at..]);
    byte_runs::copy(x, &mut s[middle..]);
}

// Writes the four numbers of an entry at p.
fn write_entry(s: &mut [u8], p: usize, e: Entry)
    requires { p + 16 ≤ length s.old }
    ensures { s.new ≡ sets s.old p (entry_spelled e) }
{
    write_be(s, p, 4, e.identifier as u64);
    write_be(s, p + 4, 4, e.start as u64);
    write_be(s, p + 8, 4, e.first as u64);
    write_be(s, p + 12, 4, e.second as u64);
}

// Writes the record after the last body, its entry after the n in use, and the count.
fn write_record(s: &mut [u8], n: usize, r: Blank)
    requires { FitsEntry s.old n (blank_of r) }
    ensures { s.new ≡ with_record s.old n (blank_of r.entry) }
{
    write_body(s, r.start, r.descriptor, r.flattened);
    let e = Entry {
        identifier: r.identifier as u32,
        start: r.start as u32,
        first: r.descriptor.len() as u32,
        second: r.flattened.len() as u32,
    };
    write_entry(s, entry_place(n), e);
    write_be(s, 2, 2, (n + 1) as u64);
}

// The number of the entry that a record with this identifier gets, that after these; or 60, where one of them has it.
fn entry_for(entries: Entries, identifier: usize, marks: &Marks) -> Result<usize, Answer>
    requires { Marked entries.bytes.now entries.count marks.now.met }
    ensures { Entered entries.entry.bytes.now entries.entry.count identifier result }
{
    match entry_of(entries, identifier, marks) {
        Ok(i) => Err(Answer::refused(Fault::Taken, Input::Request, i)),
        Err(n) => Ok(n),
    }
}

// The record of d with the data x as it goes into the book, and the number of its entry; or why it may not.
fn admit<'a>(s: &[u8], d: &'a [u8], x: &'a [u8]) -> Result<(usize, Blank<'a>), Answer>
    ensures { Admits s.now d.now x.now result }
{
    let mut marks = Marks::new();
    let book = match open_marked(s, &mut marks) {
        Ok(book) => book,
        Err(refusal) => return Err(refusal.of(Input::Request)),
    };
    let identifier = identify(d, x)?;
    let n = entry_for(book.entries, identifier as usize, &marks)?;
    if book.capacity <= n {
        return Err(Answer::refused(Fault::NoEntry, Input::Request, 0));
    }
    let size = d.len() + x.len();
    if s.len() < book.end + size {
        return Err(Answer::refused(Fault::NoSpace, Input::Request, size));
    }
    let r = Blank {
        identifier: identifier as usize,
        start: book.end,
        descriptor: d,
        flattened: x,
    };
    Ok((n, r))
}

// Adds the record of d with the data x to the book. A refusal leaves the book as it was.
pub fn store_add(s: &mut [u8], d: &[u8], x: &[u8]) -> Answer
    ensures answer { result ≡ (added s.old d.now x.now).answer }
    ensures wrote { s.new ≡ (added s.old d.now x.now).out }
{
    match admit(s, d, x) {
        Ok((n, r)) => {
            write_record(s, n, r);
            Answer::accepted(0)
        }
        Err(answer) => answer,
    }
}

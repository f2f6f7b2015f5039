// What is asked of a book and leaves it as it is.
ghost use Rattle.std.specs.Prelude.{◌≡◌, ◌+◌, ◌≤◌, length};
ghost use Rattle.access.specs.Path.{place_in};
ghost use Rattle.store.specs.Check.{book_check};
ghost use Rattle.store.specs.Questions.{found, found_body, listed};

use super::open::open_book;
use access::part::{Part, no_part};
use descriptor::answer::{Answer, Input};
use descriptor::refusal::Fault;

// Whether the bytes are a book.
pub fn store_check(s: &[u8]) -> Answer
    ensures { result ≡ book_check s.now }
{
    match open_book(s) {
        Ok(_) => Answer::accepted(0),
        Err(refusal) => refusal.of(Input::Request),
    }
}

// Where the whole body of the record with this identifier stands in the book.
pub fn store_find(s: &[u8], identifier: u32) -> Part
    ensures value { result ≡ found s.now identifier }
    ensures within { result.start + result.length ≤ length s.now }
{
    let book = match open_book(s) {
        Ok(book) => book,
        Err(refusal) => return no_part(refusal.of(Input::Request)),
    };
    let Some(i) = book.entries.seek(identifier as usize) else {
        return no_part(Answer::refused(Fault::NotFound, Input::Request, 0));
    };
    let e = book.entries.at(i);
    Part {
        answer: Answer::accepted(0),
        start: e.start as usize,
        length: e.first as usize + e.second as usize,
    }
}

// The body itself; a refusal gives an empty part at the front of the book.
pub fn store_body<'a>(s: &'a [u8], identifier: u32) -> &'a [u8]
    ensures result_value { result.now ≡ found_body s.now identifier }
    ensures place { result.ref_ptr ≡ place_in s.entry (found s.now identifier).start }
{
    let body = store_find(s, identifier);
    let start = body.start;
    let end = start + body.length;
    &s[start..end]
}

// Writes the identifiers in entry order to the front of `out`; the place is how many there are. A refusal writes nothing.
pub fn store_list(s: &[u8], out: &mut [u32]) -> Answer
    ensures answer { result ≡ (listed s.now out.old).answer }
    ensures wrote { out.new ≡ (listed s.now out.old).out }
{
    let book = match open_book(s) {
        Ok(book) => book,
        Err(refusal) => return refusal.of(Input::Request),
    };
    let n = book.entries.count;
    if out.len() < n {
        return Answer::refused(Fault::Room, Input::Request, n);
    }
    for (i, place) in out[..n].iter_mut().enumerate() {
        *place = book.entries.identifier(i);
    }
    Answer::accepted(n)
}

// The entries of the blank book.
ghost use Rattle.std.specs.Prelude.{◌≡◌};
ghost use Rattle.store.specs.Check.{book_check};
ghost use Rattle.store.specs.Questions.{found, listed, added};

use access::part::Part;
use descriptor::answer::Answer;

// Reads any bytes as a blank book. Accepted: number 0, input 0, place 0. Refused: 63 with input 4, the place being 0 where there are under 4
// or over 65,536 bytes, the capacity where the contents don't fit or more entries are in use than there are, else the first bad entry.
pub fn kc_store_check(store: &[u8]) -> Answer
    ensures { result ≡ book_check store.now }
{
    store::questions::store_check(store)
}

// Adds the record of the descriptor and its data at the end of the book: the record as lent after the last body, its entry after the last in
// use, and the count raised by one; all other bytes stay. Accepted: number 0, input 0, place 0. Refused, in this order: 63 as by the check;
// the record's own, which are the descriptor's 1 to 12 with input 1, the data's 20 to 23 and 25 with input 3, 41 with input 1, 42 to 44 with
// input 2 and place 0; then with input 4 60 where the identifier is there, the place being its entry, 61 where no entry is free, 62 where
// there is no room for the body, the place being its length. A refusal leaves the book as it was.
pub fn kc_store_add(store: &mut [u8], descriptor: &[u8], data: &[u8]) -> Answer
    ensures answer { result ≡ (added store.old descriptor.now «data».now).answer }
    ensures wrote { store.new ≡ (added store.old descriptor.now «data».now).out }
{
    store::add::store_add(store, descriptor, data)
}

// Finds the whole body of the record with this identifier, the descriptor and then its data, as a part of the book. Accepted: number 0,
// input 0, place 0, and where the body starts and how long it is. Refused: 63 as by the check; else 64 with input 4 and place 0 where no
// record has the identifier; start and length are then 0.
pub fn kc_store_find(store: &[u8], identifier: u32) -> Part
    ensures { result ≡ found store.now identifier }
{
    store::questions::store_find(store, identifier)
}

// Writes the identifiers of the book's records, in entry order, to the front of `identifiers`, and keeps the numbers beyond them. Accepted:
// number 0, input 0, and the place is how many there are. Refused: 63 as by the check; else 50 with input 4 where there are too few places,
// the place being how many are needed. A refusal writes nothing.
pub fn kc_store_list(store: &[u8], identifiers: &mut [u32]) -> Answer
    ensures answer { result ≡ (listed store.now identifiers.old).answer }
    ensures wrote { identifiers.new ≡ (listed store.now identifiers.old).out }
{
    store::questions::store_list(store, identifiers)
}

// Entries: where they stand, what each says, and which of them has an identifier.
ghost use Rattle.std.specs.Prelude.{◌≡◌, ◌+◌, ◌≤◌, ◌<◌, length};
ghost use Rattle.store.specs.Layout.{entry_place};
ghost use Rattle.store.specs.inner.Entries.{entry_in, name_at, Sought};
ghost use Rattle.store.specs.inner.Blanks.{Lays};

use super::blank::Blank;
use number::endian::be32;

// The most bytes that a book has.
pub const BOOK_LIMIT: usize = 65_536;

// Where entry i stands; of the capacity, where the contents end.
pub fn entry_place(i: usize) -> usize
    requires { i ≤ 65536 }
    ensures { result ≡ entry_place i }
{
    4 + 16 * i
}

// What an entry says: its identifier, where its body starts, how long the descriptor there is, and how long the data after it.
#[derive(Clone, Copy, Debug, PartialEq, Eq)]
pub struct Entry {
    pub identifier: u32,
    pub start: u32,
    pub first: u32,
    pub second: u32,
}

// The first entries of a book, so many: they lie in its bytes, and 16 bits count them.
#[derive(Clone, Copy)]
pub struct Entries<'a> {
    pub bytes: &'a [u8],
    pub count: usize,
    pub ghost few: { count ≤ 65535 },
    pub ghost inside: { entry_place count ≤ length bytes.now },
}

impl<'a> Entries<'a> {
    // No more than the first n of them.
    pub fn first(self, n: usize) -> Entries<'a>
        requires { n ≤ self.count }
        ensures bytes { result.bytes.now ≡ self.entry.bytes.now }
        ensures count { result.count ≡ n }
    {
        Entries {
            bytes: self.bytes,
            count: n,
        }
    }

    // The identifier of entry i.
    pub fn identifier(self, i: usize) -> u32
        requires { i < self.count }
        ensures { result ≡ name_at self.entry.bytes.now i }
    {
        be32(self.bytes, entry_place(i)) as u32
    }

    // What entry i says.
    pub fn at(self, i: usize) -> Entry
        requires { i < self.count }
        ensures { result ≡ entry_in self.entry.bytes.now i }
    {
        let p = entry_place(i);
        Entry {
            identifier: be32(self.bytes, p) as u32,
            start: be32(self.bytes, p + 4) as u32,
            first: be32(self.bytes, p + 8) as u32,
            second: be32(self.bytes, p + 12) as u32,
        }
    }

    // The record of entry i; none where its body does not start where the one before it ended, at `at`, or ends past the book.
    pub fn blank(self, i: usize, at: usize) -> Option<Blank<'a>>
        requires { i < self.count }
        ensures { Lays self.entry.bytes.now i at result }
    {
        let e = self.at(i);
        let start = e.start as usize;
        if start != at {
            return None;
        }
        let middle = start + e.first as usize;
        let stop = middle + e.second as usize;
        if self.bytes.len() < stop {
            return None;
        }
        Some(Blank {
            identifier: e.identifier as usize,
            start,
            descriptor: &self.bytes[start..middle],
            flattened: &self.bytes[middle..stop],
        })
    }

    // The first that has this identifier.
    pub fn seek(self, identifier: usize) -> Option<usize>
        ensures { Sought self.entry.bytes.now self.entry.count identifier result }
    {
        for i in 0..self.count {
            if self.identifier(i) as usize == identifier {
                return Some(i);
            }
        }
        None
    }
}

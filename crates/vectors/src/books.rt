// The blank book of document 02's CR 4: a line for each question, with number, input and place; of a find the start and the length of the
// body then, of a list the numbers lent, and of a book as a whole whether its bytes are those they should be.
use super::shaped_records::show_output;
use super::show::{line, show_answer};
use kerbcanopy::book::{kc_store_add, kc_store_check, kc_store_find, kc_store_list};
use std::io;

// A rig whose descriptor is the reader's shape: 16 bytes, and 4 of data.
const PLAIN: &[u8] = b"\x00\x10\x00\x50\x00\x01\x00\x0A\x00\x07\x05blank";

// One that has a temperature ahead of the identifier: 22 bytes, and 6 of data.
const WARM: &[u8] = b"\x00\x16\x00\x50\x00\x02\x00\x06\x00\x02\x01t\x00\x0A\x00\x07\x05blank";

// Adds the record of d with the data x.
fn add(rt: &impl Print, name: &str, book: &mut [u8], d: &[u8], x: &[u8]) -> io::Result<()> {
    line(rt, name, || show_answer(rt, kc_store_add(book, d, x)))
}

fn show_find(rt: &impl Print, name: &str, book: &[u8], identifier: u32) -> io::Result<()> {
    line(rt, name, || {
        let part = kc_store_find(book, identifier);
        show_answer(rt, part.answer)?;
        print!(rt; " {} {}", part.start, part.length)
    })
}

// Lists into the numbers lent, and prints them all.
fn show_list(rt: &impl Print, name: &str, book: &[u8], identifiers: &mut [u32]) -> io::Result<()> {
    line(rt, name, || {
        show_answer(rt, kc_store_list(book, identifiers))?;
        for identifier in identifiers {
            print!(rt; " {identifier}")?;
        }
        Ok(())
    })
}

// Three records of two rigs in a book of three entries and 120 bytes, which they fill.
fn three(rt: &impl Print) -> io::Result<()> {
    let mut book = [0u8; 120];
    book[1] = 3;
    show_list(rt, "no record listed", &book, &mut [7; 3])?;
    show_find(rt, "9 in a book without records", &book, 9)?;
    add(rt, "9 added", &mut book, PLAIN, b"\x00\x00\x00\x09")?;
    add(
        rt,
        "10, another rig",
        &mut book,
        WARM,
        b"\x00\x19\x00\x00\x00\x0A",
    )?;
    add(rt, "10 again", &mut book, PLAIN, b"\x00\x00\x00\x0A")?;
    show_list(rt, "two listed", &book, &mut [7; 3])?;
    add(rt, "11 added", &mut book, PLAIN, b"\x00\x00\x00\x0B")?;
    show_list(rt, "three listed", &book, &mut [7; 3])?;
    show_list(rt, "three for two places", &book, &mut [7; 2])?;
    show_find(rt, "10 found", &book, 10)?;
    show_find(rt, "12 looked for", &book, 12)?;
    add(rt, "9 when full", &mut book, PLAIN, b"\x00\x00\x00\x09")?;
    add(rt, "12 when full", &mut book, PLAIN, b"\x00\x00\x00\x0C")?;
    add(rt, "12, cut", &mut book, WARM, b"\x00\x19\x00\x00\x00")?;
    add(
        rt,
        "9 named id",
        &mut book,
        b"\x00\x0E\x00\x50\x00\x01\x00\x08\x00\x07\x02id\x00",
        b"\x00\x00\x00\x09",
    )?;
    line(rt, "the book", || show_whole(rt, &book))
}

// The book after that.
fn show_whole(rt: &impl Print, book: &[u8]) -> io::Result<()> {
    show_answer(rt, kc_store_check(book))?;
    show_output(
        rt,
        book,
        b"\x00\x03\x00\x03\
        \x00\x00\x00\x09\x00\x00\x00\x34\x00\x00\x00\x10\x00\x00\x00\x04\
        \x00\x00\x00\x0A\x00\x00\x00\x48\x00\x00\x00\x16\x00\x00\x00\x06\
        \x00\x00\x00\x0B\x00\x00\x00\x64\x00\x00\x00\x10\x00\x00\x00\x04\
        \x00\x10\x00\x50\x00\x01\x00\x0A\x00\x07\x05blank\x00\x00\x00\x09\
        \x00\x16\x00\x50\x00\x02\x00\x06\x00\x02\x01t\x00\x0A\x00\x07\x05blank\x00\x19\x00\x00\x00\x0A\
        \x00\x10\x00\x50\x00\x01\x00\x0A\x00\x07\x05blank\x00\x00\x00\x0B",
    )
}

// A book of one entry, a byte too short for a record.
fn narrow(rt: &impl Print) -> io::Result<()> {
    let mut book = [0u8; 39];
    book[1] = 1;
    add(
        rt,
        "9, a byte too much",
        &mut book,
        PLAIN,
        b"\x00\x00\x00\x09",
    )?;
    show_list(rt, "no record listed then", &book, &mut [7; 3])
}

// Bytes that are a book, and what is wrong with others. The entry of 9 in a book of two says 36, 16 and 4.
static JUDGED: [(&str, &[u8]); 9] = [
    ("three bytes", b"\x00\x00\x00"),
    ("no entries", b"\x00\x00\x00\x00"),
    ("two entries that don't fit", b"\x00\x02\x00\x00"),
    (
        "one entry and two in use",
        b"\x00\x01\x00\x02\x00\x00\x00\x00\x00\x00\x00\x00\x00\x00\x00\x00\x00\x00\x00\x00",
    ),
    (
        "9 alone",
        b"\x00\x02\x00\x01\x00\x00\x00\x09\x00\x00\x00\x24\x00\x00\x00\x10\x00\x00\x00\x04\
        \x00\x00\x00\x00\x00\x00\x00\x00\x00\x00\x00\x00\x00\x00\x00\x00\
        \x00\x10\x00\x50\x00\x01\x00\x0A\x00\x07\x05blank\x00\x00\x00\x09\xEE",
    ),
    (
        "a gap before its body",
        b"\x00\x02\x00\x01\x00\x00\x00\x09\x00\x00\x00\x25\x00\x00\x00\x10\x00\x00\x00\x04\
        \x00\x00\x00\x00\x00\x00\x00\x00\x00\x00\x00\x00\x00\x00\x00\x00\x00\
        \x00\x10\x00\x50\x00\x01\x00\x0A\x00\x07\x05blank\x00\x00\x00\x09",
    ),
    (
        "8 in its entry",
        b"\x00\x02\x00\x01\x00\x00\x00\x08\x00\x00\x00\x24\x00\x00\x00\x10\x00\x00\x00\x04\
        \x00\x00\x00\x00\x00\x00\x00\x00\x00\x00\x00\x00\x00\x00\x00\x00\
        \x00\x10\x00\x50\x00\x01\x00\x0A\x00\x07\x05blank\x00\x00\x00\x09",
    ),
    (
        "an unused entry that ends in 1",
        b"\x00\x02\x00\x01\x00\x00\x00\x09\x00\x00\x00\x24\x00\x00\x00\x10\x00\x00\x00\x04\
        \x00\x00\x00\x00\x00\x00\x00\x00\x00\x00\x00\x00\x00\x00\x00\x01\
        \x00\x10\x00\x50\x00\x01\x00\x0A\x00\x07\x05blank\x00\x00\x00\x09",
    ),
    (
        "9 twice",
        b"\x00\x02\x00\x02\x00\x00\x00\x09\x00\x00\x00\x24\x00\x00\x00\x10\x00\x00\x00\x04\
        \x00\x00\x00\x09\x00\x00\x00\x38\x00\x00\x00\x10\x00\x00\x00\x04\
        \x00\x10\x00\x50\x00\x01\x00\x0A\x00\x07\x05blank\x00\x00\x00\x09\
        \x00\x10\x00\x50\x00\x01\x00\x0A\x00\x07\x05blank\x00\x00\x00\x09",
    ),
];

// A line for each of these.
pub fn worked(rt: &impl Print) -> io::Result<()> {
    three(rt)?;
    narrow(rt)?;
    for (name, s) in &JUDGED {
        line(rt, name, || show_answer(rt, kc_store_check(s)))?;
    }
    Ok(())
}

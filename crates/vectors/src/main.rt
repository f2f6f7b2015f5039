// Runs the worked descriptors of document 01 that are not proved, and those of the source documents 002 and 004, through the public
// entries. A line for each: its name; number, input and place; the rows, as (code start size depth count name_place name_length), the
// code hexadecimal and the others decimal; and of its normal form, whether it has the same bytes and compares equal. Then data, under a
// descriptor: its name, number, input and place. Then records in a reader's shape, time stamps, and blank books.
#![tactic(auto)]

mod books;
mod data;
mod numbers;
mod shaped_records;
mod show;
mod sources;
mod stamps;

use show::{line, show};
use std::io;

// Document 01, "Checked by hand": the rows not marked P. The first stands in 002 and 004 too.
static HAND_CHECKED: [(&str, &[u8]); 3] = [
    (
        "m/s, double (01, 002, 004)",
        b"\x00\x0E\x00\x1A\x00\x02\x00\x02\xFF\xFF\x00\x03\x00\x01",
    ),
    ("half a name (01)", b"\x00\x06\x00\x03\x02\x61"),
    ("empty name (01)", b"\x00\x06\x00\x03\x00\x00"),
];

// The places of document 02's CR 3, of a descriptor inside another and, but for the first, before a third.
static POINTED_AT: [(&str, &[u8]); 8] = [
    (
        "array in array (P7)",
        b"\x00\x18\x00\x40\x00\x01\xFF\xFF\xFF\xFF\x00\x0E\x00\x40\x00\x01\xFF\xFF\xFF\xFF\x00\x04\x00\x0A",
    ),
    (
        "member of code 00",
        b"\x00\x0E\x00\x50\x00\x02\x00\x04\x00\x00\x00\x04\x00\x03",
    ),
    (
        "member without a count word",
        b"\x00\x0E\x00\x50\x00\x02\x00\x04\x00\x50\x00\x04\x00\x03",
    ),
    (
        "member of no members",
        b"\x00\x10\x00\x50\x00\x02\x00\x06\x00\x50\x00\x00\x00\x04\x00\x03",
    ),
    (
        "second dimension word FFFFFFFE",
        b"\x00\x1C\x00\x50\x00\x02\x00\x12\x00\x40\x00\x02\xFF\xFF\xFF\xFF\xFF\xFF\xFF\xFE\x00\x04\x00\x03\x00\x04\x00\x03",
    ),
    (
        "base index 9",
        b"\x00\x14\x00\x50\x00\x02\x00\x0A\x00\x19\x00\x01\x00\x09\x00\x01\x00\x04\x00\x03",
    ),
    (
        "fill byte 61",
        b"\x00\x12\x00\x50\x00\x02\x00\x08\x00\x15\x00\x01\x00\x61\x00\x04\x00\x03",
    ),
    (
        "member with half a name",
        b"\x00\x10\x00\x50\x00\x02\x00\x06\x00\x03\x02\x61\x00\x04\x00\x03",
    ),
];

fn main(rt: HostRuntime) -> io::Result<()> {
    let rt = &rt;
    for (name, d) in HAND_CHECKED.iter().chain(&POINTED_AT) {
        line(rt, name, || show(rt, d))?;
    }
    numbers::worked(rt)?;
    sources::worked(rt)?;
    data::worked(rt)?;
    shaped_records::worked(rt)?;
    stamps::worked(rt)?;
    books::worked(rt)
}

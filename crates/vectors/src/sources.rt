// The descriptors that 002 and 004 work out in bytes, where document 01 carries their codes.
use super::show::{line, show};
use std::io;

// 004 prints the strings of the first as characters. 002 says "12 bytes total" of the second; its own bytes say 14, and they are 14.
static NESTED: [(&str, &[u8]); 6] = [
    (
        "am, fm, fm stereo (002, 004)",
        b"\x00\x16\x00\x15\x00\x03\x02am\x02fm\x09fm stereo",
    ),
    (
        "1D array of doubles (002, 004)",
        b"\x00\x0E\x00\x40\x00\x01\xFF\xFF\xFF\xFF\x00\x04\x00\x0A",
    ),
    (
        "2D array of Booleans (002, 004)",
        b"\x00\x12\x00\x40\x00\x02\xFF\xFF\xFF\xFF\xFF\xFF\xFF\xFF\x00\x04\x00\x21",
    ),
    (
        "cluster of two integers (002, 004)",
        b"\x00\x0E\x00\x50\x00\x02\x00\x04\x00\x02\x00\x04\x00\x07",
    ),
    (
        "multi-plot graph (004)",
        b"\x00\x28\x00\x40\x00\x01\xFF\xFF\xFF\xFF\x00\x1E\x00\x50\x00\x01\
        \x00\x18\x00\x40\x00\x01\xFF\xFF\xFF\xFF\x00\x0E\x00\x50\x00\x02\x00\x04\x00\x0A\x00\x04\x00\x03",
    ),
    (
        "the cluster in a time stamp (004)",
        b"\x00\x16\x00\x50\x00\x04\x00\x04\x00\x03\x00\x04\x00\x03\x00\x04\x00\x03\x00\x04\x00\x03",
    ),
];

// The entries of 002's descriptor lists, which document 01 does not read: as nested descriptors they are refused. The sizes of the
// first three are those of the nested form and more than the bytes printed, so that they are inconsistent with themselves.
static LISTED: [(&str, &[u8]); 6] = [
    (
        "array of doubles, of a list (002)",
        b"\x00\x0E\x00\x40\x00\x01\xFF\xFF\xFF\xFF",
    ),
    (
        "array of Booleans, of a list (002)",
        b"\x00\x12\x00\x40\x00\x02\xFF\xFF\xFF\xFF\xFF\xFF\xFF\xFF",
    ),
    (
        "cluster of two, of a list (002)",
        b"\x00\x0E\x00\x50\x00\x02",
    ),
    ("double, of a list (002)", b"\x00\x05\x00\x0A\x00"),
    (
        "array of type 0, of a list (002)",
        b"\x00\x0C\x00\x40\x00\x01\xFF\xFF\xFF\xFF\x00\x00",
    ),
    (
        "cluster of type 2, of a list (002)",
        b"\x00\x08\x00\x50\x00\x01\x00\x02",
    ),
];

// A line for each of these.
pub fn worked(rt: &impl Print) -> io::Result<()> {
    for (name, d) in NESTED.iter().chain(&LISTED) {
        line(rt, name, || show(rt, d))?;
    }
    Ok(())
}

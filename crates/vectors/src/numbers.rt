// The types that the tables of 002 and 004 give whole, `xx` being the reserved byte. 004 has them without the two of 64 bits.
use super::show::{line, show};
use std::io;

static NUMBERS: [(&str, &[u8]); 17] = [
    ("8-bit integer", b"\x00\x04\x00\x01"),
    ("16-bit integer", b"\x00\x04\x00\x02"),
    ("32-bit integer", b"\x00\x04\x00\x03"),
    ("64-bit integer (002)", b"\x00\x04\x00\x04"),
    ("unsigned 8-bit integer", b"\x00\x04\x00\x05"),
    ("unsigned 16-bit integer", b"\x00\x04\x00\x06"),
    ("unsigned 32-bit integer", b"\x00\x04\x00\x07"),
    ("unsigned 64-bit integer (002)", b"\x00\x04\x00\x08"),
    ("single", b"\x00\x04\x00\x09"),
    ("double", b"\x00\x04\x00\x0A"),
    ("extended", b"\x00\x04\x00\x0B"),
    ("complex single", b"\x00\x04\x00\x0C"),
    ("complex double", b"\x00\x04\x00\x0D"),
    ("complex extended", b"\x00\x04\x00\x0E"),
    ("Boolean", b"\x00\x04\x00\x21"),
    ("Boolean, xx being FF", b"\x00\x04\xFF\x21"),
    ("string", b"\x00\x08\x00\x30\xFF\xFF\xFF\xFF"),
];

pub fn worked(rt: &impl Print) -> io::Result<()> {
    for (name, d) in &NUMBERS {
        line(rt, name, || show(rt, d))?;
    }
    Ok(())
}

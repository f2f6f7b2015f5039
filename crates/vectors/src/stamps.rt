// Time stamps: the descriptors of 001 and 004, data, and differences: a line for each, with number, input and place.
use super::data::show_data;
use super::show::{line, show, show_answer};
use std::io;

// The stamp of 001.
const STAMP: &[u8] =
    b"\x00\x1C\x00\x54\x00\x06\x00\x16\x00\x50\x00\x04\x00\x04\x00\x03\x00\x04\x00\x03\x00\x04\x00\x07\x00\x04\x00\x07";

// 001 has the first three words of its own and says what follows; 004 prints four 0003, and its stamp is refused.
static DESCRIPTORS: [(&str, &[u8]); 5] = [
    ("time stamp (001)", STAMP),
    (
        "time stamp (004)",
        b"\x00\x1C\x00\x54\x00\x06\x00\x16\x00\x50\x00\x04\x00\x04\x00\x03\x00\x04\x00\x03\x00\x04\x00\x03\x00\x04\x00\x03",
    ),
    (
        "time stamp named t",
        b"\x00\x1E\x00\x54\x00\x06\x00\x16\x00\x50\x00\x04\x00\x04\x00\x03\x00\x04\x00\x03\x00\x04\x00\x07\x00\x04\x00\x07\x01t",
    ),
    (
        "another subtype",
        b"\x00\x1C\x00\x54\x00\x05\x00\x16\x00\x50\x00\x04\x00\x04\x00\x03\x00\x04\x00\x03\x00\x04\x00\x07\x00\x04\x00\x07",
    ),
    ("no part", b"\x00\x06\x00\x54\x00\x06"),
];

// Data of that stamp.
static DATA: [(&str, &[u8]); 2] = [
    (
        "1904 and a half second",
        b"\x00\x00\x00\x00\x00\x00\x00\x00\x80\x00\x00\x00\x00\x00\x00\x00",
    ),
    (
        "cut in its third integer",
        b"\x00\x00\x00\x00\x00\x00\x00\x00\x80",
    ),
];

// A stamp: the halves of its seconds, and the high half of its fraction, whose low half is 0.
#[derive(Clone, Copy)]
struct Stamp(i32, i32, u32);

// A stamp, one that is taken from it, and the seconds of the difference.
static DIFFERENCES: [(&str, Stamp, Stamp, i64); 5] = [
    (
        "3.5 s less 1.25 s",
        Stamp(0, 3, 0x8000_0000),
        Stamp(0, 1, 0x4000_0000),
        2,
    ),
    (
        "3.25 s less 1.5 s",
        Stamp(0, 3, 0x4000_0000),
        Stamp(0, 1, 0x8000_0000),
        1,
    ),
    (
        "0 s less 0.5 s",
        Stamp(0, 0, 0),
        Stamp(0, 0, 0x8000_0000),
        -1,
    ),
    ("the most", Stamp(i32::MAX, -1, 0), Stamp(0, 0, 0), i64::MAX),
    (
        "one below the least",
        Stamp(i32::MIN, 0, 0),
        Stamp(0, 1, 0),
        0,
    ),
];

// What is said of the stamp less the one that is taken from it, and whether the seconds are those wanted.
fn show_difference(rt: &impl Print, stamp: Stamp, taken: Stamp, wanted: i64) -> io::Result<()> {
    let d = kerbcanopy::kc_stamp_difference(
        stamp.0, stamp.1, stamp.2, 0, taken.0, taken.1, taken.2, 0,
    );
    show_answer(rt, d.answer)?;
    let seconds = if d.seconds == wanted {
        "seconds as wanted"
    } else {
        "other seconds"
    };
    print!(rt; " {seconds}, {}", d.fraction)
}

// A line for each of these.
pub fn worked(rt: &impl Print) -> io::Result<()> {
    for (name, d) in &DESCRIPTORS {
        line(rt, name, || show(rt, d))?;
    }
    for (name, s) in &DATA {
        line(rt, name, || show_data(rt, STAMP, s))?;
    }
    for &(name, stamp, taken, wanted) in &DIFFERENCES {
        line(rt, name, || show_difference(rt, stamp, taken, wanted))?;
    }
    Ok(())
}

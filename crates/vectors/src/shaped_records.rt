// Records in a reader's shape: a line for each, with number, input and place, and whether the output holds what it should.
use super::show::{line, show_answer};
use std::io;

// The rig of document 01's P11, a temperature and an identifier, a record of it, and the reader of the identifier alone.
const RIG: &[u8] = b"\x00\x14\x00\x50\x00\x02\x00\x06\x00\x02\x01t\x00\x08\x00\x07\x02id\x00";

const RECORD: &[u8] = b"\x00\x19\x00\x00\x00\x09";

const READER: &[u8] = b"\x00\x0E\x00\x50\x00\x01\x00\x08\x00\x07\x02id\x00";

// What the output should hold: the identifier 9 ahead of what was there, and after a refusal what was there.
const NINE: &[u8] = b"\x00\x00\x00\x09\xEE\xEE";

const KEPT: &[u8] = b"\xEE\xEE\xEE\xEE\xEE\xEE";

// What the shop lost records over: rigs, with data and what the output should hold then.
static OLD_FAULTS: [(&str, &[u8], &[u8], &[u8]); 5] = [
    ("the identifier alone", READER, b"\x00\x00\x00\x09", NINE),
    ("temperature ahead of it (P11)", RIG, RECORD, NINE),
    (
        "the two in the other order",
        b"\x00\x14\x00\x50\x00\x02\x00\x08\x00\x07\x02id\x00\x00\x06\x00\x02\x01t",
        b"\x00\x00\x00\x09\x00\x19",
        NINE,
    ),
    (
        "the reserved byte set",
        b"\x00\x14\x40\x50\x00\x02\x00\x06\x40\x02\x01t\x00\x08\x40\x07\x02id\x00",
        RECORD,
        NINE,
    ),
    ("a cut record", RIG, b"\x00\x19\x00\x00\x00", KEPT),
];

// Each way for a reader of that record to be refused.
static REFUSED_READERS: [(&str, &[u8]); 4] = [
    (
        "a signed identifier (P12)",
        b"\x00\x0E\x00\x50\x00\x01\x00\x08\x00\x03\x02id\x00",
    ),
    (
        "another name (P12)",
        b"\x00\x0E\x00\x50\x00\x01\x00\x08\x00\x07\x02no\x00",
    ),
    ("a reader that is no cluster", b"\x00\x08\x00\x07\x02id\x00"),
    (
        "a reader's member without a name",
        b"\x00\x12\x00\x50\x00\x02\x00\x08\x00\x07\x02id\x00\x00\x04\x00\x02",
    ),
];

// Each way for a rig to be refused, with data.
static REFUSED_RIGS: [(&str, &[u8], &[u8]); 3] = [
    (
        "a rig that is no cluster",
        b"\x00\x08\x00\x07\x02id\x00",
        b"\x00\x00\x00\x09",
    ),
    (
        "two identifiers",
        b"\x00\x16\x00\x50\x00\x02\x00\x08\x00\x07\x02id\x00\x00\x08\x00\x07\x02id\x00",
        b"\x00\x00\x00\x09\x00\x00\x00\x0E",
    ),
    (
        "an identifier of eight bytes",
        b"\x00\x0E\x00\x50\x00\x01\x00\x08\x00\x08\x02id\x00",
        b"\x00\x00\x00\x00\x00\x00\x00\x09",
    ),
];

// Says whether the output is as it should be.
pub fn show_output(rt: &impl Print, out: &[u8], wanted: &[u8]) -> io::Result<()> {
    let verb = if out == wanted { "as" } else { "not as" };
    print!(rt; "; output {verb} it should be")
}

// What is said of the data s of the rig w in the shape of the reader r, into six bytes of 238; `wanted` is what they should hold then.
fn show_record(rt: &impl Print, w: &[u8], r: &[u8], s: &[u8], wanted: &[u8]) -> io::Result<()> {
    let mut out = [238u8; 6];
    show_answer(rt, kerbcanopy::kc_read_record(w, r, s, &mut out))?;
    show_output(rt, &out, wanted)
}

// A line for each of these, and for the lamp rig.
pub fn worked(rt: &impl Print) -> io::Result<()> {
    for (name, w, s, wanted) in &OLD_FAULTS {
        line(rt, name, || show_record(rt, w, READER, s, wanted))?;
    }
    for (name, r) in &REFUSED_READERS {
        line(rt, name, || show_record(rt, RIG, r, RECORD, KEPT))?;
    }
    for (name, w, s) in &REFUSED_RIGS {
        line(rt, name, || show_record(rt, w, READER, s, KEPT))?;
    }
    line(rt, "the lamp rig's FF", || show_lamp(rt))
}

// The lamp rig's FF for true is handed on as it came.
fn show_lamp(rt: &impl Print) -> io::Result<()> {
    show_record(
        rt,
        b"\x00\x16\x00\x50\x00\x02\x00\x08\x00\x07\x02id\x00\x00\x08\x00\x21\x03lit",
        b"\x00\x0E\x00\x50\x00\x01\x00\x08\x00\x21\x03lit",
        b"\x00\x00\x00\x09\xFF",
        b"\xFF\xEE\xEE\xEE\xEE\xEE",
    )
}

// What is printed of a descriptor, made of the three public entries' answers. Everything is written to standard output as it comes.
use descriptor::answer::{Answer, Row};
use std::io;

// Room for the normal form of the longest descriptor here.
const ROOM: usize = 64;

// A line: a name, and what `say` prints.
pub fn line<F: FnOnce() -> io::Result<()>>(rt: &impl Print, name: &str, say: F) -> io::Result<()>
    requires { F.pre say }
{
    print!(rt; "{name}:")?;
    say()?;
    println!(rt)
}

pub fn show_answer(rt: &impl Print, answer: Answer) -> io::Result<()> {
    let Answer {
        number,
        input,
        place,
    } = answer;
    print!(rt; " {number} {input} {place}")
}

fn show_row(rt: &impl Print, row: &Row) -> io::Result<()> {
    let Row {
        code,
        start,
        size,
        depth,
        count,
        name_place,
        name_length,
    } = row;
    print!(rt; " ({code:02x} {start} {size} {depth} {count} {name_place} {name_length})")
}

// Whether the normal form has d's bytes, and whether the two compare equal.
fn show_normal(rt: &impl Print, d: &[u8], normal: &[u8]) -> io::Result<()> {
    let bytes = if d == normal { "same" } else { "other" };
    let equal = if kerbcanopy::kc_compare(d, normal).equal {
        "equal"
    } else {
        "not equal"
    };
    print!(rt; "; normal form: {bytes} bytes, {equal}")
}

// What is said of the descriptor d. The rows that are used have a size that is not 0, as every descriptor has. The place that the answer
// gives for the normal form is its length.
pub fn show(rt: &impl Print, d: &[u8]) -> io::Result<()> {
    let checked = kerbcanopy::kc_check_descriptor(d);
    show_answer(rt, checked.answer)?;
    for row in checked.rows.iter().filter(|row| row.size != 0) {
        show_row(rt, row)?;
    }
    let mut out = [0u8; ROOM];
    let answer = kerbcanopy::kc_normal_form(d, &mut out);
    if answer.number == 0 {
        show_normal(rt, d, &out[..(answer.place as usize).min(ROOM)])
    } else {
        print!(rt; "; normal form: none")
    }
}

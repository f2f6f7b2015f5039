// Answers and rows as numbers one after another, for callers that lend arrays of numbers.
#![tactic(auto)]

ghost use Rattle.std.specs.Prelude.{◌≡◌, ◌++◌, ◌+◌, ◌-◌, ◌*◌, ◌≤◌, length, take, drop, replicate};
ghost use Rattle.layout.specs.Numbers.{answer_numbers, row_numbers, rows_numbers, truth};
ghost use Rattle.layout.specs.inner.Used.{rows_used};

use descriptor::answer::{Answer, Row};

// An answer in three numbers.
pub fn put_answer(answer: Answer, to: &mut [u32; 3])
    ensures { to.new ≡ answer_numbers answer }
{
    *to = [answer.number, answer.input, answer.place];
}

// Yes or no in one byte.
pub fn put_truth(yes: bool, to: &mut u8)
    ensures { to.new ≡ truth yes }
{
    *to = u8::from(yes);
}

// How many rows an answer to a descriptor check counts: none where it is a refusal.
pub fn rows_used(answer: Answer) -> usize
    ensures { result ≡ rows_used answer }
{
    if answer.input == 0 {
        answer.place as usize
    } else {
        0
    }
}

// A row's seven numbers, the first of them at `at`.
fn put_row(row: Row, at: usize, to: &mut [u16; 1792])
    requires { at + 7 ≤ 1792 }
    ensures { to.new ≡ take at to.old ++ row_numbers row ++ drop (at + 7) to.old }
{
    to[at] = row.code;
    to[at + 1] = row.start;
    to[at + 2] = row.size;
    to[at + 3] = row.depth;
    to[at + 4] = row.count;
    to[at + 5] = row.name_place;
    to[at + 6] = row.name_length;
}

// The first n rows, and zeros after them.
pub fn put_rows(rows: [Row; 256], n: usize, to: &mut [u16; 1792])
    requires { (n ≤ 256) × (length rows ≡ 256) }
    ensures { to.new ≡ rows_numbers (take n rows) ++ replicate (1792 - n * 7) 0 }
{
    *to = [0u16; 1792];
    for (i, row) in rows[..n].iter().enumerate() {
        put_row(*row, i * 7, to);
    }
}

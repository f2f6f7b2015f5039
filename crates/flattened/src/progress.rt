// How far a walk of data came.
use super::cursor::Cursor;

// Where the next token starts, and how many went before it.
#[derive(Clone, Copy, Debug, PartialEq, Eq)]
pub struct Walked {
    pub next: Cursor,
    pub tokens: usize,
}

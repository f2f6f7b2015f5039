// Where a path leads in accepted data.
use flattened::cursor::Cursor;

// The place of a type in the descriptor, and where its data starts.
#[derive(Clone, Copy, Debug, PartialEq, Eq)]
pub struct Spot {
    pub place: usize,
    pub start: Cursor,
}

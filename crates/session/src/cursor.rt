// A cursor: one question in progress.
use quads::{Mark, Pattern};

// How far a cursor has come.
#[derive(Clone, Copy)]
pub(crate) enum State {
    Closed,
    // Open: the next quad is the first from this mark on.
    Waiting(Mark),
    // Open: there was no next quad.
    Ended,
}

// One of the eight cursors of a session. Its pattern and its count stand beside the state, and not in it: both open states
// have them, and which answer a cursor has is one match on the state and on what is asked.
#[derive(Clone, Copy)]
pub(crate) struct Cursor {
    pub(crate) state: State,
    // What this opening lists.
    pub(crate) pattern: Pattern,
    // How many quads this opening gave, as counts are answered.
    pub(crate) given: u32,
}

// The cursors, and what they gave in all. By rule of the project a session has a fixed number of cursors, in itself.
#[derive(Clone, Copy)]
pub(crate) struct Table {
    pub(crate) cursors: [Cursor; 8],
    // How many quads all openings of all cursors gave, as counts are answered.
    pub(crate) given: u32,
}

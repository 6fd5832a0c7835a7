// Calls: what can be asked of a session and of a cursor, and what a cursor replies.
ghost use Rattle.session.specs.Outcomes.{count_of};
ghost use Rattle.std.specs.Prelude.{◌≡◌};

use quads::{Mark, Pattern, Quad};

// What is asked of one cursor.
#[derive(Clone, Copy, PartialEq, Eq, Debug)]
pub enum Ask {
    // Begin to list the quads that match the pattern.
    Open(Pattern),
    // Give the next quad.
    Next,
    // Go on from this mark.
    Seek(Mark),
    // Count the quads that are left.
    Left,
    // Close the cursor.
    Close,
}

// A call on a session, with what it is handed.
#[derive(Clone, Copy, PartialEq, Eq, Debug)]
pub enum Call {
    // Something is asked of the cursor of this number.
    On(u32, Ask),
    // How many quads were given since attaching.
    Tally,
    // Which cursors are open, into a buffer with room for so many.
    Roll(usize),
}

// What a cursor that does not refuse answers. A transcript's answer has these cases too, and beside them a roll, which no
// cursor replies; an answer that held a reply would be read by two matches.
#[derive(Clone, Copy, PartialEq, Eq, Debug)]
pub(crate) enum Reply {
    Opened,
    // The quad that was given, or that there is none.
    Next(Option<Quad>),
    Counted(u32),
}

impl Reply {
    // The count in the reply, or 0. No Option: its callers have asked what replies with a count, and each
    // would turn a None into 0.
    pub(crate) fn count(self) -> u32
        ensures { result ≡ count_of self }
    {
        match self {
            Reply::Counted(count) => count,
            _ => 0,
        }
    }
}

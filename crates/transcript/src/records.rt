// A call on a session, and what came of it.
ghost use Rattle.std.specs.Prelude.{◌≡◌};

use quads::Quad;
use session::{Call, Refusal};

// What a call answered that was not turned down. A cursor's reply has three of these cases, and never the last.
#[derive(Clone, Copy, PartialEq, Eq, Debug)]
pub enum Answer {
    // The cursor was opened.
    Opened,
    // This quad was given, or there is no further one.
    Next(Option<Quad>),
    // The number that was asked for.
    Counted(u32),
    // How many cursors are open, and the first eight entries of the buffer, which held zeros, with their numbers at its front.
    // By rule of the project the memory is fixed; and the number is what the call answered, the entries what it wrote.
    Rolled(usize, [u32; 8]),
}

// One line of a transcript: a call, and what came of it once it is made.
#[derive(Clone, Copy, PartialEq, Eq, Debug)]
pub struct Record {
    pub call: Call,
    pub answer: Option<Result<Answer, Refusal>>,
}

impl Record {
    ghost use Rattle.transcript.specs.Transcripts.{pending};

    // A call that is yet to be made.
    pub const fn new(call: Call) -> Record
        ensures { result ≡ pending call }
    {
        Record { call, answer: None }
    }
}

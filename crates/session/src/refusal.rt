// Why a call on a session was turned down.
ghost use Rattle.session.specs.Outcomes.{refusal_number};
ghost use Rattle.std.specs.Prelude.{◌≡◌};

// The cases. Each call tries those that can meet it in this order.
#[derive(Clone, Copy, PartialEq, Eq, Debug)]
pub enum Refusal {
    // The cursor's number is above 7.
    NoSuchCursor,
    // The pattern gives a number that is no ID.
    NotAnId,
    // The cursor is closed.
    CursorClosed,
    // The cursor to be opened is open.
    CursorOpen,
    // The cursor has answered end.
    CursorEnded,
    // The sought mark is below the cursor's mark.
    MarkBehind,
    // The buffer is shorter than there are open cursors.
    BufferShort,
}

impl Refusal {
    // The refusal's number.
    pub fn number(self) -> u32
        ensures { result ≡ refusal_number self }
    {
        match self {
            Refusal::NoSuchCursor => 11,
            Refusal::NotAnId => 12,
            Refusal::CursorClosed => 21,
            Refusal::CursorOpen => 22,
            Refusal::CursorEnded => 23,
            Refusal::MarkBehind => 24,
            Refusal::BufferShort => 25,
        }
    }
}

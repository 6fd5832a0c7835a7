// Statements, questions, calls, answers and refusals as a person reads them.
use crate::names::name_of;
use quads::{Pattern, Place, Quad};
use session::{Ask, Call, Refusal};
use std::fmt;
use transcript::{Answer, Record};

// A statement with the names of its parts.
#[derive(Drop)]
pub(crate) struct Statement(pub(crate) Quad);

impl fmt::Display for Statement {
    fn fmt<W: fmt::Write>(&self, f: &mut fmt::Formatter<W>) -> fmt::Result {
        let Quad { s, p, o, g } = self.0;
        write!(
            f,
            "{} | {} | {} | {}",
            name_of(s),
            name_of(p),
            name_of(o),
            name_of(g)
        )
    }
}

// A question with the names of what it fixes.
#[derive(Drop)]
pub(crate) struct Question(pub(crate) Pattern);

impl fmt::Display for Question {
    fn fmt<W: fmt::Write>(&self, f: &mut fmt::Formatter<W>) -> fmt::Result {
        let Pattern { s, p, o, g } = self.0;
        write!(
            f,
            "{} | {} | {} | {}",
            name_or(s, "any work"),
            name_or(p, "any property"),
            name_or(o, "any value"),
            name_or(g, "any edition")
        )
    }
}

// The name of what the place gives, or these words if it is open.
fn name_or(place: Place, any: &'static str) -> &'static str {
    match place {
        Place::Any => any,
        Place::Given(id) => name_of(id),
    }
}

// A call on a session.
#[derive(Drop)]
pub(crate) struct Asked(pub(crate) Call);

impl fmt::Display for Asked {
    fn fmt<W: fmt::Write>(&self, f: &mut fmt::Formatter<W>) -> fmt::Result {
        match self.0 {
            Call::On(cursor, ask) => write_ask(f, cursor, ask),
            Call::Tally => write!(f, "Count what was listed in all"),
            Call::Roll(room) => write!(f, "Name the open cursors, with room for {room}"),
        }
    }
}

// What is asked of a cursor.
fn write_ask<W: fmt::Write>(f: &mut fmt::Formatter<W>, cursor: u32, ask: Ask) -> fmt::Result {
    match ask {
        Ask::Open(pattern) => write!(f, "Open cursor {cursor} on {}", Question(pattern)),
        Ask::Next => write!(f, "Next on cursor {cursor}"),
        Ask::Seek(mark) => write!(
            f,
            "Cursor {cursor}, go on from {}, and count what is passed over",
            name_of(mark.s)
        ),
        Ask::Left => write!(f, "Count what is left on cursor {cursor}"),
        Ask::Close => write!(f, "Close cursor {cursor}, and count what was listed on it"),
    }
}

// What came of a call.
#[derive(Drop)]
pub(crate) struct Told(pub(crate) Option<Result<Answer, Refusal>>);

impl fmt::Display for Told {
    fn fmt<W: fmt::Write>(&self, f: &mut fmt::Formatter<W>) -> fmt::Result {
        match self.0 {
            None => write!(f, "not yet asked."),
            Some(Ok(answer)) => write_answer(f, answer),
            Some(Err(refusal)) => write!(f, "turned down {}", Reason(refusal)),
        }
    }
}

// What a call answered that was not turned down.
fn write_answer<W: fmt::Write>(f: &mut fmt::Formatter<W>, answer: Answer) -> fmt::Result {
    match answer {
        Answer::Opened => write!(f, "it is open."),
        Answer::Next(Some(quad)) => write!(f, "{}", Statement(quad)),
        Answer::Next(None) => write!(f, "that is all."),
        Answer::Counted(count) => write!(f, "{count}."),
        Answer::Rolled(0, _) => write!(f, "none."),
        Answer::Rolled(1, cursors) => write!(f, "cursor{}.", Front(&cursors, 1)),
        Answer::Rolled(count, cursors) => write!(f, "cursors{}.", Front(&cursors, count)),
    }
}

// The first so many of the numbers, each after a space. A roll's buffer has a fixed size,
// and the count beside it is what the roll answered.
#[derive(Drop)]
pub(crate) struct Front<'a>(pub(crate) &'a [u32], pub(crate) usize);

impl fmt::Display for Front<'_> {
    fn fmt<W: fmt::Write>(&self, f: &mut fmt::Formatter<W>) -> fmt::Result {
        for number in self.0.iter().take(self.1) {
            write!(f, " {number}")?;
        }
        Ok(())
    }
}

// A call with what came of it.
#[derive(Drop)]
pub(crate) struct Line(pub(crate) Record);

impl fmt::Display for Line {
    fn fmt<W: fmt::Write>(&self, f: &mut fmt::Formatter<W>) -> fmt::Result {
        write!(f, "{}: {}", Asked(self.0.call), Told(self.0.answer))
    }
}

// Why a request was turned down, with the refusal's number.
#[derive(Drop)]
pub(crate) struct Reason(pub(crate) Refusal);

impl fmt::Display for Reason {
    fn fmt<W: fmt::Write>(&self, f: &mut fmt::Formatter<W>) -> fmt::Result {
        let words = match self.0 {
            Refusal::NoSuchCursor => "there is no cursor of that number; the last one is 7",
            Refusal::NotAnId => "a number in the question is not one of 1 to 1,048,576",
            Refusal::CursorClosed => "that cursor is closed",
            Refusal::CursorOpen => "that cursor is open already",
            Refusal::CursorEnded => "the listing on that cursor has come to its end",
            Refusal::MarkBehind => "the listing on that cursor has gone past that point",
            Refusal::BufferShort => "there is too little room for all open cursors",
        };
        write!(f, "({}): {words}.", self.0.number())
    }
}

// The table of a session's eight cursors.
ghost use Rattle.session.specs.Asks.{asks_only_ids};
ghost use Rattle.session.specs.Outcomes.{replied};
ghost use Rattle.session.specs.Tables.{ask_outcome, ask_after, new_table};
ghost use Rattle.std.specs.Prelude.{◌≡◌, false, is_ok};

use crate::call::{Ask, Reply};
use crate::cursor::{Cursor, Table};
use crate::refusal::Refusal;
use quads::{QuadSource, one_more};

// How many cursors a session has; they are numbered from 0.
pub const CURSORS: u32 = 8;

impl Ask {
    // Whether every number that is given in it is an ID.
    fn gives_only_ids(self) -> bool
        ensures { result ≡ asks_only_ids self }
    {
        match self {
            Ask::Open(pattern) => pattern.gives_only_ids(),
            _ => true,
        }
    }
}

impl Table {
    // Eight closed cursors, and no quad given.
    pub(crate) fn new() -> Table
        ensures { result ≡ new_table }
    {
        Table {
            cursors: [Cursor::CLOSED; 8],
            given: 0,
        }
    }

    // Asks one cursor, and adds up what all cursors gave; a refusal leaves the table as it was.
    pub(crate) fn ask<S: QuadSource>(
        &mut self,
        source: &S,
        cursor: u32,
        ask: Ask,
    ) -> Result<Reply, Refusal>
        ensures outcome { replied result ≡ ask_outcome (S.means source.now) self.old cursor ask }
        ensures after { self.new ≡ ask_after (S.means source.now) self.old cursor ask }
        ensures kept { is_ok result ≡ false → self.new ≡ self.old }
    {
        if cursor >= CURSORS {
            return Err(Refusal::NoSuchCursor);
        }
        if !ask.gives_only_ids() {
            return Err(Refusal::NotAnId);
        }
        let reply = self.cursors[cursor as usize].answer(source, ask)?;
        if let Reply::Next(Some(_)) = reply {
            self.given = one_more(self.given);
        }
        Ok(reply)
    }
}

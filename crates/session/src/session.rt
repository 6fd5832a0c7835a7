// The session: a source and its eight cursors, and the calls on them. No call has anything for its caller to test
// beforehand, and one that is turned down changes nothing.
ghost use Rattle.session.specs.Keeps.{Keeps, Follows, OneAsked};
ghost use Rattle.session.specs.Outcomes.{RollLeft, counted, replied, of_open, of_next, of_count, of_roll};
ghost use Rattle.session.specs.Rolls.{roll_outcome, RollWrote};
ghost use Rattle.session.specs.Tables.{new_table};
ghost use Rattle.session.specs.declared.call.Ask.TheVariants.{Open, Next, Seek, Left, Close};
ghost use Rattle.session.specs.declared.call.Call.TheVariants.{Tally, Roll};
ghost use Rattle.std.specs.Prelude.{◌≡◌, [], length};

use crate::call::{Ask, Reply};
use crate::cursor::Table;
use crate::refusal::Refusal;
use quads::{Mark, Pattern, Quad, QuadSource};

// The source is lent, so nothing changes it while the session lasts.
#[derive(Drop)]
pub struct Session<'a, S> {
    source: &'a S,
    table: Table,
}

impl<'a, S: QuadSource> Session<'a, S> {
    // A session over the source, with all cursors closed.
    pub fn attach(source: &'a S) -> Session<'a, S>
        ensures source { result.source.now ≡ source.now }
        ensures closed { result.table ≡ new_table }
        ensures law { Keeps (S.means source.now) [] result.table }
    {
        Session {
            source,
            table: Table::new(),
        }
    }

    // Asks one cursor. That the source stays is a clause of its own here and in what calls this: `OneAsked` speaks of what the
    // source means, and not of the source.
    fn ask(&mut self, cursor: u32, ask: Ask) -> Result<Reply, Refusal>
        ensures asked { OneAsked (S.means self.old.source.now) self.old.table cursor ask (replied result) self.new.table }
        ensures source { self.new.source.now ≡ self.old.source.now }
    {
        self.table.ask(self.source, cursor, ask)
    }

    // Sets a closed cursor to list the quads that match the pattern, from the first.
    pub fn open(&mut self, cursor: u32, pattern: Pattern) -> Result<(), Refusal>
        ensures asked { OneAsked (S.means self.old.source.now) self.old.table cursor (Open pattern) (of_open result) self.new.table }
        ensures source { self.new.source.now ≡ self.old.source.now }
    {
        self.ask(cursor, Ask::Open(pattern))?;
        Ok(())
    }

    // Gives the next quad that matches, or none where all were given or jumped.
    pub fn next(&mut self, cursor: u32) -> Result<Option<Quad>, Refusal>
        ensures asked { OneAsked (S.means self.old.source.now) self.old.table cursor Next (of_next result) self.new.table }
        ensures source { self.new.source.now ≡ self.old.source.now }
    {
        match self.ask(cursor, Ask::Next)? {
            Reply::Next(found) => Ok(found),
            // No other reply comes to a next.
            _ => Ok(None),
        }
    }

    // Moves the cursor's mark forward, or keeps it, and counts the quads that this newly jumps.
    pub fn seek(&mut self, cursor: u32, mark: Mark) -> Result<u32, Refusal>
        ensures asked { OneAsked (S.means self.old.source.now) self.old.table cursor (Seek mark) (of_count result) self.new.table }
        ensures source { self.new.source.now ≡ self.old.source.now }
    {
        let jumped = self.ask(cursor, Ask::Seek(mark))?;
        Ok(jumped.count())
    }

    // Counts the quads that are left.
    pub fn left(&self, cursor: u32) -> Result<u32, Refusal>
        ensures asked { OneAsked (S.means self.now.source.now) self.now.table cursor Left (of_count result) self.now.table }
    {
        let mut table = self.table;
        let left = table.ask(self.source, cursor, Ask::Left)?;
        Ok(left.count())
    }

    // Closes an open cursor, and counts the quads that this opening gave.
    pub fn close(&mut self, cursor: u32) -> Result<u32, Refusal>
        ensures asked { OneAsked (S.means self.old.source.now) self.old.table cursor Close (of_count result) self.new.table }
        ensures source { self.new.source.now ≡ self.old.source.now }
    {
        let given = self.ask(cursor, Ask::Close)?;
        Ok(given.count())
    }

    // How many quads all cursors gave since attaching, over all their openings.
    pub fn tally(&self) -> u32
        ensures answer { result ≡ self.now.table.given }
        ensures law { Follows (S.means self.now.source.now) self.now.table Tally (counted result) self.now.table }
    {
        self.table.given
    }

    // Writes the numbers of the open cursors, each just once, at the front of the buffer, and answers how many.
    pub fn roll(&self, buffer: &mut [u32]) -> Result<usize, Refusal>
        ensures answer { of_count result ≡ roll_outcome self.now.table (length buffer.old) }
        ensures wrote { RollWrote self.now.table buffer.new result }
        ensures rest { RollLeft result buffer.old buffer.new }
        ensures law { Follows (S.means self.now.source.now) self.now.table (Roll (length buffer.old)) (of_roll result buffer.new) self.now.table }
    {
        self.table.roll(buffer)
    }
}

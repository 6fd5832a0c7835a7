// What a cursor does when it is asked. That a refusal changes nothing (`kept`) is a clause of each that can refuse, here and at the
// table: it speaks of what is changed, a cursor or the table, and one word for both would say no more.
ghost use Rattle.quads.specs.Listings.{first_from};
ghost use Rattle.session.specs.Cursors.{closed, opened_at, cursor_outcome, cursor_after, advanced, left_from, sought, sought_outcome};
ghost use Rattle.session.specs.Outcomes.{Outcome, gave_or, replied};
ghost use Rattle.std.specs.Prelude.{◌≡◌, false, is_ok, Ok};

use crate::call::{Ask, Reply};
use crate::count::{count_between, count_from, right_after};
use crate::cursor::{Cursor, State};
use crate::refusal::Refusal;
use ordered::Ordered;
use quads::{Mark, Pattern, Quad, QuadSource, one_more};

impl Cursor {
    pub(crate) const CLOSED: Cursor = Cursor {
        state: State::Closed,
        pattern: Pattern::ANY,
        given: 0,
    };

    // Replies to what is asked, by the cursor's state; a refusal leaves the cursor as it was.
    pub(crate) fn answer<S: QuadSource>(&mut self, source: &S, ask: Ask) -> Result<Reply, Refusal>
        ensures outcome { replied result ≡ cursor_outcome (S.means source.now) self.old ask }
        ensures after { self.new ≡ cursor_after (S.means source.now) self.old ask }
        ensures kept { is_ok result ≡ false → self.new ≡ self.old }
    {
        match (self.state, ask) {
            (State::Closed, Ask::Open(pattern)) => Ok(self.open(pattern)),
            (_, Ask::Open(_)) => Err(Refusal::CursorOpen),
            (State::Closed, _) => Err(Refusal::CursorClosed),
            (State::Waiting(mark), Ask::Next) => Ok(self.advance(source, mark)),
            (State::Waiting(mark), Ask::Seek(to)) => self.jump(source, mark, to),
            (State::Waiting(mark), Ask::Left) => Ok(self.left(source, mark)),
            (State::Ended, Ask::Next) => Ok(Reply::Next(None)),
            (State::Ended, Ask::Seek(_)) => Err(Refusal::CursorEnded),
            (State::Ended, Ask::Left) => Ok(Reply::Counted(0)),
            (_, Ask::Close) => Ok(self.close()),
        }
    }

    fn open(&mut self, pattern: Pattern) -> Reply
        ensures outcome { replied (Ok result) ≡ Outcome.opened }
        ensures after { self.new ≡ opened_at pattern }
    {
        *self = Cursor {
            state: State::Waiting(Quad::LOWEST),
            pattern,
            given: 0,
        };
        Reply::Opened
    }

    fn close(&mut self) -> Reply
        ensures outcome { replied (Ok result) ≡ Outcome.counted self.old.given }
        ensures after { self.new ≡ closed }
    {
        let given = self.given;
        *self = Cursor::CLOSED;
        Reply::Counted(given)
    }

    // Counts the quads from the mark on. The source and the mark are two parameters here and below: a struct of them would be made
    // for a single call each time.
    fn left<S: QuadSource>(&self, source: &S, mark: Mark) -> Reply
        ensures { replied (Ok result) ≡ left_from (S.means source.now) self.now.pattern mark }
    {
        Reply::Counted(count_from(source, self.pattern, mark))
    }

    // Gives the first quad from the mark on and moves the mark right after it, or ends.
    fn advance<S: QuadSource>(&mut self, source: &S, mark: Mark) -> Reply
        ensures outcome { replied (Ok result) ≡ gave_or (first_from (S.means source.now) self.old.pattern mark) }
        ensures after { self.new ≡ advanced self.old (first_from (S.means source.now) self.old.pattern mark) }
    {
        let found = source.first(self.pattern, mark);
        match found {
            Some(quad) => {
                self.state = State::Waiting(right_after(quad));
                self.given = one_more(self.given);
            }
            None => self.state = State::Ended,
        }
        Reply::Next(found)
    }

    // Moves the mark forward, or keeps it, and counts the quads that are passed over.
    fn jump<S: QuadSource>(&mut self, source: &S, mark: Mark, to: Mark) -> Result<Reply, Refusal>
        ensures outcome { replied result ≡ sought_outcome (S.means source.now) self.old.pattern mark to }
        ensures after { self.new ≡ sought self.old mark to }
        ensures kept { is_ok result ≡ false → self.new ≡ self.old }
    {
        if to.is_below(&mark) {
            return Err(Refusal::MarkBehind);
        }
        let jumped = count_between(source, self.pattern, mark, to);
        self.state = State::Waiting(to);
        Ok(Reply::Counted(jumped))
    }
}

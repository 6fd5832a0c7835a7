// The desk, where a reader puts questions on the eight cursors of a session, numbered 0 to 7. Each request is put to the
// session, and what it answers is printed.
use crate::names::name_of;
use crate::words::{Front, Question, Reason, Statement};
use quads::{Pattern, PlainList, Quad};
use session::{Refusal, Session};
use std::io;

#[derive(Drop)]
pub(crate) struct Desk<'a, 'q, R> {
    rt: &'a R,
    session: Session<'a, PlainList<'q>>,
    // How many questions were taken, and how many requests were turned down.
    questions: u32,
    refused: u32,
}

impl<'a, 'q, R: Print> Desk<'a, 'q, R> {
    pub(crate) fn new(rt: &'a R, list: &'a PlainList<'q>) -> Desk<'a, 'q, R> {
        Desk {
            rt,
            session: Session::attach(list),
            questions: 0,
            refused: 0,
        }
    }

    // Prints a line between the answers.
    pub(crate) fn say(&self, line: &str) -> io::Result<()> {
        println!(self.rt; "{line}")
    }

    // Puts a question on a cursor.
    pub(crate) fn ask(&mut self, cursor: u32, pattern: Pattern) -> io::Result<()> {
        println!(self.rt; "Cursor {cursor} asks: {}", Question(pattern))?;
        match self.session.open(cursor, pattern) {
            Ok(()) => {
                self.questions = self.questions.saturating_add(1);
                Ok(())
            }
            Err(refusal) => self.turn_down(refusal),
        }
    }

    // Lists the next statement of a cursor, and answers whether there was one.
    pub(crate) fn list_one(&mut self, cursor: u32) -> io::Result<bool> {
        match self.session.next(cursor) {
            Ok(Some(quad)) => {
                println!(self.rt; "  {cursor}: {}", Statement(quad))?;
                Ok(true)
            }
            Ok(None) => {
                println!(self.rt; "  {cursor}: that is all.")?;
                Ok(false)
            }
            Err(refusal) => {
                self.turn_down(refusal)?;
                Ok(false)
            }
        }
    }

    // Lists the next statements of a cursor, at most so many.
    pub(crate) fn list(&mut self, cursor: u32, most: u32) -> io::Result<()> {
        for _ in 0..most {
            if !self.list_one(cursor)? {
                break;
            }
        }
        Ok(())
    }

    // Goes on to the first statement about this work or a later one.
    pub(crate) fn skip_to(&mut self, cursor: u32, work: u32) -> io::Result<()> {
        println!(self.rt; "Cursor {cursor}, go on from {}.", name_of(work))?;
        match self.session.seek(cursor, Quad::new(work, 0, 0, 0)) {
            Ok(jumped) => println!(self.rt; "  Passed over: {jumped}."),
            Err(refusal) => self.turn_down(refusal),
        }
    }

    // Says how many statements a cursor has yet to list.
    pub(crate) fn say_left(&mut self, cursor: u32) -> io::Result<()> {
        match self.session.left(cursor) {
            Ok(left) => println!(self.rt; "  Left on cursor {cursor}: {left}."),
            Err(refusal) => self.turn_down(refusal),
        }
    }

    // Closes a cursor.
    pub(crate) fn close(&mut self, cursor: u32) -> io::Result<()> {
        match self.session.close(cursor) {
            Ok(given) => println!(self.rt; "Cursor {cursor} is closed. Listed on it: {given}."),
            Err(refusal) => self.turn_down(refusal),
        }
    }

    // Says which cursors are open, given room to write them down.
    pub(crate) fn say_open(&mut self, room: &mut [u32]) -> io::Result<()> {
        let size = room.len();
        println!(self.rt; "Which cursors are open? There is room to write down {size}.")?;
        match self.session.roll(room) {
            Ok(0) => println!(self.rt; "  None is open."),
            Ok(count) => println!(self.rt; "  Open:{}.", Front(room, count)),
            Err(refusal) => self.turn_down(refusal),
        }
    }

    // Says what was done at the desk in all.
    pub(crate) fn sum_up(&self) -> io::Result<()> {
        println!(self.rt;
            "In sections 1 to 6: {} questions taken, {} statements listed, {} requests turned down.",
            self.questions,
            self.session.tally(),
            self.refused
        )
    }

    fn turn_down(&mut self, refusal: Refusal) -> io::Result<()> {
        self.refused = self.refused.saturating_add(1);
        println!(self.rt; "  Turned down {}", Reason(refusal))
    }
}

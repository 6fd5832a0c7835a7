// Making the calls of a session, and printing what each is and what it answers. A roll's buffer is printed after the call.
use crate::show::{Line, Row};
use quads::{Mark, PlainList, Quad};
use session::{Ask, Call, Refusal, Session};
use std::io;
use transcript::{Answer, Record};

#[derive(Drop)]
pub(crate) struct Runner<'a, 'q, R> {
    rt: &'a R,
    list: &'a PlainList<'q>,
    session: Session<'a, PlainList<'q>>,
    // The calls so far, with what the session answered.
    records: Vec<Record>,
    // The last quad that was given to any cursor.
    pub(crate) last: Mark,
}

impl<'a, 'q, R: Print + AllocGlobal> Runner<'a, 'q, R> {
    pub(crate) fn new(rt: &'a R, list: &'a PlainList<'q>) -> Runner<'a, 'q, R> {
        Runner {
            rt,
            list,
            session: Session::attach(list),
            records: Vec::new(rt.alloc()),
            last: Quad::LOWEST,
        }
    }

    // Begins a new session.
    pub(crate) fn begin(&mut self, title: &str) -> io::Result<()> {
        self.session = Session::attach(self.list);
        self.records.clear();
        println!(self.rt; "fixed: {title}")
    }

    // Asks a cursor these things in turn.
    pub(crate) fn ask_each(&mut self, cursor: u32, asks: &[Ask]) -> io::Result<()> {
        for ask in asks {
            self.ask(cursor, *ask)?;
        }
        Ok(())
    }

    // Makes the call by its name, as a transcript does, so that the transcript can be held against it.
    pub(crate) fn ask(&mut self, cursor: u32, ask: Ask) -> io::Result<()> {
        let session = &mut self.session;
        let answer = match ask {
            Ask::Open(pattern) => session.open(cursor, pattern).map(|()| Answer::Opened),
            Ask::Next => session.next(cursor).map(Answer::Next),
            Ask::Seek(mark) => session.seek(cursor, mark).map(Answer::Counted),
            Ask::Left => session.left(cursor).map(Answer::Counted),
            Ask::Close => session.close(cursor).map(Answer::Counted),
        };
        if let Ok(Answer::Next(Some(quad))) = answer {
            self.last = quad;
        }
        self.note(Call::On(cursor, ask), answer)
    }

    pub(crate) fn tally(&mut self) -> io::Result<()> {
        let given = self.session.tally();
        self.note(Call::Tally, Ok(Answer::Counted(given)))
    }

    pub(crate) fn roll(&mut self, buffer: &mut [u32]) -> io::Result<()> {
        let result = self.session.roll(buffer);
        match result {
            Ok(count) => println!(self.rt; "r r{count}{}", Row(buffer))?,
            Err(refusal) => println!(self.rt; "r !{}{}", refusal.number(), Row(buffer))?,
        }
        self.records.push(Record {
            call: Call::Roll(buffer.len()),
            answer: Some(result.map(|count| Answer::Rolled(count, front(buffer, count)))),
        })?;
        Ok(())
    }

    // Says whether a transcript of the same calls has the same answers.
    pub(crate) fn compare(&self) -> io::Result<()> {
        let mut again: Vec<Record> = self
            .records
            .iter()
            .map(|record| Record::new(record.call))
            .collect(self.rt.alloc())?;
        transcript::run(self.list, &mut again);
        match self
            .records
            .iter()
            .zip(&again)
            .position(|(one, other)| one != other)
        {
            Some(place) => println!(self.rt; "transcript differs at {place}"),
            None => println!(self.rt; "transcript same"),
        }
    }

    // Prints a call with its answer, and writes both down.
    fn note(&mut self, call: Call, answer: Result<Answer, Refusal>) -> io::Result<()> {
        let record = Record {
            call,
            answer: Some(answer),
        };
        println!(self.rt; "{}", Line(record))?;
        self.records.push(record)?;
        Ok(())
    }
}

// So many numbers at the front of the buffer, and zeros after them, as a transcript keeps them: in fixed memory.
fn front(buffer: &[u32], count: usize) -> [u32; 8] {
    let mut front = [0; 8];
    for (kept, number) in front.iter_mut().zip(buffer.iter().take(count)) {
        *kept = *number;
    }
    front
}

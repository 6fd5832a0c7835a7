// How quads, patterns, tests, calls and answers are written.
use quads::{ListRefusal, Mark, Pattern, Place, Quad};
use session::{Ask, Call, Refusal};
use std::fmt;
use transcript::{Answer, Record};

// A quad or a mark, as 1.2.3.4.
#[derive(Drop)]
pub(crate) struct Dots(pub(crate) Quad);

impl fmt::Display for Dots {
    fn fmt<W: fmt::Write>(&self, f: &mut fmt::Formatter<W>) -> fmt::Result {
        let Quad { s, p, o, g } = self.0;
        write!(f, "{s}.{p}.{o}.{g}")
    }
}

// One place of a pattern: a number, or ? where it is open.
#[derive(Drop)]
pub(crate) struct Spot(pub(crate) Place);

impl fmt::Display for Spot {
    fn fmt<W: fmt::Write>(&self, f: &mut fmt::Formatter<W>) -> fmt::Result {
        match self.0 {
            Place::Any => write!(f, "?"),
            Place::Given(number) => write!(f, "{number}"),
        }
    }
}

// A pattern, as 1.?.?.4.
#[derive(Drop)]
pub(crate) struct Shape(pub(crate) Pattern);

impl fmt::Display for Shape {
    fn fmt<W: fmt::Write>(&self, f: &mut fmt::Formatter<W>) -> fmt::Result {
        let Pattern { s, p, o, g } = self.0;
        write!(f, "{}.{}.{}.{}", Spot(s), Spot(p), Spot(o), Spot(g))
    }
}

// Several things, each after a space.
#[derive(Drop)]
pub(crate) struct Row<'a, T>(pub(crate) &'a [T]);

impl<T: fmt::Display> fmt::Display for Row<'_, T> {
    fn fmt<W: fmt::Write>(&self, f: &mut fmt::Formatter<W>) -> fmt::Result {
        for item in self.0 {
            write!(f, " {item}")?;
        }
        Ok(())
    }
}

// Several quads, each after a space. A quad has no Display of its own, since each program prints quads in its own way; so this is
// no `Row`.
#[derive(Drop)]
pub(crate) struct Quads<'a>(pub(crate) &'a [Quad]);

impl fmt::Display for Quads<'_> {
    fn fmt<W: fmt::Write>(&self, f: &mut fmt::Formatter<W>) -> fmt::Result {
        for quad in self.0 {
            write!(f, " {}", Dots(*quad))?;
        }
        Ok(())
    }
}

// Whether something holds: y or n.
#[derive(Drop)]
pub(crate) struct Test(pub(crate) bool);

impl fmt::Display for Test {
    fn fmt<W: fmt::Write>(&self, f: &mut fmt::Formatter<W>) -> fmt::Result {
        write!(f, "{}", if self.0 { "y" } else { "n" })
    }
}

// A key, and the place in an ordered list that is found by it.
#[derive(Drop)]
pub(crate) struct At<K>(pub(crate) K, pub(crate) usize);

impl<K: fmt::Display> fmt::Display for At<K> {
    fn fmt<W: fmt::Write>(&self, f: &mut fmt::Formatter<W>) -> fmt::Result {
        write!(f, "{}@{}", self.0, self.1)
    }
}

// A quad that was found, or that there is none.
#[derive(Drop)]
pub(crate) struct Found(pub(crate) Option<Quad>);

impl fmt::Display for Found {
    fn fmt<W: fmt::Write>(&self, f: &mut fmt::Formatter<W>) -> fmt::Result {
        match self.0 {
            Some(quad) => write!(f, "{}", Dots(quad)),
            None => write!(f, "none"),
        }
    }
}

// A mark, and what is found from it on.
#[derive(Drop)]
pub(crate) struct Search(pub(crate) Mark, pub(crate) Option<Quad>);

impl fmt::Display for Search {
    fn fmt<W: fmt::Write>(&self, f: &mut fmt::Formatter<W>) -> fmt::Result {
        write!(f, "{}> {}", Dots(self.0), Found(self.1))
    }
}

// Whether quads are a plain list: ok, or the refusal's number and the place of the quad at fault.
#[derive(Drop)]
pub(crate) struct Verdict(pub(crate) Result<(), ListRefusal>);

impl fmt::Display for Verdict {
    fn fmt<W: fmt::Write>(&self, f: &mut fmt::Formatter<W>) -> fmt::Result {
        match self.0 {
            Ok(()) => write!(f, "ok"),
            Err(refusal) => write!(f, "{} at {}", refusal.number(), refusal.place()),
        }
    }
}

// A call with what came of it.
#[derive(Drop)]
pub(crate) struct Line(pub(crate) Record);

impl fmt::Display for Line {
    fn fmt<W: fmt::Write>(&self, f: &mut fmt::Formatter<W>) -> fmt::Result {
        write!(f, "{} {}", Asked(self.0.call), Told(self.0.answer))
    }
}

// A call: o, n, s, l or c with the cursor's number, t, or r with the room.
#[derive(Drop)]
struct Asked(Call);

impl fmt::Display for Asked {
    fn fmt<W: fmt::Write>(&self, f: &mut fmt::Formatter<W>) -> fmt::Result {
        match self.0 {
            Call::On(cursor, Ask::Open(pattern)) => write!(f, "o{cursor} {}", Shape(pattern)),
            Call::On(cursor, Ask::Next) => write!(f, "n{cursor}"),
            Call::On(cursor, Ask::Seek(mark)) => write!(f, "s{cursor} {}", Dots(mark)),
            Call::On(cursor, Ask::Left) => write!(f, "l{cursor}"),
            Call::On(cursor, Ask::Close) => write!(f, "c{cursor}"),
            Call::Tally => write!(f, "t"),
            Call::Roll(room) => write!(f, "r {room}"),
        }
    }
}

// What came of a call: ok, = with a quad, end, # with a count, ! with a refusal's number, or r with how many cursors are
// open, their numbers, and after | the whole buffer.
#[derive(Drop)]
struct Told(Option<Result<Answer, Refusal>>);

impl fmt::Display for Told {
    fn fmt<W: fmt::Write>(&self, f: &mut fmt::Formatter<W>) -> fmt::Result {
        match self.0 {
            None => write!(f, "pending"),
            Some(Ok(Answer::Opened)) => write!(f, "ok"),
            Some(Ok(Answer::Next(Some(quad)))) => write!(f, "= {}", Dots(quad)),
            Some(Ok(Answer::Next(None))) => write!(f, "end"),
            Some(Ok(Answer::Counted(count))) => write!(f, "#{count}"),
            Some(Ok(Answer::Rolled(count, buffer))) => write_roll(f, count, buffer),
            Some(Err(refusal)) => write!(f, "!{}", refusal.number()),
        }
    }
}

// The buffer has a fixed size, and the count beside it is what the roll answered.
fn write_roll<W: fmt::Write>(
    f: &mut fmt::Formatter<W>,
    count: usize,
    buffer: [u32; 8],
) -> fmt::Result {
    write!(f, "r{count}")?;
    for number in buffer.iter().take(count) {
        write!(f, " {number}")?;
    }
    write!(f, " |{}", Row(&buffer))
}

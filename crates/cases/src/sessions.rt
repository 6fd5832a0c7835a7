// Sessions whose calls are drawn.
use crate::draws::Draws;
use crate::runner::Runner;
use crate::show::Quads;
use quads::{Mark, PlainList, Quad};
use session::Ask;
use std::io;

pub(crate) fn run(rt: &(impl Print + AllocGlobal)) -> io::Result<()> {
    let mut draws = Draws::new(404);
    for number in 0..300u32 {
        let quads = draws.list(rt.alloc())?;
        println!(rt; "session {number}:{}", Quads(&quads))?;
        let list = PlainList::new(&quads);
        one_session(&mut draws, &mut Runner::new(rt, &list))?;
    }
    Ok(())
}

// The draws go on from session to session, and a runner has one session: so they are two parameters.
fn one_session(
    draws: &mut Draws,
    runner: &mut Runner<'_, '_, impl Print + AllocGlobal>,
) -> io::Result<()> {
    for cursor in 0..3 {
        runner.ask(cursor, Ask::Open(draws.pattern()))?;
    }
    for _ in 0..36 {
        step(draws, runner)?;
    }
    runner.compare()
}

// One drawn call. The match is a table of chances: each kind has its share of eighteen, so that most cursors come to list some
// quads.
fn step(
    draws: &mut Draws,
    runner: &mut Runner<'_, '_, impl Print + AllocGlobal>,
) -> io::Result<()> {
    let cursor = draws.cursor();
    match draws.below(18) {
        0..=3 => runner.ask(cursor, Ask::Open(draws.pattern())),
        4..=9 => runner.ask(cursor, Ask::Next),
        10..=12 => runner.ask(cursor, Ask::Seek(sought(draws, runner.last))),
        13..=14 => runner.ask(cursor, Ask::Left),
        15 => runner.ask(cursor, Ask::Close),
        16 => runner.tally(),
        _ => {
            let size = draws.below(6) as usize;
            runner.roll(&mut [99; 5][..size])
        }
    }
}

// The last given quad, the mark right after it, or any mark, by a table of chances.
fn sought(draws: &mut Draws, last: Mark) -> Mark {
    match draws.below(4) {
        0 => last,
        1 => Quad {
            g: last.g.wrapping_add(1),
            ..last
        },
        _ => draws.mark(),
    }
}

// Sessions whose calls are chosen: what each bound lets pass, and which refusal comes first.
use crate::numbers::{BOUNDS, HIGHEST};
use crate::parts::Part;
use crate::runner::Runner;
use quads::{Pattern, PlainList, Quad};
use session::{Ask, CURSORS};
use std::io;

pub(crate) fn run(rt: &(impl Print + AllocGlobal)) -> io::Result<()> {
    let quads = five();
    let list = PlainList::new(&quads);
    over_five(&mut Runner::new(rt, &list))?;
    over_none(rt, "no quads", &[])?;
    let faulty = [Quad::new(1, 1, 1, 2), Quad::new(1, 1, 1, 1)];
    over_none(rt, "quads that are no plain list", &faulty)
}

// The five quads that most of these sessions are over.
pub(crate) fn five() -> [Quad; 5] {
    [
        Quad::new(1, 1, 1, 1),
        Quad::new(1, 1, 1, 2),
        Quad::new(1, 2, 1, 1),
        Quad::new(2, 1, 1, 1),
        Quad::new(2, 1, 2, 1_048_576),
    ]
}

fn over_five(runner: &mut Runner<'_, '_, impl Print + AllocGlobal>) -> io::Result<()> {
    cursor_numbers(runner)?;
    refusals_in_order(runner)?;
    given_numbers(runner)?;
    closed_cursors(runner)?;
    equal_mark(runner)?;
    ended_cursor(runner)?;
    jumped_then_given(runner)?;
    rolls(runner)?;
    rolls_of_ended(runner)?;
    rolls_of_all(runner)?;
    side_by_side(runner)
}

fn cursor_numbers(runner: &mut Runner<'_, '_, impl Print + AllocGlobal>) -> io::Result<()> {
    runner.begin("cursor 7 passes, and 8 does not")?;
    let asks = [
        Ask::Open(Pattern::ANY),
        Ask::Next,
        Ask::Left,
        Ask::Seek(Quad::new(2, 0, 0, 0)),
        Ask::Close,
    ];
    runner.ask_each(7, &asks)?;
    for cursor in [8, 9, u32::MAX] {
        let asks = [
            Ask::Open(Pattern::ANY),
            Ask::Next,
            Ask::Left,
            Ask::Seek(Quad::LOWEST),
            Ask::Close,
        ];
        runner.ask_each(cursor, &asks)?;
    }
    runner.tally()?;
    runner.compare()
}

fn refusals_in_order(runner: &mut Runner<'_, '_, impl Print + AllocGlobal>) -> io::Result<()> {
    runner.begin("11 before 12, and 12 before 22")?;
    runner.ask(8, Ask::Open(Part::Subject.only(0)))?;
    let asks = [
        Ask::Open(Part::Graph.only(0)),
        Ask::Next,
        Ask::Open(Pattern::ANY),
        Ask::Open(Part::Predicate.only(1_048_577)),
        Ask::Open(Pattern::ANY),
        Ask::Left,
    ];
    runner.ask_each(0, &asks)?;
    runner.compare()
}

fn given_numbers(runner: &mut Runner<'_, '_, impl Print + AllocGlobal>) -> io::Result<()> {
    runner.begin("given numbers at each place")?;
    for part in Part::ALL {
        for number in BOUNDS {
            let asks = [
                Ask::Open(part.only(number)),
                Ask::Left,
                Ask::Next,
                Ask::Close,
            ];
            runner.ask_each(2, &asks)?;
        }
    }
    runner.tally()?;
    runner.compare()
}

fn closed_cursors(runner: &mut Runner<'_, '_, impl Print + AllocGlobal>) -> io::Result<()> {
    runner.begin("closed cursors, and opening again")?;
    let asks = [
        Ask::Next,
        Ask::Seek(Quad::LOWEST),
        Ask::Left,
        Ask::Close,
        Ask::Open(Part::Subject.only(1)),
        Ask::Next,
        Ask::Next,
        Ask::Open(Part::Subject.only(2)),
        Ask::Close,
        Ask::Close,
        Ask::Open(Part::Subject.only(1)),
        Ask::Next,
        Ask::Left,
        Ask::Close,
    ];
    runner.ask_each(0, &asks)?;
    runner.tally()?;
    runner.compare()
}

fn equal_mark(runner: &mut Runner<'_, '_, impl Print + AllocGlobal>) -> io::Result<()> {
    runner.begin("a seek to the cursor's mark, and one below it")?;
    let asks = [
        Ask::Open(Pattern::ANY),
        Ask::Seek(Quad::LOWEST),
        Ask::Next,
        Ask::Seek(Quad::new(1, 1, 1, 2)),
        Ask::Seek(Quad::new(1, 1, 1, 1)),
        Ask::Seek(Quad::new(1, 1, 0, u32::MAX)),
        Ask::Next,
        Ask::Seek(Quad::new(2, 1, 1, 1)),
        Ask::Seek(Quad::new(2, 1, 1, 1)),
        Ask::Seek(Quad::new(2, 1, 1, 0)),
        Ask::Left,
        Ask::Next,
        Ask::Next,
        Ask::Seek(Quad::new(2, 1, 2, 1_048_576)),
        Ask::Seek(Quad::new(2, 1, 2, 1_048_577)),
        Ask::Close,
    ];
    runner.ask_each(0, &asks)?;
    runner.compare()
}

fn ended_cursor(runner: &mut Runner<'_, '_, impl Print + AllocGlobal>) -> io::Result<()> {
    runner.begin("an ended cursor")?;
    let asks = [
        Ask::Open(Part::Predicate.only(2)),
        Ask::Next,
        Ask::Left,
        Ask::Next,
        Ask::Next,
        Ask::Left,
        Ask::Seek(Quad::new(u32::MAX, 0, 0, 0)),
        Ask::Seek(Quad::LOWEST),
        Ask::Open(Pattern::ANY),
        Ask::Next,
        Ask::Close,
        Ask::Next,
        Ask::Open(Pattern::ANY),
        Ask::Next,
    ];
    runner.ask_each(3, &asks)?;
    runner.tally()?;
    runner.compare()
}

fn jumped_then_given(runner: &mut Runner<'_, '_, impl Print + AllocGlobal>) -> io::Result<()> {
    runner.begin("jumped quads are neither given nor left")?;
    let asks = [
        Ask::Open(Part::Predicate.only(1)),
        Ask::Left,
        Ask::Seek(Quad::new(1, 1, 1, 2)),
        Ask::Left,
        Ask::Seek(Quad::new(2, 0, u32::MAX, 0)),
        Ask::Left,
        Ask::Next,
        Ask::Seek(HIGHEST),
        Ask::Left,
        Ask::Seek(HIGHEST),
        Ask::Next,
        Ask::Close,
    ];
    runner.ask_each(1, &asks)?;
    runner.tally()?;
    runner.compare()
}

fn rolls(runner: &mut Runner<'_, '_, impl Print + AllocGlobal>) -> io::Result<()> {
    runner.begin("rolls with as many entries as open cursors, fewer and more")?;
    runner.roll(&mut [])?;
    runner.roll(&mut [90, 91])?;
    runner.ask(5, Ask::Open(Pattern::ANY))?;
    runner.ask(1, Ask::Open(Pattern::ANY))?;
    runner.ask(3, Ask::Open(Part::Subject.only(2)))?;
    runner.roll(&mut [90, 91, 92])?;
    runner.roll(&mut [90, 91])?;
    runner.roll(&mut [90, 91, 92, 93])?;
    runner.roll(&mut [])?;
    runner.ask(1, Ask::Close)?;
    runner.roll(&mut [90, 91, 92])?;
    runner.roll(&mut [90])?;
    runner.compare()
}

fn rolls_of_ended(runner: &mut Runner<'_, '_, impl Print + AllocGlobal>) -> io::Result<()> {
    runner.begin("a roll lists ended cursors too")?;
    runner.ask(6, Ask::Open(Part::Subject.only(3)))?;
    runner.ask(0, Ask::Open(Pattern::ANY))?;
    runner.ask(6, Ask::Next)?;
    runner.roll(&mut [90, 91, 92])?;
    runner.roll(&mut [90])?;
    runner.ask(6, Ask::Close)?;
    runner.roll(&mut [90])?;
    runner.compare()
}

fn rolls_of_all(runner: &mut Runner<'_, '_, impl Print + AllocGlobal>) -> io::Result<()> {
    runner.begin("all eight cursors open")?;
    for cursor in 0..CURSORS {
        runner.ask(cursor, Ask::Open(Pattern::ANY))?;
        runner.ask(cursor, Ask::Next)?;
    }
    runner.roll(&mut [90; 7])?;
    runner.roll(&mut [90; 8])?;
    runner.roll(&mut [90; 9])?;
    runner.tally()?;
    runner.compare()
}

fn side_by_side(runner: &mut Runner<'_, '_, impl Print + AllocGlobal>) -> io::Result<()> {
    runner.begin("two cursors with one pattern")?;
    runner.ask(0, Ask::Open(Part::Graph.only(1)))?;
    runner.ask(4, Ask::Open(Part::Graph.only(1)))?;
    for _ in 0..4 {
        runner.ask(0, Ask::Next)?;
        runner.ask(4, Ask::Left)?;
        runner.ask(4, Ask::Next)?;
        runner.ask(0, Ask::Left)?;
    }
    runner.ask(0, Ask::Close)?;
    runner.ask(4, Ask::Close)?;
    runner.tally()?;
    runner.compare()
}

// The empty list is made of these quads.
fn over_none(rt: &(impl Print + AllocGlobal), title: &str, quads: &[Quad]) -> io::Result<()> {
    let list = PlainList::new(quads);
    let mut runner = Runner::new(rt, &list);
    runner.begin(title)?;
    let asks = [
        Ask::Open(Pattern::ANY),
        Ask::Left,
        Ask::Seek(Quad::new(1, 1, 1, 2)),
        Ask::Next,
    ];
    runner.ask_each(0, &asks)?;
    runner.roll(&mut [90])?;
    runner.ask(0, Ask::Close)?;
    runner.tally()?;
    runner.compare()
}

// Transcripts whose calls are chosen.
use crate::fixed::five;
use crate::parts::Part;
use crate::show::Line;
use quads::{Pattern, PlainList, Quad};
use session::{Ask, Call};
use std::io;
use transcript::Record;

// Rolls with room for these many numbers.
const ROLLS: [Call; 7] = [
    Call::Roll(0),
    Call::Roll(1),
    Call::Roll(7),
    Call::Roll(8),
    Call::Roll(9),
    Call::Roll(1000),
    Call::Roll(usize::MAX),
];

pub(crate) fn run(rt: &(impl Print + AllocGlobal)) -> io::Result<()> {
    let quads = five();
    let list = PlainList::new(&quads);
    let one = [Call::On(5, Ask::Open(Pattern::ANY))];
    let all = [0, 1, 2, 3, 4, 5, 6, 7].map(|cursor| Call::On(cursor, Ask::Open(Pattern::ANY)));
    print_run(rt, &list, "no calls", &[])?;
    print_run(rt, &list, "rolls with no cursor open", &[&ROLLS])?;
    print_run(rt, &list, "rolls with one cursor open", &[&one, &ROLLS])?;
    print_run(
        rt,
        &list,
        "rolls with all eight cursors open",
        &[&all, &ROLLS],
    )?;
    each_kind(rt, &list)
}

// Rolls of two cursors, one of which has ended, between calls of the other kinds.
fn each_kind(rt: &(impl Print + AllocGlobal), list: &PlainList<'_>) -> io::Result<()> {
    let opening = [
        Call::On(7, Ask::Open(Part::Predicate.only(2))),
        Call::On(2, Ask::Open(Part::Subject.only(0))),
        Call::On(2, Ask::Open(Part::Graph.only(1))),
        Call::On(7, Ask::Next),
        Call::On(7, Ask::Next),
    ];
    let moving = [
        Call::On(7, Ask::Seek(Quad::new(2, 0, 0, 0))),
        Call::On(2, Ask::Seek(Quad::new(1, 2, 0, 0))),
        Call::On(2, Ask::Seek(Quad::new(1, 1, 0, 0))),
        Call::On(2, Ask::Left),
        Call::On(2, Ask::Next),
        Call::On(7, Ask::Close),
    ];
    let closing = [
        Call::On(2, Ask::Open(Pattern::ANY)),
        Call::On(2, Ask::Close),
        Call::On(2, Ask::Left),
        Call::On(8, Ask::Close),
        Call::Tally,
    ];
    print_run(
        rt,
        list,
        "calls of each kind",
        &[&opening, &ROLLS, &moving, &ROLLS, &closing],
    )
}

// Makes the calls, one part of them after the other, and prints each with its answer.
fn print_run(
    rt: &(impl Print + AllocGlobal),
    list: &PlainList<'_>,
    title: &str,
    parts: &[&[Call]],
) -> io::Result<()> {
    println!(rt; "transcript: {title}")?;
    let mut records = Vec::new(rt.alloc());
    for calls in parts {
        records.extend(calls.iter().copied().map(Record::new))?;
    }
    transcript::run(list, &mut records);
    for record in &records {
        println!(rt; "{}", Line(*record))?;
    }
    Ok(())
}

// Transcripts: lists of calls, each list made on a new session, and what was answered to each call.
use crate::names::{LEAGUES, LITTLE_WOMEN, MIDDLEMARCH};
use crate::questions::{ABOUT_LEAGUES, ABOUT_WALDEN, AUTHORS, HEADINGS};
use crate::words::{Asked, Line, Told};
use quads::{PlainList, Quad};
use session::{Ask, Call};
use std::alloc::{AllocError, Global};
use std::io;
use transcript::{Record, run, run_twice};

// What is asked of a cursor, to go on from the first statement of a work.
fn skip_to(work: u32) -> Ask {
    Ask::Seek(Quad::new(work, 0, 0, 0))
}

// Calls of each kind.
fn each_kind() -> [Call; 14] {
    [
        Call::On(0, Ask::Open(HEADINGS)),
        Call::On(0, Ask::Next),
        Call::On(0, Ask::Next),
        Call::On(0, skip_to(MIDDLEMARCH)),
        Call::On(0, Ask::Left),
        Call::On(5, Ask::Open(ABOUT_LEAGUES)),
        Call::On(5, Ask::Next),
        Call::Roll(8),
        Call::Roll(0),
        Call::Tally,
        Call::On(0, Ask::Close),
        Call::On(0, Ask::Next),
        Call::On(8, Ask::Next),
        Call::Roll(8),
    ]
}

// Cursor 1 is asked the authors, and cursor 2 meanwhile all that is said of Walden.
fn beside_walden() -> [Call; 9] {
    [
        Call::On(1, Ask::Open(AUTHORS)),
        Call::On(2, Ask::Open(ABOUT_WALDEN)),
        Call::On(1, Ask::Next),
        Call::On(2, Ask::Next),
        Call::On(2, Ask::Next),
        Call::On(1, skip_to(LITTLE_WOMEN)),
        Call::On(1, Ask::Next),
        Call::On(2, Ask::Close),
        Call::On(1, Ask::Left),
    ]
}

// Cursor 1 is asked the same, and cursor 2 has other things to do.
fn beside_headings() -> [Call; 9] {
    [
        Call::On(2, Ask::Close),
        Call::On(1, Ask::Open(AUTHORS)),
        Call::On(1, Ask::Next),
        Call::On(1, skip_to(LITTLE_WOMEN)),
        Call::On(2, Ask::Open(HEADINGS)),
        Call::On(2, skip_to(LEAGUES)),
        Call::On(1, Ask::Next),
        Call::On(2, Ask::Left),
        Call::On(1, Ask::Left),
    ]
}

pub(crate) fn show(rt: &(impl Print + AllocGlobal), list: &PlainList<'_>) -> io::Result<()> {
    println!(rt; "\n7. A transcript.")?;
    println!(rt;
        "A transcript is a list of calls, made in turn on a new session, each with its answer."
    )?;
    let mut records = each_kind().map(Record::new);
    run(list, &mut records);
    print_all(rt, &records)?;
    show_two(rt, list)
}

// Two transcripts, and what one cursor answers in both.
fn show_two(rt: &(impl Print + AllocGlobal), list: &PlainList<'_>) -> io::Result<()> {
    println!(rt; "Two more ask the same of cursor 1, and different things of cursor 2.")?;
    let mut first = beside_walden().map(Record::new);
    let mut second = beside_headings().map(Record::new);
    run_twice(list, &mut first, &mut second);
    println!(rt; "The first asks of cursor 2:")?;
    print_all(rt, &records_of(rt.alloc(), 2, &first)?)?;
    println!(rt; "The second asks of cursor 2:")?;
    print_all(rt, &records_of(rt.alloc(), 2, &second)?)?;
    println!(rt; "What cursor 1 answers, in the first // in the second:")?;
    let ones = records_of(rt.alloc(), 1, &first)?;
    let others = records_of(rt.alloc(), 1, &second)?;
    for (one, other) in ones.iter().zip(&others) {
        println!(rt;
            "  {}: {} // {}",
            Asked(one.call),
            Told(one.answer),
            Told(other.answer)
        )?;
    }
    if ones == others {
        println!(rt; "They are the same: what is asked of cursor 2 changes nothing on cursor 1.")
    } else {
        println!(rt; "They are not the same.")
    }
}

// Each call with its answer.
fn print_all(rt: &impl Print, records: &[Record]) -> io::Result<()> {
    for record in records {
        println!(rt; "  {}", Line(*record))?;
    }
    Ok(())
}

// The records of the calls on a cursor.
fn records_of(heap: Global, cursor: u32, records: &[Record]) -> Result<Vec<Record>, AllocError> {
    records
        .iter()
        .copied()
        .filter(|record| matches!(record.call, Call::On(number, _) if number == cursor))
        .collect(heap)
}

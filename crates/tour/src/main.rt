// A tour of a small library's catalogue: questions that a reader may put, and what the store answers.
#![tactic(auto)]

mod catalogue;
mod desk;
mod names;
mod questions;
mod sections;
mod transcripts;
mod words;

use catalogue::statements;
use desk::Desk;
use quads::{PlainList, Quad, check_plain};
use std::io;

// Says whether the list can be used as it stands.
fn look_over(rt: &impl Print, quads: &[Quad]) -> io::Result<()> {
    let count = quads.len();
    println!(rt;
        "A small library has {count} statements about its books, from the 1861, 1872 and 1881 editions of its catalogue."
    )?;
    match check_plain(quads) {
        Ok(()) => println!(rt;
            "They stand in order of the works' accession numbers, and are fit to be asked."
        ),
        Err(refusal) => println!(rt;
            "They cannot be used ({}): look at statement {}, counted from 0.",
            refusal.number(),
            refusal.place()
        ),
    }
}

// Says how to read what follows.
fn say_how(rt: &impl Print) -> io::Result<()> {
    println!(rt;
        "Questions are put on eight cursors, numbered 0 to 7, and several can be open at once."
    )?;
    println!(rt;
        "A statement is listed after the number of its cursor: work | property | value | edition."
    )
}

fn main(rt: HostRuntime) -> io::Result<()> {
    let quads = statements();
    look_over(&rt, &quads)?;
    say_how(&rt)?;
    let list = PlainList::new(&quads);
    let mut desk = Desk::new(&rt, &list);
    sections::show(&mut desk)?;
    transcripts::show(&rt, &list)?;
    println!(rt; "")?;
    desk.sum_up()
}

// Many cases of the public calls, with a line for each answer. What must come out is written by tools/cases.py.
#![tactic(auto)]

mod checks;
mod draws;
mod firsts;
mod fixed;
mod numbers;
mod ordered_lists;
mod parts;
mod runner;
mod sessions;
mod show;
mod transcripts;

use std::io;

fn main(rt: HostRuntime) -> io::Result<()> {
    numbers::run(&rt)?;
    ordered_lists::run(&rt)?;
    checks::run(&rt)?;
    firsts::run(&rt)?;
    fixed::run(&rt)?;
    transcripts::run(&rt)?;
    sessions::run(&rt)
}

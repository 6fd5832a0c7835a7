// Transcripts: a session taken through a list of calls, each written down with its answer.
#![tactic(auto)]

mod calls;
mod records;
mod runs;

pub use records::{Answer, Record};
pub use runs::{run, run_twice};

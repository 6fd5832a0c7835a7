// A session over a source, taken through lists of calls.
ghost use Rattle.session.specs.Histories.{on, calls};
ghost use Rattle.transcript.specs.Transcripts.{IsTranscript, history_of};
ghost use Rattle.std.specs.Prelude.{◌≡◌, ℕ};

use crate::calls::make;
use crate::records::Record;
use quads::QuadSource;
use session::Session;

// Attaches a new session to the source, makes the calls in their order, and writes each answer beside its call. What then
// stands in the records is what a host is promised of any use of a session.
pub fn run<S: QuadSource>(source: &S, records: &mut [Record])
    ensures { IsTranscript (S.means source.now) records.old records.new }
{
    let mut session = Session::attach(source);
    for record in records.iter_mut() {
        record.answer = Some(make(&mut session, record.call));
    }
}

// Two such runs over one source: a cursor of which the same is asked answers the same in both, whatever is asked of the
// others.
pub fn run_twice<S: QuadSource>(source: &S, first: &mut [Record], second: &mut [Record])
    ensures first { IsTranscript (S.means source.now) first.old first.new }
    ensures second { IsTranscript (S.means source.now) second.old second.new }
    ensures apart { (k : ℕ) → calls (on k (history_of first.new)) ≡ calls (on k (history_of second.new)) → on k (history_of first.new) ≡ on k (history_of second.new) }
{
    run(source, first);
    run(source, second);
}

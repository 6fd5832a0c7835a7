// Making one call on a session, through the public function of its name.
ghost use Rattle.session.specs.declared.call.Call.TheVariants.{On, Roll};
ghost use Rattle.transcript.specs.Transcripts.{Made};
ghost use Rattle.std.specs.Prelude.{◌≡◌};

use crate::records::Answer;
use quads::QuadSource;
use session::{Ask, Call, Refusal, Session};

// Makes the call, and answers what came of it. The program `cases` makes its calls in the same way, to be held against this.
pub(crate) fn make<S: QuadSource>(
    session: &mut Session<'_, S>,
    call: Call,
) -> Result<Answer, Refusal>
    ensures made { Made (S.means session.old.source.now) session.old.table call result session.new.table }
    ensures source { session.new.source.now ≡ session.old.source.now }
{
    match call {
        Call::On(cursor, ask) => make_on(session, cursor, ask),
        Call::Tally => Ok(Answer::Counted(session.tally())),
        Call::Roll(room) => make_roll(session, room),
    }
}

fn make_on<S: QuadSource>(
    session: &mut Session<'_, S>,
    cursor: u32,
    ask: Ask,
) -> Result<Answer, Refusal>
    ensures made { Made (S.means session.old.source.now) session.old.table (On cursor ask) result session.new.table }
    ensures source { session.new.source.now ≡ session.old.source.now }
{
    match ask {
        Ask::Open(pattern) => session.open(cursor, pattern).map(|()| Answer::Opened),
        Ask::Next => session.next(cursor).map(Answer::Next),
        Ask::Seek(mark) => session.seek(cursor, mark).map(Answer::Counted),
        Ask::Left => session.left(cursor).map(Answer::Counted),
        Ask::Close => session.close(cursor).map(Answer::Counted),
    }
}

// A buffer with room for the eight cursors serves as well as a longer one.
fn make_roll<S: QuadSource>(session: &Session<'_, S>, room: usize) -> Result<Answer, Refusal>
    ensures { Made (S.means session.now.source.now) session.now.table (Roll room) result session.now.table }
{
    let mut buffer = [0u32; 8];
    let count = session.roll(&mut buffer[0..room.min(8)])?;
    Ok(Answer::Rolled(count, buffer))
}

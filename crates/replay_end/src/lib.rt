// How a replay in blocks ends: whether an answer is the last of a trace, and what the program then says.
#![tactic(auto)]

ghost use Rattle.std.specs.Prelude.{◌≡◌};
ghost use Rattle.replay_end.specs.End.{is_last, last_message};

use replay_block::{BlockAnswer, Session};
use replay_text::Message;

// Whether an answer to a block with so many bytes read is the last, for a program that makes no call again: a block that is played is so at the end
// of the trace, which a read of no bytes tells; every other answer is.
pub fn is_last(answer: BlockAnswer, read: usize) -> bool
    ensures { result ≡ is_last answer read }
{
    match answer {
        BlockAnswer::Refused(_) => true,
        BlockAnswer::Played { .. } => read == 0,
        BlockAnswer::Stopped { .. } => true,
    }
}

// What is said behind the last answer, with the session that it left: the number of a refusal and the place in the whole trace, or how many records
// were played, how many frames put to the meter and how many replies it gave.
pub fn last_message(answer: BlockAnswer, session: Session) -> Message
    ensures { result ≡ last_message answer session }
{
    let place = session.place;
    match answer {
        BlockAnswer::Refused(refusal) => Message::BadRecord { refusal, place },
        BlockAnswer::Played { .. } => Message::Replayed {
            records: session.records,
            frames: session.frames,
            replies: session.replies,
        },
        BlockAnswer::Stopped { refusal, .. } => Message::BadRecord { refusal, place },
    }
}

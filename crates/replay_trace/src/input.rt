// The trace on standard input, replayed up to its end: bytes are read, played and their text is written in blocks.
ghost use Rattle.std.specs.Prelude.{◌+◌, ◌*◌, ◌≤◌, length, IfOk};

use replay_block::{BlockAnswer, BlockPlayed, Session, play_block};
use replay_end::{is_last, last_message};
use replay_text::Message;
use std::io::{self, Read, Stdout, Write};

// How many bytes are read at a time.
const BLOCK: usize = 8192;

// Why a trace is not replayed up to its end.
#[derive(Drop)]
pub(crate) enum Failed {
    // It cannot be read.
    Unread(io::Error),
    // The lines cannot be written.
    Unwritten(io::Error),
}

// What a trace is replayed with: a block and the bytes of a record kept before it, at most 6, are read and played at a time; the text of so
// many bytes has 8,192 bytes, and 18 for each of them.
#[derive(Drop)]
pub(crate) struct Memory {
    pub(crate) buffer: [u8; 8198],
    pub(crate) text: [u8; 155756],
}

// What a block leaves: the session, the answer to it, and how many bytes of a record that is not whole yet stand at the front of the buffer.
#[derive(Drop)]
struct Progress {
    session: Session,
    answer: BlockAnswer,
    kept: usize,
}

// Plays what stands at the front of the buffer, so many bytes kept and so many read, and writes the lines of the replies.
fn play_read(
    mut to: Stdout,
    session: Session,
    kept: usize,
    read: usize,
    buffer: &mut [u8],
    text: &mut [u8],
) -> Result<Progress, Failed>
    requires { (kept + read ≤ length buffer.old) × (8192 + 18 * (kept + read) ≤ length text.old) }
    ensures { IfOk result (λ progress. progress.kept ≤ 6) }
{
    let BlockPlayed { session, answer } = play_block(buffer, kept, read, session, text);
    let (used, left) = match answer {
        // From a beginning only memory that is too short is refused (`blocks_replayed`), and both are long enough.
        BlockAnswer::Refused(_) => (0, 0),
        BlockAnswer::Played { text, kept } => (text, kept),
        BlockAnswer::Stopped { text, .. } => (text, 0),
    };
    to.write_all(&text[..used]).map_err(Failed::Unwritten)?;
    Ok(Progress {
        session,
        answer,
        kept: left,
    })
}

impl Memory {
    // Replays the whole trace, and returns what is said behind its last answer. A proved loop has to end, and nothing says that the input does: so
    // the loop counts its turns, up to a number that no run uses up.
    pub(crate) fn replay_all<R: Read>(
        &mut self,
        from: &mut R,
        to: Stdout,
        mut session: Session,
    ) -> Result<Option<Message>, Failed> {
        let mut kept = 0;
        for _turn in 0..u64::MAX {
            let end = kept + BLOCK;
            let read = program_input::read_some(from, &mut self.buffer[kept..end]).map_err(
                Failed::Unread,
            )?;
            let progress = play_read(to, session, kept, read, &mut self.buffer, &mut self.text)?;
            session = progress.session;
            kept = progress.kept;
            if is_last(progress.answer, read) {
                return Ok(Some(last_message(progress.answer, session)));
            }
        }
        Ok(None)
    }
}

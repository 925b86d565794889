// Blocks of a trace played, and what is written of them.
use crate::state::{BUFFER, State};
use replay_block::{BlockAnswer, Session, play_block};
use replay_end::{is_last, last_message};
use run_replay_parts::memory::{MEMORY, write_text};
use run_replay_parts::text;
use run_text::memory::FILL;
use run_text::read::read_bytes;
use run_text::say;
use run_text::write::Hex;
use std::io::Stdout;

// Writes the bytes that were moved to the front of the buffer, and says so where bytes beyond them are not as they were.
fn write_front(to: Stdout, before: &[u8; BUFFER], after: &[u8; BUFFER], moved: usize) {
    let Some((front, rest)) = after.split_at_checked(moved) else {
        say!(to; "buffer changed");
        return;
    };
    say!(to; "front{}", Hex(front));
    if !before.ends_with(rest) {
        say!(to; "buffer changed");
    }
}

// Writes the numbers of a session: its place, records, frames and replies.
fn write_session(to: Stdout, session: Session) {
    let Session {
        place,
        records,
        frames,
        replies,
        ..
    } = session;
    say!(to; "session {place} {records} {frames} {replies}");
}

// Writes what the replay program says behind an answer to a block with so many bytes read, where it is the last.
fn write_end(to: Stdout, answer: BlockAnswer, read: usize, session: Session) {
    if is_last(answer, read) {
        text::show(to, last_message(answer, session), MEMORY);
    }
}

// What an answer says: how many bytes of text there are, how many were moved to the front of the buffer, and how many are kept there: only a block
// that is played changes that.
#[derive(Clone, Copy)]
struct Said {
    text: usize,
    moved: usize,
    kept: usize,
}

// Writes the answer to a block with so many bytes kept before it, and returns what it says.
fn write_block(to: Stdout, answer: BlockAnswer, before: usize) -> Said {
    let mut said = Said {
        text: 0,
        moved: 0,
        kept: before,
    };
    match answer {
        BlockAnswer::Refused(refusal) => say!(to; "refused {refusal}"),
        BlockAnswer::Played { text, kept } => {
            say!(to; "played {text} {kept}");
            said = Said {
                text,
                moved: kept,
                kept,
            };
        }
        BlockAnswer::Stopped { refusal, text } => {
            say!(to; "stopped {refusal} {text}");
            said.text = text;
        }
    }
    said
}

// Plays a block of the bytes kept and of so many behind them, in an output buffer that is filled before it, and writes the answer, the text, the
// front of the buffer and the numbers of the session; and what is said at the end.
pub(crate) fn play(state: State, read: usize, buffer: &mut [u8; BUFFER]) -> State {
    let to = state.to;
    let before = *buffer;
    let mut out = [FILL; MEMORY];
    let played = play_block(
        &mut buffer[..state.size.min(BUFFER)],
        state.kept,
        read,
        state.session,
        &mut out[..state.room.min(MEMORY)],
    );
    let answer = played.answer;
    let session = played.session;
    let said = write_block(to, answer, state.kept);
    write_text(to, &out, said.text);
    write_front(to, &before, buffer, said.moved);
    write_session(to, session);
    write_end(to, answer, read, session);
    State {
        session,
        kept: said.kept,
        ..state
    }
}

// Reads bytes behind those kept, and plays this block.
pub(crate) fn block(state: State, text: &[u8], buffer: &mut [u8; BUFFER]) -> State {
    let Some(behind) = buffer.get_mut(state.kept..) else {
        say!(state.to; "no room");
        return state;
    };
    let Some(bytes) = read_bytes(text, behind) else {
        say!(state.to; "no bytes");
        return state;
    };
    let read = bytes.len();
    play(state, read, buffer)
}

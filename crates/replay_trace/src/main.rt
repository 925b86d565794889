// The replay program of document 02, W1: its argument is the address of a meter, twelve digits, highest first. It plays the trace on standard
// input to a fresh receiver and a fresh meter of this address, writes a line for each reply on standard output, and at the end of the trace one
// line on standard error: the records, the frames put to the meter and the replies. A record that is refused is said there, with its place in the
// whole trace, and ends the program; the replies of the records before it are written.
#![tactic(auto)]

mod input;

use input::{Failed, Memory};
use replay_begin::{Beginning, begin_with};
use replay_block::Session;
use replay_text::{MESSAGE_MEMORY, Message, Reason};
use std::env::Env;
use std::io::Write;

// Says a message; every one fits (`written-words`).
fn say<W: Write>(to: &mut W, message: Message) {
    let mut text = [0u8; MESSAGE_MEMORY];
    let written = replay_text::write_message(message, &mut text);
    if let Some(length) = written
        && let Some(said) = text.get(..length)
    {
        let _ = to.write_all(said);
    }
}

// Replays the trace on standard input, and says how it ended.
fn replay_input(rt: &HostRuntime, session: Session) {
    let mut memory = Memory {
        buffer: [0; 8198],
        text: [0; 155756],
    };
    match memory.replay_all(&mut rt.stdin(), rt.stdout(), session) {
        Ok(Some(message)) => say(&mut rt.stderr(), message),
        Ok(None) => {}
        Err(Failed::Unread(error)) => {
            program_input::say_failed(rt.stderr(), b"replay_trace: standard input", error);
        }
        Err(Failed::Unwritten(error)) => {
            program_input::say_failed(rt.stderr(), b"replay_trace: standard output", error);
        }
    }
}

// Replays with the address that the argument spells; one that is longer than an address is read as an empty text.
fn main(rt: HostRuntime) {
    let words = program_input::arg_count(&rt);
    if program_input::asks_for_help(&rt, words) {
        say(&mut rt.stdout(), Message::Usage(Reason::Asked));
        return;
    }
    let mut word = [0u8; 12];
    let n = rt.arg(1, &mut word).unwrap_or(0);
    let Beginning { session, opening } = begin_with(words, &word[..n]);
    match opening {
        Ok(()) => replay_input(&rt, session),
        Err(message) => say(&mut rt.stderr(), message),
    }
}

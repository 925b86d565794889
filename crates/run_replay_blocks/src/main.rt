// Carries out a script of calls of a replay in blocks, read as text from standard input, and writes what each call answers. Each line is a call:
//
//     # ..                              a comment, copied, as an empty line is
//     begin AAAAAAAAAAAA                a session of an address, high digits first; no bytes are kept
//     called N TEXT                     the session that a call of the replay program begins, of so many words, of which the second is the text; or
//                                       what the program says
//     number N HIGH LOW                 sets a number of the session, in two halves of 32 bits: its place, records, frames or replies for N of 0 to 3
//     sizes OUT BUFFER KEPT             how many bytes later calls are lent: of output buffer, at most 12,000, and of the buffer of the blocks, at most
//                                       256, both as at the start; and how many bytes at the front of the latter are kept
//     block HH ..                       bytes read behind those kept, and this block played; behind the last answer what the replay program says
//     play N                            the same with so many bytes read, as they stand in the buffer
//     frames HH ..                      frames put to the session's meter
//     break WORD                        sets a value outside document 01's ranges: receiver, kept, meter, register or reading
//     state                             what the meter holds besides its readings, and the bytes that the receiver keeps
//     reading DIRECTION ROW COLUMN      a reading as it is sent
//     refusal N                         the text of a refusal at the session's place
//     counts                            the text of the session's records, frames and replies
//     usage N                           the text of how the replay program is called; why is 0 for asked, 1 for arguments, 2 for the address
//     address TEXT                      the address that the replay program reads from a text
#![tactic(auto)]

mod block;
mod state;

use block::{block, play};
use run_replay_parts::{shown, text};
use run_text::read::{read_numbers, split_word};
use run_text::script::run_script;
use state::{BUFFER, State};

// Carries out a call that changes nothing, if the word is one.
fn show(state: State, word: &[u8], behind: &[u8], numbers: [u32; 3]) -> Option<()> {
    let to = state.to;
    let session = state.session;
    let room = state.room;
    let [_, _, number] = numbers;
    match word {
        b"state" => shown::show(to, session.state),
        b"reading" => shown::write_reading(to, session.state, numbers),
        b"refusal" => text::refusal(to, number, session.place, room),
        b"counts" => text::counts(to, session.records, session.frames, session.replies, room),
        b"usage" => text::usage(to, number, room),
        b"address" => text::address(to, behind),
        _ => return None,
    }
    Some(())
}

// Carries out the call of a line, if it is one. Where a call has no numbers, or others than it takes, they are zeros.
fn run_line(state: State, line: &[u8], buffer: &mut [u8; BUFFER]) -> Option<State> {
    let (word, behind) = split_word(line);
    let read = read_numbers(behind, u32::MAX).unwrap_or_default();
    let [_, first, second, number] = read.last;
    let numbers = [first, second, number];
    let next = match word {
        b"begin" => state.begin(behind),
        b"called" => state.called(behind),
        b"number" => state.number(numbers),
        b"sizes" => state.sized(numbers),
        b"block" => block(state, behind, buffer),
        b"play" => play(state, number as usize, buffer),
        b"frames" => state.frames(behind),
        b"break" => state.broken(behind),
        _ => {
            show(state, word, behind, numbers)?;
            state
        }
    };
    Some(next)
}

// Carries out the script that the input is.
fn main(rt: HostRuntime) {
    let to = rt.stdout();
    let mut buffer = [0u8; BUFFER];
    run_script(rt.stdin(), to, State::new(to), |state, line| {
        run_line(state, line, &mut buffer)
    });
}

// Carries out a script of calls of a replay, read as text from standard input, and writes what each call answers. Each line is a call:
//
//     # ..                              a comment, copied, as an empty line is
//     start AAAAAAAAAAAA                a replay with a fresh receiver and a fresh meter of an address, high digits first
//     trace HH ..                       a trace, from its first record on
//     more HH ..                        more bytes behind the trace, which has at most 65,536
//     place N                           the place of the next step
//     short N                           the size of the output buffer for later steps: at most 12,000, and 8,192 at the start
//     steps N                           so many steps, or fewer where one plays nothing: the lines of the replies, and the last answer
//     break WORD                        sets a value outside document 01's ranges: receiver, kept, meter, register or reading
//     state                             what the meter holds besides its readings, and the bytes that the receiver keeps
//     reading DIRECTION ROW COLUMN      a reading as it is sent
#![tactic(auto)]

mod state;
mod step;

use run_text::read::{read_exactly, split_word};
use run_text::script::run_script;
use state::State;
use step::steps;

// Carries out the call of a line, if it is one. The trace stands at the front of its buffer.
fn run_line(state: State, line: &[u8], trace: &mut [u8]) -> Option<State> {
    let (word, text) = split_word(line);
    let one = |text: &[u8]| read_exactly::<1>(text, u32::MAX).map(|[n]| n);
    let next = match word {
        b"start" => state.start(text),
        b"trace" => state.emptied().more(text, trace),
        b"more" => state.more(text, trace),
        b"place" => state.at(one(text)?),
        b"short" => state.short(one(text)?),
        b"steps" => steps(state, one(text)?, trace),
        b"break" => state.broken(text),
        b"state" => state.show(),
        b"reading" => state.reading(read_exactly(text, u32::MAX)?),
        _ => return None,
    };
    Some(next)
}

// Carries out the script that the input is.
fn main(rt: HostRuntime) {
    let to = rt.stdout();
    let mut trace = [0u8; 65536];
    run_script(rt.stdin(), to, State::new(to), |state, line| {
        run_line(state, line, &mut trace)
    });
}

// Carries out a script of calls to a meter and to the reader's end, read as text from standard input, and writes what each call
// answers. Each line is a call:
//
//     # ..                              a comment, copied, as an empty line is
//     meter HH HH HH HH HH HH           a fresh meter of an address, low byte first
//     memory N                          the size of the output buffer for later calls: at most 256, and 212 for a fresh meter
//     key 0 | key 1
//     pulse AMOUNT DIRECTION RATE
//     settle
//     frame HH ..                       a frame of at most 256 bytes
//     show                              what the meter holds besides its readings
//     reading DIRECTION ROW COLUMN VALUE
//     register PLACE HH                 the last three set a value as it is, within document 01's ranges or not
//     address HH HH HH HH HH HH
//     request HH ..                     the request for later calls: control, address low byte first, identifier DI3 first, level,
//                                       password, operator code, value
//     build                             the request's bytes
//     judge HH ..                       a reply to the request
//     lent N N N N                      the sizes of an exchange's output buffers: at most 256, and 66 212 212 196 at the start
//     exchange                          the request exchanged with the meter, request and reply as lines of the listing
//     tell HH ..                        a frame put to the meter, frame and reply as lines of the listing
#![tactic(auto)]

mod state;

use run_script_calls::{bytes_of, place_and_byte, six_of};
use run_text::read::{read_exactly, split_word};
use run_text::script::run_script;
use state::State;

// Carries out a call with bytes behind its word, if it is one.
fn run_bytes(state: &mut State, word: &[u8], bytes: &[u8]) -> Option<()> {
    *state = match word {
        b"meter" => state.meter(six_of(bytes)?),
        b"address" => state.address(six_of(bytes)?),
        b"frame" => state.frame(bytes),
        b"judge" => state.judge(bytes),
        b"tell" => state.tell(bytes),
        b"request" => state.request(bytes)?,
        _ => return None,
    };
    Some(())
}

// Carries out a call with numbers behind its word, if it is one.
fn run_numbers(state: &mut State, word: &[u8], text: &[u8]) -> Option<()> {
    *state = match word {
        b"memory" => {
            let [room] = read_exactly::<1>(text, 256)?;
            state.memory(room)
        }
        b"key" => {
            let [on] = read_exactly::<1>(text, 1)?;
            state.key(on == 1)
        }
        b"register" => {
            let (place, byte) = place_and_byte(text)?;
            state.register(place, byte)
        }
        b"lent" => state.lent(read_exactly(text, 256)?),
        b"pulse" => state.pulse(read_exactly(text, u32::MAX)?),
        b"reading" => state.reading(read_exactly(text, u32::MAX)?),
        _ => return None,
    };
    Some(())
}

// Carries out a call that is a word alone, if it is one.
fn run_word(state: &mut State, line: &[u8]) -> Option<()> {
    *state = match line {
        b"settle" => state.settle(),
        b"show" => state.show(),
        b"build" => state.build(),
        b"exchange" => state.exchange(),
        _ => return None,
    };
    Some(())
}

// Carries out the call of a line, if it is one. A call has at most 256 bytes.
fn run_line(mut state: State, line: &[u8]) -> Option<State> {
    let (word, text) = split_word(line);
    if run_word(&mut state, line).is_none() && run_numbers(&mut state, word, text).is_none() {
        let mut buffer = [0u8; 256];
        run_bytes(&mut state, word, bytes_of(text, &mut buffer)?)?;
    }
    Some(state)
}

// Carries out the script that the input is.
fn main(rt: HostRuntime) {
    let to = rt.stdout();
    run_script(rt.stdin(), to, State::start(to), run_line);
}

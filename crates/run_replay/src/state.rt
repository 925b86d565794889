// What stands between two lines of the script, and what each call besides the steps makes of it.
use replay::ReplayState;
use run_replay_parts::given::{address_of, broken};
use run_replay_parts::shown;
use run_script_answers::told::write_done;
use run_text::read::read_bytes;
use run_text::say;
use std::io::Stdout;

// Standard output, the replay, the place of its next step, the size of the output buffer for a step, and how many bytes the trace has at the front of a
// buffer beside this.
#[derive(Clone, Copy)]
pub(crate) struct State {
    pub to: Stdout,
    pub replay: ReplayState,
    pub place: usize,
    pub room: usize,
    pub length: usize,
}

impl State {
    // Before the first line: a replay with a meter of address zero, and no trace.
    pub(crate) fn new(to: Stdout) -> State {
        let started = replay::start([0u8; 6]);
        State {
            to,
            replay: started.state,
            place: 0,
            room: 8192,
            length: 0,
        }
    }

    // With a replay of an address from its start.
    pub(crate) fn start(self, text: &[u8]) -> State {
        let started = replay::start(address_of(text));
        write_done(self.to, started.answer, "started");
        State {
            replay: started.state,
            ..self
        }
    }

    // At another place.
    pub(crate) fn at(self, place: u32) -> State {
        State {
            place: place as usize,
            ..self
        }
    }

    // With an output buffer of another size.
    pub(crate) fn short(self, room: u32) -> State {
        State {
            room: room as usize,
            ..self
        }
    }

    // With an empty trace.
    pub(crate) fn emptied(self) -> State {
        State {
            place: 0,
            length: 0,
            ..self
        }
    }

    // With more bytes behind the trace.
    pub(crate) fn more(self, text: &[u8], trace: &mut [u8]) -> State {
        let Some(behind) = trace.get_mut(self.length..) else {
            return self;
        };
        let Some(bytes) = read_bytes(text, behind) else {
            say!(self.to; "no bytes");
            return self;
        };
        State {
            length: self.length.saturating_add(bytes.len()),
            ..self
        }
    }

    // With a value outside its range.
    pub(crate) fn broken(self, word: &[u8]) -> State {
        State {
            replay: broken(self.to, self.replay, word),
            ..self
        }
    }

    // As it is, and shown.
    pub(crate) fn show(self) -> State {
        shown::show(self.to, self.replay);
        self
    }

    // As it is, after a reading was shown, by direction, row and column.
    pub(crate) fn reading(self, numbers: [u32; 3]) -> State {
        shown::write_reading(self.to, self.replay, numbers);
        self
    }
}

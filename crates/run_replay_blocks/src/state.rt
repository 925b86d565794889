// What stands between two lines of the script, and the calls that change it and play no block.
use replay::ReplayState;
use replay_begin::begin_with;
use replay_block::Session;
use run_replay_parts::given;
use run_replay_parts::memory::MEMORY;
use run_replay_parts::put::put_text;
use run_replay_parts::text::show;
use run_script_answers::told::write_done;
use run_text::read::{number_of, skip_blank, split_word};
use run_text::say;
use std::io::Stdout;

// How many bytes the buffer of the blocks has.
pub(crate) const BUFFER: usize = 256;

// Standard output, the session, how many bytes of the buffer of its blocks, which stands beside this, are lent to a call, how many are kept at its front, and how
// many bytes of output buffer are lent.
#[derive(Clone, Copy)]
pub(crate) struct State {
    pub to: Stdout,
    pub session: Session,
    pub size: usize,
    pub kept: usize,
    pub room: usize,
}

impl State {
    // Before the first line: a session of address zero, all memory, and nothing kept.
    pub(crate) fn new(to: Stdout) -> State {
        let begun = replay_block::begin([0u8; 6]);
        State {
            to,
            session: begun.session,
            size: BUFFER,
            kept: 0,
            room: MEMORY,
        }
    }

    // With another session, from the first record of a trace on.
    fn with_session(self, session: Session) -> State {
        State {
            session,
            kept: 0,
            ..self
        }
    }

    // With a session of an address, from the first record of a trace on.
    pub(crate) fn begin(self, text: &[u8]) -> State {
        let begun = replay_block::begin(given::address_of(text));
        write_done(self.to, begun.answer, "done");
        self.with_session(begun.session)
    }

    // With the session that a call of the replay program begins, or as it was with what the program says: behind a blank stands how many words
    // the call has, and behind another its second word.
    pub(crate) fn called(self, text: &[u8]) -> State {
        let (count, behind) = split_word(skip_blank(text));
        let count = number_of(count).unwrap_or(0);
        let beginning = begin_with(count as usize, skip_blank(behind));
        match beginning.opening {
            Ok(()) => {
                say!(self.to; "begun");
                self.with_session(beginning.session)
            }
            Err(message) => {
                show(self.to, message, self.room);
                self
            }
        }
    }

    // With another number of its session, given as two halves.
    pub(crate) fn number(self, [which, high, low]: [u32; 3]) -> State {
        let value = u64::from(high) << 32 | u64::from(low);
        let mut session = self.session;
        match which {
            0 => session.place = value,
            1 => session.records = value,
            2 => session.frames = value,
            _ => session.replies = value,
        }
        State { session, ..self }
    }

    // With other sizes of both buffers, and another number of bytes kept.
    pub(crate) fn sized(self, sizes: [u32; 3]) -> State {
        let [room, size, kept] = sizes.map(|n| n as usize);
        State {
            size,
            kept,
            room,
            ..self
        }
    }

    // With another receiver, meter and readings.
    fn with_replay(self, replay: ReplayState) -> State {
        let session = Session {
            state: replay,
            ..self.session
        };
        State { session, ..self }
    }

    // With the meter after frames were put to it.
    pub(crate) fn frames(self, text: &[u8]) -> State {
        self.with_replay(put_text(self.to, self.session.state, text, self.room))
    }

    // With a value outside its range.
    pub(crate) fn broken(self, word: &[u8]) -> State {
        self.with_replay(given::broken(self.to, self.session.state, word))
    }
}

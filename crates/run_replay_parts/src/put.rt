// Frames put to a meter, and what is written of them.
use crate::memory::{MEMORY, write_text};
use replay::ReplayState;
use replay_frames::{LinesPut, put_frames};
use run_text::memory::FILL;
use run_text::read::read_bytes;
use run_text::say;
use std::io::Stdout;

// How many bytes of frames there can be.
const MOST: usize = 256;

// Puts the frames of a text to the meter of a replay with so many bytes of output buffer, writes the answer and the text, and returns the replay
// with the meter after it.
pub fn put_text(to: Stdout, replay: ReplayState, text: &[u8], room: usize) -> ReplayState {
    let mut buffer = [0u8; MOST];
    let Some(frames) = read_bytes(text, &mut buffer) else {
        say!(to; "no bytes");
        return replay;
    };
    let mut out = [FILL; MEMORY];
    let put = put_frames(
        replay.meter,
        replay.energies,
        frames,
        &mut out[..room.min(MEMORY)],
    );
    match put.answer {
        Err(refusal) => {
            say!(to; "refused {}", refusal.number());
            write_text(to, &out, 0);
        }
        Ok(LinesPut { text, lines }) => {
            say!(to; "put {text} {lines}");
            write_text(to, &out, text);
        }
    }
    ReplayState {
        meter: put.meter,
        ..replay
    }
}

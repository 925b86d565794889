// One record played: a byte or a silence is heard, and what it delivers is put to the meter; a pulse, the key and a settlement are the host's
// calls of the meter.
ghost use Rattle.std.specs.Prelude.{◌≡◌, true, ◌≤◌, length};
ghost use Rattle.laws.specs.Memory.{outcome};
ghost use Rattle.replay.specs.Replay.{is_within, played};
ghost use Rattle.replay.specs.Play.{quiet, played_outcome, CanPut, delivered_play};

use crate::ReplayState;
use crate::host::host_call;
use energy::Energies;
use frame::MOST_FRAME;
use line::Received;
use meter::Meter;
use replay_frames::{FramesPut, put_frames};
use trace::TraceRecord;

// The state after a record, and the bytes and the number of the lines of its replies.
#[derive(Clone, Copy)]
pub(crate) struct Played {
    pub state: ReplayState,
    pub text: usize,
    pub lines: usize,
}

// The state after a record that nothing is replied to.
fn quiet(state: ReplayState) -> Played
    ensures { result ≡ quiet state }
{
    Played {
        state,
        text: 0,
        lines: 0,
    }
}

// What a call of the receiver delivered, put to the meter.
fn put_delivered(
    received: Received,
    meter: Meter,
    energies: Energies,
    frames: &[u8],
    out: &mut [u8],
) -> Played
    requires { CanPut received.answer meter energies frames.now out.old }
    ensures { outcome result out.new ≡ played_outcome (delivered_play received.answer received.receiver meter energies frames.now) out.old }
{
    let Received { receiver, answer } = received;
    let state = ReplayState {
        receiver,
        meter,
        energies,
    };
    let Ok(delivered) = answer else {
        return quiet(state);
    };
    let FramesPut { meter, answer } = put_frames(meter, energies, &frames[..delivered.bytes], out);
    let state = ReplayState { meter, ..state };
    let Ok(put) = answer else {
        return quiet(state);
    };
    Played {
        state,
        text: put.text,
        lines: put.lines,
    }
}

// A record played.
pub(crate) fn play(state: ReplayState, found: TraceRecord, out: &mut [u8]) -> Played
    requires { (is_within state ≡ true) × (8192 ≤ length out.old) }
    ensures { outcome result out.new ≡ played_outcome (played found state) out.old }
{
    let ReplayState {
        receiver,
        meter,
        energies,
    } = state;
    let mut frames = [0u8; MOST_FRAME];
    let received = match found {
        TraceRecord::Byte(b) => receiver.byte(b, &mut frames),
        TraceRecord::Silence => receiver.silence(&mut frames),
        TraceRecord::Pulse { .. } | TraceRecord::Key(_) | TraceRecord::Settle => {
            return quiet(host_call(state, found));
        }
    };
    put_delivered(received, meter, energies, &frames, out)
}

// The calls of the host that a trace has records of: a pulse, the key and a settlement.
ghost use Rattle.std.specs.Prelude.{◌≡◌};
ghost use Rattle.replay.specs.Replay.{counted_in, host_call};

use crate::ReplayState;
use line::Receiver;
use meter::Counted;
use trace::TraceRecord;

// The state with the meter and the readings that a host's call handed back.
fn counted_in(receiver: Receiver, counted: Counted) -> ReplayState
    ensures { result ≡ counted_in receiver counted }
{
    ReplayState {
        receiver,
        meter: counted.meter,
        energies: counted.energies,
    }
}

// The host's call of the meter that a record names: a pulse, the key or a settlement. A byte or a silence is no call of the host, and leaves the
// state as it was; so does a call that the meter refuses.
#[tactic(auto, unfolding(crate::specs::Replay::host_call))]
pub fn host_call(state: ReplayState, found: TraceRecord) -> ReplayState
    ensures { result ≡ host_call found state }
{
    let ReplayState {
        receiver,
        meter,
        energies,
    } = state;
    match found {
        TraceRecord::Byte(_) | TraceRecord::Silence => state,
        TraceRecord::Pulse {
            direction,
            rate,
            amount,
        } => counted_in(receiver, meter.pulse(energies, amount, direction, rate)),
        TraceRecord::Key(on) => ReplayState {
            meter: meter.set_key(energies, on).meter,
            ..state
        },
        TraceRecord::Settle => counted_in(receiver, meter.settle(energies)),
    }
}

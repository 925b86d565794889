// The replay of a recorded line: document 02, W1. A trace is played record by record into a fresh receiver and a fresh meter of an address;
// each frame that the receiver delivers is put to the meter, and each reply is listed. That the replies and the meter at the end are those of
// the calls made by hand is `replayed_by_hand` in proofs/Replayed.antt.
#![tactic(auto)]

pub mod host;
mod play;

ghost use Rattle.std.specs.Prelude.{◌≡◌};
ghost use Rattle.laws.specs.Memory.{outcome};
ghost use Rattle.replay.specs.Replay.{started, is_within, stepped_with, stepped};

use energy::Energies;
use frame::refusal::Refusal;
use line::Receiver;
use meter::{Created, Meter};
use play::{Played, play};
use trace::record_at;

// How many bytes of memory a step is lent at the least.
pub const STEP_MEMORY: usize = 8192;

// What a replay goes on with: the receiver, the meter and both directions' readings.
#[derive(Clone, Copy)]
pub struct ReplayState {
    pub receiver: Receiver,
    pub meter: Meter,
    pub energies: Energies,
}

// The start of a replay, with the place of the first record. With a refusal there is no meter: every step then refuses with 16.
#[derive(Clone, Copy)]
pub struct Started {
    pub state: ReplayState,
    pub at: usize,
    pub answer: Result<(), Refusal>,
}

// The answer to a step.
#[derive(Clone, Copy)]
pub enum StepAnswer {
    // The place is at or past the end of the trace; nothing changed.
    Done,
    // A refusal: nothing changed.
    Refused(Refusal),
    // No good record begins at this place; nothing changed.
    BadRecord {
        refusal: Refusal,
        place: usize,
    },
    // One record is played: how many bytes of text, and how many lines, stand at the front of the output buffer, and the place of the next record.
    Played {
        text: usize,
        lines: usize,
        next: usize,
    },
}

// The state after a step, with the step's answer.
#[derive(Clone, Copy)]
pub struct Stepped {
    pub state: ReplayState,
    pub answer: StepAnswer,
}

// A fresh receiver and a fresh meter of an address, at the first record; 8 for an address that is not good.
pub fn start(address: [u8; 6]) -> Started
    ensures { result ≡ started address }
{
    let Created {
        meter,
        energies,
        answer,
    } = Meter::fresh(address);
    Started {
        state: ReplayState {
            receiver: Receiver::new(),
            meter,
            energies,
        },
        at: 0,
        answer,
    }
}

// Whether the receiver, and the meter with its readings, are within their ranges: every step refuses with 16 a state that is not.
#[tactic(auto, unfolding(crate::specs::Replay::is_within))]
pub fn is_within(state: ReplayState) -> bool
    ensures { result ≡ is_within state }
{
    let ReplayState {
        receiver,
        meter,
        energies,
    } = state;
    line_verdict::within_range(&receiver.kept, receiver.count) && meter.is_within_ranges(energies)
}

// A step that played nothing: the state as it was.
fn unplayed(state: ReplayState, answer: StepAnswer) -> Stepped
    ensures { result ≡ stepped_with state answer }
{
    Stepped { state, answer }
}

// Plays the record at a place of a trace, and writes a line for each reply to the front of the output buffer, which stays as it was beyond
// them. In this order: 16 for a receiver or a meter out of its ranges; done, at or past the end; 1 under 8,192 bytes of memory; 9 for an
// unknown kind, 10 for a record that is cut off, 9 for a field out of its range, with the place where the record begins.
pub fn step_at(trace: &[u8], at: usize, state: ReplayState, out: &mut [u8]) -> Stepped
    ensures { outcome result out.new ≡ stepped trace.now at state out.old }
{
    if !is_within(state) {
        return unplayed(state, StepAnswer::Refused(Refusal::OutOfRange));
    }
    if trace.len() <= at {
        return unplayed(state, StepAnswer::Done);
    }
    if out.len() < STEP_MEMORY {
        return unplayed(state, StepAnswer::Refused(Refusal::ShortMemory));
    }
    match record_at(trace, at) {
        Ok(None) => unplayed(state, StepAnswer::Done),
        Err(refusal) => unplayed(state, StepAnswer::BadRecord { refusal, place: at }),
        Ok(Some(record)) => {
            let Played { state, text, lines } = play(state, record.found, out);
            Stepped {
                state,
                answer: StepAnswer::Played {
                    text,
                    lines,
                    next: at + record.length,
                },
            }
        }
    }
}

// The bytes and silences of a block heard one after the other, as long as nothing is delivered: neither the meter nor its readings are looked at.
ghost use Rattle.std.specs.Prelude.{◌≡◌, ◌≤◌, true, false, length};
ghost use Rattle.line.specs.Answer.{handed};
ghost use Rattle.replay_block.specs.Hear.{stands_at, NoneStands, is_quiet, CanHear, HeardOn};

use frame::refusal::Refusal;
use line::{Delivered, Received, Receiver};

// What was heard: what the last call of the receiver returned, the place behind the last record heard, and how many records were heard.
#[derive(Clone, Copy)]
pub(crate) struct Heard {
    pub received: Received,
    pub at: usize,
    pub records: usize,
}

// Whether a record of a kind, which has so many bytes, stands whole at a place of the block.
#[tactic(auto, unfolding(crate::specs::Hear::stands_at))]
pub(crate) fn stands_at(block: &[u8], at: usize, kind: u8, size: usize) -> bool
    requires { (at ≤ length block.now) × (1 ≤ size) }
    ensures { result ≡ stands_at block.now at kind size }
{
    block.len() - at >= size && block[at] == kind
}

// Whether nothing was delivered.
fn is_quiet(answer: Result<Delivered, Refusal>) -> bool
    ensures { result ≡ is_quiet answer }
{
    matches!(answer, Ok(delivered) if delivered.bytes == 0)
}

// What stands for a call of the receiver where nothing is heard yet.
fn unheard(receiver: Receiver) -> Received
    ensures { result ≡ record { receiver = receiver; answer = handed 0 0 } }
{
    Received {
        receiver,
        answer: Ok(Delivered {
            bytes: 0,
            frames: 0,
        }),
    }
}

// Hears the byte records from a place of the block on, up to the first that delivers something or to the first record that is no byte. The loop carries
// what a call returned, receiver and answer together, and is left where no byte stands: so a byte that nobody keeps costs one copy of the receiver.
fn hear_bytes(block: &[u8], start: usize, receiver: Receiver, frames: &mut [u8]) -> Heard
    requires { CanHear block.now start receiver frames.old }
    ensures { HeardOn block.now start receiver frames.new result × (is_quiet result.received.answer ≡ true → stands_at block.now result.at 1 2 ≡ false) }
{
    let mut received = unheard(receiver);
    let mut at = start;
    let mut going = true;
    while going {
        if !stands_at(block, at, 1, 2) {
            return Heard {
                received,
                at,
                records: (at - start) / 2,
            };
        }
        received = received.receiver.byte(block[at + 1], frames);
        at += 2;
        going = is_quiet(received.answer);
    }
    Heard {
        received,
        at,
        records: (at - start) / 2,
    }
}

// Hears the byte records from a place of the block on and, where nothing was delivered, the silence behind them.
fn hear_round(block: &[u8], start: usize, receiver: Receiver, frames: &mut [u8]) -> Heard
    requires { CanHear block.now start receiver frames.old }
    ensures { HeardOn block.now start receiver frames.new result × (result.at ≡ start → NoneStands block.now start) }
{
    let heard = hear_bytes(block, start, receiver, frames);
    let Heard {
        received,
        at,
        records,
    } = heard;
    if is_quiet(received.answer) && stands_at(block, at, 2, 1) {
        return Heard {
            received: received.receiver.silence(frames),
            at: at + 1,
            records: records + 1,
        };
    }
    heard
}

// Hears bytes and silences from a place of the block on, up to the first that delivers something or to the first record that is not for the receiver.
pub(crate) fn hear_on(block: &[u8], start: usize, receiver: Receiver, frames: &mut [u8]) -> Heard
    requires { CanHear block.now start receiver frames.old }
    ensures { HeardOn block.now start receiver frames.new result × (result.at ≡ start → NoneStands block.now start) }
{
    let mut heard = Heard {
        received: unheard(receiver),
        at: start,
        records: 0,
    };
    loop {
        let round = hear_round(block, heard.at, heard.received.receiver, frames);
        let ends = !is_quiet(round.received.answer) || round.at == heard.at;
        heard = Heard {
            records: heard.records + round.records,
            ..round
        };
        if ends {
            return heard;
        }
    }
}

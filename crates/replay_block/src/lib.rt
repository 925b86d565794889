// A trace replayed in blocks, cut at any byte: document 02, W1. A call plays the whole records of a block that a host has read behind what
// was kept, and keeps the bytes of a record that is not whole yet at the front of the buffer.
#![tactic(auto)]

mod hear;
mod run;

ghost use Rattle.std.specs.Prelude.{◌≡◌, true, false, MatchOption, ◌+◌, ◌-◌, ◌≤◌, length, take, drop};
ghost use Rattle.laws.specs.Memory.{outcome, over};
ghost use Rattle.frame.specs.Refusals.{number_of};
ghost use Rattle.replay_block.specs.Block.{begun, is_stop, refusal_of, block_outcome, block_replayed};

use frame::refusal::Refusal;
use replay::{ReplayState, STEP_MEMORY, Started, is_within};
use run::{Run, run_on};
use trace::{RecordFound, record_at};

// How many bytes of text a byte of a block can come to, besides what the receiver keeps before it.
pub const TEXT_OF_A_TRACE_BYTE: usize = 18;

// What a replay in blocks goes on with, and what it has come to so far; the numbers are modulo 2^64.
#[derive(Clone, Copy)]
pub struct Session {
    pub state: ReplayState,
    // The place of the next record in the whole trace.
    pub place: u64,
    // How many records were played, how many frames put to the meter, and how many replies it gave.
    pub records: u64,
    pub frames: u64,
    pub replies: u64,
}

// A session that begins, with the answer: 8 for an address that is not good, and then every block is refused with 16.
#[derive(Clone, Copy)]
pub struct Begun {
    pub session: Session,
    pub answer: Result<(), Refusal>,
}

// The answer to a block. It has the number of a refusal: `replay_end::last_message` takes one with any number, and `Refusal` would be narrower.
#[derive(Clone, Copy)]
pub enum BlockAnswer {
    // A refusal, by the papers' number: nothing is played, and nothing changed.
    Refused(u8),
    // The whole records of the block are played: how many bytes of text stand at the front of its memory, and how many bytes of a record that
    // is not whole yet, at most 6, are kept at the front of the buffer.
    Played { text: usize, kept: usize },
    // The records up to one that is refused, by document 02's number, are played: how many bytes of text stand at the front of its memory. The place of
    // the refused record is the session's; the buffer is as it was.
    Stopped { refusal: u8, text: usize },
}

// The session after a block, with the answer.
#[derive(Clone, Copy)]
pub struct BlockPlayed {
    pub session: Session,
    pub answer: BlockAnswer,
}

// A session of an address, at the first record of a trace; 8 for an address that is not good.
#[tactic(auto, unfolding(crate::specs::Block::begun))]
pub fn begin(address: [u8; 6]) -> Begun
    ensures { result ≡ begun address }
{
    let Started { state, answer, .. } = replay::start(address);
    Begun {
        session: Session {
            state,
            place: 0,
            records: 0,
            frames: 0,
            replies: 0,
        },
        answer,
    }
}

// A refusal: the session as it was.
fn refused(session: Session, refusal: Refusal) -> BlockPlayed
    ensures { result ≡ record { session = session; answer = BlockAnswer.Refused (number_of refusal) } }
{
    BlockPlayed {
        session,
        answer: BlockAnswer::Refused(refusal.number()),
    }
}

// The refusal at which the replay stops, of what stands at the front of the rest: any refusal but that of a record that is cut off, and that too where
// the trace has ended.
fn stop(front: Result<Option<RecordFound>, Refusal>, ended: bool) -> Option<u8>
    ensures { MatchOption result (is_stop front ended ≡ false) (λ n. (is_stop front ended ≡ true) × (refusal_of front ≡ n)) }
{
    match front {
        Err(Refusal::CutOff) if !ended => None,
        Err(refusal) => Some(refusal.number()),
        Ok(_) => None,
    }
}

// Moves the bytes from `at` up to `end` to the front, and returns how many there are.
fn keep(buffer: &mut [u8], at: usize, end: usize) -> usize
    requires { (at ≤ end) × (end ≤ length buffer.old) }
    ensures { outcome result buffer.new ≡ outcome (end - at) (over (take (end - at) (drop at buffer.old)) buffer.old) }
{
    buffer.copy_within(at..end, 0);
    end - at
}

// Plays the first `kept` bytes of the buffer, those of a record that was not whole, and the `read` bytes behind them as a block of the trace, and
// writes the lines of the replies to the front of `text`. Refused with 16; with 1 where the buffer is shorter than these bytes, and under 8,192
// bytes of text memory and 18 for each of them. A read of no bytes is at the end of the trace: a record that is cut off is then refused with 10. The
// bytes of a record that is not whole yet are moved to the front of the buffer; beyond what is written both stay as they were.
pub fn play_block(
    buffer: &mut [u8],
    kept: usize,
    read: usize,
    session: Session,
    text: &mut [u8],
) -> BlockPlayed
    ensures { block_outcome result.session result.answer buffer.new text.new ≡ block_replayed kept read session buffer.old text.old }
{
    if !is_within(session.state) {
        return refused(session, Refusal::OutOfRange);
    }
    if buffer.len() < kept || buffer.len() - kept < read {
        return refused(session, Refusal::ShortMemory);
    }
    let end = kept + read;
    if text.len() < STEP_MEMORY || (text.len() - STEP_MEMORY) / TEXT_OF_A_TRACE_BYTE < end {
        return refused(session, Refusal::ShortMemory);
    }
    let Run {
        session,
        at,
        text: used,
    } = run_on(&buffer[..end], session, text);
    let front = record_at(&buffer[..end], at);
    let answer = match stop(front, read == 0) {
        Some(refusal) => BlockAnswer::Stopped {
            refusal,
            text: used,
        },
        None => BlockAnswer::Played {
            text: used,
            kept: keep(buffer, at, end),
        },
    };
    BlockPlayed { session, answer }
}

// The records of a block played one after the other: what is heard is put to the meter where something is delivered, and the other records are
// the host's calls.
ghost use Rattle.std.specs.Prelude.{◌≡◌, ◌<◌};
ghost use Rattle.replay_block.specs.Block.{went_by};
ghost use Rattle.replay_block.specs.Hear.{NoneStands, HeardOn};
ghost use Rattle.replay_block.specs.Run.{run_at, Ready, Turns, PlaysAll, QuietTurn};

use crate::Session;
use crate::hear::{Heard, hear_on, stands_at};
use frame::MOST_FRAME;
use replay::ReplayState;
use replay::host::host_call;
use replay_frames::{FramesPut, put_frames};
use std::num::wrapping_add_u64;
use trace::record_at;

// How far the records of a block are played: the session, the place of the next record in the block, and how many bytes of text are written.
#[derive(Clone, Copy)]
pub(crate) struct Run {
    pub session: Session,
    pub at: usize,
    pub text: usize,
}

// What records come to: how many bytes and how many records they are, how many frames are put to the meter, and how many replies it gives.
#[derive(Clone, Copy)]
struct Counts {
    bytes: usize,
    records: usize,
    frames: usize,
    replies: usize,
}

// The session with another state, gone on by what records come to.
#[tactic(auto, unfolding(crate::specs::Block::went_by, crate::specs::Block::counted))]
fn went_on(session: Session, state: ReplayState, by: Counts) -> Session
    ensures { result ≡ went_by session state by.bytes by.records by.frames by.replies }
{
    Session {
        state,
        place: wrapping_add_u64(session.place, by.bytes as u64),
        records: wrapping_add_u64(session.records, by.records as u64),
        frames: wrapping_add_u64(session.frames, by.frames as u64),
        replies: wrapping_add_u64(session.replies, by.replies as u64),
    }
}

// What was heard is put to the meter, and the lines of the replies are written behind those before.
fn put_heard(block: &[u8], run: Run, heard: Heard, frames: &[u8], out: &mut [u8]) -> Run
    requires { Ready block.now run out.old × HeardOn block.now run.at run.session.state.receiver frames.now heard × (run.at < heard.at) }
    ensures { Turns block.now run result out.old out.new }
{
    let Heard {
        received,
        at,
        records,
    } = heard;
    let Ok(delivered) = received.answer else {
        return run;
    };
    let ReplayState {
        meter,
        energies,
        ..
    } = run.session.state;
    let FramesPut { meter, answer } = put_frames(
        meter,
        energies,
        &frames[..delivered.bytes],
        &mut out[run.text..],
    );
    let Ok(put) = answer else {
        return run;
    };
    let state = ReplayState {
        receiver: received.receiver,
        meter,
        energies,
    };
    let by = Counts {
        bytes: at - run.at,
        records,
        frames: delivered.frames,
        replies: put.lines,
    };
    Run {
        session: went_on(run.session, state, by),
        at,
        text: run.text + put.text,
    }
}

// The host's call that stands at the place, or none where no good record stands there.
fn host_turn(block: &[u8], run: Run) -> Run
    requires { NoneStands block.now run.at }
    ensures { QuietTurn block.now run result }
{
    match record_at(block, run.at) {
        Ok(Some(record)) => {
            let by = Counts {
                bytes: record.length,
                records: 1,
                frames: 0,
                replies: 0,
            };
            Run {
                session: went_on(run.session, host_call(run.session.state, record.found), by),
                at: run.at + record.length,
                text: run.text,
            }
        }
        Ok(None) => run,
        Err(_) => run,
    }
}

// What is heard from the place on where a byte or a silence stands there, and else the host's call.
fn turn(block: &[u8], run: Run, out: &mut [u8]) -> Run
    requires { Ready block.now run out.old }
    ensures { Turns block.now run result out.old out.new }
{
    if stands_at(block, run.at, 1, 2) || stands_at(block, run.at, 2, 1) {
        let mut frames = [0u8; MOST_FRAME];
        let heard = hear_on(block, run.at, run.session.state.receiver, &mut frames);
        return put_heard(block, run, heard, &frames, out);
    }
    host_turn(block, run)
}

// Plays the good records of a block from its first on, and writes the lines of their replies to the front of the output buffer.
pub(crate) fn run_on(block: &[u8], session: Session, out: &mut [u8]) -> Run
    requires { Ready block.now (run_at session) out.old }
    ensures { PlaysAll block.now session result out.old out.new }
{
    let mut run = Run {
        session,
        at: 0,
        text: 0,
    };
    loop {
        let next = turn(block, run, out);
        if next.at == run.at {
            return next;
        }
        run = next;
    }
}

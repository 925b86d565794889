// What the replay program of document 02, W1, says beside its listing: how a trace ended, and how the program is called.
#![tactic(auto)]

mod put;

ghost use Rattle.std.specs.Prelude.{◌≡◌, ◌+◌, ◌≤◌};
ghost use Rattle.laws.specs.Memory.{outcome};
ghost use Rattle.replay_text.specs.Line.{Adds};
ghost use Rattle.replay_text.specs.Texts.{meaning, writing, refused_text, counts_text, reason_text, usage_text, message_text};

use frame::refusal::Refusal;
use put::Line;

// Why it is said how the program is called.
#[derive(Clone, Copy)]
pub enum Reason {
    // It was asked.
    Asked,
    // The call has no argument, or more than one.
    NotOneArgument,
    // The argument is not twelve digits, or an address that no meter has.
    BadAddress,
}

// What the program says.
#[derive(Clone, Copy)]
pub enum Message {
    // A record, or a block, is refused with this number; the record that is not played begins at this place of the whole trace. It may be any
    // number: `message_text` has a text for each, and run_replay_blocks writes those of 0, 99 and 255 too.
    BadRecord {
        refusal: u8,
        place: u64,
    },
    // The trace has ended: how many records were played, how many frames put to the meter, and how many replies it gave.
    Replayed {
        records: u64,
        frames: u64,
        replies: u64,
    },
    // How the program is called, and before it why that is said.
    Usage(Reason),
}

// The length of a memory in which every message fits.
pub const MESSAGE_MEMORY: usize = 256;

// Puts what a refusal means, and the end of the line.
#[tactic(auto, unfolding(crate::specs::Texts::meaning))]
fn put_meaning(line: &mut Line, refusal: u8)
    requires { line.old.end + 64 ≤ 256 }
    ensures { Adds line.old line.new (meaning refusal) }
{
    if refusal == Refusal::BadRecord.number() {
        line.put(b": an unknown kind of record, or a field out of its range\n");
    } else if refusal == Refusal::CutOff.number() {
        line.put(b": the trace ends inside the record\n");
    } else {
        line.put(b"\n");
    }
}

// Puts the line of a refused record.
fn put_refused(line: &mut Line, refusal: u8, place: u64)
    requires { line.old.end ≡ 0 }
    ensures { Adds line.old line.new (refused_text refusal place) }
{
    line.put_labelled(b"replay_trace: refused with ", refusal as u64);
    line.put_labelled(b" at place ", place);
    put_meaning(line, refusal);
}

// Puts the line of the counts.
#[tactic(auto, unfolding(crate::specs::Texts::counts_text))]
fn put_counts(line: &mut Line, records: u64, frames: u64, replies: u64)
    requires { line.old.end ≡ 0 }
    ensures { Adds line.old line.new (counts_text records frames replies) }
{
    line.put_labelled(b"replay_trace: records ", records);
    line.put_labelled(b", frames put to the meter ", frames);
    line.put_labelled(b", replies ", replies);
    line.put(b"\n");
}

// Puts why it is said how the program is called.
#[tactic(auto, unfolding(crate::specs::Texts::reason_text))]
fn put_reason(line: &mut Line, reason: Reason)
    requires { line.old.end ≡ 0 }
    ensures { Adds line.old line.new (reason_text reason) }
{
    match reason {
        Reason::Asked => {}
        Reason::NotOneArgument => {
            line.put(b"replay_trace: one argument is needed, the address of the meter\n");
        }
        Reason::BadAddress => {
            line.put(b"replay_trace: the address has to be twelve digits, and not twelve nines\n");
        }
    }
}

// Puts how the program is called, and before it why that is said.
fn put_usage(line: &mut Line, reason: Reason)
    requires { line.old.end ≡ 0 }
    ensures { Adds line.old line.new (usage_text reason) }
{
    put_reason(line, reason);
    line.put(
        b"usage: replay_trace ADDRESS < TRACE   plays a trace to a fresh meter of this address, twelve digits, and lists its replies\n",
    );
}

// Puts what is said.
#[tactic(auto, unfolding(crate::specs::Texts::message_text))]
fn put_message(line: &mut Line, message: Message)
    requires { line.old.end ≡ 0 }
    ensures { Adds line.old line.new (message_text message) }
{
    match message {
        Message::BadRecord { refusal, place } => put_refused(line, refusal, place),
        Message::Replayed {
            records,
            frames,
            replies,
        } => put_counts(line, records, frames, replies),
        Message::Usage(reason) => put_usage(line, reason),
    }
}

// Writes what is said to the front of the output buffer, which stays as it was beyond it, and answers the length of the text, its newlines
// among it; a buffer that is shorter is left as it was, and none is answered.
pub fn write_message(message: Message, out: &mut [u8]) -> Option<usize>
    ensures { outcome result out.new ≡ writing (message_text message) out.old }
{
    let mut line = Line::new();
    put_message(&mut line, message);
    let used = line.end;
    if out.len() < used {
        return None;
    }
    slice_bytes::copy(&line.bytes[..used], out);
    Some(used)
}

// A recorded line read in blocks, without a receiver: document 01, "Reading of the line". A step reads the bytes that a host has
// put behind those kept from the step before, delivers the frames that became certain with them, and keeps the unfinished rest
// at the front of the buffer. What every list of steps from a buffer that keeps nothing delivers and keeps is `blocks_due` in
// proofs/Blocks.antt.
#![tactic(auto)]

ghost use Rattle.std.specs.Prelude.{◌≡◌, ◌≤◌, length};
ghost use Rattle.slice_bytes.specs.Place.{slice};
ghost use Rattle.laws.specs.Memory.{over};
ghost use Rattle.recording.specs.Step.{step_outcome, step_read};

use frame::refusal::Refusal;

// What a step gives: how many bytes of how many frames stand at the front of the output buffer, and how many bytes are kept at
// the front of the line's buffer, at most 211.
#[derive(Clone, Copy)]
pub struct StepRead {
    pub bytes: usize,
    pub frames: usize,
    pub kept: usize,
}

// Moves the bytes from `rest` up to `end` to the front. Place by place, where `copy_within` would do as much: a must-fail edit changes
// the first place, and a harmless change of it is proved.
fn move_to_front(buffer: &mut [u8], rest: usize, end: usize)
    requires { (rest ≤ end) × (end ≤ length buffer.old) }
    ensures { buffer.new ≡ over (slice rest end buffer.old) buffer.old }
{
    for i in 0..end - rest {
        buffer[i] = buffer[rest + i];
    }
}

// Reads the first `kept` bytes of the buffer, the rest of the step before, and the `read` bytes behind them as a block of the
// line, with a silence behind it where the line has ended. Refused with 1 where the buffer, or `out`, is shorter than these
// bytes: nothing is delivered, and nothing changed. The frames are written end to end to the front of `out`, and the unfinished rest is moved to the front of the buffer;
// beyond them both stay as they were.
pub fn read_step(
    buffer: &mut [u8],
    kept: usize,
    read: usize,
    ended: bool,
    out: &mut [u8],
) -> Result<StepRead, Refusal>
    ensures { step_outcome result buffer.new out.new ≡ step_read kept read ended buffer.old out.old }
{
    if buffer.len() < kept || buffer.len() - kept < read {
        return Err(Refusal::ShortMemory);
    }
    let end = kept + read;
    let block = line_block::read_block(&buffer[..end], ended, out)?;
    move_to_front(buffer, block.rest, end);
    Ok(StepRead {
        bytes: block.bytes,
        frames: block.frames,
        kept: end - block.rest,
    })
}

// A step of the listing of a recorded line: document 01, "The listing program". It lists the frames that became certain with the
// bytes read, and takes the end of the input as a silence. What every list of steps from a buffer that keeps nothing writes is
// `blocks-listed` in proofs/ListedBlocks.antt.
ghost use Rattle.std.specs.Prelude.{◌≡◌, ◌*◌, ◌≤◌, length};
ghost use Rattle.laws.specs.Memory.{outcome, over};
ghost use Rattle.frame.specs.EndToEnd.{EndToEnd, cut};
ghost use Rattle.listing.specs.Lines.{lines_of};
ghost use Rattle.listing.specs.Step.{listing_outcome, step_listed};

use crate::write_line;
use frame::delivery::next_end;
use frame::refusal::Refusal;

// What a step of the listing gives: how many bytes of text stand at the front of its buffer, and how many bytes are kept at the front of
// the line's buffer, at most 211.
#[derive(Clone, Copy)]
pub struct StepListed {
    pub text: usize,
    pub kept: usize,
}

// Writes a line for each of the frames, which stand end to end, to the front of the output buffer, and returns how many
// bytes the lines have.
fn write_lines(frames: &[u8], out: &mut [u8]) -> usize
    requires { EndToEnd frames.now × (2 * length frames.now ≤ length out.old) }
    ensures { outcome result out.new ≡ outcome (length (lines_of (cut frames.now))) (over (lines_of (cut frames.now)) out.old) }
{
    // No index loop: the place steps by the length that each frame says it has.
    let mut at = 0;
    let mut used = 0;
    while at < frames.len() {
        let next = next_end(frames, at);
        used += write_line(&frames[at..next], &mut out[used..]);
        at = next;
    }
    used
}

// Reads the first `kept` bytes of the buffer, the rest of the step before, and the `read` bytes behind them as a block of the
// line, and writes a line for each frame that became certain to the front of `text`, by way of `frames`, where the frames stand
// end to end. A step that read no bytes is at the end of the input, which is taken as a silence. Refused with 1 where the
// buffer or `frames` is shorter than these bytes, or `text` than twice these bytes: nothing is listed, and nothing changed. The unfinished rest is moved to the
// front of the buffer; beyond what is written all three stay as they were.
pub fn list_step(
    buffer: &mut [u8],
    kept: usize,
    read: usize,
    frames: &mut [u8],
    text: &mut [u8],
) -> Result<StepListed, Refusal>
    ensures { listing_outcome result buffer.new frames.new text.new ≡ step_listed kept read buffer.old frames.old text.old }
{
    let half = text.len() / 2;
    if half < kept {
        return Err(Refusal::ShortMemory);
    }
    if half - kept < read {
        return Err(Refusal::ShortMemory);
    }
    let step = recording::read_step(buffer, kept, read, read == 0, frames)?;
    let used = write_lines(&frames[..step.bytes], text);
    Ok(StepListed {
        text: used,
        kept: step.kept,
    })
}

// The reading of a block of bytes, straight from a slice: document 01, "Reading of the line", without a receiver. The receiver
// reads so what it keeps, and a recorded line is read so in blocks.
#![tactic(auto)]

mod start;

ghost use Rattle.std.specs.Prelude.{◌≡◌, ◌≤◌, length, Ok};
ghost use Rattle.laws.specs.Memory.{outcome};
ghost use Rattle.line_block.specs.Block.{block_read};

use frame::Recognised;
use frame::refusal::Refusal;

// What the reading of a block gives: how many bytes of how many frames stand at the front of the output buffer, and the place in
// the block where the unfinished rest begins, at most 211 bytes before its end.
#[derive(Clone, Copy)]
pub struct BlockRead {
    pub bytes: usize,
    pub frames: usize,
    pub rest: usize,
}

// Writes the frames of the block end to end to the front of `out`, each copied once. It stops at the first place that may
// still become a frame, or at the end; where the line has ended no place may.
fn drain(block: &[u8], ended: bool, out: &mut [u8]) -> BlockRead
    requires { length block.now ≤ length out.old }
    ensures { outcome (Ok result) out.new ≡ block_read block.now ended out.old }
{
    let mut at = 0;
    let mut written = 0;
    let mut frames = 0;
    // A cursor: it steps by a whole frame, or over a stretch in which none begins.
    while at < block.len() {
        if block[at] != 0x68 {
            at = start::next_start(block, at + 1);
        } else {
            match frame::recognise(&block[at..]) {
                Recognised::Whole(k) => {
                    out[written..written + k].copy_from_slice(&block[at..at + k]);
                    written += k;
                    frames += 1;
                    at += k;
                }
                Recognised::Open if !ended => break,
                Recognised::Open | Recognised::Neither => at += 1,
            }
        }
    }
    BlockRead {
        bytes: written,
        frames,
        rest: at,
    }
}

// Reads a block of a line: the frames certain after it are written end to end to the front of `out`, and beyond
// them `out` stays as it was. Where the line has ended with the block, the end is taken as a silence. An `out` shorter than
// the block is refused with 1: nothing is delivered, and nothing changed.
pub fn read_block(block: &[u8], ended: bool, out: &mut [u8]) -> Result<BlockRead, Refusal>
    ensures { outcome result out.new ≡ block_read block.now ended out.old }
{
    if out.len() < block.len() {
        return Err(Refusal::ShortMemory);
    }
    Ok(drain(block, ended, out))
}

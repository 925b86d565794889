// The line in blocks, each begun with the rest of the one before.
ghost use Rattle.std.specs.Prelude.{◌<◌};

use line_block::BlockRead;
use recording::StepRead;
use run_text::heard::{Delivered, Gathered};

// What a step leaves: how many bytes are kept at the front of the buffer, and what is gathered.
#[derive(Clone, Copy, Default)]
struct Progress {
    kept: usize,
    gathered: Gathered,
}

impl Progress {
    // Reads a part of the line behind what the steps before keep at the front of the buffer; none where the step is refused.
    fn read(self, part: &[u8], ended: bool, block: &mut [u8], out: &mut [u8]) -> Option<Progress> {
        let gathered = self.gathered;
        let n = part.len();
        let room = out.get_mut(gathered.bytes..)?;
        let place = block.get_mut(self.kept..)?.get_mut(..n)?;
        place.copy_from_slice(part);
        let StepRead {
            bytes,
            frames,
            kept,
        } = recording::read_step(block, self.kept, n, ended, room).ok()?;
        Some(Progress {
            kept,
            gathered: gathered.and(Gathered { bytes, frames }),
        })
    }
}

// Reads the line in blocks that bring `size` bytes each. The last bytes come with the end, or the end comes in a call of its own.
pub(crate) fn read_blocks<'a>(
    line: &[u8],
    size: usize,
    with_last: bool,
    out: &'a mut [u8],
) -> Option<Delivered<'a>>
    requires { 0 < size }
{
    let mut block = [0u8; 511];
    let mut progress = Progress::default();
    let mut parts = line.chunks(size);
    let mut last: &[u8] = &[];
    if with_last {
        last = parts.next_back().unwrap_or(&[]);
    }
    for part in parts {
        progress = progress.read(part, false, &mut block, out)?;
    }
    progress = progress.read(last, true, &mut block, out)?;
    progress.gathered.delivered(out)
}

// Reads the line in one block, which ends it, with an output buffer just as long where there is as much; none where the block is
// refused, or leaves something.
pub(crate) fn read_whole<'a>(line: &[u8], out: &'a mut [u8]) -> Option<Delivered<'a>> {
    let n = line.len();
    let BlockRead {
        bytes,
        frames,
        rest,
    } = line_block::read_block(line, true, out.get_mut(..n)?).ok()?;
    if rest != n {
        return None;
    }
    Gathered { bytes, frames }.delivered(out)
}

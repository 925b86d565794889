// Delivers the frames that stand in bytes whose first place cannot become a frame any more.
ghost use Rattle.std.specs.Prelude.{◌≡◌, ◌++◌, ◌∷◌, [], true, false, ◌+◌, ◌≤◌, length, take};
ghost use Rattle.laws.specs.Memory.{over};
ghost use Rattle.frame.specs.Frame.{most_frame};
ghost use Rattle.frame.specs.Recognition.{recognised};
ghost use Rattle.frame.specs.declared.Recognised.TheVariants.{Neither};
ghost use Rattle.line_verdict.specs.Verdict.{most_kept};
ghost use Rattle.line_block.specs.Drain.{reading_from};
ghost use Rattle.line.specs.Rescan.{Rescans};

use frame::{MOST_FRAME, Recognised};
use line_verdict::MOST_KEPT;

// How many bytes are kept, and how many bytes of how many frames were delivered.
#[derive(Clone, Copy)]
pub(crate) struct Rescanned {
    pub count: usize,
    pub bytes: usize,
    pub frames: usize,
}

// Writes the kept bytes and the byte after them to the front of `out`.
pub(crate) fn join(kept: &[u8], b: u8, out: &mut [u8])
    requires { length kept.now + 1 ≤ length out.old }
    ensures { out.new ≡ over (kept.now ++ (b ∷ [])) out.old }
{
    out[..kept.len()].copy_from_slice(kept);
    out[kept.len()] = b;
}

// Reads the first `count` bytes of `kept` and the byte after them, which begin no frame, from the second place on: delivers
// the frames that stand in them, and keeps the unfinished rest. Where those bytes are open, as mostly in a flood of 68, there
// is nothing to deliver, and they are not read. The array and its count come apart, since `Rescans` speaks of the array beyond the
// count too.
pub(crate) fn rescan(kept: &mut [u8; MOST_KEPT], count: usize, b: u8, out: &mut [u8]) -> Rescanned
    requires kept_len { (length kept.old ≡ most_kept) × (count ≤ most_kept) × (most_frame ≤ length out.old) }
    requires b_value { recognised (take count kept.old ++ (b ∷ [])) ≡ Neither }
    ensures { Rescans (reading_from 0 (take count kept.old ++ (b ∷ [])) false) kept.old kept.new out.old out.new result }
{
    let mut line = [0u8; MOST_FRAME];
    join(&kept[..count], b, &mut line);
    let n = count + 1;
    let (bytes, frames, at) = match frame::recognise(&line[1..n]) {
        Recognised::Open => (0, 0, 1),
        _ => match line_block::read_block(&line[1..n], false, out) {
            Err(_) => unreachable!(),
            Ok(read) => (read.bytes, read.frames, read.rest + 1),
        },
    };
    kept[..n - at].copy_from_slice(&line[at..n]);
    Rescanned {
        count: n - at,
        bytes,
        frames,
    }
}

// Delivers the frames that stand in the kept bytes, behind which a silence stands; none of them are kept.
pub(crate) fn drain_at_silence(kept: &[u8], out: &mut [u8]) -> Rescanned
    requires { length kept.now ≤ length out.old }
    ensures { Rescans (reading_from 0 kept.now true) kept.now kept.now out.old out.new result }
{
    match line_block::read_block(kept, true, out) {
        Err(_) => unreachable!(),
        Ok(read) => Rescanned {
            count: 0,
            bytes: read.bytes,
            frames: read.frames,
        },
    }
}

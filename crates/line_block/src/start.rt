// The search for the next place that can begin a frame. Stretches that hold no 68 are passed over many bytes at a time.
ghost use Rattle.std.specs.Prelude.{ℕ, ◌≤◌, ◌<◌, ◌≡◌, ◌≢◌, length, get_or, true};
ghost use Rattle.line_block.specs.Skip.{Passes};

// Whether no 68 stands among the bytes; what is promised is that it never says so wrongly. Every byte is looked at, without a
// way out on the first 68, so that the compiler compares many at once: with `contains` a byte of random input takes 1.23 instructions
// instead of 0.81, and of FE 0.45 instead of 0.25.
fn is_clear(stretch: &[u8]) -> bool
    ensures { result ≡ true → (k : ℕ) → k < length stretch.now → get_or stretch.now k 0 ≢ 0x68 }
{
    let mut clear = true;
    for b in stretch {
        clear &= *b != 0x68;
    }
    clear
}

// The place behind the stretches of `width` bytes that hold no 68, one behind the other from `from` on.
fn pass_clear(line: &[u8], from: usize, width: usize) -> usize
    requires { (from ≤ length line.now) × (1 ≤ width) }
    ensures { Passes line.now from result }
{
    let mut at = from;
    for stretch in line[from..].chunks_exact(width) {
        if !is_clear(stretch) {
            break;
        }
        at += width;
    }
    at
}

// The first place from `from` on where a 68 stands, or the end; what is promised is that no 68 is passed over. A start is mostly
// near, behind wake-up bytes. Where fewer than 16 bytes are left nothing is passed over.
pub(crate) fn next_start(line: &[u8], from: usize) -> usize
    requires { from ≤ length line.now }
    ensures { Passes line.now from result }
{
    let n = line.len();
    if n - from < 16 {
        return from;
    }
    let near = from + 8;
    let at = slice_bytes::find(line, from, near, 0x68);
    if at < near {
        return at;
    }
    let wide = pass_clear(line, at, 128);
    let narrow = pass_clear(line, wide, 16);
    slice_bytes::find(line, narrow, n, 0x68)
}

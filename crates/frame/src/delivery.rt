// The frames of a delivery, which stand end to end, one after another.
ghost use Rattle.std.specs.Prelude.{◌≡◌};
ghost use Rattle.frame.specs.EndToEnd.{next_end};

// The end of the frame that begins at `at`, as its data length says it, or of the bytes where they are too few for it.
pub fn next_end(bytes: &[u8], at: usize) -> usize
    ensures { result ≡ next_end bytes.now at }
{
    match bytes.get(at..) {
        Some(rest) if 10 <= rest.len() => bytes.len().min(at + 12 + rest[9] as usize),
        _ => bytes.len(),
    }
}

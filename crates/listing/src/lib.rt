// The line that the listing program of document 01 writes for a frame: the address high byte first, the control code and
// the unmasked data, in capital hexadecimal digits.
#![tactic(auto)]

pub mod step;

ghost use Rattle.std.specs.Prelude.{◌≡◌, ℕ, map, ◌∷◌, ◌++◌, [], ◌+◌, ◌*◌, ◌≤◌, ◌<◌, length};
ghost use Rattle.std.proofs.lemmas.List.Edits.{sets};
ghost use Rattle.frame.specs.Frame.{length_of};
ghost use Rattle.laws.specs.Memory.{outcome, over};
ghost use Rattle.listing.specs.Text.{Spans, digit, hex_of, hex_all, head_of, tail_of, text_of, text_length, listing};

// Why a frame is not listed; the output buffer stays as it was.
#[derive(Clone, Copy)]
pub enum ListError {
    // The bytes are not exactly one frame.
    NotAFrame,
    // An output buffer shorter than the text.
    TooLittleMemory,
}

// The capital hexadecimal digit of a half byte.
#[tactic(auto, unfolding(crate::specs::Text::digit))]
fn hex_digit(half: u8) -> u8
    requires { half < 16 }
    ensures { result ≡ digit half }
{
    match half {
        0..=9 => b'0' + half,
        _ => b'A' - 10 + half,
    }
}

// The two digits of a byte, high half first, from place `at` on.
#[tactic(auto, unfolding(crate::specs::Text::hex_of))]
fn write_byte(b: u8, at: usize, out: &mut [u8])
    requires { at + 2 ≤ length out.old }
    ensures { out.new ≡ sets out.old at (hex_of b) }
{
    out[at] = hex_digit(b / 16);
    out[at + 1] = hex_digit(b % 16);
}

// The digits of bytes, each through a function, from place `start` on.
fn write_digits<F: Fn(u8) -> u8>(bytes: &[u8], through: F, start: usize, out: &mut [u8])
    requires room { start + 2 * length bytes.now ≤ length out.old }
    requires callable { F.IsAlwaysCallable through }
    ensures { (f : ℕ → ℕ) → ((b r : ℕ) → F.post through b r → r ≡ f b) → out.new ≡ sets out.old start (hex_all (map f bytes.now)) }
{
    // By place, since no proof knows behind a loop what was written through `chunks_exact_mut`.
    for (i, b) in bytes.iter().enumerate() {
        write_byte(through(*b), start + 2 * i, out);
    }
}

// The address, a blank and the control code of a frame, at the front of the output buffer.
fn write_head(frame: &[u8], out: &mut [u8])
    requires { Spans frame.now × (15 ≤ length out.old) }
    ensures { out.new ≡ sets out.old 0 (head_of frame.now) }
{
    let mut address = frame_parts::address_of(frame);
    address.reverse();
    write_digits(&address, |b| b, 0, out);
    out[12] = b' ';
    write_byte(frame[8], 13, out);
}

// What stands behind the control code: a blank and the data where there are any, and the newline. It returns the length of
// the whole text.
fn write_tail(frame: &[u8], out: &mut [u8]) -> usize
    requires { Spans frame.now × (text_length (length_of frame.now) ≤ length out.old) }
    ensures { (result ≡ text_length (length_of frame.now)) × (out.new ≡ sets out.old 15 (tail_of frame.now ++ (0x0A ∷ []))) }
{
    let count = frame[9] as usize;
    if count == 0 {
        out[15] = b'\n';
        return 16;
    }
    let end = 10 + count;
    out[15] = b' ';
    write_digits(&frame[10..end], frame_parts::unmask, 16, out);
    let last = 16 + 2 * count;
    out[last] = b'\n';
    last + 1
}

// The length of the text of a frame with so many data bytes, its newline among it.
#[tactic(auto, unfolding(crate::specs::Text::text_length))]
fn text_length(data_length: u8) -> usize
    ensures { result ≡ text_length data_length }
{
    match data_length {
        0 => 16,
        _ => 17 + 2 * data_length as usize,
    }
}

// Writes the line of a frame, with its newline, to the front of the output buffer, and returns how many bytes it has.
pub(crate) fn write_line(frame: &[u8], out: &mut [u8]) -> usize
    requires { Spans frame.now × (text_length (length_of frame.now) ≤ length out.old) }
    ensures { (result ≡ length (text_of frame.now)) × (out.new ≡ over (text_of frame.now) out.old) }
{
    write_head(frame, out);
    write_tail(frame, out)
}

// Lists bytes that have to be exactly one frame: writes its line to the front of the output buffer, and answers the length of that text,
// its newline among it.
pub fn list_frame(frame: &[u8], out: &mut [u8]) -> Result<usize, ListError>
    ensures { outcome result out.new ≡ listing frame.now out.old }
{
    if !frame::is_frame(frame) {
        return Err(ListError::NotAFrame);
    }
    let n = text_length(frame[9]);
    if out.len() < n {
        return Err(ListError::TooLittleMemory);
    }
    write_line(frame, out);
    Ok(n)
}

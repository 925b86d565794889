// A vector: `NAME: SYMBOLS > EXPECTED / COUNT`. The symbols are bytes in hexadecimal, or -- for a silence, each after a
// blank; expected are the bytes that all calls together hand on, and the number of frames that they report.
use run_text::heard::{Delivered, hear_text};
use run_text::read::{read_bytes, read_exactly};

// What stands before the first byte of a value, and what stands behind it.
pub fn split_at_byte(text: &[u8], byte: u8) -> Option<(&[u8], &[u8])> {
    let place = text.iter().position(|b| *b == byte)?;
    let (before, behind) = text.split_at(place);
    let (_, behind) = behind.split_first()?;
    Some((before, behind))
}

// The bytes, which go to the front of the buffer, and the number of frames that are expected.
fn expected<'a>(bytes: &[u8], count: &[u8], buffer: &'a mut [u8]) -> Option<Delivered<'a>> {
    let [frames] = read_exactly::<1>(count, u32::MAX)?;
    let bytes = read_bytes(bytes, buffer)?;
    let frames = frames as usize;
    Some(Delivered { bytes, frames })
}

// Whether a fresh receiver hands on exactly the bytes expected, in as many frames; none where the text behind the name has not
// the three parts, or a symbol is refused.
pub fn run(vector: &[u8]) -> Option<bool> {
    let (symbols, behind) = split_at_byte(vector, b'>')?;
    let (bytes, count) = split_at_byte(behind, b'/')?;
    let mut buffer = [0u8; 4096];
    let expected = expected(bytes, count, &mut buffer)?;
    let mut out = [0u8; 4096];
    let heard = hear_text(symbols, &mut out)?;
    Some(heard == expected)
}

// What stands behind the word of a call: bytes in hexadecimal, or a place and a byte.
#![tactic(auto)]

use run_text::read::{byte_of, read_bytes, read_exactly};

// The bytes of the text, which go to the front of the buffer, with no character behind the last.
pub fn bytes_of<'a>(text: &[u8], buffer: &'a mut [u8]) -> Option<&'a [u8]> {
    if text.len() % 3 != 0 {
        return None;
    }
    read_bytes(text, buffer)
}

// The bytes of an address.
pub fn six_of(bytes: &[u8]) -> Option<[u8; 6]> {
    bytes.as_array().copied()
}

// PLACE HH
pub fn place_and_byte(text: &[u8]) -> Option<(u32, u8)> {
    let (place, byte) = text.split_last_chunk::<3>()?;
    let [b' ', high, low] = *byte else {
        return None;
    };
    let [place] = read_exactly::<1>(place, u32::MAX)?;
    let byte = byte_of(high, low)?;
    Some((place, byte))
}

// Frames of DL/T 645-2007, as document 01, "A frame", has them: the checksum, and the recognition of bytes as a frame. Nothing here
// looks at what a control code or an address means.
#![tactic(auto)]

pub mod delivery;
pub mod refusal;

ghost use Rattle.std.specs.Prelude.{◌≡◌, ◌+◌, ◌%◌, ◌<◌, length};
ghost use Rattle.frame.specs.Frame.{total, checksum_of};
ghost use Rattle.frame.specs.Recognition.{recognised, recognised_body, exactly_one};

// How many bytes the longest frame has.
pub const MOST_FRAME: usize = 212;

// What a slice of bytes begins with.
#[derive(Clone, Copy)]
pub enum Recognised {
    // A whole frame of so many bytes.
    Whole(usize),
    // Nothing whole, but all the bytes together are a proper beginning of a frame; no bytes are one.
    Open,
    // Bytes that begin no frame.
    Neither,
}

// A sum gone on with the sum of the bytes, wrapping at 256.
fn gone_on(sum: u8, bytes: &[u8]) -> u8
    ensures { result ≡ (sum + total bytes.now) % 256 }
{
    bytes.iter().fold(sum, |sum, b| sum.wrapping_add(*b))
}

// A sum gone on with at most three bytes, wrapping at 256.
#[tactic(auto, unfolding(crate::specs::Frame::total))]
fn with_odd(sum: u8, odd: &[u8]) -> u8
    requires { length odd.now < 4 }
    ensures { result ≡ (sum + total odd.now) % 256 }
{
    match odd {
        [] => sum,
        [first] => sum.wrapping_add(*first),
        [first, second] => sum.wrapping_add(*first).wrapping_add(*second),
        [first, second, third, ..] => sum
            .wrapping_add(*first)
            .wrapping_add(*second)
            .wrapping_add(*third),
    }
}

// The sum of the bytes, wrapping at 256: four bytes a turn, as document 02, W2, asks, then the odd ones, at most three. A function by
// itself also when compiled: most places are given up before their checksum is summed, and those tests take less without it.
#[inline(never)]
pub fn checksum(bytes: &[u8]) -> u8
    ensures { result ≡ checksum_of bytes.now }
{
    let in_fours = bytes.len() / 4 * 4;
    let mut sum = 0;
    for four in bytes[..in_fours].chunks_exact(4) {
        sum = gone_on(sum, four);
    }
    with_odd(sum, &bytes[in_fours..])
}

// What the bytes begin with, given up at the first byte that no frame has there. Where a last byte is there it is looked
// at before the checksum is summed; either ends the place.
#[tactic(auto, unfolding(crate::specs::Recognition::recognised))]
pub fn recognise(bytes: &[u8]) -> Recognised
    ensures { result ≡ recognised bytes.now }
{
    let n = bytes.len();
    if n == 0 {
        return Recognised::Open;
    }
    if bytes[0] != 0x68 {
        return Recognised::Neither;
    }
    if n <= 7 {
        return Recognised::Open;
    }
    if bytes[7] != 0x68 {
        return Recognised::Neither;
    }
    recognise_body(bytes)
}

// The rest of `recognise`, from the data length on.
#[tactic(auto, unfolding(crate::specs::Recognition::recognised_body, crate::specs::Recognition::recognised_end, crate::specs::Frame::length_of))]
fn recognise_body(bytes: &[u8]) -> Recognised
    ensures { result ≡ recognised_body bytes.now }
{
    let n = bytes.len();
    if n <= 9 {
        return Recognised::Open;
    }
    let data_length = bytes[9];
    if data_length > 200 {
        return Recognised::Neither;
    }
    let end = 10 + data_length as usize;
    if n <= end {
        return Recognised::Open;
    }
    if end + 1 < n {
        if bytes[end + 1] != 0x16 {
            return Recognised::Neither;
        }
    }
    let sum = checksum(&bytes[..end]);
    let sent = bytes[end];
    if sum != sent {
        return Recognised::Neither;
    }
    if n <= end + 1 {
        return Recognised::Open;
    }
    Recognised::Whole(end + 2)
}

// Whether the bytes are exactly one frame.
#[tactic(auto, unfolding(crate::specs::Recognition::exactly_one, crate::specs::Recognition::is_all))]
pub fn is_frame(bytes: &[u8]) -> bool
    ensures { result ≡ exactly_one bytes.now }
{
    matches!(recognise(bytes), Recognised::Whole(n) if n == bytes.len())
}

// What the kept bytes and the byte heard next come to. One pass over the kept bytes both checks that they are a proper
// beginning of a frame and gives the verdict.
#![tactic(auto)]

ghost use Rattle.std.specs.Prelude.{◌≡◌, ◌≤◌, ◌<◌, length, get_or};
ghost use Rattle.line_verdict.specs.Verdict.{most_kept, within_range, judged, verdict_on, Headed};

use frame::{MOST_FRAME, Recognised};

// How many bytes are kept at most: all of the longest frame but its last.
pub const MOST_KEPT: usize = 211;

// The verdict on the kept bytes and the byte after them.
#[derive(Clone, Copy)]
pub enum Verdict {
    // The kept bytes are not a proper beginning of a frame.
    Bad,
    // They are, and the output buffer is too short.
    Short,
    // Nothing is kept, and the byte begins no frame.
    Skips,
    // With the byte they still are a proper beginning.
    StillOpen,
    // With the byte they are a whole frame.
    Whole,
    // With the byte they begin no frame.
    BeginsNone,
}

// The verdict on the kept bytes and the byte after them, where the output buffer is not looked at.
#[tactic(auto, using(crate::proofs::KeptLaws::at_head))]
fn judge(kept: &[u8], b: u8) -> Verdict
    requires { length kept.now ≤ most_kept }
    ensures { result ≡ judged kept.now (length kept.now) b }
{
    match kept.len() {
        0 if b == 0x68 => Verdict::StillOpen,
        0 => Verdict::Skips,
        _ if kept[0] != 0x68 => Verdict::Bad,
        1..=6 => Verdict::StillOpen,
        7 if b == 0x68 => Verdict::StillOpen,
        7 => Verdict::BeginsNone,
        _ if kept[7] != 0x68 => Verdict::Bad,
        8 => Verdict::StillOpen,
        9 if b <= 200 => Verdict::StillOpen,
        9 => Verdict::BeginsNone,
        _ => judge_body(kept, b),
    }
}

// The verdict where the data length is kept, and both start delimiters before it.
#[tactic(auto, using(crate::proofs::KeptLaws::at_body))]
fn judge_body(kept: &[u8], b: u8) -> Verdict
    requires kept_len { (9 < length kept.now) × (length kept.now ≤ most_kept) }
    requires kept_value { (get_or kept.now 0 0 ≡ 0x68) × (get_or kept.now 7 0 ≡ 0x68) }
    ensures { result ≡ judged kept.now (length kept.now) b }
{
    let data_length = kept[9];
    if data_length > 200 {
        return Verdict::Bad;
    }
    let end = 10 + data_length as usize;
    if kept.len() < end {
        return Verdict::StillOpen;
    }
    let (body, rest) = kept.split_at(end);
    match *rest {
        [] if b == frame::checksum(body) => Verdict::StillOpen,
        [] => Verdict::BeginsNone,
        [sum] if sum != frame::checksum(body) => Verdict::Bad,
        [_] if b == 0x16 => Verdict::Whole,
        [_] => Verdict::BeginsNone,
        _ => Verdict::Bad,
    }
}

// The verdict on the first `count` bytes of `kept` and the byte after them, with `room` bytes of output buffer.
#[tactic(auto, using(crate::proofs::KeptLaws::judged_part, crate::specs::VerdictLaws::many_without, crate::specs::VerdictOnLaws::verdict_on_bad), unfolding(crate::specs::Verdict::judged, crate::specs::Verdict::verdict_on))]
pub fn verdict_on(kept: &[u8; MOST_KEPT], count: usize, b: u8, room: usize) -> Verdict
    ensures { result ≡ verdict_on kept.now count b room }
{
    let Some(heard) = kept.get(..count) else {
        return Verdict::Bad;
    };
    match judge(heard, b) {
        Verdict::Bad => Verdict::Bad,
        _ if room < MOST_FRAME => Verdict::Short,
        verdict => verdict,
    }
}

// Whether the first `count` bytes of `kept` are a proper beginning of a frame.
#[tactic(auto, unfolding(crate::specs::Verdict::within_range))]
pub fn within_range(kept: &[u8; MOST_KEPT], count: usize) -> bool
    ensures { result ≡ within_range kept.now count }
{
    let Some(heard) = kept.get(..count) else {
        return false;
    };
    matches!(frame::recognise(heard), Recognised::Open)
}

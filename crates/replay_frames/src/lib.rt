// The frames of a delivery put to a meter: document 02, W1, "sends each frame handed on to the meter, and lists each reply as the listing
// program does". Each frame goes to the meter that the last one left.
#![tactic(auto)]

ghost use Rattle.std.specs.Prelude.{◌≡◌, ◌*◌, ◌≤◌, length};
ghost use Rattle.laws.specs.Memory.{outcome};
ghost use Rattle.replay_frames.specs.Putting.{refused_put, one_put, frames_put};

use energy::Energies;
use frame::MOST_FRAME;
use frame::delivery::next_end;
use frame::refusal::Refusal;
use meter::Meter;

// How many bytes of text a byte of a frame can come to: a reply has at most 212 bytes, its line at most 417, and a frame at least 12.
pub const TEXT_OF_A_FRAME_BYTE: usize = 35;

// How many bytes of text, and how many lines, stand at the front of the output buffer.
#[derive(Clone, Copy)]
pub struct LinesPut {
    pub text: usize,
    pub lines: usize,
}

// The meter after the frames, with the answer. With a refusal no frame was put, and nothing changed.
#[derive(Clone, Copy)]
pub struct FramesPut {
    pub meter: Meter,
    pub answer: Result<LinesPut, Refusal>,
}

// The meter after one frame, and the bytes and the number of the lines written for it.
#[derive(Clone, Copy)]
struct OnePut {
    meter: Meter,
    text: usize,
    lines: usize,
}

// A refusal: the meter as it was.
fn refused(meter: Meter, refusal: Refusal) -> FramesPut
    ensures { result ≡ refused_put refusal meter }
{
    FramesPut {
        meter,
        answer: Err(refusal),
    }
}

// One frame put to a meter: the line of its reply, where there is one, is written to the front of the output buffer.
fn put_frame(meter: Meter, energies: Energies, frame: &[u8], out: &mut [u8]) -> OnePut
    requires { 35 * length frame.now ≤ length out.old }
    ensures { outcome result out.new ≡ one_put frame.now meter energies.forward energies.reverse out.old }
{
    let mut reply = [0u8; MOST_FRAME];
    let answered = meter.answer(energies, frame, &mut reply);
    let after = answered.meter;
    let answer = answered.answer;
    match answer {
        Err(_) => OnePut {
            meter: after,
            text: 0,
            lines: 0,
        },
        Ok(n) => {
            let Ok(text) = listing::list_frame(&reply[..n], out) else {
                return OnePut {
                    meter: after,
                    text: 0,
                    lines: 0,
                };
            };
            OnePut {
                meter: after,
                text,
                lines: 1,
            }
        }
    }
}

// Puts frames that stand end to end to a meter, in order, each to the meter that the last one left, and writes a line for each reply to the
// front of the output buffer, which stays as it was beyond them. Refused with 16, then with 1 under 35 bytes of memory for each byte of
// the frames. Bytes that are no frame get no reply.
pub fn put_frames(meter: Meter, energies: Energies, frames: &[u8], out: &mut [u8]) -> FramesPut
    ensures { outcome result out.new ≡ frames_put frames.now meter energies out.old }
{
    if !meter.is_within_ranges(energies) {
        return refused(meter, Refusal::OutOfRange);
    }
    if out.len() / TEXT_OF_A_FRAME_BYTE < frames.len() {
        return refused(meter, Refusal::ShortMemory);
    }
    let mut present = meter;
    let mut at = 0;
    let mut used = 0;
    let mut lines = 0;
    // The place goes on by a frame's length, which stands in the frame: no loop over an index, and no chunks of one size.
    while at < frames.len() {
        let next = next_end(frames, at);
        let put = put_frame(present, energies, &frames[at..next], &mut out[used..]);
        present = put.meter;
        used += put.text;
        lines += put.lines;
        at = next;
    }
    FramesPut {
        meter: present,
        answer: Ok(LinesPut { text: used, lines }),
    }
}

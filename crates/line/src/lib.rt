// The receiver of the line: document 01, "Reading of the line". It takes one symbol a call, a byte or a silence, and delivers
// the frames that became certain with it. Demand 3 of the letter is `demand_3` in proofs/Demand3.antt.
#![tactic(auto)]

mod drain;

ghost use Rattle.std.specs.Prelude.{◌≡◌};
ghost use Rattle.laws.specs.Memory.{outcome};
ghost use Rattle.line_terms.specs.Line.{byte, silence};
ghost use Rattle.line.specs.Receiver.{fresh, called};

use frame::MOST_FRAME;
use frame::refusal::Refusal;
use line_verdict::{MOST_KEPT, Verdict};

// A receiver: the first `count` bytes of `kept` are an unfinished frame. The array beyond them is never looked at.
#[derive(Clone, Copy)]
pub struct Receiver {
    pub kept: [u8; MOST_KEPT],
    pub count: usize,
}

// What a call delivers: how many bytes of how many frames stand at the front of the output buffer.
#[derive(Clone, Copy)]
pub struct Delivered {
    pub bytes: usize,
    pub frames: usize,
}

// The receiver after a call, with the call's answer. With a refusal nothing is delivered, and nothing changed.
#[derive(Clone, Copy)]
pub struct Received {
    pub receiver: Receiver,
    pub answer: Result<Delivered, Refusal>,
}

impl Receiver {
    // A receiver that has heard nothing.
    #[tactic(auto, unfolding(crate::specs::Receiver::fresh))]
    pub fn new() -> Self
        ensures { result ≡ fresh }
    {
        Receiver {
            kept: [0u8; MOST_KEPT],
            count: 0,
        }
    }

    // Receives a byte. Refused with 16, then with 1, as document 01 says; the frames that became certain are written end to
    // end to the front of `out`, and beyond them `out` and the array of kept bytes stay as they were.
    pub fn byte(mut self, b: u8, out: &mut [u8]) -> Received
        ensures { outcome result out.new ≡ called (byte b) self out.old }
    {
        let count = self.count;
        let answer = match line_verdict::verdict_on(&self.kept, count, b, out.len()) {
            Verdict::Bad => Err(Refusal::OutOfRange),
            Verdict::Short => Err(Refusal::ShortMemory),
            Verdict::Skips => Ok(Delivered {
                bytes: 0,
                frames: 0,
            }),
            Verdict::StillOpen => {
                self.kept[count] = b;
                self.count = count + 1;
                Ok(Delivered {
                    bytes: 0,
                    frames: 0,
                })
            }
            Verdict::Whole => {
                drain::join(&self.kept[..count], b, out);
                self.count = 0;
                Ok(Delivered {
                    bytes: count + 1,
                    frames: 1,
                })
            }
            Verdict::BeginsNone => {
                let s = drain::rescan(&mut self.kept, count, b, out);
                self.count = s.count;
                Ok(Delivered {
                    bytes: s.bytes,
                    frames: s.frames,
                })
            }
        };
        Received {
            receiver: self,
            answer,
        }
    }

    // Receives a silence: nothing stays kept, and the frames that stand in what was kept are delivered. Refusals as for a byte.
    pub fn silence(self, out: &mut [u8]) -> Received
        ensures { outcome result out.new ≡ called silence self out.old }
    {
        let count = self.count;
        if !line_verdict::within_range(&self.kept, count) {
            return Received {
                receiver: self,
                answer: Err(Refusal::OutOfRange),
            };
        }
        if out.len() < MOST_FRAME {
            return Received {
                receiver: self,
                answer: Err(Refusal::ShortMemory),
            };
        }
        let d = drain::drain_at_silence(&self.kept[..count], out);
        Received {
            receiver: Receiver { count: 0, ..self },
            answer: Ok(Delivered {
                bytes: d.bytes,
                frames: d.frames,
            }),
        }
    }
}

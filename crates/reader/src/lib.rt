// The reader's end of DL/T 645-2007: document 01, "The reader's end". One request value is built into bytes for the line, and
// a reply is judged against the same value.
#![tactic(auto)]

mod build;

ghost use Rattle.std.specs.Prelude.{◌≡◌, drop};
ghost use Rattle.laws.specs.Memory.{outcome};
ghost use Rattle.reader.specs.Allowed.{is_allowed};
ghost use Rattle.reader.specs.Building.{built};
ghost use Rattle.reader.specs.Judging.{is_judged, Fits, written, judged};

use build::{sent_to, write_request};
use frame::refusal::Refusal;
use frame_parts::{address_of, unmask_data};
use item_command::Command;
use reader_allowed::{MOST_VALUE, admit};
use reader_judgement::{Action, Reply, is_answer, judge_data, value_start};

// The least memory for a request to be built in.
pub const REQUEST_MEMORY: usize = 66;
// The least memory for the value of a reply.
pub const VALUE_MEMORY: usize = 196;

// A request. What its action does not use is ignored.
#[derive(Clone, Copy)]
pub struct Request {
    pub action: Action,
    // A good address, or a short one for a read of data.
    pub address: [u8; 6],
    // DI3 highest.
    pub identifier: u32,
    pub level: u8,
    pub password: [u8; 3],
    pub operator: [u8; 4],
    // The value to be written is the first `count` of these bytes.
    pub value: [u8; MOST_VALUE],
    pub count: usize,
}

// Writes the value of a good reply to the front of the output buffer.
fn deliver(
    decided: Result<Reply, Refusal>,
    start: usize,
    payload: &[u8],
    out: &mut [u8],
) -> Result<Reply, Refusal>
    requires { Fits decided start payload.now out.old }
    ensures { outcome result out.new ≡ outcome decided (written decided (drop start payload.now) out.old) }
{
    match decided {
        Ok(Reply::Value(n)) => {
            slice_bytes::copy(&payload[start..], out);
            Ok(Reply::Value(n))
        }
        Ok(Reply::Error(byte)) => Ok(Reply::Error(byte)),
        Err(refusal) => Err(refusal),
    }
}

impl Request {
    // Whether the request is allowed.
    #[tactic(auto, unfolding(crate::specs::Allowed::is_allowed))]
    fn is_allowed(self) -> bool
        ensures { result ≡ is_allowed self }
    {
        let admission = admit(
            self.action,
            self.address,
            self.identifier,
            self.level,
            self.value,
            self.count,
        );
        admission.is_ok()
    }

    // Whether a reply to this request is judged: the request is allowed, and answered by one reply.
    #[tactic(auto, unfolding(crate::specs::Judging::is_judged))]
    fn is_judged(self) -> bool
        ensures { result ≡ is_judged self }
    {
        self.is_allowed()
    }

    // Writes the request, with four FE in front, to the front of the output buffer, which stays as it was beyond it, and
    // answers its length, wake-up bytes included. Refused with 1 under 66 bytes, then with 5.
    #[tactic(auto, unfolding(crate::specs::Building::built, crate::specs::Allowed::is_allowed))]
    pub fn build(self, out: &mut [u8]) -> Result<usize, Refusal>
        ensures { outcome result out.new ≡ built self out.old }
    {
        if out.len() < REQUEST_MEMORY {
            return Err(Refusal::ShortMemory);
        }
        if !self.is_allowed() {
            return Err(Refusal::NotAllowed);
        }
        let address = sent_to(self.action, self.address);
        let control = u8::from(Command::from(self.action));
        Ok(write_request(address, control, self, out))
    }

    // Judges a reply to the request: its value goes to the front of the output buffer, which stays as it was beyond it.
    // Refused with 1 under 196 bytes, 5, 2, and then with 6, 7, 6, 7, as document 01 says.
    #[tactic(auto, unfolding(crate::specs::Judging::judged, crate::specs::Judging::judgement_of, crate::specs::Judging::call_checks, crate::specs::Judging::frame_checks, crate::specs::Judging::is_answer, laws::specs::Checks::first_failing))]
    pub fn judge(self, bytes: &[u8], out: &mut [u8]) -> Result<Reply, Refusal>
        ensures { outcome result out.new ≡ judged self bytes.now out.old }
    {
        if out.len() < VALUE_MEMORY {
            return Err(Refusal::ShortMemory);
        }
        if !self.is_judged() {
            return Err(Refusal::NotAllowed);
        }
        if !frame::is_frame(bytes) {
            return Err(Refusal::NotOneFrame);
        }
        let control = bytes[8];
        let from = address_of(bytes);
        if !is_answer(self.action, self.address, control, from) {
            return Err(Refusal::NotAnAnswer);
        }
        let mut payload = [0u8; 200];
        let length = unmask_data(bytes, &mut payload);
        let data_field = &payload[..length];
        let decided = judge_data(self.action, self.identifier, control, from, data_field);
        deliver(decided, value_start(self.action), data_field, out)
    }
}

// The answer to a frame: whom it is for, then what is decided by control, carried out and replied.
ghost use Rattle.std.specs.Prelude.{◌≡◌, true, ◌≤◌, ◌++◌, length, take, Ok, Err};
ghost use Rattle.laws.specs.Memory.{outcome, over};
ghost use Rattle.laws.specs.ChecksLaws.{AllHold};
ghost use Rattle.frame.specs.Recognition.{exactly_one};
ghost use Rattle.item_identifier.specs.Identifier.{identifier_of};
ghost use Rattle.meter_decision.specs.Decision.{checks_of};
ghost use Rattle.meter.specs.Meter.{untouched};
ghost use Rattle.meter.specs.Answer.{replies, value_asked, reply_data, carried_out, treated, answered_with, delivered};
ghost use Rattle.frame.specs.Frame.{most_frame};

use crate::change::{readdressed, untouched, with_password, written};
use crate::{Answered, Meter};
use energy::Energies;
use frame::refusal::Refusal;
use frame_parts::{address_of, unmask_data, write_frame, write_frame_in_place};
use item_command::reply::reply_to;
use item_command::{Command, command_of, is_addressed};
use meter_decision::{Decision, decide};
use meter_holding::{HeldError, write_value};

// A refusal: the meter as it was.
pub(crate) fn refused(meter: Meter, refusal: Refusal) -> Answered
    ensures { result ≡ answered_with meter (Err refusal) }
{
    Answered {
        meter,
        answer: Err(refusal),
    }
}

// A reply from the meter as it then is: its frame is written to the front of the output buffer.
fn reply(after: Meter, control: u8, payload: &[u8], out: &mut [u8]) -> Answered
    requires { (length payload.now ≤ 200) × (most_frame ≤ length out.old) }
    ensures { outcome result out.new ≡ delivered (replies control payload.now after) after out.old }
{
    let Ok(n) = write_frame(after.address, control, payload, out) else {
        return refused(after, Refusal::ShortMemory);
    };
    Answered {
        meter: after,
        answer: Ok(n),
    }
}

// A meter that a frame came to, with its readings, which are lent.
#[derive(Clone, Copy)]
pub(crate) struct Answering<'a> {
    pub meter: Meter,
    pub energies: &'a Energies,
}

impl Answering<'_> {
    // Puts the data of the reply to 11, the identifier and the value, at their place in the output buffer, and answers the value's length.
    fn place_value(
        self,
        identifier: u32,
        payload: &[u8],
        out: &mut [u8],
    ) -> Result<usize, HeldError>
        requires identifier_value { (identifier ≡ identifier_of payload.now) × (most_frame ≤ length out.old) }
        requires all_hold { AllHold (checks_of Command.ReadData payload.now self.meter.key self.meter.passwords) }
        ensures { outcome result out.new ≡ outcome (Ok (length (value_asked payload.now self.entry.meter self.entry.energies.now.forward self.entry.energies.now.reverse))) (over (take 10 out.old ++ reply_data Command.ReadData payload.now self.entry.meter (value_asked payload.now self.entry.meter self.entry.energies.now.forward self.entry.energies.now.reverse)) out.old) }
    {
        out[10..14].copy_from_slice(&payload[..4]);
        write_value(
            identifier,
            self.meter.address,
            self.meter.registers,
            self.energies,
            &mut out[14..],
        )
    }

    // The reply to 11: the identifier and the value.
    fn reply_value(self, control: u8, identifier: u32, payload: &[u8], out: &mut [u8]) -> Answered
        requires identifier_value { (identifier ≡ identifier_of payload.now) × (most_frame ≤ length out.old) }
        requires all_hold { AllHold (checks_of Command.ReadData payload.now self.meter.key self.meter.passwords) }
        ensures { outcome result out.new ≡ delivered (replies control (reply_data Command.ReadData payload.now self.entry.meter (value_asked payload.now self.entry.meter self.entry.energies.now.forward self.entry.energies.now.reverse)) (untouched self.entry.meter)) self.entry.meter out.old }
    {
        let Ok(length) = self.place_value(identifier, payload, out) else {
            return refused(self.meter, Refusal::ShortMemory);
        };
        let Ok(n) = write_frame_in_place(self.meter.address, control, 4 + length, out) else {
            return refused(self.meter, Refusal::ShortMemory);
        };
        Answered {
            meter: untouched(self.meter),
            answer: Ok(n),
        }
    }

    // A command carried out: what is decided is replied, with the meter as the command leaves it.
    fn carry_out(self, command: Command, payload: &[u8], out: &mut [u8]) -> Answered
        requires { most_frame ≤ length out.old }
        ensures { outcome result out.new ≡ delivered (carried_out command payload.now self.entry.meter (value_asked payload.now self.entry.meter self.entry.energies.now.forward self.entry.energies.now.reverse)) self.entry.meter out.old }
    {
        let meter = self.meter;
        let control = u8::from(command);
        let normal = reply_to(control, false);
        let decision = decide(command, payload, meter.key, meter.passwords);
        match decision {
            Decision::Silent(refusal) => refused(meter, refusal),
            Decision::Error(byte) => reply(untouched(meter), reply_to(control, true), &[byte], out),
            Decision::Read(identifier) => self.reply_value(normal, identifier, payload, out),
            Decision::OwnAddress => reply(untouched(meter), normal, &meter.address, out),
            Decision::Write(identifier) => {
                reply(written(meter, identifier, payload), normal, &[], out)
            }
            Decision::NewAddress => reply(readdressed(meter, payload), normal, &[], out),
            Decision::NewPassword(level) => {
                let after = with_password(meter, level, &payload[9..12]);
                reply(after, normal, &payload[8..12], out)
            }
        }
    }

    // What a frame comes to: checks 3 and 4, then by control.
    pub(crate) fn treat(self, bytes: &[u8], out: &mut [u8]) -> Answered
        requires { (exactly_one bytes.now ≡ true) × (most_frame ≤ length out.old) }
        ensures { outcome result out.new ≡ delivered (treated bytes.now self.entry.meter self.entry.energies.now.forward self.entry.energies.now.reverse) self.entry.meter out.old }
    {
        let Some(command) = command_of(bytes[8]) else {
            return refused(self.meter, Refusal::NotForThisMeter);
        };
        if !is_addressed(command, address_of(bytes), self.meter.address) {
            return refused(self.meter, Refusal::NotForThisMeter);
        }
        let mut payload = [0u8; 200];
        let length = unmask_data(bytes, &mut payload);
        self.carry_out(command, &payload[..length], out)
    }
}

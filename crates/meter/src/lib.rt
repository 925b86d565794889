// A meter of DL/T 645-2007: document 01, "What the meter holds" and "How the meter treats a frame". Every operation takes the
// meter and both directions' readings by value, refuses with 16 what is outside document 01's ranges before anything else, and
// hands the meter back, with the readings where it counts in them.
#![tactic(auto)]

mod answer;
mod change;

ghost use Rattle.std.specs.Prelude.{◌≡◌};
ghost use Rattle.laws.specs.Memory.{outcome};
ghost use Rattle.meter.specs.Meter.{within_ranges};
ghost use Rattle.meter.specs.Host.{created, key_set, counted_with, pulsed_by, settled_by};
ghost use Rattle.meter.specs.Answer.{answered};

use answer::{Answering, refused};
use energy::{Energies, rows};
use frame::MOST_FRAME;
use frame::refusal::Refusal;
use item_address::is_good;
use meter_counting::CountedReadings;
use meter_holding::{fresh_registers, within_ranges};

// What a meter holds besides its readings; laid out as C has it, for `call_ends`.
#[repr(C)]
#[derive(Clone, Copy)]
pub struct Meter {
    pub address: [u8; 6],
    // The programming key is on.
    pub key: bool,
    // Ten passwords of three bytes, levels 0 to 9.
    pub passwords: [u8; 30],
    // The last operator code.
    pub operator: [u8; 4],
    // Date, time, demand period, slip, meter number and three settlement days, at the places that `meter_holding` gives them.
    pub registers: [u8; 21],
}

// A fresh meter with its readings. With a refusal there is no meter: what comes back has the bad address, and every
// operation refuses it with 16.
#[derive(Clone, Copy)]
pub struct Created {
    pub meter: Meter,
    pub energies: Energies,
    pub answer: Result<(), Refusal>,
}

// The meter after its key was set.
#[derive(Clone, Copy)]
pub struct KeySet {
    pub meter: Meter,
    pub answer: Result<(), Refusal>,
}

// The meter and its readings after a pulse or a settlement. The answer stands between the two: side by side they are copied as one, and the
// readings once more.
#[derive(Clone, Copy)]
pub struct Counted {
    pub meter: Meter,
    pub answer: Result<(), Refusal>,
    pub energies: Energies,
}

// The meter after a frame, with the length of the reply that stands at the front of the output buffer; with a refusal there is no
// reply, and all is as before.
#[derive(Clone, Copy)]
pub struct Answered {
    pub meter: Meter,
    pub answer: Result<usize, Refusal>,
}

// What was counted, with the meter that it was counted at.
fn counted_with(meter: Meter, counted: CountedReadings) -> Counted
    ensures { result ≡ counted_with meter counted }
{
    Counted {
        meter,
        answer: counted.answer,
        energies: counted.energies,
    }
}

impl Meter {
    // The test of 16 over readings that are lent, so that no operation copies them for it.
    fn in_ranges(self, energies: &Energies) -> bool
        ensures { result ≡ within_ranges self energies.now.forward energies.now.reverse }
    {
        within_ranges(self.address, self.registers, energies)
    }

    // A fresh meter of an address, with its readings; 8 for an address that is not good.
    #[tactic(auto, unfolding(crate::specs::Host::created, crate::specs::Meter::fresh_meter))]
    pub fn fresh(address: [u8; 6]) -> Created
        ensures { result ≡ created address }
    {
        let answer = if is_good(address) {
            Ok(())
        } else {
            Err(Refusal::BadArgument)
        };
        Created {
            meter: Meter {
                address,
                key: false,
                passwords: [0u8; 30],
                operator: [0u8; 4],
                registers: fresh_registers(),
            },
            energies: Energies::new(rows::zero(), rows::zero()),
            answer,
        }
    }

    // Whether a meter and its readings are within document 01's ranges: every operation refuses with 16 those that are not.
    pub fn is_within_ranges(self, energies: Energies) -> bool
        ensures { result ≡ within_ranges self energies.forward energies.reverse }
    {
        self.in_ranges(&energies)
    }

    // Sets the programming key. Refused with 16.
    #[tactic(auto, unfolding(crate::specs::Host::key_set))]
    pub fn set_key(self, energies: Energies, on: bool) -> KeySet
        ensures { result ≡ key_set on self energies.forward energies.reverse }
    {
        if !self.in_ranges(&energies) {
            return KeySet {
                meter: self,
                answer: Err(Refusal::OutOfRange),
            };
        }
        KeySet {
            meter: Meter { key: on, ..self },
            answer: Ok(()),
        }
    }

    // Adds a pulse amount to row 0's rate and total of direction 0, forward, or 1, reverse. Refused with 16, then with 8, which any other
    // number of a direction or a rate is answered with.
    pub fn pulse(self, energies: Energies, amount: u32, direction: u8, rate: u8) -> Counted
        ensures { result ≡ pulsed_by amount direction rate self energies.forward energies.reverse }
    {
        let within = self.in_ranges(&energies);
        counted_with(
            self,
            meter_counting::pulse(within, energies, amount, direction, rate),
        )
    }

    // Moves every row of both directions down one and keeps row 0. Refused with 16.
    pub fn settle(self, energies: Energies) -> Counted
        ensures { result ≡ settled_by self energies.forward energies.reverse }
    {
        let within = self.in_ranges(&energies);
        counted_with(self, meter_counting::settle(within, energies))
    }

    // Answers a frame with a reply at the front of the output buffer, which stays as it was beyond it. Refused with 16, 1, 2,
    // 3 and 4, as document 01 says.
    #[tactic(auto, unfolding(crate::specs::Answer::answered))]
    pub fn answer(self, energies: Energies, bytes: &[u8], out: &mut [u8]) -> Answered
        ensures { outcome result out.new ≡ answered bytes.now self energies.forward energies.reverse out.old }
    {
        if !self.in_ranges(&energies) {
            return refused(self, Refusal::OutOfRange);
        }
        if out.len() < MOST_FRAME {
            return refused(self, Refusal::ShortMemory);
        }
        if !frame::is_frame(bytes) {
            return refused(self, Refusal::NotOneFrame);
        }
        let answering = Answering {
            meter: self,
            energies: &energies,
        };
        answering.treat(bytes, out)
    }
}

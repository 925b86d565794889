// What an answered frame leaves of the meter: an accepted 14 changes the register and the operator code, 15 the address, 18 one password;
// any other leaves it untouched.
ghost use Rattle.std.specs.Prelude.{◌≡◌, ◌*◌, ◌≤◌, length};
ghost use Rattle.laws.specs.ChecksLaws.{AllHold};
ghost use Rattle.laws.specs.Part.{with_part};
ghost use Rattle.item_identifier.specs.Identifier.{identifier_of};
ghost use Rattle.meter_decision.specs.Decision.{checks_of};
ghost use Rattle.meter.specs.Meter.{untouched, with_address, with_passwords};
ghost use Rattle.meter.specs.Answer.{meter_after};

use crate::Meter;
use item_command::Command;
use meter_holding::with_value;

// What an answered frame leaves of a meter that it is not to change.
#[tactic(auto, unfolding(crate::specs::Meter::untouched))]
pub(crate) fn untouched(meter: Meter) -> Meter
    ensures { result ≡ untouched meter }
{
    meter
}

// The meter with another value of an identifier, and the operator code of the write as its note.
pub(crate) fn written(meter: Meter, identifier: u32, payload: &[u8]) -> Meter
    requires identifier_value { identifier ≡ identifier_of payload.now }
    requires all_hold { AllHold (checks_of Command.WriteData payload.now meter.key meter.passwords) }
    ensures { result ≡ meter_after Command.WriteData payload.now meter }
{
    let mut next = meter;
    next.registers = with_value(meter.registers, identifier, &payload[12..]);
    next.operator.copy_from_slice(&payload[8..12]);
    next
}

// The meter with another address.
pub(crate) fn readdressed(meter: Meter, address: &[u8]) -> Meter
    requires { length address.now ≡ 6 }
    ensures { result ≡ with_address address.now meter }
{
    let mut next = meter;
    next.address.copy_from_slice(address);
    next
}

// The meter with another password of a level.
pub(crate) fn with_password(meter: Meter, level: u8, password: &[u8]) -> Meter
    requires { (level ≤ 9) × (length password.now ≡ 3) }
    ensures { result ≡ with_passwords (with_part (3 * level) password.now meter.passwords) meter }
{
    let mut next = meter;
    let at = 3 * level as usize;
    next.passwords[at..at + 3].copy_from_slice(password);
    next
}

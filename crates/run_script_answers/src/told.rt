// The meter's end.
use crate::MEMORY;
use crate::written::write_answered;
use energy::Energies;
use frame::refusal::Refusal;
use meter::Meter;
use run_text::memory::FILL;
use run_text::say;
use run_text::write::Hex;
use std::io::Stdout;

// Writes the answer to a call of the host: a word where it is done.
pub fn write_done(to: Stdout, answer: Result<(), Refusal>, done: &str) {
    match answer {
        Ok(()) => say!(to; "{done}"),
        Err(refusal) => say!(to; "refused {}", refusal.number()),
    }
}

// Puts a frame to the meter with an output buffer of so many bytes, shows a reply or writes why there is none, and returns the
// meter after it.
pub fn tell_frame<F: FnOnce(&[u8])>(
    to: Stdout,
    meter: Meter,
    energies: Energies,
    frame: &[u8],
    room: usize,
    show: F,
) -> Meter
    requires { F.IsAlwaysCallable show }
{
    let mut out = [FILL; MEMORY];
    let answered = meter.answer(energies, frame, &mut out[..room.min(MEMORY)]);
    write_answered(to, answered.answer, &out, show);
    answered.meter
}

// Writes what the meter holds besides its readings.
pub fn show(to: Stdout, meter: Meter) {
    say!(to; "address{}", Hex(&meter.address));
    say!(to; "key {}", if meter.key { "on" } else { "off" });
    say!(to; "passwords{}", Hex(&meter.passwords));
    say!(to; "operator{}", Hex(&meter.operator));
    say!(to; "registers{}", Hex(&meter.registers));
}

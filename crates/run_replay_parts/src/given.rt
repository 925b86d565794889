// What a script gives to a replay: an address, and values outside their ranges.
use energy::reading;
use replay::ReplayState;
use run_text::read::{byte_of, skip_blank};
use run_text::say;
use std::io::Stdout;

// The address of twelve digits, high digits first, behind a blank. A byte that two digits do not write is 255, which is no two digits of an
// address, and so are all where there are not as many digits.
pub fn address_of(text: &[u8]) -> [u8; 6] {
    let mut address = [255u8; 6];
    if text.len() == 13 {
        let (digits, _) = skip_blank(text).as_chunks::<2>();
        for (byte, [high, low]) in address.iter_mut().rev().zip(digits) {
            *byte = byte_of(*high, *low).unwrap_or(255);
        }
    }
    address
}

// The replay with a value outside its range, which a word behind a blank names.
pub fn broken(to: Stdout, replay: ReplayState, word: &[u8]) -> ReplayState {
    let ReplayState {
        mut receiver,
        mut meter,
        mut energies,
    } = replay;
    match word {
        b" receiver" => receiver.count = 300,
        b" kept" => receiver.count = 1,
        b" meter" => meter.address = [0xAA; 6],
        b" register" => meter.registers[0] = 0xFA,
        b" reading" => energies.reverse[12][4] = reading::of(100000000),
        _ => say!(to; "nothing is broken"),
    }
    ReplayState {
        receiver,
        meter,
        energies,
    }
}

// What is written of a replay: what its receiver and its meter hold.
use energy::reading;
use replay::ReplayState;
use run_script_answers::told;
use run_text::say;
use run_text::write::Hex;
use std::io::Stdout;

// Writes what the meter holds besides its readings, and the bytes that the receiver keeps, unless it counts more than it has.
pub fn show(to: Stdout, replay: ReplayState) {
    told::show(to, replay.meter);
    let receiver = replay.receiver;
    if let Some(kept) = receiver.kept.get(..receiver.count) {
        say!(to; "kept{}", Hex(kept));
    }
}

// Writes a reading as it is sent, by direction, 0 for forward, row and column; nothing where there is no such row or column.
pub fn write_reading(to: Stdout, replay: ReplayState, [direction, row, column]: [u32; 3]) {
    if 13 <= row || 5 <= column {
        return;
    }
    let energies = replay.energies;
    let rows = match direction {
        0 => energies.forward_rows(),
        _ => energies.reverse_rows(),
    };
    let bytes = reading::bytes_of(rows[row as usize][column as usize]);
    say!(to; "reading{}", Hex(&bytes));
}

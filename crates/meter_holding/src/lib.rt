// What a meter holds: the value of each item, the ranges that document 01 sets, and the registers of a fresh meter. Of a meter only
// its address and its registers are looked at, beside both directions' readings.
#![tactic(auto)]

mod columns;
mod location;

ghost use Rattle.std.specs.Prelude.{◌≡◌, ◌+◌, ◌≤◌, length};
ghost use Rattle.laws.specs.Memory.{outcome, over};
ghost use Rattle.laws.specs.Part.{with_part};
ghost use Rattle.meter_holding.specs.Holding.{location_of, value_held, within_ranges, fresh_registers, value_written, registers_after};
ghost use Rattle.meter_holding.specs.Holding.{FitsAt};

use columns::Columns;
use energy::{Energies, rows};
use item::table::{Item, item_of};
use item_address::is_good;
use item_decimal::all_decimal;
use location::Location;

// Date 00-01-01 with WW 06, time zero, period 15, slip 1, meter number zero, first settlement day 0100, others 9999.
const FRESH_REGISTERS: [u8; 21] = [
    0x06, 0x01, 0x01, 0x00, 0x00, 0x00, 0x00, 0x15, 0x01, 0x00, 0x00, 0x00, 0x00, 0x00, 0x00, 0x00,
    0x01, 0x99, 0x99, 0x99, 0x99,
];

// Why no value is written; the output buffer stays as it was.
#[derive(Clone, Copy)]
pub enum HeldError {
    // No such identifier.
    NotListed,
    // An output buffer shorter than the value.
    TooLittleMemory,
}

// The registers of a fresh meter.
pub fn fresh_registers() -> [u8; 21]
    ensures { result ≡ fresh_registers }
{
    FRESH_REGISTERS
}

// Whether what a meter holds is within document 01's ranges: the address good, every register decimal, every reading in range.
#[tactic(auto, unfolding(crate::specs::Holding::within_ranges))]
pub fn within_ranges(address: [u8; 6], registers: [u8; 21], energies: &Energies) -> bool
    ensures { result ≡ within_ranges address registers energies.now.forward energies.now.reverse }
{
    is_good(address)
        && all_decimal(&registers)
        && rows::in_range(&energies.forward)
        && rows::in_range(&energies.reverse)
}

// Writes the value held for an item to the front of the output buffer. It takes a meter's parts one by one as `write_value` does: the
// meter's own type stands in a crate above this one.
#[tactic(auto, unfolding(crate::specs::Holding::value_held, crate::specs::Holding::held_at))]
fn write_held(
    item: Item,
    address: [u8; 6],
    registers: [u8; 21],
    energies: &Energies,
    out: &mut [u8],
)
    requires fits_at { FitsAt item.length (location_of item.kind) }
    requires length_in_bounds { item.length ≤ length out.old }
    ensures { out.new ≡ over (value_held item address registers energies.now.forward energies.now.reverse) out.old }
{
    match Location::from(item.kind) {
        Location::Readings {
            direction,
            rate,
            rates,
            row,
            rows,
        } => {
            let columns = Columns {
                rate,
                rates,
                row,
                rows,
            };
            let readings = if direction == 0 {
                &energies.forward
            } else {
                &energies.reverse
            };
            columns.write(readings, out);
        }
        Location::OwnAddress => slice_bytes::copy(&address, out),
        Location::Register(at) => slice_bytes::copy(&registers[at..at + item.length], out),
    }
}

// Writes the value held for an identifier to the front of the output buffer, and answers its length.
#[tactic(auto, unfolding(crate::specs::Holding::value_written))]
pub fn write_value(
    identifier: u32,
    address: [u8; 6],
    registers: [u8; 21],
    energies: &Energies,
    out: &mut [u8],
) -> Result<usize, HeldError>
    ensures { outcome result out.new ≡ value_written identifier address registers energies.now.forward energies.now.reverse out.old }
{
    let Some(item) = item_of(identifier) else {
        return Err(HeldError::NotListed);
    };
    if out.len() < item.length {
        return Err(HeldError::TooLittleMemory);
    }
    write_held(item, address, registers, energies, out);
    Ok(item.length)
}

// The registers with other bytes from a place on.
fn put(registers: [u8; 21], at: usize, value: &[u8]) -> [u8; 21]
    requires { at + length value.now ≤ 21 }
    ensures { result ≡ with_part at value.now registers }
{
    let mut next = registers;
    next[at..at + value.len()].copy_from_slice(value);
    next
}

// The registers with another value of an identifier; as they were where it is no register, or the value not as long.
#[tactic(auto, unfolding(crate::specs::Holding::registers_after, crate::specs::Holding::registers_with))]
pub fn with_value(registers: [u8; 21], identifier: u32, value: &[u8]) -> [u8; 21]
    ensures { result ≡ registers_after identifier value.now registers }
{
    let Some(item) = item_of(identifier) else {
        return registers;
    };
    if value.len() != item.length {
        return registers;
    }
    match Location::from(item.kind) {
        Location::Readings { .. } | Location::OwnAddress => registers,
        Location::Register(at) => put(registers, at, value),
    }
}

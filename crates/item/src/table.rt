// Document 01's table of data identifiers. `item_of` is the only test of an identifier.
ghost use Rattle.std.specs.Prelude.{◌≡◌, ◌≤◌, Some};
ghost use Rattle.item.specs.Table.{item_of, energy_item, readings, writable_item};

// What an identifier names.
#[derive(Clone, Copy)]
pub enum Kind {
    // Readings of direction 0, forward, or 1, reverse: of `rates` columns from `rate` on, each at `rows` rows from `row` on. A number, as
    // the definitions `energy_item` and `location_of` have it.
    Energy {
        direction: u8,
        rate: usize,
        rates: usize,
        row: usize,
        rows: usize,
    },
    // YYMMDDWW.
    Date,
    // hhmmss.
    Time,
    // Minutes.
    DemandPeriod,
    // Minutes.
    Slip,
    // The communication address.
    Address,
    MeterNumber,
    // DDhh, of the first, second or third settlement day: 1, 2 or 3.
    SettlementDay(u8),
}

// A row of the table: what is named, its length in bytes, and whether it may be written by 14H.
#[derive(Clone, Copy)]
pub struct Item {
    pub kind: Kind,
    pub length: usize,
    pub writable: bool,
}

// The row of a single reading or a block of readings: DI1 is the column t or FF for all, DI0 the row s or FF for all.
#[tactic(auto, unfolding(crate::specs::Table::energy_item))]
fn energy(direction: u8, t: u32, s: u32) -> Option<Item>
    ensures { result ≡ energy_item direction t s }
{
    match (t, s) {
        (0..=4, 0..=12) => readings(direction, t as usize, 1, s as usize, 1),
        (0..=4, 0xFF) => readings(direction, t as usize, 1, 0, 13),
        (0xFF, 0..=12) => readings(direction, 0, 5, s as usize, 1),
        _ => None,
    }
}

// The table's row for a data identifier, if it has one; a number whose highest byte is DI3 and whose lowest is DI0.
#[tactic(auto, unfolding(crate::specs::Table::item_of, crate::specs::Table::found, crate::specs::Table::other_rows))]
pub fn item_of(identifier: u32) -> Option<Item>
    ensures { result ≡ item_of identifier }
{
    let group = identifier / 65536;
    if group == 1 {
        return energy(0, identifier / 256 % 256, identifier % 256);
    }
    if group == 2 {
        return energy(1, identifier / 256 % 256, identifier % 256);
    }
    match identifier {
        0x04000101 => register(Kind::Date, 4),
        0x04000102 => register(Kind::Time, 3),
        0x04000103 => register(Kind::DemandPeriod, 1),
        0x04000104 => register(Kind::Slip, 1),
        0x04000401 => Some(Item {
            kind: Kind::Address,
            length: 6,
            writable: false,
        }),
        0x04000402 => register(Kind::MeterNumber, 6),
        0x04000B01 => register(Kind::SettlementDay(1), 2),
        0x04000B02 => register(Kind::SettlementDay(2), 2),
        0x04000B03 => register(Kind::SettlementDay(3), 2),
        _ => None,
    }
}

// A row of readings: four bytes each, not to be written.
// One parameter for each field of the public `Kind::Energy`, as the definition `readings` has them.
#[tactic(auto, unfolding(crate::specs::Table::readings))]
fn readings(direction: u8, rate: usize, rates: usize, row: usize, rows: usize) -> Option<Item>
    requires { (rates ≤ 5) × (rows ≤ 13) }
    ensures { result ≡ readings direction rate rates row rows }
{
    Some(Item {
        kind: Kind::Energy {
            direction,
            rate,
            rates,
            row,
            rows,
        },
        length: 4 * rates * rows,
        writable: false,
    })
}

// A row of a register: to be written by 14H.
fn register(kind: Kind, length: usize) -> Option<Item>
    ensures { result ≡ Some (writable_item kind length) }
{
    Some(Item {
        kind,
        length,
        writable: true,
    })
}

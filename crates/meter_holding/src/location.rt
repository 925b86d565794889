// Where a meter keeps each item.
ghost use Rattle.std.specs.Prelude.{◌≡◌};
ghost use Rattle.meter_holding.specs.Holding.{location_of};

use item::table::Kind;

// Among the readings, as the meter's own address, or as a register that begins at a place of `registers`.
#[derive(Clone, Copy)]
pub enum Location {
    Readings {
        direction: u8,
        rate: usize,
        rates: usize,
        row: usize,
        rows: usize,
    },
    OwnAddress,
    Register(usize),
}

// The location of each kind of item. No two registers of listed items share a byte.
impl From<Kind> for Location {
    ghost from_gives = { λ kind location. location ≡ location_of kind };

    #[tactic(auto, unfolding(crate::specs::Holding::location_of))]
    fn from(kind: Kind) -> Self {
        match kind {
            Kind::Energy {
                direction,
                rate,
                rates,
                row,
                rows,
            } => Location::Readings {
                direction,
                rate,
                rates,
                row,
                rows,
            },
            Kind::Date => Location::Register(0),
            Kind::Time => Location::Register(4),
            Kind::DemandPeriod => Location::Register(7),
            Kind::Slip => Location::Register(8),
            Kind::Address => Location::OwnAddress,
            Kind::MeterNumber => Location::Register(9),
            Kind::SettlementDay(n) => Location::Register(13 + 2 * n as usize),
        }
    }
}

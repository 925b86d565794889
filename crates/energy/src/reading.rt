// A reading: hundredths of a kWh, 0 to 99,999,999. Only this file, specs/Reading.antt and its laws know how it is kept.
ghost use Rattle.std.specs.Prelude.{◌≡◌};
ghost use Rattle.energy.specs.Reading.{reading_of, reading_in_range, reading_bytes, plus_amount};

use item_decimal::pack;

pub type Reading = u32;

pub(crate) const ZERO: Reading = 0;

// The reading of a number.
#[tactic(auto, unfolding(crate::specs::Reading::reading_of))]
pub fn of(number: u32) -> Reading
    ensures { result ≡ reading_of number }
{
    number
}

// Whether a reading is within its range.
#[tactic(auto, unfolding(crate::specs::Reading::reading_in_range))]
pub(crate) fn is_in_range(reading: Reading) -> bool
    ensures { result ≡ reading_in_range reading }
{
    reading <= 99999999
}

// A reading's eight digits as four bytes.
pub fn bytes_of(reading: Reading) -> [u8; 4]
    ensures { result ≡ reading_bytes reading }
{
    let mut bytes = [0u8; 4];
    let _ = pack((reading % 100000000) as u64, &mut bytes);
    bytes
}

// A reading with an amount added, modulo 100,000,000.
#[tactic(auto, unfolding(crate::specs::Reading::plus_amount))]
pub fn plus(reading: Reading, amount: u32) -> Reading
    ensures { result ≡ plus_amount reading amount }
{
    ((reading as u64 + amount as u64) % 100000000) as u32
}

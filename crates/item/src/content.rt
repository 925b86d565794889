// The content of a written value: document 01, "Written content". A value stands low byte first.
ghost use Rattle.std.specs.Prelude.{◌≡◌};
ghost use Rattle.item_range.specs.Range.{within};
ghost use Rattle.item.specs.Content.{digits_at, three_within, date_in_range, time_in_range, minutes_in_range, settlement_day_in_range, in_range, content_of};

use crate::table::{Item, Kind};
use item_decimal::{digits_of, first_bad};
use item_range::is_within;

// Why a value may not be written to an item.
#[derive(Clone, Copy)]
pub enum ContentError {
    // The item is only read.
    NotWritable,
    // The value has not as many bytes as the item.
    WrongLength,
    // The place of the first byte with a half byte above 9.
    NotDecimal(usize),
    OutOfRange,
}

// The least and the most of a pair of digits.
// No range of the library's stands in its place, since the definition `three_within` is stated of it.
#[derive(Clone, Copy)]
pub(crate) struct Bounds {
    pub least: usize,
    pub most: usize,
}

impl Bounds {
    // Whether a number is neither below the least nor above the most.
    fn hold(self, n: usize) -> bool
        ensures { result ≡ within self.least self.most n }
    {
        is_within(self.least, self.most, n)
    }
}

// The number of the two digits at a place of the value; 0 beyond its end.
#[tactic(auto, unfolding(crate::specs::Content::digits_at, item_decimal::specs::Decimal::digits))]
fn digits_at(value: &[u8], i: usize) -> usize
    ensures { result ≡ digits_at value.now i }
{
    match value.get(i) {
        Some(b) => usize::from(digits_of(*b)),
        None => 0,
    }
}

// Whether the first three pairs of digits of a value are each within their bounds.
#[tactic(auto, unfolding(crate::specs::Content::three_within))]
fn three_within(value: &[u8], first: Bounds, second: Bounds, third: Bounds) -> bool
    ensures { result ≡ three_within value.now first second third }
{
    first.hold(digits_at(value, 0))
        & (second.hold(digits_at(value, 1)) & third.hold(digits_at(value, 2)))
}

// WW DD MM YY.
#[tactic(auto, unfolding(crate::specs::Content::date_in_range))]
fn date_in_range(value: &[u8]) -> bool
    ensures { result ≡ date_in_range value.now }
{
    three_within(
        value,
        Bounds { least: 0, most: 6 },
        Bounds { least: 1, most: 31 },
        Bounds { least: 1, most: 12 },
    )
}

// ss mm hh.
#[tactic(auto, unfolding(crate::specs::Content::time_in_range))]
fn time_in_range(value: &[u8]) -> bool
    ensures { result ≡ time_in_range value.now }
{
    three_within(
        value,
        Bounds { least: 0, most: 59 },
        Bounds { least: 0, most: 59 },
        Bounds { least: 0, most: 23 },
    )
}

// Minutes.
#[tactic(auto, unfolding(crate::specs::Content::minutes_in_range))]
fn minutes_in_range(value: &[u8]) -> bool
    ensures { result ≡ minutes_in_range value.now }
{
    is_within(1, 60, digits_at(value, 0))
}

// hh DD, or 9999 for not set.
#[tactic(auto, unfolding(crate::specs::Content::settlement_day_in_range, crate::specs::Content::not_set))]
fn settlement_day_in_range(value: &[u8]) -> bool
    ensures { result ≡ settlement_day_in_range value.now }
{
    let hour = digits_at(value, 0);
    let day = digits_at(value, 1);
    ((hour == 99) & (day == 99)) | (is_within(0, 23, hour) & is_within(1, 28, day))
}

// The range of each kind of item. A meter number has none; no value is in the range of an energy or of the address, which are never written.
#[tactic(auto, unfolding(crate::specs::Content::in_range))]
fn in_range(kind: Kind, value: &[u8]) -> bool
    ensures { result ≡ in_range kind value.now }
{
    match kind {
        Kind::Energy { .. } | Kind::Address => false,
        Kind::Date => date_in_range(value),
        Kind::Time => time_in_range(value),
        Kind::DemandPeriod | Kind::Slip => minutes_in_range(value),
        Kind::MeterNumber => true,
        Kind::SettlementDay(_) => settlement_day_in_range(value),
    }
}

// Whether a value may be written to an item: the item writable, the value of its length, every half byte 0 to 9, then the range.
#[tactic(auto, unfolding(crate::specs::Content::content_of))]
pub fn content_of(item: Item, value: &[u8]) -> Result<(), ContentError>
    ensures { result ≡ content_of item value.now }
{
    if !item.writable {
        return Err(ContentError::NotWritable);
    }
    if value.len() != item.length {
        return Err(ContentError::WrongLength);
    }
    if let Some(i) = first_bad(value) {
        return Err(ContentError::NotDecimal(i));
    }
    if !in_range(item.kind, value) {
        return Err(ContentError::OutOfRange);
    }
    Ok(())
}

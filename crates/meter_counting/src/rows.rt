// What a pulse and a settlement make of the thirteen rows of one direction. Rows move whole.
ghost use Rattle.std.specs.Prelude.{◌≡◌};
ghost use Rattle.meter_counting.specs.Rows as of_rows;

use energy::{Rows, reading};
use item_range::is_within;

// Whether a number is a rate, 1 to 4.
#[tactic(auto, unfolding(crate::specs::Rows::is_rate))]
pub(crate) fn is_rate(rate: u8) -> bool
    ensures { result ≡ of_rows.is_rate rate }
{
    is_within(1, 4, rate as usize)
}

// A pulse amount added to row 0's rate and total; what is no rate changes nothing.
#[tactic(auto, unfolding(crate::specs::Rows::pulsed))]
pub(crate) fn pulsed(rows: Rows, amount: u32, rate: u8) -> Rows
    ensures { result ≡ of_rows.pulsed rows amount rate }
{
    if !is_rate(rate) {
        return rows;
    }
    let column = rate as usize;
    let mut next = rows;
    next[0][0] = reading::plus(rows[0][0], amount);
    next[0][column] = reading::plus(rows[0][column], amount);
    next
}

// Every row one down; row 12 is dropped and row 0 kept.
pub(crate) fn settled(rows: Rows) -> Rows
    ensures { result ≡ of_rows.settled rows }
{
    let mut next = rows;
    next[1..].copy_from_slice(&rows[..12]);
    next
}

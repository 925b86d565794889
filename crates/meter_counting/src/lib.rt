// A pulse and a settlement counted in both directions' readings: document 01, "Host calls besides frames". Whether the meter is within
// its ranges is told by the caller. What they make of one direction's rows is private, in rows.rt: a bad rate is refused here, with 8.
#![tactic(auto)]

mod rows;

ghost use Rattle.std.specs.Prelude.{◌≡◌};
ghost use Rattle.laws.specs.Test.{pick};
ghost use Rattle.meter_counting.specs.Rows.{settled};
ghost use Rattle.meter_counting.specs.Counting.{answer_of, counted, pulsed_by, settled_by};

use energy::{Energies, Rows};
use frame::refusal::Refusal;

// The readings after a pulse or a settlement; with a refusal all as before.
#[derive(Clone, Copy)]
pub struct CountedReadings {
    pub energies: Energies,
    pub answer: Result<(), Refusal>,
}

// The answer to a call: 16 for a meter outside its ranges, then 8 for a bad direction or rate.
#[tactic(auto, unfolding(crate::specs::Counting::answer_of))]
fn answer_of(within: bool, good: bool) -> Result<(), Refusal>
    ensures { result ≡ answer_of within good }
{
    if !within {
        return Err(Refusal::OutOfRange);
    }
    if !good {
        return Err(Refusal::BadArgument);
    }
    Ok(())
}

// The readings that a pulse hands back, put together by one call: a pulse takes 663 instructions so, and 1,072 with the struct made in
// place, as a settlement makes it in 584.
fn with_answer(forward: Rows, reverse: Rows, answer: Result<(), Refusal>) -> CountedReadings
    ensures { result ≡ counted forward reverse answer }
{
    CountedReadings {
        energies: Energies::new(forward, reverse),
        answer,
    }
}

// The rate at which a pulse counts in a direction, or 0, which is none: rows are then handed back by one call, which copies them once less
// than a choice between two. With one function and a closure in place of this and of `settled_where` a pulse took 1,033 instructions, not 733.
fn rate_where(counts: bool, rate: u8) -> u8
    ensures { result ≡ pick counts rate 0 }
{
    if counts { rate } else { 0 }
}

// The readings of a direction settled, or as they are.
fn settled_where(counts: bool, rows: Rows) -> Rows
    ensures { result ≡ pick counts (settled rows) rows }
{
    if counts { rows::settled(rows) } else { rows }
}

// Adds a pulse amount to row 0's rate and total of direction 0, forward, or 1, reverse. Refused with 16, then with 8.
pub fn pulse(
    within: bool,
    energies: Energies,
    amount: u32,
    direction: u8,
    rate: u8,
) -> CountedReadings
    ensures { result ≡ pulsed_by amount direction rate within energies.forward energies.reverse }
{
    let good = (direction <= 1) & rows::is_rate(rate);
    let counts = within & good;
    let in_forward = rate_where(counts & (direction == 0), rate);
    let in_reverse = rate_where(counts & (direction != 0), rate);
    with_answer(
        rows::pulsed(energies.forward, amount, in_forward),
        rows::pulsed(energies.reverse, amount, in_reverse),
        answer_of(within, good),
    )
}

// Moves every row of both directions down one and keeps row 0. Refused with 16.
pub fn settle(within: bool, energies: Energies) -> CountedReadings
    ensures { result ≡ settled_by within energies.forward energies.reverse }
{
    CountedReadings {
        energies: Energies {
            forward: settled_where(within, energies.forward),
            reverse: settled_where(within, energies.reverse),
        },
        answer: answer_of(within, true),
    }
}

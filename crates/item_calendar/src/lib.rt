// The calendar of the years 2000 to 2099: document 02, W3. Which numbers are a date, and the weekday of a date.
#![tactic(auto)]

ghost use Rattle.std.specs.Prelude.{◌≡◌, ◌≤◌};
ghost use Rattle.item_calendar.specs.Calendar.{is_leap, month_length, is_date, days_of_months, weekday_of, falls_on};
ghost use Rattle.item_calendar.specs.CalendarWords.{Tested};

use item_range::is_within;

// A year by its two digits YY, a month and a day of it, both from 1.
#[derive(Clone, Copy)]
pub struct Date {
    pub year: usize,
    pub month: usize,
    pub day: usize,
}

// Leap when YY divides by four.
#[tactic(auto, unfolding(crate::specs::Calendar::is_leap))]
fn is_leap(year: usize) -> bool
    ensures { result ≡ is_leap year }
{
    year % 4 == 0
}

// How many days a month has, in a leap year or another.
#[tactic(auto, unfolding(crate::specs::Calendar::month_length, crate::specs::Calendar::has_thirty_days))]
fn month_length(leap: bool, month: usize) -> usize
    ensures { result ≡ month_length leap month }
{
    match month {
        2 => if leap { 29 } else { 28 },
        4 | 6 | 9 | 11 => 30,
        _ => 31,
    }
}

// Whether numbers are a date of the years 2000 to 2099.
#[tactic(auto, unfolding(crate::specs::Calendar::is_date))]
pub fn is_date(date: Date) -> bool
    ensures { result ≡ is_date date }
{
    let most = month_length(is_leap(date.year), date.month);
    (date.year <= 99) & (is_within(1, 12, date.month) & is_within(1, most, date.day))
}

// How many days the first `months` months of a year have. `days` counts 30 for February, which has one or two fewer.
#[tactic(auto, using(crate::proofs::DaysLaws::days_figure))]
fn days_of_months(leap: bool, months: usize) -> usize
    requires { months ≤ 11 }
    ensures { result ≡ days_of_months leap months }
{
    let days = (367 * months + 5) / 12;
    if months < 2 {
        days
    } else if leap {
        days - 1
    } else {
        days - 2
    }
}

// The weekday of a date: 0 for Sunday to 6 for Saturday. 2000-01-01 was a Saturday.
#[tactic(auto, unfolding(crate::specs::Calendar::weekday_of, crate::specs::Calendar::day_number), using(crate::proofs::DaysLaws::days_most, crate::proofs::CalendarLaws::month_days))]
fn weekday_of(date: Date) -> usize
    requires { Tested date }
    ensures { result ≡ weekday_of date }
{
    let years = 365 * date.year + (date.year + 3) / 4;
    let months = days_of_months(is_leap(date.year), date.month - 1);
    (6 + (years + months + (date.day - 1))) % 7
}

// Whether a date falls on a weekday. What is no date falls on none.
#[tactic(auto, unfolding(crate::specs::Calendar::falls_on, crate::specs::Calendar::is_date, item_range::specs::Range::within))]
pub fn falls_on(date: Date, weekday: usize) -> bool
    ensures { result ≡ falls_on date weekday }
{
    is_date(date) && weekday == weekday_of(date)
}

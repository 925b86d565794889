// Which requests are allowed: document 01, "The reader's end".
#![tactic(auto)]

ghost use Rattle.std.specs.Prelude.{◌≡◌, [], Ok, Err};
ghost use Rattle.laws.specs.Checks.{first_failing};
ghost use Rattle.reader_allowed.specs.Allowed.{address_allowed, conditions_of, value_conditions, admission};

use item::content::{ContentError, content_of};
use item::table::{Item, item_of};
use item_address::{is_good, is_short};
use reader_judgement::Action;

// The most bytes of a value that is written.
pub const MOST_VALUE: usize = 38;

// Why a request is not allowed.
#[derive(Clone, Copy)]
pub enum Cause {
    Address,
    NotListed,
    NotWritable,
    Level,
    Length,
    NotDecimal,
    OutOfRange,
}

// Whether a read may go to this address: a good one, or a short one.
#[tactic(auto, unfolding(crate::specs::Allowed::address_allowed))]
fn is_readable(address: [u8; 6]) -> bool
    ensures { result ≡ address_allowed address }
{
    if is_good(address) {
        return true;
    }
    is_short(address)
}

// A read: the address, then the identifier.
#[tactic(auto, unfolding(crate::specs::Allowed::conditions_of, laws::specs::Checks::first_failing))]
fn read_admission(address: [u8; 6], identifier: u32) -> Result<(), Cause>
    ensures { result ≡ first_failing Err (conditions_of Action.ReadData address identifier 0 [] 0) (Ok tt) }
{
    if !is_readable(address) {
        return Err(Cause::Address);
    }
    let Some(_) = item_of(identifier) else {
        return Err(Cause::NotListed);
    };
    Ok(())
}

// What is left of a write of a listed item: writable, the level, the value's length, then its content, decimal before ranges.
#[tactic(auto, unfolding(crate::specs::Allowed::value_conditions, crate::specs::Allowed::content_checks, laws::specs::Checks::first_failing))]
fn value_admission(
    level: u8,
    value: [u8; MOST_VALUE],
    count: usize,
    item: Item,
) -> Result<(), Cause>
    ensures { result ≡ first_failing Err (value_conditions level value count item) (Ok tt) }
{
    if !item.writable {
        return Err(Cause::NotWritable);
    }
    if 9 < level {
        return Err(Cause::Level);
    }
    if MOST_VALUE < count {
        return Err(Cause::Length);
    }
    if count != item.length {
        return Err(Cause::Length);
    }
    match content_of(item, &value[..count]) {
        Ok(()) => Ok(()),
        Err(ContentError::NotWritable) => Err(Cause::NotWritable),
        Err(ContentError::WrongLength) => Err(Cause::Length),
        Err(ContentError::NotDecimal(_)) => Err(Cause::NotDecimal),
        Err(ContentError::OutOfRange) => Err(Cause::OutOfRange),
    }
}

// A write: a good address, the identifier, and what is left.
#[tactic(auto, unfolding(crate::specs::Allowed::conditions_of, laws::specs::Checks::first_failing))]
fn write_admission(
    address: [u8; 6],
    identifier: u32,
    level: u8,
    value: [u8; MOST_VALUE],
    count: usize,
) -> Result<(), Cause>
    ensures { result ≡ first_failing Err (conditions_of Action.WriteData address identifier level value count) (Ok tt) }
{
    if !is_good(address) {
        return Err(Cause::Address);
    }
    let Some(item) = item_of(identifier) else {
        return Err(Cause::NotListed);
    };
    value_admission(level, value, count, item)
}

// Whether a request of these parts is allowed, and if not, the first cause. The value is the first `count` of its bytes; what the action
// does not use is ignored.
#[tactic(auto, unfolding(crate::specs::Allowed::admission, crate::specs::Allowed::conditions_of, laws::specs::Checks::first_failing))]
pub fn admit(
    action: Action,
    address: [u8; 6],
    identifier: u32,
    level: u8,
    value: [u8; MOST_VALUE],
    count: usize,
) -> Result<(), Cause>
    ensures { result ≡ admission action address identifier level value count }
{
    match action {
        Action::ReadData => read_admission(address, identifier),
        Action::ReadAddress => Ok(()),
        Action::WriteData => write_admission(address, identifier, level, value, count),
    }
}

// Whether a reply's control code and address may answer an action.
ghost use Rattle.std.specs.Prelude.{◌≡◌};
ghost use Rattle.reader_judgement.specs.Judging.{may_fail, is_normal, is_error, answers_from};

use crate::Action;
use item_address::{is_good, is_short, short_matches};
use item_command::Command;
use item_command::reply::reply_to;
use item_same::same_bytes;

// Whether an action may be answered by an error reply: there is no D3.
fn may_fail(action: Action) -> bool
    ensures { result ≡ may_fail action }
{
    match action {
        Action::ReadData => true,
        Action::ReadAddress => false,
        Action::WriteData => true,
    }
}

// Whether a control code is that of the normal reply to an action.
#[tactic(auto, unfolding(crate::specs::Judging::is_normal))]
pub(crate) fn is_normal(action: Action, control: u8) -> bool
    ensures { result ≡ is_normal action control }
{
    control == reply_to(u8::from(Command::from(action)), false)
}

// Whether a control code is that of the error reply to an action.
#[tactic(auto, unfolding(crate::specs::Judging::is_error))]
pub(crate) fn is_error(action: Action, control: u8) -> bool
    ensures { result ≡ is_error action control }
{
    if may_fail(action) {
        return control == reply_to(u8::from(Command::from(action)), true);
    }
    false
}

// Whether a reply to a read of data may come from this address.
#[tactic(auto, unfolding(crate::specs::Judging::answers_from))]
fn answers_read(address: [u8; 6], from: [u8; 6]) -> bool
    ensures { result ≡ answers_from Action.ReadData address from }
{
    if !is_short(address) {
        return same_bytes(&from, &address);
    }
    if !is_good(from) {
        return false;
    }
    short_matches(address, from)
}

// Whether a reply to a request for one address may come from another.
#[tactic(auto, unfolding(crate::specs::Judging::answers_from))]
pub(crate) fn answers_from(action: Action, address: [u8; 6], from: [u8; 6]) -> bool
    ensures { result ≡ answers_from action address from }
{
    match action {
        Action::ReadData => answers_read(address, from),
        Action::ReadAddress => true,
        Action::WriteData => same_bytes(&from, &address),
    }
}

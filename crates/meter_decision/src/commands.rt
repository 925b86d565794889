// The checks of each control, in document 01's order.
ghost use Rattle.std.specs.Prelude.{◌≡◌, false, []};
ghost use Rattle.meter_decision.specs.Decision.{decided};

use crate::Decision;
use crate::authority::{authority, names_password};
use crate::request::{
    PasswordRequest, Tested, WriteRequest, check_of, password_request, read_request, write_request,
};
use frame::refusal::Refusal;
use item::content::content_of;
use item::table::item_of;
use item_address::is_good;
use item_command::Command;
use item_command::reply::{NO_SUCH_DATA, NOT_AUTHORISED, OTHER_ERROR};
use item_decimal::all_decimal;

// 11: L = 4 (01); identifier in table (02).
#[tactic(auto, unfolding(crate::specs::Decision::decided, crate::specs::Decision::checks_of, laws::specs::Checks::first_failing, crate::specs::Checks::read_request, crate::specs::Request::item_asked))]
pub(crate) fn read_data(payload: &[u8]) -> Decision
    ensures { result ≡ decided Command.ReadData payload.now false [] }
{
    let Some(identifier) = read_request(payload) else {
        return Decision::Error(OTHER_ERROR);
    };
    let Some(_) = item_of(identifier) else {
        return Decision::Error(NO_SUCH_DATA);
    };
    Decision::Read(identifier)
}

// 13: L = 0, else silence.
#[tactic(auto, unfolding(crate::specs::Decision::decided, crate::specs::Decision::checks_of, laws::specs::Checks::first_failing))]
pub(crate) fn read_address(payload: &[u8]) -> Decision
    ensures { result ≡ decided Command.ReadAddress payload.now false [] }
{
    let Tested::Holds = check_of(payload.len() == 0) else {
        return Decision::Silent(Refusal::SilentByRule);
    };
    Decision::OwnAddress
}

// 14: 12 ≤ L ≤ 50 (01); identifier (02); writable (04); key on (04); level and password (04); data length (01); content (01).
#[tactic(auto, unfolding(crate::specs::Decision::decided, crate::specs::Decision::checks_of, laws::specs::Checks::first_failing, crate::specs::Checks::write_request, crate::specs::Request::item_asked, crate::specs::Request::level_of, crate::specs::Request::password_of, crate::specs::Request::written_value))]
pub(crate) fn write_data(payload: &[u8], key: bool, passwords: [u8; 30]) -> Decision
    ensures { result ≡ decided Command.WriteData payload.now key passwords }
{
    let Some(request) = write_request(payload) else {
        return Decision::Error(OTHER_ERROR);
    };
    let Some(item) = item_of(request.identifier) else {
        return Decision::Error(NO_SUCH_DATA);
    };
    let Tested::Holds = check_of(item.writable) else {
        return Decision::Error(NOT_AUTHORISED);
    };
    let Tested::Holds = check_of(key) else {
        return Decision::Error(NOT_AUTHORISED);
    };
    let Tested::Holds = authority(passwords, 4, request.level, &payload[5..8]) else {
        return Decision::Error(NOT_AUTHORISED);
    };
    let value = &payload[12..];
    let Tested::Holds = check_of(value.len() == item.length) else {
        return Decision::Error(OTHER_ERROR);
    };
    let Ok(()) = content_of(item, value) else {
        return Decision::Error(OTHER_ERROR);
    };
    Decision::Write(request.identifier)
}

// 15: L = 6, key on, new address good, else silence.
#[tactic(auto, unfolding(crate::specs::Decision::decided, crate::specs::Decision::checks_of, laws::specs::Checks::first_failing))]
pub(crate) fn write_address(payload: &[u8], key: bool) -> Decision
    ensures { result ≡ decided Command.WriteAddress payload.now key [] }
{
    let Tested::Holds = check_of(payload.len() == 6) else {
        return Decision::Silent(Refusal::SilentByRule);
    };
    let Tested::Holds = check_of(key) else {
        return Decision::Silent(Refusal::SilentByRule);
    };
    let mut address = [0u8; 6];
    slice_bytes::copy(payload, &mut address);
    let Tested::Holds = check_of(is_good(address)) else {
        return Decision::Silent(Refusal::SilentByRule);
    };
    Decision::NewAddress
}

// 18: L = 12 (01); identifier (02); key on (04); old level and its password (04); new password decimal (01).
#[tactic(auto, unfolding(crate::specs::Decision::decided, crate::specs::Decision::checks_of, laws::specs::Checks::first_failing, crate::specs::Checks::password_request, crate::specs::Request::level_of, crate::specs::Request::password_of, crate::specs::Request::new_level_of, crate::specs::Request::new_password_of))]
pub(crate) fn change_password(payload: &[u8], key: bool, passwords: [u8; 30]) -> Decision
    ensures { result ≡ decided Command.ChangePassword payload.now key passwords }
{
    let Some(request) = password_request(payload) else {
        return Decision::Error(OTHER_ERROR);
    };
    let Tested::Holds = names_password(request.identifier, request.new) else {
        return Decision::Error(NO_SUCH_DATA);
    };
    let Tested::Holds = check_of(key) else {
        return Decision::Error(NOT_AUTHORISED);
    };
    let Tested::Holds = authority(passwords, request.new, request.old, &payload[5..8]) else {
        return Decision::Error(NOT_AUTHORISED);
    };
    let Tested::Holds = check_of(all_decimal(&payload[9..12])) else {
        return Decision::Error(OTHER_ERROR);
    };
    Decision::NewPassword(request.new)
}

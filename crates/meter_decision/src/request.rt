// The data of a command: the checks of their length, which parse what the later checks look at.
ghost use Rattle.std.specs.Prelude.{◌≡◌, ◌≤◌, length};
ghost use Rattle.item_identifier.specs.Identifier.{identifier_of};
ghost use Rattle.meter_decision.specs.Checks.{check_of, read_request, write_request, password_request};

use item_identifier::identifier_of;
use item_range::is_within;

// A check that parses nothing. Document 01 names the form: each check yields an enum, which `let .. else` takes apart.
#[derive(Clone, Copy)]
pub(crate) enum Tested {
    Holds,
    Fails,
}

// The data of 14 before the value.
#[derive(Clone, Copy)]
pub(crate) struct WriteRequest {
    pub identifier: u32,
    pub level: u8,
}

// The data of 18 but the passwords.
#[derive(Clone, Copy)]
pub(crate) struct PasswordRequest {
    pub identifier: u32,
    pub old: u8,
    pub new: u8,
}

// The check of a test.
pub(crate) fn check_of(test: bool) -> Tested
    ensures { result ≡ check_of test }
{
    if test {
        return Tested::Holds;
    }
    Tested::Fails
}

// The data identifier at the front of the data.
fn identifier_at(payload: &[u8]) -> u32
    requires { 4 ≤ length payload.now }
    ensures { result ≡ identifier_of payload.now }
{
    identifier_of(payload[0], payload[1], payload[2], payload[3])
}

// The identifier of 11, where the length is right.
#[tactic(auto, unfolding(crate::specs::Checks::read_request))]
pub(crate) fn read_request(payload: &[u8]) -> Option<u32>
    ensures { result ≡ read_request payload.now }
{
    if payload.len() != 4 {
        return None;
    }
    Some(identifier_at(payload))
}

// What 14 begins with, where the length is right.
#[tactic(auto, unfolding(crate::specs::Checks::write_request, crate::specs::Request::level_of))]
pub(crate) fn write_request(payload: &[u8]) -> Option<WriteRequest>
    ensures { result ≡ write_request payload.now }
{
    if !is_within(12, 50, payload.len()) {
        return None;
    }
    Some(WriteRequest {
        identifier: identifier_at(payload),
        level: payload[4],
    })
}

// What 18 asks for, where the length is right.
#[tactic(auto, unfolding(crate::specs::Checks::password_request, crate::specs::Request::level_of, crate::specs::Request::new_level_of))]
pub(crate) fn password_request(payload: &[u8]) -> Option<PasswordRequest>
    ensures { result ≡ password_request payload.now }
{
    if payload.len() != 12 {
        return None;
    }
    Some(PasswordRequest {
        identifier: identifier_at(payload),
        old: payload[4],
        new: payload[8],
    })
}

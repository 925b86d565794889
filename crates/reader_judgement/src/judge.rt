// The data of each reply judged: the decision is made by value before anything is written.
ghost use Rattle.std.specs.Prelude.{◌≡◌, [], length, get_or, drop, Ok, Err};
ghost use Rattle.laws.specs.Checks.{first_failing};
ghost use Rattle.reader_judgement.specs.Judging.{error_checks, normal_checks};

use crate::{Action, Reply};
use frame::refusal::Refusal;
use item::table::item_of;
use item_address::is_good;
use item_decimal::all_decimal;
use item_identifier::identifier_bytes;
use item_same::same_bytes;

// An error reply: L 1, and its byte.
#[tactic(auto, unfolding(crate::specs::Judging::error_checks, laws::specs::Checks::first_failing))]
pub(crate) fn judge_error(payload: &[u8]) -> Result<Reply, Refusal>
    ensures { result ≡ first_failing Err (error_checks payload.now) (Ok (Reply.Error (get_or payload.now 0 0))) }
{
    if payload.len() != 1 {
        return Err(Refusal::Malformed);
    }
    Ok(Reply::Error(payload[0]))
}

// A 91: L of at least 4, the identifier, the value's length, every half byte.
#[tactic(auto, unfolding(crate::specs::Judging::normal_checks, laws::specs::Checks::first_failing))]
pub(crate) fn judge_read(identifier: u32, payload: &[u8]) -> Result<Reply, Refusal>
    ensures { result ≡ first_failing Err (normal_checks Action.ReadData identifier [] payload.now) (Ok (Reply.Value (length (drop 4 payload.now)))) }
{
    if payload.len() < 4 {
        return Err(Refusal::Malformed);
    }
    let asked = identifier_bytes(identifier);
    if !same_bytes(&payload[..4], &asked) {
        return Err(Refusal::NotAnAnswer);
    }
    let value = &payload[4..];
    let Some(item) = item_of(identifier) else {
        return Err(Refusal::Malformed);
    };
    if value.len() != item.length {
        return Err(Refusal::Malformed);
    }
    if !all_decimal(value) {
        return Err(Refusal::Malformed);
    }
    Ok(Reply::Value(value.len()))
}

// A 93: L 6, every half byte, its own address repeated, a good one.
#[tactic(auto, unfolding(crate::specs::Judging::normal_checks, laws::specs::Checks::first_failing))]
pub(crate) fn judge_address(from: [u8; 6], payload: &[u8]) -> Result<Reply, Refusal>
    ensures { result ≡ first_failing Err (normal_checks Action.ReadAddress 0 from payload.now) (Ok (Reply.Value (length payload.now))) }
{
    if payload.len() != 6 {
        return Err(Refusal::Malformed);
    }
    if !all_decimal(payload) {
        return Err(Refusal::Malformed);
    }
    if !same_bytes(payload, &from) {
        return Err(Refusal::Malformed);
    }
    if !is_good(from) {
        return Err(Refusal::Malformed);
    }
    Ok(Reply::Value(6))
}

// A 94: L 0.
#[tactic(auto, unfolding(crate::specs::Judging::normal_checks, laws::specs::Checks::first_failing))]
pub(crate) fn judge_written(payload: &[u8]) -> Result<Reply, Refusal>
    ensures { result ≡ first_failing Err (normal_checks Action.WriteData 0 [] payload.now) (Ok (Reply.Value (length payload.now))) }
{
    if payload.len() != 0 {
        return Err(Refusal::Malformed);
    }
    Ok(Reply::Value(0))
}

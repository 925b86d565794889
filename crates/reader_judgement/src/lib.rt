// A reply's control code, address and data judged against what was asked: document 01, "The reader's end".
#![tactic(auto)]

mod answer;
mod judge;

ghost use Rattle.std.specs.Prelude.{◌≡◌};
ghost use Rattle.reader_judgement.specs.Judging.{command_for, answers, data_judgement, value_start};

use answer::{answers_from, is_error, is_normal};
use frame::refusal::Refusal;
use item_command::Command;
use judge::{judge_address, judge_error, judge_read, judge_written};

// What a request asks for.
#[derive(Clone, Copy)]
pub enum Action {
    ReadData,
    ReadAddress,
    WriteData,
}

// What a reply comes to that answers the request.
#[derive(Clone, Copy)]
pub enum Reply {
    // The length of the value: 0 for a write that was accepted.
    Value(usize),
    // The byte of an error reply.
    Error(u8),
}

// The command that a meter knows an action as.
impl From<Action> for Command {
    ghost from_gives = { λ action command. command ≡ command_for action };

    fn from(action: Action) -> Self {
        match action {
            Action::ReadData => Command::ReadData,
            Action::ReadAddress => Command::ReadAddress,
            Action::WriteData => Command::WriteData,
        }
    }
}

// Whether a reply's control code and address are an answer to an action at an address.
pub fn is_answer(action: Action, address: [u8; 6], control: u8, from: [u8; 6]) -> bool
    ensures { result ≡ answers action address control from }
{
    if !is_normal(action, control) {
        if !is_error(action, control) {
            return false;
        }
    }
    answers_from(action, address, from)
}

// A reply whose control and address are an answer to the request, judged by its data.
#[tactic(auto, unfolding(crate::specs::Judging::data_judgement, crate::specs::Judging::normal_checks, crate::specs::Judging::reply_value))]
pub fn judge_data(
    action: Action,
    identifier: u32,
    control: u8,
    from: [u8; 6],
    payload: &[u8],
) -> Result<Reply, Refusal>
    ensures { result ≡ data_judgement action identifier control from payload.now }
{
    if is_error(action, control) {
        return judge_error(payload);
    }
    match action {
        Action::ReadData => judge_read(identifier, payload),
        Action::ReadAddress => judge_address(from, payload),
        Action::WriteData => judge_written(payload),
    }
}

// Where the value begins in the data of a normal reply: behind the identifier of a 91.
pub fn value_start(action: Action) -> usize
    ensures { result ≡ value_start action }
{
    match action {
        Action::ReadData => 4,
        Action::ReadAddress => 0,
        Action::WriteData => 0,
    }
}

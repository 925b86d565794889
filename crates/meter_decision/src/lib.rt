// What a meter decides on a command: document 01's table of checks by control, of which the first failing one answers. Of a meter
// only the programming key and the passwords are looked at.
#![tactic(auto)]

mod authority;
mod commands;
mod request;

ghost use Rattle.std.specs.Prelude.{◌≡◌};
ghost use Rattle.meter_decision.specs.Decision.{decided};

use commands::{change_password, read_address, read_data, write_address, write_data};
use frame::refusal::Refusal;
use item_command::Command;

// What is answered, or carried out.
#[derive(Clone, Copy)]
pub enum Decision {
    // Silence, with its refusal.
    Silent(Refusal),
    // An error reply, with its byte.
    Error(u8),
    // The value of an identifier is read.
    Read(u32),
    // The address is read.
    OwnAddress,
    // The value of an identifier is written.
    Write(u32),
    // The address is changed.
    NewAddress,
    // The password of a level is changed.
    NewPassword(u8),
}

// The decision on a command with these data.
#[tactic(auto, unfolding(crate::specs::Decision::decided, crate::specs::Decision::checks_of))]
pub fn decide(command: Command, payload: &[u8], key: bool, passwords: [u8; 30]) -> Decision
    ensures { result ≡ decided command payload.now key passwords }
{
    match command {
        Command::ReadData => read_data(payload),
        Command::ReadAddress => read_address(payload),
        Command::WriteData => write_data(payload, key, passwords),
        Command::WriteAddress => write_address(payload, key),
        Command::ChangePassword => change_password(payload, key, passwords),
    }
}

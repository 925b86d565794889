// Commands of DL/T 645-2007, shared by the meter and the reader: document 01, "How the meter treats a frame". The control codes of
// commands and of replies, the error bytes, and whom a frame with a command is for.
#![tactic(auto)]

pub mod reply;

ghost use Rattle.std.specs.Prelude.{◌≡◌};
ghost use Rattle.item_command.specs.Command.{command_of, control_for};
ghost use Rattle.item_command.specs.Addressee.{addressee_of, names_meter, addressed};

use item_address::{WILDCARD, short_matches};

// The commands of document 01, with their controls.
#[derive(Clone, Copy)]
pub enum Command {
    // 11
    ReadData,
    // 13
    ReadAddress,
    // 14
    WriteData,
    // 15
    WriteAddress,
    // 18
    ChangePassword,
}

// Whom a command is for.
#[derive(Clone, Copy)]
pub enum Addressee {
    // The meter whose address stands in the frame.
    Own,
    // Every meter: six wildcard bytes.
    Wildcards,
    // The meter whose address stands in the frame, or whose low bytes do where the address is short.
    OwnOrShort,
}

// The command of a control code, if it is one of these; no `TryFrom`, whose error would say no more than `None`.
#[tactic(auto, unfolding(crate::specs::Command::command_of))]
pub fn command_of(control: u8) -> Option<Command>
    ensures { result ≡ command_of control }
{
    match control {
        0x11 => Some(Command::ReadData),
        0x13 => Some(Command::ReadAddress),
        0x14 => Some(Command::WriteData),
        0x15 => Some(Command::WriteAddress),
        0x18 => Some(Command::ChangePassword),
        _ => None,
    }
}

// The control code of a command.
impl From<Command> for u8 {
    ghost from_gives = { λ command control. control ≡ control_for command };

    fn from(command: Command) -> Self {
        match command {
            Command::ReadData => 0x11,
            Command::ReadAddress => 0x13,
            Command::WriteData => 0x14,
            Command::WriteAddress => 0x15,
            Command::ChangePassword => 0x18,
        }
    }
}

// Whom a frame with a command is for, by its address field.
fn addressee_of(command: Command) -> Addressee
    ensures { result ≡ addressee_of command }
{
    match command {
        Command::ReadData => Addressee::OwnOrShort,
        Command::ReadAddress => Addressee::Wildcards,
        Command::WriteData => Addressee::Own,
        Command::WriteAddress => Addressee::Wildcards,
        Command::ChangePassword => Addressee::Own,
    }
}

// Whether an address field names the meter of this address.
#[tactic(auto, unfolding(crate::specs::Addressee::names_meter), using(item_same::proofs::PairLaws::pairwise))]
fn names_meter(addressee: Addressee, address: [u8; 6], own: [u8; 6]) -> bool
    ensures { result ≡ names_meter addressee address own }
{
    match addressee {
        Addressee::Own => address == own,
        Addressee::Wildcards => address == [WILDCARD; 6],
        Addressee::OwnOrShort => address == own || short_matches(address, own),
    }
}

// Whether a frame with this command and address is for the meter of this address.
#[tactic(auto, unfolding(crate::specs::Addressee::addressed))]
pub fn is_addressed(command: Command, address: [u8; 6], own: [u8; 6]) -> bool
    ensures { result ≡ addressed command address own }
{
    names_meter(addressee_of(command), address, own)
}

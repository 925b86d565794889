// Parts of the test programs of the replay: what a script gives to a replay, the output buffer, frames put to a meter, what is written of a replay, and
// the texts of the replay program.
#![tactic(auto)]

pub mod given;
pub mod memory;
pub mod put;
pub mod shown;
pub mod text;

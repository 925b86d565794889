// Calls of a script carried out on a meter and on the reader's end, and what is written of their answers. Output buffers have
// 256 bytes, of which as many are lent to a call as the script says, at most all.
#![tactic(auto)]

pub mod asked;
pub mod exchanged;
pub mod told;
mod written;

// How many bytes an output buffer has.
pub(crate) const MEMORY: usize = 256;

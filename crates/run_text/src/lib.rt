// What the test programs share: scripts, text read and written, memory filled and compared, counts, and lines heard by a receiver.
#![tactic(auto)]

pub mod count;
pub mod heard;
pub mod memory;
pub mod read;
pub mod script;
pub mod write;

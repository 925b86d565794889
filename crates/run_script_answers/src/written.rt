// What is written of output buffers.
use crate::MEMORY;
use frame::refusal::Refusal;
use run_text::memory::{write_changed, write_front};
use run_text::say;
use std::io::Stdout;

// Writes that a call was refused, which leaves the whole output buffer as it was.
pub(crate) fn write_refused(to: Stdout, refusal: Refusal, out: &[u8; MEMORY]) {
    say!(to; "refused {}", refusal.number());
    write_changed(to, out);
}

// Shows the bytes that a call left at the front of an output buffer, or writes that it was refused.
pub(crate) fn write_answered<F: FnOnce(&[u8])>(
    to: Stdout,
    answer: Result<usize, Refusal>,
    out: &[u8; MEMORY],
    show: F,
)
    requires { F.IsAlwaysCallable show }
{
    match answer {
        Ok(length) => write_front(to, out, length, show),
        Err(refusal) => write_refused(to, refusal, out),
    }
}

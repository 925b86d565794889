// Output buffers, filled before a call so that it shows where they are written.
use crate::say;
use std::io::Stdout;

// What every byte of an output buffer is before a call.
pub const FILL: u8 = 0xA5;

// Whether every byte is as it was before the call.
pub fn is_filled(memory: &[u8]) -> bool {
    memory.iter().all(|b| *b == FILL)
}

// Says so where bytes of an output buffer that must stay as they were are changed.
pub fn write_changed(to: Stdout, rest: &[u8]) {
    if !is_filled(rest) {
        say!(to; "memory changed");
    }
}

// Shows the bytes at the front of an output buffer, and says so where bytes behind them are changed. More than the buffer has
// count as a change too.
pub fn write_front<F: FnOnce(&[u8])>(to: Stdout, out: &[u8], length: usize, show: F)
    requires { F.IsAlwaysCallable show }
{
    match out.split_at_checked(length) {
        Some((front, rest)) => {
            show(front);
            write_changed(to, rest);
        }
        None => say!(to; "memory changed"),
    }
}

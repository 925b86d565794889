// The output buffer for a call: it is filled before, as many of its bytes are lent as a script says, and the text at its front is written.
use run_text::memory::write_front;
use run_text::write::write;
use std::io::Stdout;

// How many bytes the output buffer has.
pub const MEMORY: usize = 12000;

// Writes the text at the front of the output buffer, and says so where bytes beyond it are changed.
pub fn write_text(to: Stdout, out: &[u8; MEMORY], length: usize) {
    write_front(to, out, length, |text| write(to, text));
}

// One input, listed up to its end: bytes are read and text is written in blocks.
ghost use Rattle.std.specs.Prelude.{◌+◌, ◌≤◌, ◌<◌, length, IfOk};
ghost use Rattle.line_verdict.specs.Verdict.{most_kept};

use listing::step::list_step;
use std::io::{self, ErrorKind, Read, Stdout, Write};

// Why an input is not listed up to its end.
#[derive(Drop)]
pub(crate) enum Failed {
    // It cannot be read.
    Unread(io::Error),
    // The lines cannot be written.
    Unwritten(io::Error),
}

// What inputs are listed with: 64 KiB of an input at a time, with what is kept of it; the text of its frames is at most twice as long.
#[derive(Drop)]
pub(crate) struct Memory {
    pub(crate) buffer: [u8; 65536],
    pub(crate) frames: [u8; 65536],
    pub(crate) text: [u8; 131072],
}

// Reads behind the bytes kept, where there is always room, and returns how many bytes were read.
fn read_behind<R: Read>(from: &mut R, kept: usize, buffer: &mut [u8]) -> io::Result<usize>
    requires { (kept ≤ most_kept) × (most_kept < length buffer.old) }
    ensures { IfOk result (λ read. kept + read ≤ length buffer.new) }
{
    program_input::read_some(from, &mut buffer[kept..])
}

// Lists what stands at the front of the buffer, so many bytes kept and so many read, and writes their lines; returns how many bytes of
// the unfinished rest then stand at the front. The three memories are lent one by one: with the struct
// in their place the program takes 0.49 instructions a byte of its stored input, and 0.42 so.
fn list_read(
    mut to: Stdout,
    kept: usize,
    read: usize,
    buffer: &mut [u8],
    frames: &mut [u8],
    text: &mut [u8],
) -> Result<usize, Failed>
    ensures { IfOk result (λ left. left ≤ most_kept) }
{
    let Ok(listed) = list_step(buffer, kept, read, frames, text) else {
        // This cannot come, and no contract says so: the bytes kept and read are within the buffer, and only where one of the
        // three memories is too short is a step refused.
        return Err(Failed::Unwritten(io::Error::from(ErrorKind::Other)));
    };
    to.write_all(&text[..listed.text])
        .map_err(Failed::Unwritten)?;
    Ok(listed.kept)
}

impl Memory {
    // Lists the frames of the whole input, up to a read of no bytes, its end. A proved loop has to end, and nothing says that the
    // input does: so the loop counts its turns, up to a number that no run uses up.
    pub(crate) fn list_all<R: Read>(&mut self, from: &mut R, to: Stdout) -> Result<(), Failed> {
        let mut kept = 0;
        for _turn in 0..u64::MAX {
            let read = read_behind(from, kept, &mut self.buffer).map_err(Failed::Unread)?;
            kept = list_read(
                to,
                kept,
                read,
                &mut self.buffer,
                &mut self.frames,
                &mut self.text,
            )?;
            if read == 0 {
                break;
            }
        }
        Ok(())
    }
}

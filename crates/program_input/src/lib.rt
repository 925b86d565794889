// What the programs share: their arguments, a read that a signal does not end, and what is said where reading or writing fails.
#![tactic(auto)]

ghost use Rattle.std.specs.Prelude.{◌≤◌, length, IfOk};

use std::env::{Env, FillError};
use std::io::{self, Cursor, ErrorKind, Read, Stderr, Write};

// Whether there is an argument of this number; the program's name is number 0.
fn is_there<R: Env>(rt: &R, i: usize) -> bool {
    let mut nothing = [0u8; 1];
    !matches!(rt.arg(i, &mut nothing), Err(FillError::NotPresent))
}

// How many arguments there are, the program's name among them.
pub fn arg_count<R: Env>(rt: &R) -> usize {
    (0..usize::MAX)
        .find(|i| !is_there(rt, *i))
        .unwrap_or(usize::MAX)
}

// Whether an argument is `--help`.
fn is_help<R: Env>(rt: &R, i: usize) -> bool {
    let mut word = [0u8; 6];
    match rt.arg(i, &mut word) {
        Ok(n) => &word[..n] == b"--help".as_slice(),
        Err(_) => false,
    }
}

// Whether one of so many arguments, the program's name among them, is `--help`.
pub fn asks_for_help<R: Env>(rt: &R, count: usize) -> bool {
    (1..count).any(|i| is_help(rt, i))
}

// Reads into a buffer, and returns what the last read answered: a read that a signal interrupts is tried again. A proved loop has
// to end, and nothing says that the signals do: so the loop counts its turns, up to a number that no run uses up.
pub fn read_some<R: Read>(from: &mut R, buffer: &mut [u8]) -> io::Result<usize>
    ensures { IfOk result (λ n. n ≤ length buffer.new) }
{
    for _ in 0..u64::MAX {
        match from.read(buffer) {
            Err(error) if error.kind() == ErrorKind::Interrupted => {}
            read => return read,
        }
    }
    Err(io::Error::from(ErrorKind::Interrupted))
}

// How many bytes of an error's text are before the number that the library puts behind it, in brackets.
fn text_length(text: &[u8]) -> usize
    ensures { result ≤ length text.now }
{
    let bracket = b" (os error ".as_slice();
    text.windows(bracket.len())
        .position(|part| part == bracket)
        .unwrap_or(text.len())
}

// Says what failed, as the caller names it, and the error's text, in a line on standard error.
pub fn say_failed(mut to: Stderr, what: &[u8], error: io::Error) {
    let mut text = Cursor::new([0u8; 300]);
    let _ = write!(text, "{error}");
    let written = text.position() as usize;
    let all = text.into_inner();
    let end = written.min(all.len());
    let n = text_length(&all[..end]);
    let _ = to.write_all(what);
    let _ = to.write_all(b": ");
    let _ = to.write_all(&all[..n]);
    let _ = to.write_all(b"\n");
}

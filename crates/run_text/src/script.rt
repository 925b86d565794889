// Texts on standard input whose lines are carried out one by one.
use crate::read::{is_comment, read_whole};
use crate::say;
use crate::write::{write, write_line};
use std::io::{Stdin, Stdout};

// A step for each line of the text. The end of the text ends the last line too.
pub fn each_line<F: FnMut(&[u8])>(text: &[u8], mut step: F)
    requires { F.IsAlwaysCallable step }
{
    for line in text.split_inclusive(|b| *b == b'\n') {
        step(line.strip_suffix(b"\n").unwrap_or(line));
    }
}

// Carries out the script that the whole input is, of at most 100,000 bytes: each line is a call, which gives the next state, or is
// none, or it is a comment, which is copied.
pub fn run_script<S: Copy, F: FnMut(S, &[u8]) -> Option<S>>(
    from: Stdin,
    to: Stdout,
    start: S,
    mut call: F,
)
    requires { (f : F) (s : S) (x : _) → F.pre f s x }
{
    let mut buffer = [0u8; 100001];
    let Some(text) = read_whole(from, &mut buffer) else {
        say!(to; "script too long");
        return;
    };
    let mut state = start;
    each_line(
        text,
        |line|
            requires { (f : F) (s : S) (x : _) → F.pre f s x }
        {
            if is_comment(line) {
                write_line(to, line);
            } else if let Some(next) = call(state, line) {
                state = next;
            } else {
                write(to, b"not a call: ");
                write_line(to, line);
            }
        },
    );
}

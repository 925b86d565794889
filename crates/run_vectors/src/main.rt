// Runs lines of symbols, read as text from standard input, each through a fresh line receiver, and says of each whether
// the receiver handed on what is expected. An empty line and one that begins with # are skipped.
#![tactic(auto)]

mod vector;

use run_text::count::Tally;
use run_text::read::{is_comment, read_whole};
use run_text::say;
use run_text::script::each_line;
use run_text::write::write;
use std::io::Stdout;

// Runs the vector that a line of text is, unless the line is empty or a comment, and writes its name and whether it differs.
fn run_line(to: Stdout, tally: Tally, text: &[u8]) -> Tally {
    if is_comment(text) {
        return tally;
    }
    let (name, behind) = vector::split_at_byte(text, b':').unwrap_or((text, &[]));
    let good = vector::run(behind).unwrap_or(false);
    write(to, name);
    say!(to; "{}", if good { " ok" } else { " differs" });
    tally.counted(good)
}

// Runs the vectors of the whole input, and writes how many there are and how many of them differ.
fn main(rt: HostRuntime) {
    let to = rt.stdout();
    let mut buffer = [0u8; 65536];
    let Some(text) = read_whole(rt.stdin(), &mut buffer) else {
        say!(to; "too many vectors");
        return;
    };
    let mut tally = Tally::default();
    each_line(text, |line| tally = run_line(to, tally, line));
    let all = tally.same.saturating_add(tally.differ);
    say!(to; "{all} vectors, {} differ", tally.differ);
}

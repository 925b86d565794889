// Writes, for each length from 0 to 260, the checksums of four slices of that many bytes of standard input, which begin at
// its first four bytes, and how many slices of that length have the checksum 01 in zeros with a single 01 among them.
#![tactic(auto)]

use frame::checksum;
use run_text::read::read_input;
use run_text::say;
use run_text::write::Hex;
use std::io::Stdout;

// The checksum of `n` bytes from `start` on, and 0 where there are not as many.
fn checksum_at(bytes: &[u8], start: usize, n: usize) -> u8 {
    let slice = bytes.get(start..).and_then(|rest| rest.get(..n));
    slice.map_or(0, checksum)
}

// How many slices of `n` bytes have the checksum 01 in 260 zeros, 01 and 260 zeros: as many as have the 01 in them.
fn slices_with_the_one(n: usize) -> usize {
    let mut bytes = [0u8; 521];
    bytes[260] = 1;
    (0..bytes.len())
        .filter(|start| checksum_at(&bytes, *start, n) == 1)
        .count()
}

// Writes the line of each length.
fn say_lengths(to: Stdout, bytes: &[u8]) {
    for n in 0..=260 {
        let count = slices_with_the_one(n);
        let sums = [0, 1, 2, 3].map(|start| checksum_at(bytes, start, n));
        say!(to; "{n} bytes, {count} with 01,{}", Hex(&sums));
    }
}

// Reads the bytes, of which there are to be 263.
fn main(rt: HostRuntime) {
    let to = rt.stdout();
    let mut bytes = [0u8; 263];
    let n = read_input(rt.stdin(), &mut bytes);
    if n < bytes.len() {
        say!(to; "too few bytes");
        return;
    }
    say_lengths(to, &bytes);
}

// Calls that must refuse the first 300 bytes of the line, and leave the memory that is lent to them as it was.
use frame::refusal::Refusal;
use run_text::memory::{FILL, is_filled};
use run_text::say;
use std::io::Stdout;

// How many bytes of the line are given to each call.
const BLOCK: usize = 300;

// Writes whether a call was refused, and whether what was lent to it is as it was.
fn say_refused<T: Copy>(to: Stdout, words: &str, answer: Result<T, Refusal>, is_untouched: bool) {
    let changed = if is_untouched { "nothing" } else { "something" };
    match answer {
        Ok(_) => say!(to; "{words}: not refused"),
        Err(refusal) => say!(to; "{words}: refused with {}, {changed} changed", refusal.number()),
    }
}

// A call over so many bytes kept and so many read of a buffer that holds the block.
#[derive(Clone, Copy)]
struct Refused {
    to: Stdout,
    block: [u8; BLOCK],
    kept: usize,
    read: usize,
}

impl Refused {
    // A step of reading; writes whether it is refused.
    fn step(self, words: &str, out: &mut [u8]) {
        let mut buffer = self.block;
        let answer = recording::read_step(&mut buffer, self.kept, self.read, true, out);
        let is_untouched = buffer == self.block && is_filled(out);
        say_refused(self.to, words, answer, is_untouched);
    }

    // A step of the listing, likewise.
    fn listing(self, words: &str, frames: &mut [u8], text: &mut [u8]) {
        let mut buffer = self.block;
        let listed = listing::step::list_step(&mut buffer, self.kept, self.read, frames, text);
        let is_untouched = buffer == self.block && is_filled(frames) && is_filled(text);
        say_refused(self.to, words, listed, is_untouched);
    }
}

// A block with memory for its frames that is too short.
fn refuse_block(to: Stdout, block: &[u8; BLOCK]) {
    let mut out = [FILL; 299];
    let answer = line_block::read_block(block, true, &mut out);
    say_refused(to, "a block, memory", answer, is_filled(&out));
}

// Steps of reading with memory that is too short, each alone and both.
fn refuse_steps(to: Stdout, block: [u8; BLOCK]) {
    let mut short = [FILL; 299];
    let mut out = [FILL; 400];
    let over = |kept, read| Refused {
        to,
        block,
        kept,
        read,
    };
    over(100, 200).step("a step, memory", &mut short);
    over(100, 201).step("a step, buffer", &mut out);
    over(301, 0).step("a step, buffer by what is kept", &mut out);
    over(100, 201).step("a step, both", &mut short);
    over(usize::MAX, usize::MAX).step("a step, the largest numbers", &mut out);
}

// Steps of the listing with memory that is too short, each alone and all.
fn refuse_listings(to: Stdout, block: [u8; BLOCK]) {
    let mut short = [FILL; 299];
    let mut frames = [FILL; 400];
    let mut short_text = [FILL; 599];
    let mut text = [FILL; 700];
    let over = |kept, read| Refused {
        to,
        block,
        kept,
        read,
    };
    over(100, 200).listing("a listing, text", &mut frames, &mut short_text);
    over(100, 200).listing("a listing, frames", &mut short, &mut text);
    over(100, 201).listing("a listing, buffer", &mut frames, &mut text);
    over(100, 201).listing("a listing, all", &mut short, &mut short_text);
    over(usize::MAX, usize::MAX).listing("a listing, the largest numbers", &mut frames, &mut text);
}

// Gives the first 300 bytes of the line to every call that can refuse them.
pub fn refuse(to: Stdout, line: &[u8]) {
    let Some(block) = line.first_chunk::<BLOCK>() else {
        say!(to; "the line is too short");
        return;
    };
    say!(to; "too short");
    refuse_block(to, block);
    refuse_steps(to, *block);
    refuse_listings(to, *block);
}

// Reads a recorded line, which is given on standard input, through the receiver's calls, in one block, and in blocks of 1 to
// 300 bytes, and says whether each way delivers the same frames. It lists the frames that the calls deliver, and gives the
// line's first bytes to every call that can refuse them.
#![tactic(auto)]

mod blocks;
mod refusals;

use frame::delivery::next_end;
use run_text::count::Tally;
use run_text::heard::{Delivered, hear_bytes};
use run_text::read::read_whole;
use run_text::say;
use run_text::write::write_frame;
use std::io::Stdout;

// Writes the line of each of the frames, which stand end to end.
fn say_frames(to: Stdout, frames: &[u8]) {
    let mut at = 0;
    // The place moves by a frame's length, so that this is no loop over places.
    while at < frames.len() {
        let next = next_end(frames, at);
        write_frame(to, &frames[at..next]);
        at = next;
    }
}

// A line, and what the calls delivered of it; none where one was refused.
#[derive(Clone, Copy)]
struct Expected<'l, 'f> {
    to: Stdout,
    line: &'l [u8],
    delivered: Option<Delivered<'f>>,
}

impl Expected<'_, '_> {
    // Lists what the calls delivered, and writes how much it is.
    fn say(self) {
        match self.delivered {
            Some(Delivered { bytes, frames }) => {
                say_frames(self.to, bytes);
                say!(self.to; "{frames} frames, {} bytes", bytes.len());
            }
            None => say!(self.to; "a call was refused"),
        }
    }

    // Whether another way of reading the line delivers the same.
    fn is_same(self, read: Option<Delivered<'_>>) -> bool {
        read.is_some() && read == self.delivered
    }

    // Reads the line in one block, and writes whether it delivers the same.
    fn compare_whole(self, out: &mut [u8]) {
        let is_same = self.is_same(blocks::read_whole(self.line, out));
        say!(self.to; "one block: {}", if is_same { "the same" } else { "differs" });
    }

    // Reads the line in blocks of 1 to 300 bytes, and writes how many sizes deliver the same; one that does not is named. The end
    // comes with the last bytes or in a call of its own.
    fn compare_sizes(self, words: &str, with_last: bool, out: &mut [u8]) {
        let mut tally = Tally::default();
        for size in 1..=300 {
            let is_same = self.is_same(blocks::read_blocks(self.line, size, with_last, out));
            if !is_same {
                say!(self.to; "blocks of this size differ: {size}");
            }
            tally = tally.counted(is_same);
        }
        say!(self.to; "{words}: {} the same, {} differ", tally.same, tally.differ);
    }
}

// Reads the line in every way.
fn compare(to: Stdout, line: &[u8]) {
    let mut frames = [0u8; 65536];
    let mut out = [0u8; 65536];
    let delivered = hear_bytes(line, &mut frames);
    let expected = Expected {
        to,
        line,
        delivered,
    };
    expected.say();
    expected.compare_whole(&mut out);
    expected.compare_sizes("blocks of 1 to 300 bytes", false, &mut out);
    expected.compare_sizes("ended with their last bytes", true, &mut out);
    refusals::refuse(to, line);
}

// Reads the whole line, of less than 32,768 bytes, and compares.
fn main(rt: HostRuntime) {
    let to = rt.stdout();
    let mut buffer = [0u8; 32768];
    let Some(line) = read_whole(rt.stdin(), &mut buffer) else {
        say!(to; "too long a line");
        return;
    };
    compare(to, line);
}

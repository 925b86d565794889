// A whole recorded line, its end taken as a silence, as one function for C: through the receiver's calls, and straight from the
// slice. Both are held to one definition, so that they answer alike on every line. `receive_line_c` exports them, for the benchmark.
#![tactic(auto)]

ghost use Rattle.std.specs.Prelude.{◌≡◌, ◌++◌, map, ◌+◌, ◌≤◌, length, take};
ghost use Rattle.laws.specs.Memory.{outcome, over};
ghost use Rattle.line_terms.specs.Line.{byte};
ghost use Rattle.receive_line.specs.WholeLine.{received_line};
ghost use Rattle.receive_line.specs.Receiving.{Receiving};

use frame::MOST_FRAME;
use line::{Delivered, Received, Receiver};

// A receiver that has been fed, and how many bytes the frames have that it delivered.
#[derive(Clone, Copy)]
struct Fed {
    receiver: Receiver,
    at: usize,
}

// Copies what was delivered to `out` from `at` on, and returns where it ends. Mostly it is nothing, and then no copy is called.
fn gather(delivered: &[u8], at: usize, out: &mut [u8]) -> usize
    requires { at + length delivered.now ≤ length out.old }
    ensures { (result ≡ at + length delivered.now) × (out.new ≡ over (take at out.old ++ delivered.now) out.old) }
{
    if delivered.is_empty() {
        return at;
    }
    let end = at + delivered.len();
    out[at..end].copy_from_slice(delivered);
    end
}

// Feeds a fresh receiver every byte of `input`, and writes all frames delivered end to end to the front of `out`. The loop
// carries what a call returned, receiver and answer together, which spares a copy of the receiver.
fn receive_all(input: &[u8], out: &mut [u8]) -> Fed
    requires { length input.now ≤ length out.old }
    ensures { Receiving (map byte input.now) out.old out.new result.receiver result.at }
{
    let mut received = Received {
        receiver: Receiver::new(),
        answer: Ok(Delivered {
            bytes: 0,
            frames: 0,
        }),
    };
    let mut scratch = [0u8; MOST_FRAME];
    let mut at = 0;
    for &b in input {
        received = received.receiver.byte(b, &mut scratch);
        if let Ok(delivered) = received.answer {
            at = gather(&scratch[..delivered.bytes], at, out);
        }
    }
    Fed {
        receiver: received.receiver,
        at,
    }
}

// Feeds a fresh receiver every byte of `input` and then a silence, writes all frames delivered end to end to the front of
// `out`, and returns how many bytes they have. An `out` shorter than `input` is answered with the largest number, since C calls this.
pub fn receive_line(input: &[u8], out: &mut [u8]) -> usize
    ensures { outcome result out.new ≡ received_line input.now out.old }
{
    if out.len() < input.len() {
        return usize::MAX;
    }
    let Fed { receiver, at } = receive_all(input, out);
    let mut scratch = [0u8; MOST_FRAME];
    match receiver.silence(&mut scratch).answer {
        Err(_) => at,
        Ok(delivered) => gather(&scratch[..delivered.bytes], at, out),
    }
}

// Reads `input` straight, as one block with which the line has ended, and answers as `receive_line` does.
pub fn read_line(input: &[u8], out: &mut [u8]) -> usize
    ensures { outcome result out.new ≡ received_line input.now out.old }
{
    match line_block::read_block(input, true, out) {
        Err(_) => usize::MAX,
        Ok(read) => read.bytes,
    }
}

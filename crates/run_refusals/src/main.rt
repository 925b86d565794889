// Runs the receiver's refusals, alone and two at once: for receivers within their range and outside it, and for output
// buffers of several lengths, it says what a byte and what a silence are answered, and what they change.
#![tactic(auto)]

use line::{Delivered, Received, Receiver};
use line_verdict::MOST_KEPT;
use run_text::memory::{FILL, is_filled};
use run_text::say;
use std::io::Stdout;

// How many bytes an output buffer has.
const MEMORY: usize = 300;

// Case A of document 01.
const A: [u8; 16] = [
    0x68, 0x01, 0x00, 0x00, 0x00, 0x00, 0x00, 0x68, 0x11, 0x04, 0x33, 0x33, 0x34, 0x33, 0xB3, 0x16,
];

// A receiver that counts so many kept bytes, the first of which are case A with another byte at a place.
fn keeping(place: usize, byte: u8, count: usize) -> Receiver {
    let mut kept = [0u8; MOST_KEPT];
    kept[..16].copy_from_slice(&A);
    if place < 16 {
        kept[place] = byte;
    }
    Receiver { kept, count }
}

// How something is after a call.
fn after(is_same: bool) -> &'static str {
    if is_same { "as before" } else { "changed" }
}

// Writes the line of a call: its name and symbol, its answer, and what it changed of the receiver, its array beyond the count too,
// and of the output buffer.
fn say(
    to: Stdout,
    name: &str,
    symbol: &str,
    before: Receiver,
    received: Received,
    memory: &[u8; MEMORY],
) {
    let receiver = received.receiver;
    // A receiver derives no `==`: nothing but this test compares two.
    let receiver = after(before.count == receiver.count && before.kept == receiver.kept);
    let memory = after(is_filled(memory));
    match received.answer {
        Err(refusal) => {
            let number = refusal.number();
            say!(to; "{name}, {symbol}: refused {number}, receiver {receiver}, memory {memory}")
        }
        Ok(Delivered { bytes, frames }) => {
            say!(to; "{name}, {symbol}: delivered {bytes} {frames}, receiver {receiver}, memory {memory}")
        }
    }
}

// Gives a receiver a symbol by a call, with so many bytes of output buffer.
fn run_call<F: FnOnce(Receiver, &mut [u8]) -> Received>(
    to: Stdout,
    name: &str,
    symbol: &str,
    receiver: Receiver,
    room: usize,
    call: F,
)
    requires { F.IsAlwaysCallable call }
{
    let mut memory = [FILL; MEMORY];
    let received = call(receiver, &mut memory[..room.min(MEMORY)]);
    say(to, name, symbol, receiver, received, &memory);
}

// Gives a receiver the byte 16, and then, as it was, a silence.
fn run(to: Stdout, name: &str, receiver: Receiver, room: usize) {
    run_call(to, name, "byte", receiver, room, |receiver, out| {
        receiver.byte(0x16, out)
    });
    run_call(to, name, "silence", receiver, room, |receiver, out| {
        receiver.silence(out)
    });
}

// Receivers within their range.
fn run_good(to: Stdout) {
    let fresh = Receiver::new();
    run(to, "fresh, no memory", fresh, 0);
    run(to, "fresh, 211 bytes", fresh, 211);
    run(to, "fresh, 212 bytes", fresh, 212);
    let unfinished = keeping(14, 0xB3, 15);
    run(to, "A but its last byte, 211 bytes", unfinished, 211);
    run(to, "A but its last byte, 212 bytes", unfinished, 212);
    run(to, "A but its last byte, 300 bytes", unfinished, 300);
}

// Receivers outside their range, and those with too little memory besides.
fn run_bad(to: Stdout) {
    let begun = keeping(0, 0x67, 1);
    run(to, "a first byte 67", begun, 212);
    run(to, "a first byte 67, 211 bytes", begun, 211);
    run(to, "an eighth byte 69", keeping(7, 0x69, 8), 212);
    run(to, "L 201", keeping(9, 201, 10), 212);
    let wrong_sum = keeping(14, 0xB4, 15);
    run(to, "A with checksum B4 but its last byte", wrong_sum, 212);
    run(
        to,
        "A with checksum B4 but its last byte, no memory",
        wrong_sum,
        0,
    );
    run(to, "A whole", keeping(14, 0xB3, 16), 212);
    run(to, "A and a byte more", keeping(14, 0xB3, 17), 212);
    run(to, "212 bytes counted", keeping(14, 0xB3, 212), 212);
    let largest = keeping(14, 0xB3, usize::MAX);
    run(to, "the largest count", largest, 212);
    run(to, "the largest count, 211 bytes", largest, 211);
}

fn main(rt: HostRuntime) {
    let to = rt.stdout();
    run_good(to);
    run_bad(to);
}

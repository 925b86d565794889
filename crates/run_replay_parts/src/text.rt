// The texts of the replay program, written into an output buffer of which so many bytes are lent, and the addresses that it reads.
use crate::memory::{MEMORY, write_text};
use replay_address::read_address;
use replay_text::{Message, Reason};
use run_text::memory::FILL;
use run_text::read::skip_blank;
use run_text::say;
use run_text::write::Hex;
use std::io::Stdout;

// Writes a message into an output buffer of which so many bytes are lent: the answer, and the text.
pub fn show(to: Stdout, message: Message, room: usize) {
    let mut out = [FILL; MEMORY];
    let written = replay_text::write_message(message, &mut out[..room.min(MEMORY)]);
    match written {
        Some(n) => {
            say!(to; "written {n}");
            write_text(to, &out, n);
        }
        None => {
            say!(to; "too little memory");
            write_text(to, &out, 0);
        }
    }
}

// Writes the text of a refusal at a place.
pub fn refusal(to: Stdout, number: u32, place: u64, room: usize) {
    let refusal = (number % 256) as u8;
    show(to, Message::BadRecord { refusal, place }, room);
}

// Writes the text of so many records, frames and replies.
pub fn counts(to: Stdout, records: u64, frames: u64, replies: u64, room: usize) {
    show(
        to,
        Message::Replayed {
            records,
            frames,
            replies,
        },
        room,
    );
}

// The reason of a number.
fn reason_of(number: u32) -> Reason {
    match number {
        0 => Reason::Asked,
        1 => Reason::NotOneArgument,
        _ => Reason::BadAddress,
    }
}

// Writes the text of how the program is called, for the reason of a number.
pub fn usage(to: Stdout, number: u32, room: usize) {
    show(to, Message::Usage(reason_of(number)), room);
}

// Writes the address that is read from a text behind a blank; six zeros where it is none.
pub fn address(to: Stdout, text: &[u8]) {
    match read_address(skip_blank(text)) {
        Some(address) => say!(to; "address{}", Hex(&address)),
        None => say!(to; "no address{}", Hex(&[0; 6])),
    }
}

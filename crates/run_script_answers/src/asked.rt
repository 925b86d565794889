// The reader's end.
use crate::MEMORY;
use crate::written::{write_answered, write_refused};
use frame::refusal::Refusal;
use reader::Request;
use reader_judgement::{Action, Reply};
use run_text::memory::{FILL, write_changed, write_front};
use run_text::say;
use run_text::write::Hex;
use std::io::Stdout;

// What a control asks for.
fn action_of(control: u8) -> Action {
    match control {
        0x11 => Action::ReadData,
        0x14 => Action::WriteData,
        _ => Action::ReadAddress,
    }
}

// The request of its first bytes and of a value.
fn request_with(head: &[u8; 19], value: &[u8]) -> Request {
    let [
        control,
        a0,
        a1,
        a2,
        a3,
        a4,
        a5,
        i0,
        i1,
        i2,
        i3,
        level,
        p0,
        p1,
        p2,
        o0,
        o1,
        o2,
        o3,
    ] = *head;
    let mut first = [0u8; 38];
    for (place, byte) in first.iter_mut().zip(value) {
        *place = *byte;
    }
    Request {
        action: action_of(control),
        address: [a0, a1, a2, a3, a4, a5],
        identifier: u32::from_be_bytes([i0, i1, i2, i3]),
        level,
        password: [p0, p1, p2],
        operator: [o0, o1, o2, o3],
        value: first,
        count: value.len(),
    }
}

// The request of these bytes: control, address, identifier, level, password, operator code, and the value. Fewer than 19 are a
// read of the address.
pub fn request_of(bytes: &[u8]) -> Request {
    match bytes.split_first_chunk() {
        Some((head, value)) => request_with(head, value),
        None => request_with(&[0u8; 19], &[]),
    }
}

// Builds the request into an output buffer of so many bytes, and writes what is answered.
pub fn build(to: Stdout, request: Request, room: usize) {
    let mut out = [FILL; MEMORY];
    let built = request.build(&mut out[..room.min(MEMORY)]);
    write_answered(to, built, &out, |bytes| say!(to; "request{}", Hex(bytes)));
}

// Writes what the reader made of a reply, with the value that it was given.
pub(crate) fn write_judgement(to: Stdout, judgement: Result<Reply, Refusal>, out: &[u8; MEMORY]) {
    match judgement {
        Ok(Reply::Value(length)) => write_front(to, out, length, |bytes| {
            say!(to; "value{}", Hex(bytes))
        }),
        Ok(Reply::Error(byte)) => {
            say!(to; "error {byte:02X}");
            write_changed(to, out);
        }
        Err(refusal) => write_refused(to, refusal, out),
    }
}

// Judges a reply in an output buffer of so many bytes, and writes what is answered.
pub fn judge(to: Stdout, request: Request, bytes: &[u8], room: usize) {
    let mut out = [FILL; MEMORY];
    let judgement = request.judge(bytes, &mut out[..room.min(MEMORY)]);
    write_judgement(to, judgement, &out);
}

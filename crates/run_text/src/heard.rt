// A line through the receiver's calls, and what any way of reading it delivers.
use crate::read::{Symbol, symbol_of};
use line::Receiver;

// So many bytes of so many frames, which a call leaves in its output buffer.
#[derive(Clone, Copy, Default)]
pub struct Gathered {
    pub bytes: usize,
    pub frames: usize,
}

impl Gathered {
    // After a call that left more behind those of the calls before it.
    pub fn and(self, more: Gathered) -> Gathered {
        Gathered {
            bytes: self.bytes.saturating_add(more.bytes),
            frames: self.frames.saturating_add(more.frames),
        }
    }

    // What is gathered, with the bytes at the front of their buffer.
    pub fn delivered(self, out: &[u8]) -> Option<Delivered<'_>> {
        let bytes = out.get(..self.bytes)?;
        let frames = self.frames;
        Some(Delivered { bytes, frames })
    }
}

// The bytes of so many frames, end to end.
#[derive(Clone, Copy, PartialEq)]
pub struct Delivered<'a> {
    pub bytes: &'a [u8],
    pub frames: usize,
}

// The receiver and what its calls have gathered.
#[derive(Clone, Copy)]
struct Heard {
    receiver: Receiver,
    gathered: Gathered,
}

impl Heard {
    // Nothing is heard yet.
    fn new() -> Heard {
        Heard {
            receiver: Receiver::new(),
            gathered: Gathered::default(),
        }
    }

    // After a symbol, whose frames stand behind those of the calls before it; none where its call is refused, as one is that finds
    // less than 212 bytes of room there.
    fn symbol(self, symbol: Symbol, out: &mut [u8]) -> Option<Heard> {
        let gathered = self.gathered;
        let receiver = self.receiver;
        let room = out.get_mut(gathered.bytes..)?;
        let received = match symbol {
            Symbol::Byte(b) => receiver.byte(b, room),
            Symbol::Silence => receiver.silence(room),
        };
        let line::Delivered { bytes, frames } = received.answer.ok()?;
        let receiver = received.receiver;
        let gathered = gathered.and(Gathered { bytes, frames });
        Some(Heard { receiver, gathered })
    }
}

// Hears the symbols of a text in a fresh receiver: each is a blank and two characters, a byte in hexadecimal or -- for a silence.
pub fn hear_text<'a>(text: &[u8], out: &'a mut [u8]) -> Option<Delivered<'a>> {
    let mut heard = Heard::new();
    for symbol in text.chunks_exact(3) {
        heard = heard.symbol(symbol_of(symbol)?, out)?;
    }
    heard.gathered.delivered(out)
}

// Hears a line in a fresh receiver, byte by byte, and ends it with a silence.
pub fn hear_bytes<'a>(line: &[u8], out: &'a mut [u8]) -> Option<Delivered<'a>> {
    let mut heard = Heard::new();
    for b in line {
        heard = heard.symbol(Symbol::Byte(*b), out)?;
    }
    heard = heard.symbol(Symbol::Silence, out)?;
    heard.gathered.delivered(out)
}

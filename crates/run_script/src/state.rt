// What stands between two lines of the script, and what each call makes of it. A call writes its answer.
use energy::{Energies, Rows, reading};
use meter::{Counted, Meter};
use reader::Request;
use run_script_answers::asked::request_of;
use run_script_answers::exchanged::Sizes;
use run_script_answers::told::write_done;
use run_script_answers::{asked, exchanged, told};
use run_text::say;
use run_text::write::{Hex, write_frame};
use std::io::Stdout;

// Standard output, the meter, its readings, the size of the output buffer for a frame, the reader's request, and the sizes of an exchange's output
// buffers.
#[derive(Clone, Copy)]
pub struct State {
    to: Stdout,
    meter: Meter,
    energies: Energies,
    room: usize,
    request: Request,
    sizes: Sizes,
}

// The rows with another reading, or the same where there is no such place.
fn with_reading(mut rows: Rows, row: u32, column: u32, value: u32) -> Rows {
    if row < 13 && column < 5 {
        rows[row as usize][column as usize] = reading::of(value);
    }
    rows
}

// A direction or a rate as a byte; one that does not fit becomes the largest, which is none either.
fn byte_of(n: u32) -> u8 {
    u8::try_from(n).unwrap_or(u8::MAX)
}

impl State {
    // Before the first line: a fresh meter of address zero, and a read of its address.
    pub fn start(to: Stdout) -> State {
        let created = Meter::fresh([0u8; 6]);
        State {
            to,
            meter: created.meter,
            energies: created.energies,
            room: 212,
            request: request_of(&[]),
            sizes: Sizes {
                sent: 66,
                heard: 212,
                reply: 212,
                value: 196,
            },
        }
    }

    // With another meter.
    fn with_meter(self, meter: Meter) -> State {
        State { meter, ..self }
    }

    // With an output buffer of another size.
    pub fn memory(self, room: u32) -> State {
        State {
            room: room as usize,
            ..self
        }
    }

    // With a fresh meter of an address, and an output buffer of 212 bytes.
    pub fn meter(self, address: [u8; 6]) -> State {
        let created = Meter::fresh(address);
        write_done(self.to, created.answer, "done");
        State {
            meter: created.meter,
            energies: created.energies,
            room: 212,
            ..self
        }
    }

    // After the key was set.
    pub fn key(self, on: bool) -> State {
        let set = self.meter.set_key(self.energies, on);
        write_done(self.to, set.answer, "done");
        self.with_meter(set.meter)
    }

    // After a pulse or a settlement.
    fn counted(self, counted: Counted) -> State {
        write_done(self.to, counted.answer, "done");
        State {
            meter: counted.meter,
            energies: counted.energies,
            ..self
        }
    }

    // After a pulse of an amount, in a direction and at a rate.
    pub fn pulse(self, [amount, direction, rate]: [u32; 3]) -> State {
        let counted = self
            .meter
            .pulse(self.energies, amount, byte_of(direction), byte_of(rate));
        self.counted(counted)
    }

    // After a settlement.
    pub fn settle(self) -> State {
        let counted = self.meter.settle(self.energies);
        self.counted(counted)
    }

    // After a frame, with an output buffer of so many bytes, and a reply shown.
    fn told<F: FnOnce(&[u8])>(self, frame: &[u8], room: usize, show: F) -> State
        requires { F.IsAlwaysCallable show }
    {
        self.with_meter(told::tell_frame(self.to, self.meter, self.energies, frame, room, show))
    }

    // After a frame.
    pub fn frame(self, frame: &[u8]) -> State {
        self.told(
            frame,
            self.room,
            |reply| say!(self.to; "reply{}", Hex(reply)),
        )
    }

    // After a frame, written with its reply as lines of the listing.
    pub fn tell(self, frame: &[u8]) -> State {
        write_frame(self.to, frame);
        self.told(frame, 212, |reply| write_frame(self.to, reply))
    }

    // As it is, and shown.
    pub fn show(self) -> State {
        told::show(self.to, self.meter);
        self
    }

    // With another reading, within its range or not. Direction 0 is forward, and 1 reverse.
    pub fn reading(self, [direction, row, column, value]: [u32; 4]) -> State {
        let mut energies = self.energies;
        match direction {
            0 => energies.forward = with_reading(energies.forward, row, column, value),
            1 => energies.reverse = with_reading(energies.reverse, row, column, value),
            _ => {}
        }
        State { energies, ..self }
    }

    // With another byte at a place of the registers, decimal or not; the same where there is no such place.
    pub fn register(self, place: u32, byte: u8) -> State {
        let mut meter = self.meter;
        if place < 21 {
            meter.registers[place as usize] = byte;
        }
        self.with_meter(meter)
    }

    // With another address, good or not.
    pub fn address(self, address: [u8; 6]) -> State {
        self.with_meter(Meter {
            address,
            ..self.meter
        })
    }

    // With another request, whose value stands behind the first bytes; none where there are fewer.
    pub fn request(self, bytes: &[u8]) -> Option<State> {
        if bytes.len() < 19 {
            return None;
        }
        Some(State {
            request: request_of(bytes),
            ..self
        })
    }

    // With other sizes of an exchange's output buffers.
    pub fn lent(self, sizes: [u32; 4]) -> State {
        let [sent, heard, reply, value] = sizes.map(|n| n as usize);
        State {
            sizes: Sizes {
                sent,
                heard,
                reply,
                value,
            },
            ..self
        }
    }

    // As it is, after the request was built.
    pub fn build(self) -> State {
        asked::build(self.to, self.request, self.room);
        self
    }

    // As it is, after a reply was judged.
    pub fn judge(self, reply: &[u8]) -> State {
        asked::judge(self.to, self.request, reply, self.room);
        self
    }

    // After an exchange of the request with the meter.
    pub fn exchange(self) -> State {
        self.with_meter(exchanged::exchange(
            self.to,
            self.request,
            self.meter,
            self.energies,
            self.sizes,
        ))
    }
}

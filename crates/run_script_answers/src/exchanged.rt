// Both ends.
use crate::MEMORY;
use crate::asked::write_judgement;
use energy::Energies;
use exchange::{ExchangeAnswer, Exchanged};
use frame::refusal::Refusal;
use meter::Meter;
use reader::Request;
use run_text::memory::{FILL, write_changed, write_front};
use run_text::say;
use run_text::write::write_frame;
use std::io::Stdout;

// The sizes of the output buffers of an exchange: for the request, for what the receiver delivers, for the reply and the value.
#[derive(Clone, Copy)]
pub struct Sizes {
    pub sent: usize,
    pub heard: usize,
    pub reply: usize,
    pub value: usize,
}

// The output buffers of an exchange.
#[derive(Clone, Copy)]
struct Buffers {
    sent: [u8; MEMORY],
    heard: [u8; MEMORY],
    reply: [u8; MEMORY],
    value: [u8; MEMORY],
}

impl Buffers {
    // Before an exchange.
    fn filled() -> Buffers {
        Buffers {
            sent: [FILL; MEMORY],
            heard: [FILL; MEMORY],
            reply: [FILL; MEMORY],
            value: [FILL; MEMORY],
        }
    }

    // Writes the request that was delivered as a line of the listing. Of the buffer for the request nothing is changed behind it and
    // its wake-up bytes.
    fn write_request(&self, to: Stdout, delivered: usize) {
        let Some(rest) = self.sent[4..].get(delivered..) else {
            return;
        };
        write_changed(to, rest);
        write_front(to, &self.heard, delivered, |frame| write_frame(to, frame));
    }

    // Writes why there is no reply, which leaves the buffers for it and for its value as they were.
    fn write_none(&self, to: Stdout, word: &str, refusal: Refusal) {
        say!(to; "{word} {}", refusal.number());
        write_changed(to, &self.reply);
        write_changed(to, &self.value);
    }

    // Writes the answer to an exchange: the request and the reply as lines of the listing, and what the reader made of it.
    fn write(&self, to: Stdout, done: Exchanged) {
        let answer = done.answer;
        match answer {
            ExchangeAnswer::Refused(refusal) => {
                self.write_none(to, "refused", refusal);
                write_changed(to, &self.sent);
                write_changed(to, &self.heard);
            }
            ExchangeAnswer::Silent(refusal) => {
                self.write_request(to, done.delivered);
                self.write_none(to, "silent", refusal);
            }
            ExchangeAnswer::Judged(judgement) => {
                self.write_request(to, done.delivered);
                write_front(
                    to,
                    &self.reply,
                    done.replied,
                    |frame| write_frame(to, frame),
                );
                write_judgement(to, judgement, &self.value);
            }
        }
    }
}

// Carries out an exchange in output buffers of these sizes, writes its answer, and returns the meter after it.
pub fn exchange(
    to: Stdout,
    request: Request,
    meter: Meter,
    energies: Energies,
    sizes: Sizes,
) -> Meter {
    let mut buffers = Buffers::filled();
    let done = exchange::exchange(
        request,
        meter,
        energies,
        &mut buffers.sent[..sizes.sent.min(MEMORY)],
        &mut buffers.heard[..sizes.heard.min(MEMORY)],
        &mut buffers.reply[..sizes.reply.min(MEMORY)],
        &mut buffers.value[..sizes.value.min(MEMORY)],
    );
    buffers.write(to, done);
    done.meter
}

// Both ends and the line together: a request is built, heard byte by byte by a fresh receiver and handed to the meter, and the
// reply is judged. Demand 2 of the letter is `demand_2` in proofs/Demand2.antt; document 01's cases A to I are one table in the
// crate `exchange_cases`.
#![tactic(auto)]

ghost use Rattle.std.specs.Prelude.{◌≡◌, ◌≤◌, length, drop};
ghost use Rattle.laws.specs.Memory.{outcome, over};
ghost use Rattle.frame.specs.Frame.{most_frame};
ghost use Rattle.exchange.specs.Exchange.{WakeUpFrame, WithinReply, refused_with, concluded, is_enough, outcome_of, memories, exchanged};

use energy::Energies;
use frame::MOST_FRAME;
use frame::refusal::Refusal;
use line::{Delivered, Received, Receiver};
use meter::{Answered, Meter};
use reader::{REQUEST_MEMORY, Request, VALUE_MEMORY};
use reader_judgement::Reply;

// The answer to an exchange.
#[derive(Clone, Copy)]
pub enum ExchangeAnswer {
    // A refusal: nothing was sent, all as before.
    Refused(Refusal),
    // The meter gave no reply, by its refusal, whose number is 3: meter and memory for reply and value as before.
    Silent(Refusal),
    // What the reader made of the reply.
    Judged(Result<Reply, Refusal>),
}

// The meter after an exchange, with the answer.
#[derive(Clone, Copy)]
pub struct Exchanged {
    pub meter: Meter,
    pub answer: ExchangeAnswer,
    // The length of the frame that the receiver delivered, and of the meter's reply; 0 where there is none.
    pub delivered: usize,
    pub replied: usize,
}

// A refusal: the meter as it was.
fn refused(meter: Meter, refusal: Refusal) -> Exchanged
    ensures { result ≡ refused_with refusal meter }
{
    Exchanged {
        meter,
        answer: ExchangeAnswer::Refused(refusal),
        delivered: 0,
        replied: 0,
    }
}

// Whether there is memory for the request, the receiver, the reply and the value: four lengths, as `exchange` is lent four memories.
#[tactic(auto, unfolding(crate::specs::Exchange::is_enough))]
fn is_enough(sent: usize, heard: usize, reply: usize, value: usize) -> bool
    ensures { result ≡ is_enough sent heard reply value }
{
    REQUEST_MEMORY <= sent && MOST_FRAME <= heard && MOST_FRAME <= reply && VALUE_MEMORY <= value
}

// A fresh receiver hears four FE and a frame: the last byte delivers the frame to the front of the output buffer.
fn hear(sent: &[u8], heard: &mut [u8]) -> usize
    requires wake_up_frame { WakeUpFrame sent.now }
    requires most_frame_in_bounds { most_frame ≤ length heard.old }
    ensures { outcome result heard.new ≡ outcome (length (drop 4 sent.now)) (over (drop 4 sent.now) heard.old) }
{
    let mut received = Received {
        receiver: Receiver::new(),
        answer: Ok(Delivered {
            bytes: 0,
            frames: 0,
        }),
    };
    for b in sent {
        received = received.receiver.byte(*b, heard);
    }
    match received.answer {
        Err(_) => 0,
        Ok(delivered) => delivered.bytes,
    }
}

// The end of an exchange: the reader judges the meter's reply, if there is one.
#[tactic(auto, unfolding(crate::specs::Exchange::concluded))]
fn conclude(
    request: Request,
    answered: Answered,
    delivered: usize,
    reply: &[u8],
    value: &mut [u8],
) -> Exchanged
    requires { WithinReply answered.answer reply.now }
    ensures { outcome result value.new ≡ concluded request delivered answered reply.now value.old }
{
    let meter = answered.meter;
    match answered.answer {
        Err(refusal) => Exchanged {
            meter,
            answer: ExchangeAnswer::Silent(refusal),
            delivered,
            replied: 0,
        },
        Ok(length) => {
            let judgement = request.judge(&reply[..length], value);
            Exchanged {
                meter,
                answer: ExchangeAnswer::Judged(judgement),
                delivered,
                replied: length,
            }
        }
    }
}

// An exchange with a meter, in four output buffers: for the request, for what the receiver delivers, for the reply and for the
// value. Refused with 16, with 1 under 66, 212, 212 and 196 bytes, and with 5: then nothing was sent, and all is as before.
// A request that is not for this meter gets its silence, 3. What the meter replies is judged, and no reply of a meter is refused
// by the judge (`exchange-answers`).
pub fn exchange(
    request: Request,
    meter: Meter,
    energies: Energies,
    sent: &mut [u8],
    heard: &mut [u8],
    reply: &mut [u8],
    value: &mut [u8],
) -> Exchanged
    ensures { outcome_of result (memories sent.new heard.new reply.new value.new) ≡ exchanged request meter energies.forward energies.reverse (memories sent.old heard.old reply.old value.old) }
{
    if !meter.is_within_ranges(energies) {
        return refused(meter, Refusal::OutOfRange);
    }
    if !is_enough(sent.len(), heard.len(), reply.len(), value.len()) {
        return refused(meter, Refusal::ShortMemory);
    }
    let Ok(n) = request.build(sent) else {
        return refused(meter, Refusal::NotAllowed);
    };
    let delivered = hear(&sent[..n], heard);
    let answered = meter.answer(energies, &heard[..delivered], reply);
    conclude(request, answered, delivered, reply, value)
}

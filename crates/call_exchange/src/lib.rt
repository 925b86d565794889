// Both ends' exchange as a function for C, which `call_exchange_c` exports, beside the calls of each end: structs by value, enums and refusals as numbers. It is an archive
// of its own, since a program that has both an exchange and a call of `answer` does not make that call a part of itself.
#![tactic(auto)]

ghost use Rattle.std.specs.Prelude.{◌≡◌};
ghost use Rattle.exchange.specs.Exchange.{memories, exchanged};
ghost use Rattle.call_ends.specs.Numbers.{request_of};
ghost use Rattle.call_exchange.specs.Numbers.{exchange_judged_of, exchange_done_of, done_with, exchange_told};

use call_ends::request::AskedRequest;
use call_ends::{ReplyJudged, judged_as};
use energy::Energies;
use exchange::{ExchangeAnswer, Exchanged};
use frame::refusal::Refusal;
use meter::Meter;

// Which answer an exchange is that comes to no judgement, behind those of a judgement.
const SILENT: u8 = 3;

const NOT_SENT: u8 = 4;

// The meter after an exchange, which answer it is with its number, and the lengths of the frame delivered and of the reply.
#[repr(C)]
#[derive(Clone, Copy)]
pub struct ExchangeDone {
    pub meter: Meter,
    pub which: u8,
    pub number: usize,
    pub delivered: usize,
    pub replied: usize,
}

// An answer to an exchange as numbers.
fn exchanged_as(answer: ExchangeAnswer) -> ReplyJudged
    ensures { result ≡ exchange_judged_of answer }
{
    match answer {
        ExchangeAnswer::Judged(judgement) => judged_as(judgement.map_err(Refusal::number)),
        ExchangeAnswer::Silent(refusal) => ReplyJudged {
            which: SILENT,
            number: refusal.number() as usize,
        },
        ExchangeAnswer::Refused(refusal) => ReplyJudged {
            which: NOT_SENT,
            number: refusal.number() as usize,
        },
    }
}

// An exchange as numbers.
fn done_as(done: Exchanged) -> ExchangeDone
    ensures { result ≡ exchange_done_of done }
{
    let meter = done.meter;
    let answer = done.answer;
    let judged = exchanged_as(answer);
    ExchangeDone {
        meter,
        which: judged.which,
        number: judged.number,
        delivered: done.delivered,
        replied: done.replied,
    }
}

// A request exchanged with a meter, by `exchange::exchange`.
pub fn call_exchange(
    request: AskedRequest,
    meter: Meter,
    energies: Energies,
    sent: &mut [u8],
    heard: &mut [u8],
    reply: &mut [u8],
    value: &mut [u8],
) -> ExchangeDone
    ensures { done_with result (memories sent.new heard.new reply.new value.new) ≡ exchange_told (exchanged (request_of request) meter energies.forward energies.reverse (memories sent.old heard.old reply.old value.old)) }
{
    done_as(exchange::exchange(
        request.as_request(),
        meter,
        energies,
        sent,
        heard,
        reply,
        value,
    ))
}

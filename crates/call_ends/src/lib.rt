// Each end's calls as functions for C: structs by value, enums and refusals as numbers. `call_ends_c` exports them, for the benchmark.
#![tactic(auto)]

pub mod request;

ghost use Rattle.std.specs.Prelude.{◌≡◌};
ghost use Rattle.laws.specs.Memory.{outcome};
ghost use Rattle.meter.specs.Host.{key_set, pulsed_by, settled_by};
ghost use Rattle.meter.specs.Answer.{answered};
ghost use Rattle.reader.specs.Building.{built};
ghost use Rattle.reader.specs.Judging.{judged};
ghost use Rattle.call_ends.specs.Numbers.{told, refusal_of, meter_set_of, meter_counted_of, meter_answer_of, request_built_of, numbered, reply_judged_of, request_of};

use energy::Energies;
use frame::refusal::Refusal;
use meter::{Answered, Counted, KeySet, Meter};
use reader_judgement::Reply;
use request::AskedRequest;

// The number of an answer that is no refusal.
const DONE: u8 = 0;

// Which answer a judgement is.
const VALUE: u8 = 0;

const ERROR: u8 = 1;

const REFUSED: u8 = 2;

// The meter after a frame, with a refusal, or 0 and the reply's length.
#[repr(C)]
#[derive(Clone, Copy)]
pub struct MeterAnswer {
    pub meter: Meter,
    pub refusal: u8,
    pub length: usize,
}

// The meter after its key was set, with a refusal, or 0.
#[repr(C)]
#[derive(Clone, Copy)]
pub struct MeterSet {
    pub meter: Meter,
    pub refusal: u8,
}

// The meter and its readings after a pulse or a settlement, with a refusal, or 0. The readings stand first and the refusal behind them: where
// the meter stands first, the readings are copied once more.
#[repr(C)]
#[derive(Clone, Copy)]
pub struct MeterCounted {
    pub energies: Energies,
    pub refusal: u8,
    pub meter: Meter,
}

// A refusal, or 0 and the request's length.
#[repr(C)]
#[derive(Clone, Copy)]
pub struct RequestBuilt {
    pub refusal: u8,
    pub length: usize,
}

// Which answer it is, and its number: the value's length, the error byte or the refusal.
#[repr(C)]
#[derive(Clone, Copy)]
pub struct ReplyJudged {
    pub which: u8,
    pub number: usize,
}

// The number of an answer to the host. Neither type is this crate's, so that it is no `From`.
fn refusal_of(answer: Result<(), Refusal>) -> u8
    ensures { result ≡ refusal_of answer }
{
    match answer {
        Ok(()) => DONE,
        Err(refusal) => refusal.number(),
    }
}

// A meter and its readings as a call hands them back.
impl From<Counted> for MeterCounted {
    ghost from_gives = { λ counted told. told ≡ meter_counted_of counted };

    fn from(counted: Counted) -> Self {
        MeterCounted {
            energies: counted.energies,
            refusal: refusal_of(counted.answer),
            meter: counted.meter,
        }
    }
}

// A meter and the answer to its key's setting as a call hands them back.
impl From<KeySet> for MeterSet {
    ghost from_gives = { λ set told. told ≡ meter_set_of set };

    fn from(set: KeySet) -> Self {
        MeterSet {
            meter: set.meter,
            refusal: refusal_of(set.answer),
        }
    }
}

// The answer to a frame as numbers.
impl From<Answered> for MeterAnswer {
    ghost from_gives = { λ answered told. told ≡ meter_answer_of answered };

    fn from(answered: Answered) -> Self {
        let meter = answered.meter;
        match answered.answer {
            Err(refusal) => MeterAnswer {
                meter,
                refusal: refusal.number(),
                length: 0,
            },
            Ok(length) => MeterAnswer {
                meter,
                refusal: DONE,
                length,
            },
        }
    }
}

// The answer to the building of a request as numbers.
impl From<Result<usize, Refusal>> for RequestBuilt {
    ghost from_gives = { λ built told. told ≡ request_built_of built };

    fn from(built: Result<usize, Refusal>) -> Self {
        match built {
            Err(refusal) => RequestBuilt {
                refusal: refusal.number(),
                length: 0,
            },
            Ok(length) => RequestBuilt {
                refusal: DONE,
                length,
            },
        }
    }
}

// A judgement as numbers, whose refusal is any number. It is no `From` like the others: a `Result<Reply, u8>` does not say of what its number is.
pub fn judged_as(judgement: Result<Reply, u8>) -> ReplyJudged
    ensures { result ≡ reply_judged_of judgement }
{
    match judgement {
        Ok(Reply::Value(length)) => ReplyJudged {
            which: VALUE,
            number: length,
        },
        Ok(Reply::Error(byte)) => ReplyJudged {
            which: ERROR,
            number: byte as usize,
        },
        Err(refusal) => ReplyJudged {
            which: REFUSED,
            number: refusal as usize,
        },
    }
}

// The meter's answer to a frame, by `meter::Meter::answer`.
pub fn call_answer(meter: Meter, energies: Energies, bytes: &[u8], out: &mut [u8]) -> MeterAnswer
    ensures { outcome result out.new ≡ told meter_answer_of (answered bytes.now meter energies.forward energies.reverse out.old) }
{
    meter.answer(energies, bytes, out).into()
}

// The key set, by `meter::Meter::set_key`.
pub fn call_set_key(meter: Meter, energies: Energies, on: bool) -> MeterSet
    ensures { result ≡ meter_set_of (key_set on meter energies.forward energies.reverse) }
{
    meter.set_key(energies, on).into()
}

// A pulse counted, by `meter::Meter::pulse`.
pub fn call_pulse(
    meter: Meter,
    energies: Energies,
    amount: u32,
    direction: u8,
    rate: u8,
) -> MeterCounted
    ensures { result ≡ meter_counted_of (pulsed_by amount direction rate meter energies.forward energies.reverse) }
{
    meter.pulse(energies, amount, direction, rate).into()
}

// A settlement, by `meter::Meter::settle`.
pub fn call_settle(meter: Meter, energies: Energies) -> MeterCounted
    ensures { result ≡ meter_counted_of (settled_by meter energies.forward energies.reverse) }
{
    meter.settle(energies).into()
}

// A request built, by `reader::Request::build`.
pub fn call_build(request: AskedRequest, out: &mut [u8]) -> RequestBuilt
    ensures { outcome result out.new ≡ told request_built_of (built (request_of request) out.old) }
{
    request.as_request().build(out).into()
}

// A reply judged, by `reader::Request::judge`.
pub fn call_judge(request: AskedRequest, bytes: &[u8], out: &mut [u8]) -> ReplyJudged
    ensures { outcome result out.new ≡ told (λ judgement. reply_judged_of (numbered judgement)) (judged (request_of request) bytes.now out.old) }
{
    judged_as(
        request
            .as_request()
            .judge(bytes, out)
            .map_err(Refusal::number),
    )
}

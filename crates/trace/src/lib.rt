// The records of a trace: document 02, W1. A head stores what came over its line and what its host did: a kind byte, then its body, one
// record behind the other. Here a trace is read record by record; nothing is played.
#![tactic(auto)]

ghost use Rattle.std.specs.Prelude.{◌≡◌, ◌∷◌, drop};
ghost use Rattle.trace.specs.Trace.{front_of};

use frame::refusal::Refusal;
use item_identifier::identifier_of;

// A record.
#[derive(Clone, Copy)]
pub enum TraceRecord {
    // 01: one received byte.
    Byte(u8),
    // 02: a silence.
    Silence,
    // 03: a pulse.
    Pulse {
        direction: u8,
        rate: u8,
        amount: u32,
    },
    // 04: the key, on or off.
    Key(bool),
    // 05: a settlement.
    Settle,
}

// A good record at the front of the rest of a trace, and how many bytes it has, 1 to 7.
#[derive(Clone, Copy)]
pub struct RecordFound {
    pub found: TraceRecord,
    pub length: usize,
}

// What stands at the front where a body follows the kind byte 01: a byte, or 10 for a trace that ends before it.
#[tactic(auto, unfolding(crate::specs::Trace::record_length, crate::specs::Trace::whole_record, crate::specs::Trace::front_of))]
fn byte_of(body: &[u8]) -> Result<Option<RecordFound>, Refusal>
    ensures { result ≡ front_of (0x01 ∷ body.now) }
{
    match body {
        [] => Err(Refusal::CutOff),
        [b, ..] => Ok(Some(RecordFound {
            found: TraceRecord::Byte(*b),
            length: 2,
        })),
    }
}

// The same behind 03: a pulse, the amount's four bytes low first; 10 for a trace that ends inside it, then 9 for a direction that is not 0
// or 1 or a rate that is not 1 to 4.
#[tactic(auto, unfolding(crate::specs::Trace::record_length, crate::specs::Trace::whole_record, crate::specs::Trace::front_of, crate::specs::Trace::pulse_of, item_identifier::specs::Identifier::identifier_of))]
fn pulse_of(body: &[u8]) -> Result<Option<RecordFound>, Refusal>
    ensures { result ≡ front_of (0x03 ∷ body.now) }
{
    match body {
        [direction @ 0..=1, rate @ 1..=4, a, b, c, d, ..] => Ok(Some(RecordFound {
            found: TraceRecord::Pulse {
                direction: *direction,
                rate: *rate,
                amount: identifier_of(*a, *b, *c, *d),
            },
            length: 7,
        })),
        [_, _, _, _, _, _, ..] => Err(Refusal::BadRecord),
        _ => Err(Refusal::CutOff),
    }
}

// The same behind 04: the key; 10 for a trace that ends before its byte, then 9 for a byte above 1.
#[tactic(auto, unfolding(crate::specs::Trace::record_length, crate::specs::Trace::whole_record, crate::specs::Trace::front_of, crate::specs::Trace::key_of))]
fn key_of(body: &[u8]) -> Result<Option<RecordFound>, Refusal>
    ensures { result ≡ front_of (0x04 ∷ body.now) }
{
    match body {
        [] => Err(Refusal::CutOff),
        [on @ 0..=1, ..] => Ok(Some(RecordFound {
            found: TraceRecord::Key(*on == 1),
            length: 2,
        })),
        [_, ..] => Err(Refusal::BadRecord),
    }
}

// What stands at a place of a trace: nothing at its end or past it; 9 for an unknown kind, 10 for a record that ends past the trace, 9 for a
// field out of its range; else the record and its length.
#[tactic(auto, unfolding(crate::specs::Trace::record_length, crate::specs::Trace::whole_record, crate::specs::Trace::front_of))]
pub fn record_at(trace: &[u8], at: usize) -> Result<Option<RecordFound>, Refusal>
    ensures { result ≡ front_of (drop at trace.now) }
{
    match trace.get(at..) {
        None | Some([]) => Ok(None),
        Some([0x01, body @ ..]) => byte_of(body),
        Some([0x02, ..]) => Ok(Some(RecordFound {
            found: TraceRecord::Silence,
            length: 1,
        })),
        Some([0x03, body @ ..]) => pulse_of(body),
        Some([0x04, body @ ..]) => key_of(body),
        Some([0x05, ..]) => Ok(Some(RecordFound {
            found: TraceRecord::Settle,
            length: 1,
        })),
        Some(_) => Err(Refusal::BadRecord),
    }
}

// Document 01's table of refusals, with those of document 02.
ghost use Rattle.std.specs.Prelude.{◌≡◌};
ghost use Rattle.frame.specs.Refusals.{number_of};

// Why a call is refused. A refusal changes nothing.
#[derive(Clone, Copy, PartialEq, Eq)]
pub enum Refusal {
    // The lent memory is too short.
    ShortMemory,
    // The bytes are not exactly one frame.
    NotOneFrame,
    // A frame that is not for this meter: silence.
    NotForThisMeter,
    // A frame that is answered by silence by rule.
    SilentByRule,
    // A request that is not allowed.
    NotAllowed,
    // A frame that is not an answer to this request.
    NotAnAnswer,
    // An answer that is malformed.
    Malformed,
    // A bad address for a fresh meter, or a bad direction or rate.
    BadArgument,
    // A trace's record of an unknown kind, or with a field out of its range.
    BadRecord,
    // A trace that ends inside a record.
    CutOff,
    // A receiver or a meter is outside its ranges.
    OutOfRange,
}

impl Refusal {
    // The number that the papers give a refusal.
    pub fn number(self) -> u8
        ensures { result ≡ number_of self }
    {
        match self {
            Refusal::ShortMemory => 1,
            Refusal::NotOneFrame => 2,
            Refusal::NotForThisMeter => 3,
            Refusal::SilentByRule => 4,
            Refusal::NotAllowed => 5,
            Refusal::NotAnAnswer => 6,
            Refusal::Malformed => 7,
            Refusal::BadArgument => 8,
            Refusal::BadRecord => 9,
            Refusal::CutOff => 10,
            Refusal::OutOfRange => 16,
        }
    }
}

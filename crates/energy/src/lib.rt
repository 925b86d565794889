// The readings of a meter: document 01, "for each direction there are thirteen rows of five readings". What a reading is, rows of them, and
// both directions together. A host hands readings over by value, beside the meter; a test takes them lent.
#![tactic(auto)]

pub mod reading;
pub mod rows;

ghost use Rattle.std.specs.Prelude.{◌≡◌};

use reading::Reading;

// One direction: row 0 is current, rows 1 to 12 are the last settlements; the columns are the total and rates 1 to 4.
pub type Rows = [[Reading; 5]; 13];

// Both directions, as a host call hands them back; laid out as C has them, for `call_ends`.
#[repr(C)]
#[derive(Clone, Copy)]
pub struct Energies {
    pub forward: Rows,
    pub reverse: Rows,
}

impl Energies {
    // Both directions together.
    pub fn new(forward: Rows, reverse: Rows) -> Self
        ensures { result ≡ record { forward = forward; reverse = reverse } }
    {
        Energies { forward, reverse }
    }

    // The forward readings.
    pub fn forward_rows(self) -> Rows
        ensures { result ≡ self.forward }
    {
        self.forward
    }

    // The reverse readings.
    pub fn reverse_rows(self) -> Rows
        ensures { result ≡ self.reverse }
    {
        self.reverse
    }
}

// Counts, which stop at the largest number.

// How many comparisons came out the same, and how many did not.
#[derive(Clone, Copy, Default)]
pub struct Tally {
    pub same: usize,
    pub differ: usize,
}

impl Tally {
    // After one more comparison.
    pub fn counted(self, same: bool) -> Tally {
        if same {
            return Tally {
                same: self.same.saturating_add(1),
                ..self
            };
        }
        Tally {
            differ: self.differ.saturating_add(1),
            ..self
        }
    }
}

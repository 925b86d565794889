// A line that is written part by part.
ghost use Rattle.std.specs.Prelude.{◌≡◌, ◌+◌, ◌≤◌, [], length};
ghost use Rattle.replay_text.specs.Decimal.{decimal};
ghost use Rattle.replay_text.specs.Line.{said, Adds};
ghost use Rattle.replay_text.specs.Texts.{labelled};

use crate::MESSAGE_MEMORY;

// What is written so far are the first `end` bytes.
#[derive(Clone, Copy)]
pub(crate) struct Line {
    pub(crate) bytes: [u8; MESSAGE_MEMORY],
    pub(crate) end: usize,
}

impl Line {
    // A line of which nothing is written.
    pub(crate) fn new() -> Self
        ensures { (result.end ≡ 0) × (said result ≡ []) }
    {
        Line {
            bytes: [0; MESSAGE_MEMORY],
            end: 0,
        }
    }

    // Puts bytes behind what is written.
    pub(crate) fn put(&mut self, part: &[u8])
        requires { self.old.end + length part.now ≤ 256 }
        ensures { Adds self.old self.new part.now }
    {
        let end = self.end + part.len();
        self.bytes[self.end..end].copy_from_slice(part);
        self.end = end;
    }

    // Puts a number in decimal, which has at most twenty digits.
    fn put_number(&mut self, number: u64)
        requires { self.old.end + 20 ≤ 256 }
        ensures { (self.new.end ≤ self.old.end + 20) × Adds self.old self.new (decimal number) }
    {
        let mut digits = [0u8; 20];
        let count = io::decimal(number, &mut digits);
        self.put(&digits[..count]);
    }

    // Puts a label and a number, in decimal.
    #[tactic(auto, unfolding(crate::specs::Texts::labelled))]
    pub(crate) fn put_labelled(&mut self, label: &[u8], number: u64)
        requires { self.old.end + length label.now + 20 ≤ 256 }
        ensures { (self.new.end ≤ self.old.end + length label.now + 20) × Adds self.old self.new (labelled label.now number) }
    {
        self.put(label);
        self.put_number(number);
    }
}

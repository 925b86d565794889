// Control codes of replies, made of their bits, and error bytes: document 01, "A frame" and the table of checks.
ghost use Rattle.std.specs.Prelude.{◌≡◌};
ghost use Rattle.item_command.specs.Reply.{reply_to};

// Another error.
pub const OTHER_ERROR: u8 = 0x01;
// No such data.
pub const NO_SUCH_DATA: u8 = 0x02;
// Password or right.
pub const NOT_AUTHORISED: u8 = 0x04;

// The control code of a reply: bit 7 from the meter, bit 6 abnormal, bit 5 more to follow, the function in the other five.
#[tactic(auto, unfolding(crate::specs::Reply::control_code, crate::specs::Reply::reply_to))]
pub fn reply_to(control: u8, abnormal: bool) -> u8
    ensures { result ≡ reply_to control abnormal }
{
    if abnormal {
        return 128 + 64 + control % 32;
    }
    128 + control % 32
}

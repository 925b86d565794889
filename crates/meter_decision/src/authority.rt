// Passwords, and what a level may do.
ghost use Rattle.std.specs.Prelude.{◌≡◌, ◌≤◌};
ghost use Rattle.item_same.specs.Same.{same};
ghost use Rattle.meter_decision.specs.Decision.{password_at, authorised, names_password};
ghost use Rattle.meter_decision.specs.Checks.{check_of};

use crate::request::{Tested, check_of};
use item_same::same_bytes;

// Whether a password is that of a level.
#[tactic(auto, unfolding(crate::specs::Decision::password_at))]
fn has_password(passwords: [u8; 30], level: u8, password: &[u8]) -> bool
    requires { level ≤ 9 }
    ensures { result ≡ same password.now (password_at level passwords) }
{
    let at = 3 * level as usize;
    let end = at + 3;
    same_bytes(password, &passwords[at..end])
}

// The check that the level is at most `most` and the password of that level is right.
#[tactic(auto, unfolding(crate::specs::Decision::authorised))]
pub(crate) fn authority(passwords: [u8; 30], most: u8, level: u8, password: &[u8]) -> Tested
    requires { most ≤ 9 }
    ensures { result ≡ check_of (authorised most level password.now passwords) }
{
    if most < level {
        return Tested::Fails;
    }
    check_of(has_password(passwords, level, password))
}

// The check that the identifier is 04 00 0C n with n one more than the new level, 00 to 09.
#[tactic(auto, unfolding(crate::specs::Decision::names_password))]
pub(crate) fn names_password(identifier: u32, new: u8) -> Tested
    ensures { result ≡ check_of (names_password identifier new) }
{
    if 9 < new {
        return Tested::Fails;
    }
    check_of(identifier == 0x04000C01 + new as u32)
}

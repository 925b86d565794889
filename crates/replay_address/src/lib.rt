// The address that the replay program is given, read from its digits.
#![tactic(auto)]

ghost use Rattle.std.specs.Prelude.{◌≡◌};
ghost use Rattle.laws.specs.All.{all_of};
ghost use Rattle.replay_address.specs.Digits.{is_digit};
ghost use Rattle.replay_address.specs.Address.{pair_of, address_read};

use std::array::from_fn;

// Whether a byte is a digit, 0 to 9.
#[tactic(auto, unfolding(crate::specs::Digits::is_digit))]
fn is_digit(b: u8) -> bool
    ensures { result ≡ is_digit b }
{
    b.is_ascii_digit()
}

// Whether every byte is a digit.
fn all_digits(text: &[u8]) -> bool
    ensures { result ≡ all_of is_digit text.now }
{
    text.iter().all(|b| is_digit(*b))
}

// Two digits as one byte, the first in the higher half: the number of a digit is the low half of its character.
#[tactic(auto, unfolding(crate::specs::Address::pair_of))]
fn pair(high: u8, low: u8) -> u8
    ensures { result ≡ pair_of high low }
{
    16 * (high % 16) + low % 16
}

// Reads an address from twelve digits, highest first; anything else is no address. Its bytes stand low byte first.
#[tactic(auto, unfolding(crate::specs::Address::address_read, crate::specs::Address::is_address, crate::specs::Address::address_bytes))]
pub fn read_address(text: &[u8]) -> Option<[u8; 6]>
    ensures { result ≡ address_read text.now }
{
    if text.len() != 12 {
        return None;
    }
    if !all_digits(text) {
        return None;
    }
    Some(from_fn(|i| pair(text[10 - 2 * i], text[11 - 2 * i])))
}

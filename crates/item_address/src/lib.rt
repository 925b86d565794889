// Communication addresses: six bytes, low byte first.
#![tactic(auto)]

ghost use Rattle.std.specs.Prelude.{◌≡◌};
ghost use Rattle.item_address.specs.Address.{is_good, low_bytes, is_short, short_matches};

use item_decimal::all_decimal;
use item_range::is_within;

const BROADCAST: [u8; 6] = [0x99; 6];

pub const WILDCARD: u8 = 0xAA;

// Whether an address is good: decimal and not the broadcast address.
#[tactic(auto, unfolding(crate::specs::Address::is_good), using(item_same::proofs::PairLaws::pairwise))]
pub fn is_good(address: [u8; 6]) -> bool
    ensures { result ≡ is_good address }
{
    all_decimal(&address) && address != BROADCAST
}

// How many low bytes of an address stand before the wildcard bytes at its end.
fn low_bytes(address: [u8; 6]) -> usize
    ensures { result ≡ low_bytes address }
{
    match address.iter().rposition(|b| *b != WILDCARD) {
        Some(i) => i + 1,
        None => 0,
    }
}

// Whether an address is short: one to five decimal low bytes, and wildcard bytes above them.
#[tactic(auto, unfolding(crate::specs::Address::is_short, crate::specs::Address::has_short_form, item_range::specs::Range::within))]
pub fn is_short(address: [u8; 6]) -> bool
    ensures { result ≡ is_short address }
{
    let k = low_bytes(address);
    is_within(1, 5, k) && all_decimal(&address[..k])
}

// Whether a short address is meant for the meter of this address. No byte is filled in for a wildcard byte.
#[tactic(auto, unfolding(crate::specs::Address::short_matches, crate::specs::Address::has_short_form, item_range::specs::Range::within), using(item_same::proofs::PairLaws::pairwise))]
pub fn short_matches(address: [u8; 6], own: [u8; 6]) -> bool
    ensures { result ≡ short_matches address own }
{
    let k = low_bytes(address);
    is_within(1, 5, k) && address[..k] == own[..k]
}

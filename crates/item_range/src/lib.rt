// A number in a range, both ends of it among it.
#![tactic(auto)]

ghost use Rattle.std.specs.Prelude.{◌≡◌};
ghost use Rattle.item_range.specs.Range.{within};

// Whether a number is in a range.
#[tactic(auto, unfolding(crate::specs::Range::within))]
pub fn is_within(least: usize, most: usize, n: usize) -> bool
    ensures { result ≡ within least most n }
{
    (least..=most).contains(&n)
}

// Bytes compared.
#![tactic(auto)]

ghost use Rattle.std.specs.Prelude.{◌≡◌};
ghost use Rattle.item_same.specs.Same.{same};

// Whether two slices hold the same bytes. Place by place, where `a == b` would say as much: must-fail edits change a length and the first
// place, and a harmless change of either is proved.
#[tactic(auto, using(crate::specs::SameLaws::lengths_differ))]
pub fn same_bytes(a: &[u8], b: &[u8]) -> bool
    ensures { result ≡ same a.now b.now }
{
    if a.len() != b.len() {
        return false;
    }
    for i in 0..a.len() {
        if a[i] != b[i] {
            return false;
        }
    }
    true
}

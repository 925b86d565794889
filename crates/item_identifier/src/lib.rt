// A data identifier and its four bytes, DI0 first, shared by the meter and the reader. As a number its highest byte is DI3.
#![tactic(auto)]

ghost use Rattle.std.specs.Prelude.{◌≡◌, ◌∷◌, []};
ghost use Rattle.item_identifier.specs.Identifier.{identifier_of, identifier_bytes};

// The data identifier of its four bytes.
#[tactic(auto, unfolding(crate::specs::Identifier::identifier_of))]
pub fn identifier_of(di0: u8, di1: u8, di2: u8, di3: u8) -> u32
    ensures { result ≡ identifier_of (di0 ∷ di1 ∷ di2 ∷ di3 ∷ []) }
{
    u32::from_le_bytes([di0, di1, di2, di3])
}

// The four bytes of a data identifier.
#[tactic(auto, unfolding(crate::specs::Identifier::identifier_bytes))]
pub fn identifier_bytes(identifier: u32) -> [u8; 4]
    ensures { result ≡ identifier_bytes identifier }
{
    identifier.to_le_bytes()
}

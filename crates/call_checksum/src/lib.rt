// The checksum as a function for C, which `call_checksum_c` exports, so that the benchmark can count it by itself.
#![tactic(auto)]

ghost use Rattle.std.specs.Prelude.{◌≡◌};
ghost use Rattle.frame.specs.Frame.{checksum_of};

// The sum of the bytes, wrapping at 256.
pub fn call_checksum(bytes: &[u8]) -> u8
    ensures { result ≡ checksum_of bytes.now }
{
    frame::checksum(bytes)
}

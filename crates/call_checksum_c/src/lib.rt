// The checksum's C function, for C: it calls `call_checksum::call_checksum`, with its clauses.
#![tactic(auto)]

ghost use Rattle.std.specs.Prelude.{◌≡◌};
ghost use Rattle.frame.specs.Frame.{checksum_of};

#[unsafe(no_mangle)]
pub extern "C" fn call_checksum(bytes: &[u8]) -> u8
    ensures { result ≡ checksum_of bytes.now }
{
    call_checksum::call_checksum(bytes)
}

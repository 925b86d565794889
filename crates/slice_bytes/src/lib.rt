// Bytes copied into a lent slice, and a byte looked for in a part of one.
#![tactic(auto)]

ghost use Rattle.std.specs.Prelude.{◌≡◌, ◌+◌, ◌≤◌, ◌++◌, length, take, drop};
ghost use Rattle.slice_bytes.specs.Place.{index_of, slice};

// Copies bytes over the front of a slice that has room for them.
pub fn copy(from: &[u8], to: &mut [u8])
    requires { length from.now ≤ length to.old }
    ensures kept { length to.new ≡ length to.old }
    ensures value { to.new ≡ take (length from.now) from.now ++ drop (length from.now) to.old }
{
    to[..from.len()].copy_from_slice(from);
}

// The first place between two at which a byte stands, or the second of them.
pub fn find(bytes: &[u8], from: usize, to: usize, byte: u8) -> usize
    requires ordered { from ≤ to }
    requires within { to ≤ length bytes.now }
    ensures value { result ≡ from + index_of byte (slice from to bytes.now) }
    ensures bound { result ≤ to }
{
    match bytes[from..to].iter().position(|b| *b == byte) {
        Some(i) => from + i,
        None => to,
    }
}

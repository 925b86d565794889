// Packed decimal numbers, low byte first: document 01, "All items are packed decimal".
#![tactic(auto)]

ghost use Rattle.std.specs.Prelude.{◌≡◌, true, length, ltb, ◌^◌, ◌≤◌};
ghost use Rattle.laws.specs.Memory.{outcome};
ghost use Rattle.item_decimal.specs.Decimal.{is_decimal, first_bad, all_decimal, digits, packing, unpacked, unpacking};

// A number has more digits than the memory takes, which stays as it was.
#[derive(Clone, Copy)]
pub struct TooLarge;

// Why bytes are no number.
#[derive(Clone, Copy)]
pub enum UnpackError {
    // More than nine bytes, whose number might not fit.
    TooLong,
    // The place of the first byte with a half byte above 9.
    NotDecimal(usize),
}

// Whether both half bytes of a byte are 0 to 9.
#[tactic(auto, unfolding(crate::specs::Decimal::is_decimal))]
fn is_decimal(b: u8) -> bool
    ensures { result ≡ is_decimal b }
{
    (b % 16 <= 9) & (b / 16 <= 9)
}

// The place of the first byte with a half byte above 9, if there is one.
pub fn first_bad(bytes: &[u8]) -> Option<usize>
    ensures { result ≡ first_bad bytes.now }
{
    bytes.iter().position(|b| !is_decimal(*b))
}

// Whether every half byte is 0 to 9: one pass with a flag and no way out before the end, which the compiler turns into vector
// instructions.
pub fn all_decimal(bytes: &[u8]) -> bool
    ensures { result ≡ all_decimal bytes.now }
{
    let mut all = true;
    for b in bytes {
        all = all & is_decimal(*b);
    }
    all
}

// The number of a byte's two digits.
#[tactic(auto, unfolding(crate::specs::Decimal::digits))]
pub fn digits_of(b: u8) -> u8
    ensures { result ≡ digits b }
{
    10 * (b / 16) + b % 16
}

// Whether a number has at most so many pairs of digits.
fn fits(number: u64, pairs: usize) -> bool
    ensures { result ≡ ltb number (100 ^ pairs) }
{
    let mut rest = number;
    for _ in 0..pairs {
        rest /= 100;
    }
    rest == 0
}

// Writes a number as packed decimal over all of the memory.
pub fn pack(number: u64, out: &mut [u8]) -> Result<(), TooLarge>
    ensures { outcome result out.new ≡ packing number out.old }
{
    if !fits(number, out.len()) {
        return Err(TooLarge);
    }
    let mut rest = number;
    for byte in out.iter_mut() {
        let pair = rest % 100;
        *byte = (pair + 6 * (pair / 10)) as u8;
        rest /= 100;
    }
    Ok(())
}

// The number of packed decimal bytes.
#[tactic(auto, unfolding(crate::specs::Decimal::unpacking, crate::specs::Decimal::all_decimal))]
pub fn unpack(bytes: &[u8]) -> Result<u64, UnpackError>
    ensures { result ≡ unpacking bytes.now }
{
    if 9 < bytes.len() {
        return Err(UnpackError::TooLong);
    }
    match first_bad(bytes) {
        Some(i) => Err(UnpackError::NotDecimal(i)),
        None => Ok(number_of(bytes)),
    }
}

// The number of at most nine packed bytes, its highest digits first.
fn number_of(bytes: &[u8]) -> u64
    requires bytes_len_bound { length bytes.now ≤ 9 }
    requires bytes_value { all_decimal bytes.now ≡ true }
    ensures { result ≡ unpacked bytes.now }
{
    let mut number = 0;
    for b in bytes.iter().rev() {
        number = 100 * number + u64::from(digits_of(*b));
    }
    number
}

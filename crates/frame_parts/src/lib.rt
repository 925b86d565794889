// A frame written from its parts and taken apart: document 01, "A frame". Data are masked when they are written, and unmasked when
// they are taken off.
#![tactic(auto)]

ghost use Rattle.std.specs.Prelude.{◌≡◌, ℕ, ◌+◌, ◌≤◌, [], ◌∷◌, ◌++◌, map, length, take, nat_le};
ghost use Rattle.laws.specs.Memory.{outcome, over};
ghost use Rattle.laws.specs.Part.{part};
ghost use Rattle.laws.specs.Test.{pick};
ghost use Rattle.frame.specs.Frame.{checksum_of, masked, unmasked, frame_of};
ghost use Rattle.frame_parts.specs.Parts.{address_field, data_unmasked};
ghost use Rattle.frame_parts.specs.declared.WriteError.TheVariants.{TooMuchData, TooLittleMemory};
ghost use Rattle.frame_parts.specs.Writing.{writing, writing_in_place};

// Why no frame is written; the output buffer stays as it was.
#[derive(Clone, Copy)]
pub enum WriteError {
    // More than 200 data bytes.
    TooMuchData,
    // An output buffer shorter than the frame.
    TooLittleMemory,
}

// A data byte as it travels: with 33H added, wrapping at 256.
#[tactic(auto, unfolding(frame::specs::Frame::masked))]
fn mask(b: u8) -> u8
    ensures { result ≡ masked b }
{
    b.wrapping_add(0x33)
}

// A data byte unmasked: with 33H taken off, wrapping at 256.
#[tactic(auto, unfolding(frame::specs::Frame::unmasked))]
pub fn unmask(b: u8) -> u8
    ensures { result ≡ unmasked b }
{
    b.wrapping_sub(0x33)
}

// The address field of a frame; zeros where the bytes are too few to have one.
#[tactic(auto, using(crate::specs::PartsLaws::address_read))]
pub fn address_of(bytes: &[u8]) -> [u8; 6]
    ensures { result ≡ address_field bytes.now }
{
    match bytes {
        [_, a, b, c, d, e, f, ..] => [*a, *b, *c, *d, *e, *f],
        _ => [0u8; 6],
    }
}

// The bytes of a data field, each through a function, at the front of the memory.
fn write_field<F: Fn(u8) -> u8>(field: &[u8], through: F, out: &mut [u8])
    requires room { length field.now ≤ length out.old }
    requires callable { F.IsAlwaysCallable through }
    ensures { (f : ℕ → ℕ) → ((b r : ℕ) → F.post through b r → r ≡ f b) → out.new ≡ over (map f field.now) out.old }
{
    // By place, since no proof knows behind a loop what was written through a zip with `iter_mut`.
    for (i, b) in field.iter().enumerate() {
        out[i] = through(*b);
    }
}

// Writes the data of a frame, unmasked, to the front of an array, and answers how many they are. Bytes that have no data field have none,
// and leave the array as it was.
pub fn unmask_data(bytes: &[u8], payload: &mut [u8; 200]) -> usize
    ensures { outcome result payload.new ≡ data_unmasked bytes.now payload.old }
{
    if bytes.len() < 10 {
        return 0;
    }
    let length = bytes[9] as usize;
    if 200 < length {
        return 0;
    }
    if bytes.len() < 10 + length {
        return 0;
    }
    write_field(&bytes[10..10 + length], unmask, payload);
    length
}

// The bytes of a frame before its data field: 68, the address field, 68, the control code, the data length.
fn write_head(address: [u8; 6], control: u8, data_length: u8, out: &mut [u8])
    requires { 10 ≤ length out.old }
    ensures { out.new ≡ over (0x68 ∷ (address ++ (0x68 ∷ control ∷ data_length ∷ []))) out.old }
{
    out[0] = 0x68;
    out[1..7].copy_from_slice(&address);
    out[7] = 0x68;
    out[8] = control;
    out[9] = data_length;
}

// Masks the data where they stand.
fn mask_field(field: &mut [u8])
    ensures { field.new ≡ map masked field.old }
{
    for b in field {
        *b = mask(*b);
    }
}

// The checksum of the first `n` bytes, and 16, after them.
fn write_end(n: usize, out: &mut [u8])
    requires { n + 2 ≤ length out.old }
    ensures { out.new ≡ over (take n out.old ++ (checksum_of (take n out.old) ∷ 0x16 ∷ [])) out.old }
{
    out[n] = frame::checksum(&out[..n]);
    out[n + 1] = 0x16;
}

// The frame of an address, a control code and the `count` bytes that stand, masked, at their place from byte 10 on: head and end around
// them.
fn write_around(address: [u8; 6], control: u8, count: usize, out: &mut [u8])
    requires { (count ≤ 200) × (12 + count ≤ length out.old) }
    ensures { out.new ≡ over (frame_of address control (part 10 count out.old)) out.old }
{
    write_head(address, control, count as u8, out);
    write_end(10 + count, out);
}

// The length of a frame of so many data bytes, which is at most the length of the output buffer; else why it is not written.
fn frame_length(count: usize, room: usize) -> Result<usize, WriteError>
    ensures { result ≡ pick (nat_le count 200) (pick (nat_le (12 + count) room) (Ok (12 + count)) (Err TooLittleMemory)) (Err TooMuchData) }
{
    if 200 < count {
        return Err(WriteError::TooMuchData);
    }
    if room < 12 + count {
        return Err(WriteError::TooLittleMemory);
    }
    Ok(12 + count)
}

// Writes the frame of an address, a control code and data, masked here, to the front of the output buffer.
#[tactic(auto, unfolding(crate::specs::Writing::writing))]
pub fn write_frame(
    address: [u8; 6],
    control: u8,
    payload: &[u8],
    out: &mut [u8],
) -> Result<usize, WriteError>
    ensures { outcome result out.new ≡ writing address control payload.now out.old }
{
    let length = frame_length(payload.len(), out.len())?;
    write_field(payload, mask, &mut out[10..]);
    write_around(address, control, payload.len(), out);
    Ok(length)
}

// Writes the frame of an address, a control code and the `count` data bytes that stand, unmasked, at their place in the output buffer,
// from byte 10 on: they are masked where they stand. Answers as `write_frame` does.
#[tactic(auto, unfolding(crate::specs::Writing::writing_in_place))]
pub fn write_frame_in_place(
    address: [u8; 6],
    control: u8,
    count: usize,
    out: &mut [u8],
) -> Result<usize, WriteError>
    ensures { outcome result out.new ≡ writing_in_place address control count out.old }
{
    let length = frame_length(count, out.len())?;
    mask_field(&mut out[10..10 + count]);
    write_around(address, control, count, out);
    Ok(length)
}

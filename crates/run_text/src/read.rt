// Bytes in hexadecimal and numbers in decimal, read from text, and text read from standard input.
ghost use Rattle.std.specs.Prelude.{◌≤◌, length};

use std::io::{Read, Stdin};

// Reads until the buffer is full, the input ends or a read fails, and returns how many bytes it put at the front of the buffer.
pub fn read_input(mut from: Stdin, text: &mut [u8]) -> usize
    ensures { result ≤ length text.new }
{
    let mut done = 0;
    // The place moves by as many bytes as a read brings, so that this is no loop over places.
    while done < text.len() {
        let Ok(n) = from.read(&mut text[done..]) else {
            return done;
        };
        if n == 0 {
            return done;
        }
        done += n;
    }
    done
}

// The whole input, which stands at the front of the buffer, or none where it fills the buffer.
pub fn read_whole(from: Stdin, buffer: &mut [u8]) -> Option<&[u8]> {
    let n = read_input(from, buffer);
    if n == buffer.len() {
        return None;
    }
    Some(&buffer[..n])
}

// Whether a line of text is empty or a comment, which begins with #.
pub fn is_comment(line: &[u8]) -> bool {
    matches!(line, [] | [b'#', ..])
}

// What three characters write, of which the first is a blank: a byte in hexadecimal, or -- for a silence.
#[derive(Clone, Copy)]
pub(crate) enum Symbol {
    Byte(u8),
    Silence,
}

// The value of a hexadecimal digit, 0 to 9 or a capital A to F.
fn digit_of(c: u8) -> Option<u8> {
    match c {
        b'0'..=b'9' => Some(c - b'0'),
        b'A'..=b'F' => Some(c - b'A' + 10),
        _ => None,
    }
}

// The byte that two hexadecimal digits write.
pub fn byte_of(high: u8, low: u8) -> Option<u8> {
    Some(digit_of(high)? << 4 | digit_of(low)?)
}

// The symbol that three characters write.
pub(crate) fn symbol_of(text: &[u8]) -> Option<Symbol> {
    match text {
        b" --" => Some(Symbol::Silence),
        [b' ', high, low] => Some(Symbol::Byte(byte_of(*high, *low)?)),
        _ => None,
    }
}

// Reads the bytes of the text to the front of the buffer, if they are bytes and it has room for them. One or two characters behind
// the last byte do not count.
pub fn read_bytes<'a>(text: &[u8], buffer: &'a mut [u8]) -> Option<&'a [u8]> {
    let bytes = buffer.get_mut(..text.len() / 3)?;
    for (byte, symbol) in bytes.iter_mut().zip(text.chunks_exact(3)) {
        let Symbol::Byte(b) = symbol_of(symbol)? else {
            return None;
        };
        *byte = b;
    }
    Some(bytes)
}

// The number that decimal digits write, if it fits.
pub fn number_of(digits: &[u8]) -> Option<u32> {
    if digits.is_empty() {
        return None;
    }
    let mut value = 0u32;
    for c in digits {
        let digit = digit_of(*c).filter(|d| *d < 10)?;
        value = value.checked_mul(10)?.checked_add(u32::from(digit))?;
    }
    Some(value)
}

// How many numbers a text has, and the last four of them, behind zeros where it has fewer.
#[derive(Clone, Copy, Default)]
pub struct Numbers {
    pub count: usize,
    pub last: [u32; 4],
}

// Reads the numbers of a text, each in decimal digits after a blank, if they are numbers up to `most`. The text is empty or
// begins with a blank.
pub fn read_numbers(text: &[u8], most: u32) -> Option<Numbers> {
    let mut numbers = Numbers::default();
    if text.is_empty() {
        return Some(numbers);
    }
    for digits in skip_blank(text).split(|b| *b == b' ') {
        let n = number_of(digits).filter(|n| *n <= most)?;
        let [_, b, c, d] = numbers.last;
        numbers = Numbers {
            count: numbers.count.saturating_add(1),
            last: [b, c, d, n],
        };
    }
    Some(numbers)
}

// Reads N numbers, at most four, if the text has as many.
pub fn read_exactly<const N: usize>(text: &[u8], most: u32) -> Option<[u32; N]> {
    let numbers = read_numbers(text, most)?;
    if numbers.count != N {
        return None;
    }
    numbers.last.last_chunk::<N>().copied()
}

// The word of a line, and what stands behind it, which is nothing or begins with a blank.
pub fn split_word(line: &[u8]) -> (&[u8], &[u8]) {
    let end = line.iter().position(|b| *b == b' ');
    line.split_at(end.unwrap_or(line.len()))
}

// The text behind its first character, which is a blank.
pub fn skip_blank(text: &[u8]) -> &[u8] {
    text.get(1..).unwrap_or(&[])
}

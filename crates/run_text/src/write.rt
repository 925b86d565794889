// Text, bytes and frames, written to standard output. What cannot be written is let go.
use std::fmt::{self, Display, Formatter};
use std::io::{self, Stdout, Write};

// Writes a format's text as a line, as `println!` does.
#[macro_export]
macro_rules! say {
    ($to:expr; $($text:tt)+) => {{
        $crate::write::write_text($to, format_args_nl!($($text)+))
    }};
}

// Writes what a value is as text, in one write where it has at most 1,024 bytes: `write!` makes one of each piece of a format.
pub fn write_text<D: Display + Drop>(to: Stdout, text: D) {
    let _ = io::Print::print(&to, text);
}

// Writes text as it stands, which need not be UTF-8.
pub fn write(mut to: Stdout, text: &[u8]) {
    let _ = to.write_all(text);
}

// Writes text as a line.
pub fn write_line(to: Stdout, text: &[u8]) {
    write(to, text);
    write(to, b"\n");
}

// Bytes, each as a blank and two hexadecimal digits.
#[derive(Clone, Copy)]
pub struct Hex<'a>(pub &'a [u8]);

impl Display for Hex<'_> {
    fn fmt<W: fmt::Write>(&self, f: &mut Formatter<W>) -> fmt::Result {
        for b in self.0 {
            write!(f, " {b:02X}")?;
        }
        Ok(())
    }
}

// Writes a frame as a line of the listing.
pub fn write_frame(to: Stdout, frame: &[u8]) {
    let mut text = [0u8; 417];
    match listing::list_frame(frame, &mut text) {
        Ok(n) => write(to, text.get(..n).unwrap_or(&[])),
        Err(_) => say!(to; "no frame"),
    }
}

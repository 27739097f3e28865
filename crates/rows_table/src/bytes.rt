//! Bytes as a text of a row.
use std::fmt;

/// The greatest number of bytes that are written as text.
pub const LONG: usize = 200;

/// Bytes as their text, in which a newline is `\n`. Of long ones, and of those that are not UTF-8,
/// how many there are, and their value if all have the same.
#[derive(Drop)]
pub struct Bytes<'a>(pub &'a [u8]);

impl fmt::Display for Bytes<'_> {
    fn fmt<W: fmt::Write>(&self, f: &mut fmt::Formatter<W>) -> fmt::Result {
        match str::from_utf8(self.0) {
            Ok(text) if text.len() <= LONG => write_escaped(f, text),
            _ => write_long(f, self.0),
        }
    }
}

fn write_escaped<W: fmt::Write>(f: &mut fmt::Formatter<W>, text: &str) -> fmt::Result {
    for c in text.chars() {
        match c {
            '\n' => f.write_str("\\n")?,
            '\r' => f.write_str("\\r")?,
            '\0' => f.write_str("\\0")?,
            c => f.write_char(c)?,
        }
    }
    Ok(())
}

fn write_long<W: fmt::Write>(f: &mut fmt::Formatter<W>, bytes: &[u8]) -> fmt::Result {
    write!(f, "{} bytes", bytes.len())?;
    match bytes.first() {
        Some(first) if bytes.iter().all(|byte| byte == first) => write!(f, " {first}"),
        _ => Ok(()),
    }
}

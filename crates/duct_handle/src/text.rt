//! Bytes as text, without the line ends at its end.
ghost use Rattle.std.specs.Prelude.{◌≡◌, IfOk, IfErr, take, string_bytes};
ghost use Rattle.std.specs.Str.{IsUtf8};
ghost use Rattle.duct_system.specs.declared.error.Error.TheVariants.{NotUtf8};
ghost use Rattle.duct_handle.specs.ReadsText.{is_line_end, trimmed};

use duct_base::error::Error;

// Whether this is a newline or a carriage return.
fn is_line_end(byte: u8) -> bool
    ensures { result ≡ is_line_end byte }
{
    byte == b'\n' || byte == b'\r'
}

// How many bytes there are before the longest suffix of newlines and carriage returns.
fn text_length(bytes: &[u8]) -> usize
    ensures { take result bytes.now ≡ trimmed bytes.now }
{
    let mut front = bytes;
    while let Some((last, rest)) = front.split_last() {
        if !is_line_end(*last) {
            return front.len();
        }
        front = rest;
    }
    0
}

/// Returns the bytes as text, without their longest suffix of newlines and carriage returns. They
/// are not copied. Fails with `Error::NotUtf8` where what is left is not valid UTF-8.
pub fn text_of(mut bytes: Vec<u8>) -> Result<String, Error>
    ensures ok { IfOk result (λ text. string_bytes text ≡ trimmed bytes.items) }
    ensures err { IfErr result (λ e. (e ≡ NotUtf8) × (IsUtf8 (trimmed bytes.items) → ⊥)) }
{
    let length = text_length(&bytes);
    bytes.truncate(length);
    match String::from_utf8(bytes) {
        Ok(text) => Ok(text),
        Err(_) => Err(Error::NotUtf8),
    }
}

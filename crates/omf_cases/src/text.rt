//! Texts in a case: `/` is a line feed, and `%` with two hexadecimal digits is a byte.

ghost use Rattle.std.specs.Prelude.{◌≡◌, if◌then◌else◌, ◌==◌};

use crate::fault::LineFault;
use std::alloc::Global;

/// A line feed for a slash; any other byte for itself.
fn line_fed(byte: u8) -> u8
    ensures { result ≡ (if byte == 47 then 10 else byte) }
{
    if byte == b'/' { b'\n' } else { byte }
}

/// Appends bytes, with a line feed for each slash.
fn push_lines(bytes: &mut Vec<u8>, text: &[u8]) -> Result<(), LineFault> {
    for byte in text {
        bytes.push(line_fed(*byte))?;
    }
    Ok(())
}

/// The value of two hexadecimal digits.
fn byte_of(high: u8, low: u8) -> Option<u8> {
    let high = char::from(high).to_digit(16)?;
    let low = char::from(low).to_digit(16)?;
    Some((high * 16 + low) as u8)
}

/// Appends what follows a percent sign: the byte of two digits, and a text.
fn push_escaped(bytes: &mut Vec<u8>, text: &[u8]) -> Result<(), LineFault> {
    let [high, low, rest @ ..] = text else {
        return Err(LineFault::Escape);
    };
    let Some(byte) = byte_of(*high, *low) else {
        return Err(LineFault::Escape);
    };
    bytes.push(byte)?;
    push_lines(bytes, rest)
}

/// Appends the bytes of a text.
///
/// # Errors
///
/// `Escape` if a percent sign is not followed by two hexadecimal digits; `Memory`.
pub fn push_text(bytes: &mut Vec<u8>, text: &str) -> Result<(), LineFault> {
    for (at, part) in text.split('%').enumerate() {
        if at == 0 {
            push_lines(bytes, part.as_bytes())?;
        } else {
            push_escaped(bytes, part.as_bytes())?;
        }
    }
    Ok(())
}

/// The bytes of a text.
///
/// # Errors
///
/// Those of `push_text`.
pub fn text_of(alloc: Global, text: &str) -> Result<Vec<u8>, LineFault> {
    let mut bytes = Vec::new(alloc);
    push_text(&mut bytes, text)?;
    Ok(bytes)
}

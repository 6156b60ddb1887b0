//! Lines of bytes in hexadecimal.

ghost use Rattle.std.specs.Prelude.{◌≡◌, ◌<◌, ◌%◌, ◌++◌, ◌∷◌, [], true, sum};
ghost use Rattle.std.specs.Fmt.{digit_glyph};
ghost use Rattle.omf_frame.specs.Bytes.{AddsText};
ghost use Rattle.omf_output.specs.Rom.Spelled.{byte_text, spelled, line};

use std::alloc::AllocError;

/// The hexadecimal digits.
const DIGITS: &[u8; 16] = b"0123456789ABCDEF";

/// The digit of a number below 16.
fn digit(number: u8) -> u8
    requires { number < 16 }
    ensures { result ≡ digit_glyph true number }
{
    DIGITS[usize::from(number)]
}

/// Appends each byte in two hexadecimal digits.
fn push_spelled(out: &mut Vec<u8>, bytes: &[u8]) -> Result<(), AllocError>
    ensures { AddsText result out.old.items out.new.items (spelled bytes.now) }
{
    for byte in bytes {
        out.extend_from_slice(&[digit(*byte / 16), digit(*byte % 16)])?;
    }
    Ok(())
}

/// The sum of the bytes modulo 256.
pub fn byte_sum(bytes: &[u8]) -> u8
    ensures { result ≡ sum bytes.now % 256 }
{
    let mut total = 0u8;
    for byte in bytes {
        total = total.wrapping_add(*byte);
    }
    total
}

/// Appends a line: a mark, and then bytes in hexadecimal, of which the last is a checksum.
pub fn push_line(
    out: &mut Vec<u8>,
    mark: &[u8],
    head: &[u8],
    body: &[u8],
    checksum: u8,
) -> Result<(), AllocError>
    ensures { AddsText result out.old.items out.new.items (line mark.now (head.now ++ body.now ++ checksum ∷ [])) }
{
    out.extend_from_slice(mark)?;
    push_spelled(out, head)?;
    push_spelled(out, body)?;
    push_spelled(out, &[checksum])?;
    out.push(b'\n')?;
    Ok(())
}

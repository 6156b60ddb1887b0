//! Numbers and names as text.

ghost use Rattle.std.specs.Prelude.{◌≡◌, ◌∷◌, decimal, flat_map, string_bytes};
ghost use Rattle.omf_frame.specs.Bytes.{AddsText};
ghost use Rattle.omf_placement.specs.Quoted.{escaped, hex, is_plain, quoted};
ghost use Rattle.omf_host.specs.Lines.{shown_name};

use crate::digits::{eight_digits, four_digits, two_digits};
use itoa::Buffer;
use std::alloc::AllocError;
use std::fmt::Write;

/// Appends a decimal number.
pub fn put_decimal(text: &mut Vec<u8>, number: u64) -> Result<(), AllocError>
    ensures { AddsText result text.old.items text.new.items (decimal number) }
{
    let mut buffer = Buffer::new();
    text.extend_from_slice(buffer.format(number).as_bytes())
}

/// Appends a byte in two hexadecimal digits.
pub fn put_byte(text: &mut Vec<u8>, byte: u8) -> Result<(), AllocError>
    ensures { AddsText result text.old.items text.new.items (hex 2 byte) }
{
    text.extend_from_slice(&two_digits(byte))
}

/// Writes a number in at least eight hexadecimal digits.
fn write_eight(text: &mut String, number: u64) -> Result<(), AllocError>
    ensures { AddsText result (string_bytes text.old) (string_bytes text.new) (hex 8 number) }
{
    write!(text, "{number:08X}")
}

/// Writes a number in at least four hexadecimal digits.
fn write_four(text: &mut String, number: u64) -> Result<(), AllocError>
    ensures { AddsText result (string_bytes text.old) (string_bytes text.new) (hex 4 number) }
{
    write!(text, "{number:04X}")
}

/// Appends a number in at least eight hexadecimal digits. Those of more than 32 bits are rare.
pub fn put_eight(text: &mut Vec<u8>, number: u64) -> Result<(), AllocError>
    ensures { AddsText result text.old.items text.new.items (hex 8 number) }
{
    if let Ok(number) = u32::try_from(number) {
        return text.extend_from_slice(&eight_digits(number));
    }
    let mut shown = String::new(*text.allocator());
    write_eight(&mut shown, number)?;
    text.extend_from_slice(shown.as_bytes())
}

/// Appends a number in at least four hexadecimal digits. Those of more than 16 bits are rare.
pub fn put_four(text: &mut Vec<u8>, number: u64) -> Result<(), AllocError>
    ensures { AddsText result text.old.items text.new.items (hex 4 number) }
{
    if let Ok(number) = u16::try_from(number) {
        return text.extend_from_slice(&four_digits(number));
    }
    let mut shown = String::new(*text.allocator());
    write_four(&mut shown, number)?;
    text.extend_from_slice(shown.as_bytes())
}

/// Whether a byte of a name is printed as it is: 20H to 7EH without the quote and the backslash.
pub fn is_plain(byte: u8) -> bool
    ensures { result ≡ is_plain byte }
{
    byte >= 0x20 && byte <= 0x7E && byte != b'"' && byte != b'\\'
}

/// Appends a byte as `\x` and two hexadecimal digits.
fn put_digits(text: &mut String, byte: u8) -> Result<(), AllocError>
    ensures { AddsText result (string_bytes text.old) (string_bytes text.new) (92 ∷ 120 ∷ hex 2 byte) }
{
    write!(text, "\\x{byte:02X}")
}

/// Appends a byte of a name, as it is or by its digits.
fn put_escaped(text: &mut String, byte: u8) -> Result<(), AllocError>
    ensures { AddsText result (string_bytes text.old) (string_bytes text.new) (escaped byte) }
{
    if is_plain(byte) {
        text.push(char::from(byte))
    } else {
        put_digits(text, byte)
    }
}

/// Appends a name as it is safe on a terminal: bytes that are not plain as `\x` and two hexadecimal digits.
pub fn put_name(text: &mut String, name: &[u8]) -> Result<(), AllocError>
    ensures { AddsText result (string_bytes text.old) (string_bytes text.new) (shown_name name.now) }
{
    for byte in name {
        put_escaped(text, *byte)?;
    }
    Ok(())
}

/// Appends a name in double quotes, as `put_name` does.
pub fn put_quoted(text: &mut String, name: &[u8]) -> Result<(), AllocError>
    ensures { AddsText result (string_bytes text.old) (string_bytes text.new) (quoted name.now) }
{
    text.push('"')?;
    put_name(text, name)?;
    text.push('"')
}

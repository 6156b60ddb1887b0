//! Lines of a map, as text or as JSON: a word with an address, and named fields.

ghost use Rattle.std.specs.Prelude.{◌≡◌, flat_map};
ghost use Rattle.omf_frame.specs.Bytes.{AddsText};
ghost use Rattle.omf_find.specs.Fields.{Address, Byte, Name, Number, Word, closed, digits, field_text, head_text, hexadecimal, name_byte, opened, quoted};

use omf_host::{is_plain, put_byte, put_decimal, put_eight};
use std::alloc::AllocError;

/// The two forms of a map.
#[derive(Clone, Copy)]
pub enum Format {
    /// A line of text for each entry.
    Text,
    /// An object of JSON on a line for each entry.
    Json,
}

/// Appends an address or a length: in text in at least eight hexadecimal digits.
fn put_hexadecimal(text: &mut Vec<u8>, format: Format, number: u64) -> Result<(), AllocError>
    ensures { AddsText result text.old.items text.new.items (hexadecimal format number) }
{
    match format {
        Format::Text => put_eight(text, number),
        Format::Json => put_decimal(text, number),
    }
}

/// What comes before the two digits of a byte that is not printed as it is.
fn digits(format: Format) -> &'static [u8]
    ensures { result.now ≡ digits format }
{
    match format {
        Format::Text => b"\\x",
        Format::Json => b"\\u00",
    }
}

/// Appends a byte of a name, as it is or by its digits.
fn put_name_byte(text: &mut Vec<u8>, format: Format, byte: u8) -> Result<(), AllocError>
    ensures { AddsText result text.old.items text.new.items (name_byte format byte) }
{
    if is_plain(byte) {
        text.push(byte)?;
        Ok(())
    } else {
        text.extend_from_slice(digits(format))?;
        put_byte(text, byte)
    }
}

/// Appends the bytes of a name.
fn put_name_bytes(text: &mut Vec<u8>, format: Format, name: &[u8]) -> Result<(), AllocError>
    ensures { AddsText result text.old.items text.new.items (flat_map (name_byte format) name.now) }
{
    for byte in name {
        put_name_byte(text, format, *byte)?;
    }
    Ok(())
}

/// Appends a name in double quotes.
pub fn put_quoted(text: &mut Vec<u8>, format: Format, name: &[u8]) -> Result<(), AllocError>
    ensures { AddsText result text.old.items text.new.items (quoted format name.now) }
{
    text.push(b'"')?;
    put_name_bytes(text, format, name)?;
    text.push(b'"')?;
    Ok(())
}

/// Appends the name of a field, up to its value.
fn open(text: &mut Vec<u8>, format: Format, key: &str) -> Result<(), AllocError>
    ensures { AddsText result text.old.items text.new.items (opened format key.now) }
{
    match format {
        Format::Text => {
            text.extend_from_slice(b"  ")?;
            text.extend_from_slice(key.as_bytes())?;
            text.push(b' ')?;
            Ok(())
        }
        Format::Json => {
            text.extend_from_slice(b",\"")?;
            text.extend_from_slice(key.as_bytes())?;
            text.extend_from_slice(b"\":")
        }
    }
}

/// Begins a line: its word, and an address.
pub fn begin(text: &mut Vec<u8>, format: Format, word: &str, address: u64) -> Result<(), AllocError>
    ensures { AddsText result text.old.items text.new.items (head_text format word.now address) }
{
    match format {
        Format::Text => {
            text.extend_from_slice(word.as_bytes())?;
            text.push(b' ')?;
        }
        Format::Json => {
            text.extend_from_slice(b"{\"")?;
            text.extend_from_slice(word.as_bytes())?;
            text.extend_from_slice(b"\":")?;
        }
    }
    put_hexadecimal(text, format, address)
}

/// Appends an address or a length.
pub fn address(text: &mut Vec<u8>, format: Format, key: &str, number: u64) -> Result<(), AllocError>
    ensures { AddsText result text.old.items text.new.items (field_text format key.now (Address number)) }
{
    open(text, format, key)?;
    put_hexadecimal(text, format, number)
}

/// Appends a decimal number.
pub fn number(text: &mut Vec<u8>, format: Format, key: &str, number: u64) -> Result<(), AllocError>
    ensures { AddsText result text.old.items text.new.items (field_text format key.now (Number number)) }
{
    open(text, format, key)?;
    put_decimal(text, number)
}

/// Appends a name.
pub fn name(text: &mut Vec<u8>, format: Format, key: &str, name: &[u8]) -> Result<(), AllocError>
    ensures { AddsText result text.old.items text.new.items (field_text format key.now (Name name.now)) }
{
    open(text, format, key)?;
    put_quoted(text, format, name)
}

/// Appends a word, in JSON in quotes.
pub fn word(text: &mut Vec<u8>, format: Format, key: &str, word: &str) -> Result<(), AllocError>
    ensures { AddsText result text.old.items text.new.items (field_text format key.now (Word word.now)) }
{
    open(text, format, key)?;
    match format {
        Format::Text => text.extend_from_slice(word.as_bytes()),
        Format::Json => {
            text.push(b'"')?;
            text.extend_from_slice(word.as_bytes())?;
            text.push(b'"')?;
            Ok(())
        }
    }
}

/// Appends a byte: in text two hexadecimal digits, or `none`.
pub fn byte(
    text: &mut Vec<u8>,
    format: Format,
    key: &str,
    byte: Option<u8>,
) -> Result<(), AllocError>
    ensures { AddsText result text.old.items text.new.items (field_text format key.now (Byte byte)) }
{
    open(text, format, key)?;
    match (format, byte) {
        (Format::Text, Some(byte)) => put_byte(text, byte),
        (Format::Text, None) => text.extend_from_slice(b"none"),
        (Format::Json, Some(byte)) => put_decimal(text, u64::from(byte)),
        (Format::Json, None) => text.extend_from_slice(b"null"),
    }
}

/// Ends a line.
pub fn close(text: &mut Vec<u8>, format: Format) -> Result<(), AllocError>
    ensures { AddsText result text.old.items text.new.items (closed format) }
{
    match format {
        Format::Text => {
            text.push(b'\n')?;
            Ok(())
        }
        Format::Json => text.extend_from_slice(b"}\n"),
    }
}

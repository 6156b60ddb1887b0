//! Comma-separated values (RFC 4180).

ghost use Rattle.std.specs.Prelude.{◌≡◌, flat_map};
ghost use Rattle.omf_frame.specs.Bytes.{AddsText};
ghost use Rattle.omf_dump.specs.Csv.{csv_byte, csv_name, csv_quoted};

use crate::format::Format;
use crate::value::put_escaped;
use omf_frame::Name;
use std::alloc::AllocError;

/// Appends a byte of a name: the quote twice, another one as in text.
fn put_csv_byte(text: &mut Vec<u8>, byte: u8) -> Result<(), AllocError>
    ensures { AddsText result text.old.items text.new.items (csv_byte byte) }
{
    if byte == b'"' {
        text.extend_from_slice(b"\"\"")
    } else {
        put_escaped(text, Format::Text, byte)
    }
}

/// Appends the bytes of a name.
fn put_csv_bytes(text: &mut Vec<u8>, bytes: &[u8]) -> Result<(), AllocError>
    ensures { AddsText result text.old.items text.new.items (flat_map csv_byte bytes.now) }
{
    for byte in bytes {
        put_csv_byte(text, *byte)?;
    }
    Ok(())
}

/// Appends a name in double quotes.
pub(crate) fn put_csv_quoted(text: &mut Vec<u8>, bytes: &[u8]) -> Result<(), AllocError>
    ensures { AddsText result text.old.items text.new.items (csv_quoted bytes.now) }
{
    text.push(b'"')?;
    put_csv_bytes(text, bytes)?;
    text.push(b'"')?;
    Ok(())
}

/// Appends a name in double quotes, if there is one.
pub(crate) fn put_csv_name(text: &mut Vec<u8>, name: Option<Name<'_>>) -> Result<(), AllocError>
    ensures { AddsText result text.old.items text.new.items (csv_name name.entry) }
{
    match name {
        Some(name) => put_csv_quoted(text, name.0),
        None => Ok(()),
    }
}

//! Values: numbers, words, bytes and entries, as text or as JSON.

ghost use Rattle.std.specs.Prelude.{◌≡◌, ◌++◌, ◌∷◌, [], flat_map, if◌then◌else◌};
ghost use Rattle.omf_frame.specs.Bytes.{AddsText};
ghost use Rattle.omf_placement.specs.Quoted.{hex};
ghost use Rattle.omf_dump.specs.declared.format.Format.TheVariants as format;
ghost use Rattle.omf_dump.specs.Render.{bytes_text, digits, entry_text, escape, escaped, hexadecimal, index_text, marked_text, method_entry, name_beside, quoted, spaced};

use crate::entry::Entry;
use crate::format::Format;
use omf_frame::{Name, Width};
use omf_host::{is_plain, put_byte, put_decimal, put_eight, put_four};
use std::alloc::AllocError;

/// Appends a number of a 16-bit or a 32-bit field.
pub(crate) fn put_number(
    text: &mut Vec<u8>,
    format: Format,
    width: Width,
    number: u64,
) -> Result<(), AllocError>
    ensures { AddsText result text.old.items text.new.items (hexadecimal format (digits width) number) }
{
    match (format, width) {
        (Format::Json, _) => put_decimal(text, number),
        (Format::Text, Width::Bits16) => put_four(text, number),
        (Format::Text, Width::Bits32) => put_eight(text, number),
    }
}

/// What comes before the two digits of a byte that is not printed as it is.
fn escape(format: Format) -> &'static [u8]
    ensures { result.now ≡ escape format }
{
    match format {
        Format::Text => b"\\x",
        Format::Json => b"\\u00",
    }
}

/// Appends a byte of a name, as it is or by its digits.
pub(crate) fn put_escaped(text: &mut Vec<u8>, format: Format, byte: u8) -> Result<(), AllocError>
    ensures { AddsText result text.old.items text.new.items (escaped format byte) }
{
    if is_plain(byte) {
        text.push(byte)?;
        Ok(())
    } else {
        text.extend_from_slice(escape(format))?;
        put_byte(text, byte)
    }
}

/// Appends the bytes of a name, each as it is or by its digits.
pub(crate) fn put_name(text: &mut Vec<u8>, format: Format, bytes: &[u8]) -> Result<(), AllocError>
    ensures { AddsText result text.old.items text.new.items (flat_map (escaped format) bytes.now) }
{
    for byte in bytes {
        put_escaped(text, format, *byte)?;
    }
    Ok(())
}

/// Appends bytes in double quotes.
pub(crate) fn put_quoted(text: &mut Vec<u8>, format: Format, bytes: &[u8]) -> Result<(), AllocError>
    ensures { AddsText result text.old.items text.new.items (quoted format bytes.now) }
{
    text.push(b'"')?;
    put_name(text, format, bytes)?;
    text.push(b'"')?;
    Ok(())
}

/// Appends bytes, each as two hexadecimal digits.
pub(crate) fn put_bytes(text: &mut Vec<u8>, bytes: &[u8]) -> Result<(), AllocError>
    ensures { AddsText result text.old.items text.new.items (flat_map (hex 2) bytes.now) }
{
    for byte in bytes {
        put_byte(text, *byte)?;
    }
    Ok(())
}

/// Appends bytes, each as a space and two hexadecimal digits.
pub(crate) fn put_after_spaces(text: &mut Vec<u8>, bytes: &[u8]) -> Result<(), AllocError>
    ensures { AddsText result text.old.items text.new.items (flat_map (λ c. 32 ∷ hex 2 c) bytes.now) }
{
    for byte in bytes {
        text.push(b' ')?;
        put_byte(text, *byte)?;
    }
    Ok(())
}

/// Appends bytes, each as two hexadecimal digits, with a space between each two.
fn put_spaced(text: &mut Vec<u8>, bytes: &[u8]) -> Result<(), AllocError>
    ensures { AddsText result text.old.items text.new.items (spaced bytes.now) }
{
    match bytes {
        [] => Ok(()),
        [first, rest @ ..] => {
            put_byte(text, *first)?;
            put_after_spaces(text, rest)
        }
    }
}

/// Appends bytes as numbers.
pub(crate) fn put_list(text: &mut Vec<u8>, format: Format, bytes: &[u8]) -> Result<(), AllocError>
    ensures { AddsText result text.old.items text.new.items (bytes_text format bytes.now) }
{
    match format {
        Format::Text => put_spaced(text, bytes),
        Format::Json => {
            text.push(b'"')?;
            put_bytes(text, bytes)?;
            text.push(b'"')?;
            Ok(())
        }
    }
}

/// Appends bytes, each as two hexadecimal digits and a space.
fn put_before_spaces(text: &mut Vec<u8>, bytes: &[u8]) -> Result<(), AllocError>
    ensures { AddsText result text.old.items text.new.items (flat_map (λ c. hex 2 c ++ 32 ∷ []) bytes.now) }
{
    for byte in bytes {
        put_byte(text, *byte)?;
        text.push(b' ')?;
    }
    Ok(())
}

/// Appends bytes in brackets, with those before and after them.
pub(crate) fn put_bracketed(
    text: &mut Vec<u8>,
    before: &[u8],
    bytes: &[u8],
    after: &[u8],
) -> Result<(), AllocError>
    ensures { AddsText result text.old.items text.new.items (marked_text format.Text before.now bytes.now after.now) }
{
    put_before_spaces(text, before)?;
    text.push(b'[')?;
    put_spaced(text, bytes)?;
    text.push(b']')?;
    put_after_spaces(text, after)
}

/// Appends bytes, with those before and after them, as members of an object.
pub(crate) fn put_members(
    text: &mut Vec<u8>,
    before: &[u8],
    bytes: &[u8],
    after: &[u8],
) -> Result<(), AllocError>
    ensures { AddsText result text.old.items text.new.items (marked_text format.Json before.now bytes.now after.now) }
{
    put_list(text, Format::Json, bytes)?;
    text.extend_from_slice(b",\"before\":")?;
    put_list(text, Format::Json, before)?;
    text.extend_from_slice(b",\"after\":")?;
    put_list(text, Format::Json, after)
}

/// Appends the name beside an index, if there is one.
fn put_name_beside(
    text: &mut Vec<u8>,
    format: Format,
    name: Option<Name<'_>>,
) -> Result<(), AllocError>
    ensures { AddsText result text.old.items text.new.items (name_beside format name.entry) }
{
    let Some(name) = name else {
        return Ok(());
    };
    match format {
        Format::Text => {
            text.push(b' ')?;
            put_quoted(text, format, name.0)
        }
        Format::Json => {
            text.extend_from_slice(b",\"name\":")?;
            put_quoted(text, format, name.0)
        }
    }
}

/// Appends an index, or a dash for 0; in JSON as a member of an object.
fn put_index(text: &mut Vec<u8>, format: Format, index: u64) -> Result<(), AllocError>
    ensures { AddsText result text.old.items text.new.items (index_text format index) }
{
    match format {
        Format::Text if index == 0 => {
            text.push(b'-')?;
            Ok(())
        }
        Format::Text => put_decimal(text, index),
        Format::Json => {
            text.extend_from_slice(b"\"index\":")?;
            put_decimal(text, index)
        }
    }
}

/// Appends an index with its name.
pub(crate) fn put_entry(
    text: &mut Vec<u8>,
    format: Format,
    entry: Entry<'_>,
) -> Result<(), AllocError>
    ensures { AddsText result text.old.items text.new.items (entry_text format entry.entry) }
{
    put_index(text, format, entry.index)?;
    put_name_beside(text, format, entry.name)
}

/// Appends the entry of a method, if it has one.
pub(crate) fn put_method_entry(
    text: &mut Vec<u8>,
    format: Format,
    entry: Option<Entry<'_>>,
) -> Result<(), AllocError>
    ensures { AddsText result text.old.items text.new.items (method_entry format entry.entry) }
{
    let Some(entry) = entry else {
        return Ok(());
    };
    match format {
        Format::Text => text.push(b' ')?,
        Format::Json => text.push(b',')?,
    }
    put_entry(text, format, entry)
}

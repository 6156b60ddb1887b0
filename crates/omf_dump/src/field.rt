//! Fields: a name and a value, as text or as JSON.

ghost use Rattle.std.specs.Prelude.{◌≡◌, codes};
ghost use Rattle.omf_frame.specs.Bytes.{AddsText};
ghost use Rattle.omf_dump.specs.Fields.{Number, Signed, Hex, Word, Characters, Bytes, Depth, Marked, Named, Method, Flag};
ghost use Rattle.omf_dump.specs.Render.{digits, opened, value_text};

use crate::entry::Entry;
use crate::format::Format;
use crate::item::put_spaces;
use crate::value::{
    put_bracketed, put_entry, put_list, put_members, put_method_entry, put_number, put_quoted,
};
use omf_frame::Width;
use omf_host::{put_byte, put_decimal};
use std::alloc::AllocError;

/// Appends the name of a field, up to its value.
fn open(text: &mut Vec<u8>, format: Format, name: &str) -> Result<(), AllocError>
    ensures { AddsText result text.old.items text.new.items (opened format name.now) }
{
    match format {
        Format::Text => {
            text.extend_from_slice(b"  ")?;
            text.extend_from_slice(name.as_bytes())?;
            text.push(b' ')?;
            Ok(())
        }
        Format::Json => {
            text.extend_from_slice(b",\"")?;
            text.extend_from_slice(name.as_bytes())?;
            text.extend_from_slice(b"\":")
        }
    }
}

/// Appends a decimal number.
pub(crate) fn number(
    text: &mut Vec<u8>,
    format: Format,
    name: &str,
    number: u64,
) -> Result<(), AllocError>
    ensures { AddsText result text.old.items text.new.items (value_text format name.now (Number number)) }
{
    open(text, format, name)?;
    put_decimal(text, number)
}

/// Appends a 16-bit number with a sign: from 8000H on it is negative.
pub(crate) fn signed(
    text: &mut Vec<u8>,
    format: Format,
    name: &str,
    number: u16,
) -> Result<(), AllocError>
    ensures { AddsText result text.old.items text.new.items (value_text format name.now (Signed number)) }
{
    open(text, format, name)?;
    let number = u64::from(number);
    if number < 0x8000 {
        put_decimal(text, number)
    } else {
        text.push(b'-')?;
        put_decimal(text, 0x1_0000 - number)
    }
}

/// Appends a number of a 16-bit or a 32-bit field, in text in at least four or eight hexadecimal digits.
pub(crate) fn hexadecimal(
    text: &mut Vec<u8>,
    format: Format,
    name: &str,
    width: Width,
    number: u64,
) -> Result<(), AllocError>
    ensures { AddsText result text.old.items text.new.items (value_text format name.now (Hex (digits width) number)) }
{
    open(text, format, name)?;
    put_number(text, format, width, number)
}

/// Appends a byte, in text in two hexadecimal digits.
pub(crate) fn small(
    text: &mut Vec<u8>,
    format: Format,
    name: &str,
    byte: u8,
) -> Result<(), AllocError>
    ensures { AddsText result text.old.items text.new.items (value_text format name.now (Hex 2 byte)) }
{
    open(text, format, name)?;
    match format {
        Format::Text => put_byte(text, byte),
        Format::Json => put_decimal(text, u64::from(byte)),
    }
}

/// Appends a word.
pub(crate) fn word(
    text: &mut Vec<u8>,
    format: Format,
    name: &str,
    word: &str,
) -> Result<(), AllocError>
    ensures { AddsText result text.old.items text.new.items (value_text format name.now (Word word.now)) }
{
    open(text, format, name)?;
    match format {
        Format::Text => text.extend_from_slice(word.as_bytes()),
        Format::Json => {
            text.push(b'"')?;
            text.extend_from_slice(word.as_bytes())?;
            text.push(b'"')?;
            Ok(())
        }
    }
}

/// Appends bytes as characters.
pub(crate) fn characters(
    text: &mut Vec<u8>,
    format: Format,
    name: &str,
    bytes: &[u8],
) -> Result<(), AllocError>
    ensures { AddsText result text.old.items text.new.items (value_text format name.now (Characters bytes.now)) }
{
    open(text, format, name)?;
    put_quoted(text, format, bytes)
}

/// Appends bytes as numbers.
pub(crate) fn bytes(
    text: &mut Vec<u8>,
    format: Format,
    name: &str,
    bytes: &[u8],
) -> Result<(), AllocError>
    ensures { AddsText result text.old.items text.new.items (value_text format name.now (Bytes bytes.now)) }
{
    open(text, format, name)?;
    put_list(text, format, bytes)
}

/// Appends bytes as numbers, with those before and after them.
pub(crate) fn marked(
    text: &mut Vec<u8>,
    format: Format,
    before: &[u8],
    bytes: &[u8],
    after: &[u8],
) -> Result<(), AllocError>
    ensures { AddsText result text.old.items text.new.items (value_text format (codes "bytes") (Marked before.now bytes.now after.now)) }
{
    open(text, format, "bytes")?;
    match format {
        Format::Text => put_bracketed(text, before, bytes, after),
        Format::Json => put_members(text, before, bytes, after),
    }
}

/// Appends an entry of a table.
pub(crate) fn named(
    text: &mut Vec<u8>,
    format: Format,
    name: &str,
    entry: Entry<'_>,
) -> Result<(), AllocError>
    ensures { AddsText result text.old.items text.new.items (value_text format name.now (Named entry.entry)) }
{
    open(text, format, name)?;
    match format {
        Format::Text => put_entry(text, format, entry),
        Format::Json => {
            text.push(b'{')?;
            put_entry(text, format, entry)?;
            text.push(b'}')?;
            Ok(())
        }
    }
}

/// Appends a frame or target method, with its entry if it has one.
pub(crate) fn method(
    text: &mut Vec<u8>,
    format: Format,
    name: &str,
    method: &str,
    entry: Option<Entry<'_>>,
) -> Result<(), AllocError>
    ensures { AddsText result text.old.items text.new.items (value_text format name.now (Method method.now entry.entry)) }
{
    open(text, format, name)?;
    match format {
        Format::Text => {
            text.extend_from_slice(method.as_bytes())?;
            put_method_entry(text, format, entry)
        }
        Format::Json => {
            text.extend_from_slice(b"{\"method\":\"")?;
            text.extend_from_slice(method.as_bytes())?;
            text.push(b'"')?;
            put_method_entry(text, format, entry)?;
            text.push(b'}')?;
            Ok(())
        }
    }
}

/// Appends how deep something is nested: in text two spaces for each level.
pub(crate) fn depth(text: &mut Vec<u8>, format: Format, depth: usize) -> Result<(), AllocError>
    ensures { AddsText result text.old.items text.new.items (value_text format (codes "depth") (Depth depth)) }
{
    match format {
        Format::Text => {
            put_spaces(text, depth)?;
            put_spaces(text, depth)
        }
        Format::Json => {
            open(text, format, "depth")?;
            put_decimal(text, depth as u64)
        }
    }
}

/// Appends a flag: in text its name if it is set, in JSON true or false.
pub(crate) fn flag(
    text: &mut Vec<u8>,
    format: Format,
    name: &str,
    is_set: bool,
) -> Result<(), AllocError>
    ensures { AddsText result text.old.items text.new.items (value_text format name.now (Flag is_set)) }
{
    match format {
        Format::Text if is_set => {
            text.extend_from_slice(b"  ")?;
            text.extend_from_slice(name.as_bytes())
        }
        Format::Text => Ok(()),
        Format::Json => {
            open(text, format, name)?;
            text.extend_from_slice(if is_set { b"true" } else { b"false" })
        }
    }
}

//! The frame of a record's text: its head, its items, its bytes and its end.

ghost use Rattle.std.specs.Prelude.{◌≡◌, ◌+◌, ◌++◌, ◌<◌, ◌≤◌, ◌^◌, ◌∷◌, [], Some, codes, length, map, replicate};
ghost use Rattle.omf_frame.specs.Bytes.{AddsText};
ghost use Rattle.omf_dump.specs.Words.{type_word};
ghost use Rattle.omf_dump.specs.Render.{block_text, bytes_block, framed_head, head_text, is_shown, item_end, item_start, kind_head, left_out, line_end, many_bytes, more_bytes, place_head, record_end, row, rows, shown_byte, some_left_out};

use crate::field::small;
use crate::format::{Format, Style};
use crate::part::first;
use crate::value::{put_after_spaces, put_bytes};
use crate::words::type_word;
use omf_frame::RawRecord;
use omf_host::{put_byte, put_decimal, put_eight};
use std::alloc::AllocError;

/// The number of bytes in a line.
const ROW: usize = 16;

/// Begins a record by its number and its offset.
pub(crate) fn put_number_head(
    text: &mut Vec<u8>,
    format: Format,
    number: u64,
    start: u64,
) -> Result<(), AllocError>
    ensures { AddsText result text.old.items text.new.items (place_head format number start) }
{
    match format {
        Format::Text => {
            put_decimal(text, number)?;
            text.push(b' ')?;
            put_eight(text, start)
        }
        Format::Json => {
            text.extend_from_slice(b"{\"number\":")?;
            put_decimal(text, number)?;
            text.extend_from_slice(b",\"start\":")?;
            put_decimal(text, start)
        }
    }
}

/// Appends the type name of a record, as in an object of JSON.
fn put_json_name(text: &mut Vec<u8>, name: &str) -> Result<(), AllocError>
    ensures { AddsText result text.old.items text.new.items (codes ",\"record\":\"" ++ (name.now ++ 34 ∷ [])) }
{
    text.extend_from_slice(b",\"record\":\"")?;
    text.extend_from_slice(name.as_bytes())?;
    text.push(b'"')?;
    Ok(())
}

/// Appends the type byte of a record, and this type name.
fn put_named_kind(
    text: &mut Vec<u8>,
    format: Format,
    kind: u8,
    name: &str,
) -> Result<(), AllocError>
    ensures { AddsText result text.old.items text.new.items (kind_head format kind name.now) }
{
    match format {
        Format::Text => {
            text.push(b' ')?;
            put_byte(text, kind)?;
            text.push(b' ')?;
            text.extend_from_slice(name.as_bytes())
        }
        Format::Json => {
            text.extend_from_slice(b",\"type\":")?;
            put_decimal(text, u64::from(kind))?;
            put_json_name(text, name)
        }
    }
}

/// Appends the type byte and the type name of a record.
pub(crate) fn put_kind_head(text: &mut Vec<u8>, format: Format, kind: u8) -> Result<(), AllocError>
    ensures { AddsText result text.old.items text.new.items (kind_head format kind (type_word kind)) }
{
    put_named_kind(text, format, kind, type_word(kind))
}

/// Begins a record: number, offset, type byte and type name.
pub(crate) fn open_record(
    text: &mut Vec<u8>,
    format: Format,
    raw: &RawRecord<'_>,
) -> Result<(), AllocError>
    ensures { AddsText result text.old.items text.new.items (head_text format raw.now.number raw.now.start raw.now.kind) }
{
    put_number_head(text, format, u64::from(raw.number), raw.start)?;
    put_kind_head(text, format, raw.kind)
}

/// Begins a record, with its checksum byte.
pub(crate) fn open_framed(
    text: &mut Vec<u8>,
    format: Format,
    raw: &RawRecord<'_>,
    checksum: u8,
) -> Result<(), AllocError>
    ensures { AddsText result text.old.items text.new.items (framed_head format raw.now.number raw.now.start raw.now.kind checksum) }
{
    open_record(text, format, raw)?;
    small(text, format, "checksum", checksum)
}

/// Ends the fields of a record, in text its first line.
pub(crate) fn end_fields(text: &mut Vec<u8>, format: Format) -> Result<(), AllocError>
    ensures { AddsText result text.old.items text.new.items (line_end format) }
{
    match format {
        Format::Text => text.push(b'\n')?,
        Format::Json => {}
    }
    Ok(())
}

/// Ends a record.
pub(crate) fn close_record(text: &mut Vec<u8>, format: Format) -> Result<(), AllocError>
    ensures { AddsText result text.old.items text.new.items (record_end format) }
{
    match format {
        Format::Text => Ok(()),
        Format::Json => text.extend_from_slice(b"}\n"),
    }
}

/// Begins an item with its offset in the record.
pub(crate) fn open_item(
    text: &mut Vec<u8>,
    format: Format,
    is_first: bool,
    within: u64,
) -> Result<(), AllocError>
    ensures { AddsText result text.old.items text.new.items (item_start format is_first within) }
{
    match format {
        Format::Text => text.extend_from_slice(b"    +")?,
        Format::Json if is_first => text.extend_from_slice(b"{\"within\":")?,
        Format::Json => text.extend_from_slice(b",{\"within\":")?,
    }
    put_decimal(text, within)
}

/// Ends an item.
pub(crate) fn close_item(text: &mut Vec<u8>, format: Format) -> Result<(), AllocError>
    ensures { AddsText result text.old.items text.new.items (item_end format) }
{
    match format {
        Format::Text => text.push(b'\n')?,
        Format::Json => text.push(b'}')?,
    }
    Ok(())
}

/// Whether a byte is shown as a character: 20H to 7EH.
fn is_shown(byte: u8) -> bool
    ensures { result ≡ is_shown byte }
{
    byte >= 0x20 && byte <= 0x7E
}

/// Appends the character of a byte, or a dot.
fn put_shown(text: &mut Vec<u8>, byte: u8) -> Result<(), AllocError>
    ensures { AddsText result text.old.items text.new.items (shown_byte byte ∷ []) }
{
    text.push(if is_shown(byte) { byte } else { b'.' })?;
    Ok(())
}

/// Appends the characters of bytes.
fn put_characters(text: &mut Vec<u8>, bytes: &[u8]) -> Result<(), AllocError>
    ensures { AddsText result text.old.items text.new.items (map shown_byte bytes.now) }
{
    for byte in bytes {
        put_shown(text, *byte)?;
    }
    Ok(())
}

/// Appends spaces.
#[tactic(auto, using(std::proofs::lemmas::List::replicate_more))]
pub(crate) fn put_spaces(text: &mut Vec<u8>, count: usize) -> Result<(), AllocError>
    ensures { AddsText result text.old.items text.new.items (replicate count 32) }
{
    for _ in 0..count {
        text.push(b' ')?;
    }
    Ok(())
}

/// Appends a line of at most 16 bytes: the offset of the first, the bytes, their characters.
fn put_row(text: &mut Vec<u8>, offset: u64, bytes: &[u8]) -> Result<(), AllocError>
    requires { length bytes.now ≤ 16 }
    ensures { AddsText result text.old.items text.new.items (row offset bytes.now) }
{
    text.extend_from_slice(b"    ")?;
    put_eight(text, offset)?;
    put_after_spaces(text, bytes)?;
    put_spaces(text, 3 * (16 - bytes.len()) + 2)?;
    put_characters(text, bytes)?;
    text.push(b'\n')?;
    Ok(())
}

/// Appends bytes in lines of 16; the last line has what is left.
pub(crate) fn put_rows(text: &mut Vec<u8>, first: u64, bytes: &[u8]) -> Result<(), AllocError>
    requires { first + length bytes.now < 2 ^ 64 }
    ensures { AddsText result text.old.items text.new.items (rows first bytes.now) }
{
    let mut offset = first;
    let mut rest = bytes;
    while !rest.is_empty() {
        let (line, others) = rest.split_at(rest.len().min(ROW));
        put_row(text, offset, line)?;
        offset += line.len() as u64;
        rest = others;
    }
    Ok(())
}

/// Appends bytes: in text in lines of 16, in JSON as one word of hexadecimal digits.
pub(crate) fn put_bytes_block(
    text: &mut Vec<u8>,
    format: Format,
    first: u64,
    bytes: &[u8],
) -> Result<(), AllocError>
    requires { first + length bytes.now < 2 ^ 64 }
    ensures { AddsText result text.old.items text.new.items (bytes_block format first bytes.now) }
{
    match format {
        Format::Text => put_rows(text, first, bytes),
        Format::Json => {
            text.extend_from_slice(b",\"data\":\"")?;
            put_bytes(text, bytes)?;
            text.push(b'"')?;
            Ok(())
        }
    }
}

/// Appends the line with the number of bytes that are left out, which are several.
fn put_many_bytes(text: &mut Vec<u8>, count: u64) -> Result<(), AllocError>
    ensures { AddsText result text.old.items text.new.items (many_bytes count) }
{
    text.extend_from_slice(b"    and ")?;
    put_decimal(text, count)?;
    text.extend_from_slice(b" bytes more\n")
}

/// Appends the line with the number of bytes that are left out.
fn put_more_bytes(text: &mut Vec<u8>, count: u64) -> Result<(), AllocError>
    ensures { AddsText result text.old.items text.new.items (more_bytes count) }
{
    match count {
        1 => text.extend_from_slice(b"    and 1 byte more\n"),
        _ => put_many_bytes(text, count),
    }
}

/// Appends the number of bytes that are left out, which is not 0.
fn put_some_left_out(text: &mut Vec<u8>, format: Format, count: u64) -> Result<(), AllocError>
    ensures { AddsText result text.old.items text.new.items (some_left_out format count) }
{
    match format {
        Format::Text => put_more_bytes(text, count),
        Format::Json => {
            text.extend_from_slice(b",\"left-out\":")?;
            put_decimal(text, count)
        }
    }
}

/// Appends the number of bytes that are left out, if some are.
fn put_left_out(text: &mut Vec<u8>, format: Format, count: usize) -> Result<(), AllocError>
    ensures { AddsText result text.old.items text.new.items (left_out format count) }
{
    if count == 0 {
        return Ok(());
    }
    put_some_left_out(text, format, count as u64)
}

/// Appends the bytes of a record, at most so many.
pub(crate) fn put_block(
    text: &mut Vec<u8>,
    style: Style,
    offset: u64,
    bytes: &[u8],
) -> Result<(), AllocError>
    requires { offset + length bytes.now < 2 ^ 64 }
    ensures { AddsText result text.old.items text.new.items (block_text style (Some (record { first = offset; bytes = bytes.now }))) }
{
    put_bytes_block(text, style.format, offset, first(style.most, bytes))?;
    put_left_out(text, style.format, bytes.len().saturating_sub(style.most))
}

//! The line of a name.

ghost use Rattle.std.specs.Prelude.{◌≡◌, ◌++◌, if◌then◌else◌};
ghost use Rattle.omf_frame.specs.Bytes.{AddsText};
ghost use Rattle.omf_dump.specs.Names.{back_cells, back_keys, back_words, frame_cell, frame_fields, front_cells, front_keys, front_words, local_cell, local_words, offset_cell, offset_fields, offset_words, place_words, row_cells, row_line, row_object, row_text, row_words, segment_fields, sort_fields, symbol_fields};
ghost use Rattle.omf_dump.specs.Render.{fields_text};
ghost use Rattle.omf_dump.specs.declared.format.Format.TheVariants as format;

use crate::csv::{put_csv_name, put_csv_quoted};
use crate::field::{characters, flag, number, word};
use crate::format::{Format, Shape, Which};
use crate::item::close_record;
use crate::sort::Sort;
use crate::value::{put_number, put_quoted};
use omf_frame::{Name, Width};
use omf_host::{put_decimal, put_four};
use std::alloc::AllocError;
use std::marker::Model;

/// A name of a module.
#[derive(Drop)]
pub struct NameRow<'a> {
    pub sort: Sort,
    /// Whether only its own module sees it.
    pub is_local: bool,
    /// The name of a public's segment.
    pub segment: Option<Name<'a>>,
    /// The number of a public's base frame, if it has no segment.
    pub frame: Option<u16>,
    /// The offset of a public in bytes, and the width of its field.
    pub offset: Option<(Width, u32)>,
    pub name: &'a [u8],
}

impl<'a> Model for NameRow<'a> {
    ghost use Rattle.omf_dump.specs.Names.{NameRow as Seen};

    ghost Value = { Seen };

    ghost view = { λ r. record { sort = r.sort; is_local = r.is_local; segment = r.segment; frame = r.frame; offset = r.offset; name = r.name.now } };
}

/// Appends a public's segment, or its base frame.
fn put_place(
    text: &mut Vec<u8>,
    segment: Option<Name<'_>>,
    frame: Option<u16>,
) -> Result<(), AllocError>
    ensures { AddsText result text.old.items text.new.items (place_words segment.entry frame) }
{
    match segment {
        Some(segment) => put_quoted(text, Format::Text, segment.0),
        None => match frame {
            Some(frame) => put_four(text, u64::from(frame)),
            None => text.extend_from_slice(b"-"),
        },
    }
}

/// Appends a public's offset.
fn put_offset(text: &mut Vec<u8>, offset: Option<(Width, u32)>) -> Result<(), AllocError>
    ensures { AddsText result text.old.items text.new.items (offset_words offset) }
{
    match offset {
        Some((width, offset)) => put_number(text, Format::Text, width, u64::from(offset)),
        None => text.extend_from_slice(b"-"),
    }
}

/// The end of a line of text.
fn local_words(is_local: bool) -> &'static [u8]
    ensures { result.now ≡ local_words is_local }
{
    if is_local { b" local\n" } else { b"\n" }
}

/// Appends the kind and the place of a name as text.
fn put_front_words(
    text: &mut Vec<u8>,
    sort: Sort,
    segment: Option<Name<'_>>,
    frame: Option<u16>,
    offset: Option<(Width, u32)>,
) -> Result<(), AllocError>
    ensures { AddsText result text.old.items text.new.items (front_words sort segment.entry frame offset) }
{
    text.extend_from_slice(sort.word().as_bytes())?;
    text.push(b' ')?;
    put_place(text, segment, frame)?;
    text.push(b' ')?;
    put_offset(text, offset)
}

/// Appends a name itself, and the end of its line of text.
fn put_back_words(text: &mut Vec<u8>, name: &[u8], is_local: bool) -> Result<(), AllocError>
    ensures { AddsText result text.old.items text.new.items (back_words name.now is_local) }
{
    text.push(b' ')?;
    put_quoted(text, Format::Text, name)?;
    text.extend_from_slice(local_words(is_local))
}

/// Appends a name as text.
fn put_words(text: &mut Vec<u8>, row: NameRow<'_>) -> Result<(), AllocError>
    ensures { AddsText result text.old.items text.new.items (row_words row.entry) }
{
    put_front_words(text, row.sort, row.segment, row.frame, row.offset)?;
    put_back_words(text, row.name, row.is_local)
}

/// Appends the kind of a name, as keys of an object.
fn put_sort(text: &mut Vec<u8>, sort: Sort, is_local: bool) -> Result<(), AllocError>
    ensures { AddsText result text.old.items text.new.items (fields_text format.Json (sort_fields sort is_local)) }
{
    word(text, Format::Json, "kind", sort.word())?;
    flag(text, Format::Json, "local", is_local)
}

/// Appends a public's segment, as a key of an object.
fn put_segment_key(text: &mut Vec<u8>, segment: Option<Name<'_>>) -> Result<(), AllocError>
    ensures { AddsText result text.old.items text.new.items (fields_text format.Json (segment_fields segment.entry)) }
{
    match segment {
        Some(segment) => characters(text, Format::Json, "segment", segment.0),
        None => Ok(()),
    }
}

/// Appends a public's base frame, as a key of an object.
fn put_frame_key(text: &mut Vec<u8>, frame: Option<u16>) -> Result<(), AllocError>
    ensures { AddsText result text.old.items text.new.items (fields_text format.Json (frame_fields frame)) }
{
    match frame {
        Some(frame) => number(text, Format::Json, "frame", u64::from(frame)),
        None => Ok(()),
    }
}

/// Appends a public's offset, as a key of an object.
fn put_offset_key(text: &mut Vec<u8>, offset: Option<(Width, u32)>) -> Result<(), AllocError>
    ensures { AddsText result text.old.items text.new.items (fields_text format.Json (offset_fields offset)) }
{
    match offset {
        Some((_, offset)) => number(text, Format::Json, "offset", u64::from(offset)),
        None => Ok(()),
    }
}

/// Appends a name, as a key of an object.
fn put_symbol(text: &mut Vec<u8>, name: &[u8]) -> Result<(), AllocError>
    ensures { AddsText result text.old.items text.new.items (fields_text format.Json (symbol_fields name.now)) }
{
    characters(text, Format::Json, "symbol", name)
}

/// Appends the kind and the segment of a name, as keys of an object.
fn put_front_keys(
    text: &mut Vec<u8>,
    sort: Sort,
    is_local: bool,
    segment: Option<Name<'_>>,
    frame: Option<u16>,
) -> Result<(), AllocError>
    ensures { AddsText result text.old.items text.new.items (front_keys sort is_local segment.entry frame) }
{
    put_sort(text, sort, is_local)?;
    put_segment_key(text, segment)?;
    put_frame_key(text, frame)
}

/// Appends the offset of a name, the name itself, and the end of the object.
fn put_back_keys(
    text: &mut Vec<u8>,
    offset: Option<(Width, u32)>,
    name: &[u8],
) -> Result<(), AllocError>
    ensures { AddsText result text.old.items text.new.items (back_keys offset name.now) }
{
    put_offset_key(text, offset)?;
    put_symbol(text, name)?;
    close_record(text, Format::Json)
}

/// Appends a name as the keys of an object.
fn put_object(text: &mut Vec<u8>, row: NameRow<'_>) -> Result<(), AllocError>
    ensures { AddsText result text.old.items text.new.items (row_object row.entry) }
{
    put_front_keys(text, row.sort, row.is_local, row.segment, row.frame)?;
    put_back_keys(text, row.offset, row.name)
}

/// Whether a name is local, between two commas.
fn local_cell(is_local: bool) -> &'static [u8]
    ensures { result.now ≡ local_cell is_local }
{
    if is_local { b",true," } else { b",false," }
}

/// Appends a public's base frame, as a cell.
fn put_frame_cell(text: &mut Vec<u8>, frame: Option<u16>) -> Result<(), AllocError>
    ensures { AddsText result text.old.items text.new.items (frame_cell frame) }
{
    match frame {
        Some(frame) => put_decimal(text, u64::from(frame)),
        None => Ok(()),
    }
}

/// Appends a public's offset, as a cell.
fn put_offset_cell(text: &mut Vec<u8>, offset: Option<(Width, u32)>) -> Result<(), AllocError>
    ensures { AddsText result text.old.items text.new.items (offset_cell offset) }
{
    match offset {
        Some((_, offset)) => put_decimal(text, u64::from(offset)),
        None => Ok(()),
    }
}

/// Appends the kind and the segment of a name, as cells.
fn put_front_cells(
    text: &mut Vec<u8>,
    sort: Sort,
    is_local: bool,
    segment: Option<Name<'_>>,
    frame: Option<u16>,
) -> Result<(), AllocError>
    ensures { AddsText result text.old.items text.new.items (front_cells sort is_local segment.entry frame) }
{
    text.push(b',')?;
    text.extend_from_slice(sort.word().as_bytes())?;
    text.extend_from_slice(local_cell(is_local))?;
    put_csv_name(text, segment)?;
    text.push(b',')?;
    put_frame_cell(text, frame)
}

/// Appends the offset of a name, the name itself, and the empty cells of a refusal.
fn put_back_cells(
    text: &mut Vec<u8>,
    offset: Option<(Width, u32)>,
    name: &[u8],
) -> Result<(), AllocError>
    ensures { AddsText result text.old.items text.new.items (back_cells offset name.now) }
{
    text.push(b',')?;
    put_offset_cell(text, offset)?;
    text.push(b',')?;
    put_csv_quoted(text, name)?;
    text.extend_from_slice(b",,,,,,\n")
}

/// Appends a name as cells.
fn put_cells(text: &mut Vec<u8>, row: NameRow<'_>) -> Result<(), AllocError>
    ensures { AddsText result text.old.items text.new.items (row_cells row.entry) }
{
    put_front_cells(text, row.sort, row.is_local, row.segment, row.frame)?;
    put_back_cells(text, row.offset, row.name)
}

/// Appends a name after its head.
fn put_row(text: &mut Vec<u8>, shape: Shape, row: NameRow<'_>) -> Result<(), AllocError>
    ensures { AddsText result text.old.items text.new.items (row_text shape row.entry) }
{
    match shape {
        Shape::Text => put_words(text, row),
        Shape::Json => put_object(text, row),
        Shape::Csv => put_cells(text, row),
    }
}

/// Appends the line of a name, if it is listed.
pub(crate) fn put_line(
    text: &mut Vec<u8>,
    shape: Shape,
    which: Which,
    head: &[u8],
    row: NameRow<'_>,
) -> Result<(), AllocError>
    ensures { AddsText result text.old.items text.new.items (row_line shape which head.now row.entry) }
{
    if !row.sort.is_listed(which) {
        return Ok(());
    }
    text.extend_from_slice(head)?;
    put_row(text, shape, row)
}

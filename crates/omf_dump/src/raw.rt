//! Records by their bytes alone: the fields of their layouts, one after another, as far as they go.

ghost use Rattle.std.specs.Prelude.{◌≡◌, ◌+◌, ◌-◌, ◌++◌, ◌≤◌, ◌<◌, ◌^◌, [], IfOk, None, Some, length, true};
ghost use Rattle.omf_frame.specs.Bytes.{AddsText};
ghost use Rattle.omf_dump.specs.Raw.{comdat_offset, fields_type, first_offset, fix_frame, fix_target, has_blocks, has_bytes, head_fields, head_size, is_comdat, item_fields, item_size, items_from, left_if, named_attributes, raw_shown, rest_block, rest_items, steps_fields, steps_size, type_shown, value_fields};
ghost use Rattle.omf_dump.specs.Blocks.{blocks_from};
ghost use Rattle.omf_dump.specs.Render.{closing, fields_text, items_text, shown_text};

use crate::blocks::put_blocks;
use crate::closing::{begin_items, close_block, end_items};
use crate::encoded::{
    after_first, count_of, first_of, index_of, is_there, left_by, little, locat_of, size_of,
    version_of,
};
use crate::field::{bytes, characters, flag, hexadecimal, method, named, number, small, word};
use crate::flags::{
    align_word, leaf_word, patch_word, put_attributes, put_comdat_attributes, put_comdat_flags,
    put_comment_class, put_comment_flags, put_communal_kind, put_end_flags, put_fix_frame,
    put_fix_target, put_line_flags, put_locat, put_thread_number, variable_word,
};
use crate::format::{Format, Style};
use crate::item::{close_item, open_item};
use crate::known::Tables;
use crate::layout::{head_steps, item_steps, kind, name, when};
use crate::part::{after, first};
use crate::step::{Kind, Step};
use omf_frame::{RecordType, Width};
use omf_records::Blocks;
use std::alloc::AllocError;

/// How fields are shown, and the names of their indices.
#[derive(Drop)]
pub(crate) struct View<'r, 'a> {
    pub style: Style,
    pub width: Width,
    pub tables: &'r Tables<'a>,
}

/// The fields of fix data.
fn put_fix(text: &mut Vec<u8>, format: Format, byte: u8) -> Result<(), AllocError>
    ensures { AddsText result text.old.items text.new.items (fields_text format (fix_frame byte ++ fix_target byte)) }
{
    put_fix_frame(text, format, byte)?;
    put_fix_target(text, format, byte)
}

/// The attributes of a SEGDEF, as a byte and by their fields.
fn put_segment_attributes(
    text: &mut Vec<u8>,
    format: Format,
    name: &str,
    byte: u8,
) -> Result<(), AllocError>
    ensures { AddsText result text.old.items text.new.items (fields_text format (named_attributes name.now byte)) }
{
    small(text, format, name, byte)?;
    put_attributes(text, format, byte)
}

/// A field with these bytes.
fn put_value(
    text: &mut Vec<u8>,
    view: &View<'_, '_>,
    name: &str,
    kind: Kind,
    value: &[u8],
) -> Result<(), AllocError>
    ensures { AddsText result text.old.items text.new.items (fields_text view.now.style.format (value_fields view.now.tables.now view.now.width name.now kind value.now)) }
{
    let format = view.style.format;
    let tables = view.tables;
    match kind {
        Kind::Small => small(text, format, name, first_of(value)),
        Kind::Decimal => number(text, format, name, u64::from(little(value))),
        Kind::Short => hexadecimal(text, format, name, Width::Bits16, u64::from(little(value))),
        Kind::Wide => hexadecimal(text, format, name, view.width, u64::from(little(value))),
        Kind::Long => hexadecimal(text, format, name, Width::Bits32, u64::from(little(value))),
        Kind::Count => hexadecimal(
            text,
            format,
            name,
            Width::Bits16,
            u64::from(count_of(value)),
        ),
        Kind::Counted => characters(text, format, name, after_first(value)),
        Kind::Version => characters(text, format, name, version_of(value)),
        Kind::Bytes => bytes(text, format, name, value),
        Kind::Type => number(text, format, name, u64::from(index_of(value))),
        Kind::Name => named(text, format, name, tables.name(index_of(value))),
        Kind::Segment => named(text, format, name, tables.segment(index_of(value))),
        Kind::Group => named(text, format, name, tables.group(index_of(value))),
        Kind::External => named(text, format, name, tables.external(index_of(value))),
        Kind::OfSegment => method(
            text,
            format,
            name,
            "segment",
            Some(tables.segment(index_of(value))),
        ),
        Kind::OfGroup => method(
            text,
            format,
            name,
            "group",
            Some(tables.group(index_of(value))),
        ),
        Kind::OfExternal => method(
            text,
            format,
            name,
            "external",
            Some(tables.external(index_of(value))),
        ),
        Kind::ComdatFlags => put_comdat_flags(text, format, first_of(value)),
        Kind::Selection => put_comdat_attributes(text, format, first_of(value)),
        Kind::ComdatAlign => word(text, format, name, align_word(first_of(value))),
        Kind::Attributes => put_segment_attributes(text, format, name, first_of(value)),
        Kind::LineFlags => put_line_flags(text, format, first_of(value)),
        Kind::CommentFlags => put_comment_flags(text, format, first_of(value)),
        Kind::CommentClass => put_comment_class(text, format, first_of(value)),
        Kind::EndFlags => put_end_flags(text, format, first_of(value)),
        Kind::Patch => word(text, format, name, patch_word(first_of(value))),
        Kind::Leaf => word(text, format, name, leaf_word(first_of(value))),
        Kind::Variable => word(text, format, name, variable_word(first_of(value))),
        Kind::Communal => put_communal_kind(text, format, first_of(value)),
        Kind::Thread => put_thread_number(text, format, first_of(value)),
        Kind::Fix => put_fix(text, format, first_of(value)),
        Kind::Location => put_locat(text, format, view.width, locat_of(value)),
    }
}

/// The bytes that are there of a field that is cut.
fn put_left(text: &mut Vec<u8>, format: Format, left: &[u8]) -> Result<(), AllocError>
    ensures { AddsText result text.old.items text.new.items (fields_text format (left_if left.now)) }
{
    match left {
        [] => Ok(()),
        [_, ..] => bytes(text, format, "left", left),
    }
}

/// The fields of a layout, from the front of the bytes on. Returns how many bytes they take.
fn put_steps(
    text: &mut Vec<u8>,
    view: &View<'_, '_>,
    last: u16,
    steps: &[Step],
    value: &[u8],
) -> Result<usize, AllocError>
    ensures text { AddsText result text.old.items text.new.items (fields_text view.now.style.format (steps_fields view.now.tables.now view.now.width last steps.now value.now)) }
    ensures size { IfOk result (λ n. n ≡ steps_size view.now.width last steps.now value.now) }
    ensures fits { IfOk result (λ n. n ≤ length value.now) }
{
    match steps {
        [] => Ok(0),
        [step, others @ ..] => {
            if !is_there(when(*step), last) {
                return put_steps(text, view, last, others, value);
            }
            match size_of(view.width, kind(*step), value) {
                None => {
                    flag(text, view.style.format, "cut", true)?;
                    put_left(text, view.style.format, value)?;
                    Ok(value.len())
                }
                Some(size) => {
                    let (front, rest) = value.split_at(size);
                    put_value(text, view, name(*step), kind(*step), front)?;
                    let more = put_steps(text, view, left_by(*step, front, last), others, rest)?;
                    Ok(size + more)
                }
            }
        }
    }
}

/// The fields of an item of a record.
fn put_item_steps(
    text: &mut Vec<u8>,
    view: &View<'_, '_>,
    kind: RecordType,
    value: &[u8],
) -> Result<usize, AllocError>
    ensures text { AddsText result text.old.items text.new.items (fields_text view.now.style.format (item_fields view.now.tables.now view.now.width kind value.now)) }
    ensures size { IfOk result (λ n. n ≡ item_size view.now.width kind value.now) }
    ensures fits { IfOk result (λ n. n ≤ length value.now) }
{
    put_steps(text, view, 0, item_steps(kind, first_of(value)), value)
}

/// This number, or 1.
pub(crate) fn at_least_one(count: usize) -> usize
    ensures some { 0 < result }
    ensures same { result - 1 ≡ count - 1 }
{
    if count == 0 { 1 } else { count }
}

/// The items of a record, from an offset in it on.
fn put_items(
    text: &mut Vec<u8>,
    view: &View<'_, '_>,
    kind: RecordType,
    within: u64,
    value: &[u8],
) -> Result<(), AllocError>
    requires { within + length value.now < 2 ^ 64 }
    ensures { AddsText result text.old.items text.new.items (items_text view.now.style.format true (items_from view.now.tables.now view.now.width kind within 0 value.now)) }
{
    let mut is_first = true;
    let mut at = within;
    let mut rest = value;
    while !rest.is_empty() {
        open_item(text, view.style.format, is_first, at)?;
        let taken = put_item_steps(text, view, kind, rest)?;
        close_item(text, view.style.format)?;
        let size = at_least_one(taken);
        is_first = false;
        at += size as u64;
        rest = rest.split_at(size).1;
    }
    Ok(())
}

/// The blocks of an LIDATA, from an offset in the record on.
fn put_blocks_rest(
    text: &mut Vec<u8>,
    view: &View<'_, '_>,
    within: u64,
    value: &[u8],
) -> Result<(), AllocError>
    requires { within + length value.now < 2 ^ 64 }
    ensures { AddsText result text.old.items text.new.items (closing view.now.style (Some (blocks_from view.now.width within [] 0 value.now)) None) }
{
    let blocks = Blocks {
        bytes: value,
        width: view.width,
    };
    begin_items(text, view.style)?;
    put_blocks(text, view.style.format, within, blocks)?;
    end_items(text, view.style)
}

/// The items of a record, from an offset in it on, and its end.
fn put_items_rest(
    text: &mut Vec<u8>,
    view: &View<'_, '_>,
    kind: RecordType,
    within: u64,
    value: &[u8],
) -> Result<(), AllocError>
    requires { within + length value.now < 2 ^ 64 }
    ensures { AddsText result text.old.items text.new.items (closing view.now.style (Some (items_from view.now.tables.now view.now.width kind within 0 value.now)) None) }
{
    begin_items(text, view.style)?;
    put_items(text, view, kind, within, value)?;
    end_items(text, view.style)
}

/// Whether bytes follow the fields at the beginning of a record, by the first byte of its contents.
fn has_bytes(kind: RecordType, first: u8) -> bool
    ensures { result ≡ has_bytes kind first }
{
    match kind {
        RecordType::Coment | RecordType::Ledata | RecordType::Vendext => true,
        RecordType::Comdat => first / 2 % 2 == 0,
        _ => false,
    }
}

/// Whether blocks follow them.
pub(crate) fn has_blocks(kind: RecordType, first: u8) -> bool
    ensures { result ≡ has_blocks kind first }
{
    match kind {
        RecordType::Lidata => true,
        RecordType::Comdat => first / 2 % 2 == 1,
        _ => false,
    }
}

/// The offset of a COMDAT's data in their segment.
pub(crate) fn comdat_offset(width: Width, body: &[u8]) -> u32
    ensures { result ≡ comdat_offset width body.now }
{
    little(first(width.bytes(), after(3, body)))
}

/// Whether a record is a COMDAT.
fn is_comdat(kind: RecordType) -> bool
    ensures { result ≡ is_comdat kind }
{
    match kind {
        RecordType::Comdat => true,
        _ => false,
    }
}

/// The contents of a record, and the part of them after the fields at the beginning, with its offset in the record.
#[derive(Clone, Copy)]
struct Parts<'b> {
    body: &'b [u8],
    within: u64,
    rest: &'b [u8],
}

/// The bytes after the fields at the beginning of a record.
fn put_bytes_rest(
    text: &mut Vec<u8>,
    view: &View<'_, '_>,
    kind: RecordType,
    parts: Parts<'_>,
) -> Result<(), AllocError>
    requires { parts.within + length parts.rest.now < 2 ^ 64 }
    ensures { AddsText result text.old.items text.new.items (closing view.now.style None (Some (record { first = first_offset view.now.width kind parts.entry.within parts.entry.body.now; bytes = parts.entry.rest.now }))) }
{
    let Parts { body, within, rest } = parts;
    if is_comdat(kind) {
        let offset = comdat_offset(view.width, body);
        close_block(text, view.style, u64::from(offset), rest)
    } else {
        close_block(text, view.style, within, rest)
    }
}

/// What follows the fields at the beginning of a record.
fn put_rest(
    text: &mut Vec<u8>,
    view: &View<'_, '_>,
    kind: RecordType,
    parts: Parts<'_>,
) -> Result<(), AllocError>
    requires { parts.within + length parts.rest.now < 2 ^ 64 }
    ensures { AddsText result text.old.items text.new.items (closing view.now.style (rest_items view.now.tables.now view.now.width kind parts.entry.within parts.entry.body.now parts.entry.rest.now) (rest_block view.now.width kind parts.entry.within parts.entry.body.now parts.entry.rest.now)) }
{
    let byte = first_of(parts.body);
    if has_bytes(kind, byte) {
        put_bytes_rest(text, view, kind, parts)
    } else if has_blocks(kind, byte) {
        put_blocks_rest(text, view, parts.within, parts.rest)
    } else {
        put_items_rest(text, view, kind, parts.within, parts.rest)
    }
}

/// The fields at the beginning of a record.
fn put_head(
    text: &mut Vec<u8>,
    view: &View<'_, '_>,
    kind: RecordType,
    value: &[u8],
) -> Result<usize, AllocError>
    ensures text { AddsText result text.old.items text.new.items (fields_text view.now.style.format (head_fields view.now.tables.now view.now.width kind value.now)) }
    ensures size { IfOk result (λ n. n ≡ head_size view.now.width kind value.now) }
    ensures fits { IfOk result (λ n. n ≤ length value.now) }
{
    put_steps(text, view, 0, head_steps(kind), value)
}

/// A record of a known type.
fn show_type(
    text: &mut Vec<u8>,
    view: &View<'_, '_>,
    kind: RecordType,
    value: &[u8],
) -> Result<(), AllocError>
    ensures { AddsText result text.old.items text.new.items (shown_text view.now.style (type_shown view.now.tables.now view.now.width kind value.now)) }
{
    let size = put_head(text, view, kind, value)?;
    let parts = Parts {
        body: value,
        within: 3 + size as u64,
        rest: after(size, value),
    };
    put_rest(text, view, kind, parts)
}

/// The end of a library.
const LIBRARY_END: u8 = 0xF1;

/// The type with the fields of a record; the end of a library has none.
fn fields_type(kind: u8) -> Option<RecordType>
    ensures { result ≡ fields_type kind }
{
    if kind == LIBRARY_END {
        return None;
    }
    RecordType::of(kind)
}

/// A record with this type byte, by its bytes alone.
pub(crate) fn show_raw(
    text: &mut Vec<u8>,
    style: Style,
    tables: &Tables<'_>,
    kind: u8,
    value: &[u8],
) -> Result<(), AllocError>
    ensures { AddsText result text.old.items text.new.items (shown_text style (raw_shown tables.now kind value.now)) }
{
    let view = View {
        style,
        width: Width::of(kind),
        tables,
    };
    match fields_type(kind) {
        Some(kind) => show_type(text, &view, kind, value),
        None => close_block(text, style, 3, value),
    }
}

//! The fields of records other than FIXUPPs.

ghost use Rattle.std.specs.Prelude.{◌≡◌, ◌+◌, length};
ghost use Rattle.omf_frame.specs.Bytes.{AddsText};
ghost use Rattle.omf_records.specs.Inner.Sizes.{size_seen};
ghost use Rattle.omf_dump.specs.Contents.{absolute_if, base_fields, comment_fields, communal_fields, expanded_if, external_fields, group_fields, indexed_fields, length_field, length_if, length_of, member_fields, name_fields, place_fields, public_fields, segment_fields, segment_names, size_fields};
ghost use Rattle.omf_dump.specs.Raw.{attribute_fields};
ghost use Rattle.omf_dump.specs.Render.{fields_text};

use crate::comment::put_class_fields;
use crate::entry::Entry;
use crate::field::{characters, hexadecimal, named, number, small, word};
use crate::flags::{self, put_comment_class, put_comment_flags};
use crate::format::Format;
use crate::known::Tables;
use omf_frame::{Index, Name, Width};
use omf_image::{Limits, expanded_len};
use omf_records::{Acbp, At, Blocks, Communal, CommunalSize, Extern, LayoutFault, Public, Segment};
use std::alloc::AllocError;

/// COMENT.
pub(crate) fn put_comment(
    text: &mut Vec<u8>,
    format: Format,
    type_byte: u8,
    class: u8,
    comment: &[u8],
) -> Result<(), AllocError>
    ensures { AddsText result text.old.items text.new.items (fields_text format (comment_fields type_byte class comment.now)) }
{
    put_comment_class(text, format, class)?;
    put_comment_flags(text, format, type_byte)?;
    put_class_fields(text, format, class, comment)?;
    characters(text, format, "text", comment)
}

/// The index that a SEGDEF defines, its name, class and overlay.
fn put_segment_names(
    text: &mut Vec<u8>,
    format: Format,
    tables: &Tables<'_>,
    segment: &Segment,
) -> Result<(), AllocError>
    ensures { AddsText result text.old.items text.new.items (fields_text format (segment_names tables.now (length tables.now.segments + 1) segment.now)) }
{
    number(text, format, "segment", tables.segments.len() as u64 + 1)?;
    named(text, format, "name", tables.name(segment.name.item.0))?;
    named(text, format, "class", tables.name(segment.class.item.0))?;
    named(text, format, "overlay", tables.name(segment.overlay.0))
}

/// The attributes of a SEGDEF.
fn put_attributes(text: &mut Vec<u8>, format: Format, attribute: Acbp) -> Result<(), AllocError>
    ensures { AddsText result text.old.items text.new.items (fields_text format (attribute_fields attribute)) }
{
    flags::put_attributes(text, format, attribute.byte())
}

/// The place of an absolute segment.
fn put_absolute(
    text: &mut Vec<u8>,
    format: Format,
    absolute: Option<(u16, u8)>,
) -> Result<(), AllocError>
    ensures { AddsText result text.old.items text.new.items (fields_text format (absolute_if absolute)) }
{
    let Some((frame, offset)) = absolute else {
        return Ok(());
    };
    hexadecimal(text, format, "frame", Width::Bits16, u64::from(frame))?;
    small(text, format, "offset", offset)
}

/// The length of a segment in bytes.
fn length_of(width: Width, segment: &Segment) -> u64
    ensures { result ≡ length_of width segment.now }
{
    match (segment.attribute.is_big(), width) {
        (true, Width::Bits32) => 4_294_967_296,
        (true, Width::Bits16) => 65_536,
        (false, _) => u64::from(segment.size),
    }
}

/// A length in bytes.
fn put_length(
    text: &mut Vec<u8>,
    format: Format,
    width: Width,
    length: u64,
) -> Result<(), AllocError>
    ensures { AddsText result text.old.items text.new.items (fields_text format (length_field width length)) }
{
    hexadecimal(text, format, "length", width, length)
}

/// SEGDEF.
pub(crate) fn put_segment(
    text: &mut Vec<u8>,
    format: Format,
    tables: &Tables<'_>,
    width: Width,
    segment: &Segment,
) -> Result<(), AllocError>
    ensures { AddsText result text.old.items text.new.items (fields_text format (segment_fields tables.now (length tables.now.segments + 1) width segment.now)) }
{
    put_segment_names(text, format, tables, segment)?;
    put_attributes(text, format, segment.attribute)?;
    put_absolute(text, format, segment.absolute)?;
    put_length(text, format, width, length_of(width, segment))
}

/// The index that a GRPDEF defines, and its name.
pub(crate) fn put_group(
    text: &mut Vec<u8>,
    format: Format,
    tables: &Tables<'_>,
    name: &At<Index>,
) -> Result<(), AllocError>
    ensures { AddsText result text.old.items text.new.items (fields_text format (group_fields tables.now (length tables.now.groups + 1) name.now)) }
{
    number(text, format, "group", tables.groups.len() as u64 + 1)?;
    named(text, format, "name", tables.name(name.item.0))
}

/// A member of a GRPDEF.
pub(crate) fn put_member(
    text: &mut Vec<u8>,
    format: Format,
    tables: &Tables<'_>,
    segment: &At<Index>,
) -> Result<(), AllocError>
    ensures { AddsText result text.old.items text.new.items (fields_text format (member_fields tables.now segment.now)) }
{
    named(text, format, "segment", tables.segment(segment.item.0))
}

/// A name of an LNAMES or an LLNAMES.
pub(crate) fn put_name(
    text: &mut Vec<u8>,
    format: Format,
    index: u64,
    name: &Name<'_>,
) -> Result<(), AllocError>
    ensures { AddsText result text.old.items text.new.items (fields_text format (name_fields index name.now)) }
{
    let name = Some(Name(name.0));
    named(text, format, "name", Entry { index, name })
}

/// An external name with its index and type index.
fn put_external(
    text: &mut Vec<u8>,
    format: Format,
    index: u64,
    name: &Name<'_>,
    type_index: Index,
) -> Result<(), AllocError>
    ensures { AddsText result text.old.items text.new.items (fields_text format (indexed_fields index name.now type_index)) }
{
    let name = Some(Name(name.0));
    named(text, format, "external", Entry { index, name })?;
    number(text, format, "type", u64::from(type_index.0))
}

/// An external name of an EXTDEF or a LEXTDEF.
pub(crate) fn put_extern(
    text: &mut Vec<u8>,
    format: Format,
    index: u64,
    external: &Extern<'_>,
) -> Result<(), AllocError>
    ensures { AddsText result text.old.items text.new.items (fields_text format (external_fields index external.now)) }
{
    put_external(text, format, index, &external.name, external.type_index)
}

/// The size of a communal.
fn put_size(text: &mut Vec<u8>, format: Format, size: CommunalSize) -> Result<(), AllocError>
    ensures { AddsText result text.old.items text.new.items (fields_text format (size_fields (size_seen size))) }
{
    match size {
        CommunalSize::Near(length) => {
            word(text, format, "communal", "near")?;
            hexadecimal(text, format, "length", Width::Bits16, u64::from(length))
        }
        CommunalSize::Far { count, size } => {
            word(text, format, "communal", "far")?;
            hexadecimal(text, format, "count", Width::Bits16, u64::from(count))?;
            hexadecimal(text, format, "size", Width::Bits16, u64::from(size))
        }
    }
}

/// A communal of a COMDEF or an LCOMDEF.
pub(crate) fn put_communal(
    text: &mut Vec<u8>,
    format: Format,
    index: u64,
    communal: &Communal<'_>,
) -> Result<(), AllocError>
    ensures { AddsText result text.old.items text.new.items (fields_text format (communal_fields index communal.now)) }
{
    put_external(text, format, index, &communal.name, communal.type_index)?;
    put_size(text, format, communal.size)
}

/// The base of a PUBDEF or an LPUBDEF.
pub(crate) fn put_base(
    text: &mut Vec<u8>,
    format: Format,
    group: Entry<'_>,
    segment: Entry<'_>,
    frame: Option<u16>,
) -> Result<(), AllocError>
    ensures { AddsText result text.old.items text.new.items (fields_text format (base_fields group.entry segment.entry frame)) }
{
    named(text, format, "group", group)?;
    named(text, format, "segment", segment)?;
    match frame {
        Some(frame) => hexadecimal(text, format, "frame", Width::Bits16, u64::from(frame)),
        None => Ok(()),
    }
}

/// A public name of a PUBDEF or an LPUBDEF.
pub(crate) fn put_public(
    text: &mut Vec<u8>,
    format: Format,
    width: Width,
    public: &Public<'_>,
) -> Result<(), AllocError>
    ensures { AddsText result text.old.items text.new.items (fields_text format (public_fields width public.now)) }
{
    characters(text, format, "public", public.name.0)?;
    hexadecimal(text, format, "offset", width, u64::from(public.offset))?;
    number(text, format, "type", u64::from(public.type_index.0))
}

/// The segment and the offset of an LEDATA or an LIDATA.
pub(crate) fn put_place(
    text: &mut Vec<u8>,
    format: Format,
    width: Width,
    segment: Entry<'_>,
    offset: u32,
) -> Result<(), AllocError>
    ensures { AddsText result text.old.items text.new.items (fields_text format (place_fields width segment.entry offset)) }
{
    named(text, format, "segment", segment)?;
    hexadecimal(text, format, "offset", width, u64::from(offset))
}

/// A length in bytes, if there is one.
fn put_length_if(
    text: &mut Vec<u8>,
    format: Format,
    width: Width,
    length: &Result<u32, LayoutFault>,
) -> Result<(), AllocError>
    ensures { AddsText result text.old.items text.new.items (fields_text format (length_if width length.now)) }
{
    match length {
        Ok(length) => hexadecimal(text, format, "length", width, u64::from(*length)),
        Err(_) => Ok(()),
    }
}

/// The length that the blocks of an LIDATA expand to, if it is within the limits.
pub(crate) fn put_expanded(
    text: &mut Vec<u8>,
    format: Format,
    blocks: Blocks<'_>,
) -> Result<(), AllocError>
    ensures { AddsText result text.old.items text.new.items (fields_text format (expanded_if blocks.entry.width blocks.entry.bytes.now)) }
{
    if blocks.bytes.len() > 65_534 {
        return Ok(());
    }
    let width = blocks.width;
    let length = expanded_len(blocks, Limits::profile());
    put_length_if(text, format, width, &length)
}

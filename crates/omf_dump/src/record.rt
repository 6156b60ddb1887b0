//! A record by its fields, items and bytes. What it gives later records is kept.

ghost use Rattle.std.specs.Prelude.{◌≡◌, ◌+◌, ◌++◌, ◌<◌, ◌≤◌, ◌^◌, [], IsTrue, None, OnOk, Some, length};
ghost use Rattle.omf_frame.specs.Bytes.{AddsText};
ghost use Rattle.omf_frame.specs.Framing.{is_taken};
ghost use Rattle.omf_frame.specs.Types.{width_bytes, width_of};
ghost use Rattle.omf_records.specs.Inner.Reading.{contents_or, read_body};
ghost use Rattle.omf_records.specs.Inner.Seen.{contents_seen, kind_seen};
ghost use Rattle.omf_records.specs.Values.{Communals, Externs, Group, Names, Segment as SegmentContents};
ghost use Rattle.omf_check.specs.Inner.Kept.{set_threads};
ghost use Rattle.omf_dump.specs.Blocks.{blocks_from};
ghost use Rattle.omf_dump.specs.Comments.{class_items};
ghost use Rattle.omf_dump.specs.Contents.{communal_fields, each, expanded_if, external_fields, group_fields, length_field, member_fields, name_fields, numbered, place_fields, public_fields, segment_fields};
ghost use Rattle.omf_dump.specs.Fields.{only_fields, with_block, with_items};
ghost use Rattle.omf_dump.specs.Inner.Keeping.{with_contents};
ghost use Rattle.omf_dump.specs.Inner.Showing.{Keeps, shown_by, shown_in};
ghost use Rattle.omf_dump.specs.Inner.Resolving.{start_items_by, subrecord_items_by};
ghost use Rattle.omf_dump.specs.Render.{closing, line_end, list_end, list_start, record_end, record_text, shown_text};

use crate::blocks::put_blocks;
use crate::closing::{begin_items, close_block, end_items};
use crate::contents::{put_base, put_comment, put_expanded, put_group, put_place, put_segment};
use crate::entry::Entry;
use crate::field::{characters, hexadecimal};
use crate::flags::put_end_flags;
use crate::format::Style;
use crate::item::{close_record, end_fields, open_framed};
use crate::items::{put_communals, put_externals, put_members, put_names, put_publics};
use crate::known::{Data, Known, Tables};
use crate::pairs::put_pairs;
use crate::raw::show_raw;
use crate::subrecord::{put_start, put_subrecords};
use omf_frame::{Index, Name, RawRecord, Width};
use omf_records::{
    At, Blocks, Communal, Extern, Items, Member, Public, Rec, Reference, Segment, Subrecord, view,
};
use std::alloc::AllocError;

/// Ends the fields of a comment, and shows the indices in its text, if it has some.
fn close_comment(
    text: &mut Vec<u8>,
    style: Style,
    tables: &Tables<'_>,
    class: u8,
    comment: &[u8],
) -> Result<(), AllocError>
    ensures { AddsText result text.old.items text.new.items (closing style (class_items tables.now class comment.now) None) }
{
    match class {
        0xA8 | 0xA9 => {
            begin_items(text, style)?;
            put_pairs(text, style.format, tables, comment)?;
            end_items(text, style)
        }
        _ => end_fields(text, style.format),
    }
}

/// LNAMES, LLNAMES.
fn show_names<'a>(
    text: &mut Vec<u8>,
    style: Style,
    tables: &mut Tables<'a>,
    names: Items<Name<'a>>,
) -> Result<(), AllocError>
    ensures text { AddsText result text.old.items text.new.items (shown_text style (with_items [] (numbered name_fields (length tables.old.names + 1) names.entry))) }
    ensures keeps { OnOk result (tables.new ≡ with_contents tables.old (Names names.entry)) }
{
    begin_items(text, style)?;
    put_names(text, style.format, &mut tables.names, names)?;
    end_items(text, style)
}

/// EXTDEF, LEXTDEF.
fn show_externs<'a>(
    text: &mut Vec<u8>,
    style: Style,
    tables: &mut Tables<'a>,
    externs: Items<Extern<'a>>,
) -> Result<(), AllocError>
    ensures text { AddsText result text.old.items text.new.items (shown_text style (with_items [] (numbered external_fields (length tables.old.externals + 1) externs.entry))) }
    ensures keeps { OnOk result (tables.new ≡ with_contents tables.old (Externs externs.entry)) }
{
    begin_items(text, style)?;
    put_externals(text, style.format, &mut tables.externals, externs)?;
    end_items(text, style)
}

/// COMDEF, LCOMDEF.
fn show_communals<'a>(
    text: &mut Vec<u8>,
    style: Style,
    tables: &mut Tables<'a>,
    communals: Items<Communal<'a>>,
) -> Result<(), AllocError>
    ensures text { AddsText result text.old.items text.new.items (shown_text style (with_items [] (numbered communal_fields (length tables.old.externals + 1) communals.entry))) }
    ensures keeps { OnOk result (tables.new ≡ with_contents tables.old (Communals communals.entry)) }
{
    begin_items(text, style)?;
    put_communals(text, style.format, &mut tables.externals, communals)?;
    end_items(text, style)
}

/// SEGDEF.
fn show_segment(
    text: &mut Vec<u8>,
    style: Style,
    tables: &mut Tables<'_>,
    width: Width,
    segment: &Segment,
) -> Result<(), AllocError>
    ensures text { AddsText result text.old.items text.new.items (shown_text style (only_fields (segment_fields tables.old (length tables.old.segments + 1) width segment.now))) }
    ensures keeps { OnOk result (tables.new ≡ with_contents tables.old (SegmentContents segment.now)) }
{
    put_segment(text, style.format, tables, width, segment)?;
    tables.segments.push(segment.name.item)?;
    end_fields(text, style.format)
}

/// GRPDEF.
fn show_group(
    text: &mut Vec<u8>,
    style: Style,
    tables: &mut Tables<'_>,
    name: &At<Index>,
    members: Items<Member<'_>>,
) -> Result<(), AllocError>
    ensures text { AddsText result text.old.items text.new.items (shown_text style (with_items (group_fields tables.old (length tables.old.groups + 1) name.now) (each (member_fields tables.old) members.entry))) }
    ensures keeps { OnOk result (tables.new ≡ with_contents tables.old (Group (record { name = name.now; members = members.entry }))) }
{
    put_group(text, style.format, tables, name)?;
    begin_items(text, style)?;
    put_members(text, style.format, tables, members)?;
    tables.groups.push(name.item)?;
    end_items(text, style)
}

/// The public names of a PUBDEF or an LPUBDEF, after its base.
fn show_publics(
    text: &mut Vec<u8>,
    style: Style,
    width: Width,
    publics: Items<Public<'_>>,
) -> Result<(), AllocError>
    ensures { AddsText result text.old.items text.new.items (closing style (Some (each (public_fields width) publics.entry)) None) }
{
    begin_items(text, style)?;
    put_publics(text, style.format, width, publics)?;
    end_items(text, style)
}

/// LEDATA.
fn show_plain<'a>(
    text: &mut Vec<u8>,
    style: Style,
    width: Width,
    segment: Entry<'_>,
    fixed: &Data<'a>,
) -> Result<(), AllocError>
    ensures { AddsText result text.old.items text.new.items (shown_text style (with_block (place_fields width segment.entry fixed.now.offset ++ length_field width (length fixed.now.bytes)) fixed.now.offset fixed.now.bytes)) }
{
    put_place(text, style.format, width, segment, fixed.offset)?;
    hexadecimal(
        text,
        style.format,
        "length",
        width,
        fixed.bytes.len() as u64,
    )?;
    close_block(text, style, u64::from(fixed.offset), fixed.bytes)
}

/// Ends the fields of an LIDATA, and shows its blocks, which follow the offset field.
fn show_blocks(
    text: &mut Vec<u8>,
    style: Style,
    within: u32,
    blocks: Blocks<'_>,
) -> Result<(), AllocError>
    ensures { AddsText result text.old.items text.new.items (closing style (Some (blocks_from blocks.entry.width (within + width_bytes blocks.entry.width) [] 0 blocks.entry.bytes.now)) None) }
{
    let size = blocks.width.bytes() as u64;
    begin_items(text, style)?;
    put_blocks(text, style.format, u64::from(within) + size, blocks)?;
    end_items(text, style)
}

/// LIDATA.
fn show_iterated(
    text: &mut Vec<u8>,
    style: Style,
    segment: Entry<'_>,
    offset: &At<u32>,
    blocks: Blocks<'_>,
) -> Result<(), AllocError>
    ensures { AddsText result text.old.items text.new.items (shown_text style (with_items (place_fields blocks.entry.width segment.entry offset.now.item ++ expanded_if blocks.entry.width blocks.entry.bytes.now) (blocks_from blocks.entry.width (offset.now.within + width_bytes blocks.entry.width) [] 0 blocks.entry.bytes.now))) }
{
    put_place(text, style.format, blocks.width, segment, offset.item)?;
    put_expanded(text, style.format, blocks)?;
    show_blocks(text, style, offset.within, blocks)
}

/// FIXUPP.
fn show_fixups(
    text: &mut Vec<u8>,
    style: Style,
    known: &mut Known<'_>,
    width: Width,
    subrecords: Items<Subrecord<'_>>,
) -> Result<(), AllocError>
    ensures text { AddsText result text.old.items text.new.items (shown_text style (with_items [] (subrecord_items_by known.old.tables known.old.fixed width known.old.threads subrecords.entry))) }
    ensures threads { OnOk result (known.new.threads ≡ set_threads known.old.threads subrecords.entry) }
    ensures tables { known.new.tables ≡ known.old.tables }
    ensures fixed { known.new.fixed ≡ known.old.fixed }
{
    begin_items(text, style)?;
    put_subrecords(text, style.format, known, width, subrecords)?;
    end_items(text, style)
}

/// The start of a MODEND, after its type byte.
fn show_start(
    text: &mut Vec<u8>,
    style: Style,
    known: &Known<'_>,
    width: Width,
    start: &Option<Reference>,
) -> Result<(), AllocError>
    ensures { AddsText result text.old.items text.new.items (closing style (Some (start_items_by known.now.tables width known.now.threads start.now)) None) }
{
    begin_items(text, style)?;
    put_start(text, style.format, known, width, start)?;
    end_items(text, style)
}

/// The contents of a record, 32-bit or 16-bit. Keeps what they give later records.
pub(crate) fn show_contents<'a>(
    text: &mut Vec<u8>,
    style: Style,
    known: &mut Known<'a>,
    width: Width,
    rec: &Rec<'a>,
) -> Result<(), AllocError>
    requires { width ≡ width_of (kind_seen rec.now) }
    ensures text { AddsText result text.old.items text.new.items (shown_text style (shown_in known.old width (kind_seen rec.now) (contents_seen rec.now))) }
    ensures keeps { OnOk result (Keeps known.old (contents_seen rec.now) known.new) }
{
    match rec {
        Rec::Header { name, .. } => {
            characters(text, style.format, "name", name.0)?;
            end_fields(text, style.format)
        }
        Rec::Comment {
            type_byte,
            class,
            text: comment,
        } => {
            put_comment(text, style.format, *type_byte, *class, *comment)?;
            close_comment(text, style, &known.tables, *class, *comment)
        }
        Rec::Names(names) => show_names(text, style, &mut known.tables, names.iter()),
        Rec::LocalNames(names) => show_names(text, style, &mut known.tables, names.iter()),
        Rec::Segment { segment, .. } => {
            show_segment(text, style, &mut known.tables, width, segment)
        }
        Rec::Group { name, members } => {
            show_group(text, style, &mut known.tables, name, members.iter())
        }
        Rec::Externs(externs) => show_externs(text, style, &mut known.tables, externs.iter()),
        Rec::LocalExterns { externs, .. } => {
            show_externs(text, style, &mut known.tables, externs.iter())
        }
        Rec::Communals(items) => show_communals(text, style, &mut known.tables, items.iter()),
        Rec::LocalCommunals(items) => show_communals(text, style, &mut known.tables, items.iter()),
        Rec::Publics {
            group,
            segment,
            frame,
            publics,
            ..
        }
        | Rec::LocalPublics {
            group,
            segment,
            frame,
            publics,
            ..
        } => {
            let group = known.tables.group(group.item.0);
            let segment = known.tables.segment(segment.item.0);
            put_base(text, style.format, group, segment, *frame)?;
            show_publics(text, style, width, publics.iter())
        }
        Rec::Plain {
            segment,
            offset,
            data: bytes,
            ..
        } => {
            let segment = known.tables.segment(segment.item.0);
            let fixed = Data {
                offset: offset.item,
                bytes: *bytes,
            };
            show_plain(text, style, width, segment, &fixed)?;
            known.fixed = Some(fixed);
            Ok(())
        }
        Rec::Iterated {
            segment,
            offset,
            blocks,
        } => {
            let segment = known.tables.segment(segment.item.0);
            let bytes = blocks.bytes;
            show_iterated(text, style, segment, offset, Blocks { bytes, width })?;
            known.fixed = None;
            Ok(())
        }
        Rec::Fixups { subrecords, .. } => show_fixups(text, style, known, width, subrecords.iter()),
        Rec::ModEnd {
            type_byte,
            start,
            ..
        } => {
            put_end_flags(text, style.format, *type_byte)?;
            show_start(text, style, known, width, start)
        }
        Rec::Carried { kind, contents } => show_raw(text, style, &known.tables, *kind, *contents),
    }
}

/// The contents of a record, or its fields by its bytes alone if these have a fault of layout. Keeps what they give later records.
pub(crate) fn show_body<'a>(
    text: &mut Vec<u8>,
    style: Style,
    known: &mut Known<'a>,
    raw: RawRecord<'a>,
) -> Result<(), AllocError>
    requires taken { IsTrue (is_taken raw.kind) }
    requires short { length raw.body.now ≤ 65534 }
    ensures text { AddsText result text.old.items text.new.items (shown_text style (shown_by known.old raw.entry.kind (contents_or raw.entry.body.now (read_body raw.entry.kind raw.entry.body.now)))) }
    ensures keeps { OnOk result (Keeps known.old (contents_or raw.entry.body.now (read_body raw.entry.kind raw.entry.body.now)) known.new) }
{
    match view(raw) {
        Ok(rec) => show_contents(text, style, known, Width::of(raw.kind), &rec),
        Err(_) => show_raw(text, style, &known.tables, raw.kind, raw.body),
    }
}

/// A record: its head, its checksum byte, and its contents. Keeps what it gives later records.
pub(crate) fn show_record<'a>(
    text: &mut Vec<u8>,
    style: Style,
    known: &mut Known<'a>,
    raw: RawRecord<'a>,
    checksum: u8,
) -> Result<(), AllocError>
    requires taken { IsTrue (is_taken raw.kind) }
    requires short { length raw.body.now ≤ 65534 }
    ensures text { AddsText result text.old.items text.new.items (record_text style raw.entry.number raw.entry.start raw.entry.kind checksum (shown_by known.old raw.entry.kind (contents_or raw.entry.body.now (read_body raw.entry.kind raw.entry.body.now)))) }
    ensures keeps { OnOk result (Keeps known.old (contents_or raw.entry.body.now (read_body raw.entry.kind raw.entry.body.now)) known.new) }
{
    open_framed(text, style.format, &raw, checksum)?;
    show_body(text, style, known, raw)?;
    close_record(text, style.format)
}

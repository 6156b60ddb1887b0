//! The rows that each record gives.

ghost use Rattle.std.specs.Prelude.{◌≡◌, ◌≤◌, ◌^◌, ◌++◌, IfOk, OnOk, length, map, unwrap_or};
ghost use Rattle.omf_records.specs.Inner.Sizes.{size_seen};
ghost use Rattle.omf_records.specs.Inner.Seen.{odd_if};
ghost use Rattle.omf_check.specs.Tables.{segment_length};
ghost use Rattle.omf_c.specs.Tables.{comment_row, communal_row, external_row, flag, frame_of, frame_offset_of, header_row, member_row, name_at, name_of, named_external, no_name, places_of, public_base, public_row, segment_row, sized};

use crate::rows::{
    CommentRow, ExternalRow, GroupRow, HeaderRow, MemberRow, NamePlace, PublicRow, SegmentRow, Span,
};
use crate::table::Row;
use omf_check::entry_of;
use omf_frame::{Index, Name, Place, Width, is_local};
use omf_records::{At, Communal, CommunalSize, Extern, Items, Member, Public, Rec, Segment};
use std::alloc::{AllocError, Global};

/// No name.
const NO_NAME: NamePlace = NamePlace { offset: 0, size: 0 };

/// 1 for true, 0 for false.
pub(crate) fn flag(value: bool) -> u32
    ensures { result ≡ flag value }
{
    if value { 1 } else { 0 }
}

/// Where a name is whose length byte is at an offset of the record at this place.
fn name_at(place: Place, within: u32, name: &Name<'_>) -> NamePlace
    requires { place.start ≤ 2 ^ 63 }
    ensures { result ≡ name_at place within name.now }
{
    NamePlace {
        offset: place.start + u64::from(within) + 1,
        size: name.0.len() as u64,
    }
}

/// Where the name with an index is.
fn name_of(names: &[NamePlace], index: Index) -> NamePlace
    ensures { result ≡ name_of names.now index }
{
    entry_of(names, usize::from(index.0)).unwrap_or(NO_NAME)
}

/// Appends the places of names.
fn add_names(
    rows: &mut Vec<NamePlace>,
    place: Place,
    names: Items<Name<'_>>,
) -> Result<(), AllocError>
    requires { place.start ≤ 2 ^ 63 }
    ensures { OnOk result (rows.new.items ≡ rows.old.items ++ places_of place names.entry) }
{
    for name in names {
        rows.push(name_at(place, name.within, &name.item))?;
    }
    Ok(())
}

impl Row for NamePlace {
    ghost use Rattle.omf_c.specs.Tables.{name_rows};

    ghost given = { name_rows };

    fn add(
        _alloc: Global,
        rows: &mut Vec<NamePlace>,
        _names: &[NamePlace],
        place: Place,
        rec: &Rec<'_>,
    ) -> Result<(), AllocError> {
        match rec {
            Rec::Names(items) => add_names(rows, place, items.iter()),
            Rec::LocalNames(items) => add_names(rows, place, items.iter()),
            Rec::Header { .. }
            | Rec::Comment { .. }
            | Rec::Segment { .. }
            | Rec::Group { .. }
            | Rec::Externs(_)
            | Rec::Publics { .. }
            | Rec::Communals(_)
            | Rec::Plain { .. }
            | Rec::Iterated { .. }
            | Rec::Fixups { .. }
            | Rec::ModEnd { .. }
            | Rec::LocalExterns { .. }
            | Rec::LocalPublics { .. }
            | Rec::LocalCommunals(_)
            | Rec::Carried { .. } => Ok(()),
        }
    }
}

/// The row of a THEADR or an LHEADR.
fn header_row(place: Place, kind: u8, name: &Name<'_>) -> HeaderRow
    requires { place.start ≤ 2 ^ 63 }
    ensures { result ≡ header_row place kind name.now }
{
    HeaderRow {
        name: name_at(place, 3, name),
        type_byte: u32::from(kind),
        number: place.number,
    }
}

impl Row for HeaderRow {
    ghost use Rattle.omf_c.specs.Tables.{header_rows};

    ghost given = { header_rows };

    fn add(
        _alloc: Global,
        rows: &mut Vec<HeaderRow>,
        _names: &[NamePlace],
        place: Place,
        rec: &Rec<'_>,
    ) -> Result<(), AllocError> {
        if let Rec::Header { kind, name } = rec {
            rows.push(header_row(place, *kind, name))?;
        }
        Ok(())
    }
}

/// The row of a COMENT.
fn comment_row(place: Place, flags: u8, class: u8, text: &[u8]) -> CommentRow
    requires { place.start ≤ 2 ^ 63 }
    ensures { result ≡ comment_row place flags class text.now }
{
    CommentRow {
        text: Span {
            offset: place.start + 5,
            size: text.len() as u64,
        },
        class_byte: u32::from(class),
        flags: u32::from(flags),
        number: place.number,
        unused: 0,
    }
}

impl Row for CommentRow {
    ghost use Rattle.omf_c.specs.Tables.{comment_rows};

    ghost given = { comment_rows };

    fn add(
        _alloc: Global,
        rows: &mut Vec<CommentRow>,
        _names: &[NamePlace],
        place: Place,
        rec: &Rec<'_>,
    ) -> Result<(), AllocError> {
        if let Rec::Comment {
            type_byte,
            class,
            text,
        } = rec
        {
            rows.push(comment_row(place, *type_byte, *class, text))?;
        }
        Ok(())
    }
}

/// The length of a segment in bytes.
fn segment_length(width: Width, segment: &Segment) -> u64
    ensures { result ≡ segment_length (odd_if width 0x98) segment.now }
{
    match (segment.attribute.is_big(), width) {
        (true, Width::Bits32) => 4_294_967_296,
        (true, Width::Bits16) => 65_536,
        (false, _) => u64::from(segment.size),
    }
}

/// The frame number and the offset of an absolute segment; 0 and 0 of any other.
fn absolute_of(absolute: Option<(u16, u8)>) -> (u32, u32)
    ensures frame { result.0 ≡ frame_of absolute }
    ensures offset { result.1 ≡ frame_offset_of absolute }
{
    match absolute {
        Some((frame, offset)) => (u32::from(frame), u32::from(offset)),
        None => (0, 0),
    }
}

/// The row of a SEGDEF.
fn segment_row(names: &[NamePlace], width: Width, segment: &Segment) -> SegmentRow
    ensures { result ≡ segment_row names.now (odd_if width 0x98) segment.now }
{
    let attribute = segment.attribute;
    let (frame, frame_offset) = absolute_of(segment.absolute);
    SegmentRow {
        name: name_of(names, segment.name.item),
        class_name: name_of(names, segment.class.item),
        overlay_name: name_of(names, segment.overlay),
        size: segment_length(width, segment),
        align: u32::from(attribute.byte() / 32),
        combine: u32::from(attribute.byte() / 4 % 8),
        bits: if attribute.is_use32() { 32 } else { 16 },
        is_absolute: flag(segment.absolute.is_some()),
        frame,
        frame_offset,
    }
}

impl Row for SegmentRow {
    ghost use Rattle.omf_c.specs.Tables.{segment_rows};

    ghost given = { segment_rows };

    fn add(
        _alloc: Global,
        rows: &mut Vec<SegmentRow>,
        names: &[NamePlace],
        _place: Place,
        rec: &Rec<'_>,
    ) -> Result<(), AllocError> {
        if let Rec::Segment { width, segment } = rec {
            rows.push(segment_row(names, *width, segment))?;
        }
        Ok(())
    }
}

/// The row of a member.
fn member_row(member: &At<Member<'_>>) -> MemberRow
    ensures { result ≡ member_row member.now }
{
    MemberRow {
        segment: u32::from(member.item.segment.item.0),
    }
}

/// Appends the members of a group.
fn add_members(rows: &mut Vec<MemberRow>, members: Items<Member<'_>>) -> Result<(), AllocError>
    ensures { OnOk result (rows.new.items ≡ rows.old.items ++ map member_row members.entry) }
{
    for member in members {
        rows.push(member_row(&member))?;
    }
    Ok(())
}

impl Row for MemberRow {
    ghost use Rattle.omf_c.specs.Tables.{member_rows};

    ghost given = { member_rows };

    fn add(
        _alloc: Global,
        rows: &mut Vec<MemberRow>,
        _names: &[NamePlace],
        _place: Place,
        rec: &Rec<'_>,
    ) -> Result<(), AllocError> {
        if let Rec::Group { members, .. } = rec {
            return add_members(rows, members.iter());
        }
        Ok(())
    }
}

/// The row of a GRPDEF.
fn group_row(
    alloc: Global,
    names: &[NamePlace],
    name: Index,
    members: Items<Member<'_>>,
) -> Result<GroupRow, AllocError>
    ensures { IfOk result (λ row. row ≡ record { name = name_of names.now name; members = length members.entry }) }
{
    let mut rows = Vec::new(alloc);
    add_members(&mut rows, members)?;
    Ok(GroupRow {
        name: name_of(names, name),
        members: rows.len() as u64,
    })
}

impl Row for GroupRow {
    ghost use Rattle.omf_c.specs.Tables.{group_rows};

    ghost given = { group_rows };

    fn add(
        alloc: Global,
        rows: &mut Vec<GroupRow>,
        names: &[NamePlace],
        _place: Place,
        rec: &Rec<'_>,
    ) -> Result<(), AllocError> {
        if let Rec::Group { name, members } = rec {
            rows.push(group_row(alloc, names, name.item, members.iter())?)?;
        }
        Ok(())
    }
}

/// The row of an external that is no communal, by its name.
fn named_external(local: bool, name: NamePlace, type_index: Index) -> ExternalRow
    ensures { result ≡ named_external local name type_index }
{
    ExternalRow {
        name,
        type_index: u32::from(type_index.0),
        is_local: flag(local),
        communal: 0,
        elements: 0,
        element_size: 0,
        unused: 0,
    }
}

/// The row of an external that is no communal.
fn external_row(local: bool, place: Place, external: &At<Extern<'_>>) -> ExternalRow
    requires { place.start ≤ 2 ^ 63 }
    ensures { result ≡ external_row local place external.now }
{
    let item = &external.item;
    let name = name_at(place, external.within, &item.name);
    named_external(local, name, item.type_index)
}

/// The row of a communal of a size.
fn sized(row: ExternalRow, size: CommunalSize) -> ExternalRow
    ensures { result ≡ sized row (size_seen size) }
{
    match size {
        CommunalSize::Near(element_size) => ExternalRow {
            communal: 1,
            elements: 1,
            element_size,
            ..row
        },
        CommunalSize::Far { count, size } => ExternalRow {
            communal: 2,
            elements: count,
            element_size: size,
            ..row
        },
    }
}

/// The row of a communal.
fn communal_row(local: bool, place: Place, communal: &At<Communal<'_>>) -> ExternalRow
    requires { place.start ≤ 2 ^ 63 }
    ensures { result ≡ communal_row local place communal.now }
{
    let item = &communal.item;
    let name = name_at(place, communal.within, &item.name);
    sized(named_external(local, name, item.type_index), item.size)
}

/// Appends the rows of an EXTDEF or a LEXTDEF.
fn add_externals(
    rows: &mut Vec<ExternalRow>,
    local: bool,
    place: Place,
    externals: Items<Extern<'_>>,
) -> Result<(), AllocError>
    requires { place.start ≤ 2 ^ 63 }
    ensures { OnOk result (rows.new.items ≡ rows.old.items ++ map (external_row local place) externals.entry) }
{
    for external in externals {
        rows.push(external_row(local, place, &external))?;
    }
    Ok(())
}

/// Appends the rows of a COMDEF or an LCOMDEF.
fn add_communals(
    rows: &mut Vec<ExternalRow>,
    local: bool,
    place: Place,
    communals: Items<Communal<'_>>,
) -> Result<(), AllocError>
    requires { place.start ≤ 2 ^ 63 }
    ensures { OnOk result (rows.new.items ≡ rows.old.items ++ map (communal_row local place) communals.entry) }
{
    for communal in communals {
        rows.push(communal_row(local, place, &communal))?;
    }
    Ok(())
}

impl Row for ExternalRow {
    ghost use Rattle.omf_c.specs.Tables.{external_rows};

    ghost given = { external_rows };

    fn add(
        _alloc: Global,
        rows: &mut Vec<ExternalRow>,
        _names: &[NamePlace],
        place: Place,
        rec: &Rec<'_>,
    ) -> Result<(), AllocError> {
        let local = is_local(rec.kind());
        match rec {
            Rec::Externs(items) => add_externals(rows, local, place, items.iter()),
            Rec::LocalExterns { externs, .. } => add_externals(rows, local, place, externs.iter()),
            Rec::Communals(items) => add_communals(rows, local, place, items.iter()),
            Rec::LocalCommunals(items) => add_communals(rows, local, place, items.iter()),
            Rec::Header { .. }
            | Rec::Comment { .. }
            | Rec::Names(_)
            | Rec::Segment { .. }
            | Rec::Group { .. }
            | Rec::Publics { .. }
            | Rec::Plain { .. }
            | Rec::Iterated { .. }
            | Rec::Fixups { .. }
            | Rec::ModEnd { .. }
            | Rec::LocalNames(_)
            | Rec::LocalPublics { .. }
            | Rec::Carried { .. } => Ok(()),
        }
    }
}

/// What a PUBDEF or an LPUBDEF gives all its names.
fn public_base(local: bool, group: Index, segment: Index, frame: Option<u16>) -> PublicRow
    ensures { result ≡ record { name = no_name; offset = 0; segment = segment; group = group; frame = unwrap_or frame 0; type_index = 0; is_local = flag local } }
{
    PublicRow {
        name: NO_NAME,
        offset: 0,
        segment: u32::from(segment.0),
        group: u32::from(group.0),
        frame: u32::from(frame.unwrap_or(0)),
        type_index: 0,
        is_local: flag(local),
    }
}

/// The row of a public name.
fn public_row(base: PublicRow, place: Place, public: &At<Public<'_>>) -> PublicRow
    requires { place.start ≤ 2 ^ 63 }
    ensures { result ≡ public_row base place public.now }
{
    PublicRow {
        name: name_at(place, public.within, &public.item.name),
        offset: public.item.offset,
        type_index: u32::from(public.item.type_index.0),
        ..base
    }
}

/// Appends the public names of a record.
fn add_publics(
    rows: &mut Vec<PublicRow>,
    base: PublicRow,
    place: Place,
    publics: Items<Public<'_>>,
) -> Result<(), AllocError>
    requires { place.start ≤ 2 ^ 63 }
    ensures { OnOk result (rows.new.items ≡ rows.old.items ++ map (public_row base place) publics.entry) }
{
    for public in publics {
        rows.push(public_row(base, place, &public))?;
    }
    Ok(())
}

impl Row for PublicRow {
    ghost use Rattle.omf_c.specs.Tables.{public_rows};

    ghost given = { public_rows };

    fn add(
        _alloc: Global,
        rows: &mut Vec<PublicRow>,
        _names: &[NamePlace],
        place: Place,
        rec: &Rec<'_>,
    ) -> Result<(), AllocError> {
        let local = is_local(rec.kind());
        match rec {
            Rec::Publics {
                group,
                segment,
                frame,
                publics,
                ..
            } => {
                let base = public_base(local, group.item, segment.item, *frame);
                add_publics(rows, base, place, publics.iter())
            }
            Rec::LocalPublics {
                group,
                segment,
                frame,
                publics,
                ..
            } => {
                let base = public_base(local, group.item, segment.item, *frame);
                add_publics(rows, base, place, publics.iter())
            }
            Rec::Header { .. }
            | Rec::Comment { .. }
            | Rec::Names(_)
            | Rec::Segment { .. }
            | Rec::Group { .. }
            | Rec::Externs(_)
            | Rec::Communals(_)
            | Rec::Plain { .. }
            | Rec::Iterated { .. }
            | Rec::Fixups { .. }
            | Rec::ModEnd { .. }
            | Rec::LocalNames(_)
            | Rec::LocalExterns { .. }
            | Rec::LocalCommunals(_)
            | Rec::Carried { .. } => Ok(()),
        }
    }
}

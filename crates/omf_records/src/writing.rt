//! Writing the contents of typed records in their shortest encoding.
ghost use Rattle.std.specs.Prelude.{◌≡◌, ◌<◌, ◌+◌, ◌++◌, ◌∷◌, [], OnOk, OnErr, flat_map, length, vec_len, vec_capacity};
ghost use Rattle.byteorder.specs.Endian.{little_bytes};
ghost use Rattle.omf_frame.specs.Fields.{index_bytes};
ghost use Rattle.omf_records.specs.Inner.Names.{absolute_bytes};
ghost use Rattle.omf_records.specs.Shortest.{public_bytes};
ghost use Rattle.omf_records.specs.Shortest.{member_bytes};
ghost use Rattle.omf_records.specs.Inner.Begins.{Grows, Lacks};
ghost use Rattle.omf_records.specs.Inner.Seen.{contents_seen, kind_seen};
ghost use Rattle.omf_records.specs.Shortest.{contents_bytes, segment_bytes, reference_bytes, datum_bytes, option_bytes};
ghost use Rattle.omf_records.specs.Values.{width};

use crate::at::At;
use crate::entry::{Member, Public};
use crate::fixup::put_reference;
use crate::item::{Items, put_items};
use crate::put::{put_byte, put_bytes, put_datum, put_field, put_number};
use crate::record::{Rec, Segment};
use crate::subrecord::Reference;
use omf_frame::{Index, Le16};
use std::alloc::AllocError;

/// Appends the frame number and offset of an absolute segment.
#[tactic(auto, using(crate::specs::Inner::Begins::grows_then, crate::specs::Inner::Begins::begins_itself, crate::specs::Inner::Begins::lacks_then, crate::specs::Inner::Begins::lacks_front))]
fn put_absolute(out: &mut Vec<u8>, absolute: Option<(u16, u8)>) -> Result<(), AllocError>
    ensures put { OnOk result (out.new.items ≡ out.old.items ++ option_bytes absolute_bytes absolute) }
    ensures grows { Grows out.old out.new }
    ensures full { OnErr result (Lacks out.old (option_bytes absolute_bytes absolute)) }
{
    match absolute {
        Some((frame, offset)) => {
            put_field(out, &Le16(frame))?;
            put_byte(out, offset)
        }
        None => Ok(()),
    }
}

/// Appends the three indices of a SEGDEF.
#[tactic(auto, using(crate::specs::Inner::Begins::grows_then, crate::specs::Inner::Begins::lacks_then, crate::specs::Inner::Begins::lacks_front))]
fn put_indices(out: &mut Vec<u8>, segment: &Segment) -> Result<(), AllocError>
    ensures put { OnOk result (out.new.items ≡ out.old.items ++ (datum_bytes segment.now.name ++ (datum_bytes segment.now.class ++ index_bytes segment.now.overlay))) }
    ensures grows { Grows out.old out.new }
    ensures full { OnErr result (Lacks out.old ((datum_bytes segment.now.name ++ (datum_bytes segment.now.class ++ index_bytes segment.now.overlay)))) }
{
    put_datum(out, &segment.name)?;
    put_datum(out, &segment.class)?;
    put_field(out, &segment.overlay)
}

/// Appends the length of a SEGDEF and its indices.
#[tactic(auto, using(crate::specs::Inner::Begins::grows_then, crate::specs::Inner::Begins::lacks_then, crate::specs::Inner::Begins::lacks_front))]
fn put_size(out: &mut Vec<u8>, kind: u8, segment: &Segment) -> Result<(), AllocError>
    ensures put { OnOk result (out.new.items ≡ out.old.items ++ (little_bytes (width kind) segment.now.size ++ (datum_bytes segment.now.name ++ (datum_bytes segment.now.class ++ index_bytes segment.now.overlay)))) }
    ensures grows { Grows out.old out.new }
    ensures full { OnErr result (Lacks out.old ((little_bytes (width kind) segment.now.size ++ (datum_bytes segment.now.name ++ (datum_bytes segment.now.class ++ index_bytes segment.now.overlay))))) }
{
    put_number(out, kind, segment.size)?;
    put_indices(out, segment)
}

#[tactic(auto, using(crate::specs::Inner::Begins::grows_then, crate::specs::Inner::Begins::lacks_then, crate::specs::Inner::Begins::lacks_front))]
fn put_segment(out: &mut Vec<u8>, kind: u8, segment: &Segment) -> Result<(), AllocError>
    ensures put { OnOk result (out.new.items ≡ out.old.items ++ segment_bytes kind segment.now) }
    ensures grows { Grows out.old out.new }
    ensures full { OnErr result (Lacks out.old (segment_bytes kind segment.now)) }
{
    put_byte(out, segment.attribute.byte())?;
    put_absolute(out, segment.absolute)?;
    put_size(out, kind, segment)
}

/// Appends the base frame's number of a PUBDEF, if there is one.
#[tactic(auto, using(crate::specs::Inner::Begins::begins_itself))]
fn put_frame(out: &mut Vec<u8>, frame: Option<u16>) -> Result<(), AllocError>
    ensures put { OnOk result (out.new.items ≡ out.old.items ++ option_bytes (little_bytes 2) frame) }
    ensures grows { Grows out.old out.new }
    ensures full { OnErr result (Lacks out.old (option_bytes (little_bytes 2) frame)) }
{
    match frame {
        Some(frame) => put_field(out, &Le16(frame)),
        None => Ok(()),
    }
}

/// Appends a segment index, an offset, and data or blocks.
#[tactic(auto, using(crate::specs::Inner::Begins::grows_then, crate::specs::Inner::Begins::lacks_then, crate::specs::Inner::Begins::lacks_front))]
fn put_data(
    out: &mut Vec<u8>,
    kind: u8,
    segment: &At<Index>,
    offset: &At<u32>,
    bytes: &[u8],
) -> Result<(), AllocError>
    ensures put { OnOk result (out.new.items ≡ out.old.items ++ (datum_bytes segment.now ++ (little_bytes (width kind) offset.now.item ++ bytes.now))) }
    ensures grows { Grows out.old out.new }
    ensures full { OnErr result (Lacks out.old ((datum_bytes segment.now ++ (little_bytes (width kind) offset.now.item ++ bytes.now)))) }
{
    put_datum(out, segment)?;
    put_number(out, kind, offset.item)?;
    put_bytes(out, bytes)
}

/// Appends the type byte of a MODEND, and its start address if there is one.
#[tactic(auto, using(crate::specs::Inner::Begins::grows_then, crate::specs::Inner::Begins::lacks_then, crate::specs::Inner::Begins::lacks_front, crate::specs::Inner::Begins::lacks_reference))]
fn put_end(
    out: &mut Vec<u8>,
    kind: u8,
    type_byte: u8,
    start: &Option<Reference>,
) -> Result<(), AllocError>
    ensures put { OnOk result (out.new.items ≡ out.old.items ++ type_byte ∷ option_bytes (reference_bytes kind) start.now) }
    ensures grows { Grows out.old out.new }
    ensures full { OnErr result (Lacks out.old (type_byte ∷ option_bytes (reference_bytes kind) start.now)) }
{
    put_byte(out, type_byte)?;
    match start {
        Some(reference) => put_reference(out, kind, reference),
        None => Ok(()),
    }
}

/// Appends the type byte, class byte and text of a COMENT.
#[tactic(auto, using(crate::specs::Inner::Begins::grows_then, crate::specs::Inner::Begins::lacks_then, crate::specs::Inner::Begins::lacks_front))]
fn put_comment(out: &mut Vec<u8>, type_byte: u8, class: u8, text: &[u8]) -> Result<(), AllocError>
    ensures put { OnOk result (out.new.items ≡ out.old.items ++ type_byte ∷ class ∷ text.now) }
    ensures grows { Grows out.old out.new }
    ensures full { OnErr result (Lacks out.old (type_byte ∷ class ∷ text.now)) }
{
    put_bytes(out, &[type_byte, class])?;
    put_bytes(out, text)
}

/// Appends the base frame's number of a PUBDEF, if there is one, and its public names.
#[tactic(auto, using(crate::specs::Inner::Begins::grows_then, crate::specs::Inner::Begins::lacks_then, crate::specs::Inner::Begins::lacks_front))]
fn put_names<'a>(
    out: &mut Vec<u8>,
    kind: u8,
    frame: Option<u16>,
    publics: Items<Public<'a>>,
) -> Result<(), AllocError>
    ensures put { OnOk result (out.new.items ≡ out.old.items ++ (option_bytes (little_bytes 2) frame ++ flat_map (λ x. public_bytes kind x.item) publics.entry)) }
    ensures grows { Grows out.old out.new }
    ensures full { OnErr result (Lacks out.old (option_bytes (little_bytes 2) frame ++ flat_map (λ x. public_bytes kind x.item) publics.entry)) }
{
    put_frame(out, frame)?;
    put_items(out, kind, publics)
}

/// Appends the group and segment indices of a PUBDEF, its base frame, and its public names.
#[tactic(auto, using(crate::specs::Inner::Begins::grows_then, crate::specs::Inner::Begins::lacks_then, crate::specs::Inner::Begins::lacks_front))]
fn put_publics<'a>(
    out: &mut Vec<u8>,
    kind: u8,
    group: &At<Index>,
    segment: &At<Index>,
    frame: Option<u16>,
    publics: Items<Public<'a>>,
) -> Result<(), AllocError>
    ensures put { OnOk result (out.new.items ≡ out.old.items ++ (datum_bytes group.now ++ (datum_bytes segment.now ++ (option_bytes (little_bytes 2) frame ++ flat_map (λ x. public_bytes kind x.item) publics.entry)))) }
    ensures grows { Grows out.old out.new }
    ensures full { OnErr result (Lacks out.old ((datum_bytes group.now ++ (datum_bytes segment.now ++ (option_bytes (little_bytes 2) frame ++ flat_map (λ x. public_bytes kind x.item) publics.entry))))) }
{
    put_datum(out, group)?;
    put_datum(out, segment)?;
    put_names(out, kind, frame, publics)
}

/// Appends the name index of a GRPDEF, and its members.
#[tactic(auto, using(crate::specs::Inner::Begins::grows_then, crate::specs::Inner::Begins::lacks_then, crate::specs::Inner::Begins::lacks_front))]
fn put_group<'a>(
    out: &mut Vec<u8>,
    kind: u8,
    name: &At<Index>,
    members: Items<Member<'a>>,
) -> Result<(), AllocError>
    ensures put { OnOk result (out.new.items ≡ out.old.items ++ datum_bytes name.now ++ flat_map (λ x. member_bytes x.item) members.entry) }
    ensures grows { Grows out.old out.new }
    ensures full { OnErr result (Lacks out.old (datum_bytes name.now ++ flat_map (λ x. member_bytes x.item) members.entry)) }
{
    put_datum(out, name)?;
    put_items(out, kind, members)
}

fn put_contents(out: &mut Vec<u8>, rec: &Rec<'_>) -> Result<(), AllocError>
    ensures put { OnOk result (out.new.items ≡ out.old.items ++ contents_bytes (kind_seen rec.now) (contents_seen rec.now)) }
    ensures grows { Grows out.old out.new }
    ensures full { OnErr result (Lacks out.old (contents_bytes (kind_seen rec.now) (contents_seen rec.now))) }
{
    let kind = rec.kind();
    match rec {
        Rec::Header { name, .. } => put_field(out, name),
        Rec::Comment {
            type_byte,
            class,
            text,
        } => put_comment(out, *type_byte, *class, text),
        Rec::Names(names) | Rec::LocalNames(names) => put_items(out, kind, names.iter()),
        Rec::Segment { segment, .. } => put_segment(out, kind, segment),
        Rec::Group { name, members } => put_group(out, kind, name, members.iter()),
        Rec::Externs(externs) | Rec::LocalExterns { externs, .. } => {
            put_items(out, kind, externs.iter())
        }
        Rec::Publics {
            group,
            segment,
            frame,
            publics,
            ..
        }
        | Rec::LocalPublics {
            group,
            segment,
            frame,
            publics,
            ..
        } => put_publics(out, kind, group, segment, *frame, publics.iter()),
        Rec::Communals(communals) | Rec::LocalCommunals(communals) => put_items(
            out,
            kind,
            communals.iter(),
        ),
        Rec::Plain {
            segment,
            offset,
            data,
            ..
        } => put_data(out, kind, segment, offset, data),
        Rec::Iterated {
            segment,
            offset,
            blocks,
        } => put_data(out, kind, segment, offset, blocks.bytes),
        Rec::Fixups { subrecords, .. } => put_items(out, kind, subrecords.iter()),
        Rec::ModEnd {
            type_byte,
            start,
            ..
        } => put_end(out, kind, *type_byte, start),
        Rec::Carried { contents, .. } => put_bytes(out, contents),
    }
}

/// Appends the contents of a typed record in their shortest encoding: each index and communal length as short as possible.
/// In a 16-bit record only the low 16 bits of offsets and lengths are written. After an error `out` is unchanged.
#[tactic(auto, using(crate::specs::Inner::Begins::begins_front))]
pub fn put_rec(out: &mut Vec<u8>, rec: &Rec<'_>) -> Result<(), AllocError>
    ensures ok { OnOk result (out.new.items ≡ out.old.items ++ contents_bytes (kind_seen rec.now) (contents_seen rec.now)) }
    ensures err { OnErr result (out.new.items ≡ out.old.items) }
    // Memory is asked for only if the capacity does not hold the contents and eleven more bytes: each fixup asks for its largest size.
    ensures full { OnErr result (vec_capacity out.old < vec_len out.old + (length (contents_bytes (kind_seen rec.now) (contents_seen rec.now)) + 11)) }
{
    let len = out.len();
    match put_contents(out, rec) {
        Ok(()) => Ok(()),
        Err(error) => {
            out.truncate(len);
            Err(error)
        }
    }
}

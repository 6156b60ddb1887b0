//! The values that a BAKPAT adds (TIS OMF 1.1, "BAKPAT").

ghost use Rattle.std.specs.Prelude.{◌≡◌, ◌+◌, ◌<◌, ◌≤◌, ◌++◌, drop, length, IfOk, IfErr, OnOk, Ok, Err, None};
ghost use Rattle.omf_records.specs.Inner.Reads.{or_none};
ghost use Rattle.omf_lowering.specs.Inner.Readers.{bakpat_whole, nbkpat_whole, read_to, type_reader};
ghost use Rattle.omf_lowering.specs.Inner.State.{GivesAll, IsStop};
ghost use Rattle.omf_lowering.specs.Comdats.{backpatches_by, named_patches};
ghost use Rattle.omf_lowering.specs.Lowering.{fault_of, own_fault};
ghost use Rattle.omf_lowering.specs.Patches.{has_all, patch_at, placed, size_of};

use crate::entries::{Entry, entries};
use crate::fault::Stop;
use crate::fields::{byte_at, fault_at, number_at, placed_index_at};
use crate::instance::segment_at;
use crate::instances::Instances;
use crate::laid::Pieces;
use crate::segments::segment_fault;
use crate::tables::Tables;
use crate::values::{Backpatch, Patch, Piece};
use omf_frame::{Index, Reason};
use omf_image::Part;
use omf_records::{At, LayoutFault};
use std::alloc::Global;
use std::marker::Model;

/// The contents of a BAKPAT: the index of its segment, the type of its locations, and its backpatches.
#[derive(Drop)]
pub(crate) struct Backpatches {
    segment: At<Index>,
    part: Part,
    items: Vec<At<Backpatch>>,
}

/// The contents of an NBKPAT: the index of the name of a COMDAT, the type of its locations, and its backpatches.
#[derive(Drop)]
pub(crate) struct NamedBackpatches {
    name: At<Index>,
    part: Part,
    items: Vec<At<Backpatch>>,
}

impl Model for NamedBackpatches {
    ghost use Rattle.omf_lowering.specs.Layouts.{NamedBackpatches as NamedItems};

    ghost Value = { NamedItems };

    ghost view = { λ b. record { name = b.name; part = b.part; items = b.items.items } };
}

/// The part of the location type at a position, and the position after it.
fn type_at(body: &[u8], wide: bool, pos: usize) -> Result<(Part, usize), LayoutFault>
    requires { (pos ≤ length body.now) × (length body.now ≤ 65534) }
    ensures read { read_to body.now result ≡ (type_reader wide).read (3 + pos) (drop pos body.now) }
    ensures bound { IfOk result (λ r. (pos < r.1) × (r.1 ≤ length body.now)) }
{
    let (location, end) = byte_at(body, pos)?;
    match location {
        0 => Ok((Part::Byte, end)),
        1 => Ok((Part::Word, end)),
        2 if wide => Ok((Part::Dword, end)),
        _ => Err(fault_at(pos, Reason::LocationType)),
    }
}

impl Entry for Backpatch {
    ghost use Rattle.omf_lowering.specs.Inner.Readers.{backpatch_reader, backpatch_shrinks};

    ghost reading = { λ wide. (backpatch_reader wide).read };

    ghost shrinks = { backpatch_shrinks };

    fn read_at(body: &[u8], wide: bool, pos: usize) -> Result<(Backpatch, usize), LayoutFault> {
        let (offset, pos) = number_at(body, wide, pos)?;
        let (value, pos) = number_at(body, wide, pos)?;
        Ok((Backpatch { offset, value }, pos))
    }
}

/// The contents of a BAKPAT.
pub(crate) fn backpatches_in(alloc: Global, wide: bool, body: &[u8]) -> Result<Backpatches, Stop>
    requires { length body.now ≤ 65534 }
    ensures { GivesAll (λ b. record { segment = b.segment; part = b.part; items = b.items.items }) result ((bakpat_whole wide).read 3 body.now) }
{
    let (segment, pos) = match placed_index_at(body, 0) {
        Ok(found) => found,
        Err(fault) => return Err(Stop::At(fault)),
    };
    let (part, pos) = match type_at(body, wide, pos) {
        Ok(found) => found,
        Err(fault) => return Err(Stop::At(fault)),
    };
    let items = entries(alloc, body, wide, pos)?;
    Ok(Backpatches {
        segment,
        part,
        items,
    })
}

/// The contents of an NBKPAT.
pub(crate) fn named_in(alloc: Global, wide: bool, body: &[u8]) -> Result<NamedBackpatches, Stop>
    requires { length body.now ≤ 65534 }
    ensures { GivesAll (λ b. b) result ((nbkpat_whole wide).read 3 body.now) }
{
    let (part, pos) = match type_at(body, wide, 0) {
        Ok(found) => found,
        Err(fault) => return Err(Stop::At(fault)),
    };
    let (name, pos) = match placed_index_at(body, pos) {
        Ok(found) => found,
        Err(fault) => return Err(Stop::At(fault)),
    };
    let items = entries(alloc, body, wide, pos)?;
    Ok(NamedBackpatches { name, part, items })
}

/// The number of bytes of a location.
fn size_of(part: Part) -> usize
    ensures size { result ≡ size_of part }
    ensures some { 1 ≤ result }
    ensures small { result ≤ 4 }
{
    match part {
        Part::Byte => 1,
        Part::Word => 2,
        Part::Dword => 4,
    }
}

/// Whether data have all bytes of a location.
fn has_all(offset: u32, size: usize, piece: &Piece) -> bool
    requires { size ≤ 4 }
    ensures { result ≡ has_all offset size piece.now }
{
    let start = piece.offset as usize;
    let first = offset as usize;
    start <= first && first + size <= start.saturating_add(piece.size)
}

/// The fault of a backpatch.
fn refused(item: &At<Backpatch>, reason: Reason) -> LayoutFault
    ensures { result ≡ record { within = item.now.within; reason = reason } }
{
    LayoutFault {
        reason,
        within: item.within,
    }
}

/// A backpatch as a value to add to a record.
fn patch_at(
    pieces: &Pieces,
    segment: u16,
    part: Part,
    item: &At<Backpatch>,
) -> Result<Patch, LayoutFault>
    ensures ok { IfOk result (λ p. patch_at pieces.now segment part item.now ≡ Ok p) }
    ensures err { IfErr result (λ f. fault_of (patch_at pieces.now segment part item.now) ≡ Some f) }
{
    let size = size_of(part);
    let Backpatch { offset, value } = item.item;
    let Some(piece) = pieces.holder(segment, offset, size) else {
        return Err(refused(item, Reason::NoDataRecord));
    };
    if !piece.is_plain {
        return Err(refused(item, Reason::FixupOnIterated));
    }
    if !has_all(offset, size, &piece) {
        return Err(refused(item, Reason::OutsideRecord));
    }
    Ok(Patch {
        number: piece.number,
        at: piece.at as usize + (offset - piece.offset) as usize,
        part,
        value,
    })
}

/// Appends the values of backpatches.
fn push_patches(patches: &mut Vec<Patch>, pieces: &Pieces, given: &Backpatches) -> Result<(), Stop>
    ensures ok { OnOk result (patches.new.items ≡ patches.old.items ++ or_none (placed pieces.now (record { segment = given.now.segment; part = given.now.part; items = given.now.items.items }))) }
    ensures sound { OnOk result (fault_of (placed pieces.now (record { segment = given.now.segment; part = given.now.part; items = given.now.items.items })) ≡ None) }
    ensures err { IfErr result (λ stop. IsStop stop (fault_of (placed pieces.now (record { segment = given.now.segment; part = given.now.part; items = given.now.items.items })))) }
{
    let segment = given.segment.item.0;
    let part = given.part;
    for item in &given.items {
        match patch_at(pieces, segment, part, item) {
            Ok(patch) => patches.push(patch)?,
            Err(fault) => return Err(Stop::At(fault)),
        }
    }
    Ok(())
}

/// Appends the values of a BAKPAT, by the COMDATs and the data before it.
pub(crate) fn lower_patches(
    patches: &mut Vec<Patch>,
    pieces: &Pieces,
    tables: &Tables<'_>,
    instances: &Instances<'_>,
    given: &Backpatches,
) -> Result<(), Stop>
    ensures ok { OnOk result (patches.new.items ≡ patches.old.items ++ or_none (placed pieces.now (record { segment = given.now.segment; part = given.now.part; items = given.now.items.items }))) }
    ensures sound { OnOk result (own_fault tables.now instances.now pieces.now (record { segment = given.now.segment; part = given.now.part; items = given.now.items.items }) ≡ None) }
    ensures err { IfErr result (λ stop. IsStop stop (own_fault tables.now instances.now pieces.now (record { segment = given.now.segment; part = given.now.part; items = given.now.items.items }))) }
{
    match segment_fault(tables, instances, &given.segment) {
        Some(fault) => Err(Stop::At(fault)),
        None => push_patches(patches, pieces, given),
    }
}

/// The backpatches of an NBKPAT, as of a BAKPAT for the segment of its COMDAT.
fn backpatches_by<'a>(
    tables: &Tables<'a>,
    instances: &Instances<'a>,
    given: NamedBackpatches,
) -> Result<Backpatches, LayoutFault>
    ensures ok { IfOk result (λ b. backpatches_by tables.now instances.now given ≡ Ok (record { segment = b.segment; part = b.part; items = b.items.items })) }
    ensures err { IfErr result (λ f. backpatches_by tables.now instances.now given ≡ Err f) }
{
    let item = segment_at(tables, instances, &given.name)?;
    Ok(Backpatches {
        segment: At { within: 0, item },
        part: given.part,
        items: given.items,
    })
}

/// Appends the values of an NBKPAT, by the COMDATs and the data before it.
pub(crate) fn lower_named<'a>(
    patches: &mut Vec<Patch>,
    pieces: &Pieces,
    tables: &Tables<'a>,
    instances: &Instances<'a>,
    given: NamedBackpatches,
) -> Result<(), Stop>
    ensures ok { OnOk result (patches.new.items ≡ patches.old.items ++ or_none (named_patches tables.now instances.now pieces.now given)) }
    ensures sound { OnOk result (fault_of (named_patches tables.now instances.now pieces.now given) ≡ None) }
    ensures err { IfErr result (λ stop. IsStop stop (fault_of (named_patches tables.now instances.now pieces.now given))) }
{
    match backpatches_by(tables, instances, given) {
        Ok(given) => push_patches(patches, pieces, &given),
        Err(fault) => Err(Stop::At(fault)),
    }
}

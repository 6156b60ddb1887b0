//! The bytes that modules lay, from address 0 on.

ghost use Rattle.std.specs.Prelude.{◌≡◌, Some, ◌+◌, ◌<◌, ◌≤◌, ◌^◌, All, fold, length, max, flat_map, option_to_list, IfOk, OnOk};
ghost use Rattle.omf_check.specs.Module.{recs_of};
ghost use Rattle.omf_image.specs.Inner.Expanding.{expanded};
ghost use Rattle.omf_image.specs.Limits.{profile_limits};
ghost use Rattle.omf_image.specs.Painting.{Fits};
ghost use Rattle.omf_records.specs.Inner.Seen.{odd_if};
ghost use Rattle.omf_records.specs.Values.{width};
ghost use Rattle.omf_reloc.specs.Inner.Measuring.{CanMeasure, measured};
ghost use Rattle.omf_reloc.specs.Inner.PieceSeen.{piece_seen};
ghost use Rattle.omf_reloc.specs.Inner.Walking.{Expands};
ghost use Rattle.omf_reloc.specs.Inner.Widths.{fixupp_type};
ghost use Rattle.omf_output.specs.Inner.Laying.{CanEnd, CanLay, DataFit, EndsIn, FixupFits, address_at, end_of, fixed_at, laid_by, overlaid, record_ends, source_after, source_in, with_data};
ghost use Rattle.omf_check.specs.Sound.{ModuleHolds};
ghost use Rattle.omf_output.specs.Exe.Based.{Holds};
ghost use Rattle.omf_output.specs.Exe.Members.{all_moving};
ghost use Rattle.omf_output.specs.Exe.Memory.{all_chunks, chunks, data_end, flat, put, segment_address};
ghost use Rattle.omf_output.specs.Exe.Moved.{Movers};

use crate::exe::member::Member;
use omf_check::{Checked, Data, Undecoded};
use omf_frame::{Index, Width};
use omf_image::{Extent, Limits, expand};
use omf_placement::Placement;
use omf_records::{At, Blocks};
use omf_reloc::{Piece, PlainFixup, measure, outcome, pieces_of};
use std::alloc::{AllocError, Global};

/// The address of a segment; 0 if the placement has no entry for it.
pub(crate) fn segment_address(placement: &Placement, segment: u16) -> usize
    ensures value { result ≡ segment_address placement.now segment }
    ensures low { result < 2 ^ 32 }
{
    match placement.segment(usize::from(segment)) {
        Some(place) => place.address as usize,
        None => 0,
    }
}

/// The address of a data record.
fn address_at(placement: &Placement, segment: &At<Index>, offset: &At<u32>) -> usize
    ensures { result ≡ address_at placement.now segment.now.item offset.now.item }
{
    segment_address(placement, segment.item.0) + offset.item as usize
}

/// The extent of a record's data; `None` if it has none. No record without data is decoded.
pub(crate) fn extent_of(rec: &Undecoded<'_>) -> Option<Extent>
    requires { CanMeasure rec.now }
    ensures { option_to_list result ≡ measured rec.now }
{
    match rec.as_data() {
        Some(_) => measure(&rec.decoded()),
        None => None,
    }
}

/// The expanded bytes of an LIDATA's blocks.
fn expanded(alloc: Global, blocks: Blocks<'_>) -> Result<Vec<u8>, AllocError>
    requires { Expands (odd_if blocks.width 0xA2) blocks.bytes.now }
    ensures { IfOk result (λ v. v.items ≡ expanded (width (odd_if blocks.entry.width 0xA2)) profile_limits blocks.entry.bytes.now) }
{
    let (bytes, _moved) = expand(alloc, blocks, Limits::profile())?;
    Ok(bytes)
}

/// Puts bytes in place of those from an index on.
fn overlay(image: &mut [u8], at: usize, bytes: &[u8])
    requires { at + length bytes.now ≤ length image.old }
    ensures { image.new ≡ overlaid at bytes.now image.old }
{
    image[at..at + bytes.len()].copy_from_slice(bytes);
}

/// Puts bytes at an address, if there are any; without any the address need not be in the image.
#[tactic(auto, using(crate::proofs::FilledLaws::nothing_overlaid))]
fn put(image: &mut [u8], at: usize, bytes: &[u8])
    requires { 0 < length bytes.now → at + length bytes.now ≤ length image.old }
    ensures { image.new ≡ overlaid at bytes.now image.old }
{
    if bytes.len() > 0 {
        overlay(image, at, bytes);
    }
}

/// The segment of an LEDATA and the offset of its first byte there.
type Source = (u16, u32);

/// Puts the data of a record at their address. No record without data is decoded. `last` is the last data record before it, if it is an
/// LEDATA; returns the last up to and including it.
fn put_data(
    alloc: Global,
    image: &mut [u8],
    placement: &Placement,
    last: Option<Source>,
    rec: &Undecoded<'_>,
) -> Result<Option<Source>, AllocError>
    requires { DataFit placement.now (length image.old) rec.now.kind rec.now.contents }
    ensures image { OnOk result (image.new ≡ with_data placement.now rec.now.kind rec.now.contents image.old) }
    ensures last { IfOk result (λ s. s ≡ source_in rec.now.contents last) }
{
    let Some(data) = rec.as_data() else {
        return Ok(last);
    };
    match &data {
        Data::Plain {
            segment,
            offset,
            bytes,
            ..
        } => {
            put(image, address_at(placement, segment, offset), bytes);
            Ok(Some((segment.item.0, offset.item)))
        }
        Data::Iterated {
            segment,
            offset,
            blocks,
        } => {
            let bytes = expanded(alloc, *blocks)?;
            put(image, address_at(placement, segment, offset), &bytes);
            Ok(None)
        }
    }
}

/// Applies a fixup where its data are. One that does not reach changes nothing.
fn fix(image: &mut [u8], placement: &Placement, source: Source, width: Width, fixup: &PlainFixup)
    requires { FixupFits placement.now (length image.old) (Some source) (fixupp_type width, fixup.now) }
    ensures { image.new ≡ fixed_at placement.now source image.old (fixupp_type width, fixup.now) }
{
    let (segment, offset) = source;
    if let Ok(additions) = outcome(placement, segment, offset, width, fixup) {
        let at = segment_address(placement, segment) + offset as usize;
        additions.add_to(image, at + usize::from(fixup.location.offset()));
    }
}

/// Takes a piece: puts its data, or applies its fixup. `last` is the last data record before it; returns the last up to and including it.
fn take(
    alloc: Global,
    image: &mut [u8],
    placement: &Placement,
    last: Option<Source>,
    piece: &Piece<'_>,
) -> Result<Option<Source>, AllocError>
    requires { CanLay placement.now (length image.old) last (piece_seen piece.now) }
    ensures image { OnOk result (image.new ≡ laid_by placement.now last (piece_seen piece.now) image.old) }
    ensures last { IfOk result (λ s. s ≡ source_after (piece_seen piece.now) last) }
{
    match piece {
        Piece::Kept(rec) => put_data(alloc, image, placement, last, rec),
        Piece::Fixed { width, fixup } => {
            if let Some(source) = last {
                fix(image, placement, source, *width, fixup);
            }
            Ok(last)
        }
        Piece::End { .. } => Ok(last),
    }
}

/// Lays a module: puts its data at their addresses, in file order, and applies their fixups there.
fn lay_module(
    alloc: Global,
    image: &mut [u8],
    module: &Checked,
    placement: &Placement,
) -> Result<(), AllocError>
    requires { All (λ x. x ≤ length image.old) (flat_map (record_ends placement.now) (recs_of «module».now.bytes)) }
    ensures { OnOk result ((mv : Movers) → image.new ≡ fold (put 0) image.old (chunks mv placement.now (recs_of «module».now.bytes))) }
{
    let mut last = None;
    for (_place, piece) in pieces_of(module) {
        last = take(alloc, image, placement, last, &piece)?;
    }
    Ok(())
}

/// Lays a module of a program.
fn lay_member(alloc: Global, image: &mut [u8], member: &Member<'_>) -> Result<(), AllocError>
    requires { EndsIn (length image.old) member.now }
    ensures { OnOk result (image.new ≡ fold (put 0) image.old (chunks member.now.movers member.now.places (recs_of member.now.bytes))) }
{
    lay_module(alloc, image, member.module, member.placement)?;
    Ok(())
}

/// Lays all modules, one after the other.
fn lay_all(alloc: Global, image: &mut [u8], members: &[Member<'_>]) -> Result<(), AllocError>
    requires { All (EndsIn (length image.old)) members.now }
    ensures { OnOk result (image.new ≡ fold (put 0) image.old (all_chunks (all_moving members.now))) }
{
    for member in members {
        lay_member(alloc, image, member)?;
    }
    Ok(())
}

/// The first address after an extent; 0 if it has no bytes.
#[tactic(auto, using(crate::proofs::FilledLaws::end_there, crate::proofs::FilledLaws::no_end))]
fn extent_end(placement: &Placement, extent: Extent) -> usize
    requires { Fits extent }
    ensures { result ≡ fold max 0 (end_of placement.now extent) }
{
    if extent.len > 0 {
        let first = segment_address(placement, extent.segment) + extent.first as usize;
        first + extent.len as usize
    } else {
        0
    }
}

/// The first address after the bytes of a record; 0 if it has none. No record without data is decoded.
#[tactic(auto, using(crate::proofs::FilledLaws::fits_one, crate::proofs::FilledLaws::one_end, crate::proofs::FilledLaws::none_end))]
fn record_end(placement: &Placement, rec: &Undecoded<'_>) -> usize
    requires { CanEnd rec.now }
    ensures { result ≡ fold max 0 (record_ends placement.now rec.now) }
{
    match extent_of(rec) {
        Some(extent) => extent_end(placement, extent),
        None => 0,
    }
}

/// The first address after the data of a module, and of those before it.
fn with_end(before: usize, module: &Checked, placement: &Placement) -> usize
    ensures end { result ≡ fold max before (flat_map (record_ends placement.now) (recs_of «module».now.bytes)) }
    ensures holds { ModuleHolds profile_limits (recs_of «module».now.bytes) }
{
    let mut end = before;
    for (_place, rec) in module.undecoded() {
        end = end.max(record_end(placement, &rec));
    }
    end
}

/// The same for a module of a program.
fn with_member(before: usize, member: &Member<'_>) -> usize
    ensures end { result ≡ fold max before (flat_map (record_ends member.now.places) (recs_of member.now.bytes)) }
    ensures holds { Holds member.now }
{
    with_end(before, member.module, member.placement)
}

/// The first address after the data of all modules.
pub(crate) fn data_end(members: &[Member<'_>]) -> usize
    ensures end { result ≡ data_end (all_chunks (all_moving members.now)) }
    ensures hold { All Holds members.now }
{
    let mut end = 0;
    for member in members {
        end = with_member(end, member);
    }
    end
}

/// The bytes from address 0 up to an address where the data of all modules end: where no data record has one, 0.
pub(crate) fn image_of(
    alloc: Global,
    members: &[Member<'_>],
    end: usize,
) -> Result<Vec<u8>, AllocError>
    requires end { end ≡ data_end (all_chunks (all_moving members.now)) }
    requires hold { All Holds members.now }
    ensures { IfOk result (λ v. v.items ≡ flat 0 end (all_chunks (all_moving members.now))) }
{
    let mut image = Vec::new(alloc);
    image.resize(end, 0)?;
    lay_all(alloc, &mut image, members)?;
    Ok(image)
}

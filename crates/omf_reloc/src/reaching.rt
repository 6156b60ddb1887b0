//! Whether a placement reaches: it fits the module, and every fixup and the start reach.

ghost use Rattle.std.specs.Prelude.{◌≡◌, ◌≤◌, slice_get, None};
ghost use Rattle.std.specs.Result.{result_err};
ghost use Rattle.omf_check.specs.Inner.Contents.{data_seen};
ghost use Rattle.omf_check.specs.Module.{recs_of};
ghost use Rattle.omf_check.specs.Tables.{segments};
ghost use Rattle.omf_placement.specs.Placement.{absolute_place};
ghost use Rattle.omf_reloc.specs.Inner.Names.{extra, missing, given, lies_at};
ghost use Rattle.omf_reloc.specs.Inner.PieceSeen.{piece_seen};
ghost use Rattle.omf_reloc.specs.Reach.{entries, misplaced, misfits, far_faults, reach_fault};
ghost use Rattle.omf_reloc.specs.Inner.ReachSteps.{miscounts, misplaced_from, data_place, place_after, piece_cause};

use crate::fault::{Cause, Kind, ReachFault, too_far};
use crate::offset::{outcome, start_outcome};
use crate::pieces::{Piece, pieces_of};
use omf_check::{Checked, Data, Undecoded};
use omf_placement::{Placed, Placement};

/// The number of entries in a module's table of this kind.
fn entries(module: &Checked, kind: Kind) -> u16
    ensures value { result ≡ entries (recs_of «module».now.bytes) kind }
    ensures bound { result ≤ 32767 }
{
    match kind {
        Kind::Segment => module.segments(),
        Kind::Group => module.groups(),
        Kind::External => module.externals(),
    }
}

/// The number of a placement's entries of this kind.
fn given(placement: &Placement, kind: Kind) -> usize
    ensures { result ≡ given placement.now kind }
{
    match kind {
        Kind::Segment => placement.segment_count(),
        Kind::Group => placement.group_count(),
        Kind::External => placement.external_count(),
    }
}

/// A missing entry of this kind: the first index, from 1, of the module's table that is not in the placement.
fn missing(module: &Checked, placement: &Placement, kind: Kind) -> Option<ReachFault>
    ensures { result ≡ slice_get (missing kind (entries (recs_of «module».now.bytes) kind) (given placement.now kind)) 0 }
{
    let have = given(placement, kind);
    if have < usize::from(entries(module, kind)) {
        Some(ReachFault::Missing(kind, have as u16 + 1))
    } else {
        None
    }
}

/// An extra entry of this kind: the first index of the placement beyond the module's table.
fn extra(module: &Checked, placement: &Placement, kind: Kind) -> Option<ReachFault>
    ensures { result ≡ slice_get (extra kind (entries (recs_of «module».now.bytes) kind) (given placement.now kind)) 0 }
{
    let entries = entries(module, kind);
    if usize::from(entries) < given(placement, kind) {
        Some(ReachFault::Extra(kind, entries + 1))
    } else {
        None
    }
}

/// The first missing entry, or else the first extra one: segments first, then groups, then externals.
fn count_fault(module: &Checked, placement: &Placement) -> Option<ReachFault>
    ensures { result ≡ slice_get (miscounts placement.now (recs_of «module».now.bytes)) 0 }
{
    missing(module, placement, Kind::Segment)
        .or(missing(module, placement, Kind::Group))
        .or(missing(module, placement, Kind::External))
        .or(extra(module, placement, Kind::Segment))
        .or(extra(module, placement, Kind::Group))
        .or(extra(module, placement, Kind::External))
}

/// Whether a place, if there is one, is at the frame number and the offset of an absolute segment.
fn lies_at(place: Option<Placed>, number: u16, offset: u8) -> bool
    ensures { result ≡ lies_at place (absolute_place number offset) }
{
    let base = 16 * u32::from(number);
    match place {
        Some(place) => {
            place.address == base + u32::from(offset)
                && place.frame.base == base
                && place.frame.selector == number
        }
        None => false,
    }
}

/// The fault of an absolute segment that is not placed at its frame number and offset.
fn misplaced(placement: &Placement, index: u16, absolute: Option<(u16, u8)>) -> Option<ReachFault>
    ensures { result ≡ slice_get (misplaced placement.now index absolute) 0 }
{
    let (number, offset) = absolute?;
    if lies_at(placement.segment(usize::from(index)), number, offset) {
        return None;
    }
    Some(ReachFault::Absolute(index))
}

/// The first absolute segment that is not placed where its SEGDEF puts it.
fn absolute_fault(module: &Checked, placement: &Placement) -> Option<ReachFault>
    ensures { result ≡ slice_get (misplaced_from placement.now 1 (segments (recs_of «module».now.bytes))) 0 }
{
    for index in 1..module.segments() + 1 {
        let fault = match module.segment(index) {
            Some(info) => misplaced(placement, index, info.absolute),
            None => unreachable!(),
        };
        if fault.is_some() {
            return fault;
        }
    }
    None
}

/// The first reason why a placement does not fit a module, if it does not.
#[tactic(auto, using(crate::proofs::ReachedLaws::counts_fault, crate::proofs::ReachedLaws::absolutes_fault))]
pub(crate) fn misfit(module: &Checked, placement: &Placement) -> Option<ReachFault>
    ensures { result ≡ slice_get (misfits placement.now (recs_of «module».now.bytes)) 0 }
{
    if let Some(fault) = count_fault(module, placement) {
        return Some(fault);
    }
    absolute_fault(module, placement)
}

/// Why a piece does not reach, if it does not. `last` is the segment and the offset of the last data record before it.
fn piece_cause(placement: &Placement, last: Option<(u16, u32)>, piece: &Piece<'_>) -> Option<Cause>
    ensures { result ≡ piece_cause placement.now last (piece_seen piece.now) }
{
    match piece {
        Piece::Kept(_) => None,
        Piece::Fixed { width, fixup } => match last {
            Some((segment, offset)) => outcome(placement, segment, offset, *width, fixup).err(),
            None => None,
        },
        Piece::End {
            width,
            start: Some(reference),
            ..
        } => start_outcome(placement, *width, reference).err(),
        Piece::End { start: None, .. } => None,
    }
}

/// The segment and the offset of a data record.
fn data_place(source: &Data<'_>) -> Option<(u16, u32)>
    ensures { result ≡ data_place (data_seen source.now).contents None }
{
    match source {
        Data::Plain {
            segment,
            offset,
            ..
        } => Some((segment.item.0, offset.item)),
        Data::Iterated {
            segment,
            offset,
            ..
        } => Some((segment.item.0, offset.item)),
    }
}

/// The segment and the offset of the last data record, up to and including this record. It is decoded only if it has data.
fn place_after(rec: &Undecoded<'_>, last: Option<(u16, u32)>) -> Option<(u16, u32)>
    ensures { result ≡ data_place rec.now.contents last }
{
    match rec.as_data() {
        Some(source) => data_place(&source).or(last),
        None => last,
    }
}

/// The same, up to and including this piece.
fn data_after(piece: &Piece<'_>, last: Option<(u16, u32)>) -> Option<(u16, u32)>
    ensures { result ≡ place_after (piece_seen piece.now) last }
{
    match piece {
        Piece::Kept(rec) => place_after(rec, last),
        Piece::Fixed { .. } | Piece::End { .. } => last,
    }
}

/// The first reference of a module that does not reach, in file order.
fn far_fault(module: &Checked, placement: &Placement) -> Option<ReachFault>
    ensures { result ≡ slice_get (far_faults placement.now (recs_of «module».now.bytes)) 0 }
{
    let mut last = None;
    for (place, piece) in pieces_of(module) {
        if let Some(cause) = piece_cause(placement, last, &piece) {
            return Some(too_far(place, cause));
        }
        last = data_after(&piece, last);
    }
    None
}

/// Checks that a placement reaches: its lists are as long as the module's tables, each absolute segment is placed where its SEGDEF puts it,
/// and every fixup and the start reach (TIS OMF 1.1, "SEGDEF", "FIXUPP", "MODEND").
///
/// # Errors
///
/// The first fault: the first index without an entry, or else the first entry without an index, both in the order segments, groups,
/// externals; then the lowest absolute segment that is misplaced; then the first reference that does not reach, in file order with the
/// start last.
pub fn reach(module: &Checked, placement: &Placement) -> Result<(), ReachFault>
    ensures { result_err result ≡ reach_fault placement.now (recs_of «module».now.bytes) }
{
    if let Some(fault) = misfit(module, placement) {
        return Err(fault);
    }
    match far_fault(module, placement) {
        Some(fault) => Err(fault),
        None => Ok(()),
    }
}

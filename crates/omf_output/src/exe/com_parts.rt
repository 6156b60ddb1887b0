//! Parts of modules that no .COM program has: data below 100H, relocation words, and offsets in other frames.

ghost use Rattle.std.specs.Prelude.{◌≡◌, ◌==◌, ◌&&◌, ℕ, ◌+◌, None, All, filter_map, not, slice_get};
ghost use Rattle.omf_check.specs.Listed.{placed_from};
ghost use Rattle.omf_check.specs.Module.{records_in};
ghost use Rattle.omf_records.specs.Values.{is_segment_relative};
ghost use Rattle.omf_output.specs.Exe.Com.{counts_apart, first_fixup, first_low, fixup_fault, has_base, has_low_data, part_fault, piece_fault};
ghost use Rattle.omf_output.specs.Exe.Linked.{placed};
ghost use Rattle.omf_output.specs.Exe.Relocations.{is_base};
ghost use Rattle.omf_output.specs.Inner.Laying.{CanEnd};

use crate::exe::com_fault::ComFault;
use crate::exe::laying::{extent_of, segment_address};
use crate::exe::member::Member;
use crate::exe::moving::{is_base, site};
use crate::located::{Located, located_of};
use omf_check::{Checked, Undecoded};
use omf_frame::Place;
use omf_placement::{Frame, Placement};
use omf_reloc::{Piece, PlainFixup};

/// Whether a record has a byte of data below 100H. No record without data is decoded.
fn has_low_data(placement: &Placement, rec: &Undecoded<'_>) -> bool
    requires { CanEnd rec.now }
    ensures { result ≡ has_low_data placement.now rec.now.kind rec.now.contents }
{
    match extent_of(rec) {
        Some(extent) => {
            let first = segment_address(placement, extent.segment) + extent.first as usize;
            first < 256 && extent.len > 0
        }
        None => false,
    }
}

/// The place of a module's first data record with a byte below 100H.
fn first_low(module: &Checked, placement: &Placement) -> Option<Place>
    ensures { result ≡ first_low placement.now (placed_from 0 0 (records_in «module».now.bytes)) }
{
    for (place, rec) in module.undecoded() {
        if has_low_data(placement, &rec) {
            return Some(place);
        }
    }
    None
}

/// Whether a fixup adds an offset in a frame: it is segment-relative, and no base (TIS OMF 1.1, "FIXUPP", LOCATION).
fn has_offset(fixup: &PlainFixup) -> bool
    ensures { result ≡ (is_segment_relative fixup.now.locat && not (is_base fixup.now.locat)) }
{
    fixup.location.is_segment_relative() && !is_base(fixup.location.location_type())
}

/// Whether a frame does not begin at address 0.
fn has_base(frame: Option<Frame>) -> bool
    ensures { result ≡ has_base frame }
{
    match frame {
        Some(frame) => frame.base != 0,
        None => false,
    }
}

/// Whether a fixup of data in a segment adds an offset in a frame that moves with the program and does not begin where it does.
fn counts_apart(member: &Member<'_>, segment: u16, fixup: &PlainFixup) -> bool
    ensures { result ≡ counts_apart member.now.places member.now.movers segment fixup.now }
{
    let reference = &fixup.reference;
    has_offset(fixup)
        && member
            .movers
            .frame_moves(segment, &reference.target, &reference.frame)
        && has_base(
            member
                .placement
                .frame_by(segment, &reference.target, &reference.frame),
        )
}

/// The fault of a fixup of data in a segment, at a place.
fn fixup_fault(
    member: &Member<'_>,
    place: Place,
    segment: u16,
    fixup: &PlainFixup,
) -> Option<ComFault>
    ensures { (kind : ℕ) → result ≡ fixup_fault member.now place segment (kind, fixup.now) }
{
    let module = member.number;
    if site(member.movers, segment, fixup).is_some() {
        return Some(ComFault::Words { module, place });
    }
    if counts_apart(member, segment, fixup) {
        return Some(ComFault::Frame { module, place });
    }
    None
}

/// The fault of a piece. A fixup without data before it has none.
fn piece_fault(member: &Member<'_>, located: &Located<'_>) -> Option<ComFault>
    ensures { result ≡ piece_fault member.now located.now }
{
    match &located.piece {
        Piece::Fixed { fixup, .. } => {
            fixup_fault(member, located.place, located.segment?, fixup)
        }
        Piece::Kept(_) | Piece::End { .. } => None,
    }
}

/// The fault of a module's first fixup that has one.
fn first_fixup(member: &Member<'_>) -> Option<ComFault>
    ensures { result ≡ first_fixup member.now (placed member.now) }
{
    for located in located_of(member.module) {
        if let Some(fault) = piece_fault(member, &located) {
            return Some(fault);
        }
    }
    None
}

/// The fault of a module: data below 100H, or else that of its first fixup with one.
fn part_fault(member: &Member<'_>) -> Option<ComFault>
    ensures { result ≡ part_fault member.now }
{
    let module = member.number;
    if let Some(place) = first_low(member.module, member.placement) {
        return Some(ComFault::Low { module, place });
    }
    first_fixup(member)
}

/// The fault of the first module that has one.
pub(crate) fn first_part(members: &[Member<'_>]) -> Option<ComFault>
    ensures { result ≡ slice_get (filter_map part_fault members.now) 0 }
{
    for member in members {
        if let Some(fault) = part_fault(member) {
            return Some(fault);
        }
    }
    None
}

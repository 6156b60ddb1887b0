//! Near references into another frame.

ghost use Rattle.std.specs.Prelude.{◌≡◌, ◌==◌, ◌<◌, ◌^◌, ◌&&◌, IfOk, not, length, option_and_then, option_map, option_to_list, None};
ghost use Rattle.omf_check.specs.Listed.{placed_from};
ghost use Rattle.omf_check.specs.Module.{recs_of, records_in};
ghost use Rattle.omf_check.specs.Tables.{entry};
ghost use Rattle.omf_placement.specs.Placement.{place_of};
ghost use Rattle.omf_records.specs.Inner.Names.{location_number, self_relative_bits};
ghost use Rattle.std.specs.List.{list_any};
ghost use Rattle.omf_reloc.specs.Inner.Pieces.{placed_pieces};
ghost use Rattle.omf_reloc.specs.Inner.Widths.{fixupp_type};
ghost use Rattle.omf_output.specs.Near.{bases, first_near, first_stray, group_of, has_stray, is_near, is_within, shared_base, stray_in, strays};

mod frames;
mod owners;

use crate::located::{Located, located_of};
use crate::near::frames::GroupFrames;
use crate::near::owners::Owners;
use omf_check::Checked;
use omf_frame::{Place, Width};
use omf_placement::Placement;
use omf_records::LocationType;
use omf_reloc::{Piece, PlainFixup, is_within};
use std::alloc::{AllocError, Global};

/// A near reference into another frame: the module, from 0, and the place of its fixup.
#[derive(Clone, Copy, Debug, PartialEq, Eq)]
pub struct Stray {
    /// The module, from 0.
    pub module: u32,
    /// The place of the fixup.
    pub place: Place,
}

/// A module with the groups of its segments, at its placement, and all modules with the frames of their groups.
#[derive(Clone, Copy)]
struct Part<'p, 'a> {
    all: &'p GroupFrames<'a>,
    owners: &'p Owners<'a>,
    placement: &'p Placement,
}

/// Returns whether a self-relative offset at a location of this type has 16 bits.
fn has_16_bits(kind: LocationType) -> bool
    ensures { result ≡ (self_relative_bits (location_number kind) == 16) }
{
    match kind {
        LocationType::LowByte
        | LocationType::Offset32
        | LocationType::Pointer32
        | LocationType::LoaderOffset32 => false,
        LocationType::Offset16
        | LocationType::Base
        | LocationType::Pointer16
        | LocationType::HighByte
        | LocationType::LoaderOffset16 => true,
    }
}

/// Returns whether a fixup is self-relative and has 16 bits.
fn is_near(fixup: &PlainFixup) -> bool
    ensures { result ≡ is_near fixup.now }
{
    !fixup.location.is_segment_relative() && has_16_bits(fixup.location.location_type())
}

/// Returns whether the target of a fixup, at an address, has an offset in the frame with this base, if there is one.
fn is_in(width: Width, fixup: &PlainFixup, address: u32, base: Option<u32>) -> bool
    ensures { result ≡ list_any (is_within (fixupp_type width, fixup.now) address) (option_to_list base) }
{
    match base {
        Some(base) => is_within(address, fixup.reference.displacement, width, base),
        None => false,
    }
}

/// Returns the base of the frame of a segment.
fn own_base(part: &Part<'_, '_>, segment: u16) -> Option<u32>
    ensures { result ≡ option_map (λ p. p.frame.base) (entry part.now.placement.now.segments segment) }
{
    let place = part.placement.segment(usize::from(segment))?;
    Some(place.frame.base)
}

/// Returns the base of the frame of a segment's group.
fn group_base(part: &Part<'_, '_>, segment: u16) -> Option<u32>
    ensures { result ≡ option_map (λ f. f.base) (option_and_then (λ g. entry part.now.placement.now.groups g) (group_of (recs_of part.now.owners.now.bytes) segment)) }
{
    let group = part.owners.group_of(segment)?;
    let frame = part.placement.group(usize::from(group))?;
    Some(frame.base)
}

/// Returns the base of the frame of the first group of all modules that has a part of a segment.
fn shared_base(part: &Part<'_, '_>, segment: u16) -> Option<u32>
    ensures { result ≡ shared_base part.now.all.now (recs_of part.now.owners.now.bytes) segment }
{
    part.all.base_of(part.owners.module(), segment)
}

/// Returns whether the target of a fixup of data in a segment, at an address, is in a frame in which the code there may run.
fn is_at_home(
    part: &Part<'_, '_>,
    segment: u16,
    width: Width,
    fixup: &PlainFixup,
    address: u32,
) -> bool
    ensures { result ≡ list_any (is_within (fixupp_type width, fixup.now) address) (bases part.now.all.now (recs_of part.now.owners.now.bytes, part.now.placement.now) segment) }
{
    is_in(width, fixup, address, own_base(part, segment))
        || is_in(width, fixup, address, group_base(part, segment))
        || is_in(width, fixup, address, shared_base(part, segment))
}

/// Returns whether a fixup of data in a segment is a near reference into another frame.
fn strays(part: &Part<'_, '_>, segment: u16, width: Width, fixup: &PlainFixup) -> bool
    ensures { result ≡ strays part.now.all.now (recs_of part.now.owners.now.bytes, part.now.placement.now) segment (fixupp_type width, fixup.now) }
{
    if !is_near(fixup) {
        return false;
    }
    match part.placement.place_of(&fixup.reference.target) {
        Some(target) => !is_at_home(part, segment, width, fixup, target.address),
        None => false,
    }
}

/// Returns whether a piece has such a fixup.
fn has_stray(part: &Part<'_, '_>, located: &Located<'_>) -> bool
    ensures { result ≡ has_stray part.now.all.now (recs_of part.now.owners.now.bytes, part.now.placement.now) located.now }
{
    match (&located.piece, located.segment) {
        (Piece::Fixed { width, fixup }, Some(segment)) => strays(part, segment, *width, fixup),
        (Piece::Fixed { .. } | Piece::Kept(_) | Piece::End { .. }, _) => false,
    }
}

/// Returns the place of a module's first such fixup.
fn first_stray(part: &Part<'_, '_>) -> Option<Place>
    ensures { result ≡ first_stray part.now.all.now (recs_of part.now.owners.now.bytes, part.now.placement.now) (placed_pieces (placed_from 0 0 (records_in part.now.owners.now.bytes))) }
{
    for located in located_of(part.owners.module()) {
        if has_stray(part, &located) {
            return Some(located.place);
        }
    }
    None
}

/// Returns the first such fixup of a module with this number.
fn stray_in<'a>(
    alloc: Global,
    all: &GroupFrames<'a>,
    number: u32,
    module: &'a Checked,
    placement: &Placement,
) -> Result<Option<Stray>, AllocError>
    ensures { IfOk result (λ o. o ≡ stray_in all.now number «module».now placement.now) }
{
    let owners = Owners::of(alloc, module)?;
    let part = Part {
        all,
        owners: &owners,
        placement,
    };
    match first_stray(&part) {
        Some(place) => Ok(Some(Stray {
            module: number,
            place,
        })),
        None => Ok(None),
    }
}

/// Returns the first self-relative fixup of 16 bits, in the order of the modules and of their fixups, whose target has no 16-bit offset in a frame in which
/// the code at its location may run: the frame of the segment of its location; that of the first group of its module that has this segment; or, if others of
/// its name and class are joined with it, that of the first group of all modules that has one of them. A near call or jump there leads elsewhere.
///
/// # Errors
///
/// `AllocError` if memory runs out.
pub fn first_near(
    alloc: Global,
    modules: &[Checked],
    placements: &[Placement],
) -> Result<Option<Stray>, AllocError>
    requires few { length modules.now < 2 ^ 32 }
    requires placed { length placements.now ≡ length modules.now }
    ensures { IfOk result (λ o. o ≡ first_near modules.now placements.now) }
{
    let all = GroupFrames::of(alloc, modules, placements)?;
    for (j, module) in modules.iter().enumerate() {
        if let Some(found) = stray_in(alloc, &all, j as u32, module, &placements[j])? {
            return Ok(Some(found));
        }
    }
    Ok(None)
}

//! The offset of a reference in its frame, and whether it reaches (TIS OMF 1.1, "FIXUPP"; readings, ranges and causes are this
//! profile's rule).

ghost use Rattle.std.specs.Prelude.{◌≡◌, ◌+◌, false, filter, is_some, option_and_then, slice_get};
ghost use Rattle.omf_frame.specs.Bytes.{difference};
ghost use Rattle.omf_records.specs.Inner.Names.{location_number, offset_bits, self_relative_bits};
ghost use Rattle.omf_records.specs.Values.{is_segment_relative, location_offset};
ghost use Rattle.omf_check.specs.Tables.{entry};
ghost use Rattle.omf_reloc.specs.Offsets.{offsets, is_near, in_frame, from_location, named, additions_in, outcome_at, start_outcome, in_bits};
ghost use Rattle.omf_reloc.specs.Inner.Widths.{fixupp_type, modend_type, number_bits};

use crate::addition::Additions;
use crate::fault::Cause;
use crate::plain::{PlainFixup, PlainReference};
use omf_check::FrameMethod;
use omf_frame::Width;
use omf_placement::{Frame, Placed, Placement};
use omf_records::{Locat, LocationType};
use std::marker::Model;

/// The offsets from the unsigned and from the signed reading of a displacement, each if it is in range.
#[derive(Drop)]
struct Offsets {
    unsigned: Option<u32>,
    signed: Option<u32>,
}

impl Model for Offsets {
    ghost use Rattle.std.specs.Prelude.{List, ℕ, ◌++◌};
    ghost use Rattle.std.specs.Option.{option_to_list};

    ghost Value = { List ℕ };

    ghost view = { λ o. option_to_list o.unsigned ++ option_to_list o.signed };
}

/// The frame that a reference names, and the place of its target. `segment` is the segment of the last data record, whose frame F4 is. `None`
/// if the placement has no entry for one of them.
#[inline(always)]
fn named(placement: &Placement, segment: u16, reference: &PlainReference) -> Option<(Frame, Placed)>
    ensures { result ≡ named placement.now segment reference.now }
{
    let place = placement.place_of(&reference.target)?;
    let frame = match &reference.frame {
        // The most frequent method: the target is looked up once.
        FrameMethod::Target => place.frame,
        method => placement.frame_by(segment, &reference.target, method)?,
    };
    Some((frame, place))
}

/// The width of the offset at a location of this type.
#[inline(always)]
pub fn offset_width(kind: LocationType) -> Width
    ensures { number_bits result ≡ offset_bits (location_number kind) }
{
    match kind {
        LocationType::Offset32 | LocationType::Pointer32 | LocationType::LoaderOffset32 => {
            Width::Bits32
        }
        LocationType::LowByte
        | LocationType::Offset16
        | LocationType::Base
        | LocationType::Pointer16
        | LocationType::HighByte
        | LocationType::LoaderOffset16 => Width::Bits16,
    }
}

/// The width of the offsets of a self-relative fixup at a location of this type. A short jump is computed in 32 bits.
#[inline(always)]
pub fn reach_width(kind: LocationType) -> Width
    ensures { number_bits result ≡ self_relative_bits (location_number kind) }
{
    match kind {
        LocationType::LowByte
        | LocationType::Offset32
        | LocationType::Pointer32
        | LocationType::LoaderOffset32 => Width::Bits32,
        LocationType::Offset16
        | LocationType::Base
        | LocationType::Pointer16
        | LocationType::HighByte
        | LocationType::LoaderOffset16 => Width::Bits16,
    }
}

/// The difference `to - from`, if it is not negative and fits in this width.
#[inline(always)]
fn offset_between(from: u64, to: u64, width: Width) -> Option<u32>
    ensures { result ≡ in_bits (number_bits width) (difference to from) }
{
    let offset = to.checked_sub(from)?;
    match width {
        Width::Bits32 => u32::try_from(offset).ok(),
        Width::Bits16 => Some(u32::from(u16::try_from(offset).ok()?)),
    }
}

/// The offsets of a target at this address in a frame with this base, one for each reading of the displacement: unsigned, and, if its top bit
/// is set, signed.
#[inline(always)]
fn offsets_of(
    address: u32,
    displacement: u32,
    base: u32,
    displacement_width: Width,
    width: Width,
) -> Offsets
    ensures { result ≡ offsets (number_bits width) (number_bits displacement_width) address displacement base }
{
    let target = u64::from(address) + u64::from(displacement);
    let base = u64::from(base);
    let end = match displacement_width {
        Width::Bits32 => 1 << 32,
        Width::Bits16 => 1 << 16,
    };
    let signed = if u64::from(displacement) >= end / 2 {
        offset_between(base + end, target, width)
    } else {
        None
    };
    Offsets {
        unsigned: offset_between(base, target, width),
        signed,
    }
}

/// Whether an offset is near enough to a location. A short jump reaches from 128 bytes before the byte after its location to 127
/// bytes after that byte; the other types reach any offset.
#[inline(always)]
fn is_near(kind: LocationType, location: u32, offset: u32) -> bool
    ensures { result ≡ is_near (location_number kind) location offset }
{
    let location = u64::from(location);
    let offset = u64::from(offset);
    match kind {
        LocationType::LowByte => location < offset + 128 && offset <= location + 128,
        LocationType::Offset16
        | LocationType::Base
        | LocationType::Pointer16
        | LocationType::HighByte
        | LocationType::LoaderOffset16
        | LocationType::Offset32
        | LocationType::Pointer32
        | LocationType::LoaderOffset32 => true,
    }
}

impl Offsets {
    /// The first offset, if there is one.
    #[inline(always)]
    fn first(&self) -> Option<u32>
        ensures { result ≡ slice_get self.now 0 }
    {
        self.unsigned.or(self.signed)
    }

    /// The first offset that is near enough to a location of this type.
    #[inline(always)]
    fn first_near(&self, kind: LocationType, location: u32) -> Option<u32>
        ensures { result ≡ slice_get (filter (is_near (location_number kind) location) self.now) 0 }
    {
        match self.unsigned {
            Some(offset) if is_near(kind, location, offset) => Some(offset),
            Some(_) | None => self
                .signed
                .filter(|offset| is_near(kind, location, *offset)),
        }
    }

    /// The additions of a segment-relative fixup. A base reaches whatever its target's offset.
    #[inline(always)]
    fn in_frame(&self, kind: LocationType, selector: u16) -> Result<Additions, Cause>
        ensures { result ≡ in_frame (location_number kind) selector self.now }
    {
        let offset = match kind {
            LocationType::Base => 0,
            LocationType::LowByte
            | LocationType::Offset16
            | LocationType::Pointer16
            | LocationType::HighByte
            | LocationType::LoaderOffset16
            | LocationType::Offset32
            | LocationType::Pointer32
            | LocationType::LoaderOffset32 => self.first().ok_or(Cause::Target)?,
        };
        Ok(Additions::in_frame(kind, offset, selector))
    }

    /// The additions of a self-relative fixup. Its target is checked first, then its location, then their distance.
    #[inline(always)]
    fn from_location(&self, kind: LocationType, location: Option<u32>) -> Result<Additions, Cause>
        ensures { result ≡ from_location (location_number kind) self.now location }
    {
        if self.first().is_none() {
            return Err(Cause::Target);
        }
        let location = location.ok_or(Cause::Location)?;
        let offset = self.first_near(kind, location).ok_or(Cause::Distance)?;
        Ok(Additions::from_location(kind, offset, location))
    }
}

/// The offset of a fixup's location in a frame with this base, if it is in range. Its data record is at an offset of the segment at `here`;
/// `None` if this has no place.
#[inline(always)]
fn location_in(
    base: u32,
    here: Option<Placed>,
    offset: u32,
    location: Locat,
    width: Width,
) -> Option<u32>
    ensures { result ≡ in_bits (number_bits width) (option_and_then (λ p. difference (p.address + offset + location_offset location) base) here) }
{
    let address = u64::from(here?.address) + u64::from(offset) + u64::from(location.offset());
    offset_between(u64::from(base), address, width)
}

/// The additions of a fixup with its target at this place, in this frame, or why it does not reach. Its data record is at an offset of the
/// segment at `here`. The width is that of its FIXUPP.
#[inline(always)]
fn additions_in(
    here: Option<Placed>,
    offset: u32,
    width: Width,
    fixup: &PlainFixup,
    named: (Frame, Placed),
) -> Result<Additions, Cause>
    ensures { result ≡ additions_in here offset (fixupp_type width, fixup.now) named.0 named.1.address }
{
    let (frame, target) = named;
    let kind = fixup.location.location_type();
    let displacement = fixup.reference.displacement;
    if fixup.location.is_segment_relative() {
        let reach = offset_width(kind);
        return offsets_of(target.address, displacement, frame.base, width, reach).in_frame(
            kind,
            frame.selector,
        );
    }
    let reach = reach_width(kind);
    let location = location_in(frame.base, here, offset, fixup.location, reach);
    offsets_of(target.address, displacement, frame.base, width, reach).from_location(kind, location)
}

/// The place of the segment of a fixup's location. Only a self-relative fixup needs it; `None` for others.
#[inline(always)]
fn own_place(placement: &Placement, segment: u16, fixup: &PlainFixup) -> Option<Placed>
    ensures { is_segment_relative fixup.now.locat ≡ false → result ≡ entry placement.now.segments segment }
{
    if fixup.location.is_segment_relative() {
        None
    } else {
        placement.segment(usize::from(segment))
    }
}

/// The additions of a fixup in a data record at an offset of this segment. The width is that of its FIXUPP.
///
/// # Errors
///
/// The cause why the fixup does not reach at this placement.
#[inline(always)]
#[tactic(auto, using(crate::proofs::OffsetLaws::own_place_alone))]
pub fn outcome(
    placement: &Placement,
    segment: u16,
    offset: u32,
    width: Width,
    fixup: &PlainFixup,
) -> Result<Additions, Cause>
    ensures { result ≡ outcome_at placement.now segment offset (fixupp_type width, fixup.now) }
{
    match named(placement, segment, &fixup.reference) {
        Some(found) => {
            let here = own_place(placement, segment, fixup);
            additions_in(here, offset, width, fixup, found)
        }
        None => Err(Cause::Target),
    }
}

/// A start: the selector of its frame, and its offset.
#[derive(Drop)]
pub(crate) struct Start {
    pub(crate) selector: u16,
    pub(crate) offset: u32,
}

impl Model for Start {
    ghost use Rattle.std.specs.Prelude.{ℕ};

    ghost Value = { ℕ × ℕ };

    ghost view = { λ s. (s.selector, s.offset) };
}

/// The start that MODEND names, or why it does not reach. The width is that of the MODEND. The frame is never that of a data record.
pub(crate) fn start_outcome(
    placement: &Placement,
    width: Width,
    reference: &PlainReference,
) -> Result<Start, Cause>
    ensures { result ≡ start_outcome placement.now (modend_type width) reference.now }
{
    match named(placement, 0, reference) {
        Some((frame, target)) => {
            let offsets = offsets_of(
                target.address,
                reference.displacement,
                frame.base,
                width,
                width,
            );
            match offsets.first() {
                Some(offset) => Ok(Start {
                    selector: frame.selector,
                    offset,
                }),
                None => Err(Cause::Target),
            }
        }
        None => Err(Cause::Target),
    }
}

/// Whether a target at an address has a 16-bit offset in the frame with this base, by some reading of a displacement of this width.
pub fn is_within(address: u32, displacement: u32, width: Width, base: u32) -> bool
    ensures { result ≡ is_some (slice_get (offsets 16 (number_bits width) address displacement base) 0) }
{
    offsets_of(address, displacement, base, width, Width::Bits16)
        .first()
        .is_some()
}

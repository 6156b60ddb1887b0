//! By how much a reference does not fit its location.

use crate::spot::{Spot, spot_of};
use omf_check::Checked;
use omf_frame::{Place, Width};
use omf_placement::Placement;
use omf_reloc::{Cause, Piece, PlainFixup, PlainReference, offset_width, pieces_of, reach_width};

/// Addresses from a first to a last one.
#[derive(Clone, Copy)]
struct Addresses {
    first: u64,
    last: u64,
}

impl Addresses {
    /// How far an address is from these; 0 if it is one of them.
    fn distance(self, address: u64) -> u64 {
        if address < self.first {
            self.first.saturating_sub(address)
        } else {
            address.saturating_sub(self.last)
        }
    }

    /// These addresses, each this much higher.
    fn raised(self, by: u64) -> Addresses {
        Addresses {
            first: self.first.saturating_add(by),
            last: self.last.saturating_add(by),
        }
    }
}

/// The number of values of this width: 2^16 or 2^32.
fn values(width: Width) -> u64 {
    match width {
        Width::Bits16 => 1 << 16,
        Width::Bits32 => 1 << 32,
    }
}

/// How far a target is from these addresses, by the reading of its displacement, unsigned or signed, that is nearer. The width is the displacement's.
fn nearer(address: u32, displacement: u32, width: Width, within: Addresses) -> u64 {
    let target = u64::from(address) + u64::from(displacement);
    let unsigned = within.distance(target);
    let end = values(width);
    if u64::from(displacement) < end / 2 {
        return unsigned;
    }
    // The signed reading is lower by `end`.
    unsigned.min(within.raised(end).distance(target))
}

/// The addresses that an offset of this width reaches in a frame with this base.
fn in_frame(base: u32, width: Width) -> Addresses {
    let first = u64::from(base);
    Addresses {
        first,
        last: first.saturating_add(values(width).saturating_sub(1)),
    }
}

/// The addresses that a short jump reaches whose displacement byte is at this address: from 128 bytes before the byte after it to 127 bytes after that byte.
fn by_short_jump(at: u64) -> Addresses {
    Addresses {
        first: at.saturating_sub(127),
        last: at.saturating_add(128),
    }
}

/// The width of the offset at a fixup's location.
fn width_of(fixup: &PlainFixup) -> Width {
    let kind = fixup.location.location_type();
    if fixup.location.is_segment_relative() {
        offset_width(kind)
    } else {
        reach_width(kind)
    }
}

/// A reference: the width of its record's fields, and the width of the offset that it needs.
struct Reference<'a> {
    plain: &'a PlainReference,
    record: Width,
    offset: Width,
}

/// By how many bytes the target of a reference in a segment is outside its frame, or a short jump at a spot does not reach it.
fn miss_by(
    placement: &Placement,
    spot: Option<Spot>,
    reference: Reference<'_>,
    cause: Cause,
) -> Option<u64> {
    let Reference {
        plain,
        record,
        offset,
    } = reference;
    let segment = spot.map(|spot| spot.segment).unwrap_or(0);
    let target = placement.place_of(&plain.target)?;
    let within = match cause {
        Cause::Target => {
            let frame = placement.frame_by(segment, &plain.target, &plain.frame)?;
            in_frame(frame.base, offset)
        }
        Cause::Distance => {
            let here = placement.segment(usize::from(segment))?;
            by_short_jump(u64::from(here.address).saturating_add(spot?.offset))
        }
        Cause::Location => return None,
    };
    Some(nearer(target.address, plain.displacement, record, within))
}

/// The reference of a piece, a fixup or a start; none for any other piece.
fn reference_in<'a>(piece: &'a Piece<'_>) -> Option<Reference<'a>> {
    match piece {
        Piece::Fixed { width, fixup } => Some(Reference {
            plain: &fixup.reference,
            record: *width,
            offset: width_of(fixup),
        }),
        Piece::End {
            width,
            start: Some(plain),
            ..
        } => Some(Reference {
            plain,
            record: *width,
            offset: *width,
        }),
        Piece::End { start: None, .. } => None,
        Piece::Kept(_) => None,
    }
}

/// By how many bytes the fixup or the start at a place of a module does not fit: its target is that far outside its frame, or that much too far for a short
/// jump. None if its location is outside the frame, or if there is no such reference.
pub fn miss_of(module: &Checked, placement: &Placement, place: Place, cause: Cause) -> Option<u64> {
    let spot = spot_of(module, place);
    for (here, piece) in pieces_of(module) {
        if here.number == place.number && here.within == place.within {
            let reference = reference_in(&piece)?;
            return miss_by(placement, spot, reference, cause);
        }
    }
    None
}

//! The fixups of a module, each with the bytes that its data have at its location.

ghost use Rattle.std.specs.Prelude.{◌≡◌, IfSome, None, Some, drop, if◌then◌else◌, unwrap_or};
ghost use Rattle.omf_finding.specs.Inner.Fixing.{IsAdded, IsAddedThere, IsDistance, IsOwn, after, has_selector, little_number, location_at, modulus, offset_size};

use crate::program::{Program, little_number};
use omf_check::{Checked, Data, Undecoded};
use omf_frame::Index;
use omf_records::{Kind, LocationType};
use omf_reloc::{FrameMethod, Piece, PlainFixup, TargetMethod, pieces_of};
use std::alloc::{AllocError, Global};

/// A fixup of a data record.
#[derive(Clone, Copy, Drop)]
pub(crate) struct Fix {
    /// The segment of its data, from 1.
    pub(crate) segment: u16,
    /// The offset of its location in the segment.
    pub(crate) location: u32,
    pub(crate) kind: LocationType,
    pub(crate) is_segment_relative: bool,
    /// What its data have at the location, but for a selector.
    own: u32,
    /// What they have at the place of a selector.
    own_selector: u16,
    pub(crate) frame: FrameMethod,
    pub(crate) target: TargetMethod,
    pub(crate) displacement: u32,
    /// The number of the last public that its target may be, if it is an external.
    pub(crate) definer: Option<usize>,
}

/// The size of the part of a location that is no selector, in bytes.
fn offset_size(kind: LocationType) -> u8
    ensures { result ≡ offset_size kind }
{
    match kind {
        LocationType::LowByte | LocationType::HighByte => 1,
        LocationType::Offset16 | LocationType::LoaderOffset16 | LocationType::Pointer16 => 2,
        LocationType::Offset32 | LocationType::LoaderOffset32 | LocationType::Pointer32 => 4,
        LocationType::Base => 0,
    }
}

/// Whether a location has a selector.
fn has_selector(kind: LocationType) -> bool
    ensures { result ≡ has_selector kind }
{
    match kind {
        LocationType::Base | LocationType::Pointer16 | LocationType::Pointer32 => true,
        LocationType::LowByte
        | LocationType::HighByte
        | LocationType::Offset16
        | LocationType::LoaderOffset16
        | LocationType::Offset32
        | LocationType::LoaderOffset32 => false,
    }
}

/// The difference of two numbers, modulo 2 to the power of 8 times a size.
fn wrapped(one: u32, other: u32, size: u8) -> u32
    ensures { IsAdded (modulus size) other result one }
{
    let difference = one.wrapping_sub(other);
    match size {
        1 => difference % 0x100,
        2 => difference % 0x1_0000,
        _ => difference,
    }
}

/// The bytes past the first n.
#[tactic(auto, using(std::proofs::lemmas::List::drop_min))]
fn past(bytes: &[u8], n: usize) -> &[u8]
    ensures { result.now ≡ drop n bytes.now }
{
    bytes.split_at(n.min(bytes.len())).1
}

/// The little-endian number of 16 bits at the front; 0 if there are fewer.
fn word(bytes: &[u8]) -> u16
    ensures { result ≡ unwrap_or (little_number 2 bytes.now) 0 }
{
    match bytes {
        [a, b, ..] => u16::from_le_bytes([*a, *b]),
        _ => 0,
    }
}

impl Fix {
    /// A fixup in data of this segment, which begin at an offset.
    fn of(fixup: &PlainFixup, segment: u16, offset: u32, data: &[u8]) -> Fix
        ensures { IsOwn fixup.now data.now result }
    {
        let kind = fixup.location.location_type();
        let size = offset_size(kind);
        let own = past(data, usize::from(fixup.location.offset()));
        let high = past(own, usize::from(size));
        Fix {
            segment,
            location: offset.wrapping_add(u32::from(fixup.location.offset())),
            kind,
            is_segment_relative: fixup.location.is_segment_relative(),
            own: little_number(own, size).unwrap_or(0),
            own_selector: word(high),
            frame: fixup.reference.frame,
            target: fixup.reference.target,
            displacement: fixup.reference.displacement,
            definer: None,
        }
    }

    /// The entry whose frame it names.
    pub(crate) fn frame_entry(&self) -> TargetMethod {
        match self.frame {
            FrameMethod::Of(entry) => entry,
            FrameMethod::Location => entry_with(Kind::Segment, self.segment),
            FrameMethod::Target => self.target,
        }
    }

    /// The address of the selector at its location, where its segment is at this address; `None` if the location has none.
    pub(crate) fn selector_address(&self, segment: u32) -> Option<u32>
        ensures { result ≡ (if has_selector self.now.kind then Some (after self.now segment) else None) }
    {
        if has_selector(self.kind) {
            Some(self.after(segment))
        } else {
            None
        }
    }

    /// What it adds to the selector at its location, where its segment is at this address; `None` if the location has none, or one that the
    /// loader does not change.
    pub(crate) fn selector(&self, program: &Program, segment: u32) -> Option<u16>
        ensures { IfSome result (λ v. IsAddedThere program.now 2 (after self.now segment) self.now.own_selector v) }
    {
        let at = self.selector_address(segment)?;
        if !program.may_change(at) {
            return None;
        }
        Some(program.word(at)?.wrapping_sub(self.own_selector))
    }

    /// What it adds to the offset at its location, where its segment is at this address; `None` if the location has none, or only a half.
    pub(crate) fn offset(&self, program: &Program, segment: u32) -> Option<u32>
        ensures { IfSome result (λ v. IsAddedThere program.now (offset_size self.now.kind) (location_at self.now segment) self.now.own v) }
    {
        let size = offset_size(self.kind);
        if size == 0 || (size == 1 && self.is_segment_relative) {
            return None;
        }
        let at = segment.wrapping_add(self.location);
        Some(wrapped(program.number(at, size)?, self.own, size))
    }

    /// What it adds to a self-relative distance at its location, as a signed number of 32 bits, and the number of bytes of that; where its
    /// segment is at this address.
    pub(crate) fn distance(&self, program: &Program, segment: u32) -> Option<(u32, u8)>
        ensures { IfSome result (λ v. (v.1 ≡ offset_size self.now.kind) × IsDistance program.now v.1 (location_at self.now segment) self.now.own v.0) }
    {
        let size = offset_size(self.kind);
        let at = segment.wrapping_add(self.location);
        let distance = wrapped(program.number(at, size)?, self.own, size);
        if size == 1 && distance >= 0x80 {
            return Some((distance.wrapping_sub(0x100), size));
        }
        Some((distance, size))
    }

    /// The address after its location, where its segment is at this address.
    pub(crate) fn after(&self, segment: u32) -> u32
        ensures { result ≡ after self.now segment }
    {
        segment
            .wrapping_add(self.location)
            .wrapping_add(u32::from(offset_size(self.kind)))
    }
}

/// An entry of a kind, as a target.
pub(crate) fn entry_with(kind: Kind, index: u16) -> TargetMethod {
    TargetMethod {
        kind,
        index: Index(index & 0x7FFF),
    }
}

/// The segment, the offset and the bytes of a record, if it is an LEDATA.
fn plain_data<'a>(rec: &Undecoded<'a>) -> Option<(u16, u32, &'a [u8])> {
    let Some(data) = rec.as_data() else {
        return None;
    };
    match &data {
        Data::Plain {
            segment,
            offset,
            bytes,
            ..
        } => Some((segment.item.0, offset.item, *bytes)),
        Data::Iterated { .. } => None,
    }
}

/// The fixups of a module's LEDATA records, by segment, those of one segment in file order; without definers.
pub(crate) fn fixes_of(alloc: Global, module: &Checked) -> Result<Vec<Fix>, AllocError> {
    let mut fixes = Vec::new(alloc);
    let mut place = None;
    for (_, piece) in pieces_of(module) {
        match &piece {
            Piece::Kept(rec) => {
                if rec.as_data().is_some() {
                    place = plain_data(rec);
                }
            }
            Piece::Fixed { fixup, .. } => {
                if let Some((segment, offset, data)) = place {
                    fixes.push(Fix::of(fixup, segment, offset, data))?;
                }
            }
            Piece::End { .. } => {}
        }
    }
    fixes.sort_by_key(|fix| fix.segment)?;
    Ok(fixes)
}

//! The numbers that a fixup adds at its location (TIS OMF 1.1, "FIXUPP").

ghost use Rattle.omf_records.specs.Inner.Names.{location_number};
ghost use Rattle.std.specs.Prelude.{◌≡◌, ◌+◌, ◌≤◌, ◌<◌, ◌^◌, ◌∷◌, [], All, length};
ghost use Rattle.omf_image.specs.Inner.Names.{part_size};
ghost use Rattle.omf_image.specs.Parts.{add_part, add_parts};
ghost use Rattle.omf_reloc.specs.Inner.Names.{addition, additions};
ghost use Rattle.omf_reloc.specs.Additions.{distance, self_relative_additions};

use omf_image::{Part, add_part};
use omf_records::LocationType;
use std::marker::Model;

/// A number to add at an offset within a location, modulo 2^8, 2^16 or 2^32 by the size of its part.
#[derive(Clone, Copy, Debug)]
struct Addition {
    offset: usize,
    part: Part,
    value: u64,
}

impl Addition {
    /// Adds the number to the bytes of the location at `position`.
    #[inline(always)]
    fn add_to(self, bytes: &mut [u8], position: usize)
        requires { position + self.offset + part_size self.part ≤ length bytes.old }
        ensures { bytes.new ≡ add_part bytes.old (position + self.offset) (part_size self.part) self.value }
    {
        let value = self.value % (1 << 32);
        add_part(bytes, position + self.offset, self.part, value as u32);
    }
}

/// The one or two numbers that a fixup adds at its location (TIS OMF 1.1, "FIXUPP").
#[derive(Drop)]
pub struct Additions {
    first: Addition,
    second: Option<Addition>,
}

impl Model for Additions {
    ghost use Rattle.std.specs.Prelude.{List};
    ghost use Rattle.omf_image.specs.Parts.{Addition as AdditionModel};

    ghost Value = { List AdditionModel };

    ghost use Rattle.omf_reloc.specs.Inner.Seen.{all_added};

    ghost view = { λ a. all_added a.first a.second };
}

/// The distance from the byte after a location to an offset in the same frame, modulo 2^32. `size` is the location's size in bytes.
#[inline(always)]
fn distance(size: u8, offset: u32, location: u32) -> u32
    ensures { result ≡ distance size offset location }
{
    let after = (u64::from(location) + u64::from(size)) % (1 << 32);
    ((u64::from(offset) + (1 << 32) - after) % (1 << 32)) as u32
}

impl Additions {
    /// One number at the start of the location.
    #[inline(always)]
    fn one(part: Part, value: u64) -> Additions
        ensures { result ≡ addition 0 (part_size part) value ∷ [] }
    {
        let offset = 0;
        Additions {
            first: Addition {
                offset,
                part,
                value,
            },
            second: None,
        }
    }

    /// A pointer: an offset at the start of the location, followed by a selector.
    #[inline(always)]
    fn pointer(part: Part, value: u64, offset: usize, selector: u16) -> Additions
        ensures { result ≡ addition 0 (part_size part) value ∷ addition offset 2 selector ∷ [] }
    {
        Additions {
            first: Addition {
                offset: 0,
                part,
                value,
            },
            second: Some(Addition {
                offset,
                part: Part::Word,
                value: u64::from(selector),
            }),
        }
    }

    /// The additions of a segment-relative fixup at a location of this type.
    #[inline(always)]
    pub(crate) fn in_frame(kind: LocationType, offset: u32, selector: u16) -> Additions
        ensures { result ≡ additions (location_number kind) offset selector }
    {
        let value = u64::from(offset);
        match kind {
            LocationType::LowByte => Additions::one(Part::Byte, value % 256),
            LocationType::Offset16 | LocationType::LoaderOffset16 => {
                Additions::one(Part::Word, value)
            }
            LocationType::Base => Additions::one(Part::Word, u64::from(selector)),
            LocationType::Pointer16 => Additions::pointer(Part::Word, value, 2, selector),
            LocationType::HighByte => Additions::one(Part::Byte, value / 256),
            LocationType::Offset32 | LocationType::LoaderOffset32 => {
                Additions::one(Part::Dword, value)
            }
            LocationType::Pointer32 => Additions::pointer(Part::Dword, value, 4, selector),
        }
    }

    /// The additions of a self-relative fixup at a location of this type, from the offsets of its target and of its location.
    #[inline(always)]
    pub(crate) fn from_location(kind: LocationType, offset: u32, location: u32) -> Additions
        ensures { result ≡ self_relative_additions (location_number kind) offset location }
    {
        Additions::in_frame(kind, distance(kind.size(), offset, location), 0)
    }

    /// Adds the numbers at a position, in order. Each wraps at the size of its part and carries nothing into the next one.
    #[inline(always)]
    pub fn add_to(&self, bytes: &mut [u8], position: usize)
        requires { All (λ a. position + a.offset + a.size ≤ length bytes.old) self.now }
        ensures { bytes.new ≡ add_parts position self.now bytes.old }
    {
        self.first.add_to(bytes, position);
        if let Some(second) = self.second {
            second.add_to(bytes, position);
        }
    }
}

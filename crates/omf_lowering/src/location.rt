//! The locations of fixups (TIS OMF 1.1, "FIXUPP", LOCATION).

ghost use Rattle.std.specs.Prelude.{◌≡◌};
ghost use Rattle.std.specs.List.{list_any};
ghost use Rattle.omf_lowering.specs.Unrolled.{location_of, overlaps};

use omf_records::Locat;

/// The location of a fixup: the offset of its first byte in the data, and its size in bytes.
#[derive(Clone, Copy, Drop)]
pub(crate) struct Location {
    pub offset: u16,
    pub size: u8,
}

/// The location of a fixup with these first two bytes.
pub(crate) fn location_of(locat: Locat) -> Location
    ensures { result ≡ location_of locat }
{
    Location {
        offset: locat.offset(),
        size: locat.location_type().size(),
    }
}

/// Whether two locations have a byte in common.
fn overlaps(one: &Location, other: &Location) -> bool
    ensures { result ≡ overlaps one.now other.now }
{
    let end = usize::from(one.offset) + usize::from(one.size);
    let other_end = usize::from(other.offset) + usize::from(other.size);
    usize::from(one.offset) < other_end && usize::from(other.offset) < end
}

/// Whether a location has a byte in common with one of the others.
pub(crate) fn overlaps_one(one: &Location, others: &[Location]) -> bool
    ensures { result ≡ list_any (overlaps one.now) others.now }
{
    others.iter().any(|other| overlaps(one, other))
}

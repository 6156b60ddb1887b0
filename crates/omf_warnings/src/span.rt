//! Segments at their addresses.

ghost use Rattle.std.specs.Prelude.{◌≡◌};
ghost use Rattle.omf_warnings.specs.Overlaps.{may_share};

use omf_layout::Alignment;
use omf_linking::space::Owner;

/// With which segments a segment may share addresses.
#[derive(Clone, Copy, Debug, PartialEq, Eq)]
pub enum Sharing {
    /// With none.
    Alone,
    /// With common segments of its name and class: it is common (C = 6, TIS OMF 1.1, "SEGDEF").
    Common,
    /// With absolute segments: it is absolute (A = 0, TIS OMF 1.1, "SEGDEF").
    Absolute,
}

/// A segment of one of several modules, at its addresses.
#[derive(Clone, Copy)]
pub struct Span<'a> {
    /// Its module and its index.
    pub owner: Owner,
    /// Its name; empty if it has none.
    pub name: &'a [u8],
    /// The name of its class; empty if it has none.
    pub class: &'a [u8],
    /// With which segments it may share addresses.
    pub sharing: Sharing,
    /// Its alignment (TIS OMF 1.1, "SEGDEF", A field; 4,096 of a segment that a comment raises).
    pub alignment: Alignment,
    /// Its first address.
    pub first: u32,
    /// The address after its last one; its first one if it is empty.
    pub end: u128,
}

/// Returns whether two segments may share addresses.
pub(crate) fn may_share(one: &Span<'_>, other: &Span<'_>) -> bool
    ensures { result ≡ may_share one.now other.now }
{
    match (one.sharing, other.sharing) {
        (Sharing::Common, Sharing::Common) => one.name == other.name && one.class == other.class,
        (Sharing::Absolute, Sharing::Absolute) => true,
        _ => false,
    }
}

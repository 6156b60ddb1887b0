//! Why a placement does not reach.

ghost use Rattle.std.specs.Prelude.{◌≡◌};
ghost use Rattle.omf_reloc.specs.declared.fault.ReachFault.TheVariants.{TooFar};

use omf_frame::Place;
use std::alloc::AllocError;
use thiserror::Error;

/// The kind of a placement's entry.
#[derive(Clone, Copy, Debug, PartialEq, Eq)]
pub enum Kind {
    /// A segment of a SEGDEF.
    Segment,
    /// A group of a GRPDEF.
    Group,
    /// An external of an EXTDEF or COMDEF.
    External,
}

/// Why a fixup or the start does not reach.
#[derive(Clone, Copy, Debug, PartialEq, Eq)]
pub enum Cause {
    /// No reading of the displacement gives the target an offset in the frame that fits the location's width.
    Target,
    /// The location of a self-relative fixup is outside the offsets of the frame.
    Location,
    /// A short jump's target is more than 128 bytes before the byte after the location, or more than 127 bytes after that byte.
    Distance,
}

/// The first reason why a placement does not reach. The numbers of the reasons are 1 to 4.
///
/// Missing entries are reported before extra ones, both in the order segment, group, external; then absolute segments, then references.
#[derive(Clone, Copy, Debug, PartialEq, Eq, Error)]
pub enum ReachFault {
    /// 1: the placement has no entry for this index. It is the first such index.
    #[error("the placement has an entry too few")]
    Missing(Kind, u16),
    /// 2: the placement has an entry for this index. It is the first one beyond the module's table.
    #[error("the placement has an entry too many")]
    Extra(Kind, u16),
    /// 3: this absolute segment is not placed at its own frame number and offset. It is the first such segment.
    #[error("an absolute segment is placed elsewhere")]
    Absolute(u16),
    /// 4: this fixup does not reach. It is the first such fixup, in file order with MODEND's start last.
    #[error("a fixup or the start does not reach")]
    TooFar {
        /// The number of its record, from 0.
        number: u32,
        /// The offset in its record of the fixup's first byte, or of the fix data byte of MODEND's start. The type byte is at offset 0.
        within: u32,
        /// Why it does not reach.
        cause: Cause,
    },
}

/// Why a module has no image at a placement.
#[derive(Clone, Copy, Debug, PartialEq, Eq, Error)]
pub enum RelocateFault {
    /// 1: the placement does not reach.
    #[error("the placement does not reach")]
    Reach(ReachFault),
    /// 2: the placement reaches, but memory ran out.
    #[error("memory ran out")]
    Memory,
}

impl From<AllocError> for RelocateFault {
    ghost use Rattle.std.specs.Prelude.{◌≡◌};
    ghost use Rattle.omf_reloc.specs.declared.fault.RelocateFault.TheVariants.{Memory};

    ghost from_gives = { λ _ e. e ≡ Memory };

    fn from(_error: AllocError) -> Self {
        RelocateFault::Memory
    }
}

/// The fault of the reference at this place.
pub(crate) fn too_far(place: Place, cause: Cause) -> ReachFault
    ensures { result ≡ TooFar place.number place.within cause }
{
    ReachFault::TooFar {
        number: place.number,
        within: place.within,
        cause,
    }
}

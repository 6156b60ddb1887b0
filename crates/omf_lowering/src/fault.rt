//! Why a module is not lowered.

ghost use Rattle.std.specs.Prelude.{◌≡◌};
ghost use Rattle.omf_lowering.specs.declared.fault.LoweringFault.TheVariants.{Memory};
ghost use Rattle.omf_lowering.specs.declared.fault.Stop.TheVariants.{Memory as OutOfMemory};

use omf_frame::{Place, Reason};
use omf_records::LayoutFault;
use std::alloc::{AllocError, AllocFailed};
use thiserror::Error;

/// Why a module is not lowered.
#[derive(Clone, Copy, Debug, PartialEq, Eq, Error)]
pub enum LoweringFault {
    /// Out of memory.
    #[error("memory ran out")]
    Memory,
    /// The first record at fault has this fault at this place: of framing (NoEnd, Cut, UnknownType, EmptyRecord, Checksum), of layout (8 to 18),
    /// UndefinedName in a CEXTDEF; in a BAKPAT or an NBKPAT NoDataRecord, FixupOnIterated or OutsideRecord; in a COMDAT or an NBKPAT UnsupportedType, UndefinedName,
    /// UndefinedSegment, UndefinedGroup, OutsideSegment or TooMany; UnsupportedType of a SEGDEF after a COMDAT; UndefinedSegment where a record names a
    /// segment past the SEGDEFs, and a COMDAT precedes it or, of a THREAD, follows. If no record has one, it is that of the first fixup after an LIDATA that
    /// cannot be unrolled: OutsideRecord if no innermost block has all bytes of its location, FixupOnIterated if another fixup of the same data has one of
    /// them, TooMany if the records become more than 1,048,576.
    #[error("a record cannot be lowered")]
    Refused {
        /// Why the record is refused.
        reason: Reason,
        /// The place of the fault in the input.
        place: Place,
    },
}

impl From<AllocError> for LoweringFault {
    ghost from_gives = { λ _ e. e ≡ Memory };

    fn from(_error: AllocError) -> LoweringFault {
        LoweringFault::Memory
    }
}

/// Why work on a record stops: memory ran out, or the record has a fault.
#[derive(Drop)]
pub(crate) enum Stop {
    Memory,
    At(LayoutFault),
}

impl From<AllocError> for Stop {
    ghost from_gives = { λ _ e. e ≡ OutOfMemory };

    fn from(_error: AllocError) -> Stop {
        Stop::Memory
    }
}

impl<T: Drop> From<AllocFailed<T>> for Stop {
    ghost from_gives = { λ _ e. e ≡ OutOfMemory };

    fn from(_error: AllocFailed<T>) -> Stop {
        Stop::Memory
    }
}

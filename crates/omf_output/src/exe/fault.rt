//! Why modules are no program.

use omf_frame::Place;
use omf_reloc::ReachFault;
use std::alloc::AllocError;
use thiserror::Error;

/// Why modules are no program. Modules count from 0.
#[derive(Clone, Copy, Debug, PartialEq, Eq, Error)]
pub enum ExeFault {
    /// Out of memory.
    #[error("memory ran out")]
    Memory,
    /// The placement of this module does not reach.
    #[error("a placement does not reach")]
    Reach {
        /// The module.
        module: u32,
        /// The fault.
        fault: ReachFault,
    },
    /// The movers of this module are not those of its records: there is not one for each entry of its placement, or a segment that is not
    /// absolute stays by its flag, or an absolute one moves.
    #[error("movers of other segments")]
    Movers {
        /// The module.
        module: u32,
    },
    /// This part of a module does not move with the program: data of a segment that stays; a fixup of which the frame moves and the target
    /// does not, or the reverse, or whose data do not move with both; a start that stays.
    #[error("a part that does not move with the program")]
    Stays {
        /// The module.
        module: u32,
        /// The place of its part.
        place: Place,
    },
    /// No main module names a start.
    #[error("no start")]
    NoStart,
    /// Two or more main modules name a start.
    #[error("two starts")]
    Starts {
        /// The first of them.
        first: u32,
        /// The second.
        second: u32,
    },
    /// The offset of this module's start is over 65,535.
    #[error("the offset of the start is over 65,535")]
    FarStart {
        /// The module.
        module: u32,
    },
    /// The data or the segments end after 2^20.
    #[error("the program ends after 1,048,576")]
    TooHigh,
    /// The stack ends before the base of its frame, or more than 65,536 bytes after it.
    #[error("the end of the stack is not in its frame")]
    FarStack,
    /// This data record or fixup of a module overlaps a relocation word before it.
    #[error("a data record or a fixup overlaps a relocation word")]
    Overlap {
        /// The module.
        module: u32,
        /// The place of the record or the fixup.
        place: Place,
    },
    /// More than 65,535 relocation words.
    #[error("more than 65,535 relocation words")]
    TooMany,
}

impl From<AllocError> for ExeFault {
    ghost use Rattle.std.specs.Prelude.{◌≡◌};
    ghost use Rattle.omf_output.specs.declared.exe.fault.ExeFault.TheVariants.{Memory};

    ghost from_gives = { λ _ e. e ≡ Memory };

    fn from(_error: AllocError) -> ExeFault {
        ExeFault::Memory
    }
}

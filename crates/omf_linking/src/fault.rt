//! Why modules cannot be linked.

ghost use Rattle.std.specs.Prelude.{◌≡◌};
ghost use Rattle.omf_linking.specs.Faults.{of_derive, of_locator, of_memory};
ghost use Rattle.omf_linking.specs.declared.fault.LinkFault.TheVariants.{Memory};

use crate::locator::{LineFault, LocatorFault};
use crate::space::MemoryFault;
use omf_frame::{Place, Reason};
use omf_reloc::{DeriveFault, ReachFault};
use std::alloc::{AllocError, AllocFailed};
use thiserror::Error;

/// Why modules cannot be linked.
#[derive(Clone, Copy, Debug, PartialEq, Eq, Error)]
pub enum LinkFault {
    /// Out of memory.
    #[error("memory ran out")]
    Memory,
    /// The reader failed.
    #[error("the input could not be read")]
    Read,
    /// A module of the input is not well formed.
    #[error("a module is refused")]
    Refused {
        /// The module, from 0.
        module: u32,
        /// The fault of its first faulty record.
        reason: Reason,
        /// The place of the fault; its offset counts from the start of the module.
        place: Place,
    },
    /// What follows the modules and their padding, from this offset of the input on, is neither a module nor a text.
    #[error("what follows the modules is no module and no text")]
    NoText(u64),
    /// There is no module to link.
    #[error("there is no module")]
    NoModules,
    /// A line of the text does not fit.
    #[error("a line of the text does not fit")]
    Line {
        /// The line, counted from 1.
        line: u64,
        /// Why it does not fit.
        why: LineFault,
    },
    /// An external has no place.
    #[error("an external finds no place")]
    External(DeriveFault),
    /// The text gives an entry of a module no place, or the placement of a module does not fit it, or a fixup or the start is out of range.
    #[error("a module's placement does not reach")]
    Reach {
        /// The module, from 0.
        module: u32,
        /// The first such fault.
        fault: ReachFault,
    },
    /// Two main modules name a start address.
    #[error("two modules name a start")]
    Starts {
        /// The first of them, from 0.
        first: u32,
        /// The next.
        second: u32,
    },
    /// The segments do not fit into one memory.
    #[error("the segments do not fit into one memory")]
    Space(MemoryFault),
}

/// Why a file does not hold modules and padding alone.
#[derive(Clone, Copy, Debug, PartialEq, Eq)]
pub struct FileFault {
    /// The file, from 0.
    pub file: usize,
    /// `Refused`, with the number of the module in the file; `NoText`, with the offset in the file of what is neither a module nor
    /// padding; or `Memory`.
    pub fault: LinkFault,
}

impl From<AllocError> for LinkFault {
    ghost from_gives = { λ _ e. e ≡ Memory };

    fn from(_error: AllocError) -> LinkFault {
        LinkFault::Memory
    }
}

impl<T: Drop> From<AllocFailed<T>> for LinkFault {
    ghost from_gives = { λ _ e. e ≡ Memory };

    fn from(_error: AllocFailed<T>) -> LinkFault {
        LinkFault::Memory
    }
}

impl From<LocatorFault> for LinkFault {
    ghost from_gives = { λ fault e. e ≡ of_locator fault };

    fn from(fault: LocatorFault) -> LinkFault {
        match fault {
            LocatorFault::Memory => LinkFault::Memory,
            LocatorFault::Line { line, why } => LinkFault::Line { line, why },
        }
    }
}

impl From<DeriveFault> for LinkFault {
    ghost from_gives = { λ fault e. e ≡ of_derive fault };

    fn from(fault: DeriveFault) -> LinkFault {
        match fault {
            DeriveFault::Memory => LinkFault::Memory,
            DeriveFault::Undefined { .. }
            | DeriveFault::Twice { .. }
            | DeriveFault::TooHigh { .. } => LinkFault::External(fault),
        }
    }
}

impl From<MemoryFault> for LinkFault {
    ghost from_gives = { λ fault e. e ≡ of_memory fault };

    fn from(fault: MemoryFault) -> LinkFault {
        match fault {
            MemoryFault::Memory => LinkFault::Memory,
            MemoryFault::Overlap { .. } | MemoryFault::Beyond(_) => LinkFault::Space(fault),
        }
    }
}

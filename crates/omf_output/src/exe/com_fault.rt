//! Why modules are no .COM program.

use crate::exe::fault::ExeFault;
use crate::exe::file::FarAddress;
use omf_frame::Place;
use std::alloc::AllocError;
use thiserror::Error;

/// Why modules are no .COM program. Modules count from 0.
#[derive(Clone, Copy, Debug, PartialEq, Eq, Error)]
pub enum ComFault {
    /// Out of memory.
    #[error("memory ran out")]
    Memory,
    /// A fault of a module or of the start, for which there is no .EXE file either.
    #[error("the modules are no program")]
    Exe(ExeFault),
    /// The start is not at offset 100H of the first paragraph. It is here.
    #[error("the start is not at 0:100H")]
    Start(FarAddress),
    /// This data record of a module has a byte below 100H.
    #[error("data below 100H")]
    Low {
        /// The module.
        module: u32,
        /// The place of the record.
        place: Place,
    },
    /// This fixup of a module has a relocation word.
    #[error("a relocation word")]
    Words {
        /// The module.
        module: u32,
        /// The place of the fixup.
        place: Place,
    },
    /// This fixup of a module adds an offset in a frame that moves with the program and does not begin where it does.
    #[error("an offset in another frame")]
    Frame {
        /// The module.
        module: u32,
        /// The place of the fixup.
        place: Place,
    },
    /// The program and its stack have no room before offset FFFEH.
    #[error("the program ends at {end}, and its stack needs {stack} bytes")]
    TooLong {
        /// The first offset after the data and the segments, without those of the stack.
        end: u64,
        /// The bytes that the stack needs.
        stack: u64,
    },
}

impl From<AllocError> for ComFault {
    ghost use Rattle.std.specs.Prelude.{◌≡◌};
    ghost use Rattle.omf_output.specs.declared.exe.com_fault.ComFault.TheVariants.{Memory};

    ghost from_gives = { λ _ e. e ≡ Memory };

    fn from(_error: AllocError) -> ComFault {
        ComFault::Memory
    }
}

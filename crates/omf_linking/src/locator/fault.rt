//! Why a text does not place modules.

ghost use Rattle.std.specs.Prelude.{◌≡◌};
ghost use Rattle.omf_linking.specs.declared.locator.fault.LocatorFault.TheVariants.{Memory};

use std::alloc::{AllocError, AllocFailed};
use thiserror::Error;

/// Why a line of a text does not fit.
#[derive(Clone, Copy, Debug, PartialEq, Eq)]
pub enum LineFault {
    /// It is no entry.
    NotUnderstood,
    /// No `M` line is before it.
    NoModule,
    /// Its key names no module of the input, or no entry of its module; or no module has a segment or a group of its class or name.
    Unknown,
    /// Its key names more than one.
    Several,
    /// An earlier line is for the same module or entry.
    Twice,
    /// It shares a frame, and no line before it gives one to its name.
    Unshared,
    /// It is for segments `after` others, and no line before it is for segments of a class or a name.
    NothingBefore,
    /// The segments that it lays do not fit: below 2^20 with real-mode frames, else below 2^32; where they are stored below 2^32.
    NoRoom,
}

/// Why a text does not place modules.
#[derive(Clone, Copy, Debug, PartialEq, Eq, Error)]
pub enum LocatorFault {
    /// Out of memory.
    #[error("memory ran out")]
    Memory,
    /// A line of the text does not fit.
    #[error("a line of the text does not fit")]
    Line {
        /// The line, counted from 1.
        line: u64,
        /// Why it does not fit.
        why: LineFault,
    },
}

impl From<AllocError> for LocatorFault {
    ghost from_gives = { λ _ e. e ≡ Memory };

    fn from(_error: AllocError) -> LocatorFault {
        LocatorFault::Memory
    }
}

impl<T: Drop> From<AllocFailed<T>> for LocatorFault {
    ghost from_gives = { λ _ e. e ≡ Memory };

    fn from(_error: AllocFailed<T>) -> LocatorFault {
        LocatorFault::Memory
    }
}

//! Why bytes are no library.

ghost use Rattle.std.specs.Prelude.{◌≡◌};
ghost use Rattle.omf_library.specs.declared.fault.LibraryFault.TheVariants.{Memory};

use omf_frame::{Place, Reason};
use std::alloc::{AllocError, AllocFailed};
use thiserror::Error;

/// Why bytes are no library: the first fault, from the front. docs/LIBRARIES.md gives the usual cause of each.
#[derive(Clone, Copy, Debug, PartialEq, Eq, Error)]
pub enum LibraryFault {
    /// Out of memory.
    #[error("memory ran out")]
    Memory,
    /// The bytes do not begin with F0H.
    #[error("the bytes begin with no header of a library")]
    NoHeader,
    /// The header record has this length, which is no page size: a power of two from 16 to 32768.
    #[error("the page size is no power of two from 16 to 32768")]
    PageSize(u32),
    /// The bytes end in the header.
    #[error("the header of the library is cut")]
    HeaderCut,
    /// A page that must begin with a member or with F1H begins with neither.
    #[error("a member is refused")]
    Refused {
        /// The number of members before it.
        member: u64,
        /// Where the page begins.
        offset: u64,
        /// Why the check of modules refuses the bytes from there.
        reason: Reason,
        /// The place of the fault: its offsets count from the page.
        place: Place,
    },
    /// The bytes end before a page that must begin with a member or with F1H.
    #[error("the library has no end")]
    NoEnd {
        /// The number of members.
        member: u64,
        /// Where the page would begin.
        offset: u64,
    },
}

impl From<AllocError> for LibraryFault {
    ghost from_gives = { λ _ e. e ≡ Memory };

    fn from(_error: AllocError) -> LibraryFault {
        LibraryFault::Memory
    }
}

impl<T: Drop> From<AllocFailed<T>> for LibraryFault {
    ghost from_gives = { λ _ e. e ≡ Memory };

    fn from(_error: AllocFailed<T>) -> LibraryFault {
        LibraryFault::Memory
    }
}

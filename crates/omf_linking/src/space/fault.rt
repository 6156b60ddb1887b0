//! Why segments cannot be put into one memory.

ghost use Rattle.std.specs.Prelude.{◌≡◌};
ghost use Rattle.omf_linking.specs.declared.space.fault.MemoryFault.TheVariants.{Memory};

use crate::space::stretch::Owner;
use std::alloc::{AllocError, AllocFailed};
use thiserror::Error;

/// Why segments cannot be put into one memory.
#[derive(Clone, Copy, Debug, PartialEq, Eq, Error)]
pub enum MemoryFault {
    /// Out of memory.
    #[error("memory ran out")]
    Memory,
    /// Two segments that are not both common have a byte at one address.
    #[error("two segments have a byte at one address")]
    Overlap {
        /// The first address at which two such segments have a byte.
        address: u32,
        /// The first segment with a byte there.
        first: Owner,
        /// The next one that may not share the address with it.
        second: Owner,
    },
    /// This segment has a byte above the last address.
    #[error("a segment has a byte beyond the last address")]
    Beyond(Owner),
}

impl From<AllocError> for MemoryFault {
    ghost from_gives = { λ _ e. e ≡ Memory };

    fn from(_error: AllocError) -> MemoryFault {
        MemoryFault::Memory
    }
}

impl<T: Drop> From<AllocFailed<T>> for MemoryFault {
    ghost from_gives = { λ _ e. e ≡ Memory };

    fn from(_error: AllocFailed<T>) -> MemoryFault {
        MemoryFault::Memory
    }
}

//! Faults of a derivation.

use std::alloc::{AllocError, AllocFailed};
use thiserror::Error;

/// Why no placements are derived. The reasons have the numbers 1 to 4.
///
/// The external of a fault is the first at fault, by module (from 0), then by index (from 1).
#[derive(Clone, Copy, Debug, PartialEq, Eq, Error)]
pub enum DeriveFault {
    /// 1: out of memory.
    #[error("memory ran out")]
    Memory,
    /// 2: no public has the external's name.
    #[error("an external has no public")]
    Undefined {
        /// The module, from 0.
        module: u32,
        /// The index of the external in the module, from 1.
        external: u16,
    },
    /// 3: two or more publics have the external's name.
    #[error("an external has two publics")]
    Twice {
        /// The module, from 0.
        module: u32,
        /// The index of the external in the module, from 1.
        external: u16,
    },
    /// 4: the public's address is 2^32 or more.
    #[error("a public's address is too high")]
    TooHigh {
        /// The module, from 0.
        module: u32,
        /// The index of the external in the module, from 1.
        external: u16,
    },
}

impl From<AllocError> for DeriveFault {
    ghost use Rattle.std.specs.Prelude.{◌≡◌};
    ghost use Rattle.omf_placement.specs.declared.several.fault.DeriveFault.TheVariants.{Memory};

    ghost from_gives = { λ _ e. e ≡ Memory };

    fn from(_error: AllocError) -> Self {
        DeriveFault::Memory
    }
}

impl<T: Drop> From<AllocFailed<T>> for DeriveFault {
    ghost use Rattle.std.specs.Prelude.{◌≡◌};
    ghost use Rattle.omf_placement.specs.declared.several.fault.DeriveFault.TheVariants.{Memory};

    ghost from_gives = { λ _ e. e ≡ Memory };

    fn from(_error: AllocFailed<T>) -> Self {
        DeriveFault::Memory
    }
}

//! Faults of placement texts.

use std::alloc::{AllocError, AllocFailed};
use thiserror::Error;

/// Why a placement text gives no placement. The reasons have the numbers 1 and 2.
#[derive(Clone, Copy, Debug, PartialEq, Eq, Error)]
pub enum TextFault {
    /// 1: out of memory.
    #[error("memory ran out")]
    Memory,
    /// 2: the first line, numbered from 1, that is neither blank nor an entry; if there is none, the line of the first `G real` whose frame
    /// cannot be found.
    #[error("a line of the placement gives no entry")]
    Line(u64),
}

impl From<AllocError> for TextFault {
    ghost use Rattle.std.specs.Prelude.{◌≡◌};
    ghost use Rattle.omf_placement.specs.declared.fault.TextFault.TheVariants.{Memory};

    ghost from_gives = { λ _ e. e ≡ Memory };

    fn from(_error: AllocError) -> Self {
        TextFault::Memory
    }
}

impl<T: Drop> From<AllocFailed<T>> for TextFault {
    ghost use Rattle.std.specs.Prelude.{◌≡◌};
    ghost use Rattle.omf_placement.specs.declared.fault.TextFault.TheVariants.{Memory};

    ghost from_gives = { λ _ e. e ≡ Memory };

    fn from(_error: AllocFailed<T>) -> Self {
        TextFault::Memory
    }
}

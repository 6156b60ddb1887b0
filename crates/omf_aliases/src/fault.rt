//! Why aliases are not followed.

use omf_frame::{Place, Reason};
use std::alloc::{AllocError, AllocFailed};

/// Why aliases are not followed.
#[derive(Clone, Copy, Debug, Drop, PartialEq, Eq)]
pub enum FollowingFault {
    /// Out of memory.
    Memory,
    /// A module would have more than 32,767 externals.
    TooMany,
    /// A module is refused with the defaults of its externals.
    Refused { reason: Reason, place: Place },
}

impl From<AllocError> for FollowingFault {
    ghost use Rattle.std.specs.Prelude.{◌≡◌};
    ghost use Rattle.omf_aliases.specs.declared.fault.FollowingFault.TheVariants.{Memory};

    ghost from_gives = { λ _ e. e ≡ Memory };

    fn from(_error: AllocError) -> FollowingFault {
        FollowingFault::Memory
    }
}

impl<T: Drop> From<AllocFailed<T>> for FollowingFault {
    ghost use Rattle.std.specs.Prelude.{◌≡◌};
    ghost use Rattle.omf_aliases.specs.declared.fault.FollowingFault.TheVariants.{Memory};

    ghost from_gives = { λ _ e. e ≡ Memory };

    fn from(_error: AllocFailed<T>) -> FollowingFault {
        FollowingFault::Memory
    }
}

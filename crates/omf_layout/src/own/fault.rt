//! Why communals have no module.

use std::alloc::{AllocError, AllocFailed};

/// What is wrong with a communal.
#[derive(Clone, Copy, Debug, Drop, PartialEq, Eq)]
pub enum CommunalReason {
    /// It is near in one module and far in another.
    Mixed,
    /// It has 2^32 bytes or more.
    TooLong,
}

/// Why the communals of modules have no module.
#[derive(Clone, Copy, Debug, Drop)]
pub enum CommunalsFault<'a> {
    /// A communal is at fault.
    Communal {
        name: &'a [u8],
        reason: CommunalReason,
    },
    /// There are more than 32,766 communals.
    TooMany,
    /// The near communals have 2^32 bytes or more together.
    TooLarge,
    /// Memory ran out.
    Memory,
}

impl<'a> From<AllocError> for CommunalsFault<'a> {
    ghost use Rattle.std.specs.Prelude.{◌≡◌};
    ghost use Rattle.omf_layout.specs.declared.own.fault.CommunalsFault.TheVariants.{Memory};

    ghost from_gives = { λ _ e. e ≡ Memory };

    fn from(_error: AllocError) -> CommunalsFault<'a> {
        CommunalsFault::Memory
    }
}

impl<'a, T: Drop> From<AllocFailed<T>> for CommunalsFault<'a> {
    ghost use Rattle.std.specs.Prelude.{◌≡◌};
    ghost use Rattle.omf_layout.specs.declared.own.fault.CommunalsFault.TheVariants.{Memory};

    ghost from_gives = { λ _ e. e ≡ Memory };

    fn from(_error: AllocFailed<T>) -> CommunalsFault<'a> {
        CommunalsFault::Memory
    }
}

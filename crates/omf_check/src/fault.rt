//! Faults of a check.

ghost use Rattle.std.specs.Prelude.{◌≡◌};
ghost use Rattle.omf_check.specs.Checking.{check_sentence};
ghost use Rattle.omf_check.specs.declared.fault.CheckFault.TheVariants.{Memory};

use omf_frame::{Place, Reason};
use std::alloc::AllocError;
use std::fmt;

/// Why a check returns no module. The reasons have the numbers 1 to 3.
#[derive(Clone, Copy, Debug, PartialEq, Eq)]
pub enum CheckFault {
    /// 1: out of memory.
    Memory,
    /// 2: the reader failed, or was interrupted 1,000 times in a row.
    Read,
    /// 3: the input does not begin with a well-formed module.
    Refused {
        /// The fault of its first record at fault.
        reason: Reason,
        /// The place of the fault.
        place: Place,
    },
}

impl CheckFault {
    /// What the fault means, in a sentence without a period.
    fn sentence(&self) -> &'static str
        ensures { result.now ≡ check_sentence self.now }
    {
        match self {
            CheckFault::Memory => "memory ran out",
            CheckFault::Read => "the input could not be read",
            CheckFault::Refused { .. } => "the input does not begin with a well-formed module",
        }
    }
}

/// What the fault means.
impl fmt::Display for CheckFault {
    ghost use Rattle.std.specs.Prelude.{Some};
    ghost use Rattle.omf_check.specs.Checking.{check_sentence};

    ghost output = { λ fault. Some (check_sentence fault) };

    fn fmt<W: fmt::Write>(&self, f: &mut fmt::Formatter<W>) -> fmt::Result {
        f.write_str(self.sentence())
    }
}

impl std::error::Error for CheckFault {}

impl From<AllocError> for CheckFault {
    ghost from_gives = { λ _ e. e ≡ Memory };

    fn from(_error: AllocError) -> CheckFault {
        CheckFault::Memory
    }
}

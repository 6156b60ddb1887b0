//! Why a run of `omf` fails.

ghost use Rattle.std.specs.Prelude.{◌≡◌};
ghost use Rattle.omf_cmd.specs.FaultLine.{fault_sentence};
ghost use Rattle.omf_cmd.specs.Reports.{report};
ghost use Rattle.omf_cmd.specs.declared.fault.RunFault.TheVariants.{Memory, Reach};
ghost use Rattle.omf_cmd.specs.Relocating.{of_text};
ghost use Rattle.omf_cmd.specs.Reports.{of_check};

use crate::printed::print_fault;
use crate::program::Fault;
use omf_check::CheckFault;
use omf_frame::{Place, Reason, Sink};
use omf_reloc::{ReachFault, TextFault};
use std::alloc::{AllocError, AllocFailed};
use std::fmt;

/// Why a run of `omf` fails, with the number of each.
#[derive(Clone, Copy, Debug, PartialEq, Eq)]
pub enum RunFault {
    /// 1: memory ran out.
    Memory,
    /// 2: the reader failed, or was interrupted 1,000 times in a row.
    Read,
    /// 3: the writer failed, or took nothing.
    Write,
    /// 4: the input does not begin with a well-formed module.
    Refused {
        /// What is wrong with the first faulty record.
        reason: Reason,
        /// Where that is in the input.
        place: Place,
    },
    /// 5: the line of this number, from 1, of the placement text is neither empty nor an entry; or, if all lines are, it is the first `G real`
    /// line whose group has no frame.
    Line(u64),
    /// 6: the placement text has more than 4,194,304 bytes.
    TooLong,
    /// 7: the placement does not fit the module, or a fixup or the start is out of range.
    Reach(ReachFault),
}

impl RunFault {
    /// What the fault means, in a sentence without a period.
    fn sentence(&self) -> &'static str
        ensures { result.now ≡ fault_sentence self.now }
    {
        match self {
            RunFault::Memory => "memory ran out",
            RunFault::Read => "the input could not be read",
            RunFault::Write => "the output could not be written",
            RunFault::Refused { .. } => "the input does not begin with a well-formed module",
            RunFault::Line(_) => "a line of the placement gives no entry",
            RunFault::TooLong => "the placement has more than 4,194,304 bytes",
            RunFault::Reach(_) => "the placement does not reach",
        }
    }
}

/// What the fault means.
impl fmt::Display for RunFault {
    ghost use Rattle.std.specs.Prelude.{Some};
    ghost use Rattle.omf_cmd.specs.FaultLine.{fault_sentence};

    ghost output = { λ fault. Some (fault_sentence fault) };

    fn fmt<W: fmt::Write>(&self, f: &mut fmt::Formatter<W>) -> fmt::Result {
        f.write_str(self.sentence())
    }
}

impl std::error::Error for RunFault {}

impl From<AllocError> for RunFault {
    ghost from_gives = { λ _ e. e ≡ Memory };

    fn from(_error: AllocError) -> RunFault {
        RunFault::Memory
    }
}

impl<T: Drop> From<AllocFailed<T>> for RunFault {
    ghost from_gives = { λ _ e. e ≡ Memory };

    fn from(_error: AllocFailed<T>) -> RunFault {
        RunFault::Memory
    }
}

impl From<TextFault> for RunFault {
    ghost from_gives = { λ fault e. e ≡ of_text fault };

    fn from(fault: TextFault) -> RunFault {
        match fault {
            TextFault::Memory => RunFault::Memory,
            TextFault::Line(number) => RunFault::Line(number),
        }
    }
}

impl From<ReachFault> for RunFault {
    ghost from_gives = { λ fault e. e ≡ Reach fault };

    fn from(fault: ReachFault) -> RunFault {
        RunFault::Reach(fault)
    }
}

impl From<CheckFault> for RunFault {
    ghost from_gives = { λ fault e. e ≡ of_check fault };

    fn from(fault: CheckFault) -> RunFault {
        match fault {
            CheckFault::Memory => RunFault::Memory,
            CheckFault::Read => RunFault::Read,
            CheckFault::Refused { reason, place } => RunFault::Refused { reason, place },
        }
    }
}

impl Fault for RunFault {
    ghost report = { report };

    fn status(&self) -> u8 {
        match self {
            RunFault::Memory | RunFault::Read | RunFault::Write => 3,
            RunFault::Refused { .. } | RunFault::Line(_) | RunFault::TooLong | RunFault::Reach(_) =>
                1,
        }
    }

    fn print<K: Sink>(&self, writer: &mut K) {
        if !matches!(self, RunFault::Write) {
            print_fault(writer, self);
        }
    }
}

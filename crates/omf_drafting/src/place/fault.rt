//! Why a run of `omf-place` fails.

ghost use Rattle.std.specs.Prelude.{◌≡◌};
ghost use Rattle.omf_cmd.specs.Reports.{of_check};
ghost use Rattle.omf_cmd.specs.declared.fault.RunFault.TheVariants.{Memory};
ghost use Rattle.omf_drafting.specs.Place.Faults.{of_layout, report};
ghost use Rattle.omf_drafting.specs.declared.place.fault.PlaceFault.TheVariants.{Run};

use omf_check::CheckFault;
use omf_cmd::{Fault, RunFault, print_words};
use omf_frame::Sink;
use omf_layout::LayoutFault;
use std::alloc::AllocError;

/// Why a run fails.
#[derive(Clone, Copy)]
pub enum PlaceFault {
    /// The same faults as a run of `omf check`: no well-formed module, out of memory, or a failing device.
    Run(RunFault),
    /// A segment or an external has no room below the last address.
    NoRoom,
}

impl From<AllocError> for PlaceFault {
    ghost from_gives = { λ _ e. e ≡ Run Memory };

    fn from(_error: AllocError) -> Self {
        PlaceFault::Run(RunFault::Memory)
    }
}

impl From<CheckFault> for PlaceFault {
    ghost from_gives = { λ f e. e ≡ Run (of_check f) };

    fn from(fault: CheckFault) -> Self {
        PlaceFault::Run(RunFault::from(fault))
    }
}

impl From<LayoutFault> for PlaceFault {
    ghost from_gives = { λ f e. e ≡ of_layout f };

    fn from(fault: LayoutFault) -> Self {
        match fault {
            LayoutFault::Memory => PlaceFault::Run(RunFault::Memory),
            LayoutFault::NoRoom => PlaceFault::NoRoom,
        }
    }
}

impl Fault for PlaceFault {
    ghost report = { report };

    fn status(&self) -> u8 {
        match self {
            PlaceFault::Run(fault) => fault.status(),
            PlaceFault::NoRoom => 1,
        }
    }

    fn print<K: Sink>(&self, writer: &mut K) {
        match self {
            PlaceFault::Run(fault) => fault.print(writer),
            PlaceFault::NoRoom => print_words(writer, &["no room below the last address"]),
        }
    }
}

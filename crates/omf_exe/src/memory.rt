//! Which faults are that memory ran out.

ghost use Rattle.std.specs.Prelude.{◌≡◌};
ghost use Rattle.omf_exe.specs.Lowered.{is_link_memory};
ghost use Rattle.omf_exe.specs.Refusing.{is_com_memory, is_communals_memory, is_derive_memory, is_exe_memory, is_following_memory, is_library_memory, is_order_memory, is_ordering_memory, is_sharing_memory};

use crate::ordering::OrderingFault;
use crate::sharing::SharingFault;
use omf_aliases::FollowingFault;
use omf_layout::own::{CommunalsFault, OrderFault};
use omf_library::LibraryFault;
use omf_linking::LinkFault;
use omf_output::exe::{ComFault, ExeFault};
use omf_placement::DeriveFault;

/// Whether a fault of a library is that memory ran out.
pub(crate) fn is_library_memory(fault: LibraryFault) -> bool
    ensures { result ≡ is_library_memory fault }
{
    match fault {
        LibraryFault::Memory => true,
        LibraryFault::NoHeader => false,
        LibraryFault::PageSize(_) => false,
        LibraryFault::HeaderCut => false,
        LibraryFault::Refused { .. } => false,
        LibraryFault::NoEnd { .. } => false,
    }
}

/// Whether a fault of a file of modules is that memory ran out.
pub(crate) fn is_link_memory(fault: LinkFault) -> bool
    ensures { result ≡ is_link_memory fault }
{
    match fault {
        LinkFault::Memory => true,
        LinkFault::Read => false,
        LinkFault::Refused { .. } => false,
        LinkFault::NoText(_) => false,
        LinkFault::NoModules => false,
        LinkFault::Line { .. } => false,
        LinkFault::External(_) => false,
        LinkFault::Reach { .. } => false,
        LinkFault::Starts { .. } => false,
        LinkFault::Space(_) => false,
    }
}

/// Whether a fault of communals is that memory ran out.
fn is_communals_memory(fault: &CommunalsFault<'_>) -> bool
    ensures { result ≡ is_communals_memory fault.now }
{
    match fault {
        CommunalsFault::Communal { .. } => false,
        CommunalsFault::TooMany => false,
        CommunalsFault::TooLarge => false,
        CommunalsFault::Memory => true,
    }
}

/// Whether a fault of the module of communals is that memory ran out.
pub(crate) fn is_sharing_memory(fault: &SharingFault<'_>) -> bool
    ensures { result ≡ is_sharing_memory fault.now }
{
    match fault {
        SharingFault::Communals(fault) => is_communals_memory(fault),
        SharingFault::Refused { .. } => false,
    }
}

/// Whether a fault of DOS order is that memory ran out.
fn is_order_memory(fault: OrderFault) -> bool
    ensures { result ≡ is_order_memory fault }
{
    match fault {
        OrderFault::TooMany => false,
        OrderFault::Memory => true,
    }
}

/// Whether a fault of the module of DOS order is that memory ran out.
pub(crate) fn is_ordering_memory(fault: OrderingFault) -> bool
    ensures { result ≡ is_ordering_memory fault }
{
    match fault {
        OrderingFault::Order(fault) => is_order_memory(fault),
        OrderingFault::Refused { .. } => false,
    }
}

/// Whether a fault of an external is that memory ran out.
pub(crate) fn is_derive_memory(fault: DeriveFault) -> bool
    ensures { result ≡ is_derive_memory fault }
{
    match fault {
        DeriveFault::Memory => true,
        DeriveFault::Undefined { .. } => false,
        DeriveFault::Twice { .. } => false,
        DeriveFault::TooHigh { .. } => false,
    }
}

/// Whether a fault of modules at their placements is that memory ran out.
fn is_exe_memory(fault: ExeFault) -> bool
    ensures { result ≡ is_exe_memory fault }
{
    match fault {
        ExeFault::Memory => true,
        ExeFault::Reach { .. } => false,
        ExeFault::Movers { .. } => false,
        ExeFault::Stays { .. } => false,
        ExeFault::NoStart => false,
        ExeFault::Starts { .. } => false,
        ExeFault::FarStart { .. } => false,
        ExeFault::TooHigh => false,
        ExeFault::FarStack => false,
        ExeFault::Overlap { .. } => false,
        ExeFault::TooMany => false,
    }
}

/// Whether a fault of the modules of a .COM program at their placements is that memory ran out.
pub(crate) fn is_com_memory(fault: ComFault) -> bool
    ensures { result ≡ is_com_memory fault }
{
    match fault {
        ComFault::Memory => true,
        ComFault::Exe(fault) => is_exe_memory(fault),
        ComFault::Start(_) => false,
        ComFault::Low { .. } => false,
        ComFault::Words { .. } => false,
        ComFault::Frame { .. } => false,
        ComFault::TooLong { .. } => false,
    }
}

/// Whether a fault of modules whose aliases are not followed is that memory ran out.
pub(crate) fn is_following_memory(fault: FollowingFault) -> bool
    ensures { result ≡ is_following_memory fault }
{
    match fault {
        FollowingFault::Memory => true,
        FollowingFault::TooMany => false,
        FollowingFault::Refused { .. } => false,
    }
}

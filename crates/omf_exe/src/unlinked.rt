//! Why modules are no program: refusals of modules that have no places, and of modules that are no program at their places.

ghost use Rattle.std.specs.Prelude.{◌≡◌, false};
ghost use Rattle.omf_exe.specs.Refusing.{IsRefusalFor, is_com_memory, is_derive_memory};
ghost use Rattle.omf_layout.specs.declared.fault.LayoutFault.TheVariants.{NoRoom};

use crate::files::{in_line, memory};
use crate::lines::{Origins, too_high_line};
use crate::memory::{is_com_memory, is_derive_memory};
use crate::refusal::Refusal;
use omf_layout::LayoutFault;
use omf_output::exe::ComFault;
use omf_placement::{DeriveFault, Placement};
use std::alloc::{AllocError, Global};

/// The refusal of modules that have no room.
pub(crate) fn of_layout(alloc: Global, fault: LayoutFault) -> Refusal
    ensures { IsRefusalFor (fault ≡ NoRoom) result }
{
    match fault {
        LayoutFault::NoRoom => in_line(too_high_line(alloc)),
        LayoutFault::Memory => memory(),
    }
}

/// The refusal of names that are not defined.
pub(crate) fn undefined(alloc: Global, program: Origins<'_>) -> Refusal {
    match program.undefined_lines(alloc) {
        Ok(lines) => Refusal::Undefined(lines.into_bytes()),
        Err(AllocError) => memory(),
    }
}

/// The refusal of modules of which an external has no place.
pub(crate) fn of_external(alloc: Global, program: Origins<'_>, fault: DeriveFault) -> Refusal
    ensures { IsRefusalFor (is_derive_memory fault ≡ false) result }
{
    if is_derive_memory(fault) {
        return memory();
    }
    in_line(program.external_lines(alloc, fault))
}

/// The refusal of modules that are no program at their placements.
pub(crate) fn of_program(
    alloc: Global,
    program: Origins<'_>,
    placements: &[Placement],
    fault: ComFault,
) -> Refusal
    ensures { IsRefusalFor (is_com_memory fault ≡ false) result }
{
    if is_com_memory(fault) {
        return memory();
    }
    in_line(program.fault_line(alloc, placements, fault))
}

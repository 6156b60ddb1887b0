//! The stack that is added to the modules of a program.

ghost use Rattle.std.specs.Prelude.{◌≡◌, IfOk};
ghost use Rattle.omf_check.specs.Checking.{Decides};
ghost use Rattle.omf_exe.specs.Adding.{IsStackOf, least_stack};

use crate::options::ProgramKind;
use omf_aliases::any_profile;
use omf_check::{CheckFault, Checked, check};
use omf_combining::stack_bytes;
use omf_frame::Bytes;
use std::alloc::{AllocError, Global};

/// The least length of the stack of a program of this kind, where this one is asked for.
pub(crate) fn least_stack(kind: ProgramKind, asked: Option<u16>) -> Option<u16>
    ensures { result ≡ least_stack kind asked }
{
    match kind {
        ProgramKind::Exe => Some(asked.unwrap_or(0)),
        ProgramKind::Com => asked,
    }
}

/// The checked module that makes the stack of modules one of at least as many bytes, of an even number, as `stack_bytes` has it; `None` if there is
/// no least length, or if the stack is so without.
///
/// # Errors
///
/// `AllocError` if memory runs out, or if there are 2^32 modules or more.
pub(crate) fn stack_of(
    alloc: Global,
    modules: &[Checked],
    size: Option<u16>,
) -> Result<Option<Checked>, AllocError>
    ensures { IfOk result (IsStackOf modules.now size) }
{
    let Some(size) = size else {
        return Ok(None);
    };
    if modules.len() > u32::MAX as usize {
        return Err(AllocError);
    }
    let Some(bytes) = stack_bytes(alloc, modules, size)? else {
        return Ok(None);
    };
    match check(alloc, &mut Bytes::new(&bytes), any_profile()) {
        Ok(module) => Ok(Some(module)),
        Err(CheckFault::Refused { .. } | CheckFault::Memory | CheckFault::Read) => Err(AllocError),
    }
}

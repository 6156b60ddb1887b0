//! The module that a linker adds to the modules of a program for their communals.

ghost use Rattle.std.specs.Prelude.{◌≡◌, IfErr, IfOk};
ghost use Rattle.omf_check.specs.Module.{typed_modules};
ghost use Rattle.omf_exe.specs.Sharing.{AreShared, IsShared, IsSharingFault, home_of, with_added};

use crate::options::ProgramKind;
use omf_aliases::any_profile;
use omf_check::{CheckFault, Checked, check};
use omf_frame::{Bytes, Place, Reason};
use omf_layout::own::{CommunalsFault, Home, com_home, communals_module, exe_home};
use std::alloc::{AllocError, Global};

/// Why communals are not shared.
#[derive(Drop)]
pub enum SharingFault<'a> {
    /// They have no module.
    Communals(CommunalsFault<'a>),
    /// Their module is refused.
    Refused { reason: Reason, place: Place },
}

/// Where the near communals of a program of this kind are.
fn home_of<'a>(modules: &'a [Checked], kind: ProgramKind) -> Home<'a>
    ensures { result ≡ home_of kind (typed_modules modules.entry.now) }
{
    match kind {
        ProgramKind::Exe => exe_home(modules),
        ProgramKind::Com => com_home(modules),
    }
}

/// The checked module of the communals of the modules of a program of this kind; `None` if they have no communals.
///
/// # Errors
///
/// `Communals` with the fault of `communals_module`; `Refused` if its bytes are refused.
pub fn shared_module<'a>(
    alloc: Global,
    modules: &'a [Checked],
    kind: ProgramKind,
) -> Result<Option<Checked>, SharingFault<'a>>
    ensures shared { IfOk result (IsShared kind modules.entry.now) }
    ensures fault { IfErr result (IsSharingFault kind modules.entry.now) }
{
    let home = home_of(modules, kind);
    let bytes = match communals_module(alloc, modules, &home) {
        Ok(Some(bytes)) => bytes,
        Ok(None) => return Ok(None),
        Err(fault) => return Err(SharingFault::Communals(fault)),
    };
    match check(alloc, &mut Bytes::new(&bytes), any_profile()) {
        Ok(module) => Ok(Some(module)),
        Err(CheckFault::Refused { reason, place }) => Err(SharingFault::Refused { reason, place }),
        Err(CheckFault::Memory | CheckFault::Read) => {
            Err(SharingFault::Communals(CommunalsFault::Memory))
        }
    }
}

/// Modules, and after them the module that is added.
pub(crate) fn with_added(
    modules: Vec<Checked>,
    added: Option<Checked>,
) -> Result<Vec<Checked>, AllocError>
    ensures { IfOk result (λ v. v.items ≡ with_added modules.items added) }
{
    let mut all = modules;
    if let Some(module) = added {
        all.push(module)?;
    }
    Ok(all)
}

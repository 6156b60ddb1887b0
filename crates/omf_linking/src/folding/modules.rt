//! Modules with the names of their publics, externals, communals and aliases in lower case.

ghost use Rattle.std.specs.Prelude.{IfOk};
ghost use Rattle.std.specs.List.{AllZip};
ghost use Rattle.omf_linking.specs.Folded.{IsFolded};

use crate::folding::bytes::folded_bytes;
use crate::folding::comparing::is_folded;
use omf_check::{Checked, check};
use omf_frame::Bytes;
use std::alloc::{AllocError, Global};

/// A module with the names of its publics, externals, communals and aliases in lower case. It is checked again, and compared with the module.
///
/// # Errors
///
/// `AllocError` if memory runs out. The same if the check or the comparison fails, which is not met: letters of names count for neither.
pub fn folded(alloc: Global, module: &Checked) -> Result<Checked, AllocError>
    ensures { IfOk result (IsFolded «module».now) }
{
    let bytes = folded_bytes(alloc, module)?;
    let Ok(lower) = check(alloc, &mut Bytes::new(&bytes), module.profile()) else {
        return Err(AllocError);
    };
    if lower.bytes().len() != module.bytes().len() || !is_folded(module, &lower) {
        return Err(AllocError);
    }
    Ok(lower)
}

/// Modules with the names of their publics, externals, communals and aliases in lower case. Each module is dropped once it is folded.
///
/// # Errors
///
/// Those of `folded`.
pub fn folded_all(alloc: Global, modules: Vec<Checked>) -> Result<Vec<Checked>, AllocError>
    ensures { IfOk result (λ v. AllZip IsFolded modules.items v.items) }
{
    let mut all = Vec::new(alloc);
    for module in modules {
        all.push(folded(alloc, &module)?)?;
    }
    Ok(all)
}

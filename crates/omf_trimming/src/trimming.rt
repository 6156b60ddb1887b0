//! The modules of a program as they are laid.

ghost use Rattle.std.specs.Prelude.{◌≡◌, IfOk};
ghost use Rattle.omf_trimming.specs.Trimmed.{AreTrimmed};

use crate::optional::{LeftOut, has_optional};
use crate::reaching::without_unreached;
use crate::without::LeftPublics;
use omf_check::Checked;
use std::alloc::{AllocError, Global};

/// The modules of a program without the segments of debug information, of code, or of both, that nothing reaches, as `without_unreached` has them. Modules without such segments are
/// returned as they are, and their references are not looked at.
///
/// After a linker placed the modules, a second call with `LeftPublics::Gone` gives what a map of them shows: the names of the segments that are there.
///
/// What externals refer to by aliases must be in the modules already, as weak externals.
///
/// # Errors
///
/// `AllocError` if memory runs out.
pub fn trimmed(
    alloc: Global,
    left_out: LeftOut,
    publics: LeftPublics,
    modules: Vec<Checked>,
) -> Result<Vec<Checked>, AllocError>
    ensures { IfOk result (λ v. AreTrimmed publics left_out modules.items v.items) }
{
    if has_optional(alloc, left_out, &modules)? {
        without_unreached(alloc, left_out, publics, modules)
    } else {
        Ok(modules)
    }
}

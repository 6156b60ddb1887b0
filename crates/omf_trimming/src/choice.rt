//! The choice among the COMDATs of one name in several modules (TIS OMF 1.1, "COMDAT").

ghost use Rattle.std.specs.Prelude.{◌≡◌, IfOk, map};
ghost use Rattle.omf_trimming.specs.Choice.{AreChosen, all_left_out};

pub(crate) mod clashes;
mod firsts;
mod marked;
mod parts;

use crate::choice::firsts::Firsts;
use crate::choice::marked::instances;
use crate::without::{LeftPublics, without};
use omf_check::Checked;
use std::alloc::{AllocError, Global};

/// The segments of each module that are left out, one list for each.
fn all_left_out(alloc: Global, modules: &[Checked]) -> Result<Vec<Vec<u16>>, AllocError>
    ensures { IfOk result (λ v. map (λ gone. gone.items) v.items ≡ all_left_out modules.now) }
{
    let mut all = Vec::new(alloc);
    let mut firsts = Firsts::new(alloc);
    for module in modules {
        let found = instances(alloc, module)?;
        all.push(firsts.left_out(alloc, &found)?)?;
        firsts.add_all(found)?;
    }
    Ok(all)
}

/// Accepted modules in the order of a link, each without the instances that a linker leaves out. An instance is a COMDAT as `lowered` replaces it: a SEGDEF, a PUBDEF
/// of one name in that segment, and a mark, with nothing between them but FIXUPPs without a FIXUP. The first instance of a name stays. One of a later module is left out if the selections of both allow it: its public name, its
/// data and their fixups go, and its segment stays with a length of 0, so that all indices are the same. One that is not left out stays, and its name is then defined
/// twice. A module that nothing is left out of is returned as it is.
///
/// # Errors
///
/// `AllocError` if memory runs out.
pub fn chosen(alloc: Global, modules: Vec<Checked>) -> Result<Vec<Checked>, AllocError>
    ensures { IfOk result (λ v. AreChosen modules.items v.items) }
{
    let left_out = all_left_out(alloc, &modules)?;
    let mut left = left_out.into_iter();
    let mut all = Vec::new(alloc);
    for module in modules {
        let Some(gone) = left.next() else {
            return Err(AllocError);
        };
        all.push(without(alloc, module, LeftPublics::Nameless, &gone)?)?;
    }
    Ok(all)
}

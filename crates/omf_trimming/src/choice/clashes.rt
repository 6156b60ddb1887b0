//! COMDATs that are not left out, though an earlier module has one of their name.

ghost use Rattle.std.specs.Prelude.{◌≡◌, ◌<◌, ◌^◌, IfOk, length};
ghost use Rattle.omf_trimming.specs.Clashes.{clashes};

use crate::choice::firsts::Firsts;
use crate::choice::marked::instances;
use omf_check::Checked;
use std::alloc::{AllocError, Global};
use std::marker::Model;

/// A COMDAT that is not left out, though an earlier module has one of its name.
#[derive(Drop)]
pub struct Clash<'a> {
    /// The number of its module, from 0.
    pub number: u32,
    /// Its name.
    pub name: &'a [u8],
    /// The selection that does not allow the choice, 0 to 15: that of the first COMDAT of the name, or else its own (TIS OMF 1.1, "COMDAT").
    pub selection: u8,
}

impl<'a> Model for Clash<'a> {
    ghost use Rattle.omf_trimming.specs.Clashes.{ClashItem};

    ghost Value = { ClashItem };

    ghost view = { λ c. record { number = c.number; name = c.name.now; selection = c.selection } };
}

/// The COMDATs that `chosen` does not leave out, though an earlier module has one of their name: in the order of the modules, and in each in the order of its records. In
/// the modules that `chosen` returns, such a name is defined twice.
///
/// # Errors
///
/// `AllocError` if memory runs out.
pub fn clashes<'a>(alloc: Global, modules: &'a [Checked]) -> Result<Vec<Clash<'a>>, AllocError>
    requires { length modules.now < 2 ^ 32 }
    ensures { IfOk result (λ v. v.items ≡ clashes modules.entry.now) }
{
    let mut found = Vec::new(alloc);
    let mut firsts = Firsts::new(alloc);
    for (number, module) in modules.iter().enumerate() {
        let own = instances(alloc, module)?;
        firsts.push_clashes(alloc, number as u32, &mut found, &own)?;
        firsts.add_all(own)?;
    }
    Ok(found)
}

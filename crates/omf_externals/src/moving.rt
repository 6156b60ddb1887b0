//! Values, moved from one vector to another.

ghost use Rattle.std.specs.Prelude.{◌≡◌, ◌++◌, OnOk};

use std::alloc::AllocError;

/// Moves values to the end of others. If there are no others, their vector is replaced as a whole.
pub fn move_all<T: Drop>(own: Vec<T>, all: &mut Vec<T>) -> Result<(), AllocError>
    ensures { OnOk result (all.new.items ≡ all.old.items ++ own.items) }
{
    if all.is_empty() {
        *all = own;
        return Ok(());
    }
    for value in own {
        all.push(value)?;
    }
    Ok(())
}

//! Modules with their communals.

ghost use Rattle.std.specs.Prelude.{◌≡◌, IfOk};
ghost use Rattle.omf_communals.specs.Communals.{AreWithCommunals, IsWithCommunals, bytes_with};

use crate::replacing::Replacing;
use omf_check::{CheckFault, Checked, check, split_record};
use omf_frame::Bytes;
use std::alloc::{AllocError, Global};

/// The bytes of a module with its communals.
fn bytes_with(alloc: Global, module: &Checked) -> Result<Vec<u8>, AllocError>
    ensures { IfOk result (λ v. v.items ≡ bytes_with «module».now.bytes) }
{
    let mut replacing = Replacing::new(alloc);
    let mut left = module.bytes();
    for _number in 0..module.record_count() {
        let (record, after) = split_record(left);
        let (bytes, _) = left.split_at(left.len() - after.len());
        replacing.put(alloc, record, bytes)?;
        left = after;
    }
    Ok(replacing.out)
}

/// A module in which each external with the TYPDEF of a variable is a communal (TIS OMF 1.1, "TYPDEF", "COMDEF"). An EXTDEF or LEXTDEF with such an external is
/// replaced by records that define its externals, one each and in order, so that no index changes: a COMDEF or LCOMDEF for a communal, else an EXTDEF or LEXTDEF. All
/// else stays. The module is checked again. If it were refused, as one with too many records, it would stay as it was.
///
/// # Errors
///
/// `AllocError` if memory runs out. The same if the check reads less than these bytes, which is not met: a MODEND is the last record.
pub fn with_communals(alloc: Global, module: Checked) -> Result<Checked, AllocError>
    ensures { IfOk result (IsWithCommunals «module») }
{
    let bytes = bytes_with(alloc, &module)?;
    if bytes.as_slice() == module.bytes() {
        return Ok(module);
    }
    match check(alloc, &mut Bytes::new(&bytes), module.profile()) {
        Ok(checked) if checked.bytes().len() == bytes.len() => Ok(checked),
        Ok(_) | Err(CheckFault::Memory | CheckFault::Read) => Err(AllocError),
        Err(CheckFault::Refused { .. }) => Ok(module),
    }
}

/// Modules with their communals, as by `with_communals`.
///
/// # Errors
///
/// `AllocError` if memory runs out.
pub fn all_with_communals(alloc: Global, modules: Vec<Checked>) -> Result<Vec<Checked>, AllocError>
    ensures { IfOk result (λ v. AreWithCommunals modules.items v.items) }
{
    let mut all = Vec::new(alloc);
    for module in modules {
        all.push(with_communals(alloc, module)?)?;
    }
    Ok(all)
}

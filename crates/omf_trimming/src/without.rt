//! A module without some segments.

ghost use Rattle.std.specs.Prelude.{◌≡◌, IfOk};
ghost use Rattle.omf_check.specs.Module.{records_in};
ghost use Rattle.omf_check.specs.WellFormed.{IsWellFormed};
ghost use Rattle.omf_image.specs.Limits.{profile_limits};
ghost use Rattle.omf_trimming.specs.Without.{IsWithout, records_without, without};

mod rest;

use crate::without::rest::Rest;
use omf_check::{CheckFault, Checked, check, split_record};
use omf_frame::Bytes;
use omf_records::view_known;
use std::alloc::{AllocError, Global};

/// What becomes of the publics of segments that are left out.
#[derive(Clone, Copy, Debug, PartialEq, Eq)]
pub enum LeftPublics {
    /// They are left out too.
    Gone,
    /// They are left out too, and so are the segment's names: it takes no part in the order of segments.
    Nameless,
    /// They are at the start of their segment, so that externals that nothing uses any more have a public.
    AtStart,
}

/// The bytes of a module without these segments, which are a module again.
fn without_bytes(
    alloc: Global,
    module: &Checked,
    publics: LeftPublics,
    gone: &[u16],
) -> Result<Vec<u8>, AllocError>
    ensures bytes { IfOk result (λ v. v.items ≡ without publics gone.now «module».now.bytes) }
    ensures well_formed { IfOk result (λ v. IsWellFormed «module».now.profile profile_limits v.items (records_without publics gone.now (records_in «module».now.bytes))) }
{
    let mut rest = Rest::new(alloc, publics, gone);
    let mut left = module.bytes();
    for number in 0..module.record_count() {
        let (record, after) = split_record(left);
        let (bytes, _) = left.split_at(left.len() - after.len());
        rest.put(alloc, number, &view_known(record), bytes)?;
        left = after;
    }
    Ok(rest.out)
}

/// A module without these segments. It is checked again, since only a check makes a `Checked`; its bytes are never refused.
///
/// # Errors
///
/// `AllocError` if memory runs out.
pub(crate) fn without(
    alloc: Global,
    module: Checked,
    publics: LeftPublics,
    gone: &[u16],
) -> Result<Checked, AllocError>
    ensures { IfOk result (IsWithout publics gone.now «module») }
{
    if gone.is_empty() {
        return Ok(module);
    }
    let bytes = without_bytes(alloc, &module, publics, gone)?;
    match check(alloc, &mut Bytes::new(&bytes), module.profile()) {
        Ok(checked) => Ok(checked),
        Err(CheckFault::Memory | CheckFault::Read) => Err(AllocError),
        Err(CheckFault::Refused { .. }) => unreachable!(),
    }
}

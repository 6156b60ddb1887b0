//! The entries that a record repeats up to the end of its contents.

ghost use Rattle.std.specs.Prelude.{◌≡◌, ◌+◌, ◌<◌, ◌≤◌, Bool, length, drop, IfOk};
ghost use Rattle.omf_records.specs.Inner.Reads.{Reading, Shrinks, each};
ghost use Rattle.omf_lowering.specs.Inner.Readers.{read_to};
ghost use Rattle.omf_lowering.specs.Inner.State.{GivesAll};

use crate::fault::Stop;
use omf_records::{At, LayoutFault};
use std::alloc::Global;

/// An entry that a record repeats up to the end of its contents.
pub(crate) trait Entry: Sized + Drop {
    /// Its reading, in a record of odd type and in one of even type.
    ghost reading: { Bool → Reading Self };

    /// The entry at a position, and the position after it.
    fn read_at(body: &[u8], wide: bool, pos: usize) -> Result<(Self, usize), LayoutFault>
        requires { (pos ≤ length body.now) × (length body.now ≤ 65534) }
        ensures read { read_to body.now result ≡ reading wide (3 + pos) (drop pos body.now) }
        ensures bound { IfOk result (λ r. (pos < r.1) × (r.1 ≤ length body.now)) };

    /// Every entry has at least one byte.
    ghost shrinks: { (wide : Bool) → Shrinks (reading wide) };
}

/// The entries from a position up to the end of the contents, each with its offset in the record.
pub(crate) fn entries<T: Entry>(
    alloc: Global,
    body: &[u8],
    wide: bool,
    start: usize,
) -> Result<Vec<At<T>>, Stop>
    requires { (start ≤ length body.now) × (length body.now ≤ 65534) }
    ensures { GivesAll (λ v. v.items) result (each (T.reading wide) (3 + start) (drop start body.now)) }
{
    let mut items = Vec::new(alloc);
    let mut pos = start;
    while pos < body.len() {
        match T::read_at(body, wide, pos) {
            Ok((item, end)) => {
                let within = 3 + pos as u32;
                items.push(At { within, item })?;
                pos = end;
            }
            Err(fault) => return Err(Stop::At(fault)),
        }
    }
    Ok(items)
}

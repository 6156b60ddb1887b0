//! The verdict on a reader alone: its module is not kept.

ghost use Rattle.std.specs.Prelude.{◌≡◌, ◌≤◌, ◌+◌, ◌*◌, ℕ, List, Some, IfOk, IfErr, false};
ghost use Rattle.omf_frame.specs.Framing.{is_whole};
ghost use Rattle.omf_check.specs.Checking.{IsCheckFault, IsReadPatiently};
ghost use Rattle.omf_check.specs.Inner.Stopping.{Stops};
ghost use Rattle.omf_check.specs.Judging.{HasRead, Judges};

use crate::fault::CheckFault;
use crate::judged::Judged;
use crate::keeping::Nothing;
use crate::profile::Profile;
use crate::session::framing_fault;
use crate::taking::take_module;
use omf_frame::{Framer, Source};
use std::alloc::Global;

/// The verdict at the end of the input, after `size` bytes.
fn stopped(framer: &Framer, size: u64) -> Result<Judged, CheckFault>
    requires { is_whole framer.now.held.bytes ≡ false }
    ensures { Stops framer.now.held size result }
{
    if let Err(fault) = framer.stop() {
        return Err(framing_fault(fault));
    }
    let record_count = framer.number();
    Ok(Judged { record_count, size })
}

/// The verdict of `check` without the module: the numbers of records and bytes of the module that the input begins with, or its first
/// fault. It reads as far as `check` does, and keeps no bytes but those of the current record; of the records before it, only the tables
/// of names, segments, groups and externals.
///
/// # Errors
///
/// As `check`.
pub fn judge<S: Source>(
    alloc: Global,
    reader: &mut S,
    profile: Profile,
) -> Result<Judged, CheckFault>
    ensures verdict { (input : List ℕ) → (S.seen reader.old).bytes ≡ Some input → Judges profile input result }
    ensures read { IfOk result (HasRead profile (S.seen reader.old).bytes (S.seen reader.new).bytes) }
    ensures cause { IfErr result (IsCheckFault profile (S.seen reader.old).bytes (S.seen reader.new).bytes (S.seen reader.old).failures (S.seen reader.new).failures) }
    ensures patient { IsReadPatiently (S.seen reader.old) (S.seen reader.new) result }
    ensures bounded { IfOk result (λ j. (S.seen reader.new).failures ≤ (S.seen reader.old).failures + 1000 * (j.size + 1)) }
    ensures grows { (S.seen reader.old).failures ≤ (S.seen reader.new).failures }
{
    let mut nothing = Nothing;
    let mut framer = Framer::new(alloc);
    let taken = take_module(alloc, &mut framer, reader, &mut nothing, profile)?;
    stopped(&framer, taken.size)
}

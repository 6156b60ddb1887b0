//! The jobs over a module alone: `check`, `list` and `canon`.

ghost use Rattle.omf_check.specs.WellFormed.{recs};
ghost use Rattle.omf_canon.specs.Canonical.{canonical};
ghost use Rattle.std.specs.Prelude.{◌≡◌, List, IfErr, flat_map, length};
ghost use Rattle.omf_frame.specs.Framing.{Raw, raw_bytes};
ghost use Rattle.omf_check.specs.Module.{records_in};
ghost use Rattle.omf_cmd.specs.Listing.{check_text, list_text};
ghost use Rattle.omf_cmd.specs.Reports.{IsModuleFault, ReportsBy};
ghost use Rattle.omf_cmd.specs.Runs.{IsCausedBy, IsPrintCause, Prints, PrintsInPieces};

use crate::fault::RunFault;
use crate::output::write_all;
use crate::report::{check_text, print_list};
use omf_canon::{CanonFault, canon_to};
use omf_check::{Checked, Judged, Profile, check, judge};
use omf_frame::{Sink, Source};
use std::alloc::Global;

/// Checks the module at the front of the input, and prints its numbers of records and bytes. The module is not kept: in memory there is one
/// record at a time, and the tables. Nothing after the module is read, and nothing is written before all faults but Write and Memory are
/// excluded. The writer is not flushed.
///
/// # Errors
///
/// `Refused` if the input does not begin with a well-formed module; `Read` or `Write` if that device failed; `Memory` if memory ran out.
pub fn run_check<S: Source, K: Sink>(
    alloc: Global,
    profile: Profile,
    reader: &mut S,
    writer: &mut K,
) -> Result<(), RunFault>
    // A device is named only if it failed, at once or after 1,000 interruptions. One that is not named did not break.
    ensures cause { IsCausedBy (S.seen reader.old) (S.seen reader.new) (K.seen writer.old) (K.seen writer.new) result }
    // There is no fault of a placement, even if the bytes of the reader are unknown.
    ensures module { IfErr result IsModuleFault }
    // The answer is the defined one. The whole text is written, or a front of it if the writer failed.
    ensures prints { ReportsBy Prints check_text profile (S.seen reader.old) (S.seen reader.new) (K.seen writer.old) (K.seen writer.new) result }
{
    let judged = judge(alloc, reader, profile)?;
    print_check(alloc, judged, writer)
}

/// Prints the line of `check`.
fn print_check<K: Sink>(alloc: Global, judged: Judged, writer: &mut K) -> Result<(), RunFault>
    ensures prints { (rs : List Raw) → judged.record_count ≡ length rs → judged.size ≡ length (flat_map raw_bytes rs) → Prints (K.seen writer.old).bytes (K.seen writer.new).bytes result (check_text rs) }
    ensures cause { IsPrintCause (K.seen writer.old) (K.seen writer.new) result }
{
    let text = check_text(alloc, judged)?;
    write_all(writer, text.as_bytes())
}

/// Lists the module at the front of the input: its records, segments, groups, externals and publics. Nothing after the module is read, and
/// nothing is written before all faults but Write and Memory are excluded. The writer is not flushed.
///
/// # Errors
///
/// `Refused` if the input does not begin with a well-formed module; `Read` or `Write` if that device failed; `Memory` if memory ran out. At
/// `Write` and at `Memory` a front of the listing may be written.
pub fn run_list<S: Source, K: Sink>(
    alloc: Global,
    profile: Profile,
    reader: &mut S,
    writer: &mut K,
) -> Result<(), RunFault>
    // A device is named only if it failed, at once or after 1,000 interruptions. One that is not named did not break.
    ensures cause { IsCausedBy (S.seen reader.old) (S.seen reader.new) (K.seen writer.old) (K.seen writer.new) result }
    // There is no fault of a placement, even if the bytes of the reader are unknown.
    ensures module { IfErr result IsModuleFault }
    // The answer is the defined one. The whole text is written, or a front of it if the writer failed or memory ran out; nothing if memory
    // ran out before the module was read.
    ensures prints { ReportsBy PrintsInPieces list_text profile (S.seen reader.old) (S.seen reader.new) (K.seen writer.old) (K.seen writer.new) result }
{
    let checked = check(alloc, reader, profile)?;
    print_list(alloc, &checked, writer)
}

/// Writes the canonical bytes of the module at the front of the input; two modules that differ only in spelling have the same. Nothing after
/// the module is read, and nothing is written before all faults but Write and Memory are excluded. The writer is not flushed.
///
/// # Errors
///
/// `Refused` if the input does not begin with a well-formed module; `Read` or `Write` if that device failed; `Memory` if memory ran out.
pub fn run_canon<S: Source, K: Sink>(
    alloc: Global,
    profile: Profile,
    reader: &mut S,
    writer: &mut K,
) -> Result<(), RunFault>
    // A device is named only if it failed, at once or after 1,000 interruptions. One that is not named did not break.
    ensures cause { IsCausedBy (S.seen reader.old) (S.seen reader.new) (K.seen writer.old) (K.seen writer.new) result }
    // There is no fault of a placement, even if the bytes of the reader are unknown.
    ensures module { IfErr result IsModuleFault }
    // The answer is the defined one. All canonical bytes are written, or a front of them if the writer failed.
    ensures prints { ReportsBy Prints (λ rs. canonical (recs rs)) profile (S.seen reader.old) (S.seen reader.new) (K.seen writer.old) (K.seen writer.new) result }
{
    let checked = check(alloc, reader, profile)?;
    print_canonical(alloc, &checked, writer)
}

/// Writes the canonical bytes of a module.
fn print_canonical<K: Sink>(
    alloc: Global,
    checked: &Checked,
    writer: &mut K,
) -> Result<(), RunFault>
    ensures prints { Prints (K.seen writer.old).bytes (K.seen writer.new).bytes result (canonical (recs (records_in checked.now.bytes))) }
    ensures cause { IsPrintCause (K.seen writer.old) (K.seen writer.new) result }
{
    match canon_to(alloc, checked, writer) {
        Ok(()) => Ok(()),
        Err(CanonFault::Memory) => Err(RunFault::Memory),
        Err(CanonFault::Write) => Err(RunFault::Write),
    }
}

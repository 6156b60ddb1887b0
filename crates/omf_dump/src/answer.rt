//! The dump of an input.

ghost use Rattle.std.specs.Prelude.{◌<◌, ◌+◌, ◌^◌, ◌++◌, IfOk, List, drop, length};
ghost use Rattle.omf_frame.specs.Device.{Writes};
ghost use Rattle.omf_image.specs.Limits.{profile_limits};
ghost use Rattle.omf_check.specs.Module.{records_in};
ghost use Rattle.omf_check.specs.Refusal.{IsRefused};
ghost use Rattle.omf_check.specs.WellFormed.{recs};
ghost use Rattle.omf_check.specs.declared.profile.Profile.{Profile};
ghost use Rattle.omf_records.specs.Values.{Rec};
ghost use Rattle.omf_dump.specs.Dump.{dump_text};
ghost use Rattle.omf_dump.specs.Inner.Walking.{Holds};
ghost use Rattle.omf_dump.specs.Library.{IsModuleText, IsShown, Shows};
ghost use Rattle.omf_dump.specs.Refused.{refusal_text};

use crate::fault::DumpFault;
use crate::faulty::{own_lost, show_fault};
use crate::file::show_file;
use crate::format::{Mode, Style};
use crate::known::Known;
use crate::later::{Fault, State, put_later};
use crate::library::show_library;
use crate::output::send;
use crate::walk::{dump, nothing_known};
use omf_check::{CheckFault, Checked, check};
use omf_frame::{Bytes, Place, Reason, Sink};
use omf_library::read_header;
use std::alloc::Global;

/// Writes what is shown of a module.
fn dump_module<K: Sink>(
    alloc: Global,
    writer: &mut K,
    style: Style,
    checked: &Checked,
) -> Result<(), DumpFault>
    ensures { Writes (K.seen writer.old).bytes (K.seen writer.new).bytes result (dump_text style (records_in checked.now.bytes)) }
{
    let _count = checked.record_count();
    let mut known = nothing_known(alloc);
    dump(alloc, writer, style, &mut known, checked.bytes())
}

/// Writes the record at fault, and those after it, by what the records before give.
fn dump_fault<'a, K: Sink>(
    alloc: Global,
    writer: &mut K,
    style: Style,
    known: Known<'a>,
    fault: Fault<'a>,
) -> Result<(), DumpFault>
    requires { fault.place.start + length fault.rest.now < 2 ^ 63 }
    ensures { (before : List Rec) → Holds known.entry before → Writes (K.seen writer.old).bytes (K.seen writer.new).bytes result (refusal_text style before fault.entry.place fault.entry.reason fault.entry.rest.now) }
{
    let mut text = Vec::new(alloc);
    let mut state = State {
        known,
        lost: own_lost(fault.reason, fault.rest),
    };
    let Ok(()) = show_fault(&mut text, style, &mut state, fault) else {
        return Err(DumpFault::Memory);
    };
    put_later(writer, &mut text, style, &mut state, fault)?;
    send(writer, &text)
}

/// Writes what is shown of an input that is refused: the records before the fault, the record at fault, and those after it.
fn dump_refused<K: Sink>(
    alloc: Global,
    writer: &mut K,
    style: Style,
    input: &[u8],
    fault: (Reason, Place),
) -> Result<(), DumpFault>
    requires { (profile : Profile) × IsRefused profile profile_limits input.now fault.0 fault.1 }
    ensures { (profile : Profile) (r : IsRefused profile profile_limits input.now fault.0 fault.1) → Writes (K.seen writer.old).bytes (K.seen writer.new).bytes result (dump_text style r.before ++ refusal_text style (recs r.before) fault.1 fault.0 (drop fault.1.start input.now)) }
{
    let (reason, place) = fault;
    let (front, rest) = input.split_at(place.start as usize);
    let mut known = nothing_known(alloc);
    dump(alloc, writer, style, &mut known, front)?;
    let fault = Fault {
        reason,
        place,
        rest,
    };
    dump_fault(alloc, writer, style, known, fault)
}

/// Writes what is shown of bytes as a module: each record of the module that they begin with; or, if they are refused, the records before the fault,
/// the record at fault, and those after it, unjudged. Returns whether they are refused.
///
/// # Errors
///
/// `Memory` if memory ran out, `Write` if the writer failed.
pub(crate) fn show_module<K: Sink>(
    alloc: Global,
    writer: &mut K,
    mode: Mode,
    input: &[u8],
) -> Result<bool, DumpFault>
    ensures { IfOk result (λ is_refused. Shows (K.seen writer.old).bytes (K.seen writer.new).bytes (IsModuleText mode input.now is_refused)) }
{
    match check(alloc, &mut Bytes::new(input), mode.profile) {
        Ok(checked) => {
            dump_module(alloc, writer, mode.style, &checked)?;
            Ok(false)
        }
        Err(CheckFault::Refused { reason, place }) => {
            dump_refused(alloc, writer, mode.style, input, (reason, place))?;
            Ok(true)
        }
        Err(CheckFault::Memory) => Err(DumpFault::Memory),
        Err(CheckFault::Read) => Err(DumpFault::Memory),
    }
}

/// Writes what is shown of an input: of a library its members, of other bytes the modules that follow one another in
/// them. Returns whether one is refused.
///
/// # Errors
///
/// `Memory` if memory ran out, `Write` if the writer failed.
pub fn dump_input<K: Sink>(
    alloc: Global,
    writer: &mut K,
    mode: Mode,
    input: &[u8],
) -> Result<bool, DumpFault>
    ensures { IfOk result (λ is_refused. IsShown mode input.now is_refused (K.seen writer.old).bytes (K.seen writer.new).bytes) }
{
    match read_header(input) {
        Ok(header) => {
            let is_refused = show_library(alloc, writer, mode, header, input)?;
            Ok(is_refused)
        }
        Err(_) => {
            let is_refused = show_file(alloc, writer, mode, input)?;
            Ok(is_refused)
        }
    }
}

//! A run of a program whose output is flushed at its end.

ghost use Rattle.std.specs.Prelude.{◌≡◌, ◌≤◌, map, string_bytes, is_ok};
ghost use Rattle.omf_cmd.specs.Programs.{EndsFlushed, IsOutOfMemory, ProgramAnswers, status_after};
ghost use Rattle.omf_frame.specs.Device.{Device};

use crate::program::{Program, fail_early, run_with};
use omf_frame::{Sink, Source, Writing};
use std::alloc::Global;
use std::io;
use std::io::Write;

/// The exit status after a flush: 3 if the program was done, but its output could not be flushed.
fn after_flush(status: u8, flushed: &io::Result<()>) -> u8
    ensures { result ≡ status_after status (is_ok flushed.now) }
{
    if status == 0 && flushed.is_err() {
        3
    } else {
        status
    }
}

/// Runs a program on arguments, the program's own name first, as `run_with` does, and flushes the output. Returns the program's exit status, or
/// 3 if that is 0 and the output could not be flushed.
pub fn run_and_flush<P: Program, S: Source, W: Write>(
    alloc: Global,
    arguments: &[String],
    reader: &mut S,
    output: &mut Writing<W>,
) -> u8
    ensures known { result ≤ 3 }
    // The answer to these arguments and devices, and what the flush made of it.
    ensures answers { EndsFlushed (ProgramAnswers P.asks P.performs P.Fault.report P.called (map string_bytes arguments.now) (S.seen reader.old) (S.seen reader.new) (⟦<Writing<W> as Sink>⟧.seen output.old)) (⟦<Writing<W> as Sink>⟧.seen output.new) output.new.is_flushed result }
{
    let status = run_with::<P, _, _>(alloc, arguments, reader, output);
    let flushed = output.flush();
    after_flush(status, &flushed)
}

/// Prints "memory", flushes the output, and returns the exit status 3.
pub(crate) fn fail_and_flush<W: Write>(output: &mut Writing<W>) -> u8
    ensures status { result ≡ 3 }
    ensures prints { (reader : Device) → EndsFlushed (IsOutOfMemory reader reader (⟦<Writing<W> as Sink>⟧.seen output.old)) (⟦<Writing<W> as Sink>⟧.seen output.new) output.new.is_flushed result }
{
    let status = fail_early(output);
    let _ = output.flush();
    status
}

//! A program on the arguments, the standard input and the standard output of its process.

ghost use Rattle.std.specs.Prelude.{◌≡◌, ◌≤◌};
ghost use Rattle.std.specs.Process.{exit_status};
ghost use Rattle.omf_cmd.specs.Programs.{HasRun, HasRunOn, ProgramAnswers};

use crate::flushing::{fail_and_flush, run_and_flush};
use crate::program::Program;
use omf_frame::{Buffered, Sink, Writing};
use std::alloc::{AllocError, Global};
use std::env;
use std::io::{BufReader, ErrorKind, StdinLock, Write};
use std::process::ExitCode;

/// The number of bytes read from the standard input at once: 80 pages, so that at most a fifth of the records of 65,000 bytes cross the end of a
/// piece, and the piece stays in the cache of a core.
const PIECE: usize = 327_680;

/// The arguments of the process, the program's own name first; empty if one of them is not UTF-8.
fn arguments_of(rt: &HostRuntime) -> Result<Vec<String>, AllocError> {
    match env::args(rt) {
        Ok(arguments) => arguments.collect(rt.alloc()),
        Err(error) if error.kind() == ErrorKind::OutOfMemory => Err(AllocError),
        Err(_) => Ok(Vec::new(rt.alloc())),
    }
}

/// The arguments of the process, and its standard input.
fn arguments_and_input(rt: &HostRuntime) -> Result<(Vec<String>, Buffered<StdinLock>), AllocError> {
    let arguments = arguments_of(rt)?;
    let Ok(input) = BufReader::with_capacity(rt.alloc(), PIECE, rt.reader()) else {
        return Err(AllocError);
    };
    Ok((arguments, Buffered::new(input)))
}

/// Runs a program on the arguments and the standard input of the process, and flushes the output. Returns the exit status. If memory runs
/// out before, it prints "memory", flushes, and returns 3.
fn run_process<P: Program, W: Write>(rt: &HostRuntime, output: &mut Writing<W>) -> u8
    ensures known { result ≤ 3 }
    ensures ran { HasRunOn (ProgramAnswers P.asks P.performs P.Fault.report P.called) (⟦<Writing<W> as Sink>⟧.seen output.old) (⟦<Writing<W> as Sink>⟧.seen output.new) output.new.is_flushed result }
{
    match arguments_and_input(rt) {
        Ok((arguments, mut input)) => {
            run_and_flush::<P, _, _>(rt.alloc(), &arguments, &mut input, output)
        }
        Err(AllocError) => fail_and_flush(output),
    }
}

/// Runs a program on the arguments, the standard input and the standard output of the process, and flushes the output, as `run_and_flush` does.
/// Returns its exit status, or 3 if memory ran out before.
pub fn run_program<P: Program>(rt: &HostRuntime) -> ExitCode
    ensures known { exit_status result ≤ 3 }
    ensures ran { HasRun (ProgramAnswers P.asks P.performs P.Fault.report P.called) (exit_status result) }
{
    let mut output = Writing::new(rt.stdout());
    ExitCode::from(run_process::<P, _>(rt, &mut output))
}

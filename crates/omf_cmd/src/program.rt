//! Programs: arguments, a reader and a writer to an exit status.

ghost use Rattle.std.specs.Prelude.{◌≡◌, ◌≤◌, ◌++◌, ◌∷◌, [], ℕ, List, Option, None, Result, codes, map, string_bytes, IfOk};
ghost use Rattle.omf_cmd.specs.Programs.{Acts, FaultReport, ProgramAnswers};
ghost use Rattle.omf_cmd.specs.Runs.{IsWritten};
ghost use Rattle.omf_frame.specs.Device.{Device};

use crate::output::tell;
use omf_frame::{Sink, Source};
use std::alloc::{AllocError, Global};

/// Why a program fails: what it prints, and the exit status it ends with.
pub trait Fault {
    /// The status and the text.
    ghost report: { Self → FaultReport };

    /// The exit status, at most 3.
    fn status(&self) -> u8
        ensures known { result ≤ 3 }
        ensures status { result ≡ (report self.now).status };

    /// Prints the text: a line and its line feed, or nothing for a fault of the writer. It takes no memory. A failing writer is ignored.
    fn print<K: Sink>(&self, writer: &mut K)
        ensures { IsWritten (K.seen writer.old) (K.seen writer.new) (report self.now).text };
}

/// A program: what its arguments ask for, how that is done, and how the program is called.
pub trait Program {
    /// What the arguments can ask for.
    type Task: Drop;
    /// Why a task fails.
    type Fault: Fault + Drop;

    /// Relates arguments to the task found in them.
    ghost asks: { List (List ℕ) → Option Self.Task → Type 0 };
    /// What a task does: the reader before and after, the writer before and after, and the result.
    ghost performs: { Self.Task → Device → Device → Device → Device → Result (Unit {0}) Self.Fault → Type 0 };
    /// The usage.
    ghost called: { List ℕ };

    /// The task that the arguments ask for, the program's own name first; None if they are not understood.
    fn task(alloc: Global, arguments: &[String]) -> Result<Option<Self::Task>, AllocError>
        ensures { IfOk result (asks (map string_bytes arguments.now)) };

    /// Does a task. It does not flush the writer.
    fn perform<S: Source, K: Sink>(
        alloc: Global,
        task: Self::Task,
        reader: &mut S,
        writer: &mut K,
    ) -> Result<(), Self::Fault>
        ensures { performs task (S.seen reader.old) (S.seen reader.new) (K.seen writer.old) (K.seen writer.new) result };

    /// How the program is called: the text printed if the arguments are not understood.
    fn usage() -> &'static [u8]
        ensures { result.now ≡ called };
}

/// Prints a fault's text, and returns its exit status.
pub(crate) fn fail<F: Fault, K: Sink>(fault: &F, writer: &mut K) -> u8
    ensures known { result ≤ 3 }
    ensures status { result ≡ (F.report fault.now).status }
    ensures prints { IsWritten (K.seen writer.old) (K.seen writer.new) (F.report fault.now).text }
{
    fault.print(writer);
    fault.status()
}

/// Prints "memory", and returns the exit status 3: memory ran out before the arguments were read.
pub(crate) fn fail_early<K: Sink>(writer: &mut K) -> u8
    ensures status { result ≡ 3 }
    ensures prints { IsWritten (K.seen writer.old) (K.seen writer.new) (codes "memory" ++ 10 ∷ []) }
{
    tell(writer, b"memory\n");
    3
}

/// Does what a program's arguments ask for.
fn act<P: Program, S: Source, K: Sink>(
    alloc: Global,
    found: Option<P::Task>,
    reader: &mut S,
    writer: &mut K,
) -> u8
    ensures known { result ≤ 3 }
    ensures acts { Acts P.performs P.Fault.report P.called found (S.seen reader.old) (S.seen reader.new) (K.seen writer.old) (K.seen writer.new) result }
{
    let Some(task) = found else {
        tell(writer, P::usage());
        return 2;
    };
    match P::perform(alloc, task, reader, writer) {
        Ok(()) => 0,
        Err(fault) => fail(&fault, writer),
    }
}

/// Runs a program on arguments, the program's own name first. It does the task that they ask for, or prints the usage, and prints the text of
/// a fault. It returns the exit status: 0 done, 2 the arguments are not understood, 3 memory ran out before they were read, else that of the
/// fault. It does not flush the writer.
pub fn run_with<P: Program, S: Source, K: Sink>(
    alloc: Global,
    arguments: &[String],
    reader: &mut S,
    writer: &mut K,
) -> u8
    ensures known { result ≤ 3 }
    ensures answers { ProgramAnswers P.asks P.performs P.Fault.report P.called (map string_bytes arguments.now) (S.seen reader.old) (S.seen reader.new) (K.seen writer.old) (K.seen writer.new) result }
{
    match P::task(alloc, arguments) {
        Ok(found) => act::<P, _, _>(alloc, found, reader, writer),
        Err(AllocError) => fail_early(writer),
    }
}

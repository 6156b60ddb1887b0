//! What a task does on the two streams of a program: its text goes on the output, the lines of a fault go on the standard error.

ghost use Rattle.std.specs.Prelude.{◌≡◌, IfErr, IfOk, []};
ghost use Rattle.omf_cmd.specs.Programs.{in_memory};
ghost use Rattle.omf_host.specs.Streams.{IsTold};
ghost use Rattle.omf_drafting.specs.Telling.{RunsAndTells};

use omf_cmd::{Fault, Program};
use omf_frame::{Sink, Source};
use omf_host::{Status, Streams};
use std::alloc::{AllocError, Global};
use std::io;
use std::io::{Error, ErrorKind};

/// A sink that keeps what it takes, and counts how often memory for that ran out.
#[derive(Drop)]
struct Kept {
    text: Vec<u8>,
    refusals: u64,
}

impl Kept {
    /// An empty sink.
    fn new(alloc: Global) -> Self
        ensures { ⟦<Kept as Sink>⟧.seen result ≡ in_memory 0 [] }
    {
        Kept {
            text: Vec::new(alloc),
            refusals: 0,
        }
    }
}

impl Sink for Kept {
    ghost seen = { λ s. in_memory s.refusals s.text.items };

    fn push(&mut self, bytes: &[u8]) -> io::Result<usize> {
        match self.text.extend_from_slice(bytes) {
            Ok(()) => Ok(bytes.len()),
            Err(_) => {
                self.refusals = self.refusals.saturating_add(1);
                Err(Error::from(ErrorKind::OutOfMemory))
            }
        }
    }
}

/// The text of a fault.
///
/// # Errors
///
/// `AllocError` if out of memory.
#[tactic(auto, using(crate::proofs::TellingLaws::whole_kept))]
pub fn fault_text<F: Fault>(alloc: Global, fault: &F) -> Result<Vec<u8>, AllocError>
    ensures { IfOk result (λ text. text.items ≡ (F.report fault.now).text) }
{
    let mut kept = Kept::new(alloc);
    fault.print(&mut kept);
    if kept.refusals == 0 {
        Ok(kept.text)
    } else {
        Err(AllocError)
    }
}

/// Writes the lines of a fault on the standard error, each after the program's name.
///
/// # Errors
///
/// `AllocError` if out of memory. Nothing is written then.
pub fn tell_fault<F: Fault, K, E: Sink>(
    alloc: Global,
    streams: &mut Streams<K, E>,
    fault: &F,
) -> Result<(), AllocError>
    ensures told { IfOk result (λ _. IsTold streams.old.name.now (F.report fault.now).text (E.seen streams.old.errors) (E.seen streams.new.errors)) }
    ensures untold { IfErr result (λ _. streams.new ≡ streams.old) }
    ensures output { streams.new.output ≡ streams.old.output }
{
    let text = fault_text(alloc, fault)?;
    streams.report(alloc, &text)
}

/// Does a task on a reader. Its text goes on the output, the lines of a fault go on the standard error. Returns `Done`, or the status of the
/// fault.
///
/// # Errors
///
/// `AllocError` if there is no memory for the lines of a fault.
#[tactic(auto, using(crate::proofs::TellingLaws::done, crate::proofs::TellingLaws::failed))]
pub fn perform<P: Program, S: Source, K: Sink, E: Sink>(
    alloc: Global,
    task: P::Task,
    reader: &mut S,
    streams: &mut Streams<K, E>,
) -> Result<Status, AllocError>
    ensures { IfOk result (λ status. RunsAndTells (P.performs task) P.Fault.report streams.old.name.now (S.seen reader.old) (S.seen reader.new) (K.seen streams.old.output) (K.seen streams.new.output) (E.seen streams.old.errors) (E.seen streams.new.errors) status) }
{
    match P::perform(alloc, task, reader, &mut streams.output) {
        Ok(()) => Ok(Status::Done),
        Err(fault) => {
            tell_fault(alloc, streams, &fault)?;
            Ok(Status::of_code(fault.status()))
        }
    }
}

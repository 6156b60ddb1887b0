//! What a program writes, and how it ends.

ghost use Rattle.std.specs.Prelude.{◌≡◌, ◌++◌, IfErr, IfOk};
ghost use Rattle.std.specs.Io.KnownBytes.{Keeps};
ghost use Rattle.std.specs.IoError.{error_kind};
ghost use Rattle.std.specs.Process.{exit_status};
ghost use Rattle.omf_host.specs.Ending.{IsPut, exit_code, flushed_status};
ghost use Rattle.omf_host.specs.Streams.{IsToldUnwritten, IsTried, SaysFailure, SaysUnwritten, Warns, is_closed, memory_line};
ghost use Rattle.omf_host.specs.declared.ending.Status.TheVariants.{Failed, Misused};

use crate::ending::Status;
use crate::lines::put_unwritten;
use crate::noted::StandardOutput;
use crate::streams::Streams;
use omf_frame::{Sink, push_all};
use std::alloc::{AllocError, Global};
use std::io::{Error, ErrorKind, Write};
use std::process::ExitCode;

/// Writes all of the bytes. Returns `Done`, or `Failed` if the writer failed: a front of them may be written then.
pub fn put<K: Sink>(writer: &mut K, bytes: &[u8]) -> Status
    ensures { IsPut (K.seen writer.old) (K.seen writer.new) bytes.now result }
{
    match push_all(writer, bytes) {
        Ok(()) => Status::Done,
        Err(_) => Status::Failed,
    }
}

/// Writes a text of two parts. Returns `Done`, or `Failed` if the writer failed: a front of it may be written then.
fn put_both<K: Sink>(writer: &mut K, first: &[u8], second: &[u8]) -> Status
    ensures { IsPut (K.seen writer.old) (K.seen writer.new) (first.now ++ second.now) result }
{
    match push_all(writer, first) {
        Ok(()) => put(writer, second),
        Err(_) => Status::Failed,
    }
}

/// Writes how a program is called on the standard error. Returns `Misused`.
pub fn misused<K, E: Sink>(streams: &mut Streams<K, E>, usage: &[u8]) -> Status
    ensures status { result ≡ Misused }
    ensures text { IsTried usage.now (E.seen streams.old.errors) (E.seen streams.new.errors) }
    ensures output { streams.new.output ≡ streams.old.output }
{
    let _ = put(&mut streams.errors, usage);
    Status::Misused
}

/// Writes the line `PROGRAM: memory` on the standard error. It takes no memory. Returns `Failed`.
pub fn out_of_memory<K, E: Sink>(streams: &mut Streams<K, E>) -> Status
    ensures status { result ≡ Failed }
    ensures text { IsTried (memory_line streams.old.name.now) (E.seen streams.old.errors) (E.seen streams.new.errors) }
    ensures output { streams.new.output ≡ streams.old.output }
{
    let _ = put_both(&mut streams.errors, streams.name.as_bytes(), b": memory\n");
    Status::Failed
}

/// Writes warnings on the standard error, each line after the program's name. Returns `Done`; or `Failed`, after the line `PROGRAM: memory`, if
/// there is no memory for that.
pub fn warn<K, E: Sink>(alloc: Global, streams: &mut Streams<K, E>, lines: &[u8]) -> Status
    ensures said { Warns result streams.old.name.now lines.now (E.seen streams.old.errors) (E.seen streams.new.errors) }
    ensures output { streams.new.output ≡ streams.old.output }
{
    match streams.report(alloc, lines) {
        Ok(()) => Status::Done,
        Err(AllocError) => out_of_memory(streams),
    }
}

/// Writes that the output could not be written, and why.
fn tell_unwritten<K, E: Sink>(
    alloc: Global,
    streams: &mut Streams<K, E>,
    error: &Error,
) -> Result<(), AllocError>
    ensures told { IfOk result (λ _. IsToldUnwritten streams.old.name.now (E.seen streams.old.errors) (E.seen streams.new.errors)) }
    ensures untold { IfErr result (λ _. streams.new ≡ streams.old) }
    ensures output { streams.new.output ≡ streams.old.output }
{
    let mut line = String::new(alloc);
    put_unwritten(&mut line, "standard output", error)?;
    streams.report(alloc, line.as_bytes())
}

/// Writes that the output could not be written, and why; or that memory ran out for that.
fn say_unwritten<K, E: Sink>(alloc: Global, streams: &mut Streams<K, E>, error: &Error)
    ensures errors { SaysUnwritten streams.old.name.now (E.seen streams.old.errors) (E.seen streams.new.errors) }
    ensures output { streams.new.output ≡ streams.old.output }
{
    if let Err(AllocError) = tell_unwritten(alloc, streams, error) {
        let _ = out_of_memory(streams);
    }
}

/// Whether an error is that of a pipe whose reader has closed it.
fn is_closed(error: &Error) -> bool
    ensures { result ≡ is_closed (error_kind error.now) }
{
    matches!(error.kind(), ErrorKind::BrokenPipe)
}

/// Writes why the output failed, if it did. There is no line for a pipe whose reader has closed it.
fn say_failure<K, E: Sink>(alloc: Global, streams: &mut Streams<K, E>, failure: Option<Error>)
    ensures errors { SaysFailure streams.old.name.now failure (E.seen streams.old.errors) (E.seen streams.new.errors) }
    ensures output { streams.new.output ≡ streams.old.output }
{
    match failure {
        None => {}
        Some(error) if is_closed(&error) => {}
        Some(error) => say_unwritten(alloc, streams, &error),
    }
}

/// The status after a flush.
fn flushed_status(status: Status, is_flushed: bool) -> Status
    ensures { result ≡ flushed_status status is_flushed }
{
    match status {
        Status::Done if !is_flushed => Status::Failed,
        Status::Done | Status::Refused | Status::Misused | Status::Failed => status,
    }
}

/// Flushes the output, and writes on the standard error why it failed, if it did. Returns the exit status: that of `status`, or 3 for `Done` if
/// the output could not be flushed.
pub fn end<W: Write, E: Sink>(
    alloc: Global,
    streams: &mut Streams<StandardOutput<W>, E>,
    status: Status,
) -> ExitCode
    ensures status { exit_status result ≡ exit_code (flushed_status status streams.new.output.writing.is_flushed) }
    ensures bytes { Keeps (⟦<StandardOutput<W> as Sink>⟧.seen streams.old.output).bytes (⟦<StandardOutput<W> as Sink>⟧.seen streams.new.output).bytes }
    ensures said { SaysFailure streams.old.name.now streams.new.output.failure (E.seen streams.old.errors) (E.seen streams.new.errors) }
{
    let is_flushed = streams.output.flush();
    let failure = streams.output.failure();
    say_failure(alloc, streams, failure);
    ExitCode::from(flushed_status(status, is_flushed).code())
}

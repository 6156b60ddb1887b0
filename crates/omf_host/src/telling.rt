//! What a program does with files, with lines on those that cannot be read or written.

ghost use Rattle.std.specs.Prelude.{◌≡◌, IfErr, IfOk, OnOk, Option, codes, option_map, string_bytes};
ghost use Rattle.omf_frame.specs.Bytes.{AddsText};
ghost use Rattle.omf_host.specs.Outputs.{AreAllOnOutput, AreLeft, AreThreeOnOutput, IsLeft};
ghost use Rattle.omf_host.specs.Streams.{IsToldFailure};
ghost use Rattle.omf_host.specs.Telling.{AddsReason, AddsUnwritten, SaysLeft, SaysUnread, left_status, written_line};
ghost use Rattle.omf_host.specs.declared.writing.Unwritten.{Unwritten as Left};

use crate::ending::Status;
use crate::files::read_input;
use crate::lines::{put_unread, put_unwritten};
use crate::streams::Streams;
use crate::text::put_quoted;
use crate::writing::{OutputFile, Unwritten, write_outputs, write_three};
use omf_frame::Sink;
use std::alloc::{AllocError, Global};
use std::io::Error;

/// Writes the line of a file that could not be read.
fn tell_unread<K, E: Sink>(
    alloc: Global,
    streams: &mut Streams<K, E>,
    name: &str,
    error: &Error,
) -> Result<(), AllocError>
    ensures told { IfOk result (λ _. IsToldFailure streams.old.name.now (codes "read") name.now (E.seen streams.old.errors) (E.seen streams.new.errors)) }
    ensures untold { IfErr result (λ _. streams.new ≡ streams.old) }
    ensures output { streams.new.output ≡ streams.old.output }
{
    let mut line = String::new(alloc);
    put_unread(&mut line, name, error)?;
    streams.report(alloc, line.as_bytes())
}

/// Reads a file, or the standard input if its name is `-`. None, and a line on why, if it could not be read.
///
/// # Errors
///
/// `AllocError` if out of memory. Nothing is written then.
pub fn read_or_tell<K, E: Sink>(
    rt: &HostRuntime,
    name: &str,
    streams: &mut Streams<K, E>,
) -> Result<Option<Vec<u8>>, AllocError>
    ensures said { IfOk result (λ bytes. SaysUnread streams.old.name.now name.now bytes (E.seen streams.old.errors) (E.seen streams.new.errors)) }
    ensures untold { IfErr result (λ _. streams.new ≡ streams.old) }
    ensures output { streams.new.output ≡ streams.old.output }
{
    match read_input(rt, name) {
        Ok(bytes) => Ok(Some(bytes)),
        Err(error) => {
            tell_unread(rt.alloc(), streams, name, &error)?;
            Ok(None)
        }
    }
}

/// Appends why an output could not be written, unless it is the standard output.
fn put_reason(text: &mut String, name: &str, error: &Error) -> Result<(), AllocError>
    ensures { OnOk result (AddsReason name.now (string_bytes text.old) (string_bytes text.new)) }
{
    if name == "-" {
        return Ok(());
    }
    put_unwritten(text, name, error)
}

/// Appends the line of an output that is written nevertheless, if there is one.
fn put_written(text: &mut String, name: Option<&str>) -> Result<(), AllocError>
    ensures { AddsText result (string_bytes text.old) (string_bytes text.new) (written_line (option_map (λ n. n.now) name.entry)) }
{
    match name {
        Some(name) => {
            put_quoted(text, name.as_bytes())?;
            text.push_str(" is written\n")
        }
        None => Ok(()),
    }
}

/// Appends the lines of an output that could not be written.
fn put_left(text: &mut String, unwritten: &Unwritten<'_>) -> Result<(), AllocError>
    ensures { OnOk result (AddsUnwritten unwritten.now (string_bytes text.old) (string_bytes text.new)) }
{
    put_reason(text, unwritten.name, &unwritten.error)?;
    put_written(text, unwritten.written)?;
    put_written(text, unwritten.also)
}

/// Writes the lines of an output that could not be written, if there is one. Returns `Done` if there is none, and else `Failed`.
fn tell_left<K, E: Sink>(
    alloc: Global,
    streams: &mut Streams<K, E>,
    left: Option<Unwritten<'_>>,
) -> Result<Status, AllocError>
    ensures status { IfOk result (λ s. s ≡ left_status left.entry) }
    ensures said { IfOk result (λ _. SaysLeft streams.old.name.now left.entry (E.seen streams.old.errors) (E.seen streams.new.errors)) }
    ensures output { streams.new.output ≡ streams.old.output }
{
    let Some(unwritten) = left else {
        return Ok(Status::Done);
    };
    let mut lines = String::new(alloc);
    put_left(&mut lines, &unwritten)?;
    streams.report(alloc, lines.as_bytes())?;
    Ok(Status::Failed)
}

/// Writes one or two outputs (`write_outputs`). Returns `Done`; or `Failed`, after a line on why, if one could not be written.
///
/// # Errors
///
/// `AllocError` if out of memory. Outputs may be written then.
pub fn write_or_tell<K: Sink, E: Sink>(
    rt: &HostRuntime,
    first: OutputFile<'_>,
    second: Option<OutputFile<'_>>,
    streams: &mut Streams<K, E>,
) -> Result<Status, AllocError>
    ensures { IfOk result (λ s. (left : Option Left) × (s ≡ left_status left) × IsLeft first.entry.name.now (option_map (λ f. f.name.now) second.entry) left × AreAllOnOutput first.entry second.entry (K.seen streams.old.output) (K.seen streams.new.output) left × SaysLeft streams.old.name.now left (E.seen streams.old.errors) (E.seen streams.new.errors)) }
{
    let left = write_outputs(rt, &mut streams.output, first, second)?;
    tell_left(rt.alloc(), streams, left)
}

/// Writes three outputs (`write_three`), as `write_or_tell` does two.
///
/// # Errors
///
/// `AllocError` if out of memory. Outputs may be written then.
pub fn write_three_or_tell<K: Sink, E: Sink>(
    rt: &HostRuntime,
    first: OutputFile<'_>,
    second: OutputFile<'_>,
    third: OutputFile<'_>,
    streams: &mut Streams<K, E>,
) -> Result<Status, AllocError>
    ensures { IfOk result (λ s. (left : Option Left) × (s ≡ left_status left) × AreLeft first.entry.name.now second.entry.name.now third.entry.name.now left × AreThreeOnOutput first.entry second.entry third.entry (K.seen streams.old.output) (K.seen streams.new.output) left × SaysLeft streams.old.name.now left (E.seen streams.old.errors) (E.seen streams.new.errors)) }
{
    let left = write_three(rt, &mut streams.output, first, second, third)?;
    tell_left(rt.alloc(), streams, left)
}

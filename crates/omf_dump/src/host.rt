//! The program on the arguments, the files, the standard input, the standard output and the standard error of its process.

use crate::answer::dump_input;
use crate::fault::DumpFault;
use crate::format::Format;
use crate::listing::{header_line, list_input};
use crate::options::{Asked, Task, read_arguments};
use crate::value::put_quoted;
use omf_frame::Sink;
use omf_host::{
    About, Progress, Status, Streams, arguments, end, explain, misused_by, out_of_memory, put,
    put_title, put_unread, question_in, read_input, standard_streams,
};
use std::alloc::{AllocError, Global};
use std::io;
use std::process::ExitCode;

/// What the program shows of itself.
const ABOUT: About = About {
    name: "omf-dump",
    colored_name: "\x1B[1;36momf-dump\x1B[0m",
    usage: "usage: omf-dump [--json] [--data N] [--refuse-vendor-comments] [FILE ..]
       omf-dump --verdict|--names [--json | --csv] [--refuse-vendor-comments]
           [FILE ..]
       omf-dump --names --defined|--undefined [--json | --csv]
           [--refuse-vendor-comments] [FILE ..]
",
    details: "
Prints every field of each record of an object module (.OBJ), or of all members
of a library (.LIB). Without a file, or where it is -, it reads the standard
input.

  --verdict                 a line for each module: OK, or why it is refused
  --names                   a line for each name: kind, segment, offset, name
  --defined                 with --names: only the names that the module defines
  --undefined               with --names: only those that others are to define
  --json                    one line of JSON for each record, module or name
  --csv                     comma-separated values, after a line of their names
  --data N                  at most N bytes of data for each record
  --refuse-vendor-comments  refuse comments of the classes C0H to FFH

@FILE is the words of a file, and -- ends the options. omf-dump(1) and
docs/DUMP.md have more.
",
};

/// The object of a file that could not be read. No control character of its name is written as it is.
fn unread_object(alloc: Global, name: &str, error: &io::Error) -> Result<Vec<u8>, AllocError> {
    let mut text = Vec::new(alloc);
    let reason = format!(in alloc; "{error}")?;
    text.extend_from_slice(b"{\"fault\":\"read\",\"name\":")?;
    put_quoted(&mut text, Format::Json, name.as_bytes())?;
    text.extend_from_slice(b",\"error\":")?;
    put_quoted(&mut text, Format::Json, reason.as_bytes())?;
    text.extend_from_slice(b"}\n")?;
    Ok(text)
}

/// Writes that a file could not be read: a line on the standard error, or in JSON an object on the output.
fn tell_unread<K: Sink, E: Sink>(
    alloc: Global,
    streams: &mut Streams<K, E>,
    format: Format,
    name: &str,
    error: &io::Error,
) -> Result<(), AllocError> {
    match format {
        Format::Text => {
            let mut line = String::new(alloc);
            put_unread(&mut line, name, error)?;
            streams.report(alloc, line.as_bytes())
        }
        Format::Json => {
            let object = unread_object(alloc, name, error)?;
            let _ = put(&mut streams.output, &object);
            Ok(())
        }
    }
}

/// Writes that memory ran out for an input: a line on the standard error, or in JSON an object on the output. Returns `Failed`.
fn tell_memory<K: Sink, E: Sink>(streams: &mut Streams<K, E>, format: Format) -> Status {
    match format {
        Format::Text => out_of_memory(streams),
        Format::Json => {
            let _ = put(&mut streams.output, b"{\"fault\":\"memory\"}\n");
            Status::Failed
        }
    }
}

/// Shows the bytes of an input. Returns the status.
fn show_bytes<K: Sink, E: Sink>(
    rt: &HostRuntime,
    asked: &Asked,
    name: &str,
    bytes: &[u8],
    streams: &mut Streams<K, E>,
) -> Status {
    let output = &mut streams.output;
    let shown = match asked.task {
        Task::Records => dump_input(rt.alloc(), output, asked.mode, bytes),
        Task::Lines(subject) => {
            let listing = asked.listing(subject);
            list_input(rt.alloc(), output, listing, name.as_bytes(), bytes)
        }
    };
    match shown {
        Ok(true) => Status::Refused,
        Ok(false) => Status::Done,
        Err(DumpFault::Memory) => tell_memory(streams, asked.mode.style.format),
        Err(DumpFault::Write) => Status::Failed,
    }
}

/// What is written before one of several inputs: a line with its name; in JSON an object. No control character of it is written as it is.
fn title(alloc: Global, format: Format, name: &str) -> Result<Vec<u8>, AllocError> {
    match format {
        Format::Text => {
            let mut line = String::new(alloc);
            put_title(&mut line, name)?;
            Ok(line.into_bytes())
        }
        Format::Json => {
            let mut text = Vec::new(alloc);
            text.extend_from_slice(b"{\"file\":")?;
            put_quoted(&mut text, format, name.as_bytes())?;
            text.extend_from_slice(b"}\n")?;
            Ok(text)
        }
    }
}

/// Shows one input, after its title if it has one. A text has no title of an input that could not be read. Returns the status.
fn show_input<K: Sink, E: Sink>(
    rt: &HostRuntime,
    asked: &Asked,
    name: &str,
    is_titled: bool,
    streams: &mut Streams<K, E>,
) -> Status {
    let format = asked.mode.style.format;
    let input = read_input(rt, name);
    let mut status = Status::Done;
    if is_titled && (input.is_ok() || matches!(format, Format::Json)) {
        status = match title(rt.alloc(), format, name) {
            Ok(text) => put(&mut streams.output, &text),
            Err(AllocError) => Status::Failed,
        };
    }
    match input {
        Ok(bytes) => status.worst(show_bytes(rt, asked, name, &bytes, streams)),
        Err(error) => match tell_unread(rt.alloc(), streams, format, name, &error) {
            Ok(()) => Status::Failed,
            Err(AllocError) => tell_memory(streams, format),
        },
    }
}

/// Shows the inputs; the records of each after its name, if there are several. Returns the greatest status.
fn show_inputs<K: Sink, E: Sink>(
    rt: &HostRuntime,
    asked: &Asked,
    streams: &mut Streams<K, E>,
) -> Status {
    let names = asked.files.as_slice();
    if names.is_empty() {
        return show_input(rt, asked, "-", false, streams);
    }
    let is_titled = names.len() > 1 && matches!(asked.task, Task::Records);
    let mut status = Status::Done;
    let mut progress = Progress::new(rt);
    for (at, name) in names.iter().enumerate() {
        let _ = progress.show(rt, streams, at, names.len());
        status = show_input(rt, asked, name.as_str(), is_titled, streams).worst(status);
    }
    progress.end(streams);
    status
}

/// Does what the arguments ask for. Returns the status.
fn act<K: Sink, E: Sink>(
    rt: &HostRuntime,
    streams: &mut Streams<K, E>,
) -> Result<Status, AllocError> {
    let about = &ABOUT;
    let Some(words) = arguments(rt, about.usage)? else {
        return misused_by(rt, streams, about);
    };
    if let Some(question) = question_in(&words) {
        return explain(rt.alloc(), &mut streams.output, question, &ABOUT);
    }
    if let Some(asked) = read_arguments(rt.alloc(), words)? {
        let begun = match asked.task {
            Task::Records => Status::Done,
            Task::Lines(subject) => {
                put(&mut streams.output, header_line(asked.listing(subject)))
            }
        };
        return Ok(begun.worst(show_inputs(rt, &asked, streams)));
    }
    misused_by(rt, streams, &ABOUT)
}

/// Runs the program. Returns the exit status: 0 done, 1 an input is refused, 2 the arguments are not understood, 3 an input could not be read, the
/// output could not be written, or memory ran out.
pub fn run(rt: &HostRuntime) -> ExitCode {
    let mut streams = standard_streams(rt, &ABOUT);
    let status = match act(rt, &mut streams) {
        Ok(status) => status,
        Err(AllocError) => out_of_memory(&mut streams),
    };
    end(rt.alloc(), &mut streams, status)
}

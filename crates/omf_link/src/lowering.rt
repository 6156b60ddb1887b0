//! The task `omf-link lower`: modules with COMDATs, CEXTDEFs and BAKPATs as modules of this profile (`omf_lowering`).

ghost use Rattle.std.specs.Prelude.{◌≡◌};

use crate::about::ABOUT;
use crate::libraries::{GET, is_library, refuse_library};
use omf_drafting::asked::{Asked, sorted};
use omf_drafting::host::{read_or_tell, tell_fault, write_or_tell};
use omf_frame::Sink;
use omf_host::{OutputFile, RunFiles, Status, Streams, misused_by, object_files, refuse_clash};
use omf_lines::{FilesFault, file_front};
use omf_linking::LinkFault;
use omf_lowered::{FileFault, lowered_file};
use std::alloc::{AllocError, Global};

/// Whether arguments ask for this task.
pub(crate) fn is_asked(words: &[String]) -> bool {
    match words {
        [_program, task, ..] => task.as_str() == "lower",
        _ => false,
    }
}

/// The file that is read, and the one that is written.
#[derive(Clone, Copy)]
struct Names<'a> {
    input: &'a str,
    output: &'a str,
}

/// The names of the files, if the arguments name one input and have no option but `-o`.
fn names_of(asked: &Asked) -> Option<Names<'_>> {
    let has_others = asked.words.len() != 2 || asked.text.is_some();
    match (asked.files.as_slice(), &asked.output) {
        ([input], Some(output)) if !has_others => Some(Names {
            input: input.as_str(),
            output: output.as_str(),
        }),
        _ => None,
    }
}

/// The lowered modules as an output under a name.
fn lowered_bytes<'a>(out: &'a [u8], name: &'a str) -> OutputFile<'a>
    ensures name { result.name.now ≡ name.now }
    ensures bytes { result.bytes.now ≡ out.now }
{
    OutputFile { name, bytes: out }
}

/// A file's fault as the programs that read modules have it.
fn link_fault(fault: FileFault) -> LinkFault {
    match fault {
        FileFault::Memory => LinkFault::Memory,
        FileFault::Refused {
            module,
            reason,
            place,
        } => LinkFault::Refused {
            module,
            reason,
            place,
        },
        FileFault::NoModule(at) => LinkFault::NoText(at),
    }
}

/// Writes the line of a file's fault, with the file's name. Returns the status.
fn tell<K: Sink, E: Sink>(
    alloc: Global,
    fault: LinkFault,
    name: &str,
    streams: &mut Streams<K, E>,
) -> Result<Status, AllocError> {
    let front = file_front(alloc, name.as_bytes())?;
    tell_fault(alloc, streams, &FilesFault::File { fault, front })?;
    Ok(Status::Refused)
}

/// Writes the lowered modules of a file, or the line of its first fault. Returns the status.
fn write_lowered<K: Sink, E: Sink>(
    rt: &HostRuntime,
    bytes: &[u8],
    names: Names<'_>,
    streams: &mut Streams<K, E>,
) -> Result<Status, AllocError> {
    if is_library(bytes) {
        return refuse_library(rt.alloc(), names.input, GET, streams);
    }
    match lowered_file(rt.alloc(), bytes) {
        Ok(out) => write_or_tell(rt, lowered_bytes(&out, names.output), None, streams),
        Err(FileFault::Memory) => Err(AllocError),
        Err(fault) => tell(rt.alloc(), link_fault(fault), names.input, streams),
    }
}

/// Reads the file, and writes its lowered modules. Returns the status.
fn lower<K: Sink, E: Sink>(
    rt: &HostRuntime,
    names: Names<'_>,
    streams: &mut Streams<K, E>,
) -> Result<Status, AllocError> {
    match read_or_tell(rt, names.input, streams)? {
        Some(bytes) => write_lowered(rt, &bytes, names, streams),
        None => Ok(Status::Failed),
    }
}

/// The same, unless the output is the input. Returns the status.
fn on_names<'a, K: Sink, E: Sink>(
    rt: &HostRuntime,
    inputs: &'a [String],
    names: Names<'a>,
    streams: &mut Streams<K, E>,
) -> Result<Status, AllocError> {
    let files = RunFiles {
        inputs,
        text: None,
        output: names.output,
        second: None,
    };
    match refuse_clash(rt, streams, files)? {
        Some(status) => Ok(status),
        None => lower(rt, names, streams),
    }
}

/// Does what sorted arguments ask for. Returns the status.
fn on_asked<K: Sink, E: Sink>(
    rt: &HostRuntime,
    asked: &Asked,
    streams: &mut Streams<K, E>,
) -> Result<Status, AllocError> {
    match names_of(asked) {
        Some(names) => on_names(rt, &asked.files, names, streams),
        None => misused_by(rt, streams, &ABOUT),
    }
}

/// Does what arguments ask for. Returns the status.
pub(crate) fn on_words<K: Sink, E: Sink>(
    rt: &HostRuntime,
    words: &[String],
    streams: &mut Streams<K, E>,
) -> Result<Status, AllocError> {
    let Some(mut asked) = sorted(rt.alloc(), words, 2)? else {
        return misused_by(rt, streams, &ABOUT);
    };
    asked.files = object_files(rt, &asked.files)?;
    on_asked(rt, &asked, streams)
}

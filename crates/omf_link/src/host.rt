//! The program on the arguments, the files, the standard input, the standard output and the standard error of its process.

ghost use Rattle.std.specs.Prelude.{◌≡◌, [], IfOk, false, string_bytes, true};
ghost use Rattle.omf_host.specs.Streams.{IsTold};
ghost use Rattle.omf_host.specs.declared.ending.Status.TheVariants.{Refused};
ghost use Rattle.omf_records.specs.Inner.Seen.{map_ok};
ghost use Rattle.omf_linker.specs.Link.Files.{AreFilesShown};
ghost use Rattle.omf_linker.specs.Link.Folded.{AreFilesFolded};
ghost use Rattle.omf_linker.specs.Seen.Looks.{AreLookedFolded, AreLookedFrom, AreLookedIn};

use crate::about::ABOUT;
use crate::libraries::{JOIN, is_library, refuse_library};
use crate::mapping::{Kept, kept_files};
use crate::{exe, lowering};
use omf_cmd::Fault;
use omf_drafting::asked::{Asked, sorted};
use omf_drafting::host::{perform_on_input, read_or_tell, tell_fault};
use omf_frame::Sink;
use omf_host::{
    Progress, RunFiles, Status, Streams, end, explain, misused_by, object_files, out_of_memory,
    program_and_arguments, question_with_tasks, refuse_clash, standard_streams, warn,
};
use omf_lines::{FilesFault, ImageFault, TextFault};
use omf_linker::host::write_output_or_tell;
use omf_linker::link::{Link, Output, Task, case_in, task_of};
use omf_linker::seen::{
    Request, SeenText, files_folded, files_seen, input_folded, input_seen, is_looked_at,
};
use omf_linking::InputFile;
use omf_warnings::{Allowed, allowed_in};
use std::alloc::{AllocError, Global};
use std::mem;
use std::process::ExitCode;
use std::str::from_utf8;

/// Reads the files. None if one could not be read.
pub(crate) fn read_files<K: Sink, E: Sink>(
    rt: &HostRuntime,
    names: &[String],
    streams: &mut Streams<K, E>,
) -> Result<Option<Vec<InputFile>>, AllocError> {
    let mut files = Vec::new(rt.alloc());
    let mut progress = Progress::new(rt);
    for (at, name) in names.iter().enumerate() {
        progress.show(rt, streams, at, names.len())?;
        let Some(bytes) = read_or_tell(rt, name.as_str(), streams)? else {
            return Ok(None);
        };
        files.push(InputFile::new(name.clone()?, bytes))?;
    }
    progress.end(streams);
    Ok(Some(files))
}

/// Reads the link text; empty if none is named. None if it could not be read.
fn read_text<K: Sink, E: Sink>(
    rt: &HostRuntime,
    name: Option<&str>,
    streams: &mut Streams<K, E>,
) -> Result<Option<Vec<u8>>, AllocError> {
    match name {
        Some(name) => read_or_tell(rt, name, streams),
        None => Ok(Some(Vec::new(rt.alloc()))),
    }
}

/// Writes the output of a task to the file that is named, or to the standard output. Returns the status.
fn written<K: Sink, E: Sink>(
    rt: &HostRuntime,
    name: Option<&str>,
    shown: &Output,
    streams: &mut Streams<K, E>,
) -> Result<Status, AllocError> {
    match name {
        Some(name) => write_output_or_tell(rt, name, shown, streams),
        None => Ok(match shown.print(&mut streams.output) {
            Ok(()) => Status::Done,
            Err(_) => Status::Failed,
        }),
    }
}

/// How a task is done.
#[derive(Clone, Copy)]
struct Manner {
    /// The task.
    task: Task,
    /// What the link text may do.
    allowed: Allowed,
    /// Whether names are compared without case.
    ignores_case: bool,
}

impl Manner {
    /// What the task gives for files and a link text.
    fn seen(self, alloc: Global, files: Vec<InputFile>, text: &[u8]) -> Result<SeenText, FilesFault>
        ensures shown { self.ignores_case ≡ false → AreFilesShown self.task files.items text.now (map_ok (λ s. s.shown) result) }
        ensures folded { self.ignores_case ≡ true → AreFilesFolded self.task files.items text.now (map_ok (λ s. s.shown) result) }
        ensures looked { self.ignores_case ≡ false → IfOk result (λ s. IfOk s.looked (AreLookedFrom (AreLookedIn self.task self.allowed) files.items text.now)) }
        ensures looked_folded { self.ignores_case ≡ true → IfOk result (λ s. IfOk s.looked (AreLookedFrom (AreLookedFolded self.task self.allowed) files.items text.now)) }
    {
        let request = Request {
            task: self.task,
            text,
            allowed: self.allowed,
        };
        if self.ignores_case {
            files_folded(alloc, request, files)
        } else {
            files_seen(alloc, request, files)
        }
    }

    /// What the task gives for an input.
    fn seen_in(self, alloc: Global, input: Vec<u8>) -> Result<SeenText, ImageFault> {
        if self.ignores_case {
            input_folded(alloc, self.task, input, self.allowed)
        } else {
            input_seen(alloc, self.task, input, self.allowed)
        }
    }
}

/// The name of the first of the files that is a library.
fn first_library(files: &[InputFile]) -> Option<&str> {
    for file in files {
        if is_library(file.bytes()) {
            return from_utf8(file.name()).ok();
        }
    }
    None
}

/// Does a task for the files that are named and a text, and writes its output, or the line of its fault. Returns the status.
fn on_text<K: Sink, E: Sink>(
    rt: &HostRuntime,
    manner: Manner,
    asked: &Asked,
    text: &[u8],
    streams: &mut Streams<K, E>,
) -> Result<Status, AllocError> {
    match read_files(rt, asked.files.as_slice(), streams)? {
        Some(files) => match first_library(&files) {
            Some(name) => refuse_library(rt.alloc(), name, JOIN, streams),
            None => on_seen(rt, asked, manner.seen(rt.alloc(), files, text), streams),
        },
        None => Ok(Status::Failed),
    }
}

/// Does a task for the files and the text that are named. Returns the status.
fn on_named_files<K: Sink, E: Sink>(
    rt: &HostRuntime,
    manner: Manner,
    asked: &Asked,
    streams: &mut Streams<K, E>,
) -> Result<Status, AllocError> {
    let name = asked.text.as_ref().map(|name| name.as_str());
    match read_text(rt, name, streams)? {
        Some(text) => on_text(rt, manner, asked, &text, streams),
        None => Ok(Status::Failed),
    }
}

/// Does a task for the standard input, modules and a text after them, and writes its output, or the line of its fault. Returns the status.
fn on_input<K: Sink, E: Sink>(
    rt: &HostRuntime,
    manner: Manner,
    asked: &Asked,
    streams: &mut Streams<K, E>,
) -> Result<Status, AllocError> {
    let Some(input) = read_or_tell(rt, "-", streams)? else {
        return Ok(Status::Failed);
    };
    match manner.seen_in(rt.alloc(), input) {
        Ok(seen) => on_seen(rt, asked, Ok(seen), streams),
        Err(fault) => on_seen(rt, asked, Err(FilesFault::Link(fault)), streams),
    }
}

/// Writes the output of a task, after warnings on what its link text does unseen. If that is not allowed, it writes these lines alone. An output is
/// written also where memory runs out for the warnings. Returns the status.
fn written_or_told<K: Sink, E: Sink>(
    rt: &HostRuntime,
    name: Option<&str>,
    seen: &SeenText,
    streams: &mut Streams<K, E>,
) -> Result<Status, AllocError>
    ensures refused { IfOk result (λ status. IfOk seen.now.looked (λ lines. (string_bytes lines.faults ≡ [] → ⊥) → (status ≡ Refused) × IsTold streams.old.name.now (string_bytes lines.faults) (E.seen streams.old.errors) (E.seen streams.new.errors) × (streams.new.output ≡ streams.old.output))) }
{
    let Ok(lines) = &seen.looked else {
        return Err(AllocError);
    };
    if !lines.faults.is_empty() {
        streams.report(rt.alloc(), lines.faults.as_bytes())?;
        return Ok(Status::Refused);
    }
    let warned = warn(rt.alloc(), streams, lines.warnings.as_bytes());
    let status = written(rt, name, &seen.shown, streams)?;
    Ok(status.worst(warned))
}

/// Refuses an output that is an input or the text of the same run. Returns the status then.
fn refuse_output<K, E: Sink>(
    rt: &HostRuntime,
    asked: &Asked,
    streams: &mut Streams<K, E>,
) -> Result<Option<Status>, AllocError> {
    let Some(output) = &asked.output else {
        return Ok(None);
    };
    let text = if is_on_input(asked) {
        Some("-")
    } else {
        asked.text.as_ref().map(|name| name.as_str())
    };
    let files = RunFiles {
        inputs: &asked.files,
        text,
        output: output.as_str(),
        second: None,
    };
    refuse_clash(rt, streams, files)
}

/// Writes the line of a fault; of one in the link text with the name of the text's file, if there is one. Returns the status.
fn tell_files_fault<K, E: Sink>(
    alloc: Global,
    name: Option<&str>,
    fault: FilesFault,
    streams: &mut Streams<K, E>,
) -> Result<Status, AllocError> {
    let status = Status::of_code(fault.status());
    match name {
        Some(name) => {
            let fault = TextFault::new(alloc, name, fault)?;
            tell_fault(alloc, streams, &fault)?;
        }
        None => tell_fault(alloc, streams, &fault)?,
    }
    Ok(status)
}

/// The same files once more.
fn copies(alloc: Global, files: &[InputFile]) -> Result<Vec<InputFile>, AllocError> {
    let mut copies = Vec::new(alloc);
    for file in files {
        let mut bytes = Vec::new(alloc);
        bytes.extend_from_slice(file.bytes())?;
        let name = from_utf8(file.name()).unwrap_or("");
        copies.push(InputFile::new(String::from_str(alloc, name)?, bytes))?;
    }
    Ok(copies)
}

/// All that a link text may do is allowed, but for names that two publics have.
fn all_but_twice() -> Allowed {
    Allowed {
        overlap: true,
        align: true,
        group: true,
        frame: true,
        near: true,
        twice: false,
    }
}

/// Writes warnings on what the link text of a map does unseen, if it gives all places, so that there is a memory to look at. A map has lines of its
/// own for names that two publics have. Returns the status.
fn warn_of_map<K: Sink, E: Sink>(
    rt: &HostRuntime,
    manner: Manner,
    files: Vec<InputFile>,
    text: &[u8],
    streams: &mut Streams<K, E>,
) -> Result<Status, AllocError> {
    let looks = Manner {
        task: Task::Image,
        allowed: all_but_twice(),
        ignores_case: manner.ignores_case,
    };
    match looks.seen(rt.alloc(), files, text) {
        Ok(seen) => match &seen.looked {
            Ok(lines) => Ok(warn(rt.alloc(), streams, lines.warnings.as_bytes())),
            Err(AllocError) => Err(AllocError),
        },
        Err(fault) => match Status::of_code(fault.status()) {
            Status::Failed => Err(AllocError),
            Status::Done | Status::Refused | Status::Misused => Ok(Status::Done),
        },
    }
}

/// A link text, and the names of its file and of the output, if they have names.
#[derive(Clone, Copy)]
struct MapText<'a> {
    text: &'a [u8],
    name: Option<&'a str>,
    output: Option<&'a str>,
}

/// Writes a map with the lines of its modules. Returns the status.
fn write_map<K: Sink, E: Sink>(
    rt: &HostRuntime,
    kept: &Kept,
    map: &Output,
    output: Option<&str>,
    streams: &mut Streams<K, E>,
) -> Result<Status, AllocError> {
    let shown = kept.with_lines(rt.alloc(), map)?;
    written(rt, output, &shown, streams)
}

/// Writes the map of files, after warnings on what its link text does unseen. Returns the status.
fn on_kept<K: Sink, E: Sink>(
    rt: &HostRuntime,
    manner: Manner,
    kept: &mut Kept,
    of: MapText<'_>,
    streams: &mut Streams<K, E>,
) -> Result<Status, AllocError> {
    let files = mem::replace(&mut kept.files, Vec::new(rt.alloc()));
    let again = copies(rt.alloc(), &files)?;
    match manner.seen(rt.alloc(), files, of.text) {
        Ok(seen) => {
            let warned = warn_of_map(rt, manner, again, of.text, streams);
            let written = write_map(rt, kept, &seen.shown, of.output, streams);
            Ok(warned?.worst(written?))
        }
        Err(fault) => tell_files_fault(rt.alloc(), of.name, fault, streams),
    }
}

/// Writes the map of the files that are not refused. Returns the status.
fn on_map_text<K: Sink, E: Sink>(
    rt: &HostRuntime,
    manner: Manner,
    asked: &Asked,
    of: MapText<'_>,
    streams: &mut Streams<K, E>,
) -> Result<Status, AllocError> {
    let mut kept = kept_files(rt, asked.files.as_slice(), streams)?;
    let status = if kept.files.is_empty() {
        Ok(Status::Done)
    } else {
        on_kept(rt, manner, &mut kept, of, streams)
    };
    match status {
        Ok(status) => Ok(status.worst(kept.status)),
        Err(fault) => Err(fault),
    }
}

/// Writes the map of the files that are not refused, with the text that is named. Returns the status.
fn on_map<K: Sink, E: Sink>(
    rt: &HostRuntime,
    manner: Manner,
    asked: &Asked,
    streams: &mut Streams<K, E>,
) -> Result<Status, AllocError> {
    let name = asked.text.as_ref().map(|name| name.as_str());
    let output = asked.output.as_ref().map(|name| name.as_str());
    match read_text(rt, name, streams)? {
        Some(text) => {
            let of = MapText {
                text: &text,
                name,
                output,
            };
            on_map_text(rt, manner, asked, of, streams)
        }
        None => Ok(Status::Failed),
    }
}

/// Writes what a task gives, or the line of its fault. Returns the status.
fn on_seen<K: Sink, E: Sink>(
    rt: &HostRuntime,
    asked: &Asked,
    seen: Result<SeenText, FilesFault>,
    streams: &mut Streams<K, E>,
) -> Result<Status, AllocError> {
    match seen {
        Ok(seen) => {
            let name = asked.output.as_ref().map(|name| name.as_str());
            written_or_told(rt, name, &seen, streams)
        }
        Err(fault) => {
            let name = asked.text.as_ref().map(|name| name.as_str());
            tell_files_fault(rt.alloc(), name, fault, streams)
        }
    }
}

/// Does a task, and writes its output, or the line of its fault. Returns the status.
fn on_files<K: Sink, E: Sink>(
    rt: &HostRuntime,
    manner: Manner,
    asked: &Asked,
    streams: &mut Streams<K, E>,
) -> Result<Status, AllocError> {
    if let Some(status) = refuse_output(rt, asked, streams)? {
        return Ok(status);
    }
    if is_on_input(asked) {
        return on_input(rt, manner, asked, streams);
    }
    match manner.task {
        Task::Map => on_map(rt, manner, asked, streams),
        _ => on_named_files(rt, manner, asked, streams),
    }
}

/// Whether all is on the standard input, modules and a text after them.
fn is_on_input(asked: &Asked) -> bool {
    if asked.text.is_some() {
        return false;
    }
    match asked.files.as_slice() {
        [] => true,
        [name] => name.as_str() == "-",
        _ => false,
    }
}

/// Whether the task is a program for DOS or its modules: these have options of their own.
fn makes_program(words: &[String]) -> bool {
    match words {
        [_program, task, ..] => matches!(task.as_str(), "exe" | "com" | "join"),
        _ => false,
    }
}

/// Does a task that is no program for DOS, in this manner. Returns the status.
fn on_manner<K: Sink, E: Sink>(
    rt: &HostRuntime,
    asked: &Asked,
    manner: Manner,
    streams: &mut Streams<K, E>,
) -> Result<Status, AllocError> {
    let looks = is_looked_at(manner.task);
    let on_input_alone = is_on_input(asked);
    let has_no_text = matches!(manner.task, Task::Draft(_)) && asked.text.is_some();
    let has_no_file = !on_input_alone && asked.files.is_empty();
    if has_no_text || has_no_file || (manner.allowed.has_any() && !looks) {
        return misused_by(rt, streams, &ABOUT);
    }
    if on_input_alone && asked.output.is_none() && !looks && !manner.ignores_case {
        return perform_on_input::<Link, _, _>(rt, manner.task, streams);
    }
    on_files(rt, manner, asked, streams)
}

/// Writes that the arguments are not understood, unless memory ran out. Returns the status.
fn misused_unless_failed<K, E: Sink>(
    rt: &HostRuntime,
    task: Result<Option<Task>, AllocError>,
    streams: &mut Streams<K, E>,
) -> Result<Status, AllocError> {
    match task {
        Ok(_) => misused_by(rt, streams, &ABOUT),
        Err(AllocError) => Err(AllocError),
    }
}

/// Does a task that is no program for DOS. Returns the status.
fn on_task<K: Sink, E: Sink>(
    rt: &HostRuntime,
    asked: &Asked,
    allowed: Allowed,
    streams: &mut Streams<K, E>,
) -> Result<Status, AllocError> {
    let cased = case_in(rt.alloc(), asked.words.as_slice())?;
    let ignores_case = cased.ignores_case;
    match task_of(rt.alloc(), cased.words.as_slice()) {
        Ok(Some(task)) => {
            let manner = Manner {
                task,
                allowed,
                ignores_case,
            };
            on_manner(rt, asked, manner, streams)
        }
        task => misused_unless_failed(rt, task, streams),
    }
}

/// Does what arguments ask for, which have no option `--allow`. Returns the status.
fn on_words<K: Sink, E: Sink>(
    rt: &HostRuntime,
    words: &[String],
    allowed: Allowed,
    streams: &mut Streams<K, E>,
) -> Result<Status, AllocError> {
    let Some(mut asked) = sorted(rt.alloc(), words, 2)? else {
        return misused_by(rt, streams, &ABOUT);
    };
    asked.files = object_files(rt, &asked.files)?;
    on_task(rt, &asked, allowed, streams)
}

/// Does what arguments ask for that name no program for DOS. Returns the status.
fn with_allowed<K: Sink, E: Sink>(
    rt: &HostRuntime,
    words: &[String],
    streams: &mut Streams<K, E>,
) -> Result<Status, AllocError> {
    match allowed_in(rt.alloc(), words)? {
        Some((allowed, words)) => on_words(rt, &words, allowed, streams),
        None => misused_by(rt, streams, &ABOUT),
    }
}

/// Does what arguments ask for. Returns the status.
fn on_arguments<K: Sink, E: Sink>(
    rt: &HostRuntime,
    words: &[String],
    streams: &mut Streams<K, E>,
) -> Result<Status, AllocError> {
    if let Some(question) = question_with_tasks(words.get(1..).unwrap_or(&[])) {
        return explain(rt.alloc(), &mut streams.output, question, &ABOUT);
    }
    if makes_program(words) {
        return exe::on_words(rt, words, streams);
    }
    if lowering::is_asked(words) {
        return lowering::on_words(rt, words, streams);
    }
    with_allowed(rt, words, streams)
}

/// Does what the arguments ask for. Returns the status.
fn act<K: Sink, E: Sink>(
    rt: &HostRuntime,
    streams: &mut Streams<K, E>,
) -> Result<Status, AllocError> {
    let about = &ABOUT;
    match program_and_arguments(rt, about.usage)? {
        Some(words) => on_arguments(rt, &words, streams),
        None => misused_by(rt, streams, about),
    }
}

/// Runs the program. Returns the exit status: 0 done, 1 an input or its text is refused, has no room or does not fit, 2 the arguments are not
/// understood, 3 out of memory, or a file could not be read or written, or the output could not be written.
pub fn run(rt: &HostRuntime) -> ExitCode {
    let mut streams = standard_streams(rt, &ABOUT);
    let status = match act(rt, &mut streams) {
        Ok(status) => status,
        Err(AllocError) => out_of_memory(&mut streams),
    };
    end(rt.alloc(), &mut streams, status)
}

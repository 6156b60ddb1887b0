//! The program on the arguments, the files, the standard output and the standard error of its process.

ghost use Rattle.std.specs.Prelude.{◌≡◌, ℕ, List, IfOk, is_some, map, option_map, string_bytes, unwrap_or};
ghost use Rattle.std.specs.List.{AllZip};
ghost use Rattle.omf_find.specs.LinkText.{IsLinkIf};
ghost use Rattle.omf_find.specs.Parts.{IsHeldIf};
ghost use Rattle.omf_finding.specs.declared.findings.Findings.{Findings};
ghost use Rattle.omf_find.specs.declared.near.Nearly.{Nearly};
ghost use Rattle.omf_host.specs.Ending.{IsPut};
ghost use Rattle.omf_find.specs.Output.{IsOutput, near_of};
ghost use Rattle.omf_find.specs.Nearly.{AreNearlyIf};
ghost use Rattle.omf_symbols.specs.Tools.{usual_load};

use crate::asked::{Asked, Output, read_arguments};
use crate::fields::Format;
use crate::lines::{fault_line, fault_object, left_out_objects, note_line};
use crate::linktext::link_text;
use crate::loading::{LoadFault, Loaded, load};
use crate::near::{Nearly, Wanted, nearly_of};
use crate::parts::Parts;
use crate::reading::Gathered;
use crate::report::{Shown, map_text};
use crate::source::Source;
use crate::symbols::symbols_text;
use omf_finding::{FindOptions, Findings, find};
use omf_frame::Sink;
use omf_host::{
    About, OutputFile, Progress, RunFiles, Status, Streams, arguments, end, explain, misused_by,
    out_of_memory, put, put_unread, put_unwritten, question_in, read_input, refuse_clash,
    standard_streams, warn, write_outputs,
};
use omf_symbols::{Kind, Tool, usual_load};
use std::alloc::{AllocError, Global};
use std::io;
use std::mem::forget;
use std::process::ExitCode;

/// What the program shows of itself.
const ABOUT: About = About {
    name: "omf-find",
    colored_name: "\x1B[1;36momf-find\x1B[0m",
    usage: "usage: omf-find [--json] [--possible] [--near N] [--link TEXT] [--least N]
           [--base ADDRESS] [--frame SELECTOR ..]
           [--refuse-vendor-comments] PROGRAM FILE ..
       omf-find --symbols ghidra|ida|r2|nm [--load ADDRESS] [--link TEXT]
           [--least N] [--base ADDRESS] [--frame SELECTOR ..]
           [--refuse-vendor-comments] PROGRAM FILE ..
",
    details: "
Finds the modules of object files (.OBJ) and libraries (.LIB) in a DOS program
(.EXE, .COM) or in a raw image, and prints where their segments and names are.

  --symbols TOOL            only the names, as this tool imports them
  --load ADDRESS            add this to the addresses of symbols, in place of
                            10000 for ghidra and ida where they load an .EXE
  --json                    one object of JSON on each line
  --possible                also where a module may be, and why it is not sure
  --near N                  also segments of which at most N bytes differ, with
                            these bytes
  --link TEXT               write to the file TEXT with which text omf-link lays
                            what is found at its places
  --least N                 take a segment by its bytes alone from N bytes on,
                            in place of 16
  --base ADDRESS            the program is a raw image from this address on
  --frame SELECTOR          a segment register of a raw image has this value;
                            without it, that of its first byte
  --refuse-vendor-comments  refuse comments of the classes C0H to FFH

Addresses and selectors are hexadecimal: 1000, 0x1000 and 1000H are one. @FILE
is the words of a file, and -- ends the options. omf-find(1) and docs/FIND.md
have more.
",
};

/// The line for a file that could not be read, or in JSON the object.
fn unread(
    alloc: Global,
    format: Format,
    name: &str,
    error: &io::Error,
) -> Result<Vec<u8>, AllocError> {
    match format {
        Format::Text => {
            let mut line = String::new(alloc);
            put_unread(&mut line, name, error)?;
            Ok(line.into_bytes())
        }
        Format::Json => {
            let reason = format!(in alloc; "{error}")?;
            fault_object(alloc, "read", name, reason.as_str())
        }
    }
}

/// Why nothing is searched: the line or the object to write, and the status.
#[derive(Drop)]
struct Refusal {
    line: Vec<u8>,
    status: Status,
}

/// The bytes of a file; or why it could not be read.
fn bytes_of(
    rt: &HostRuntime,
    format: Format,
    name: &str,
) -> Result<Result<Vec<u8>, Refusal>, AllocError> {
    match read_input(rt, name) {
        Ok(bytes) => Ok(Ok(bytes)),
        Err(error) => Ok(Err(Refusal {
            line: unread(rt.alloc(), format, name, &error)?,
            status: Status::Failed,
        })),
    }
}

/// The selectors of a raw image: those that are given, or else that of its first byte.
fn selectors_of(asked: &Asked) -> Result<Vec<u16>, AllocError> {
    let mut selectors = asked.selectors.clone()?;
    if let Some(base) = asked.base
        && selectors.is_empty()
        && let Ok(selector) = u16::try_from(base / 16)
    {
        selectors.push(selector)?;
    }
    Ok(selectors)
}

/// The program; or why it is not searched.
fn program_of(
    rt: &HostRuntime,
    asked: &Asked,
    name: &str,
) -> Result<Result<Loaded, Refusal>, AllocError> {
    let format = asked.format();
    let file = match bytes_of(rt, format, name)? {
        Ok(file) => file,
        Err(refusal) => return Ok(Err(refusal)),
    };
    let selectors = selectors_of(asked)?;
    match load(rt.alloc(), asked.base, selectors, name, file) {
        Ok(loaded) => Ok(Ok(loaded)),
        Err(LoadFault::Memory) => Err(AllocError),
        Err(fault) => Ok(Err(Refusal {
            line: fault_line(rt.alloc(), format, name, fault)?,
            status: Status::Refused,
        })),
    }
}

/// The modules of the files; or why one of these could not be read.
fn modules_of<K: Sink, E: Sink>(
    rt: &HostRuntime,
    streams: &mut Streams<K, E>,
    asked: &Asked,
    files: &[String],
) -> Result<Result<Gathered, Refusal>, AllocError> {
    let mut gathered = Gathered::new(rt.alloc());
    let mut progress = Progress::new(rt);
    for (number, name) in files.iter().enumerate() {
        progress.show(rt, streams, number, files.len())?;
        match bytes_of(rt, asked.format(), name.as_str())? {
            Ok(bytes) => gathered.take_file(asked.profile, number, name.as_str(), &bytes)?,
            Err(refusal) => return Ok(Err(refusal)),
        }
    }
    progress.end(streams);
    Ok(Ok(gathered))
}

/// What is added to the addresses of symbols.
fn load_of(asked: Option<u32>, tool: Tool, kind: Kind) -> u32
    ensures { result ≡ unwrap_or asked (usual_load tool kind) }
{
    match asked {
        Some(load) => load,
        None => usual_load(tool, kind),
    }
}

/// The number of bytes that may differ of a segment that is shown as near; None if none is shown, as in symbols.
fn near_of(output: Output, near: Option<usize>) -> Option<usize>
    ensures { result ≡ near_of output near }
{
    match output {
        Output::Text => near,
        Output::Json => near,
        Output::Symbols(_) => None,
    }
}

/// The segments that are nearly in the program, if these are asked for.
fn nearly(
    alloc: Global,
    asked: &Asked,
    loaded: &Loaded,
    source: Source<'_>,
    findings: &Findings,
) -> Result<Vec<Nearly>, AllocError>
    ensures { IfOk result (λ v. AreNearlyIf (near_of asked.now.output asked.now.near) asked.now.least loaded.now.program source.entry.gathered.now.modules.items v.items) }
{
    let least = asked.least;
    match near_of(asked.output, asked.near) {
        Some(most) => nearly_of(
            alloc,
            source.modules(),
            &loaded.program,
            &findings.verdicts,
            Wanted { most, least },
        ),
        None => Ok(Vec::new(alloc)),
    }
}

/// What is written of findings, with these segments that are near.
fn shown_text(
    alloc: Global,
    asked: &Asked,
    kind: Kind,
    source: Source<'_>,
    shown: Shown<'_>,
) -> Result<Vec<u8>, AllocError>
    ensures { IfOk result (λ text. IsOutput asked.now.output asked.now.load kind (map string_bytes source.entry.files.now) source.entry.gathered.now shown.entry.findings.now.verdicts.items shown.entry.nearly.now text.items) }
{
    match asked.output {
        Output::Text => map_text(alloc, Format::Text, source, shown),
        Output::Json => map_text(alloc, Format::Json, source, shown),
        Output::Symbols(tool) => {
            let load = load_of(asked.load, tool, kind);
            symbols_text(alloc, tool, load, source, shown.findings)
        }
    }
}

/// What is written of findings.
fn text_of(
    alloc: Global,
    asked: &Asked,
    loaded: &Loaded,
    source: Source<'_>,
    findings: &Findings,
) -> Result<Vec<u8>, AllocError>
    ensures { IfOk result (λ text. (ys : List Nearly) × AreNearlyIf (near_of asked.now.output asked.now.near) asked.now.least loaded.now.program source.entry.gathered.now.modules.items ys × IsOutput asked.now.output asked.now.load loaded.now.kind (map string_bytes source.entry.files.now) source.entry.gathered.now findings.now.verdicts.items ys text.items) }
{
    let nearly = nearly(alloc, asked, loaded, source, findings)?;
    let shown = Shown {
        program: &loaded.program,
        findings,
        shows_possible: asked.shows_possible,
        nearly: &nearly,
    };
    let text = shown_text(alloc, asked, loaded.kind, source, shown)?;
    Ok(text)
}

/// The link text of findings, if one is asked for.
fn link_of(
    alloc: Global,
    asked: &Asked,
    loaded: &Loaded,
    source: Source<'_>,
    findings: &Findings,
) -> Result<Option<Vec<u8>>, AllocError>
    requires { AllZip (IsHeldIf loaded.now.program) source.gathered.now.modules.items findings.now.verdicts.items }
    ensures { IfOk result (λ t. IsLinkIf (is_some asked.now.link) loaded.now.program (map string_bytes source.entry.files.now) source.entry.gathered.now findings.now.verdicts.items (option_map (λ v. v.items) t)) }
{
    if asked.link.is_none() {
        return Ok(None);
    }
    let parts = Parts::of(alloc, source.modules(), &loaded.program, findings)?;
    let text = link_text(alloc, source, &parts)?;
    Ok(Some(text))
}

/// What a search gives.
#[derive(Drop)]
struct Searched {
    /// The status of what is written.
    status: Status,
    /// The link text, if one is asked for.
    link: Option<Vec<u8>>,
}

/// Writes what a search finds.
fn search<K: Sink>(
    alloc: Global,
    writer: &mut K,
    asked: &Asked,
    loaded: &Loaded,
    source: Source<'_>,
) -> Result<Searched, AllocError>
    ensures { IfOk result (λ s. (f : Findings) × (ys : List Nearly) × (text : List ℕ) × AreNearlyIf (near_of asked.now.output asked.now.near) asked.now.least loaded.now.program source.entry.gathered.now.modules.items ys × IsOutput asked.now.output asked.now.load loaded.now.kind (map string_bytes source.entry.files.now) source.entry.gathered.now f.verdicts.items ys text × IsPut (K.seen writer.old) (K.seen writer.new) text s.status × IsLinkIf (is_some asked.now.link) loaded.now.program (map string_bytes source.entry.files.now) source.entry.gathered.now f.verdicts.items (option_map (λ v. v.items) s.link)) }
{
    let options = FindOptions {
        least: asked.least,
        most: 16,
    };
    let findings = find(alloc, source.modules(), &loaded.program, &options)?;
    let text = text_of(alloc, asked, loaded, source, &findings)?;
    let link = link_of(alloc, asked, loaded, source, &findings)?;
    let status = put(writer, &text);
    // The program ends soon: what was found is not freed one by one.
    forget(findings);
    Ok(Searched { status, link })
}

/// Writes that a file could not be written: a line on the standard error, or in JSON an object on the output. Returns `Failed`.
fn tell_unwritten<K: Sink, E: Sink>(
    alloc: Global,
    streams: &mut Streams<K, E>,
    format: Format,
    name: &str,
    error: &io::Error,
) -> Result<Status, AllocError> {
    match format {
        Format::Text => {
            let mut line = String::new(alloc);
            put_unwritten(&mut line, name, error)?;
            streams.report(alloc, line.as_bytes())?;
        }
        Format::Json => {
            let reason = format!(in alloc; "{error}")?;
            let object = fault_object(alloc, "write", name, reason.as_str())?;
            let _ = put(&mut streams.output, &object);
        }
    }
    Ok(Status::Failed)
}

/// Writes a link text to its file, if there is one. Returns the status.
fn write_link<K: Sink, E: Sink>(
    rt: &HostRuntime,
    streams: &mut Streams<K, E>,
    asked: &Asked,
    text: Option<&Vec<u8>>,
) -> Result<Status, AllocError> {
    let (Some(name), Some(bytes)) = (&asked.link, text) else {
        return Ok(Status::Done);
    };
    let file = OutputFile {
        name: name.as_str(),
        bytes,
    };
    match write_outputs(rt, &mut streams.output, file, None)? {
        None => Ok(Status::Done),
        Some(unwritten) => {
            let format = asked.format();
            tell_unwritten(
                rt.alloc(),
                streams,
                format,
                unwritten.name,
                &unwritten.error,
            )
        }
    }
}

/// Refuses a file for a link text that is an input of the run. Returns the status then.
fn refuse_link<K: Sink, E: Sink>(
    rt: &HostRuntime,
    streams: &mut Streams<K, E>,
    asked: &Asked,
) -> Result<Option<Status>, AllocError> {
    let Some(name) = &asked.link else {
        return Ok(None);
    };
    let files = RunFiles {
        inputs: &asked.files,
        text: None,
        output: name.as_str(),
        second: None,
    };
    refuse_clash(rt, streams, files)
}

/// Writes lines of warnings on the standard error, or objects on the output. Returns the status.
fn tell<K: Sink, E: Sink>(
    alloc: Global,
    streams: &mut Streams<K, E>,
    format: Format,
    text: &[u8],
) -> Status {
    match format {
        Format::Text => warn(alloc, streams, text),
        Format::Json => put(&mut streams.output, text),
    }
}

/// Writes the note on a program that is packed. Returns the status.
fn note_packer<K: Sink, E: Sink>(
    alloc: Global,
    streams: &mut Streams<K, E>,
    format: Format,
    name: &str,
    loaded: &Loaded,
) -> Result<Status, AllocError> {
    let Some(packer) = loaded.packer else {
        return Ok(Status::Done);
    };
    let text = note_line(alloc, format, name, packer)?;
    Ok(tell(alloc, streams, format, &text))
}

/// Writes what is left out of the files. Returns the status.
fn note_left_out<K: Sink, E: Sink>(
    alloc: Global,
    streams: &mut Streams<K, E>,
    format: Format,
    lines: &str,
) -> Result<Status, AllocError> {
    if lines.is_empty() {
        return Ok(Status::Done);
    }
    let told = match format {
        Format::Text => tell(alloc, streams, format, lines.as_bytes()),
        Format::Json => {
            let objects = left_out_objects(alloc, lines)?;
            tell(alloc, streams, format, &objects)
        }
    };
    Ok(told.worst(Status::Refused))
}

/// Writes why nothing is searched. Returns the status.
fn refuse<K: Sink, E: Sink>(
    alloc: Global,
    streams: &mut Streams<K, E>,
    format: Format,
    refusal: &Refusal,
) -> Status {
    refusal
        .status
        .worst(tell(alloc, streams, format, &refusal.line))
}

/// Searches a program for the modules of files. Returns the status.
fn act_on<K: Sink, E: Sink>(
    rt: &HostRuntime,
    streams: &mut Streams<K, E>,
    asked: &Asked,
    name: &str,
    files: &[String],
) -> Result<Status, AllocError> {
    let format = asked.format();
    if let Some(status) = refuse_link(rt, streams, asked)? {
        return Ok(status);
    }
    let loaded = match program_of(rt, asked, name)? {
        Ok(loaded) => loaded,
        Err(refusal) => return Ok(refuse(rt.alloc(), streams, format, &refusal)),
    };
    let gathered = match modules_of(rt, streams, asked, files)? {
        Ok(gathered) => gathered,
        Err(refusal) => return Ok(refuse(rt.alloc(), streams, format, &refusal)),
    };
    let noted = note_packer(rt.alloc(), streams, format, name, &loaded)?;
    let left_out = gathered.left_out.as_str();
    let noted = note_left_out(rt.alloc(), streams, format, left_out)?.worst(noted);
    let source = Source {
        files,
        gathered: &gathered,
    };
    let searched = search(rt.alloc(), &mut streams.output, asked, &loaded, source)?;
    let linked = write_link(rt, streams, asked, searched.link.as_ref())?;
    // The program ends: its modules are not freed one by one.
    forget(gathered);
    Ok(searched.status.worst(linked).worst(noted))
}

/// Writes that memory ran out: a line on the standard error, or in JSON an object on the output. Returns `Failed`.
fn tell_memory<K: Sink, E: Sink>(streams: &mut Streams<K, E>, format: Format) -> Status {
    match format {
        Format::Text => out_of_memory(streams),
        Format::Json => {
            let _ = put(&mut streams.output, b"{\"fault\":\"memory\"}\n");
            Status::Failed
        }
    }
}

/// Does what the arguments ask for. Returns the status.
fn act<K: Sink, E: Sink>(
    rt: &HostRuntime,
    streams: &mut Streams<K, E>,
) -> Result<Status, AllocError> {
    let about = &ABOUT;
    let Some(words) = arguments(rt, about.usage)? else {
        return misused_by(rt, streams, about);
    };
    if let Some(question) = question_in(&words) {
        return explain(rt.alloc(), &mut streams.output, question, &ABOUT);
    }
    let Some(asked) = read_arguments(rt.alloc(), words)? else {
        return misused_by(rt, streams, &ABOUT);
    };
    match asked.files.as_slice() {
        [] | [_] => misused_by(rt, streams, &ABOUT),
        [program, files @ ..] => match act_on(rt, streams, &asked, program.as_str(), files) {
            Ok(status) => Ok(status),
            Err(AllocError) => Ok(tell_memory(streams, asked.format())),
        },
    }
}

/// Runs the program. Returns the exit status: 0 done, 1 the program or a part of a file is refused, 2 the arguments are not understood, 3 a file
/// could not be read, the output could not be written, or memory ran out.
pub fn run(rt: &HostRuntime) -> ExitCode {
    let mut streams = standard_streams(rt, &ABOUT);
    let status = match act(rt, &mut streams) {
        Ok(status) => status,
        Err(AllocError) => out_of_memory(&mut streams),
    };
    end(rt.alloc(), &mut streams, status)
}

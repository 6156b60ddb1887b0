//! The tasks `omf-link exe` and `omf-link com`, a DOS program of modules and libraries, and `omf-link join`, its modules in one file.

ghost use Rattle.std.specs.Prelude.{◌≡◌, IfSome, Some, is_some, option_map, true};

use crate::about::ABOUT;
use crate::folders::Folders;
use crate::libraries::{Search, Sources};
use crate::missing::{Missing, lines_of};
use omf_drafting::asked::{Asked, sorted};
use omf_drafting::host::{write_or_tell, write_three_or_tell};
use omf_exe::host::tell_refusal;
use omf_exe::{Call, ExeOptions, Leftovers, MadeProgram, Product, ProgramFiles, Refusal, call_of};
use omf_frame::Sink;
use omf_host::{OutputFile, RunFiles, Status, Streams, misused_by, refuse_clash, warn};
use std::alloc::AllocError;

/// The warning of a program without a stack.
const NO_STACK: &str = "no stack: SS:SP is 0:0 from the load address\n";

/// The line of files that give no module: a file without a module is no input of another task.
const NO_MODULE: &str = "no module: of a library only members that a module needs are taken\n";

/// Writes why there is no program; and, if a name is not defined, the libraries that were not found. Returns the status.
fn refuse<K, E: Sink>(
    rt: &HostRuntime,
    refusal: &Refusal,
    missing: &[Missing],
    streams: &mut Streams<K, E>,
) -> Result<Status, AllocError> {
    let status = tell_refusal(rt.alloc(), streams, refusal)?;
    if let Refusal::Undefined(_) = refusal {
        let lines = lines_of(rt.alloc(), missing)?;
        streams.report(rt.alloc(), lines.as_bytes())?;
    }
    Ok(status)
}

/// What is made of modules with these options, and where it is written.
#[derive(Clone, Copy)]
struct Job<'a, 'b> {
    product: Product,
    options: &'a ExeOptions<'b>,
    output: Output<'a>,
}

/// The names of the files of a program, its map and its symbols.
#[derive(Clone, Copy)]
struct Output<'a> {
    name: &'a str,
    map: Option<&'a str>,
    symbols: Option<&'a str>,
}

/// The program as an output.
fn program_file<'a>(made: &'a MadeProgram, name: &'a str) -> OutputFile<'a>
    ensures name { result.name.now ≡ name.now }
    ensures bytes { result.bytes.now ≡ made.entry.now.bytes.items }
{
    OutputFile {
        name,
        bytes: &made.bytes,
    }
}

/// The map as an output under a name, if it is made.
fn map_file<'a>(made: &'a MadeProgram, name: Option<&'a str>) -> Option<OutputFile<'a>>
    ensures name { IfSome result (λ f. option_map (λ n. n.now) name.entry ≡ Some f.name.now) }
    ensures bytes { is_some name.entry ≡ true → option_map (λ f. f.bytes.now) result ≡ option_map (λ m. m.items) made.entry.now.map }
{
    match name {
        Some(name) => match &made.map {
            Some(map) => Some(OutputFile { name, bytes: map }),
            None => None,
        },
        None => None,
    }
}

/// The symbols as an output under a name, if they are made.
fn symbols_file<'a>(made: &'a MadeProgram, name: Option<&'a str>) -> Option<OutputFile<'a>>
    ensures name { IfSome result (λ f. option_map (λ n. n.now) name.entry ≡ Some f.name.now) }
    ensures bytes { is_some name.entry ≡ true → option_map (λ f. f.bytes.now) result ≡ option_map (λ m. m.items) made.entry.now.symbols }
{
    match name {
        Some(name) => match &made.symbols {
            Some(symbols) => Some(OutputFile {
                name,
                bytes: symbols,
            }),
            None => None,
        },
        None => None,
    }
}

/// Writes a program, and its map and its symbols, if these are asked for: all, or mostly none. Returns `Done`; or `Failed`, after a line on why, if one
/// could not be written.
fn write_files<K: Sink, E: Sink>(
    rt: &HostRuntime,
    made: &MadeProgram,
    output: Output<'_>,
    streams: &mut Streams<K, E>,
) -> Result<Status, AllocError> {
    let program = program_file(made, output.name);
    let Some(symbols) = symbols_file(made, output.symbols) else {
        return write_or_tell(rt, program, map_file(made, output.map), streams);
    };
    match map_file(made, output.map) {
        Some(map) => write_three_or_tell(rt, program, map, symbols, streams),
        None => write_or_tell(rt, program, Some(symbols), streams),
    }
}

/// Writes the warnings of a program. Returns `Done`; or `Failed`, if memory runs out for them.
fn warn_of<K, E: Sink>(
    rt: &HostRuntime,
    made: &MadeProgram,
    streams: &mut Streams<K, E>,
) -> Status {
    let mut status = Status::Done;
    for lines in [
        &made.repeated,
        &made.mixed,
        &made.long,
        &made.near,
        &made.stack,
    ] {
        if let Some(lines) = lines {
            let warned = warn(rt.alloc(), streams, lines.as_bytes());
            status = status.worst(warned);
        }
    }
    if made.lacks_stack {
        let warned = warn(rt.alloc(), streams, NO_STACK.as_bytes());
        status = status.worst(warned);
    }
    status
}

/// Writes a program with what else is asked for, and then its warnings. Returns the status.
fn write_program<K: Sink, E: Sink>(
    rt: &HostRuntime,
    made: &MadeProgram,
    output: Output<'_>,
    streams: &mut Streams<K, E>,
) -> Result<Status, AllocError> {
    let status = write_files(rt, made, output, streams)?;
    if status != Status::Done {
        return Ok(status);
    }
    Ok(warn_of(rt, made, streams))
}

/// The modules of a program as an output under a name.
fn joined_file<'a>(bytes: &'a [u8], name: &'a str) -> OutputFile<'a>
    ensures name { result.name.now ≡ name.now }
    ensures bytes { result.bytes.now ≡ bytes.now }
{
    OutputFile { name, bytes }
}

/// Writes the modules of a program to a file, and then, as warnings, the libraries that were not found; nothing if there is no module. Returns the status.
fn write_joined<K: Sink, E: Sink>(
    rt: &HostRuntime,
    bytes: &[u8],
    name: &str,
    missing: &[Missing],
    streams: &mut Streams<K, E>,
) -> Result<Status, AllocError> {
    if bytes.is_empty() {
        streams.report(rt.alloc(), NO_MODULE.as_bytes())?;
        return Ok(Status::Refused);
    }
    let lines = lines_of(rt.alloc(), missing)?;
    let status = write_or_tell(rt, joined_file(bytes, name), None, streams)?;
    if status != Status::Done {
        return Ok(status);
    }
    Ok(warn(rt.alloc(), streams, lines.as_bytes()))
}

/// Makes a program of the modules of files, and writes it. Nothing is written if it has a fault. Returns the status.
fn make_program<K: Sink, E: Sink>(
    rt: &HostRuntime,
    program: ProgramFiles,
    job: Job<'_, '_>,
    missing: &[Missing],
    streams: &mut Streams<K, E>,
) -> Result<Status, AllocError> {
    match program.make(rt.alloc(), job.options, Leftovers::Left) {
        Ok(made) => write_program(rt, &made, job.output, streams),
        Err(refusal) => refuse(rt, &refusal, missing, streams),
    }
}

/// Writes the modules of files in one file. Nothing is written if they have a fault. Returns the status.
fn join_modules<K: Sink, E: Sink>(
    rt: &HostRuntime,
    program: ProgramFiles,
    job: Job<'_, '_>,
    missing: &[Missing],
    streams: &mut Streams<K, E>,
) -> Result<Status, AllocError> {
    match program.join(rt.alloc(), job.options) {
        Ok(bytes) => write_joined(rt, &bytes, job.output.name, missing, streams),
        Err(refusal) => refuse(rt, &refusal, missing, streams),
    }
}

/// Makes what is asked for of the modules of files, and writes it. Nothing is written if it has a fault. Returns the status.
fn on_program<K: Sink, E: Sink>(
    rt: &HostRuntime,
    program: ProgramFiles,
    job: Job<'_, '_>,
    missing: &[Missing],
    streams: &mut Streams<K, E>,
) -> Result<Status, AllocError> {
    match job.product {
        Product::Program(_) => make_program(rt, program, job, missing, streams),
        Product::Modules => join_modules(rt, program, job, missing, streams),
    }
}

/// Refuses one or two outputs that are one of these inputs, or one another. Returns the status then.
fn refuse_two<'a, K, E: Sink>(
    rt: &HostRuntime,
    inputs: &'a [String],
    output: &'a str,
    second: Option<&'a str>,
    streams: &mut Streams<K, E>,
) -> Result<Option<Status>, AllocError> {
    let files = RunFiles {
        inputs,
        text: None,
        output,
        second,
    };
    refuse_clash(rt, streams, files)
}

/// Refuses outputs that are one of these inputs, or one another. Returns the status then.
fn refuse_outputs<'a, K, E: Sink>(
    rt: &HostRuntime,
    inputs: &'a [String],
    output: Output<'a>,
    streams: &mut Streams<K, E>,
) -> Result<Option<Status>, AllocError> {
    if let Some(status) = refuse_two(rt, inputs, output.name, output.map, streams)? {
        return Ok(Some(status));
    }
    let Some(symbols) = output.symbols else {
        return Ok(None);
    };
    if let Some(status) = refuse_two(rt, inputs, output.name, Some(symbols), streams)? {
        return Ok(Some(status));
    }
    match output.map {
        Some(map) => refuse_two(rt, inputs, map, Some(symbols), streams),
        None => Ok(None),
    }
}

/// The same, or writes why there are no modules. Returns the status.
fn on_joined<K: Sink, E: Sink>(
    rt: &HostRuntime,
    program: Result<ProgramFiles, Refusal>,
    job: Job<'_, '_>,
    missing: &[Missing],
    streams: &mut Streams<K, E>,
) -> Result<Status, AllocError> {
    match program {
        Ok(program) => on_program(rt, program, job, missing, streams),
        Err(refusal) => refuse(rt, &refusal, missing, streams),
    }
}

/// The status of outputs that are refused, or memory.
fn status_of(clash: Result<Option<Status>, AllocError>) -> Result<Status, AllocError> {
    match clash {
        Ok(Some(status)) => Ok(status),
        Ok(None) => Ok(Status::Done),
        Err(AllocError) => Err(AllocError),
    }
}

/// Makes what is asked for of the modules of files and of the libraries that they ask for, unless an output is one of these. Returns the status.
fn on_sources<K: Sink, E: Sink>(
    rt: &HostRuntime,
    sources: &mut Sources<'_>,
    search: Search<'_, '_>,
    job: Job<'_, '_>,
    streams: &mut Streams<K, E>,
) -> Result<Status, AllocError> {
    let program = sources.joined(rt, search)?;
    match refuse_outputs(rt, &sources.libraries, job.output, streams) {
        Ok(None) => on_joined(rt, program, job, &sources.missing, streams),
        clash => status_of(clash),
    }
}

/// Reads files and the libraries that their modules ask for, makes what is asked for, and writes it. Returns the status.
fn on_files<K: Sink, E: Sink>(
    rt: &HostRuntime,
    files: &[String],
    search: Search<'_, '_>,
    job: Job<'_, '_>,
    streams: &mut Streams<K, E>,
) -> Result<Status, AllocError> {
    if let Some(status) = refuse_outputs(rt, files, job.output, streams)? {
        return Ok(status);
    }
    match Sources::read(rt, files, streams)? {
        Some(mut sources) => on_sources(rt, &mut sources, search, job, streams),
        None => Ok(Status::Failed),
    }
}

/// Finds the files that arguments name, and does what is asked for. Returns the status.
fn with_search<K: Sink, E: Sink>(
    rt: &HostRuntime,
    asked: &Asked,
    search: Search<'_, '_>,
    job: Job<'_, '_>,
    streams: &mut Streams<K, E>,
) -> Result<Status, AllocError> {
    let files = search.folders.files(rt, &asked.files)?;
    on_files(rt, &files, search, job, streams)
}

/// Does what is asked for with these options. Returns the status.
fn with_options<K: Sink, E: Sink>(
    rt: &HostRuntime,
    asked: &Asked,
    job: Job<'_, '_>,
    streams: &mut Streams<K, E>,
) -> Result<Status, AllocError> {
    let folders = Folders::of(rt, job.options)?;
    let search = Search {
        options: job.options,
        folders: &folders,
    };
    with_search(rt, asked, search, job, streams)
}

/// The options that arguments give for what is made; none if they are not understood, or if a file of modules does not have them.
fn options_of<'a>(
    rt: &HostRuntime,
    product: Product,
    asked: &'a Asked,
) -> Result<Option<ExeOptions<'a>>, AllocError> {
    let arguments = asked.words.get(2..).unwrap_or(&[]);
    let Some(options) = ExeOptions::of(rt.alloc(), product.kind(), arguments)? else {
        return Ok(None);
    };
    match product {
        Product::Modules if !options.is_of_modules() => Ok(None),
        Product::Modules | Product::Program(_) => Ok(Some(options)),
    }
}

/// What is made under a name with these options.
fn job_of<'a, 'b>(product: Product, name: &'a str, options: &'a ExeOptions<'b>) -> Job<'a, 'b> {
    let output = Output {
        name,
        map: options.map,
        symbols: options.symbols.map(|symbols| symbols.name),
    };
    Job {
        product,
        options,
        output,
    }
}

/// Makes this product under a name. Returns the status.
fn make<K: Sink, E: Sink>(
    rt: &HostRuntime,
    asked: &Asked,
    product: Product,
    name: &str,
    streams: &mut Streams<K, E>,
) -> Result<Status, AllocError> {
    match options_of(rt, product, asked)? {
        Some(options) => with_options(rt, asked, job_of(product, name, &options), streams),
        None => misused_by(rt, streams, &ABOUT),
    }
}

/// Does what arguments ask for, whose task is `exe`, `com` or `join`. Returns the status.
pub fn on_words<K: Sink, E: Sink>(
    rt: &HostRuntime,
    words: &[String],
    streams: &mut Streams<K, E>,
) -> Result<Status, AllocError> {
    let Some(asked) = sorted(rt.alloc(), words, 2)? else {
        return misused_by(rt, streams, &ABOUT);
    };
    match call_of(&asked) {
        Call::Make(product, name) => make(rt, &asked, product, name, streams),
        Call::Other | Call::Misused => misused_by(rt, streams, &ABOUT),
    }
}

//! The program on the arguments, the file, the standard input, the standard output and the standard error of its process.

use omf_drafting::asked::{Asked, sorted};
use omf_drafting::host::{perform, perform_on_input, read_or_tell};
use omf_drafting::options::AskedOptions;
use omf_drafting::place::{Place, options_of};
use omf_frame::{Bytes, Sink};
use omf_host::{
    About, Status, Streams, end, explain, misused_by, object_file, out_of_memory,
    program_and_arguments, question_in, standard_streams,
};
use std::alloc::AllocError;
use std::process::ExitCode;

/// What the program shows of itself.
const ABOUT: About = About {
    name: "omf-place",
    colored_name: "\x1B[1;36momf-place\x1B[0m",
    usage: "usage: omf-place [--base ADDRESS] [--real | --flat SELECTOR] [FILE]\n",
    details: "
Drafts a placement for an object module (.OBJ): the text with addresses that omf
reloc reads after the module. Without a file, or where it is -, it reads the
standard input.

  --base ADDRESS   the address of the first segment, hexadecimal (default 10000)
  --real           addresses for real mode; the default for a module without
                   32-bit segments
  --flat SELECTOR  one frame with base 0 and this selector, hexadecimal; the
                   default for other modules, with selector 0

1000, 0x1000 and 1000H are one number. @FILE is the words of a file, and
-- ends the options. omf-place(1) and docs/PLACEMENT.md have more.
",
};

/// Drafts a placement for a file, whose name may lack its ending. Returns the status.
fn on_file<K: Sink, E: Sink>(
    rt: &HostRuntime,
    options: AskedOptions,
    name: &str,
    streams: &mut Streams<K, E>,
) -> Result<Status, AllocError> {
    let name = object_file(rt, name)?;
    let Some(bytes) = read_or_tell(rt, name.as_str(), streams)? else {
        return Ok(Status::Failed);
    };
    perform::<Place, _, _, _>(rt.alloc(), options, &mut Bytes::new(&bytes), streams)
}

/// The options, if the arguments have no others.
fn options_in(rt: &HostRuntime, asked: &Asked) -> Result<Option<AskedOptions>, AllocError> {
    if asked.text.is_some() || asked.output.is_some() {
        return Ok(None);
    }
    options_of(rt.alloc(), asked.words.as_slice())
}

/// Does what the arguments ask for. Returns the status.
fn act<K: Sink, E: Sink>(
    rt: &HostRuntime,
    streams: &mut Streams<K, E>,
) -> Result<Status, AllocError> {
    let about = &ABOUT;
    let Some(words) = program_and_arguments(rt, about.usage)? else {
        return misused_by(rt, streams, about);
    };
    if let Some(question) = question_in(words.get(1..).unwrap_or(&[])) {
        return explain(rt.alloc(), &mut streams.output, question, &ABOUT);
    }
    if let Some(asked) = sorted(rt.alloc(), &words, 1)?
        && let Some(options) = options_in(rt, &asked)?
    {
        match asked.files.as_slice() {
            [] => return perform_on_input::<Place, _, _>(rt, options, streams),
            [name] if name.as_str() == "-" => {
                return perform_on_input::<Place, _, _>(rt, options, streams);
            }
            [name] => return on_file(rt, options, name.as_str(), streams),
            _ => {}
        }
    }
    misused_by(rt, streams, &ABOUT)
}

/// Runs the program. Returns the exit status: 0 done, 1 the input is refused or has no room, 2 the arguments are not understood, 3 out of
/// memory, or the file could not be read, or the output could not be written.
pub fn run(rt: &HostRuntime) -> ExitCode {
    let mut streams = standard_streams(rt, &ABOUT);
    let status = match act(rt, &mut streams) {
        Ok(status) => status,
        Err(AllocError) => out_of_memory(&mut streams),
    };
    end(rt.alloc(), &mut streams, status)
}

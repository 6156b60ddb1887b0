//! The program on the arguments, the files, the standard output and the standard error of its process.

use crate::asked::{Asked, Get, Look, Make, read_arguments};
use crate::canonical::canon_library;
use crate::finding::find;
use crate::judging::judge_file;
use crate::listing::list;
use crate::making::make_library;
use crate::shown::{Stop, Told};
use crate::taking::get;
use omf_check::Profile;
use omf_frame::Sink;
use omf_host::{
    About, Progress, RunFiles, SpelledArguments, Status, Streams, end, explain, misused_by,
    out_of_memory, put, put_title, put_unread, question_with_tasks, read_input, refuse_clash,
    spelled_arguments, standard_streams,
};
use std::alloc::{AllocError, Global};
use std::process::ExitCode;

/// What the program shows of itself.
const ABOUT: About = About {
    name: "omf-lib",
    colored_name: "\x1B[1;36momf-lib\x1B[0m",
    usage: "usage: omf-lib list|check [--refuse-vendor-comments] LIB ..
       omf-lib find [--ignore-case] LIB NAME ..
       omf-lib get LIB [MEMBER ..] -d DIR [--numbered]
       omf-lib make [--refuse-vendor-comments] [--ignore-case] -o LIB FILE ..
       omf-lib canon [--refuse-vendor-comments] -o LIB LIB
",
    details: "
  list    the members of libraries (.LIB) with their publics and imports
  check   whether each member is well formed, and each name is in the dictionary
  find    the members that define a name
  get     write members to files DIR/NAME.obj
  make    a new library of object modules (.OBJ), and of members of libraries
  canon   a new library of the canonical bytes of a library's members

  -o LIB                    the library to make, which must not exist; - is the
                            standard output
  -d DIR                    the folder for the files, which must exist
  --numbered                name the files by the members' numbers
  --ignore-case             take names that differ in case as one
  --refuse-vendor-comments  refuse comments of the classes C0H to FFH

Where a library is -, omf-lib reads the standard input. @FILE is the words of a
file, and -- ends the options.
omf-lib(1) and docs/LIBRARIES.md have more.
",
};

/// The bytes of a file; None, after a line, if it could not be read.
fn input_of<K, E: Sink>(
    rt: &HostRuntime,
    streams: &mut Streams<K, E>,
    name: &str,
) -> Result<Option<Vec<u8>>, Stop> {
    match read_input(rt, name) {
        Ok(bytes) => Ok(Some(bytes)),
        Err(error) => {
            let mut line = String::new(rt.alloc());
            put_unread(&mut line, name, &error)?;
            streams.report(rt.alloc(), line.as_bytes())?;
            Ok(None)
        }
    }
}

/// The status of a task on one file, after the line `memory` if memory ran out.
fn settled<K: Sink, E: Sink>(streams: &mut Streams<K, E>, answer: Result<Status, Stop>) -> Status {
    match answer {
        Ok(status) => status,
        Err(Stop::Memory) => out_of_memory(streams),
        Err(Stop::Write) => Status::Failed,
    }
}

/// How files are looked at.
#[derive(Clone, Copy)]
struct Manner {
    look: Look,
    profile: Profile,
    /// Whether a line with its name is before what is shown of each file.
    is_titled: bool,
}

/// Writes a line with the name of one of several files.
fn show_title<K: Sink>(alloc: Global, writer: &mut K, name: &str) -> Result<Status, Stop> {
    let mut line = String::new(alloc);
    put_title(&mut line, name)?;
    Ok(put(writer, line.as_bytes()))
}

/// Looks at one file. Returns the status.
fn look_at<K: Sink, E: Sink>(
    rt: &HostRuntime,
    streams: &mut Streams<K, E>,
    manner: Manner,
    name: &str,
) -> Result<Status, Stop> {
    let Some(bytes) = input_of(rt, streams, name)? else {
        return Ok(Status::Failed);
    };
    let mut status = Status::Done;
    if manner.is_titled {
        status = show_title(rt.alloc(), &mut streams.output, name)?;
    }
    let profile = manner.profile;
    let looked = match manner.look {
        Look::List => list(rt.alloc(), streams, profile, name, &bytes)?,
        Look::Check => judge_file(rt.alloc(), &mut streams.output, profile, &bytes)?,
    };
    Ok(status.worst(looked))
}

/// Looks at the files, each after its name if there are several. Returns the greatest status.
fn look_at_all<K: Sink, E: Sink>(
    rt: &HostRuntime,
    streams: &mut Streams<K, E>,
    look: Look,
    profile: Profile,
    files: &[String],
) -> Status {
    let manner = Manner {
        look,
        profile,
        is_titled: files.len() > 1,
    };
    let mut status = Status::Done;
    let mut progress = Progress::new(rt);
    for (at, name) in files.iter().enumerate() {
        let _ = progress.show(rt, streams, at, files.len());
        let answer = look_at(rt, streams, manner, name.as_str());
        status = status.worst(settled(streams, answer));
    }
    progress.end(streams);
    status
}

/// Takes members out of a library. Returns the status.
fn act_get<K: Sink, E: Sink>(
    rt: &HostRuntime,
    streams: &mut Streams<K, E>,
    asked: &Get,
    name: &str,
    bytes: &[u8],
) -> Result<Status, Stop> {
    let mut told = Told::new(rt.alloc(), name);
    get(rt, &mut told, streams, asked, bytes)?;
    told.flush(streams)?;
    Ok(told.shown.status)
}

/// Takes members out of a library, or finds names in it. Returns the status.
fn act_on<K: Sink, E: Sink>(
    rt: &HostRuntime,
    streams: &mut Streams<K, E>,
    asked: &Asked,
    file: &str,
) -> Result<Status, Stop> {
    let Some(bytes) = input_of(rt, streams, file)? else {
        return Ok(Status::Failed);
    };
    match asked {
        Asked::Get { get: asked, .. } => act_get(rt, streams, asked, file, &bytes),
        Asked::Find { find: asked, .. } => find(rt.alloc(), &mut streams.output, asked, &bytes),
        Asked::Look { .. } | Asked::Make(_) | Asked::Canon(_) => Ok(Status::Done),
    }
}

/// Refuses a library that is one of the files that it is made of. Returns the status then.
fn refuse_output<K, E: Sink>(
    rt: &HostRuntime,
    streams: &mut Streams<K, E>,
    asked: &Make,
) -> Result<Option<Status>, AllocError> {
    let files = RunFiles {
        inputs: &asked.files,
        text: None,
        output: asked.output.as_str(),
        second: None,
    };
    refuse_clash(rt, streams, files)
}

/// Makes a library. Returns the status.
fn act_make<K: Sink, E: Sink>(
    rt: &HostRuntime,
    streams: &mut Streams<K, E>,
    asked: &Make,
) -> Result<Status, Stop> {
    if let Some(status) = refuse_output(rt, streams, asked)? {
        return Ok(status);
    }
    let mut told = Told::new(rt.alloc(), asked.output.as_str());
    make_library(rt, &mut told, &mut streams.output, asked)?;
    told.flush(streams)?;
    Ok(told.shown.status)
}

/// Makes a library of the canonical bytes of another one's members. Returns the status.
fn act_canon<K: Sink, E: Sink>(
    rt: &HostRuntime,
    streams: &mut Streams<K, E>,
    asked: &Make,
) -> Result<Status, Stop> {
    if let Some(status) = refuse_output(rt, streams, asked)? {
        return Ok(status);
    }
    let name = match asked.files.as_slice() {
        [name, ..] => name.as_str(),
        [] => "",
    };
    let mut told = Told::new(rt.alloc(), name);
    canon_library(rt, &mut told, &mut streams.output, asked)?;
    told.flush(streams)?;
    Ok(told.shown.status)
}

/// Does what the arguments ask for. Returns the status.
fn act<K: Sink, E: Sink>(rt: &HostRuntime, streams: &mut Streams<K, E>, asked: &Asked) -> Status {
    match asked {
        Asked::Look {
            look,
            profile,
            files,
        } => look_at_all(rt, streams, *look, *profile, files.as_slice()),
        Asked::Get { file, .. } | Asked::Find { file, .. } => {
            let answer = act_on(rt, streams, asked, file.as_str());
            settled(streams, answer)
        }
        Asked::Make(asked) => {
            let answer = act_make(rt, streams, asked);
            settled(streams, answer)
        }
        Asked::Canon(asked) => {
            let answer = act_canon(rt, streams, asked);
            settled(streams, answer)
        }
    }
}

/// Does what the arguments of the process ask for. Returns the status.
fn on_arguments<K: Sink, E: Sink>(
    rt: &HostRuntime,
    streams: &mut Streams<K, E>,
) -> Result<Status, AllocError> {
    let about = &ABOUT;
    let SpelledArguments { words, spelled } = spelled_arguments(rt, about.usage)?;
    if let Some(question) = question_with_tasks(&words) {
        return explain(rt.alloc(), &mut streams.output, question, &ABOUT);
    }
    match read_arguments(rt.alloc(), words)? {
        Some(asked) if asked.takes(&spelled) => Ok(act(rt, streams, &asked)),
        Some(_) | None => misused_by(rt, streams, &ABOUT),
    }
}

/// Runs the program. Returns the exit status: 0 done, 1 something is refused, 2 the arguments are not understood, 3 a
/// file could not be read or written, the output could not be written, or memory ran out.
pub fn run(rt: &HostRuntime) -> ExitCode {
    let mut streams = standard_streams(rt, &ABOUT);
    let status = match on_arguments(rt, &mut streams) {
        Ok(status) => status,
        Err(AllocError) => out_of_memory(&mut streams),
    };
    end(rt.alloc(), &mut streams, status)
}

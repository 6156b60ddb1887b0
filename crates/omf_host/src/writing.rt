//! The outputs of a run: all are written, or none.

ghost use Rattle.std.specs.Prelude.{◌≡◌, IfErr, IfOk, None, Some, false, option_map};
ghost use Rattle.omf_host.specs.Outputs.{AreAllOnOutput, AreLeft, AreThreeOnOutput, IsLeft, IsNoneWritten, IsOneWritten, IsPutIf, is_standard};
ghost use Rattle.omf_host.specs.Inner.Outputs.{ArePutIf, AreReady, AreThreePutIf, IsNotReady, goes_on_output};

use crate::files::{Written, fill_beside, move_new};
use crate::spot::{Node, followed};
use omf_frame::{Sink, push_all};
use std::alloc::AllocError;
use std::fs::{File, Metadata};
use std::io::{Error, ErrorKind, Write};
use std::{fs, io};

/// An output of a run: its name, `-` for the standard output, and its bytes.
#[derive(Clone, Copy)]
pub struct OutputFile<'a> {
    pub name: &'a str,
    pub bytes: &'a [u8],
}

/// An output that could not be written.
#[derive(Drop)]
pub struct Unwritten<'a> {
    /// Its name.
    pub name: &'a str,
    /// The output that is written nevertheless. All others are as they were.
    pub written: Option<&'a str>,
    /// The second one that is, if the third of three outputs could not be written.
    pub also: Option<&'a str>,
    /// The system's reason.
    pub error: io::Error,
}

/// An output that is ready to be written.
#[derive(Drop)]
enum Ready {
    /// On the standard output.
    Standard,
    /// Into a device, a pipe or a socket.
    Open(File),
    /// A new file, whose bytes are in a file beside it.
    New { beside: String, path: String },
    /// In place of a file that is there.
    Changed { beside: String, path: String },
}

impl Ready {
    /// Gives an output its bytes under its name. If that fails, a file is as it was before; a device may have a front of them.
    fn finish<K: Sink>(self, rt: &HostRuntime, writer: &mut K, bytes: &[u8]) -> io::Result<()>
        ensures { IfOk result (λ _. IsPutIf (goes_on_output self) bytes.now (K.seen writer.old) (K.seen writer.new)) }
    {
        match self {
            Ready::Standard => push_all(writer, bytes),
            Ready::Open(mut file) => file.write_all(bytes),
            Ready::New { beside, path } => name_new(rt, beside.as_str(), path.as_str()),
            Ready::Changed { beside, path } => replace(rt, beside.as_str(), path.as_str()),
        }
    }

    /// Removes what is beside an output that is not written.
    fn undo(&self, rt: &HostRuntime) {
        match self {
            Ready::Standard | Ready::Open(_) => {}
            Ready::New { beside, .. } | Ready::Changed { beside, .. } => {
                let _ = fs::remove_file(rt, beside.as_str());
            }
        }
    }
}

/// Gives a file a name that is not there. If that fails, the file is removed.
fn name_new(rt: &HostRuntime, beside: &str, path: &str) -> io::Result<()> {
    let error = match move_new(rt, beside, path) {
        Written::Whole => return Ok(()),
        Written::IsThere => Error::from(ErrorKind::AlreadyExists),
        Written::Failed(error) => error,
    };
    let _ = fs::remove_file(rt, beside);
    Err(error)
}

/// Gives a file the name of another one, in whose place it is then. If that fails, it is removed.
fn replace(rt: &HostRuntime, beside: &str, path: &str) -> io::Result<()> {
    let renamed = fs::rename(rt, beside, path);
    if renamed.is_err() {
        let _ = fs::remove_file(rt, beside);
    }
    renamed
}

/// Whether a path, which is no link, is that of this file; or of nothing, if there is none.
fn is_path_of(rt: &HostRuntime, path: &str, found: Option<&Metadata>) -> bool {
    match fs::symlink_metadata(rt, path) {
        Ok(there) => found.is_some_and(|found| Node::of(&there).is(Node::of(found))),
        Err(error) => found.is_none() && error.kind() == ErrorKind::NotFound,
    }
}

/// Writes the bytes of an output beside the file to which its name leads, with the owner and the mode of that file if it is there.
fn ready_beside(
    rt: &HostRuntime,
    output: OutputFile<'_>,
    found: Option<&Metadata>,
) -> Result<io::Result<Ready>, AllocError>
    ensures { IfOk result (λ r. IfOk r (λ it. goes_on_output it ≡ false)) }
{
    let path = followed(rt, output.name)?;
    if !is_path_of(rt, path.as_str(), found) {
        return Ok(Err(Error::from(ErrorKind::InvalidFilename)));
    }
    let beside = format!(in rt.alloc(); "{path}.tmp")?;
    if let Err(error) = fill_beside(rt, beside.as_str(), output.bytes, found)? {
        return Ok(Err(error));
    }
    Ok(Ok(if found.is_some() {
        Ready::Changed { beside, path }
    } else {
        Ready::New { beside, path }
    }))
}

/// Makes an output ready whose name is there, and which may be written.
fn ready_there(
    rt: &HostRuntime,
    file: File,
    output: OutputFile<'_>,
) -> Result<io::Result<Ready>, AllocError>
    ensures { IfOk result (λ r. IfOk r (λ it. goes_on_output it ≡ false)) }
{
    match file.metadata() {
        Ok(found) if found.is_file() => ready_beside(rt, output, Some(&found)),
        Ok(_) => Ok(Ok(Ready::Open(file))),
        Err(error) => Ok(Err(error)),
    }
}

/// Makes an output ready to be written. Nothing is there under its name by that.
fn made_ready(rt: &HostRuntime, output: OutputFile<'_>) -> Result<io::Result<Ready>, AllocError>
    ensures { IfOk result (λ r. IfOk r (λ it. goes_on_output it ≡ is_standard output.entry.name.now)) }
{
    if output.name == "-" {
        return Ok(Ok(Ready::Standard));
    }
    match File::options().write(true).open(rt, output.name) {
        Ok(file) => ready_there(rt, file, output),
        Err(error) if error.kind() == ErrorKind::NotFound => ready_beside(rt, output, None),
        Err(error) => Ok(Err(error)),
    }
}

/// The answer where no output is written.
fn none_written<'a>(name: &'a str, error: io::Error) -> Unwritten<'a>
    ensures { (result.name.now ≡ name.now) × IsNoneWritten result }
{
    Unwritten {
        name,
        written: None,
        also: None,
        error,
    }
}

/// The answer where an output is written, and after it this one is not.
fn one_written<'a>(name: &'a str, written: &'a str, error: io::Error) -> Unwritten<'a>
    ensures { (result.name.now ≡ name.now) × IsOneWritten written.now result }
{
    Unwritten {
        name,
        written: Some(written),
        also: None,
        error,
    }
}

/// Writes one output.
fn write_one<'a, K: Sink>(
    rt: &HostRuntime,
    writer: &mut K,
    output: OutputFile<'a>,
) -> Result<Option<Unwritten<'a>>, AllocError>
    ensures left { IfOk result (IsLeft output.entry.name.now None) }
    ensures text { IfOk result (AreAllOnOutput output.entry None (K.seen writer.old) (K.seen writer.new)) }
{
    let one = match made_ready(rt, output)? {
        Ok(one) => one,
        Err(error) => return Ok(Some(none_written(output.name, error))),
    };
    match one.finish(rt, writer, output.bytes) {
        Ok(()) => Ok(None),
        Err(error) => Ok(Some(none_written(output.name, error))),
    }
}

/// Makes two outputs ready to be written, or none.
fn both_ready<'a>(
    rt: &HostRuntime,
    first: OutputFile<'a>,
    second: OutputFile<'a>,
) -> Result<Result<(Ready, Ready), Unwritten<'a>>, AllocError>
    ensures ready { IfOk result (λ r. IfOk r (AreReady first.entry second.entry)) }
    ensures left { IfOk result (λ r. IfErr r (IsNotReady first.entry.name.now second.entry.name.now)) }
{
    let one = match made_ready(rt, first)? {
        Ok(one) => one,
        Err(error) => return Ok(Err(none_written(first.name, error))),
    };
    match made_ready(rt, second) {
        Ok(Ok(two)) => Ok(Ok((one, two))),
        Ok(Err(error)) => {
            one.undo(rt);
            Ok(Err(none_written(second.name, error)))
        }
        Err(AllocError) => {
            one.undo(rt);
            Err(AllocError)
        }
    }
}

/// Writes two outputs that are ready.
fn finish_two<'a, K: Sink>(
    rt: &HostRuntime,
    writer: &mut K,
    first: (Ready, OutputFile<'a>),
    second: (Ready, OutputFile<'a>),
) -> Option<Unwritten<'a>>
    ensures left { IsLeft first.entry.1.name.now (Some second.entry.1.name.now) result }
    ensures text { ArePutIf first.entry second.entry (K.seen writer.old) (K.seen writer.new) result }
{
    if let Err(error) = first.0.finish(rt, writer, first.1.bytes) {
        second.0.undo(rt);
        return Some(none_written(first.1.name, error));
    }
    match second.0.finish(rt, writer, second.1.bytes) {
        Ok(()) => None,
        Err(error) => Some(one_written(second.1.name, first.1.name, error)),
    }
}

/// Writes three outputs that are ready.
fn finish_three<'a, K: Sink>(
    rt: &HostRuntime,
    writer: &mut K,
    first: (Ready, OutputFile<'a>),
    second: (Ready, OutputFile<'a>),
    third: (Ready, OutputFile<'a>),
) -> Option<Unwritten<'a>>
    ensures left { AreLeft first.entry.1.name.now second.entry.1.name.now third.entry.1.name.now result }
    ensures text { AreThreePutIf first.entry second.entry third.entry (K.seen writer.old) (K.seen writer.new) result }
{
    if let Err(error) = first.0.finish(rt, writer, first.1.bytes) {
        second.0.undo(rt);
        third.0.undo(rt);
        return Some(none_written(first.1.name, error));
    }
    if let Err(error) = second.0.finish(rt, writer, second.1.bytes) {
        third.0.undo(rt);
        return Some(one_written(second.1.name, first.1.name, error));
    }
    match third.0.finish(rt, writer, third.1.bytes) {
        Ok(()) => None,
        Err(error) => Some(Unwritten {
            name: third.1.name,
            written: Some(first.1.name),
            also: Some(second.1.name),
            error,
        }),
    }
}

/// Writes two outputs.
fn write_two<'a, K: Sink>(
    rt: &HostRuntime,
    writer: &mut K,
    first: OutputFile<'a>,
    second: OutputFile<'a>,
) -> Result<Option<Unwritten<'a>>, AllocError>
    ensures left { IfOk result (IsLeft first.entry.name.now (Some second.entry.name.now)) }
    ensures text { IfOk result (AreAllOnOutput first.entry (Some second.entry) (K.seen writer.old) (K.seen writer.new)) }
{
    match both_ready(rt, first, second)? {
        Ok((one, two)) => Ok(finish_two(rt, writer, (one, first), (two, second))),
        Err(unwritten) => Ok(Some(unwritten)),
    }
}

/// Writes the outputs of a run: one, or two. Both are first written beside their files, as `FILE.tmp`, and then get their names: so a file has
/// all bytes, or is as it was before or not there; and where the second cannot be written, mostly the first is not either.
///
/// Through a symbolic link its target is written. A file that is there is replaced, and keeps its mode, and its owner and group where the system
/// lets the process give them; other names of it (hard links) keep what it was. One that may not be written is not replaced. A device, a pipe or a
/// socket is written into, and may have a front of the bytes after an error, as the standard output may.
///
/// Returns what could not be written; None if all is.
///
/// # Errors
///
/// `AllocError` if out of memory. Nothing is written then.
pub fn write_outputs<'a, K: Sink>(
    rt: &HostRuntime,
    writer: &mut K,
    first: OutputFile<'a>,
    second: Option<OutputFile<'a>>,
) -> Result<Option<Unwritten<'a>>, AllocError>
    ensures left { IfOk result (IsLeft first.entry.name.now (option_map (λ s. s.name.now) second.entry)) }
    ensures text { IfOk result (AreAllOnOutput first.entry second.entry (K.seen writer.old) (K.seen writer.new)) }
{
    match second {
        None => write_one(rt, writer, first),
        Some(second) => write_two(rt, writer, first, second),
    }
}

/// Writes three outputs of a run, as `write_outputs` does two: where one cannot be written, mostly none is.
///
/// # Errors
///
/// `AllocError` if out of memory. Nothing is written then.
pub fn write_three<'a, K: Sink>(
    rt: &HostRuntime,
    writer: &mut K,
    first: OutputFile<'a>,
    second: OutputFile<'a>,
    third: OutputFile<'a>,
) -> Result<Option<Unwritten<'a>>, AllocError>
    ensures left { IfOk result (AreLeft first.entry.name.now second.entry.name.now third.entry.name.now) }
    ensures text { IfOk result (AreThreeOnOutput first.entry second.entry third.entry (K.seen writer.old) (K.seen writer.new)) }
{
    let (one, two) = match both_ready(rt, first, second)? {
        Ok(ready) => ready,
        Err(unwritten) => return Ok(Some(unwritten)),
    };
    match made_ready(rt, third) {
        Ok(Ok(three)) => {
            let (first, second) = ((one, first), (two, second));
            Ok(finish_three(rt, writer, first, second, (three, third)))
        }
        Ok(Err(error)) => {
            one.undo(rt);
            two.undo(rt);
            Ok(Some(none_written(third.name, error)))
        }
        Err(AllocError) => {
            one.undo(rt);
            two.undo(rt);
            Err(AllocError)
        }
    }
}

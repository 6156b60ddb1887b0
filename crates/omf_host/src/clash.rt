//! Outputs that are an input of the same run, or one another: they are refused before anything is read.

ghost use Rattle.std.specs.Prelude.{◌≡◌, IfErr, IfOk, option_map, string_bytes};
ghost use Rattle.std.specs.List.{list_any};
ghost use Rattle.omf_host.specs.Spots.{clash_line, first_clash, is_one_file, name_at_fault};
ghost use Rattle.omf_host.specs.Streams.{SaysClash};

use crate::ending::Status;
use crate::output::put;
use crate::spot::{Spot, input_spot, output_spot};
use crate::streams::Streams;
use crate::text::put_quoted;
use crate::words::response_names;
use omf_frame::Sink;
use std::alloc::{AllocError, Global};

/// The names of the files of a run; `-` is the standard input, or the standard output.
#[derive(Clone, Copy)]
pub struct RunFiles<'a> {
    /// Those that are read.
    pub inputs: &'a [String],
    /// One more that is read: that of a text.
    pub text: Option<&'a str>,
    /// The first that is written.
    pub output: &'a str,
    /// The second, if there is one.
    pub second: Option<&'a str>,
}

/// Why the outputs of a run are refused.
#[derive(Clone, Copy, Debug, PartialEq, Eq)]
pub(crate) enum Clash {
    /// The first is an input.
    FirstIsRead,
    /// The second is an input.
    SecondIsRead,
    /// Both are one file.
    AreOne,
}

/// Whether one of the inputs is this file.
fn is_read(inputs: &[Spot], output: &Spot) -> bool
    ensures { result ≡ list_any (is_one_file output.now) inputs.now }
{
    inputs.iter().any(|input| output.is_one_file(input))
}

/// Why outputs are refused; None if they are not.
fn first_clash(inputs: &[Spot], output: &Spot, second: Option<&Spot>) -> Option<Clash>
    ensures { result ≡ first_clash inputs.now output.now (option_map (λ s. s.now) second.entry) }
{
    if is_read(inputs, output) {
        return Some(Clash::FirstIsRead);
    }
    let second = second?;
    if is_read(inputs, second) {
        Some(Clash::SecondIsRead)
    } else if output.is_one_file(second) {
        Some(Clash::AreOne)
    } else {
        None
    }
}

/// Adds the response files of the process, which are inputs too, where there are such files.
fn add_responses(rt: &HostRuntime, spots: &mut Vec<Spot>) -> Result<(), AllocError> {
    for name in response_names(rt)? {
        let spot = input_spot(rt, name.as_str())?;
        if let Spot::There(_) = spot {
            spots.push(spot)?;
        }
    }
    Ok(())
}

/// Where the names of the inputs lead.
fn input_spots(rt: &HostRuntime, files: RunFiles<'_>) -> Result<Vec<Spot>, AllocError> {
    let mut spots = Vec::new(rt.alloc());
    for name in files.inputs {
        spots.push(input_spot(rt, name.as_str())?)?;
    }
    if let Some(text) = files.text {
        spots.push(input_spot(rt, text)?)?;
    }
    add_responses(rt, &mut spots)?;
    Ok(spots)
}

/// Why the outputs of a run are refused; None if they are not.
fn clash_of(rt: &HostRuntime, files: RunFiles<'_>) -> Result<Option<Clash>, AllocError> {
    let inputs = input_spots(rt, files)?;
    let output = output_spot(rt, files.output)?;
    let second = match files.second {
        Some(name) => Some(output_spot(rt, name)?),
        None => None,
    };
    Ok(first_clash(&inputs, &output, second.as_ref()))
}

/// The name of the output that is refused.
fn name_at_fault<'a>(files: RunFiles<'a>, clash: Clash) -> &'a str
    ensures { result.now ≡ name_at_fault files.entry.output.now (option_map (λ s. s.now) files.entry.second) clash }
{
    match clash {
        Clash::FirstIsRead => files.output,
        Clash::SecondIsRead | Clash::AreOne => files.second.unwrap_or(files.output),
    }
}

/// The line on outputs that are refused: the program's name, the output, and what else it is.
fn clash_line(alloc: Global, program: &str, name: &str, clash: Clash) -> Result<String, AllocError>
    ensures { IfOk result (λ line. string_bytes line ≡ clash_line program.now name.now clash) }
{
    let mut line = String::from_str(alloc, program)?;
    line.push_str(": ")?;
    put_quoted(&mut line, name.as_bytes())?;
    line.push_str(match clash {
        Clash::FirstIsRead | Clash::SecondIsRead => " is an input and an output\n",
        Clash::AreOne => " is two outputs\n",
    })?;
    Ok(line)
}

/// Refuses outputs that are an input of the same run, or one another, with a line on the standard error. A response file is an input. Two names are one file if they point
/// to one device and inode, through links; or, where nothing is there yet, to one name in one folder. A device (but a disk), a pipe or a socket
/// may be named more than once: writing destroys nothing of it. Call it before anything is read. Nothing is written on the standard output,
/// which may be the very input. Returns `Misused`; or None if the outputs are not refused.
///
/// # Errors
///
/// `AllocError` if out of memory. Nothing is written then.
pub fn refuse_clash<K, E: Sink>(
    rt: &HostRuntime,
    streams: &mut Streams<K, E>,
    files: RunFiles<'_>,
) -> Result<Option<Status>, AllocError>
    ensures said { IfOk result (λ status. SaysClash streams.old.name.now status (E.seen streams.old.errors) (E.seen streams.new.errors)) }
    ensures unsaid { IfErr result (λ _. streams.new ≡ streams.old) }
    ensures output { streams.new.output ≡ streams.old.output }
{
    let Some(clash) = clash_of(rt, files)? else {
        return Ok(None);
    };
    let name = name_at_fault(files, clash);
    let line = clash_line(rt.alloc(), streams.name, name, clash)?;
    let _ = put(&mut streams.errors, line.as_bytes());
    Ok(Some(Status::Misused))
}

//! The task `omf-lib get`: members as files. A file that is there already is never written.

use crate::asked::Get;
use crate::fault::Fault;
use crate::library::{Library, member_of, read_library};
use crate::members::{Member, taken_of};
use crate::naming::{is_named, is_outside, path_of, shown_name};
use crate::shown::{Stop, Told};
use omf_check::Profile;
use omf_frame::Sink;
use omf_host::{Status, Streams, Written, put_name, write_new};
use omf_making::Judgement;
use std::alloc::{AllocError, Global};
use std::fmt::Write;
use std::io;

/// Appends the line of a member's file that could not be written. The member's name is as it is shown.
fn put_unwritten_member(
    faults: &mut String,
    folder: &str,
    name: &str,
    error: &io::Error,
) -> Result<(), AllocError> {
    faults.push_str("write ")?;
    put_name(faults, folder.as_bytes())?;
    write!(faults, "/{name}.obj: {error}\n")
}

/// Writes a member's file, and appends a line on it.
fn take(
    rt: &HostRuntime,
    told: &mut Told<'_>,
    folder: &str,
    name: &str,
    member: &Member<'_>,
) -> Result<(), AllocError> {
    let length = member.bytes.len();
    if is_outside(name) {
        told.shown.raise(Status::Refused);
        return write!(&mut told.faults, "refused {name}.obj: outside the folder\n");
    }
    let path = path_of(rt.alloc(), folder, name)?;
    match write_new(rt, path.as_str(), member.bytes)? {
        Written::Whole => write!(&mut told.shown.text, "wrote {name}.obj {length}\n"),
        Written::IsThere => {
            told.shown.raise(Status::Refused);
            write!(
                &mut told.faults,
                "refused {name}.obj: it is there already\n"
            )
        }
        Written::Failed(error) => {
            told.shown.raise(Status::Failed);
            put_unwritten_member(&mut told.faults, folder, name, &error)
        }
    }
}

/// Whether a member is asked for, whose name is shown so. No arguments ask for all.
fn is_asked(get: &Get, member: &Member<'_>, shown: &str) -> bool {
    get.members.is_empty()
        || get
            .members
            .iter()
            .any(|argument| is_named(argument.as_str(), member, shown))
}

/// The name of a member's file, without `.obj`.
fn file_name(alloc: Global, get: &Get, number: usize, name: String) -> Result<String, AllocError> {
    if get.is_numbered {
        return format!(in alloc; "{number}");
    }
    Ok(name)
}

/// Appends the line of a member that no program takes.
fn put_refused(told: &mut Told<'_>, member: &Member<'_>) -> Result<(), AllocError> {
    let profile = Profile {
        refuse_vendor_comments: false,
    };
    match taken_of(*told.faults.allocator(), profile, member.bytes)? {
        Judgement::Taken(_) => Ok(()),
        Judgement::Refused(why) => told.fault(Fault::Member {
            offset: member.offset,
            member: member.number,
            reason: why.reason,
            place: why.place,
        }),
    }
}

/// Takes the members that are asked for, in the order of the library. One that no program takes has a line too.
fn take_members<K: Sink, E: Sink>(
    rt: &HostRuntime,
    told: &mut Told<'_>,
    streams: &mut Streams<K, E>,
    get: &Get,
    library: &Library<'_>,
) -> Result<(), Stop> {
    for (number, span) in library.spans.members.iter().enumerate() {
        let member = member_of(number, span);
        let name = shown_name(rt.alloc(), &member)?;
        if is_asked(get, &member, name.as_str()) {
            let name = file_name(rt.alloc(), get, number, name)?;
            put_refused(told, &member)?;
            take(rt, told, get.folder.as_str(), name.as_str(), &member)?;
            told.flush(streams)?;
        }
    }
    Ok(())
}

/// Whether an argument names one of the members.
fn names_member(alloc: Global, library: &Library<'_>, argument: &str) -> Result<bool, AllocError> {
    for (number, span) in library.spans.members.iter().enumerate() {
        let member = member_of(number, span);
        let name = shown_name(alloc, &member)?;
        if is_named(argument, &member, name.as_str()) {
            return Ok(true);
        }
    }
    Ok(false)
}

/// Appends a line for each argument that names no member.
fn put_unnamed(
    alloc: Global,
    told: &mut Told<'_>,
    get: &Get,
    library: &Library<'_>,
) -> Result<(), AllocError> {
    for argument in get.members.iter() {
        if !names_member(alloc, library, argument.as_str())? {
            told.refuse(argument.as_str(), "no such member")?;
        }
    }
    Ok(())
}

/// Takes members out of a file, with a line for each. If it is no library, no file is written.
pub fn get<K: Sink, E: Sink>(
    rt: &HostRuntime,
    told: &mut Told<'_>,
    streams: &mut Streams<K, E>,
    get: &Get,
    bytes: &[u8],
) -> Result<(), Stop> {
    let library = match read_library(rt.alloc(), bytes)? {
        Ok(library) => library,
        Err(fault) => return Ok(told.fault(Fault::from(fault))?),
    };
    match library.spans.end {
        Err(fault) => Ok(told.fault(Fault::from(fault))?),
        Ok(_) => {
            put_unnamed(rt.alloc(), told, get, &library)?;
            take_members(rt, told, streams, get, &library)
        }
    }
}

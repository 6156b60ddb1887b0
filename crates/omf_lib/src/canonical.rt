//! The task `omf-lib canon`: a library of the canonical bytes of another one's members.

use crate::asked::Make;
use crate::fault::Fault;
use crate::library::{Library, member_of, read_library};
use crate::making::{Members, write_members};
use crate::members::{Member, Verdict, judge};
use crate::shown::{Stop, Told};
use omf_canon::canon;
use omf_check::{Checked, Profile};
use omf_frame::Sink;
use omf_host::{Status, read_input};
use omf_making::Part;
use std::alloc::{AllocError, Global};

/// A member that the check accepts; None, after a line, if it refuses it.
fn accepted(
    told: &mut Told<'_>,
    profile: Profile,
    member: &Member<'_>,
) -> Result<Option<Checked>, AllocError> {
    match judge(*told.faults.allocator(), profile, member.bytes)? {
        Verdict::Accepted(module) => Ok(Some(module)),
        Verdict::Refused { reason, place } => {
            told.fault(Fault::Member {
                offset: member.offset,
                member: member.number,
                reason,
                place,
            })?;
            Ok(None)
        }
    }
}

/// Appends the canonical bytes of a member as a part, with its names in their order; or a line, if it is refused.
fn push_canonical(
    told: &mut Told<'_>,
    parts: &mut Vec<Part>,
    profile: Profile,
    member: &Member<'_>,
) -> Result<(), AllocError> {
    let alloc = *told.faults.allocator();
    let Some(module) = accepted(told, profile, member)? else {
        return Ok(());
    };
    let bytes = canon(alloc, &module)?;
    let canonical = Member {
        number: member.number,
        offset: member.offset,
        bytes: &bytes,
    };
    // The check accepts the canonical bytes of a module that it accepts.
    if let Some(module) = accepted(told, profile, &canonical)? {
        parts.push(Part::new(alloc, &module)?)?;
    }
    Ok(())
}

/// Appends the name of a member: the name of its library, and its number there.
fn push_name(
    alloc: Global,
    names: &mut Vec<String>,
    library: &str,
    number: usize,
) -> Result<(), AllocError> {
    names.push(format!(in alloc; "{library} member {number}")?)?;
    Ok(())
}

/// Makes a library of the canonical bytes of the members.
fn write_canonical<K: Sink>(
    rt: &HostRuntime,
    told: &mut Told<'_>,
    writer: &mut K,
    asked: &Make,
    library: &Library<'_>,
) -> Result<(), Stop> {
    let mut parts = Vec::new(rt.alloc());
    let mut names = Vec::new(rt.alloc());
    for (number, span) in library.spans.members.iter().enumerate() {
        let member = member_of(number, span);
        push_canonical(told, &mut parts, asked.profile, &member)?;
        push_name(rt.alloc(), &mut names, told.name, number)?;
    }
    if told.shown.status != Status::Done {
        return Ok(());
    }
    let members = Members {
        names: names.as_slice(),
        parts: parts.as_slice(),
        is_case_sensitive: library.header.flags % 2 == 1,
    };
    write_members(rt, told, writer, asked, members)
}

/// Makes a library of the canonical bytes of another one's members, in order. Nothing is written if that is no library,
/// or if a member is refused.
pub fn canon_library<K: Sink>(
    rt: &HostRuntime,
    told: &mut Told<'_>,
    writer: &mut K,
    asked: &Make,
) -> Result<(), Stop> {
    let Some(name) = asked.files.get(0) else {
        return Ok(());
    };
    let bytes = match read_input(rt, name.as_str()) {
        Ok(bytes) => bytes,
        Err(error) => return Ok(told.unread(name.as_str(), &error)?),
    };
    let library = match read_library(rt.alloc(), &bytes)? {
        Ok(library) => library,
        Err(fault) => return Ok(told.fault(Fault::from(fault))?),
    };
    match library.spans.end {
        Err(fault) => Ok(told.fault(Fault::from(fault))?),
        Ok(_) => write_canonical(rt, told, writer, asked, &library),
    }
}

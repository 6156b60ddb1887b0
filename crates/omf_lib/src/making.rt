//! The task `omf-lib make`: a library of modules and of the members of libraries; and what `canon` has in common with it.

use crate::asked::Make;
use crate::fault::Fault;
use crate::library::read_library;
use crate::members::taken_of;
use crate::names::is_same_name;
use crate::parts::{PartsFault, parts_of_file};
use crate::shown::{Stop, Told, send_bytes};
use crate::text::put_reason;
use omf_check::Profile;
use omf_frame::Sink;
use omf_host::{Status, Written, put_name, put_quoted, read_input, write_new};
use omf_library::Header;
use omf_making::{Defined, Judgement, Kind, MakeFault, Part, Refusal, make};
use std::alloc::{AllocError, Global};
use std::fmt::Write;

/// The first byte of a library.
const LIBRARY_HEADER: u8 = 0xF0;

/// Appends the line of a module that is refused.
fn put_refused(told: &mut Told<'_>, name: &str, why: Refusal) -> Result<(), AllocError> {
    told.shown.raise(Status::Refused);
    put_name(&mut told.faults, name.as_bytes())?;
    told.faults.push_str(": refused")?;
    put_reason(&mut told.faults, why.reason, why.place)?;
    told.faults.push('\n')
}

/// The modules that become members, and what each is called: the name of its file; in a library also its number there.
#[derive(Drop)]
struct Given {
    names: Vec<String>,
    parts: Vec<Part>,
}

/// Appends a module; or a line, if it is refused.
fn push_module(
    told: &mut Told<'_>,
    given: &mut Given,
    profile: Profile,
    name: String,
    bytes: &[u8],
) -> Result<(), AllocError> {
    let alloc = *told.faults.allocator();
    match taken_of(alloc, profile, bytes)? {
        Judgement::Taken(taken) => {
            given.parts.push(Part::taken(alloc, bytes, &taken)?)?;
            given.names.push(name)?;
            Ok(())
        }
        Judgement::Refused(why) => put_refused(told, name.as_str(), why),
    }
}

/// Appends a line where names that differ in case are one in a library, and differ in the new one. That is no fault.
fn warn_of_case(
    told: &mut Told<'_>,
    asked: &Make,
    name: &str,
    header: Header,
) -> Result<(), AllocError> {
    if asked.ignores_case || header.flags % 2 == 1 {
        return Ok(());
    }
    told.faults.push_str("case does not count in ")?;
    put_name(&mut told.faults, name.as_bytes())?;
    told.faults.push_str(", but in ")?;
    put_name(&mut told.faults, asked.output.as_bytes())?;
    told.faults.push_str(": --ignore-case keeps it\n")
}

/// Appends the members of a library, in order; and lines on what is wrong with it.
fn push_library(
    told: &mut Told<'_>,
    given: &mut Given,
    asked: &Make,
    name: &str,
    bytes: &[u8],
) -> Result<(), AllocError> {
    let alloc = *told.faults.allocator();
    let library = match read_library(alloc, bytes)? {
        Ok(library) => library,
        Err(fault) => return told.fault_of(name, Fault::from(fault)),
    };
    warn_of_case(told, asked, name, library.header)?;
    for (number, span) in library.spans.members.iter().enumerate() {
        let member = format!(in alloc; "{name} member {number}")?;
        push_module(told, given, asked.profile, member, span.bytes)?;
    }
    match library.spans.end {
        Ok(_) => Ok(()),
        Err(fault) => told.fault_of(name, Fault::from(fault)),
    }
}

/// Returns what a module of a file is called: the file's name; with the module's number, from 1, if the file has several.
fn module_name(alloc: Global, file: &str, number: Option<usize>) -> Result<String, AllocError> {
    match number {
        Some(before) => {
            let number = usize::saturating_add(before, 1);
            format!(in alloc; "{file} module {number}")
        }
        None => format!(in alloc; "{file}"),
    }
}

/// Appends the modules of a file.
fn push_all(
    alloc: Global,
    given: &mut Given,
    file: &str,
    parts: Vec<Part>,
) -> Result<(), AllocError> {
    let is_one = parts.len() == 1;
    let mut before = 0usize;
    for part in parts {
        let number = if is_one { None } else { Some(before) };
        given.parts.push(part)?;
        given.names.push(module_name(alloc, file, number)?)?;
        before = before.saturating_add(1);
    }
    Ok(())
}

/// Appends the line of a module of a file that is refused: its number, from 0.
fn put_refused_in(
    told: &mut Told<'_>,
    file: &str,
    module: usize,
    why: Refusal,
) -> Result<(), AllocError> {
    let alloc = *told.faults.allocator();
    let number = if module == 0 { None } else { Some(module) };
    let name = module_name(alloc, file, number)?;
    put_refused(told, name.as_str(), why)
}

/// Appends the modules of a file; or a line, if one of them is refused, or something else than padding is left after them.
fn push_modules(
    told: &mut Told<'_>,
    given: &mut Given,
    profile: Profile,
    file: &str,
    bytes: &[u8],
) -> Result<(), AllocError> {
    let alloc = *told.faults.allocator();
    match parts_of_file(alloc, profile, bytes) {
        Ok(parts) => push_all(alloc, given, file, parts),
        Err(PartsFault::Refused { module, why }) => put_refused_in(told, file, module, why),
        Err(PartsFault::Rest(at)) => {
            let why = format!(in alloc; "neither a module nor padding at {at}")?;
            told.refuse(file, why.as_str())
        }
        Err(PartsFault::Memory) => Err(AllocError),
    }
}

/// Appends the modules of a file, or the members of a library; or a line, if it is neither or could not be read.
fn push_file(
    rt: &HostRuntime,
    told: &mut Told<'_>,
    given: &mut Given,
    asked: &Make,
    name: &str,
) -> Result<(), AllocError> {
    let bytes = match read_input(rt, name) {
        Ok(bytes) => bytes,
        Err(error) => return told.unread(name, &error),
    };
    if bytes.first() == Some(&LIBRARY_HEADER) {
        return push_library(told, given, asked, name, &bytes);
    }
    push_modules(told, given, asked.profile, name, &bytes)
}

/// Appends the name of a part.
fn put_name_of(text: &mut String, names: &[String], number: usize) -> Result<(), AllocError> {
    match names.get(number) {
        Some(name) => put_name(text, name.as_bytes()),
        None => Ok(()),
    }
}

/// A name that two parts define, as each spells it.
#[derive(Clone, Copy)]
struct Twice<'a> {
    first: &'a [u8],
    second: &'a [u8],
}

/// The first public or import that is this name, but for its case; the name itself if there is none.
fn spelled<'a>(names: &'a [Defined], name: &'a [u8]) -> &'a [u8] {
    for defined in names {
        if matches!(defined.kind, Kind::Public | Kind::Import)
            && is_same_name(false, defined.name.as_slice(), name)
        {
            return defined.name.as_slice();
        }
    }
    name
}

/// The name of this number in the second part, and the one in the first part that is the same but for its case.
fn twice_of<'a>(first: &'a Part, second: &'a Part, number: usize) -> Option<Twice<'a>> {
    let name = second.names.get(number)?.name.as_slice();
    Some(Twice {
        first: spelled(first.names.as_slice(), name),
        second: name,
    })
}

/// Appends the line of a name that two files define. It has both spellings if they differ.
fn put_twice(
    text: &mut String,
    names: &[String],
    twice: Twice<'_>,
    first: usize,
    second: usize,
) -> Result<(), AllocError> {
    text.push_str("twice ")?;
    put_quoted(text, twice.first)?;
    text.push_str(" in ")?;
    put_name_of(text, names, first)?;
    text.push_str(" and ")?;
    if twice.first != twice.second {
        put_quoted(text, twice.second)?;
        text.push_str(" in ")?;
    }
    put_name_of(text, names, second)?;
    text.push('\n')
}

/// Appends the line of a fault.
fn put_fault(
    told: &mut Told<'_>,
    asked: &Make,
    names: &[String],
    parts: &[Part],
    fault: MakeFault,
) -> Result<(), Stop> {
    let output = asked.output.as_str();
    match fault {
        MakeFault::Memory => return Err(Stop::Memory),
        MakeFault::Twice {
            first,
            second,
            name,
        } => {
            told.shown.raise(Status::Refused);
            if let (Some(one), Some(other)) = (parts.get(first), parts.get(second))
                && let Some(twice) = twice_of(one, other, name)
            {
                put_twice(&mut told.faults, names, twice, first, second)?;
            }
        }
        MakeFault::TooLarge => told.refuse(output, "too large")?,
        MakeFault::LongSearches => {
            told.refuse(output, "the searches for its names would be too long")?
        }
        MakeFault::Refused { .. } | MakeFault::Rest { .. } | MakeFault::Unlike => {
            told.refuse(output, "not read back as it was made")?
        }
    }
    Ok(())
}

/// Writes the library, and appends a line on it.
fn write_library(
    rt: &HostRuntime,
    told: &mut Told<'_>,
    asked: &Make,
    count: usize,
    bytes: &[u8],
) -> Result<(), AllocError> {
    let output = asked.output.as_str();
    match write_new(rt, output, bytes)? {
        Written::Whole => {
            let length = bytes.len();
            told.shown.text.push_str("wrote ")?;
            put_name(&mut told.shown.text, output.as_bytes())?;
            write!(&mut told.shown.text, " {length} bytes, {count} members\n")
        }
        Written::IsThere => told.refuse(output, "it is there already"),
        Written::Failed(error) => told.unwritten(output, &error),
    }
}

/// Modules that become a library: their names as they are printed, and whether names that differ in case differ.
#[derive(Clone, Copy)]
pub struct Members<'a> {
    pub names: &'a [String],
    pub parts: &'a [Part],
    pub is_case_sensitive: bool,
}

/// Makes a library of modules, and writes it; on the standard output if its name is `-`.
pub fn write_members<K: Sink>(
    rt: &HostRuntime,
    told: &mut Told<'_>,
    writer: &mut K,
    asked: &Make,
    members: Members<'_>,
) -> Result<(), Stop> {
    let Members {
        names,
        parts,
        is_case_sensitive,
    } = members;
    match make(rt.alloc(), asked.profile, is_case_sensitive, parts) {
        Ok(bytes) if asked.output.as_str() == "-" => send_bytes(writer, &bytes),
        Ok(bytes) => Ok(write_library(rt, told, asked, parts.len(), &bytes)?),
        Err(fault) => put_fault(told, asked, names, parts, fault),
    }
}

/// Makes a library of the files, in order: modules, and the members of libraries. Nothing is written if a file or a member
/// is refused, or a file could not be read.
pub fn make_library<K: Sink>(
    rt: &HostRuntime,
    told: &mut Told<'_>,
    writer: &mut K,
    asked: &Make,
) -> Result<(), Stop> {
    let mut given = Given {
        names: Vec::new(rt.alloc()),
        parts: Vec::new(rt.alloc()),
    };
    for name in asked.files.iter() {
        push_file(rt, told, &mut given, asked, name.as_str())?;
    }
    if told.shown.status != Status::Done {
        return Ok(());
    }
    let members = Members {
        names: given.names.as_slice(),
        parts: given.parts.as_slice(),
        is_case_sensitive: !asked.ignores_case,
    };
    write_members(rt, told, writer, asked, members)
}

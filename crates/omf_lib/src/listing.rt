//! The text of `omf-lib list`.

ghost use Rattle.std.specs.Prelude.{string_bytes};
ghost use Rattle.omf_frame.specs.Bytes.{AddsText};
ghost use Rattle.omf_lib.specs.Lines.{public_line};

use crate::fault::Fault;
use crate::imports::put_imports;
use crate::library::{Library, member_of, page_of, read_library};
use crate::members::{Member, name_of, taken_of};
use crate::shown::{Shown, Stop, Told};
use crate::text::put_reason;
use omf_check::Profile;
use omf_frame::Sink;
use omf_host::{Status, Streams, put_quoted};
use omf_library::Header;
use omf_making::{Defined, Judgement, Kind, Refusal, Taken, defined_names};
use std::alloc::{AllocError, Global};
use std::fmt::Write;

/// Appends the line of a public of a member.
pub fn put_public(text: &mut String, member: usize, name: &[u8]) -> Result<(), AllocError>
    ensures { AddsText result (string_bytes text.old) (string_bytes text.new) (public_line member name.now) }
{
    write!(text, "P {member} ")?;
    put_quoted(text, name)?;
    text.push('\n')
}

/// Appends a line for each public of a member.
fn put_publics(text: &mut String, member: usize, names: &[Defined]) -> Result<(), AllocError> {
    for defined in names {
        if matches!(defined.kind, Kind::Public | Kind::Comdat) {
            put_public(text, member, defined.name.as_slice())?;
        }
    }
    Ok(())
}

/// Appends the line of the header.
fn put_header(text: &mut String, header: Header) -> Result<(), AllocError> {
    let Header {
        page,
        dictionary,
        blocks,
        flags,
    } = header;
    let case = if flags % 2 == 1 {
        "sensitive"
    } else {
        "insensitive"
    };
    write!(
        text,
        "LIBRARY page {page} dictionary {dictionary:08X} blocks {blocks} flags {flags:02X} case {case}\n"
    )
}

/// Appends the line of a member, without its line feed.
fn put_member(text: &mut String, header: Header, member: &Member<'_>) -> Result<(), AllocError> {
    let Member {
        number,
        offset,
        bytes,
    } = *member;
    let page = page_of(header, offset).unwrap_or(0);
    let length = bytes.len();
    write!(text, "M {number} {page} {offset:08X} {length} ")?;
    put_quoted(text, name_of(bytes))
}

/// Appends the lines of a member that a program takes: ` lowered` where the check refuses it, and a line for each public and each import.
fn list_taken(text: &mut String, member: usize, taken: &Taken) -> Result<(), AllocError> {
    if taken.is_lowered {
        text.push_str(" lowered")?;
    }
    text.push('\n')?;
    let names = defined_names(*text.allocator(), &taken.module)?;
    put_publics(text, member, names.as_slice())?;
    put_imports(text, member, &taken.module)
}

/// Appends the lines of a member: its own, and one for each public and each import.
fn list_member(
    shown: &mut Shown,
    profile: Profile,
    library: &Library<'_>,
    member: &Member<'_>,
) -> Result<(), AllocError> {
    put_member(&mut shown.text, library.header, member)?;
    let alloc = *shown.text.allocator();
    match taken_of(alloc, profile, member.bytes)? {
        Judgement::Taken(taken) => list_taken(&mut shown.text, member.number, &taken),
        Judgement::Refused(Refusal { reason, place }) => {
            shown.raise(Status::Refused);
            shown.text.push_str(" refused")?;
            put_reason(&mut shown.text, reason, place)?;
            shown.text.push('\n')
        }
    }
}

/// Appends the line of the extended dictionary (F2H), if there is one.
fn put_extended(text: &mut String, library: &Library<'_>) -> Result<(), AllocError> {
    let rest = library.after_dictionary();
    let [0xF2, low, high, ..] = rest else {
        return Ok(());
    };
    let offset = library.bytes.len().saturating_sub(rest.len());
    let length = u16::from_le_bytes([*low, *high]);
    write!(text, "X {offset:08X} {length}\n")
}

/// Writes the lines of a library, and those of a fault.
fn list_library<K: Sink, E: Sink>(
    told: &mut Told<'_>,
    streams: &mut Streams<K, E>,
    profile: Profile,
    library: &Library<'_>,
) -> Result<(), Stop> {
    put_header(&mut told.shown.text, library.header)?;
    for (number, span) in library.spans.members.iter().enumerate() {
        list_member(&mut told.shown, profile, library, &member_of(number, span))?;
        told.flush(streams)?;
    }
    put_extended(&mut told.shown.text, library)?;
    told.flush(streams)?;
    if let Err(fault) = library.spans.end {
        told.fault(Fault::from(fault))?;
    }
    Ok(())
}

/// Writes the list of a file: its header, its members, their publics and imports; and on the standard error why it is no library. Returns the status.
pub fn list<K: Sink, E: Sink>(
    alloc: Global,
    streams: &mut Streams<K, E>,
    profile: Profile,
    name: &str,
    bytes: &[u8],
) -> Result<Status, Stop> {
    let mut told = Told::new(alloc, name);
    match read_library(alloc, bytes)? {
        Ok(library) => list_library(&mut told, streams, profile, &library)?,
        Err(fault) => told.fault(Fault::from(fault))?,
    }
    told.flush(streams)?;
    Ok(told.shown.status)
}

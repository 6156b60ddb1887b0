//! The exported calls for libraries (TIS OMF 1.1, appendix 2).

ghost use Rattle.std.specs.Prelude.{◌≡◌, IfOk, Ok, map};
ghost use Rattle.omf_records.specs.Inner.Seen.{map_ok};
ghost use Rattle.omf_c.specs.Libraries.{AreRowsIn, IsFound, IsFoundIn, IsLibraryAnswered, library_row, no_library, of_entry, of_library_fault};

use crate::answer::{Answer, NOTHING, hand_out};
use crate::making::profile;
use crate::rows::LibraryMemberRow;
use omf_check::Profile;
use omf_library::{Header, LibraryFault, Member, dictionary_in, members_in, read_header};
use std::alloc::{AllocError, Global};

/// The result for bytes that are no library, by its reason.
fn no_library(reason: u32) -> Answer
    ensures { result ≡ no_library reason }
{
    Answer {
        status: 9,
        reason,
        ..NOTHING
    }
}

/// The result for bytes that are no library.
fn library_answer(fault: LibraryFault) -> Answer
    ensures { result ≡ of_library_fault fault }
{
    match fault {
        LibraryFault::Memory => Answer {
            status: 1,
            ..NOTHING
        },
        LibraryFault::NoHeader => no_library(1),
        LibraryFault::HeaderCut => no_library(2),
        LibraryFault::PageSize(size) => Answer {
            size: u64::from(size),
            ..no_library(3)
        },
        LibraryFault::NoEnd { member, offset } => Answer {
            size: offset,
            record_count: member,
            ..no_library(4)
        },
        LibraryFault::Refused {
            member,
            offset,
            reason,
            place,
        } => Answer {
            status: 4,
            reason: u32::from(reason.number()),
            number: place.number,
            within: place.within,
            start: place.start,
            size: offset,
            record_count: member,
            ..NOTHING
        },
    }
}

/// The row of a member.
fn library_row(member: &Member) -> LibraryMemberRow
    ensures { result ≡ library_row member.now }
{
    LibraryMemberRow {
        offset: member.offset,
        size: member.length,
    }
}

/// The rows of members.
fn rows_of(alloc: Global, members: &[Member]) -> Result<Vec<LibraryMemberRow>, AllocError>
    ensures { IfOk result (λ v. v.items ≡ map library_row members.now) }
{
    let mut rows = Vec::new(alloc);
    for member in members {
        rows.push(library_row(member))?;
    }
    Ok(rows)
}

/// The rows of the members of a library.
fn member_rows(
    alloc: Global,
    profile: Profile,
    bytes: &[u8],
) -> Result<Vec<LibraryMemberRow>, LibraryFault>
    ensures { AreRowsIn profile bytes.now (map_ok (λ v. v.items) result) }
{
    let members = members_in(alloc, profile, bytes)?;
    Ok(rows_of(alloc, &members)?)
}

/// Hands out where the members of a library are, in order. At status 0 the rows are at the start of the buffer. Each member is a well-formed module.
#[unsafe(no_mangle)]
pub extern "C" fn omf_library_members(
    alloc: Global,
    bytes: &[u8],
    refuse_vendor_comments: bool,
    out: &mut [LibraryMemberRow],
) -> Answer
    ensures { IsLibraryAnswered (record { refuse_vendor_comments = refuse_vendor_comments }) bytes.now result out.old out.new }
{
    match member_rows(alloc, profile(refuse_vendor_comments), bytes) {
        Ok(rows) => hand_out(&rows, out),
        Err(fault) => library_answer(fault),
    }
}

/// The result for the entry of a name, which has the number of a page.
fn entry_answer(page: u32, entry: Option<u16>) -> Answer
    ensures { result ≡ of_entry page entry }
{
    match entry {
        Some(number) => Answer {
            size: u64::from(number) * u64::from(page),
            record_count: 1,
            ..NOTHING
        },
        None => NOTHING,
    }
}

/// The result for a name in the dictionary of bytes with this header.
fn found_in(header: Header, bytes: &[u8], name: &[u8]) -> Answer
    ensures { IsFoundIn bytes.now name.now (Ok header) result }
{
    match dictionary_in(header, bytes) {
        Some(dictionary) => entry_answer(header.page, dictionary.first_entry(name)),
        None => no_library(5),
    }
}

/// Looks up a name in the dictionary of a library, in all blocks and buckets, wherever its hash is. At status 0 `record_count` is 1 and `size` the offset of the page
/// of the name's first entry, where the member that defines it begins; or both are 0, if it has no entry.
#[unsafe(no_mangle)]
pub extern "C" fn omf_library_find(bytes: &[u8], name: &[u8]) -> Answer
    ensures { IsFound bytes.now name.now result }
{
    match read_header(bytes) {
        Ok(header) => found_in(header, bytes, name),
        Err(fault) => library_answer(fault),
    }
}

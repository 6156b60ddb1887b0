//! The members of a library.

ghost use Rattle.std.specs.Prelude.{◌≡◌, ◌+◌, ◌<◌, ◌≤◌, ◌^◌, length};
ghost use Rattle.omf_records.specs.Inner.Seen.{map_ok};
ghost use Rattle.omf_library.specs.Inner.Modules.{AreFoundIn};
ghost use Rattle.omf_library.specs.Library.{AreMembersIn, IsMemberRead, IsModuleRead, next_page};

use crate::fault::LibraryFault;
use crate::header::read_header;
use crate::member::Member;
use omf_check::{CheckFault, Checked, Profile, check_with};
use omf_frame::{Bytes, Framer};
use std::alloc::Global;

/// The type of the record after the members.
pub const LIBRARY_END: u8 = 0xF1;

/// The offset of the first page at or after an offset.
pub fn next_page(page: usize, at: usize) -> usize
    requires filled { 0 < page }
    requires low { at + page < 2 ^ 64 }
    ensures { result ≡ next_page page at }
{
    (at + (page - 1)) / page * page
}

/// The page at which a member begins, if one does.
#[derive(Clone, Copy)]
pub(crate) struct MemberPage {
    /// The number of members before it.
    pub(crate) count: u64,
    /// Its offset in bytes.
    pub(crate) at: usize,
}

/// The module of the member that begins at a page. The framer serves all members.
///
/// # Errors
///
/// `Refused` where no module begins there. `Memory` if out of memory.
pub(crate) fn module_at(
    alloc: Global,
    framer: &mut Framer,
    profile: Profile,
    bytes: &[u8],
    page: MemberPage,
) -> Result<Checked, LibraryFault>
    requires { page.at ≤ length bytes.now }
    ensures { IsModuleRead profile bytes.now page.count page.at result }
{
    let (_before, rest) = bytes.split_at(page.at);
    match check_with(alloc, framer, &mut Bytes::new(rest), profile) {
        Ok(module) => Ok(module),
        Err(CheckFault::Memory) => Err(LibraryFault::Memory),
        Err(CheckFault::Read) => unreachable!(),
        Err(CheckFault::Refused { reason, place }) => {
            let offset = page.at as u64;
            Err(LibraryFault::Refused {
                member: page.count,
                offset,
                reason,
                place,
            })
        }
    }
}

/// The member that begins at a page.
///
/// # Errors
///
/// `Refused` where no module begins there. `Memory` if out of memory.
fn member_at(
    alloc: Global,
    framer: &mut Framer,
    profile: Profile,
    bytes: &[u8],
    page: MemberPage,
) -> Result<Member, LibraryFault>
    requires { page.at ≤ length bytes.now }
    ensures { IsMemberRead profile bytes.now page.count page.at result }
{
    match module_at(alloc, framer, profile, bytes, page) {
        Ok(module) => Ok(Member {
            offset: page.at as u64,
            length: module.bytes().len() as u64,
        }),
        Err(fault) => Err(fault),
    }
}

/// The members of a library, and the offset of its F1H.
#[derive(Drop)]
pub(crate) struct Found {
    pub(crate) members: Vec<Member>,
    pub(crate) end: usize,
}

/// The members of a library, and the offset of its F1H.
///
/// # Errors
///
/// Those of `members_in`.
pub(crate) fn found_in(alloc: Global, profile: Profile, bytes: &[u8]) -> Result<Found, LibraryFault>
    ensures { AreFoundIn profile bytes.now result }
{
    let page = read_header(bytes)?.page as usize;
    let mut framer = Framer::new(alloc);
    let mut members = Vec::new(alloc);
    let mut at = page;
    while at < bytes.len() {
        if bytes[at] == LIBRARY_END {
            return Ok(Found { members, end: at });
        }
        let count = members.len() as u64;
        let member = member_at(alloc, &mut framer, profile, bytes, MemberPage { count, at })?;
        members.push(member)?;
        at = next_page(page, at + member.length as usize);
    }
    Err(LibraryFault::NoEnd {
        member: members.len() as u64,
        offset: at as u64,
    })
}

/// The members of a library, in order: from the second page on, each at the first page after the one before, up to a
/// page that begins with F1H.
///
/// # Errors
///
/// The first fault: `NoHeader`, `HeaderCut`, `PageSize`; `Refused` for the first page that begins with neither a module
/// nor F1H; `NoEnd` where the bytes end before such a page. `Memory` if out of memory.
pub fn members_in(
    alloc: Global,
    profile: Profile,
    bytes: &[u8],
) -> Result<Vec<Member>, LibraryFault>
    ensures { AreMembersIn profile bytes.now (map_ok (λ members. members.items) result) }
{
    match found_in(alloc, profile, bytes) {
        Ok(found) => Ok(found.members),
        Err(fault) => Err(fault),
    }
}

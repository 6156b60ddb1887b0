//! The members of a library that was made, as they are read back: each is one that a program takes.

ghost use Rattle.std.specs.Prelude.{◌≡◌, ◌+◌, ◌<◌, ◌≤◌, length, IfOk};
ghost use Rattle.omf_making.specs.Taken.{IsTakenLibrary, IsTakenMember};

use crate::taken::{Judgement, judge_taken};
use omf_check::Profile;
use omf_frame::Framer;
use omf_library::{LIBRARY_END, LibraryFault, Member, next_page, read_header};
use std::alloc::Global;

/// The page at which a member begins, if one does.
#[derive(Clone, Copy)]
struct MemberPage {
    /// The number of members before it.
    count: u64,
    /// Its offset in bytes.
    at: usize,
}

/// The members of a library, and the offset of its F1H.
#[derive(Drop)]
pub(crate) struct Found {
    pub(crate) members: Vec<Member>,
    pub(crate) end: usize,
}

/// The member that begins at a page.
///
/// # Errors
///
/// `Refused` where a program takes no module there. `Memory` if out of memory.
fn taken_at(
    alloc: Global,
    framer: &mut Framer,
    profile: Profile,
    bytes: &[u8],
    page: MemberPage,
) -> Result<Member, LibraryFault>
    requires { page.at ≤ length bytes.now }
    ensures { IfOk result (λ m. (m.offset ≡ page.at) × IsTakenMember profile bytes.now m × (0 < m.length) × (page.at + m.length ≤ length bytes.now)) }
{
    let offset = page.at as u64;
    let (_before, rest) = bytes.split_at(page.at);
    match judge_taken(alloc, framer, profile, rest) {
        Ok(Judgement::Taken(taken)) => Ok(Member {
            offset,
            length: taken.length as u64,
        }),
        Ok(Judgement::Refused(why)) => Err(LibraryFault::Refused {
            member: page.count,
            offset,
            reason: why.reason,
            place: why.place,
        }),
        Err(_) => Err(LibraryFault::Memory),
    }
}

/// The members of a library, and the offset of its F1H.
///
/// # Errors
///
/// As those of `members_in`, but only a member that no program takes is refused.
pub(crate) fn taken_in(alloc: Global, profile: Profile, bytes: &[u8]) -> Result<Found, LibraryFault>
    ensures { IfOk result (λ f. IsTakenLibrary profile bytes.now f.members.items f.end) }
{
    let page = read_header(bytes)?.page as usize;
    let mut framer = Framer::new(alloc);
    let mut members = Vec::new(alloc);
    let mut at = page;
    while at < bytes.len() {
        if bytes[at] == LIBRARY_END {
            return Ok(Found { members, end: at });
        }
        let count = members.len() as u64;
        let member = taken_at(alloc, &mut framer, profile, bytes, MemberPage { count, at })?;
        members.push(member)?;
        at = next_page(page, at + member.length as usize);
    }
    Err(LibraryFault::NoEnd {
        member: members.len() as u64,
        offset: at as u64,
    })
}

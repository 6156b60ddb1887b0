//! The members of a library as a linker reads them: one that the check of modules refuses counts only if it is needed.

ghost use Rattle.std.specs.Prelude.{◌≢◌, ◌<◌, drop, length, slice_index};
ghost use Rattle.omf_records.specs.Inner.Seen.{map_ok};
ghost use Rattle.omf_check.specs.Refusal.{IsRefused};
ghost use Rattle.omf_check.specs.declared.profile.Profile.{Profile};
ghost use Rattle.omf_image.specs.Limits.{profile_limits};
ghost use Rattle.omf_library.specs.Library.{library_end};
ghost use Rattle.omf_library.specs.LibraryMembers.{AreLibraryMembers};
ghost use Rattle.omf_library.specs.Inner.Judging.{IsJudged};

use crate::fault::LibraryFault;
use crate::header::read_header;
use crate::members::{LIBRARY_END, MemberPage, module_at, next_page};
use crate::publics::publics_in;
use crate::spans::{Page, page_at};
use omf_check::{Checked, Profile};
use omf_frame::{Framer, Place, Reason};
use std::alloc::Global;

/// A member of a library.
#[derive(Drop)]
pub enum LibraryMember {
    /// Its module.
    Module(Checked),
    /// The check of modules refuses it.
    Refused(RefusedMember),
}

/// A member that the check of modules refuses.
#[derive(Drop)]
pub struct RefusedMember {
    /// The offset of its first byte in the library.
    pub offset: u64,
    /// Why it is refused.
    pub reason: Reason,
    /// The place of the fault: its offsets count from the member.
    pub place: Place,
    /// The names of its PUBDEFs, byte for byte. A PUBDEF that is not readable has none.
    pub publics: Vec<Vec<u8>>,
}

/// A member, and the number of its bytes.
#[derive(Drop)]
pub(crate) struct Judged {
    pub(crate) member: LibraryMember,
    pub(crate) length: usize,
}

/// The member that begins at a page, which the check of modules refuses.
///
/// # Errors
///
/// `Refused` if by the lengths of the records no module is there. `Memory` if out of memory.
fn refused_at(
    alloc: Global,
    bytes: &[u8],
    page: MemberPage,
    reason: Reason,
    place: Place,
) -> Result<Judged, LibraryFault>
    requires low { page.at < length bytes.now }
    requires member { slice_index bytes.now page.at ≢ library_end }
    ensures { (profile : Profile) → IsRefused profile profile_limits (drop page.at bytes.now) reason place → IsJudged profile bytes.now page.count page.at result }
{
    match page_at(bytes, page.at, page.count as usize) {
        Page::Member(found) => {
            let publics = publics_in(alloc, found)?;
            let member = LibraryMember::Refused(RefusedMember {
                offset: page.at as u64,
                reason,
                place,
                publics,
            });
            let length = found.len();
            Ok(Judged { member, length })
        }
        Page::End | Page::Fault(_) => Err(LibraryFault::Refused {
            member: page.count,
            offset: page.at as u64,
            reason,
            place,
        }),
    }
}

/// The member that begins at a page: its module, or why the check of modules refuses it.
///
/// # Errors
///
/// `Refused` if it is refused, and by the lengths of the records no module is there. `Memory` if out of memory.
fn judged_at(
    alloc: Global,
    framer: &mut Framer,
    profile: Profile,
    bytes: &[u8],
    page: MemberPage,
) -> Result<Judged, LibraryFault>
    requires low { page.at < length bytes.now }
    requires member { slice_index bytes.now page.at ≢ library_end }
    ensures { IsJudged profile bytes.now page.count page.at result }
{
    match module_at(alloc, framer, profile, bytes, page) {
        Ok(module) => {
            let length = module.bytes().len();
            let member = LibraryMember::Module(module);
            Ok(Judged { member, length })
        }
        Err(LibraryFault::Refused { reason, place, .. }) => {
            refused_at(alloc, bytes, page, reason, place)
        }
        Err(fault) => Err(fault),
    }
}

/// The members of a library, in order, as a linker reads them: from the second page on, each at the first page after the one before, up to a
/// page that begins with F1H. A member that the check of modules refuses ends with its first MODEND, by the lengths of its records.
///
/// # Errors
///
/// The first fault: `NoHeader`, `HeaderCut`, `PageSize`; `Refused` for the first page that begins with neither F1H nor a module, not even by
/// the lengths of the records; `NoEnd` where the bytes end before such a page. `Memory` if out of memory.
pub fn library_members(
    alloc: Global,
    profile: Profile,
    bytes: &[u8],
) -> Result<Vec<LibraryMember>, LibraryFault>
    ensures { AreLibraryMembers profile bytes.now (map_ok (λ members. members.items) result) }
{
    let page = read_header(bytes)?.page as usize;
    let mut framer = Framer::new(alloc);
    let mut members = Vec::new(alloc);
    let mut at = page;
    while at < bytes.len() {
        if bytes[at] == LIBRARY_END {
            return Ok(members);
        }
        let count = members.len() as u64;
        let judged = judged_at(alloc, &mut framer, profile, bytes, MemberPage { count, at })?;
        at = next_page(page, at + judged.length);
        members.push(judged.member)?;
    }
    Err(LibraryFault::NoEnd {
        member: members.len() as u64,
        offset: at as u64,
    })
}

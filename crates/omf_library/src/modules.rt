//! The modules of a library's members.

ghost use Rattle.omf_records.specs.Inner.Seen.{map_ok};
ghost use Rattle.omf_library.specs.Library.{AreModulesIn};

use crate::fault::LibraryFault;
use crate::header::read_header;
use crate::members::{LIBRARY_END, MemberPage, module_at, next_page};
use omf_check::{Checked, Profile};
use omf_frame::Framer;
use std::alloc::Global;

/// The modules of a library's members, in order: those of the members of `members_in`, which has the same faults. So a caller that
/// needs the modules checks each once.
///
/// # Errors
///
/// The first fault, as that of `members_in`. `Memory` if out of memory.
pub fn modules_in(
    alloc: Global,
    profile: Profile,
    bytes: &[u8],
) -> Result<Vec<Checked>, LibraryFault>
    ensures { AreModulesIn profile bytes.now (map_ok (λ modules. modules.items) result) }
{
    let page = read_header(bytes)?.page as usize;
    let mut framer = Framer::new(alloc);
    let mut modules = Vec::new(alloc);
    let mut at = page;
    while at < bytes.len() {
        if bytes[at] == LIBRARY_END {
            return Ok(modules);
        }
        let count = modules.len() as u64;
        let module = module_at(alloc, &mut framer, profile, bytes, MemberPage { count, at })?;
        at = next_page(page, at + module.bytes().len());
        modules.push(module)?;
    }
    Err(LibraryFault::NoEnd {
        member: modules.len() as u64,
        offset: at as u64,
    })
}

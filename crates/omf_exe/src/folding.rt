//! Members of libraries with their names in lower case.

ghost use Rattle.std.specs.Prelude.{◌≡◌, IfOk, map};
ghost use Rattle.std.specs.Char.{to_ascii_lowercase};
ghost use Rattle.std.specs.List.{AllZip};
ghost use Rattle.omf_library.specs.LibraryMembers.{names_kept};
ghost use Rattle.omf_exe.specs.Input.{IsMemberFolded, IsRefusedFolded};

use omf_library::{LibraryMember, RefusedMember};
use omf_linking::folded;
use std::alloc::{AllocError, Global};

/// Names in lower case.
#[tactic(auto, using(crate::proofs::MemberFolds::lowered_more))]
fn lower_names(alloc: Global, names: &[Vec<u8>]) -> Result<Vec<Vec<u8>>, AllocError>
    ensures { IfOk result (λ v. names_kept v.items ≡ map (map to_ascii_lowercase) (names_kept names.now)) }
{
    let mut lower = Vec::new(alloc);
    for name in names {
        lower.push(name.as_slice().to_ascii_lowercase(alloc)?)?;
    }
    Ok(lower)
}

/// A member that is refused, with its names in lower case.
fn folded_refused(alloc: Global, refused: &RefusedMember) -> Result<RefusedMember, AllocError>
    ensures { IfOk result (IsRefusedFolded refused.now) }
{
    Ok(RefusedMember {
        offset: refused.offset,
        reason: refused.reason,
        place: refused.place,
        publics: lower_names(alloc, refused.publics.as_slice())?,
    })
}

/// A member with its names in lower case.
fn folded_member(alloc: Global, member: &LibraryMember) -> Result<LibraryMember, AllocError>
    ensures { IfOk result (IsMemberFolded member.now) }
{
    match member {
        LibraryMember::Module(module) => Ok(LibraryMember::Module(folded(alloc, module)?)),
        LibraryMember::Refused(refused) => {
            Ok(LibraryMember::Refused(folded_refused(alloc, refused)?))
        }
    }
}

/// Members with the names of publics, externals and communals in lower case. Each member is dropped once it is folded.
///
/// # Errors
///
/// `AllocError` if memory runs out.
pub(crate) fn folded_members(
    alloc: Global,
    members: Vec<LibraryMember>,
) -> Result<Vec<LibraryMember>, AllocError>
    ensures { IfOk result (λ v. AllZip IsMemberFolded members.items v.items) }
{
    let mut all = Vec::new(alloc);
    for member in members {
        all.push(folded_member(alloc, &member)?)?;
    }
    Ok(all)
}

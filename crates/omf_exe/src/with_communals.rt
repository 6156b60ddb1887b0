//! Members of libraries with the communals that EXTDEFs define by TYPDEFs.

ghost use Rattle.std.specs.Prelude.{IfOk};
ghost use Rattle.std.specs.List.{AllZip};
ghost use Rattle.omf_exe.specs.WithCommunals.{IsMemberWithCommunals};

use omf_communals::with_communals;
use omf_library::LibraryMember;
use std::alloc::{AllocError, Global};

/// A member with its communals. One that is refused stays as it is.
///
/// # Errors
///
/// `AllocError` if memory runs out.
fn member_with_communals(alloc: Global, member: LibraryMember) -> Result<LibraryMember, AllocError>
    ensures { IfOk result (IsMemberWithCommunals member) }
{
    match member {
        LibraryMember::Module(module) => {
            Ok(LibraryMember::Module(with_communals(alloc, module)?))
        }
        LibraryMember::Refused(refused) => Ok(LibraryMember::Refused(refused)),
    }
}

/// Members with their communals.
///
/// # Errors
///
/// `AllocError` if memory runs out.
pub(crate) fn members_with_communals(
    alloc: Global,
    members: Vec<LibraryMember>,
) -> Result<Vec<LibraryMember>, AllocError>
    ensures { IfOk result (λ v. AllZip IsMemberWithCommunals members.items v.items) }
{
    let mut all = Vec::new(alloc);
    for member in members {
        all.push(member_with_communals(alloc, member)?)?;
    }
    Ok(all)
}

//! Modules with records outside this profile, as a program takes them: lowered.

ghost use Rattle.std.specs.Prelude.{◌≡◌, IfErr, IfNone, IfOk, IfSome, drop};
ghost use Rattle.std.specs.List.{AllZip};
ghost use Rattle.omf_library.specs.declared.judged.LibraryMember.TheVariants.{Refused};
ghost use Rattle.omf_lowered.specs.Checked.{IsRefusedAsWritten, IsUnloweredBy as IsModuleUnloweredBy};
ghost use Rattle.omf_aliases.specs.Aliases.{any_profile as any};
ghost use Rattle.omf_exe.specs.Inner.Unlowered.{IsUnloweredAt, IsUnloweredBy};
ghost use Rattle.omf_exe.specs.Lowered.{AreOfLowered, AreTaken, IsLoweredModule, IsTakenOf, IsUnlowered, IsUntaken, shown_fault, shown_of_file, with_fault, with_lowering};

use crate::memory::is_link_memory;
use omf_aliases::any_profile;
use omf_check::{CheckFault, Checked, check};
use omf_frame::{Bytes, Place, Reason};
use omf_library::{LibraryMember, RefusedMember};
use omf_linking::{LinkFault, file_modules};
use omf_lowered::{
    FileFault, LoweringFault, is_mendable, lowered_file, lowered_module, place_in, place_in_file,
    shown,
};
use std::alloc::{AllocError, Global};

/// Why the lowering of a file gives no modules.
#[derive(Clone, Copy)]
pub(crate) enum Unlowered {
    /// Out of memory.
    Memory,
    /// The file has no lowering, or its lowering is refused at a record that the file has too.
    Fault(FileFault),
    /// Its lowering is refused at another record.
    Refused,
}

/// What is shown of a file with this fault, if its lowering is refused with that one.
fn shown_fault(own: LinkFault, lowering: LinkFault) -> LinkFault
    ensures { result ≡ shown_fault own lowering }
{
    match own {
        LinkFault::Refused { reason, .. } => shown(reason, own, lowering),
        LinkFault::Memory => own,
        LinkFault::Read => own,
        LinkFault::NoText(_) => own,
        LinkFault::NoModules => own,
        LinkFault::Line { .. } => own,
        LinkFault::External(_) => own,
        LinkFault::Reach { .. } => own,
        LinkFault::Starts { .. } => own,
        LinkFault::Space(_) => own,
    }
}

/// The fault that is shown of a file with this fault, if its lowering has this one.
fn with_lowering(own: LinkFault, fault: FileFault) -> LinkFault
    ensures { result ≡ with_lowering own fault }
{
    match fault {
        FileFault::Memory => LinkFault::Memory,
        FileFault::Refused {
            module,
            reason,
            place,
        } => shown_fault(
            own,
            LinkFault::Refused {
                module,
                reason,
                place,
            },
        ),
        FileFault::NoModule(at) => shown_fault(own, LinkFault::NoText(at)),
    }
}

/// The fault that is shown of a file with this fault, if its lowering gives no modules.
fn shown_of_file(own: LinkFault, unlowered: Unlowered) -> LinkFault
    ensures { result ≡ shown_of_file own unlowered }
{
    match unlowered {
        Unlowered::Memory => LinkFault::Memory,
        Unlowered::Fault(fault) => with_lowering(own, fault),
        Unlowered::Refused => own,
    }
}

/// Why a file gives no modules whose lowering is refused at this place in its module with this number.
fn refused_at(alloc: Global, bytes: &[u8], number: u32, reason: Reason, there: Place) -> Unlowered
    ensures { IsUnloweredAt bytes.now number reason there result }
{
    match place_in_file(alloc, bytes, number, there) {
        Ok(Some(place)) => Unlowered::Fault(FileFault::Refused {
            module: number,
            reason,
            place,
        }),
        Ok(None) => Unlowered::Refused,
        Err(_) => Unlowered::Memory,
    }
}

/// Why a file whose lowering has this fault gives no modules.
fn unlowered_by(alloc: Global, bytes: &[u8], fault: LinkFault) -> Unlowered
    ensures { IsUnloweredBy bytes.now fault result }
{
    match fault {
        LinkFault::Memory => Unlowered::Memory,
        LinkFault::Refused {
            module,
            reason,
            place,
        } => refused_at(alloc, bytes, module, reason, place),
        LinkFault::Read => Unlowered::Refused,
        LinkFault::NoText(_) => Unlowered::Refused,
        LinkFault::NoModules => Unlowered::Refused,
        LinkFault::Line { .. } => Unlowered::Refused,
        LinkFault::External(_) => Unlowered::Refused,
        LinkFault::Reach { .. } => Unlowered::Refused,
        LinkFault::Starts { .. } => Unlowered::Refused,
        LinkFault::Space(_) => Unlowered::Refused,
    }
}

/// The modules of a file's lowering.
fn lowered_modules(alloc: Global, bytes: &[u8]) -> Result<Vec<Checked>, Unlowered>
    ensures modules { IfOk result (λ v. AreOfLowered bytes.now v.items) }
    ensures fault { IfErr result (IsUnlowered bytes.now) }
{
    let lower = match lowered_file(alloc, bytes) {
        Ok(lower) => lower,
        Err(fault) => return Err(Unlowered::Fault(fault)),
    };
    match file_modules(alloc, any_profile(), &lower) {
        Ok(modules) => Ok(modules),
        Err(fault) => Err(unlowered_by(alloc, bytes, fault)),
    }
}

/// The modules that a program takes of a file: its own, or, if it is refused, those of its lowering.
///
/// # Errors
///
/// The file's own fault, if its lowering gives no modules; that of its lowering, or of the check of that, if a lowering may mend the own one. `Memory` if memory runs out.
pub(crate) fn taken_modules(alloc: Global, bytes: &[u8]) -> Result<Vec<Checked>, LinkFault>
    ensures modules { IfOk result (λ v. AreTaken bytes.now v.items) }
    ensures fault { IfErr result (IsUntaken bytes.now) }
{
    let own = match file_modules(alloc, any_profile(), bytes) {
        Ok(modules) => return Ok(modules),
        Err(fault) => fault,
    };
    if is_link_memory(own) {
        return Err(own);
    }
    match lowered_modules(alloc, bytes) {
        Ok(modules) => Ok(modules),
        Err(unlowered) => Err(shown_of_file(own, unlowered)),
    }
}

/// The lowering of the module that bytes begin with; none if it is refused at a record that the lowering wrote.
///
/// # Errors
///
/// The fault of `lowered_module`, or of the check of the lowering; `Memory` if memory runs out.
fn lowering_of(alloc: Global, bytes: &[u8]) -> Result<Option<Checked>, LoweringFault>
    ensures some { IfOk result (λ found. IfSome found (IsLoweredModule bytes.now)) }
    ensures none { IfOk result (λ found. IfNone found (IsRefusedAsWritten any bytes.now)) }
    ensures fault { IfErr result (IsModuleUnloweredBy any bytes.now) }
{
    let lower = match lowered_module(alloc, bytes) {
        Ok(lower) => lower,
        Err(fault) => return Err(fault),
    };
    match check(alloc, &mut Bytes::new(&lower.bytes), any_profile()) {
        Ok(module) => Ok(Some(module)),
        Err(CheckFault::Memory) => Err(LoweringFault::Memory),
        Err(CheckFault::Read) => unreachable!(),
        Err(CheckFault::Refused { reason, place }) => match place_in(
            alloc,
            bytes,
            &lower.bytes,
            place,
        ) {
            Ok(Some(place)) => Err(LoweringFault::Refused { reason, place }),
            Ok(None) => Ok(None),
            Err(_) => Err(LoweringFault::Memory),
        },
    }
}

/// Bytes from an offset on; none after their end.
fn bytes_from(bytes: &[u8], offset: u64) -> &[u8]
    ensures { result.now ≡ drop offset bytes.now }
{
    if offset > bytes.len() as u64 {
        return &[];
    }
    &bytes[offset as usize..]
}

/// A refused member with the fault of its lowering, or of the check of that, if its own is one that a lowering mends.
fn with_fault(refused: RefusedMember, reason: Reason, place: Place) -> RefusedMember
    ensures { result ≡ with_fault refused reason place }
{
    if is_mendable(refused.reason) {
        return RefusedMember {
            offset: refused.offset,
            reason,
            place,
            publics: refused.publics,
        };
    }
    refused
}

/// What a program takes of a member of a library that is refused.
///
/// # Errors
///
/// `AllocError` if memory runs out.
fn taken_of_refused(
    alloc: Global,
    bytes: &[u8],
    refused: RefusedMember,
) -> Result<LibraryMember, AllocError>
    ensures { IfOk result (IsTakenOf bytes.now (Refused refused)) }
{
    match lowering_of(alloc, bytes_from(bytes, refused.offset)) {
        Ok(Some(module)) => Ok(LibraryMember::Module(module)),
        Ok(None) => Ok(LibraryMember::Refused(refused)),
        Err(LoweringFault::Memory) => Err(AllocError),
        Err(LoweringFault::Refused { reason, place }) => {
            Ok(LibraryMember::Refused(with_fault(refused, reason, place)))
        }
    }
}

/// What a program takes of a member of a library.
///
/// # Errors
///
/// `AllocError` if memory runs out.
fn taken_member(
    alloc: Global,
    bytes: &[u8],
    member: LibraryMember,
) -> Result<LibraryMember, AllocError>
    ensures { IfOk result (IsTakenOf bytes.now member) }
{
    match member {
        LibraryMember::Module(module) => Ok(LibraryMember::Module(module)),
        LibraryMember::Refused(refused) => taken_of_refused(alloc, bytes, refused),
    }
}

/// What a program takes of the members of a library: of a member that is refused its lowering, if it has one that is not.
///
/// # Errors
///
/// `AllocError` if memory runs out.
pub(crate) fn taken_members(
    alloc: Global,
    bytes: &[u8],
    members: Vec<LibraryMember>,
) -> Result<Vec<LibraryMember>, AllocError>
    ensures { IfOk result (λ v. AllZip (IsTakenOf bytes.now) members.items v.items) }
{
    let mut all = Vec::new(alloc);
    for member in members {
        all.push(taken_member(alloc, bytes, member)?)?;
    }
    Ok(all)
}

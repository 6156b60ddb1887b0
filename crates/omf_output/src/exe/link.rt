//! A DOS program (.EXE) of linked modules.

ghost use Rattle.std.specs.Prelude.{◌≡◌, ◌+◌, ◌∷◌, ◌≤◌, ◌<◌, ◌^◌, ℕ, All, IfOk, IfErr, [], Ok, Err, None, Some, filter_map, is_some, length, max, slice_get};
ghost use Rattle.omf_output.specs.Exe.Based.{HasReached, IsBased, Holds};
ghost use Rattle.omf_output.specs.Exe.Exe.{CanBeWritten, exe};
ghost use Rattle.omf_output.specs.Inner.Plans.{IsManyOrMemory, IsPlan};
ghost use Rattle.omf_output.specs.Exe.Linked.{IsExeFault, IsOverlap, exe_fault, extra, far_pair, later_faults, linked, linked_at, member_fault, words_from};
ghost use Rattle.omf_output.specs.Exe.Loading.{loaded};
ghost use Rattle.omf_output.specs.Exe.Members.{all_moving, portions, stack};
ghost use Rattle.omf_output.specs.Exe.Memory.{all_chunks, flat};
ghost use Rattle.omf_check.specs.Module.{recs_of};
ghost use Rattle.omf_output.specs.Exe.Overlaps.{AddInTurn, AddsWords};

use crate::exe::fault::ExeFault;
use crate::exe::file::{FarAddress, FileFault, Program, write_exe};
use crate::exe::laying::{data_end, image_of};
use crate::exe::member::Member;
use crate::exe::moving::movable;
use crate::exe::room::room_of;
use crate::exe::starting::{extra, stack_pointer, start_of};
use crate::exe::words::{Words, WordsFault};
use omf_reloc::reach;
use std::alloc::Global;

/// The file of a DOS program.
#[derive(Drop)]
pub struct ExeFile {
    /// Its bytes.
    pub bytes: Vec<u8>,
    /// Whether the program has a stack. Without one SS:SP is 0:0 in the file, and the program has to set it.
    pub has_stack: bool,
}

/// The fault of a module: its placement does not reach, or else its movers are not those of its records, or else a part of it does not move.
fn member_fault(member: &Member<'_>) -> Option<ExeFault>
    ensures { result ≡ member_fault member.now }
{
    let module = member.number;
    if let Err(fault) = reach(member.module, member.placement) {
        return Some(ExeFault::Reach { module, fault });
    }
    if !member.movers.are_of(member.module, member.placement) {
        return Some(ExeFault::Movers { module });
    }
    match movable(member.module, member.movers) {
        Some(place) => Some(ExeFault::Stays { module, place }),
        None => None,
    }
}

/// The fault of the first module that has one.
pub(crate) fn first_fault(members: &[Member<'_>]) -> Option<ExeFault>
    ensures { result ≡ slice_get (filter_map member_fault members.now) 0 }
{
    for member in members {
        if let Some(fault) = member_fault(member) {
            return Some(fault);
        }
    }
    None
}

/// Adds the relocation words of a module.
fn with_member(words: Words, member: &Member<'_>) -> Result<Words, ExeFault>
    ensures found { IfOk result (λ w. words_from (member.now ∷ []) words ≡ Ok w) }
    ensures adds { IfOk result (λ w. AddsWords member.now.movers member.now.places (recs_of member.now.bytes) words w) }
    ensures fault { IfErr result (IsOverlap (words_from (member.now ∷ []) words)) }
{
    match words.with_module(member.module, member.placement, member.movers) {
        Ok(words) => Ok(words),
        Err(WordsFault::Memory) => Err(ExeFault::Memory),
        Err(WordsFault::Overlap(place)) => {
            let module = member.number;
            Err(ExeFault::Overlap { module, place })
        }
    }
}

/// The address of each relocation word, module by module, in file order.
fn words_of(alloc: Global, members: &[Member<'_>]) -> Result<Vec<usize>, ExeFault>
    ensures found { IfOk result (λ v. words_from members.now [] ≡ Ok v.items) }
    ensures adds { IfOk result (λ v. AddInTurn (all_moving members.now) [] v.items) }
    ensures fault { IfErr result (IsOverlap (words_from members.now [])) }
{
    let mut words = Words::new(alloc);
    for member in members {
        words = with_member(words, member)?;
    }
    Ok(words.into_addresses())
}

/// What is known of a program before its bytes: its registers, where its data end, and where its segments do.
#[derive(Clone, Copy)]
struct Plan {
    code: FarAddress,
    stack: FarAddress,
    has_stack: bool,
    data_end: usize,
    memory_end: u64,
}

/// The plan of a program whose modules reach and move.
fn plan_of(members: &[Member<'_>]) -> Result<Plan, ExeFault>
    requires { All HasReached members.now }
    ensures plan { IfOk result (IsPlan members.now) }
    ensures hold { IfOk result (λ _. All Holds members.now) }
    ensures fault { IfErr result (λ f. slice_get (later_faults members.now) 0 ≡ Some f) }
{
    let code = start_of(members)?;
    let data_end = data_end(members);
    let room = room_of(members);
    let memory_end = room.end;
    if data_end as u64 > 1 << 20 || memory_end > 1 << 20 {
        return Err(ExeFault::TooHigh);
    }
    let stack = room.stack();
    Ok(Plan {
        code,
        stack: stack_pointer(stack)?,
        has_stack: stack.is_some(),
        data_end,
        memory_end,
    })
}

/// The program of a plan.
fn program_of(alloc: Global, members: &[Member<'_>], plan: &Plan) -> Result<Program, ExeFault>
    requires plan { IsPlan members.now plan.now }
    requires hold { All Holds members.now }
    ensures words { IfOk result (λ p. words_from members.now [] ≡ Ok p.words) }
    ensures adds { IfOk result (λ p. AddInTurn (all_moving members.now) [] p.words) }
    ensures image { IfOk result (λ p. p.image ≡ flat 0 plan.now.data_end (all_chunks (all_moving members.now))) }
    ensures registers { IfOk result (λ p. (p.code ≡ far_pair plan.now.code) × (p.stack ≡ far_pair plan.now.stack)) }
    ensures extra { IfOk result (λ p. p.extra ≡ extra plan.now.data_end plan.now.memory_end) }
    ensures fault { IfErr result (IsOverlap (words_from members.now [])) }
{
    let words = words_of(alloc, members)?;
    let image = image_of(alloc, members, plan.data_end)?;
    Ok(Program {
        image,
        words,
        code: plan.code,
        stack: plan.stack,
        extra: extra(plan.data_end, plan.memory_end),
    })
}

/// The MZ file of a program that lies in the first megabyte with its words.
fn file_of(alloc: Global, program: &Program, most: u16) -> Result<Vec<u8>, ExeFault>
    requires short { length program.now.image ≤ 2 ^ 20 }
    requires inside { All (λ at. at + 2 ≤ length program.now.image) program.now.words }
    ensures file { IfOk result (λ v. v.items ≡ exe most program.now) }
    ensures writable { IfOk result (λ v. CanBeWritten program.now) }
    ensures fault { IfErr result (IsManyOrMemory program.now) }
{
    match write_exe(alloc, program, most) {
        Ok(bytes) => Ok(bytes),
        Err(FileFault::TooMany) => Err(ExeFault::TooMany),
        Err(FileFault::Memory) => Err(ExeFault::Memory),
        Err(FileFault::TooLong) => unreachable!(),
        Err(FileFault::Outside(_)) => unreachable!(),
    }
}

/// The MZ file (.EXE) of linked modules. Each has a placement of a program that begins at paragraph 0, and the movers of it. The image is
/// stored up to the last data byte; the memory after it, up to the end of the segments, is the minimum that the header asks for, and `most` paragraphs the maximum, if that is not less. CS:IP is the
/// start of the one main module that names one; SS:SP is the end of the stack, which is all segments of the combine type STACK joined.
///
/// What DOS loads at any paragraph is, byte for byte, what the modules lay at their placements moved to that paragraph, and CS:IP and SS:SP
/// are the start and the end of the stack there.
///
/// # Errors
///
/// For the first module with such a fault, `Reach` if its placement does not reach, or else `Movers` if its movers are not those of its
/// records, or else `Stays` with the first part that does not move; else `NoStart`, `Starts` or `FarStart`; else `TooHigh` if the data or the segments end after 2^20; else `FarStack`; else `Overlap`
/// with the first data record or fixup that overlaps a relocation word before it, by module, then by record; else `TooMany` for more than
/// 65,535 relocation words. `Memory` if memory runs out, only if there is none of the faults up to `FarStack`.
pub fn link_exe(alloc: Global, members: &[Member<'_>], most: u16) -> Result<ExeFile, ExeFault>
    ensures file { IfOk result (λ e. e.bytes.items ≡ exe most (linked members.now)) }
    ensures loaded { IfOk result (λ e. (k : ℕ) → loaded e.bytes.items k ≡ linked_at k members.now) }
    ensures stack { IfOk result (λ e. e.has_stack ≡ is_some (stack (portions members.now))) }
    ensures none { IfOk result (λ _. exe_fault members.now ≡ None) }
    ensures fault { IfErr result (IsExeFault members.now) }
{
    if let Some(fault) = first_fault(members) {
        return Err(fault);
    }
    let plan = plan_of(members)?;
    let program = program_of(alloc, members, &plan)?;
    let bytes = file_of(alloc, &program, most)?;
    let has_stack = plan.has_stack;
    Ok(ExeFile { bytes, has_stack })
}

//! A DOS program of linked modules without a header (.COM).

ghost use Rattle.std.specs.Prelude.{◌≡◌, ◌≤◌, ◌+◌, ℕ, All, IfOk, IfErr, Some, None, drop, length};
ghost use Rattle.omf_output.specs.Exe.Based.{HasReached, Holds};
ghost use Rattle.omf_output.specs.Exe.Com.{IsComFault, after_prefix, com_bytes, com_fault, com_loaded, exe_part, long_fault, stack_bytes, start_fault};
ghost use Rattle.omf_output.specs.Exe.Linked.{linked_at, one_start, starts};
ghost use Rattle.omf_output.specs.Exe.Members.{all_moving, portions};
ghost use Rattle.omf_output.specs.Exe.Memory.{all_chunks, data_end};

use crate::exe::com_fault::ComFault;
use crate::exe::com_parts::first_part;
use crate::exe::laying::{data_end, image_of};
use crate::exe::link::first_fault;
use crate::exe::member::Member;
use crate::exe::room::room_of;
use crate::exe::starting::start_of;
use std::alloc::{AllocError, Global};

/// The offset of a program in its segment. DOS has the bytes before it for itself.
const PREFIX: usize = 256;

/// The offset of the word that DOS puts at the end of the segment, and the bytes that a stack needs below it at least.
const STACK_TOP: u64 = 65534;

const LEAST_STACK: u64 = 256;

/// The first fault of a module that an .EXE file has too.
fn exe_part(members: &[Member<'_>]) -> Option<ComFault>
    ensures { result ≡ exe_part members.now }
{
    match first_fault(members) {
        Some(fault) => Some(ComFault::Exe(fault)),
        None => None,
    }
}

/// The fault of the start: one that an .EXE file has too, or it is not at 0:100H.
fn start_fault(members: &[Member<'_>]) -> Option<ComFault>
    requires { All HasReached members.now }
    ensures { result ≡ start_fault (one_start (starts members.now)) }
{
    match start_of(members) {
        Ok(start) if start.selector == 0 && start.offset == 256 => None,
        Ok(start) => Some(ComFault::Start(start)),
        Err(fault) => Some(ComFault::Exe(fault)),
    }
}

/// The fault of a program whose data end at an address, if it and its stack have no room before offset FFFEH of its segment.
fn long_fault(members: &[Member<'_>], end: usize) -> Option<ComFault>
    requires { end ≡ data_end (all_chunks (all_moving members.now)) }
    ensures { result ≡ long_fault members.now }
{
    let room = room_of(members);
    let end = room.own_end.max(end as u64).max(PREFIX as u64);
    let stack = room.stack_len.max(LEAST_STACK);
    if end.saturating_add(stack) > STACK_TOP {
        return Some(ComFault::TooLong { end, stack });
    }
    None
}

/// The first fault of modules whose data end at an address.
fn com_fault(members: &[Member<'_>], end: usize) -> Option<ComFault>
    requires { end ≡ data_end (all_chunks (all_moving members.now)) }
    ensures { result ≡ com_fault members.now }
{
    if let Some(fault) = exe_part(members) {
        return Some(fault);
    }
    if let Some(fault) = start_fault(members) {
        return Some(fault);
    }
    if let Some(fault) = first_part(members) {
        return Some(fault);
    }
    long_fault(members, end)
}

/// The bytes of an image from 100H on.
fn after_prefix(alloc: Global, image: &[u8]) -> Result<Vec<u8>, AllocError>
    ensures { IfOk result (λ v. v.items ≡ drop 256 image.now) }
{
    let mut file = Vec::new(alloc);
    file.extend_from_slice(image.split_at(image.len().min(PREFIX)).1)?;
    Ok(file)
}

/// The .COM file of linked modules: their bytes from 100H to the last byte of data. Each has a placement of a program that begins at
/// paragraph 0, and the movers of it.
///
/// DOS loads the file at offset 100H of a segment, puts a word of 0 at its offset FFFEH, and starts it with CS, DS, ES and SS at the segment, IP at
/// 100H and SP at FFFEH. At any segment this is, byte for byte, what the modules have at their placements moved to that paragraph, from offset
/// 100H on, with their start there: the word is after the file's bytes, and so are the bytes that the stack needs.
///
/// # Errors
///
/// `Exe` with the fault of the first module that does not reach or does not move, or with that of the start, as `link_exe` returns them; else
/// `Start` for a start that is not at offset 100H of the first paragraph; else, for the first module with such a fault, `Low` with the first
/// data record that has a byte below 100H, or else the first fixup that has a relocation word (`Words`) or adds an offset in a frame that moves with
/// the program and does not begin where it does (`Frame`); else `TooLong` if the data or the segments, without those of the stack, end after
/// 65,534 less the bytes of the stack's segments, or less 256 if these are fewer. `Memory` if memory runs out, only if there is none of these faults.
pub fn link_com(alloc: Global, members: &[Member<'_>]) -> Result<Vec<u8>, ComFault>
    ensures file { IfOk result (λ v. v.items ≡ com_bytes members.now) }
    ensures loaded { IfOk result (λ v. (k : ℕ) → com_loaded v.items k ≡ after_prefix (linked_at k members.now)) }
    ensures short { IfOk result (λ v. length v.items + (256 + stack_bytes (portions members.now)) ≤ 65534) }
    ensures none { IfOk result (λ _. com_fault members.now ≡ None) }
    ensures fault { IfErr result (IsComFault members.now) }
{
    let end = data_end(members);
    if let Some(fault) = com_fault(members, end) {
        return Err(fault);
    }
    let image = image_of(alloc, members, end)?;
    Ok(after_prefix(alloc, &image)?)
}

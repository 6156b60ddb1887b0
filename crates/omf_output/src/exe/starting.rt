//! The registers of a program: its start and its stack.

ghost use Rattle.std.specs.Prelude.{◌≡◌, ◌∷◌, ◌<◌, ◌≤◌, ◌^◌, [], All, IfOk, IfErr, None, Some};
ghost use Rattle.omf_frame.specs.Bytes.{last};
ghost use Rattle.omf_check.specs.Module.{recs_of};
ghost use Rattle.omf_records.specs.Inner.Seen.{map_ok};
ghost use Rattle.omf_output.specs.Exe.Based.{HasReached};
ghost use Rattle.omf_output.specs.Exe.Linked.{extra, far_pair, in_registers, is_main, main_start, numbered_start, one_start, starts};

use crate::exe::fault::ExeFault;
use crate::exe::file::FarAddress;
use crate::exe::member::Member;
use crate::exe::room::Stack;
use omf_check::Checked;
use omf_records::Rec;
use omf_reloc::start;

/// Whether a module is a main one (TIS OMF 1.1, "MODEND", bit 7 of its type byte).
fn is_main(module: &Checked) -> bool
    ensures { result ≡ is_main (last (recs_of «module».now.bytes)) }
{
    let Rec::ModEnd { type_byte, .. } = module.end() else {
        return false;
    };
    type_byte >= 128
}

/// The start of a module that counts: that of a main one, if it names one.
fn main_start(member: &Member<'_>) -> Option<(u16, u32)>
    requires { HasReached member.now }
    ensures { result ≡ main_start member.now }
{
    if is_main(member.module) {
        start(member.module, member.placement)
    } else {
        None
    }
}

/// The same with the number of the module.
fn numbered_start(member: &Member<'_>) -> Option<(u32, (u16, u32))>
    requires { HasReached member.now }
    ensures { result ≡ numbered_start member.now }
{
    match main_start(member) {
        Some(start) => Some((member.number, start)),
        None => None,
    }
}

/// The start of a module as registers hold it.
fn far_address(module: u32, selector: u16, offset: u32) -> Result<FarAddress, ExeFault>
    ensures { map_ok far_pair result ≡ one_start ((«module», (selector, offset)) ∷ []) }
{
    match u16::try_from(offset) {
        Ok(offset) => Ok(FarAddress { selector, offset }),
        Err(_) => Err(ExeFault::FarStart { module }),
    }
}

/// The start of the one module that has one.
///
/// # Errors
///
/// `NoStart` if no module has one, `Starts` if two or more have, `FarStart` if its offset has more than 16 bits.
pub(crate) fn start_of(members: &[Member<'_>]) -> Result<FarAddress, ExeFault>
    requires { All HasReached members.now }
    ensures { map_ok far_pair result ≡ one_start (starts members.now) }
{
    let mut found: Option<(u32, (u16, u32))> = None;
    for member in members {
        let Some((second, start)) = numbered_start(member) else {
            continue;
        };
        if let Some((first, _)) = found {
            return Err(ExeFault::Starts { first, second });
        }
        found = Some((second, start));
    }
    match found {
        Some((module, (selector, offset))) => far_address(module, selector, offset),
        None => Err(ExeFault::NoStart),
    }
}

/// SS:SP: the selector of the stack's frame, and the end of the stack in it, where 65,536 is 0. Without a stack it is 0:0.
///
/// # Errors
///
/// `FarStack` if the stack ends before the base of its frame, or more than 65,536 bytes after it.
pub(crate) fn stack_pointer(stack: Option<Stack>) -> Result<FarAddress, ExeFault>
    ensures { map_ok far_pair result ≡ in_registers stack }
{
    let Some(stack) = stack else {
        return Ok(FarAddress {
            selector: 0,
            offset: 0,
        });
    };
    let base = u64::from(stack.frame.base);
    if stack.end < base || stack.end > base + 65536 {
        return Err(ExeFault::FarStack);
    }
    Ok(FarAddress {
        selector: stack.frame.selector,
        offset: ((stack.end - base) % 65536) as u16,
    })
}

/// The paragraphs after an image of `len` bytes up to the end of the segments, at most 65,535.
pub(crate) fn extra(len: usize, end: u64) -> u16
    requires { end ≤ 2 ^ 20 }
    ensures { result ≡ extra len end }
{
    let more = end.saturating_sub(len as u64);
    ((more + 15) / 16).min(65535) as u16
}

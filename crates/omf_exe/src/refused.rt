//! The lines of modules that are refused: of a file, and of a needed member.

ghost use Rattle.std.specs.Prelude.{◌≡◌, false};
ghost use Rattle.omf_exe.specs.Refusing.{IsRefusalFor, is_joining_memory};

use crate::files::{in_line, memory};
use crate::input::Origin;
use crate::joining::JoiningFault;
use crate::lines::put_origin;
use crate::refusal::Refusal;
use omf_cmd::{RunFault, fault_line};
use omf_frame::{Place, Reason, type_name};
use omf_library::RefusedMember;
use omf_linking::InputFile;
use omf_text::print_quoted;
use std::alloc::{AllocError, Global};

/// The name of a member: that in its header record, if it is there.
fn name_of(bytes: &[u8], offset: usize) -> &[u8] {
    let Some([_kind, _low, _high, length, rest @ ..]) = bytes.get(offset..) else {
        return &[];
    };
    let length = usize::from(*length);
    rest.get(..length).unwrap_or(&[])
}

/// The name of the type of the record at an offset; empty if it is unknown.
fn type_at(bytes: &[u8], offset: usize) -> &'static str {
    match bytes.get(offset) {
        Some(kind) => type_name(*kind),
        None => "",
    }
}

/// Appends the type of the record at an offset, if it is known: ` (COMDAT)`.
fn put_type(text: &mut String, bytes: &[u8], offset: usize) -> Result<(), AllocError> {
    let name = type_at(bytes, offset);
    if name.is_empty() {
        return Ok(());
    }
    text.push_str(" (")?;
    text.push_str(name)?;
    text.push(')')
}

/// Appends the text of a fault.
fn put_fault(alloc: Global, text: &mut String, fault: &RunFault) -> Result<(), AllocError> {
    let line = fault_line(alloc, fault)?;
    text.push_str(line.as_str())
}

/// The line of the first module of a file, if it is refused: `file "NAME" module 1 refused ..`, and at its end the type of the record at fault.
pub(crate) fn module_line(
    alloc: Global,
    files: &[InputFile],
    file: usize,
    reason: Reason,
    place: Place,
) -> Result<String, AllocError> {
    let mut text = String::new(alloc);
    let bytes = match files.get(file) {
        Some(file) => file.bytes(),
        None => &[],
    };
    let start = place.start as usize;
    put_origin(&mut text, files, file, 1)?;
    text.push(' ')?;
    put_fault(alloc, &mut text, &RunFault::Refused { reason, place })?;
    put_type(&mut text, bytes, start)?;
    text.push('\n')?;
    Ok(text)
}

/// The line of a member that is refused: `file "NAME" module 2 "MEMBER" refused ..`, and at its end the type of the record at fault.
fn member_line(
    alloc: Global,
    files: &[InputFile],
    origin: Origin,
    refused: &RefusedMember,
) -> Result<String, AllocError> {
    let mut text = String::new(alloc);
    let bytes = match files.get(origin.file) {
        Some(file) => file.bytes(),
        None => &[],
    };
    let offset = refused.offset as usize;
    put_origin(&mut text, files, origin.file, origin.number as u64)?;
    text.push(' ')?;
    print_quoted(&mut text, name_of(bytes, offset))?;
    text.push(' ')?;
    let Place { start, .. } = refused.place;
    let fault = RunFault::Refused {
        reason: refused.reason,
        place: refused.place,
    };
    put_fault(alloc, &mut text, &fault)?;
    put_type(&mut text, bytes, offset.saturating_add(start as usize))?;
    text.push('\n')?;
    Ok(text)
}

/// The refusal of modules that are not joined: of the first needed member that is refused. `from` are the origins of all members.
pub(crate) fn of_joining(
    alloc: Global,
    files: &[InputFile],
    from: &[Origin],
    fault: &JoiningFault,
) -> Refusal
    ensures { IsRefusalFor (is_joining_memory fault.now ≡ false) result }
{
    match fault {
        JoiningFault::Memory => memory(),
        JoiningFault::Refused(number, refused) => match from.get(*number) {
            Some(origin) => in_line(member_line(alloc, files, *origin, refused)),
            None => memory(),
        },
    }
}

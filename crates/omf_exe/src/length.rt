//! The length of the stack of an .EXE file, by its header.

ghost use Rattle.std.specs.Prelude.{◌≡◌, ◌≤◌, IfOk, length, option_map, string_bytes};
ghost use Rattle.omf_exe.specs.Stack.{file_stack, other_stack, stack_line};
ghost use Rattle.omf_exe.specs.declared.options.ProgramKind.TheVariants.{Exe};

use crate::listing::word;
use crate::options::ProgramKind;
use omf_combining::even;
use std::alloc::{AllocError, Global};
use std::fmt::Write;

/// The length of the stack of an .EXE file: its SP, where 0 is 65,536.
fn file_stack(bytes: &[u8]) -> u32
    requires { 28 ≤ length bytes.now }
    ensures { result ≡ file_stack bytes.now }
{
    match word(bytes, 16) {
        0 => 65536,
        pointer => u32::from(pointer),
    }
}

/// The length of the stack of a program of this kind with these bytes, if it is another than is asked for. None for a .COM file, whose SS:SP DOS
/// sets.
fn other_stack(kind: ProgramKind, size: Option<u16>, bytes: &[u8]) -> Option<u32>
    requires { kind ≡ Exe → 28 ≤ length bytes.now }
    ensures { result ≡ other_stack kind size bytes.now }
{
    match kind {
        ProgramKind::Exe => {
            let length = file_stack(bytes);
            if length == even(size?) {
                None
            } else {
                Some(length)
            }
        }
        ProgramKind::Com => None,
    }
}

/// The line of a length.
fn line_of(alloc: Global, length: u32) -> Result<String, AllocError>
    ensures { IfOk result (λ text. string_bytes text ≡ stack_line length) }
{
    let mut text = String::new(alloc);
    write!(
        text,
        "stack: SP is {length}: the modules' own is longer, or begins within a paragraph\n"
    )?;
    Ok(text)
}

/// The line of that length, if it is another than is asked for.
pub(crate) fn stack_line(
    alloc: Global,
    kind: ProgramKind,
    size: Option<u16>,
    bytes: &[u8],
) -> Result<Option<String>, AllocError>
    requires { kind ≡ Exe → 28 ≤ length bytes.now }
    ensures { IfOk result (λ text. option_map string_bytes text ≡ option_map stack_line (other_stack kind size bytes.now)) }
{
    match other_stack(kind, size, bytes) {
        Some(length) => Ok(Some(line_of(alloc, length)?)),
        None => Ok(None),
    }
}

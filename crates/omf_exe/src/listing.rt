//! The first and the last lines of a program's map: its modules, and where it starts.

ghost use Rattle.std.specs.Prelude.{◌≡◌, ◌+◌, ◌≤◌, IfOk, length, string_bytes};
ghost use Rattle.omf_frame.specs.Bytes.{AddsText};
ghost use Rattle.omf_check.specs.Module.{recs_of, typed_modules};
ghost use Rattle.omf_output.specs.Exe.Loading.{word};
ghost use Rattle.omf_exe.specs.Listing.{list_text, module_line};
ghost use Rattle.omf_exe.specs.Making.{header_lines, start_lines};
ghost use Rattle.omf_exe.specs.declared.options.ProgramKind.TheVariants.{Exe};

use crate::input::Origin;
use crate::lines::{Origins, origin_at, put_title};
use crate::options::ProgramKind;
use byteorder::{ByteOrder, LittleEndian};
use omf_check::Checked;
use omf_linking::InputFile;
use omf_map::print_far;
use std::alloc::{AllocError, Global};
use std::fmt::Write;

/// Appends the line of a module, by its number from 1.
fn put_line(
    text: &mut String,
    files: &[InputFile],
    from: &[Option<Origin>],
    number: usize,
    module: &Checked,
) -> Result<(), AllocError>
    ensures { AddsText result (string_bytes text.old) (string_bytes text.new) (module_line files.now from.now (number, recs_of «module».now.bytes)) }
{
    write!(text, "module {number} ")?;
    put_title(text, files, origin_at(from, number), module)?;
    text.push_str("\n")
}

/// Appends the lines of modules.
fn put_modules(
    text: &mut String,
    files: &[InputFile],
    from: &[Option<Origin>],
    modules: &[Checked],
) -> Result<(), AllocError>
    ensures { AddsText result (string_bytes text.old) (string_bytes text.new) (list_text files.now from.now (typed_modules modules.now)) }
{
    for (j, module) in modules.iter().enumerate() {
        put_line(text, files, from, j + 1, module)?;
    }
    Ok(())
}

/// The lines of a program's modules: the number of each from 1, and its file with its number there, or its name if the linker added it.
pub(crate) fn modules_text(alloc: Global, origins: Origins<'_>) -> Result<String, AllocError>
    ensures { IfOk result (λ text. string_bytes text ≡ list_text origins.entry.files.now origins.entry.from.now (typed_modules origins.entry.modules.now)) }
{
    let mut text = String::new(alloc);
    put_modules(&mut text, origins.files, origins.from, origins.modules)?;
    Ok(text)
}

/// The word at an offset of a header.
pub(crate) fn word(bytes: &[u8], at: usize) -> u16
    requires { at + 2 ≤ length bytes.now }
    ensures { result ≡ word bytes.now at }
{
    LittleEndian::read_u16(&bytes[at..])
}

/// Where a program starts and its stack is, by the header of an .EXE file.
fn header_text(alloc: Global, bytes: &[u8]) -> Result<String, AllocError>
    requires { 28 ≤ length bytes.now }
    ensures { IfOk result (λ text. string_bytes text ≡ header_lines bytes.now) }
{
    let mut text = String::new(alloc);
    text.push_str("start ")?;
    print_far(&mut text, word(bytes, 22), u64::from(word(bytes, 20)))?;
    text.push_str("\nstack ")?;
    print_far(&mut text, word(bytes, 14), u64::from(word(bytes, 16)))?;
    text.push_str("\n")?;
    Ok(text)
}

/// Appends where a program of this kind starts, and its stack, by the header of its file; nothing for a .COM file, which has none.
pub(crate) fn put_start(
    alloc: Global,
    map: &mut Vec<u8>,
    kind: ProgramKind,
    bytes: &[u8],
) -> Result<(), AllocError>
    requires { kind ≡ Exe → 28 ≤ length bytes.now }
    ensures { AddsText result map.old.items map.new.items (start_lines kind bytes.now) }
{
    match kind {
        ProgramKind::Exe => {
            let text = header_text(alloc, bytes)?;
            map.extend_from_slice(text.as_bytes())
        }
        ProgramKind::Com => Ok(()),
    }
}

//! What is shown of a file that is no library: the module that it begins with, and what follows that.

ghost use Rattle.std.specs.Prelude.{◌≡◌, ◌-◌, ◌<◌, ◌≤◌, IfOk, length};
ghost use Rattle.omf_frame.specs.Bytes.{AddsText};
ghost use Rattle.omf_dump.specs.Library.{IsFileText, IsLeftShown, IsNextShown, Shows, after_module, first_end, left_fields, left_head, left_text, module_head, module_title, offset_field};
ghost use Rattle.omf_dump.specs.Render.{fields_text};

use crate::answer::show_module;
use crate::comment::put_name;
use crate::fault::DumpFault;
use crate::field::hexadecimal;
use crate::format::{Format, Mode};
use crate::item::{close_record, end_fields};
use crate::later::{Rest, front_kind};
use crate::library::{front_contents, is_either};
use crate::output::send;
use crate::padding::after_module;
use crate::part::after;
use omf_frame::{Sink, Width, is_header};
use omf_host::put_decimal;
use std::alloc::{AllocError, Global};

/// Begins the title of a module after the first.
fn put_module_head(text: &mut Vec<u8>, format: Format, number: u64) -> Result<(), AllocError>
    ensures { AddsText result text.old.items text.new.items (module_head format number) }
{
    match format {
        Format::Text => text.extend_from_slice(b"module ")?,
        Format::Json => text.extend_from_slice(b"{\"module\":")?,
    }
    put_decimal(text, number)
}

/// An offset in the file.
fn put_offset(text: &mut Vec<u8>, format: Format, offset: u64) -> Result<(), AllocError>
    ensures { AddsText result text.old.items text.new.items (fields_text format (offset_field offset)) }
{
    hexadecimal(text, format, "offset", Width::Bits32, offset)
}

/// The title of a module after the first.
fn put_module_title(text: &mut Vec<u8>, format: Format, rest: Rest<'_>) -> Result<(), AllocError>
    ensures { AddsText result text.old.items text.new.items (module_title format rest.entry.number rest.entry.start rest.entry.bytes.now) }
{
    put_module_head(text, format, rest.number)?;
    put_offset(text, format, rest.start)?;
    put_name(text, format, "name", front_contents(rest.bytes))?;
    end_fields(text, format)?;
    close_record(text, format)
}

/// Begins the line of bytes that are left.
fn put_left_head(text: &mut Vec<u8>, format: Format) -> Result<(), AllocError>
    ensures { AddsText result text.old.items text.new.items (left_head format) }
{
    match format {
        Format::Text => text.extend_from_slice(b"left"),
        Format::Json => text.extend_from_slice(b"{\"left\":true"),
    }
}

/// The offset and the number of bytes that are left.
fn put_left_fields(
    text: &mut Vec<u8>,
    format: Format,
    offset: u64,
    length: u64,
) -> Result<(), AllocError>
    ensures { AddsText result text.old.items text.new.items (fields_text format (left_fields offset length)) }
{
    hexadecimal(text, format, "offset", Width::Bits32, offset)?;
    hexadecimal(text, format, "length", Width::Bits32, length)
}

/// The line of bytes that are left at an offset, if there are some.
fn put_left(text: &mut Vec<u8>, format: Format, offset: u64, bytes: &[u8]) -> Result<(), AllocError>
    ensures { AddsText result text.old.items text.new.items (left_text format offset bytes.now) }
{
    match bytes {
        [] => Ok(()),
        [_, ..] => {
            put_left_head(text, format)?;
            put_left_fields(text, format, offset, bytes.len() as u64)?;
            end_fields(text, format)?;
            close_record(text, format)
        }
    }
}

/// Writes what is shown of a module after the first. Returns whether it is refused.
fn show_next<K: Sink>(
    alloc: Global,
    writer: &mut K,
    mode: Mode,
    rest: Rest<'_>,
) -> Result<bool, DumpFault>
    ensures { IfOk result (λ is_refused. Shows (K.seen writer.old).bytes (K.seen writer.new).bytes (IsNextShown mode rest.entry.number rest.entry.start rest.entry.bytes.now is_refused)) }
{
    let mut title = Vec::new(alloc);
    let Ok(()) = put_module_title(&mut title, mode.style.format, rest) else {
        return Err(DumpFault::Memory);
    };
    send(writer, &title)?;
    let is_refused = show_module(alloc, writer, mode, rest.bytes)?;
    Ok(is_refused)
}

/// Writes the line of bytes that are left at an offset, if there are some.
fn show_left<K: Sink>(
    alloc: Global,
    writer: &mut K,
    mode: Mode,
    offset: u64,
    bytes: &[u8],
) -> Result<(), DumpFault>
    ensures { IfOk result (λ done. Shows (K.seen writer.old).bytes (K.seen writer.new).bytes (IsLeftShown mode offset bytes.now)) }
{
    let mut text = Vec::new(alloc);
    let Ok(()) = put_left(&mut text, mode.style.format, offset, bytes) else {
        return Err(DumpFault::Memory);
    };
    send(writer, &text)?;
    Ok(())
}

/// The offset of what follows the module that `rest` begins with and its padding.
fn end_at(bytes: &[u8], rest: &[u8]) -> usize
    requires { 0 < length rest.now × length rest.now ≤ length bytes.now }
    ensures value { result ≡ length bytes.now - length (after_module rest.now) }
    ensures further { length bytes.now - length rest.now < result }
    ensures inside { result ≤ length bytes.now }
{
    bytes.len() - after_module(rest).len()
}

/// The offset of what follows the module that a file begins with and its padding; of a file that begins with no module, its end.
fn first_end(bytes: &[u8]) -> usize
    ensures value { result ≡ first_end bytes.now }
    ensures inside { result ≤ length bytes.now }
{
    bytes.len() - after_module(bytes).len()
}

/// Writes what is shown of a file that is no library: the module that it begins with, the modules that follow, each after the padding of the one
/// before, and how many bytes are left. Returns whether a module is refused.
///
/// # Errors
///
/// `Memory` if memory ran out, `Write` if the writer failed.
pub(crate) fn show_file<K: Sink>(
    alloc: Global,
    writer: &mut K,
    mode: Mode,
    bytes: &[u8],
) -> Result<bool, DumpFault>
    ensures { IfOk result (λ is_refused. Shows (K.seen writer.old).bytes (K.seen writer.new).bytes (IsFileText mode bytes.now is_refused)) }
{
    let mut is_refused = show_module(alloc, writer, mode, bytes)?;
    let mut number: u64 = 1;
    let mut at = first_end(bytes);
    let mut rest = after(at, bytes);
    while is_header(front_kind(rest)) {
        let next = Rest {
            number,
            start: at as u64,
            bytes: rest,
        };
        let is_faulty = show_next(alloc, writer, mode, next)?;
        is_refused = is_either(is_refused, is_faulty);
        number += 1;
        at = end_at(bytes, rest);
        rest = after(at, bytes);
    }
    show_left(alloc, writer, mode, at as u64, rest)?;
    Ok(is_refused)
}

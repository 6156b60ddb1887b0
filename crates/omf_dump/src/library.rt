//! The members of a library one after another (TIS OMF 1.1, appendix 2).

ghost use Rattle.std.specs.Prelude.{◌≡◌, ◌+◌, ◌-◌, ◌/◌, ◌<◌, ◌≤◌, ◌^◌, ◌||◌, IfOk, length};
ghost use Rattle.omf_frame.specs.Bytes.{AddsText};
ghost use Rattle.omf_frame.specs.Framing.{front_record};
ghost use Rattle.omf_library.specs.Library.{HasHeader, header_of, next_page, page_size};
ghost use Rattle.omf_dump.specs.Library.{ArePagesText, IsEndShown, IsLibraryText, IsMemberShown, Shows, after_member, end_text, fault_head, fault_text, header_head, header_text, is_fault, title_head, title_text};

use crate::answer::show_module;
use crate::comment::put_name;
use crate::fault::DumpFault;
use crate::field::{hexadecimal, number, small};
use crate::format::{Format, Mode};
use crate::item::{close_record, end_fields};
use crate::later::{after_member, front_kind};
use crate::output::send;
use crate::part::{after, first};
use crate::spot::Spot;
use omf_frame::{Sink, Width, is_header};
use omf_host::put_decimal;
use omf_library::Header;
use std::alloc::{AllocError, Global};

/// The type of the record after the members.
const LIBRARY_END: u8 = 0xF1;

/// The offset of the first page at or after an offset.
fn next_page(page: usize, at: usize) -> usize
    requires filled { 0 < page }
    requires low { at + page < 2 ^ 64 }
    ensures { result ≡ next_page page at }
{
    (at + (page - 1)) / page * page
}

/// The contents of the record at the front, as far as they are present.
pub(crate) fn front_contents(bytes: &[u8]) -> &[u8]
    ensures value { result.now ≡ (front_record bytes.now).body }
    ensures short { length result.now ≤ 65534 }
{
    match bytes {
        [_, low, high, rest @ ..] => {
            let length = usize::from(*low) + 256 * usize::from(*high);
            first(length.saturating_sub(1), rest)
        }
        _ => &[],
    }
}

/// Begins the title of a member.
fn put_title_head(text: &mut Vec<u8>, format: Format, number: u64) -> Result<(), AllocError>
    ensures { AddsText result text.old.items text.new.items (title_head format number) }
{
    match format {
        Format::Text => text.extend_from_slice(b"member ")?,
        Format::Json => text.extend_from_slice(b"{\"member\":")?,
    }
    put_decimal(text, number)
}

/// The title of a member, which begins with these bytes.
fn put_title(text: &mut Vec<u8>, format: Format, spot: Spot, bytes: &[u8]) -> Result<(), AllocError>
    ensures { AddsText result text.old.items text.new.items (title_text format spot bytes.now) }
{
    put_title_head(text, format, spot.number)?;
    number(text, format, "page", spot.page)?;
    hexadecimal(text, format, "offset", Width::Bits32, spot.offset)?;
    put_name(text, format, "name", front_contents(bytes))?;
    end_fields(text, format)?;
    close_record(text, format)
}

/// Begins the line of a fault.
fn put_fault_head(text: &mut Vec<u8>, format: Format, name: &str) -> Result<(), AllocError>
    ensures { AddsText result text.old.items text.new.items (fault_head format name.now) }
{
    match format {
        Format::Text => {
            text.extend_from_slice(b"fault ")?;
            text.extend_from_slice(name.as_bytes())
        }
        Format::Json => {
            text.extend_from_slice(b"{\"fault\":\"")?;
            text.extend_from_slice(name.as_bytes())?;
            text.push(b'"')?;
            Ok(())
        }
    }
}

/// The line of a fault.
fn put_fault(
    text: &mut Vec<u8>,
    format: Format,
    name: &str,
    members: u64,
    offset: u64,
) -> Result<(), AllocError>
    ensures { AddsText result text.old.items text.new.items (fault_text format name.now members offset) }
{
    put_fault_head(text, format, name)?;
    number(text, format, "member", members)?;
    hexadecimal(text, format, "offset", Width::Bits32, offset)?;
    end_fields(text, format)?;
    close_record(text, format)
}

/// What is at an offset in place of a member, after this number of members.
fn put_end(
    text: &mut Vec<u8>,
    format: Format,
    members: u64,
    offset: u64,
    bytes: &[u8],
) -> Result<(), AllocError>
    ensures { AddsText result text.old.items text.new.items (end_text format members offset bytes.now) }
{
    match bytes {
        [] => put_fault(text, format, "NoEnd", members, offset),
        [kind, ..] => match *kind {
            LIBRARY_END => Ok(()),
            _ => put_fault(text, format, "NoMember", members, offset),
        },
    }
}

/// Writes what is shown of the member that these bytes begin with. Returns whether it is refused.
fn show_member<K: Sink>(
    alloc: Global,
    writer: &mut K,
    mode: Mode,
    spot: Spot,
    bytes: &[u8],
) -> Result<bool, DumpFault>
    ensures { IfOk result (λ is_refused. Shows (K.seen writer.old).bytes (K.seen writer.new).bytes (IsMemberShown mode spot bytes.now is_refused)) }
{
    let mut title = Vec::new(alloc);
    let Ok(()) = put_title(&mut title, mode.style.format, spot, bytes) else {
        return Err(DumpFault::Memory);
    };
    send(writer, &title)?;
    let is_refused = show_module(alloc, writer, mode, bytes)?;
    Ok(is_refused)
}

/// Whether the F1H is not there.
fn is_fault(bytes: &[u8]) -> bool
    ensures { result ≡ is_fault bytes.now }
{
    front_kind(bytes) != LIBRARY_END
}

/// Writes what is at an offset in place of a member. Returns whether it is a fault.
fn show_end<K: Sink>(
    alloc: Global,
    writer: &mut K,
    mode: Mode,
    spot: Spot,
    bytes: &[u8],
) -> Result<bool, DumpFault>
    ensures { IfOk result (λ is_faulty. Shows (K.seen writer.old).bytes (K.seen writer.new).bytes (IsEndShown mode spot bytes.now is_faulty)) }
{
    let mut text = Vec::new(alloc);
    let Ok(()) = put_end(
        &mut text,
        mode.style.format,
        spot.number,
        spot.offset,
        bytes,
    ) else {
        return Err(DumpFault::Memory);
    };
    send(writer, &text)?;
    Ok(is_fault(bytes))
}

/// The spot of the member at an offset, after this number of members.
fn spot_at(page: usize, number: u64, at: usize) -> Spot
    requires { 0 < page }
    ensures { result ≡ record { number = number; page = at / page; offset = at } }
{
    Spot {
        number,
        page: (at / page) as u64,
        offset: at as u64,
    }
}

/// The offset of the page after the member that `rest` begins with.
#[tactic(auto, using(omf_library::proofs::PageLaws::next_after))]
fn next_at(page: usize, bytes: &[u8], rest: &[u8]) -> usize
    requires filled { 0 < page }
    requires small { page < 2 ^ 32 }
    requires inside { 0 < length rest.now × length rest.now ≤ length bytes.now }
    ensures value { result ≡ next_page page (length bytes.now - length (after_member 0 rest.now)) }
    ensures further { length bytes.now - length rest.now < result }
{
    next_page(page, bytes.len() - after_member(rest).len())
}

/// Whether one of two is.
pub(crate) fn is_either(one: bool, other: bool) -> bool
    ensures { result ≡ (one || other) }
{
    one || other
}

/// Writes what is shown of the pages of a library, which have `page` bytes each: its members, and what is there after the last of them. Returns whether
/// it is refused.
fn show_pages<K: Sink>(
    alloc: Global,
    writer: &mut K,
    mode: Mode,
    page: usize,
    bytes: &[u8],
) -> Result<bool, DumpFault>
    requires header { HasHeader bytes.now }
    requires page { page ≡ page_size bytes.now }
    requires small { page < 2 ^ 32 }
    ensures { IfOk result (λ is_refused. Shows (K.seen writer.old).bytes (K.seen writer.new).bytes (ArePagesText mode bytes.now is_refused)) }
{
    let mut is_refused = false;
    let mut number: u64 = 0;
    let mut at = page;
    let mut rest = after(page, bytes);
    while is_header(front_kind(rest)) {
        let is_faulty = show_member(alloc, writer, mode, spot_at(page, number, at), rest)?;
        is_refused = is_either(is_refused, is_faulty);
        number += 1;
        at = next_at(page, bytes, rest);
        rest = after(at, bytes);
    }
    let is_faulty = show_end(alloc, writer, mode, spot_at(page, number, at), rest)?;
    Ok(is_either(is_refused, is_faulty))
}

/// Begins the line of the header of a library.
fn put_header_head(text: &mut Vec<u8>, format: Format) -> Result<(), AllocError>
    ensures { AddsText result text.old.items text.new.items (header_head format) }
{
    match format {
        Format::Text => text.extend_from_slice(b"library"),
        Format::Json => text.extend_from_slice(b"{\"library\":\"header\""),
    }
}

/// The line of the header of a library.
fn put_header(text: &mut Vec<u8>, format: Format, header: Header) -> Result<(), AllocError>
    ensures { AddsText result text.old.items text.new.items (header_text format header) }
{
    put_header_head(text, format)?;
    number(text, format, "page", u64::from(header.page))?;
    hexadecimal(
        text,
        format,
        "dictionary",
        Width::Bits32,
        u64::from(header.dictionary),
    )?;
    number(text, format, "blocks", u64::from(header.blocks))?;
    small(text, format, "flags", header.flags)?;
    end_fields(text, format)?;
    close_record(text, format)
}

/// Writes what is shown of a library with this header: the line of the header, its members, and what is there after the last of them. Returns whether it
/// is refused.
///
/// # Errors
///
/// `Memory` if memory ran out, `Write` if the writer failed.
pub(crate) fn show_library<K: Sink>(
    alloc: Global,
    writer: &mut K,
    mode: Mode,
    header: Header,
    bytes: &[u8],
) -> Result<bool, DumpFault>
    requires { HasHeader bytes.now × (header ≡ header_of bytes.now) }
    ensures { IfOk result (λ is_refused. Shows (K.seen writer.old).bytes (K.seen writer.new).bytes (IsLibraryText mode bytes.now is_refused)) }
{
    let mut line = Vec::new(alloc);
    let Ok(()) = put_header(&mut line, mode.style.format, header) else {
        return Err(DumpFault::Memory);
    };
    send(writer, &line)?;
    let is_refused = show_pages(alloc, writer, mode, header.page as usize, bytes)?;
    Ok(is_refused)
}

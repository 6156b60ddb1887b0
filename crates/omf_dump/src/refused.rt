//! A refused module: why, in words, and the bytes of the record at fault.

ghost use Rattle.std.specs.Prelude.{◌≡◌, codes};
ghost use Rattle.omf_frame.specs.Bytes.{AddsText};
ghost use Rattle.omf_frame.specs.Framing.{present};
ghost use Rattle.omf_dump.specs.Fields.{Characters};
ghost use Rattle.omf_dump.specs.Looks.{looks_like};
ghost use Rattle.omf_dump.specs.Refused.{byte_if, cut_fields, kind_if, library_fields, look_if, mark, mark_if, marked_len, marked_rows, reason_fields, refused_bytes, refused_front, refused_line, refused_record, size_fields, window, window_start};
ghost use Rattle.omf_dump.specs.Render.{fields_text, value_text};
ghost use Rattle.omf_dump.specs.Verdict.{reason_fields as own_fields};

use crate::field::{characters, hexadecimal, number, small, word};
use crate::format::Format;
use crate::item::{
    close_record, end_fields, put_bytes_block, put_kind_head, put_number_head, put_rows, put_spaces,
};
use crate::looks::{is_foreign, looks_like};
use crate::part::{after, first};
use omf_frame::{Place, Reason, Width};
use omf_host::put_decimal;
use omf_library::{LibraryFault, read_header};
use std::alloc::AllocError;

/// The most bytes that are shown of a record at fault.
const WINDOW: usize = 48;

/// The number of a reason and its name.
pub(crate) fn put_reason_fields(
    text: &mut Vec<u8>,
    format: Format,
    reason: Reason,
) -> Result<(), AllocError>
    ensures { AddsText result text.old.items text.new.items (fields_text format (own_fields reason)) }
{
    number(text, format, "refused", u64::from(reason.number()))?;
    word(text, format, "reason", reason.name())
}

/// The byte at the fault, if it is present.
fn put_byte_if(text: &mut Vec<u8>, format: Format, bytes: &[u8]) -> Result<(), AllocError>
    ensures { AddsText result text.old.items text.new.items (fields_text format (byte_if bytes.now)) }
{
    match bytes {
        [] => Ok(()),
        [byte, ..] => small(text, format, "byte", *byte),
    }
}

/// Why a record is refused, and where.
fn put_refusal(
    text: &mut Vec<u8>,
    format: Format,
    reason: Reason,
    within: u32,
    present: &[u8],
) -> Result<(), AllocError>
    ensures { AddsText result text.old.items text.new.items (fields_text format (reason_fields reason within present.now)) }
{
    put_reason_fields(text, format, reason)?;
    number(text, format, "within", u64::from(within))?;
    put_byte_if(text, format, after(within as usize, present))?;
    characters(text, format, "meaning", reason.sentence().as_bytes())
}

/// The header of a library that the input is cut in.
fn put_header_cut(text: &mut Vec<u8>, format: Format) -> Result<(), AllocError>
    ensures { AddsText result text.old.items text.new.items (fields_text format cut_fields) }
{
    word(text, format, "library", "HeaderCut")?;
    hexadecimal(text, format, "offset", Width::Bits32, 0)
}

/// The length of a header that is no page size.
fn put_page_size(text: &mut Vec<u8>, format: Format, size: u32) -> Result<(), AllocError>
    ensures { AddsText result text.old.items text.new.items (fields_text format (size_fields size)) }
{
    word(text, format, "library", "PageSize")?;
    hexadecimal(text, format, "offset", Width::Bits32, 1)?;
    number(text, format, "size", u64::from(size))
}

/// Why bytes that begin with F0H are no library, and where.
#[tactic(auto, using(crate::proofs::HeaderLaws::header_read))]
fn put_header_fault(text: &mut Vec<u8>, format: Format, input: &[u8]) -> Result<(), AllocError>
    ensures { AddsText result text.old.items text.new.items (fields_text format (library_fields input.now)) }
{
    match read_header(input) {
        Ok(_) => Ok(()),
        Err(LibraryFault::NoHeader) => Ok(()),
        Err(LibraryFault::HeaderCut) => put_header_cut(text, format),
        Err(LibraryFault::PageSize(size)) => put_page_size(text, format, size),
        Err(LibraryFault::Memory) => Ok(()),
        Err(LibraryFault::Refused { .. }) => Ok(()),
        Err(LibraryFault::NoEnd { .. }) => Ok(()),
    }
}

/// What an input looks like.
fn put_look_words(text: &mut Vec<u8>, format: Format, input: &[u8]) -> Result<(), AllocError>
    ensures { AddsText result text.old.items text.new.items (value_text format (codes "looks-like") (Characters (looks_like input.now))) }
{
    characters(text, format, "looks-like", looks_like(input).as_bytes())
}

/// What an input that does not begin with a header looks like.
fn put_look(
    text: &mut Vec<u8>,
    format: Format,
    is_shown: bool,
    input: &[u8],
) -> Result<(), AllocError>
    ensures { AddsText result text.old.items text.new.items (fields_text format (look_if is_shown input.now)) }
{
    match is_shown {
        true => {
            put_look_words(text, format, input)?;
            put_header_fault(text, format, input)
        }
        false => Ok(()),
    }
}

/// The bytes that are present of the record at the front.
fn present(bytes: &[u8]) -> &[u8]
    ensures { result.now ≡ present bytes.now }
{
    match bytes {
        [_, low, high, after @ ..] => {
            let size = usize::from(*low) + 256 * usize::from(*high);
            let (front, _rest) = bytes.split_at(3 + size.min(after.len()));
            front
        }
        _ => bytes,
    }
}

/// Where the bytes around an offset begin.
fn window_start(within: u32) -> usize
    ensures { result ≡ window_start within }
{
    16 * (within as usize / 16).saturating_sub(1)
}

/// The bytes around an offset.
fn window(within: u32, bytes: &[u8]) -> &[u8]
    ensures { result.now ≡ window within bytes.now }
{
    first(WINDOW, after(window_start(within), bytes))
}

/// The type of a record, if its type byte is present.
fn put_kind_if(text: &mut Vec<u8>, format: Format, bytes: &[u8]) -> Result<(), AllocError>
    ensures { AddsText result text.old.items text.new.items (kind_if format bytes.now) }
{
    match bytes {
        [] => Ok(()),
        [kind, ..] => put_kind_head(text, format, *kind),
    }
}

/// The number of bytes of the window up to the end of the line with the offset.
fn marked_len(within: u32) -> usize
    ensures { result ≡ marked_len within }
{
    let line = 16 * (within as usize / 16);
    line + 16 - window_start(within)
}

/// The line with a mark under the byte at an offset.
fn put_mark(text: &mut Vec<u8>, within: u32) -> Result<(), AllocError>
    ensures { AddsText result text.old.items text.new.items (mark within) }
{
    put_spaces(text, 13 + 3 * (within as usize % 16))?;
    text.extend_from_slice(b"^^ +")?;
    put_decimal(text, u64::from(within))?;
    text.push(b'\n')?;
    Ok(())
}

/// The mark under the byte at an offset, if it is present.
fn put_mark_if(text: &mut Vec<u8>, within: u32, bytes: &[u8]) -> Result<(), AllocError>
    ensures { AddsText result text.old.items text.new.items (mark_if within bytes.now) }
{
    match bytes {
        [] => Ok(()),
        [_, ..] => put_mark(text, within),
    }
}

/// The lines of the bytes around an offset, with a mark under the byte there.
fn put_marked_rows(text: &mut Vec<u8>, within: u32, bytes: &[u8]) -> Result<(), AllocError>
    ensures { AddsText result text.old.items text.new.items (marked_rows within bytes.now) }
{
    let shown = window(within, bytes);
    let len = marked_len(within);
    let start = window_start(within);
    put_rows(text, start as u64, first(len, shown))?;
    put_mark_if(text, within, after(within as usize, bytes))?;
    put_rows(text, (start + len) as u64, after(len, shown))
}

/// The bytes around an offset.
fn put_refused_bytes(
    text: &mut Vec<u8>,
    format: Format,
    within: u32,
    bytes: &[u8],
) -> Result<(), AllocError>
    ensures { AddsText result text.old.items text.new.items (refused_bytes format within bytes.now) }
{
    match format {
        Format::Text => put_marked_rows(text, within, bytes),
        Format::Json => put_bytes_block(
            text,
            format,
            window_start(within) as u64,
            window(within, bytes),
        ),
    }
}

/// The fields of the record at fault.
fn put_refused_line(
    text: &mut Vec<u8>,
    format: Format,
    place: Place,
    reason: Reason,
    rest: &[u8],
) -> Result<(), AllocError>
    ensures { AddsText result text.old.items text.new.items (refused_line format place reason rest.now) }
{
    put_number_head(text, format, u64::from(place.number), place.start)?;
    put_kind_if(text, format, rest)?;
    put_refusal(text, format, reason, place.within, present(rest))?;
    put_look(text, format, is_foreign(place.number, rest), rest)
}

/// Why the record at a place is refused, of an input of which `rest` follows the records before it.
pub(crate) fn open_refusal(
    text: &mut Vec<u8>,
    format: Format,
    place: Place,
    reason: Reason,
    rest: &[u8],
) -> Result<(), AllocError>
    ensures { AddsText result text.old.items text.new.items (refused_front format place reason rest.now) }
{
    put_refused_line(text, format, place, reason, rest)?;
    end_fields(text, format)?;
    put_refused_bytes(text, format, place.within, present(rest))
}

/// The same, and the end of the record.
pub(crate) fn show_refusal(
    text: &mut Vec<u8>,
    format: Format,
    place: Place,
    reason: Reason,
    rest: &[u8],
) -> Result<(), AllocError>
    ensures { AddsText result text.old.items text.new.items (refused_record format place reason rest.now) }
{
    open_refusal(text, format, place, reason, rest)?;
    close_record(text, format)
}

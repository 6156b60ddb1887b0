//! The fields in a byte of flags or codes (TIS OMF 1.1, "COMDAT", "LINSYM", "COMENT", "MODEND", "FIXUPP", "COMDEF").

ghost use Rattle.std.specs.Prelude.{◌≡◌};
ghost use Rattle.omf_frame.specs.Bytes.{AddsText};
ghost use Rattle.omf_dump.specs.Raw.{allocations, attribute_fields, comdat_aligns, comdat_attributes, comdat_flags, comment_class, comment_flags, communal_kind, end_flags, fix_frame, fix_target, leaves, line_flags, locat_fields, method_if, methods, patches, selections, thread_number, variables};
ghost use Rattle.omf_dump.specs.Render.{fields_text};
ghost use Rattle.omf_dump.specs.Words.{alignment_word, combination_word, location_word, word_in};
ghost use Rattle.std.specs.Prelude.{codes};

use crate::field::{flag, hexadecimal, method, number, small, word};
use crate::format::Format;
use crate::words::class_word;
use omf_frame::Width;
use std::alloc::AllocError;

/// The word for a COMDAT's selection criterion.
fn selection_word(code: u8) -> &'static str
    ensures { result.now ≡ word_in selections (codes "reserved") code }
{
    match code {
        0 => "no-match",
        1 => "pick-any",
        2 => "same-size",
        3 => "exact-match",
        _ => "reserved",
    }
}

/// The word for a COMDAT's allocation type.
fn allocation_word(code: u8) -> &'static str
    ensures { result.now ≡ word_in allocations (codes "reserved") code }
{
    match code {
        0 => "explicit",
        1 => "far-code",
        2 => "far-data",
        3 => "code32",
        4 => "data32",
        _ => "reserved",
    }
}

/// The word for a COMDAT's alignment.
pub(crate) fn align_word(code: u8) -> &'static str
    ensures { result.now ≡ word_in comdat_aligns (codes "reserved") code }
{
    match code {
        0 => "segment",
        1 => "byte",
        2 => "word",
        3 => "paragraph",
        4 => "page",
        5 => "dword",
        _ => "reserved",
    }
}

/// The word for what a BAKPAT or an NBKPAT changes.
pub(crate) fn patch_word(code: u8) -> &'static str
    ensures { result.now ≡ word_in patches (codes "reserved") code }
{
    match code {
        0 => "byte",
        1 => "word",
        2 => "dword",
        _ => "reserved",
    }
}

/// The word for a leaf of a TYPDEF, and for a communal.
pub(crate) fn leaf_word(code: u8) -> &'static str
    ensures { result.now ≡ word_in leaves (codes "other") code }
{
    match code {
        0x61 => "far",
        0x62 => "near",
        _ => "other",
    }
}

/// The word for a variable of a TYPDEF.
pub(crate) fn variable_word(code: u8) -> &'static str
    ensures { result.now ≡ word_in variables (codes "other") code }
{
    match code {
        0x77 => "array",
        0x79 => "structure",
        0x7B => "scalar",
        _ => "other",
    }
}

/// The word for a frame method without a datum.
fn method_word(code: u8) -> &'static str
    ensures { result.now ≡ word_in methods (codes "reserved") code }
{
    match code {
        4 => "location",
        5 => "target",
        _ => "reserved",
    }
}

/// The word for a location type.
pub(crate) fn locat_word(code: u8) -> &'static str
    ensures { result.now ≡ location_word code }
{
    match code {
        0 => "low-byte",
        1 => "offset16",
        2 => "base",
        3 => "pointer16:16",
        4 => "high-byte",
        5 => "loader-offset16",
        9 => "offset32",
        11 => "pointer16:32",
        13 => "loader-offset32",
        _ => "undefined",
    }
}

/// The word for the alignment of a segment.
fn alignment_word(code: u8) -> &'static str
    ensures { result.now ≡ alignment_word code }
{
    match code {
        0 => "absolute",
        1 => "byte",
        2 => "word",
        3 => "paragraph",
        4 => "page",
        5 => "dword",
        _ => "undefined",
    }
}

/// The word for its combination.
fn combination_word(code: u8) -> &'static str
    ensures { result.now ≡ combination_word code }
{
    match code {
        0 => "private",
        1 => "reserved1",
        2 => "public",
        3 => "reserved3",
        4 => "public4",
        5 => "stack",
        6 => "common",
        _ => "public7",
    }
}

/// A SEGDEF's attributes.
pub(crate) fn put_attributes(text: &mut Vec<u8>, format: Format, byte: u8) -> Result<(), AllocError>
    ensures { AddsText result text.old.items text.new.items (fields_text format (attribute_fields byte)) }
{
    let bits = if byte % 2 == 1 { 32 } else { 16 };
    word(text, format, "align", alignment_word(byte / 32))?;
    word(text, format, "combine", combination_word(byte / 4 % 8))?;
    number(text, format, "use", bits)?;
    flag(text, format, "big", byte / 2 % 2 == 1)
}

/// A COMDAT's flags.
pub(crate) fn put_comdat_flags(
    text: &mut Vec<u8>,
    format: Format,
    byte: u8,
) -> Result<(), AllocError>
    ensures { AddsText result text.old.items text.new.items (fields_text format (comdat_flags byte)) }
{
    small(text, format, "flags", byte)?;
    flag(text, format, "continued", byte % 2 == 1)?;
    flag(text, format, "iterated", byte / 2 % 2 == 1)?;
    flag(text, format, "local", byte / 4 % 2 == 1)?;
    flag(text, format, "in-code", byte / 8 % 2 == 1)
}

/// A COMDAT's attributes.
pub(crate) fn put_comdat_attributes(
    text: &mut Vec<u8>,
    format: Format,
    byte: u8,
) -> Result<(), AllocError>
    ensures { AddsText result text.old.items text.new.items (fields_text format (comdat_attributes byte)) }
{
    word(text, format, "selection", selection_word(byte / 16))?;
    word(text, format, "allocation", allocation_word(byte % 16))
}

/// A communal's data type.
pub(crate) fn put_communal_kind(
    text: &mut Vec<u8>,
    format: Format,
    byte: u8,
) -> Result<(), AllocError>
    ensures { AddsText result text.old.items text.new.items (fields_text format (communal_kind byte)) }
{
    word(text, format, "communal", leaf_word(byte))?;
    small(text, format, "kind", byte)
}

/// A LINSYM's flags.
pub(crate) fn put_line_flags(text: &mut Vec<u8>, format: Format, byte: u8) -> Result<(), AllocError>
    ensures { AddsText result text.old.items text.new.items (fields_text format (line_flags byte)) }
{
    small(text, format, "flags", byte)?;
    flag(text, format, "continued", byte % 2 == 1)
}

/// A comment's type byte.
pub(crate) fn put_comment_flags(
    text: &mut Vec<u8>,
    format: Format,
    byte: u8,
) -> Result<(), AllocError>
    ensures { AddsText result text.old.items text.new.items (fields_text format (comment_flags byte)) }
{
    small(text, format, "flags", byte)?;
    flag(text, format, "no-purge", byte / 128 % 2 == 1)?;
    flag(text, format, "no-list", byte / 64 % 2 == 1)
}

/// A comment's class.
pub(crate) fn put_comment_class(
    text: &mut Vec<u8>,
    format: Format,
    byte: u8,
) -> Result<(), AllocError>
    ensures { AddsText result text.old.items text.new.items (fields_text format (comment_class byte)) }
{
    small(text, format, "class", byte)?;
    word(text, format, "meaning", class_word(byte))
}

/// A MODEND's module type byte.
pub(crate) fn put_end_flags(text: &mut Vec<u8>, format: Format, byte: u8) -> Result<(), AllocError>
    ensures { AddsText result text.old.items text.new.items (fields_text format (end_flags byte)) }
{
    small(text, format, "flags", byte)?;
    flag(text, format, "main", byte / 128 % 2 == 1)?;
    flag(text, format, "has-start", byte / 64 % 2 == 1)
}

/// A frame method, if it has no datum.
fn put_method_if(text: &mut Vec<u8>, format: Format, code: u8) -> Result<(), AllocError>
    ensures { AddsText result text.old.items text.new.items (fields_text format (method_if code)) }
{
    if code < 4 {
        return Ok(());
    }
    method(text, format, "frame", method_word(code), None)
}

/// The number of a THREAD, and its method if it has no datum.
pub(crate) fn put_thread_number(
    text: &mut Vec<u8>,
    format: Format,
    byte: u8,
) -> Result<(), AllocError>
    ensures { AddsText result text.old.items text.new.items (fields_text format (thread_number byte)) }
{
    let thread = u64::from(byte % 4);
    if byte / 64 % 2 == 1 {
        number(text, format, "frame-thread", thread)?;
        put_method_if(text, format, byte / 4 % 8)
    } else {
        number(text, format, "target-thread", thread)
    }
}

/// The frame in fix data: a thread, or a method without a datum.
pub(crate) fn put_fix_frame(text: &mut Vec<u8>, format: Format, byte: u8) -> Result<(), AllocError>
    ensures { AddsText result text.old.items text.new.items (fields_text format (fix_frame byte)) }
{
    if byte / 128 % 2 == 1 {
        number(text, format, "frame-thread", u64::from(byte / 16 % 4))
    } else {
        put_method_if(text, format, byte / 16 % 8)
    }
}

/// The target in fix data, if a thread gives it.
pub(crate) fn put_fix_target(text: &mut Vec<u8>, format: Format, byte: u8) -> Result<(), AllocError>
    ensures { AddsText result text.old.items text.new.items (fields_text format (fix_target byte)) }
{
    if byte / 8 % 2 == 1 {
        number(text, format, "target-thread", u64::from(byte % 4))
    } else {
        Ok(())
    }
}

/// A fixup's location.
pub(crate) fn put_locat(
    text: &mut Vec<u8>,
    format: Format,
    width: Width,
    locat: u16,
) -> Result<(), AllocError>
    ensures { AddsText result text.old.items text.new.items (fields_text format (locat_fields width locat)) }
{
    hexadecimal(text, format, "at", width, u64::from(locat % 1024))?;
    word(
        text,
        format,
        "location",
        locat_word((locat / 1024 % 16) as u8),
    )?;
    flag(text, format, "self-relative", locat / 16_384 % 2 == 0)
}

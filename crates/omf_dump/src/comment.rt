//! What is shown of the text of comments of some classes (TIS OMF 1.1, "COMENT").

ghost use Rattle.std.specs.Prelude.{◌≡◌, ◌+◌, ◌*◌, ◌++◌, [], codes, option_map};
ghost use Rattle.omf_frame.specs.Bytes.{AddsText, has_bit};
ghost use Rattle.omf_dump.specs.Comments.{class_fields, codeview_fields, counted, delta_fields, directive_fields, directive_flags, export_end, export_fields, export_flags, export_internal, export_marks, extension_fields, import_end, import_fields, import_module, line_fields, name_before, ordinal_fields, subtype_fields, version_fields};
ghost use Rattle.omf_dump.specs.Render.{fields_text};

use crate::field::{characters, flag, number, signed, word};
use crate::format::Format;
use crate::words::subtype_word;
use std::alloc::AllocError;

/// A name after its length byte, and the bytes after it.
pub(crate) fn counted(bytes: &[u8]) -> Option<(&[u8], &[u8])>
    ensures { option_map (λ p. (p.0.now, p.1.now)) result ≡ counted bytes.now }
{
    match bytes {
        [] => None,
        [count, rest @ ..] => {
            let count = usize::from(*count);
            if count <= rest.len() {
                Some(rest.split_at(count))
            } else {
                None
            }
        }
    }
}

/// An ordinal.
fn put_ordinal(text: &mut Vec<u8>, format: Format, bytes: &[u8]) -> Result<(), AllocError>
    ensures { AddsText result text.old.items text.new.items (fields_text format (ordinal_fields bytes.now)) }
{
    match bytes {
        [low, high, ..] => {
            let ordinal = u64::from(*low) + 256 * u64::from(*high);
            number(text, format, "ordinal", ordinal)
        }
        _ => Ok(()),
    }
}

/// A name alone.
pub(crate) fn put_name(
    text: &mut Vec<u8>,
    format: Format,
    name: &str,
    bytes: &[u8],
) -> Result<(), AllocError>
    ensures { AddsText result text.old.items text.new.items (fields_text format (name_before name.now (λ rest. []) (counted bytes.now))) }
{
    match counted(bytes) {
        Some((bytes, _)) => characters(text, format, name, bytes),
        None => Ok(()),
    }
}

/// The entry of an IMPDEF in its library: a name or an ordinal.
fn put_import_end(
    text: &mut Vec<u8>,
    format: Format,
    flag: u8,
    bytes: &[u8],
) -> Result<(), AllocError>
    ensures { AddsText result text.old.items text.new.items (fields_text format (import_end flag bytes.now)) }
{
    match flag {
        0 => put_name(text, format, "entry", bytes),
        _ => put_ordinal(text, format, bytes),
    }
}

/// The library of an IMPDEF, and the entry there.
fn put_import_module(
    text: &mut Vec<u8>,
    format: Format,
    flag: u8,
    bytes: &[u8],
) -> Result<(), AllocError>
    ensures { AddsText result text.old.items text.new.items (fields_text format (import_module flag bytes.now)) }
{
    match counted(bytes) {
        Some((module, rest)) => {
            characters(text, format, "module", module)?;
            put_import_end(text, format, flag, rest)
        }
        None => Ok(()),
    }
}

/// IMPDEF, after its flag.
fn put_import_names(
    text: &mut Vec<u8>,
    format: Format,
    flag: u8,
    bytes: &[u8],
) -> Result<(), AllocError>
    ensures { AddsText result text.old.items text.new.items (fields_text format (name_before (codes "internal") (import_module flag) (counted bytes.now))) }
{
    match counted(bytes) {
        Some((internal, rest)) => {
            characters(text, format, "internal", internal)?;
            put_import_module(text, format, flag, rest)
        }
        None => Ok(()),
    }
}

/// IMPDEF.
fn put_import(text: &mut Vec<u8>, format: Format, bytes: &[u8]) -> Result<(), AllocError>
    ensures { AddsText result text.old.items text.new.items (fields_text format (import_fields bytes.now)) }
{
    match bytes {
        [] => Ok(()),
        [flag, rest @ ..] => put_import_names(text, format, *flag, rest),
    }
}

/// The ordinal of an EXPDEF, if it has one.
fn put_export_end(
    text: &mut Vec<u8>,
    format: Format,
    flags: u8,
    bytes: &[u8],
) -> Result<(), AllocError>
    ensures { AddsText result text.old.items text.new.items (fields_text format (export_end flags bytes.now)) }
{
    match flags / 128 % 2 == 1 {
        true => put_ordinal(text, format, bytes),
        false => Ok(()),
    }
}

/// The internal name of an EXPDEF, and its ordinal.
fn put_export_internal(
    text: &mut Vec<u8>,
    format: Format,
    flags: u8,
    bytes: &[u8],
) -> Result<(), AllocError>
    ensures { AddsText result text.old.items text.new.items (fields_text format (export_internal flags bytes.now)) }
{
    match counted(bytes) {
        Some((internal, rest)) => {
            characters(text, format, "internal", internal)?;
            put_export_end(text, format, flags, rest)
        }
        None => Ok(()),
    }
}

/// EXPDEF, after its flags.
fn put_export_names(
    text: &mut Vec<u8>,
    format: Format,
    flags: u8,
    bytes: &[u8],
) -> Result<(), AllocError>
    ensures { AddsText result text.old.items text.new.items (fields_text format (name_before (codes "exported") (export_internal flags) (counted bytes.now))) }
{
    match counted(bytes) {
        Some((exported, rest)) => {
            characters(text, format, "exported", exported)?;
            put_export_internal(text, format, flags, rest)
        }
        None => Ok(()),
    }
}

/// Whether the loader keeps the name of an EXPDEF in memory.
fn is_resident(flags: u8) -> bool
    ensures { result ≡ has_bit flags 6 }
{
    flags / 64 % 2 == 1
}

/// Whether the entry point of an EXPDEF uses no initialized data.
fn has_no_data(flags: u8) -> bool
    ensures { result ≡ has_bit flags 5 }
{
    flags / 32 % 2 == 1
}

/// The flags of an EXPDEF.
fn put_export_marks(text: &mut Vec<u8>, format: Format, flags: u8) -> Result<(), AllocError>
    ensures { AddsText result text.old.items text.new.items (fields_text format (export_marks flags)) }
{
    flag(text, format, "resident-name", is_resident(flags))?;
    flag(text, format, "no-data", has_no_data(flags))
}

/// The flags of an EXPDEF, and its number of parameters.
fn put_export_flags(text: &mut Vec<u8>, format: Format, flags: u8) -> Result<(), AllocError>
    ensures { AddsText result text.old.items text.new.items (fields_text format (export_flags flags)) }
{
    put_export_marks(text, format, flags)?;
    number(text, format, "parameters", u64::from(flags % 32))
}

/// EXPDEF.
fn put_export(text: &mut Vec<u8>, format: Format, bytes: &[u8]) -> Result<(), AllocError>
    ensures { AddsText result text.old.items text.new.items (fields_text format (export_fields bytes.now)) }
{
    match bytes {
        [] => Ok(()),
        [flags, rest @ ..] => {
            put_export_flags(text, format, *flags)?;
            put_export_names(text, format, *flags, rest)
        }
    }
}

/// A 16-bit number with a sign, little-endian, as it is stored.
fn delta_of(low: u8, high: u8) -> u16
    ensures { result ≡ low + 256 * high }
{
    u16::from(low) + 256 * u16::from(high)
}

/// What an INCDEF adds to the count of line numbers.
fn put_line_delta(text: &mut Vec<u8>, format: Format, bytes: &[u8]) -> Result<(), AllocError>
    ensures { AddsText result text.old.items text.new.items (fields_text format (line_fields bytes.now)) }
{
    match bytes {
        [low, high, ..] => signed(text, format, "line-delta", delta_of(*low, *high)),
        _ => Ok(()),
    }
}

/// INCDEF, as far as it goes.
fn put_deltas(text: &mut Vec<u8>, format: Format, bytes: &[u8]) -> Result<(), AllocError>
    ensures { AddsText result text.old.items text.new.items (fields_text format (delta_fields bytes.now)) }
{
    match bytes {
        [low, high, rest @ ..] => {
            signed(text, format, "external-delta", delta_of(*low, *high))?;
            put_line_delta(text, format, rest)
        }
        _ => Ok(()),
    }
}

/// The flags of an LNKDIR.
fn put_directive_flags(text: &mut Vec<u8>, format: Format, flags: u8) -> Result<(), AllocError>
    ensures { AddsText result text.old.items text.new.items (fields_text format (directive_flags flags)) }
{
    flag(text, format, "new-EXE", flags % 2 == 1)?;
    flag(text, format, "omit-publics", flags / 2 % 2 == 1)?;
    flag(text, format, "run-MPC", flags / 4 % 2 == 1)
}

/// The version of the CodeView information in an LNKDIR.
fn put_codeview(text: &mut Vec<u8>, format: Format, bytes: &[u8]) -> Result<(), AllocError>
    ensures { AddsText result text.old.items text.new.items (fields_text format (codeview_fields bytes.now)) }
{
    match bytes {
        [] => Ok(()),
        [codeview, ..] => number(text, format, "CodeView", u64::from(*codeview)),
    }
}

/// The versions in an LNKDIR.
fn put_versions(text: &mut Vec<u8>, format: Format, bytes: &[u8]) -> Result<(), AllocError>
    ensures { AddsText result text.old.items text.new.items (fields_text format (version_fields bytes.now)) }
{
    match bytes {
        [] => Ok(()),
        [pseudocode, rest @ ..] => {
            number(text, format, "pseudocode", u64::from(*pseudocode))?;
            put_codeview(text, format, rest)
        }
    }
}

/// LNKDIR, as far as it goes.
fn put_directives(text: &mut Vec<u8>, format: Format, bytes: &[u8]) -> Result<(), AllocError>
    ensures { AddsText result text.old.items text.new.items (fields_text format (directive_fields bytes.now)) }
{
    match bytes {
        [] => Ok(()),
        [flags, rest @ ..] => {
            put_directive_flags(text, format, *flags)?;
            put_versions(text, format, rest)
        }
    }
}

/// The fields of a subtype of the class A0H.
fn put_subtype_fields(
    text: &mut Vec<u8>,
    format: Format,
    subtype: u8,
    bytes: &[u8],
) -> Result<(), AllocError>
    ensures { AddsText result text.old.items text.new.items (fields_text format (subtype_fields subtype bytes.now)) }
{
    match subtype {
        1 => put_import(text, format, bytes),
        2 => put_export(text, format, bytes),
        3 => put_deltas(text, format, bytes),
        5 => put_directives(text, format, bytes),
        _ => Ok(()),
    }
}

/// The subtype of a comment of the class A0H, which is the first byte of its text, and its fields.
fn put_extension(text: &mut Vec<u8>, format: Format, comment: &[u8]) -> Result<(), AllocError>
    ensures { AddsText result text.old.items text.new.items (fields_text format (extension_fields comment.now)) }
{
    match comment {
        [] => Ok(()),
        [subtype, rest @ ..] => {
            word(text, format, "subtype", subtype_word(*subtype))?;
            put_subtype_fields(text, format, *subtype, rest)
        }
    }
}

/// The fields that the class of a comment has.
pub(crate) fn put_class_fields(
    text: &mut Vec<u8>,
    format: Format,
    class: u8,
    comment: &[u8],
) -> Result<(), AllocError>
    ensures { AddsText result text.old.items text.new.items (fields_text format (class_fields class comment.now)) }
{
    match class {
        0xA0 => put_extension(text, format, comment),
        0xA3 => put_name(text, format, "module", comment),
        _ => Ok(()),
    }
}

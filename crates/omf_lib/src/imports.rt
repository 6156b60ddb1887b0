//! The import definitions of a module (TIS OMF 1.1, COMENT, "IMPDEF"): names that a dynamic library has.

use omf_check::Checked;
use omf_host::put_quoted;
use omf_records::Rec;
use std::alloc::AllocError;
use std::fmt::Write;

/// The class of comments that can be import definitions.
const IMPORT_CLASS: u8 = 0xA0;

/// The subtype of import definitions.
const IMPORT: u8 = 1;

/// Characters after their number, and the bytes after them, if all are there.
fn counted<'a>(bytes: &'a [u8]) -> Option<(&'a [u8], &'a [u8])> {
    match bytes {
        [length, rest @ ..] if usize::from(*length) <= rest.len() => {
            Some(rest.split_at(usize::from(*length)))
        }
        _ => None,
    }
}

/// Appends the name of the entry; the internal name if it is empty.
fn put_entry_name(text: &mut String, internal: &[u8], bytes: &[u8]) -> Result<(), AllocError> {
    match counted(bytes) {
        Some((entry, _)) => {
            text.push(' ')?;
            put_quoted(text, if entry.is_empty() { internal } else { entry })
        }
        None => Ok(()),
    }
}

/// Appends the entry in the dynamic library: its ordinal, or its name.
fn put_entry(
    text: &mut String,
    is_ordinal: bool,
    internal: &[u8],
    bytes: &[u8],
) -> Result<(), AllocError> {
    match (is_ordinal, bytes) {
        (true, [low, high, ..]) => {
            let ordinal = u16::from_le_bytes([*low, *high]);
            write!(text, " {ordinal}")
        }
        (true, _) => Ok(()),
        (false, _) => put_entry_name(text, internal, bytes),
    }
}

/// Appends the line of an import definition, as far as it goes: the internal name, the dynamic library, the entry there.
fn put_import(
    text: &mut String,
    member: usize,
    is_ordinal: bool,
    bytes: &[u8],
) -> Result<(), AllocError> {
    let Some((internal, rest)) = counted(bytes) else {
        return Ok(());
    };
    write!(text, "I {member} ")?;
    put_quoted(text, internal)?;
    if let Some((library, rest)) = counted(rest) {
        text.push(' ')?;
        put_quoted(text, library)?;
        put_entry(text, is_ordinal, internal, rest)?;
    }
    text.push('\n')
}

/// Appends the line of a comment, if it is an import definition.
fn put_comment(
    text: &mut String,
    member: usize,
    class: u8,
    comment: &[u8],
) -> Result<(), AllocError> {
    match comment {
        [subtype, ordinal, rest @ ..] if class == IMPORT_CLASS && *subtype == IMPORT => {
            put_import(text, member, *ordinal != 0, rest)
        }
        _ => Ok(()),
    }
}

/// Appends a line for each import definition of a member.
pub fn put_imports(text: &mut String, member: usize, module: &Checked) -> Result<(), AllocError> {
    for (_, rec) in module.records() {
        if let Rec::Comment {
            class,
            text: comment,
            ..
        } = &rec
        {
            put_comment(text, member, *class, comment)?;
        }
    }
    Ok(())
}

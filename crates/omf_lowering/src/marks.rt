//! The mark of a COMDAT that is replaced: a COMENT of a class for users (TIS OMF 1.1, "COMENT").

ghost use Rattle.std.specs.Prelude.{◌≡◌, IfOk};
ghost use Rattle.omf_lowering.specs.Marks.{mark_contents, selection_by};

use omf_check::Undecoded;
use std::alloc::{AllocError, Global};

/// The type byte: a linker keeps the comment.
const TYPE_BYTE: u8 = 0x80;

/// One of the classes for users.
const CLASS: u8 = 0xDC;

/// The letters before the selection.
const LETTERS: &[u8] = b"COMDAT";

/// The contents of a mark with a selection.
pub(crate) fn mark_contents(alloc: Global, selection: u8) -> Result<Vec<u8>, AllocError>
    ensures { IfOk result (λ v. v.items ≡ mark_contents selection) }
{
    let mut body = Vec::new(alloc);
    body.push(TYPE_BYTE)?;
    body.push(CLASS)?;
    body.extend_from_slice(LETTERS)?;
    body.push(selection)?;
    Ok(body)
}

/// The selection in a mark: how a linker selects among the COMDATs of the name, 0 to 15 (TIS OMF 1.1, "COMDAT"). `None` if the record is no mark; no record but a
/// comment is decoded.
pub fn selection_of(record: &Undecoded<'_>) -> Option<u8>
    ensures { result ≡ selection_by record.now.contents }
{
    let Some(comment) = record.as_comment() else {
        return None;
    };
    if comment.type_byte != TYPE_BYTE || comment.class != CLASS || comment.text.len() != 7 {
        return None;
    }
    if &comment.text[..6] != LETTERS {
        return None;
    }
    Some(comment.text[6])
}

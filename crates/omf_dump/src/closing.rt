//! What follows the fields of a record: its items or its bytes.

ghost use Rattle.std.specs.Prelude.{◌+◌, ◌++◌, ◌<◌, ◌^◌, None, Some, length};
ghost use Rattle.omf_frame.specs.Bytes.{AddsText};
ghost use Rattle.omf_dump.specs.Render.{closing, line_end, list_end, list_start};

use crate::format::{Format, Style};
use crate::item::{end_fields, put_block};
use std::alloc::AllocError;

/// Ends the fields of a record, and shows its bytes.
pub(crate) fn close_block(
    text: &mut Vec<u8>,
    style: Style,
    first: u64,
    bytes: &[u8],
) -> Result<(), AllocError>
    requires { first + length bytes.now < 2 ^ 64 }
    ensures { AddsText result text.old.items text.new.items (closing style None (Some (record { first = first; bytes = bytes.now }))) }
{
    end_fields(text, style.format)?;
    put_block(text, style, first, bytes)
}

/// Ends the fields of a record, and begins its items.
pub(crate) fn begin_items(text: &mut Vec<u8>, style: Style) -> Result<(), AllocError>
    ensures { AddsText result text.old.items text.new.items (line_end style.format ++ list_start style.format) }
{
    match style.format {
        Format::Text => {
            text.push(b'\n')?;
            Ok(())
        }
        Format::Json => text.extend_from_slice(b",\"items\":["),
    }
}

/// Ends the items of a record.
pub(crate) fn end_items(text: &mut Vec<u8>, style: Style) -> Result<(), AllocError>
    ensures { AddsText result text.old.items text.new.items (list_end style.format) }
{
    match style.format {
        Format::Text => {}
        Format::Json => text.push(b']')?,
    }
    Ok(())
}

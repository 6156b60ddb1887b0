//! Names as a tool reads them.

ghost use Rattle.std.specs.Prelude.{◌≡◌, flat_map};
ghost use Rattle.omf_frame.specs.Bytes.{AddsText};
ghost use Rattle.omf_symbols.specs.Names.{escape, is_letter, is_plain, name_byte};

use omf_host::{Tool, put_byte};
use std::alloc::AllocError;

/// Whether a byte is a letter, a digit, a point or an underscore.
fn is_letter(byte: u8) -> bool
    ensures { result ≡ is_letter byte }
{
    byte >= b'a' && byte <= b'z'
        || byte >= b'A' && byte <= b'Z'
        || byte >= b'0' && byte <= b'9'
        || byte == b'.'
        || byte == b'_'
}

/// Whether a tool takes a byte of a name as it is.
fn is_plain(tool: Tool, byte: u8) -> bool
    ensures { result ≡ is_plain tool byte }
{
    match tool {
        Tool::Ghidra => byte > 0x20 && byte < 0x7F && byte != b'\\',
        Tool::Nm => byte > 0x20 && byte < 0x7F && byte != b'\\',
        Tool::Ida => byte > 0x20 && byte < 0x7F && byte != b'\\' && byte != b'"',
        Tool::Radare => is_letter(byte),
    }
}

/// What comes before the two digits of a byte that a tool does not take as it is.
fn escape(tool: Tool) -> &'static [u8]
    ensures { result.now ≡ escape tool }
{
    match tool {
        Tool::Ghidra => b"\\x",
        Tool::Nm => b"\\x",
        Tool::Ida => b"_",
        Tool::Radare => b"_",
    }
}

/// Appends a byte of a name, as it is or by its digits.
fn put_name_byte(text: &mut Vec<u8>, tool: Tool, byte: u8) -> Result<(), AllocError>
    ensures { AddsText result text.old.items text.new.items (name_byte tool byte) }
{
    if is_plain(tool, byte) {
        text.push(byte)?;
        Ok(())
    } else {
        text.extend_from_slice(escape(tool))?;
        put_byte(text, byte)
    }
}

/// Appends a name.
pub(crate) fn put_name(text: &mut Vec<u8>, tool: Tool, name: &[u8]) -> Result<(), AllocError>
    ensures { AddsText result text.old.items text.new.items (flat_map (name_byte tool) name.now) }
{
    for byte in name {
        put_name_byte(text, tool, *byte)?;
    }
    Ok(())
}

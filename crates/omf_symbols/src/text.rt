//! The text of symbols, in the form that a tool imports.

ghost use Rattle.std.specs.Prelude.{◌≡◌, IfOk, flat_map};
ghost use Rattle.omf_frame.specs.Bytes.{AddsText};
ghost use Rattle.omf_symbols.specs.Text.{ghidra_end, ghidra_line, head, ida_head, ida_line, nm_letter, nm_line, radare_line, symbol_line, symbols_text, tail};

use crate::name::put_name;
use crate::symbol::Symbol;
use omf_host::{Tool, put_eight};
use std::alloc::{AllocError, Global};

/// What Ghidra makes of a name: a function or a label.
fn ghidra_end(is_code: bool) -> &'static [u8]
    ensures { result.now ≡ ghidra_end is_code }
{
    if is_code { b" f\n" } else { b" l\n" }
}

/// Appends the line of a symbol for Ghidra.
fn put_ghidra(
    text: &mut Vec<u8>,
    is_code: bool,
    address: u64,
    name: &[u8],
) -> Result<(), AllocError>
    ensures { AddsText result text.old.items text.new.items (ghidra_line is_code address name.now) }
{
    put_name(text, Tool::Ghidra, name)?;
    text.extend_from_slice(b" 0x")?;
    put_eight(text, address)?;
    text.extend_from_slice(ghidra_end(is_code))
}

/// Appends the line of a symbol for IDA, up to its name.
fn put_ida_head(text: &mut Vec<u8>, address: u64) -> Result<(), AllocError>
    ensures { AddsText result text.old.items text.new.items (ida_head address) }
{
    text.extend_from_slice(b"  set_name(0x")?;
    put_eight(text, address)?;
    text.extend_from_slice(b", \"")?;
    Ok(())
}

/// Appends the line of a symbol for IDA.
fn put_ida(text: &mut Vec<u8>, address: u64, name: &[u8]) -> Result<(), AllocError>
    ensures { AddsText result text.old.items text.new.items (ida_line address name.now) }
{
    put_ida_head(text, address)?;
    put_name(text, Tool::Ida, name)?;
    text.extend_from_slice(b"\", SN_NOCHECK | SN_NOWARN);\n")
}

/// Appends the line of a symbol for radare2.
fn put_radare(text: &mut Vec<u8>, address: u64, name: &[u8]) -> Result<(), AllocError>
    ensures { AddsText result text.old.items text.new.items (radare_line address name.now) }
{
    text.extend_from_slice(b"f sym.")?;
    put_name(text, Tool::Radare, name)?;
    text.extend_from_slice(b" 1 0x")?;
    put_eight(text, address)?;
    text.extend_from_slice(b"\n")
}

/// The letter of a symbol in the lines of nm.
fn nm_letter(is_code: bool) -> &'static [u8]
    ensures { result.now ≡ nm_letter is_code }
{
    if is_code { b" T " } else { b" D " }
}

/// Appends the line of a symbol as nm writes it.
fn put_nm(text: &mut Vec<u8>, is_code: bool, address: u64, name: &[u8]) -> Result<(), AllocError>
    ensures { AddsText result text.old.items text.new.items (nm_line is_code address name.now) }
{
    put_eight(text, address)?;
    text.extend_from_slice(nm_letter(is_code))?;
    put_name(text, Tool::Nm, name)?;
    text.extend_from_slice(b"\n")
}

/// Appends the line of a symbol.
fn put_symbol(text: &mut Vec<u8>, tool: Tool, symbol: &Symbol<'_>) -> Result<(), AllocError>
    ensures { AddsText result text.old.items text.new.items (symbol_line tool symbol.now) }
{
    match tool {
        Tool::Ghidra => put_ghidra(text, symbol.is_code, symbol.address, symbol.name),
        Tool::Ida => put_ida(text, symbol.address, symbol.name),
        Tool::Radare => put_radare(text, symbol.address, symbol.name),
        Tool::Nm => put_nm(text, symbol.is_code, symbol.address, symbol.name),
    }
}

/// Appends the lines of symbols.
fn put_symbols(text: &mut Vec<u8>, tool: Tool, symbols: &[Symbol<'_>]) -> Result<(), AllocError>
    ensures { AddsText result text.old.items text.new.items (flat_map (symbol_line tool) symbols.now) }
{
    for symbol in symbols {
        put_symbol(text, tool, symbol)?;
    }
    Ok(())
}

/// What comes before the symbols.
fn head(tool: Tool) -> &'static [u8]
    ensures { result.now ≡ head tool }
{
    match tool {
        Tool::Ida => b"#include <idc.idc>\nstatic main() {\n",
        Tool::Ghidra => b"",
        Tool::Radare => b"",
        Tool::Nm => b"",
    }
}

/// What comes after the symbols.
fn tail(tool: Tool) -> &'static [u8]
    ensures { result.now ≡ tail tool }
{
    match tool {
        Tool::Ida => b"}\n",
        Tool::Ghidra => b"",
        Tool::Radare => b"",
        Tool::Nm => b"",
    }
}

/// The text of symbols, in their order, in the form that a tool imports: for Ghidra the lines of its ImportSymbolsScript.py, for IDA an IDC script, for
/// radare2 a flag for each symbol, and lines as nm prints them.
///
/// # Errors
///
/// `AllocError` if memory runs out.
pub fn symbols_text(
    alloc: Global,
    tool: Tool,
    symbols: &[Symbol<'_>],
) -> Result<Vec<u8>, AllocError>
    ensures { IfOk result (λ text. text.items ≡ symbols_text tool symbols.now) }
{
    let mut text = Vec::new(alloc);
    text.extend_from_slice(head(tool))?;
    put_symbols(&mut text, tool, symbols)?;
    text.extend_from_slice(tail(tool))?;
    Ok(text)
}

//! The lines of `list` and `check`.

ghost use Rattle.std.specs.Prelude.{◌≡◌, ◌++◌, ◌∷◌, [], OnOk, string_bytes, codes, decimal, unwrap_or, option_map};
ghost use Rattle.omf_frame.specs.Bytes.{AddsText};
ghost use Rattle.omf_cmd.specs.Printed.{line, index_or_dash};
ghost use Rattle.omf_placement.specs.Quoted.{hex, is_plain, escaped, quoted};
ghost use Rattle.omf_frame.specs.Types.{type_name};

use crate::digits::{eight_digits, two_digits};
use itoa::Buffer;
use omf_frame::{Name, type_name};
use std::alloc::AllocError;
use std::fmt::Write;

/// Appends a space and a decimal number.
fn print_number(text: &mut Vec<u8>, number: u64) -> Result<(), AllocError>
    ensures { AddsText result text.old.items text.new.items (32 ∷ decimal number) }
{
    let mut buffer = Buffer::new();
    text.push(b' ')?;
    text.extend_from_slice(buffer.format(number).as_bytes())
}

/// Appends a space and a type byte in two hexadecimal digits.
fn print_type(text: &mut Vec<u8>, kind: u8) -> Result<(), AllocError>
    ensures { AddsText result text.old.items text.new.items (32 ∷ hex 2 kind) }
{
    text.push(b' ')?;
    text.extend_from_slice(&two_digits(kind))
}

/// Appends a space and an offset in at least eight hexadecimal digits.
fn write_offset(text: &mut String, offset: u64) -> Result<(), AllocError>
    ensures { AddsText result (string_bytes text.old) (string_bytes text.new) (32 ∷ hex 8 offset) }
{
    write!(text, " {offset:08X}")
}

/// Appends a space and an offset of any size. Those of more than 32 bits are rare.
fn print_far_offset(text: &mut Vec<u8>, offset: u64) -> Result<(), AllocError>
    ensures { AddsText result text.old.items text.new.items (32 ∷ hex 8 offset) }
{
    let mut shown = String::new(*text.allocator());
    write_offset(&mut shown, offset)?;
    text.extend_from_slice(shown.as_bytes())
}

/// Appends a space and an offset in at least eight hexadecimal digits, without formatting if it has 32 bits.
fn print_offset(text: &mut Vec<u8>, offset: u64) -> Result<(), AllocError>
    ensures { AddsText result text.old.items text.new.items (32 ∷ hex 8 offset) }
{
    let Ok(offset) = u32::try_from(offset) else {
        return print_far_offset(text, offset);
    };
    text.push(b' ')?;
    text.extend_from_slice(&eight_digits(offset))
}

/// Appends a space, a word and a line feed.
fn print_last_word(text: &mut Vec<u8>, word: &str) -> Result<(), AllocError>
    ensures { OnOk result (text.new.items ≡ text.old.items ++ 32 ∷ word.now ++ 10 ∷ []) }
{
    text.push(b' ')?;
    text.extend_from_slice(word.as_bytes())?;
    text.push(b'\n')?;
    Ok(())
}

/// Appends the line of a record with this type name.
fn print_named(
    text: &mut Vec<u8>,
    number: u32,
    start: u64,
    kind: u8,
    length: usize,
    name: &str,
) -> Result<(), AllocError>
    ensures { AddsText result text.old.items text.new.items (line (codes "R" ∷ decimal number ∷ hex 8 start ∷ hex 2 kind ∷ decimal length ∷ name.now ∷ [])) }
{
    text.push(b'R')?;
    print_number(text, u64::from(number))?;
    print_offset(text, start)?;
    print_type(text, kind)?;
    print_number(text, length as u64)?;
    print_last_word(text, name)
}

/// Appends a record's line: number, offset, type byte, length of its contents, type name.
pub fn print_record(
    text: &mut Vec<u8>,
    number: u32,
    start: u64,
    kind: u8,
    length: usize,
) -> Result<(), AllocError>
    ensures { AddsText result text.old.items text.new.items (line (codes "R" ∷ decimal number ∷ hex 8 start ∷ hex 2 kind ∷ decimal length ∷ type_name kind ∷ [])) }
{
    print_named(text, number, start, kind, length, type_name(kind))
}

/// Whether a byte is printed as it is: 20H to 7EH without the quote and the backslash.
pub(crate) fn is_plain(byte: u8) -> bool
    ensures { result ≡ is_plain byte }
{
    byte >= 0x20 && byte <= 0x7E && byte != b'"' && byte != b'\\'
}

/// Appends a byte as `\x` and two hexadecimal digits.
fn print_digits(text: &mut Vec<u8>, byte: u8) -> Result<(), AllocError>
    ensures { AddsText result text.old.items text.new.items (92 ∷ 120 ∷ hex 2 byte) }
{
    text.extend_from_slice(b"\\x")?;
    text.extend_from_slice(&two_digits(byte))
}

/// Appends a byte of a name, as it is or as `\x` and two digits.
fn print_escaped(text: &mut Vec<u8>, byte: u8) -> Result<(), AllocError>
    ensures { AddsText result text.old.items text.new.items (escaped byte) }
{
    if is_plain(byte) {
        text.push(byte)?;
        Ok(())
    } else {
        print_digits(text, byte)
    }
}

/// Appends a space and a name in double quotes.
fn print_quoted(text: &mut Vec<u8>, name: &[u8]) -> Result<(), AllocError>
    ensures { AddsText result text.old.items text.new.items (32 ∷ quoted name.now) }
{
    text.extend_from_slice(b" \"")?;
    for byte in name {
        print_escaped(text, *byte)?;
    }
    text.push(b'"')?;
    Ok(())
}

/// Appends a space and a name in double quotes, or a dash for none.
fn print_name(text: &mut Vec<u8>, name: Option<Name<'_>>) -> Result<(), AllocError>
    ensures { OnOk result (text.new.items ≡ text.old.items ++ 32 ∷ unwrap_or (option_map quoted name.entry) (codes "-")) }
{
    match name {
        Some(name) => print_quoted(text, name.0),
        None => text.extend_from_slice(b" -"),
    }
}

/// Appends a space and an index, or a dash for 0.
fn print_index(text: &mut Vec<u8>, index: u16) -> Result<(), AllocError>
    ensures { AddsText result text.old.items text.new.items (32 ∷ index_or_dash index) }
{
    if index == 0 {
        text.extend_from_slice(b" -")
    } else {
        print_number(text, u64::from(index))
    }
}

/// Appends a segment's line: index, length in bytes, name.
pub fn print_segment(
    text: &mut Vec<u8>,
    index: u16,
    length: u64,
    name: Option<Name<'_>>,
) -> Result<(), AllocError>
    ensures { AddsText result text.old.items text.new.items (line (codes "S" ∷ decimal index ∷ decimal length ∷ unwrap_or (option_map quoted name.entry) (codes "-") ∷ [])) }
{
    text.push(b'S')?;
    print_number(text, u64::from(index))?;
    print_number(text, length)?;
    print_name(text, name)?;
    text.push(b'\n')?;
    Ok(())
}

/// Appends a group's line: index, name.
pub fn print_group(text: &mut Vec<u8>, index: u16, name: Option<Name<'_>>) -> Result<(), AllocError>
    ensures { AddsText result text.old.items text.new.items (line (codes "G" ∷ decimal index ∷ unwrap_or (option_map quoted name.entry) (codes "-") ∷ [])) }
{
    text.push(b'G')?;
    print_number(text, u64::from(index))?;
    print_name(text, name)?;
    text.push(b'\n')?;
    Ok(())
}

/// Appends an external's line: index, name.
pub fn print_external(text: &mut Vec<u8>, index: u16, name: &[u8]) -> Result<(), AllocError>
    ensures { AddsText result text.old.items text.new.items (line (codes "E" ∷ decimal index ∷ quoted name.now ∷ [])) }
{
    text.push(b'E')?;
    print_number(text, u64::from(index))?;
    print_quoted(text, name)?;
    text.push(b'\n')?;
    Ok(())
}

/// Appends a public's line: the indices of its group and its segment, offset, name.
pub fn print_public(
    text: &mut Vec<u8>,
    group: u16,
    segment: u16,
    offset: u32,
    name: &[u8],
) -> Result<(), AllocError>
    ensures { AddsText result text.old.items text.new.items (line (codes "P" ∷ index_or_dash group ∷ index_or_dash segment ∷ hex 8 offset ∷ quoted name.now ∷ [])) }
{
    text.push(b'P')?;
    print_index(text, group)?;
    print_index(text, segment)?;
    print_offset(text, u64::from(offset))?;
    print_quoted(text, name)?;
    text.push(b'\n')?;
    Ok(())
}

/// Appends the line of `check`: the numbers of records and bytes of a module.
pub fn print_totals(text: &mut String, records: u32, bytes: u64) -> Result<(), AllocError>
    ensures { AddsText result (string_bytes text.old) (string_bytes text.new) (line (codes "OK" ∷ decimal records ∷ codes "records," ∷ decimal bytes ∷ codes "bytes" ∷ [])) }
{
    write!(text, "OK {records} records, {bytes} bytes\n")
}

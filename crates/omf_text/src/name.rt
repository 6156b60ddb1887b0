//! Names in double quotes.

ghost use Rattle.std.specs.Prelude.{◌≡◌, ◌++◌, ◌∷◌, [], string_bytes, codes, unwrap_or, option_map, ◌<◌};
ghost use Rattle.omf_frame.specs.Bytes.{AddsText};
ghost use Rattle.omf_placement.specs.Quoted.{hex, is_plain, escaped, quoted};

use omf_frame::Name;
use std::alloc::AllocError;
use std::fmt::Write;

/// Returns whether a byte of a name is printed as itself: 20H to 7EH except the quote and the backslash.
fn is_plain(byte: u8) -> bool
    ensures { result ≡ is_plain byte }
{
    byte >= 0x20 && byte <= 0x7E && byte != b'"' && byte != b'\\'
}

/// Prints a byte as `\x` and two hexadecimal digits.
fn print_digits(text: &mut String, byte: u8) -> Result<(), AllocError>
    ensures { AddsText result (string_bytes text.old) (string_bytes text.new) (92 ∷ 120 ∷ hex 2 byte) }
{
    write!(text, "\\x{byte:02X}")
}

/// Prints a byte of a name.
fn print_escaped(text: &mut String, byte: u8) -> Result<(), AllocError>
    ensures { AddsText result (string_bytes text.old) (string_bytes text.new) (escaped byte) }
{
    if is_plain(byte) {
        text.push(char::from(byte))
    } else {
        print_digits(text, byte)
    }
}

/// Prints a name in double quotes.
pub fn print_quoted(text: &mut String, name: &[u8]) -> Result<(), AllocError>
    ensures { AddsText result (string_bytes text.old) (string_bytes text.new) (quoted name.now) }
{
    text.push_str("\"")?;
    for byte in name {
        print_escaped(text, *byte)?;
    }
    text.push_str("\"")
}

/// Prints a name in double quotes, or a dash for none.
pub fn print_name(text: &mut String, name: Option<Name<'_>>) -> Result<(), AllocError>
    ensures { AddsText result (string_bytes text.old) (string_bytes text.new) (unwrap_or (option_map quoted name.entry) (codes "-")) }
{
    match name {
        Some(name) => print_quoted(text, name.0),
        None => text.push_str("-"),
    }
}

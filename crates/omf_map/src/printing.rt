//! The lines of a map.

ghost use Rattle.std.specs.Prelude.{◌++◌, ◌∷◌, [], string_bytes, codes, decimal, unwrap_or, option_map};
ghost use Rattle.omf_frame.specs.Bytes.{AddsText};
ghost use Rattle.omf_placement.specs.Entries.{in_words};
ghost use Rattle.omf_placement.specs.Quoted.{hex, quoted};
ghost use Rattle.omf_map.specs.MapText.{address_or_dash, line, stored_end};

use omf_externals::print_digits;
use omf_frame::Name;
use std::alloc::AllocError;
use std::fmt::Write;

/// Prints a space and a decimal number.
pub(crate) fn print_number(text: &mut String, number: usize) -> Result<(), AllocError>
    ensures { AddsText result (string_bytes text.old) (string_bytes text.new) (32 ∷ decimal number) }
{
    write!(text, " {number}")
}

/// Prints a space and an address of eight hexadecimal digits, or a dash for none.
fn print_address(text: &mut String, address: Option<u64>) -> Result<(), AllocError>
    ensures { AddsText result (string_bytes text.old) (string_bytes text.new) (32 ∷ address_or_dash address) }
{
    match address {
        Some(address) => print_digits(text, address),
        None => text.push_str(" -"),
    }
}

/// Prints a line's first word, the number of a module, an index in it and an address.
fn print_entry(
    text: &mut String,
    word: &str,
    number: usize,
    index: u16,
    address: Option<u64>,
) -> Result<(), AllocError>
    ensures { AddsText result (string_bytes text.old) (string_bytes text.new) (word.now ++ 32 ∷ decimal number ++ 32 ∷ decimal index ++ 32 ∷ address_or_dash address) }
{
    text.push_str(word)?;
    print_number(text, number)?;
    print_number(text, usize::from(index))?;
    print_address(text, address)
}

/// Prints a space and a name in double quotes.
pub(crate) fn print_quoted(text: &mut String, name: &[u8]) -> Result<(), AllocError>
    ensures { AddsText result (string_bytes text.old) (string_bytes text.new) (32 ∷ quoted name.now) }
{
    text.push_str(" ")?;
    omf_text::print_quoted(text, name)
}

/// Prints a space and a name in double quotes, or a dash for none.
pub(crate) fn print_name(text: &mut String, name: Option<Name<'_>>) -> Result<(), AllocError>
    ensures { AddsText result (string_bytes text.old) (string_bytes text.new) (32 ∷ unwrap_or (option_map quoted name.entry) (codes "-")) }
{
    match name {
        Some(name) => print_quoted(text, name.0),
        None => text.push_str(" -"),
    }
}

/// Prints the names of a segment and of its class.
fn print_names(
    text: &mut String,
    name: Option<Name<'_>>,
    class: Option<Name<'_>>,
) -> Result<(), AllocError>
    ensures { AddsText result (string_bytes text.old) (string_bytes text.new) (32 ∷ unwrap_or (option_map quoted name.entry) (codes "-") ++ 32 ∷ unwrap_or (option_map quoted class.entry) (codes "-")) }
{
    print_name(text, name)?;
    print_name(text, class)
}

/// Prints the end of a segment's line: where it is stored, if that is elsewhere.
pub fn print_stored(text: &mut String, stored: Option<u64>) -> Result<(), AllocError>
    ensures { AddsText result (string_bytes text.old) (string_bytes text.new) (stored_end stored) }
{
    match stored {
        Some(address) => {
            text.push_str(" at")?;
            print_digits(text, address)?;
            text.push_str("\n")
        }
        None => text.push_str("\n"),
    }
}

/// Prints a segment's line without its end: the number of its module, its index, its address, its length, its name and that of its class.
pub fn print_segment(
    text: &mut String,
    number: usize,
    index: u16,
    address: Option<u64>,
    length: u64,
    name: Option<Name<'_>>,
    class: Option<Name<'_>>,
) -> Result<(), AllocError>
    ensures { AddsText result (string_bytes text.old) (string_bytes text.new) (in_words (codes "segment" ∷ decimal number ∷ decimal index ∷ address_or_dash address ∷ hex 8 length ∷ unwrap_or (option_map quoted name.entry) (codes "-") ∷ unwrap_or (option_map quoted class.entry) (codes "-") ∷ [])) }
{
    print_entry(text, "segment", number, index, address)?;
    print_digits(text, length)?;
    print_names(text, name, class)
}

/// Prints a public's line: the number of its module, its address and its name.
pub fn print_public(
    text: &mut String,
    number: usize,
    address: Option<u64>,
    name: &[u8],
) -> Result<(), AllocError>
    ensures { AddsText result (string_bytes text.old) (string_bytes text.new) (line (codes "public" ∷ decimal number ∷ address_or_dash address ∷ quoted name.now ∷ [])) }
{
    text.push_str("public")?;
    print_number(text, number)?;
    print_address(text, address)?;
    print_quoted(text, name)?;
    text.push_str("\n")
}

/// Prints an external's line: the number of its module, its index, its address and its name.
pub fn print_external(
    text: &mut String,
    number: usize,
    index: u16,
    address: Option<u64>,
    name: &[u8],
) -> Result<(), AllocError>
    ensures { AddsText result (string_bytes text.old) (string_bytes text.new) (line (codes "external" ∷ decimal number ∷ decimal index ∷ address_or_dash address ∷ quoted name.now ∷ [])) }
{
    print_entry(text, "external", number, index, address)?;
    print_quoted(text, name)?;
    text.push_str("\n")
}

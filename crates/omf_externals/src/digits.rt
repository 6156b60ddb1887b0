//! Hexadecimal digits, as lines show them.

ghost use Rattle.std.specs.Prelude.{◌∷◌, string_bytes};
ghost use Rattle.omf_frame.specs.Bytes.{AddsText};
ghost use Rattle.omf_placement.specs.Quoted.{hex};

use std::alloc::AllocError;
use std::fmt::Write;

/// Prints a space and a number of eight hexadecimal digits or more.
pub fn print_digits(text: &mut String, number: u64) -> Result<(), AllocError>
    ensures { AddsText result (string_bytes text.old) (string_bytes text.new) (32 ∷ hex 8 number) }
{
    write!(text, " {number:08X}")
}

//! The names of externals in a link text, in lower case.

ghost use Rattle.std.specs.Prelude.{◌≡◌, IfOk};
ghost use Rattle.omf_linking.specs.FoldedText.{folded_byte, folded_text, name_after, next_part, part_after};

use std::alloc::{AllocError, Global};

/// Where a byte of a link text is.
#[derive(Clone, Copy)]
pub enum Part {
    /// In front of the letter of its line.
    Front,
    /// After an X, the letter of externals.
    Letter,
    /// In the name of an external. After a backslash there it is one of this many bytes that stay: an `x` and two digits.
    Name { kept: u8 },
    /// Anywhere else.
    Rest,
}

/// Where the byte after this one of a name is.
fn name_after(kept: u8, byte: u8) -> Part
    ensures { result ≡ name_after kept byte }
{
    if byte == b'"' {
        return Part::Rest;
    }
    if kept > 0 {
        return Part::Name { kept: kept - 1 };
    }
    if byte == b'\\' {
        return Part::Name { kept: 3 };
    }
    Part::Name { kept: 0 }
}

/// Where the byte after this one is, in the same line.
fn part_after(part: Part, byte: u8) -> Part
    ensures { result ≡ part_after part byte }
{
    match part {
        Part::Front => match byte {
            b' ' => Part::Front,
            b'X' => Part::Letter,
            _ => Part::Rest,
        },
        Part::Letter => match byte {
            b' ' => Part::Letter,
            b'"' => Part::Name { kept: 0 },
            _ => Part::Rest,
        },
        Part::Name { kept } => name_after(kept, byte),
        Part::Rest => Part::Rest,
    }
}

/// Where the byte after this one is.
fn next_part(part: Part, byte: u8) -> Part
    ensures { result ≡ next_part part byte }
{
    if byte == b'\n' {
        return Part::Front;
    }
    part_after(part, byte)
}

/// A byte, in lower case if it is one of a name.
fn folded_byte(part: Part, byte: u8) -> u8
    ensures { result ≡ folded_byte part byte }
{
    match part {
        Part::Name { kept } => {
            if kept > 0 {
                byte
            } else {
                byte.to_ascii_lowercase()
            }
        }
        Part::Front => byte,
        Part::Letter => byte,
        Part::Rest => byte,
    }
}

/// A link text with the names of externals in lower case: the names in quotes of its X lines. The `x` and the digits after a backslash stay.
///
/// # Errors
///
/// `AllocError` if memory runs out.
pub fn folded_text(alloc: Global, text: &[u8]) -> Result<Vec<u8>, AllocError>
    ensures { IfOk result (λ v. v.items ≡ folded_text text.now) }
{
    let mut folded = Vec::with_capacity(alloc, text.len())?;
    let mut part = Part::Front;
    for byte in text {
        folded.push(folded_byte(part, *byte))?;
        part = next_part(part, *byte);
    }
    Ok(folded)
}

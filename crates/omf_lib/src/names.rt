//! Names, compared with or without case.

ghost use Rattle.std.specs.Prelude.{◌≡◌, ◌≤◌, length};
ghost use Rattle.omf_library.specs.Dictionary.{folded, is_same_name};

use std::alloc::{AllocError, Global};

/// A character as names are compared.
pub fn folded(is_case_sensitive: bool, c: u8) -> u8
    ensures { result ≡ folded is_case_sensitive c }
{
    if !is_case_sensitive && c >= b'A' && c <= b'Z' {
        c + 32
    } else {
        c
    }
}

/// Whether two names are one.
pub fn is_same_name(is_case_sensitive: bool, one: &[u8], other: &[u8]) -> bool
    ensures { result ≡ is_same_name is_case_sensitive one.now other.now }
{
    let mut rest = one;
    let mut others = other;
    while let [c, cs @ ..] = rest {
        match others {
            [] => return false,
            [d, ds @ ..] => {
                if folded(is_case_sensitive, *c) != folded(is_case_sensitive, *d) {
                    return false;
                }
                rest = cs;
                others = ds;
            }
        }
    }
    others.is_empty()
}

/// The byte of two hexadecimal digits.
fn byte_of(high: u8, low: u8) -> Option<u8> {
    let high = char::from(high).to_digit(16)?;
    let low = char::from(low).to_digit(16)?;
    Some((high * 16 + low) as u8)
}

/// The first byte of a typed name, and what follows it.
fn front_of<'a>(first: u8, others: &'a [u8]) -> (u8, &'a [u8])
    ensures { length result.1.now ≤ length others.entry.now }
{
    match others {
        [b'x', high, low, rest @ ..] if first == b'\\' => match byte_of(*high, *low) {
            Some(byte) => (byte, rest),
            None => (first, others),
        },
        _ => (first, others),
    }
}

/// The bytes of a name as it is typed: `\xNN` is the byte of two hexadecimal digits, as names are printed; any other byte is itself.
pub fn typed_name(alloc: Global, typed: &str) -> Result<Vec<u8>, AllocError> {
    let mut name = Vec::new(alloc);
    let mut rest = typed.as_bytes();
    while let [first, others @ ..] = rest {
        let (byte, after) = front_of(*first, others);
        name.push(byte)?;
        rest = after;
    }
    Ok(name)
}

//! A link text as it is read: tabs are spaces, several spaces are one, and the digits of escapes are capital.

ghost use Rattle.std.specs.Prelude.{◌≡◌, IfOk};
ghost use Rattle.omf_linking.specs.PlainText.{in_name, is_again, is_space, next_side, outside_after, plain_byte, plain_text, spaced, without_mark};

use std::alloc::{AllocError, Global};

/// On which side of the quotes a byte of a link text is.
#[derive(Clone, Copy)]
pub enum Side {
    /// Outside of names.
    Outside,
    /// Outside of names, after a space.
    Spaces,
    /// In a name. After a backslash it is one of this many bytes of an escape: an `x` and two digits.
    Name { left: u8 },
    /// In a comment.
    Comment,
}

/// Where the byte after this one of a name is.
fn in_name(left: u8, byte: u8) -> Side
    ensures { result ≡ in_name left byte }
{
    if byte == b'"' {
        return Side::Outside;
    }
    if left > 0 {
        return Side::Name { left: left - 1 };
    }
    if byte == b'\\' {
        return Side::Name { left: 3 };
    }
    Side::Name { left: 0 }
}

/// Whether a byte is a space or a tab.
fn is_space(byte: u8) -> bool
    ensures { result ≡ is_space byte }
{
    byte == b' ' || byte == b'\t'
}

/// Where the byte after this one is, which is outside of names.
fn outside_after(byte: u8) -> Side
    ensures { result ≡ outside_after byte }
{
    match byte {
        b'"' => Side::Name { left: 0 },
        b';' => Side::Comment,
        _ if is_space(byte) => Side::Spaces,
        _ => Side::Outside,
    }
}

/// Where the byte after this one is.
fn next_side(side: Side, byte: u8) -> Side
    ensures { result ≡ next_side side byte }
{
    if byte == b'\n' {
        return Side::Outside;
    }
    match side {
        Side::Outside | Side::Spaces => outside_after(byte),
        Side::Name { left } => in_name(left, byte),
        Side::Comment => Side::Comment,
    }
}

/// A space for a tab, or the byte.
fn spaced(byte: u8) -> u8
    ensures { result ≡ spaced byte }
{
    if byte == b'\t' { b' ' } else { byte }
}

/// A byte as it is read: a space for a tab outside of names, a capital digit in an escape.
fn plain_byte(side: Side, byte: u8) -> u8
    ensures { result ≡ plain_byte side byte }
{
    match side {
        Side::Outside | Side::Spaces => spaced(byte),
        Side::Name { left } => match left {
            1 => byte.to_ascii_uppercase(),
            2 => byte.to_ascii_uppercase(),
            _ => byte,
        },
        Side::Comment => spaced(byte),
    }
}

/// Whether a byte is one more space after another one.
fn is_again(side: Side, byte: u8) -> bool
    ensures { result ≡ is_again side byte }
{
    match side {
        Side::Spaces => is_space(byte),
        Side::Outside | Side::Name { .. } | Side::Comment => false,
    }
}

/// A text without a byte-order mark at its front.
fn without_mark(text: &[u8]) -> &[u8]
    ensures { result.now ≡ without_mark text.now }
{
    match text {
        [0xEF, 0xBB, 0xBF, rest @ ..] => rest,
        _ => text,
    }
}

/// A link text as it is read: without a byte-order mark, outside of names with one space for several spaces and tabs, and with capital digits in
/// the escapes of names (`\x1B` for `\x1b`). Its lines are those of the text.
///
/// # Errors
///
/// `AllocError` if memory runs out.
pub fn plain_text(alloc: Global, text: &[u8]) -> Result<Vec<u8>, AllocError>
    ensures { IfOk result (λ v. v.items ≡ plain_text text.now) }
{
    let text = without_mark(text);
    let mut plain = Vec::with_capacity(alloc, text.len())?;
    let mut side = Side::Outside;
    for byte in text {
        if !is_again(side, *byte) {
            plain.push(plain_byte(side, *byte))?;
        }
        side = next_side(side, *byte);
    }
    Ok(plain)
}

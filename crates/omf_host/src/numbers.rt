//! Numbers as a person types them.

ghost use Rattle.std.specs.Prelude.{◌≡◌, ◌<◌, ◌≤◌, ◌^◌, IfSome};
ghost use Rattle.omf_host.specs.Numbers.{amount, decimal, kilobytes, number, size};

use omf_placement::hexadecimal;
use omf_text::{before_letter, digits_of, marked};

/// Parses a number of 1 to `most` hexadecimal digits, alone, after `0x`, or before an H (there a zero in front of others is not
/// counted: `0FFH`). `most` is at most 8.
pub fn number(word: &[u8], most: usize) -> Option<u32>
    requires { most ≤ 8 }
    ensures value { result ≡ number most word.now }
    ensures bound { IfSome result (λ n. n < 16 ^ most) }
{
    hexadecimal(digits_of(word), most)
}

/// Parses a number of 1 to 7 decimal digits.
fn decimal(word: &[u8]) -> Option<u32>
    ensures { result ≡ decimal word.now }
{
    if word.is_empty() || word.len() > 7 {
        return None;
    }
    let mut value = 0u32;
    let mut left = word;
    while let Some((digit, rest)) = left.split_first() {
        value = value * 10 + char::from(*digit).to_digit(10)?;
        left = rest;
    }
    Some(value)
}

/// The bytes of a decimal number of kilobytes, of 1,024 bytes each. None if that is not below 4 GB.
fn kilobytes(word: &[u8]) -> Option<u32>
    ensures { result ≡ kilobytes word.now }
{
    let count = decimal(word)?;
    if count < 4_194_304 {
        Some(count * 1024)
    } else {
        None
    }
}

/// Parses a size in bytes: a decimal number of kilobytes before a K; else as `number`, of at most 8 digits.
pub fn size(word: &[u8]) -> Option<u32>
    ensures { result ≡ size word.now }
{
    match before_letter(word, b'K', b'k') {
        Some(digits) => kilobytes(digits),
        None => number(word, 8),
    }
}

/// Parses a size in bytes that is decimal, of at most 7 digits, if it has no mark: hexadecimal after `0x` or before an H, kilobytes before a K.
pub fn amount(word: &[u8]) -> Option<u32>
    ensures { result ≡ amount word.now }
{
    if let Some(digits) = marked(word) {
        return hexadecimal(digits, 8);
    }
    match before_letter(word, b'K', b'k') {
        Some(digits) => kilobytes(digits),
        None => decimal(word),
    }
}

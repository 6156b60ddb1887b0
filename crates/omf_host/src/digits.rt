//! Hexadecimal digits of numbers.

ghost use Rattle.std.specs.Prelude.{◌≡◌, ◌<◌, true};
ghost use Rattle.std.specs.Fmt.{digit_glyph};
ghost use Rattle.omf_placement.specs.Quoted.{hex};

/// The hexadecimal digits.
const DIGITS: &[u8; 16] = b"0123456789ABCDEF";

/// The digit of a number below 16.
#[inline(always)]
fn digit(number: u32) -> u8
    requires { number < 16 }
    ensures { result ≡ digit_glyph true number }
{
    DIGITS[number as usize]
}

/// A byte in two hexadecimal digits.
#[inline(always)]
pub(crate) fn two_digits(byte: u8) -> [u8; 2]
    ensures { result ≡ hex 2 byte }
{
    let number = u32::from(byte);
    [digit(number / 16), digit(number % 16)]
}

/// A number in eight hexadecimal digits.
pub(crate) fn eight_digits(number: u32) -> [u8; 8]
    ensures { result ≡ hex 8 number }
{
    [
        digit(number / 0x1000_0000),
        digit(number / 0x100_0000 % 16),
        digit(number / 0x10_0000 % 16),
        digit(number / 0x1_0000 % 16),
        digit(number / 0x1000 % 16),
        digit(number / 0x100 % 16),
        digit(number / 16 % 16),
        digit(number % 16),
    ]
}

/// A number in four hexadecimal digits.
pub(crate) fn four_digits(number: u16) -> [u8; 4]
    ensures { result ≡ hex 4 number }
{
    let number = u32::from(number);
    [
        digit(number / 0x1000),
        digit(number / 0x100 % 16),
        digit(number / 16 % 16),
        digit(number % 16),
    ]
}

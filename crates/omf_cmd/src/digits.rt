//! Hexadecimal digits of numbers.

ghost use Rattle.std.specs.Prelude.{◌≡◌, ◌+◌, ◌*◌, length, take, flat_map, [], ◌∷◌, ◌++◌};
ghost use Rattle.omf_placement.specs.Quoted.{hex};

/// The texts of the bytes 0 to 255, four bytes for each: a space, two hexadecimal digits, and the space of the next byte.
const SHOWN: [u8; 1024] = [
    32, 48, 48, 32, 32, 48, 49, 32, 32, 48, 50, 32, 32, 48, 51, 32, 32, 48, 52, 32, 32, 48, 53, 32,
    32, 48, 54, 32, 32, 48, 55, 32, 32, 48, 56, 32, 32, 48, 57, 32, 32, 48, 65, 32, 32, 48, 66, 32,
    32, 48, 67, 32, 32, 48, 68, 32, 32, 48, 69, 32, 32, 48, 70, 32, 32, 49, 48, 32, 32, 49, 49, 32,
    32, 49, 50, 32, 32, 49, 51, 32, 32, 49, 52, 32, 32, 49, 53, 32, 32, 49, 54, 32, 32, 49, 55, 32,
    32, 49, 56, 32, 32, 49, 57, 32, 32, 49, 65, 32, 32, 49, 66, 32, 32, 49, 67, 32, 32, 49, 68, 32,
    32, 49, 69, 32, 32, 49, 70, 32, 32, 50, 48, 32, 32, 50, 49, 32, 32, 50, 50, 32, 32, 50, 51, 32,
    32, 50, 52, 32, 32, 50, 53, 32, 32, 50, 54, 32, 32, 50, 55, 32, 32, 50, 56, 32, 32, 50, 57, 32,
    32, 50, 65, 32, 32, 50, 66, 32, 32, 50, 67, 32, 32, 50, 68, 32, 32, 50, 69, 32, 32, 50, 70, 32,
    32, 51, 48, 32, 32, 51, 49, 32, 32, 51, 50, 32, 32, 51, 51, 32, 32, 51, 52, 32, 32, 51, 53, 32,
    32, 51, 54, 32, 32, 51, 55, 32, 32, 51, 56, 32, 32, 51, 57, 32, 32, 51, 65, 32, 32, 51, 66, 32,
    32, 51, 67, 32, 32, 51, 68, 32, 32, 51, 69, 32, 32, 51, 70, 32, 32, 52, 48, 32, 32, 52, 49, 32,
    32, 52, 50, 32, 32, 52, 51, 32, 32, 52, 52, 32, 32, 52, 53, 32, 32, 52, 54, 32, 32, 52, 55, 32,
    32, 52, 56, 32, 32, 52, 57, 32, 32, 52, 65, 32, 32, 52, 66, 32, 32, 52, 67, 32, 32, 52, 68, 32,
    32, 52, 69, 32, 32, 52, 70, 32, 32, 53, 48, 32, 32, 53, 49, 32, 32, 53, 50, 32, 32, 53, 51, 32,
    32, 53, 52, 32, 32, 53, 53, 32, 32, 53, 54, 32, 32, 53, 55, 32, 32, 53, 56, 32, 32, 53, 57, 32,
    32, 53, 65, 32, 32, 53, 66, 32, 32, 53, 67, 32, 32, 53, 68, 32, 32, 53, 69, 32, 32, 53, 70, 32,
    32, 54, 48, 32, 32, 54, 49, 32, 32, 54, 50, 32, 32, 54, 51, 32, 32, 54, 52, 32, 32, 54, 53, 32,
    32, 54, 54, 32, 32, 54, 55, 32, 32, 54, 56, 32, 32, 54, 57, 32, 32, 54, 65, 32, 32, 54, 66, 32,
    32, 54, 67, 32, 32, 54, 68, 32, 32, 54, 69, 32, 32, 54, 70, 32, 32, 55, 48, 32, 32, 55, 49, 32,
    32, 55, 50, 32, 32, 55, 51, 32, 32, 55, 52, 32, 32, 55, 53, 32, 32, 55, 54, 32, 32, 55, 55, 32,
    32, 55, 56, 32, 32, 55, 57, 32, 32, 55, 65, 32, 32, 55, 66, 32, 32, 55, 67, 32, 32, 55, 68, 32,
    32, 55, 69, 32, 32, 55, 70, 32, 32, 56, 48, 32, 32, 56, 49, 32, 32, 56, 50, 32, 32, 56, 51, 32,
    32, 56, 52, 32, 32, 56, 53, 32, 32, 56, 54, 32, 32, 56, 55, 32, 32, 56, 56, 32, 32, 56, 57, 32,
    32, 56, 65, 32, 32, 56, 66, 32, 32, 56, 67, 32, 32, 56, 68, 32, 32, 56, 69, 32, 32, 56, 70, 32,
    32, 57, 48, 32, 32, 57, 49, 32, 32, 57, 50, 32, 32, 57, 51, 32, 32, 57, 52, 32, 32, 57, 53, 32,
    32, 57, 54, 32, 32, 57, 55, 32, 32, 57, 56, 32, 32, 57, 57, 32, 32, 57, 65, 32, 32, 57, 66, 32,
    32, 57, 67, 32, 32, 57, 68, 32, 32, 57, 69, 32, 32, 57, 70, 32, 32, 65, 48, 32, 32, 65, 49, 32,
    32, 65, 50, 32, 32, 65, 51, 32, 32, 65, 52, 32, 32, 65, 53, 32, 32, 65, 54, 32, 32, 65, 55, 32,
    32, 65, 56, 32, 32, 65, 57, 32, 32, 65, 65, 32, 32, 65, 66, 32, 32, 65, 67, 32, 32, 65, 68, 32,
    32, 65, 69, 32, 32, 65, 70, 32, 32, 66, 48, 32, 32, 66, 49, 32, 32, 66, 50, 32, 32, 66, 51, 32,
    32, 66, 52, 32, 32, 66, 53, 32, 32, 66, 54, 32, 32, 66, 55, 32, 32, 66, 56, 32, 32, 66, 57, 32,
    32, 66, 65, 32, 32, 66, 66, 32, 32, 66, 67, 32, 32, 66, 68, 32, 32, 66, 69, 32, 32, 66, 70, 32,
    32, 67, 48, 32, 32, 67, 49, 32, 32, 67, 50, 32, 32, 67, 51, 32, 32, 67, 52, 32, 32, 67, 53, 32,
    32, 67, 54, 32, 32, 67, 55, 32, 32, 67, 56, 32, 32, 67, 57, 32, 32, 67, 65, 32, 32, 67, 66, 32,
    32, 67, 67, 32, 32, 67, 68, 32, 32, 67, 69, 32, 32, 67, 70, 32, 32, 68, 48, 32, 32, 68, 49, 32,
    32, 68, 50, 32, 32, 68, 51, 32, 32, 68, 52, 32, 32, 68, 53, 32, 32, 68, 54, 32, 32, 68, 55, 32,
    32, 68, 56, 32, 32, 68, 57, 32, 32, 68, 65, 32, 32, 68, 66, 32, 32, 68, 67, 32, 32, 68, 68, 32,
    32, 68, 69, 32, 32, 68, 70, 32, 32, 69, 48, 32, 32, 69, 49, 32, 32, 69, 50, 32, 32, 69, 51, 32,
    32, 69, 52, 32, 32, 69, 53, 32, 32, 69, 54, 32, 32, 69, 55, 32, 32, 69, 56, 32, 32, 69, 57, 32,
    32, 69, 65, 32, 32, 69, 66, 32, 32, 69, 67, 32, 32, 69, 68, 32, 32, 69, 69, 32, 32, 69, 70, 32,
    32, 70, 48, 32, 32, 70, 49, 32, 32, 70, 50, 32, 32, 70, 51, 32, 32, 70, 52, 32, 32, 70, 53, 32,
    32, 70, 54, 32, 32, 70, 55, 32, 32, 70, 56, 32, 32, 70, 57, 32, 32, 70, 65, 32, 32, 70, 66, 32,
    32, 70, 67, 32, 32, 70, 68, 32, 32, 70, 69, 32, 32, 70, 70, 32,
];

/// A byte in two hexadecimal digits.
#[inline(always)]
pub fn two_digits(byte: u8) -> [u8; 2]
    ensures { result ≡ hex 2 byte }
{
    let at = 4 * usize::from(byte);
    [SHOWN[at + 1], SHOWN[at + 2]]
}

/// A number in eight hexadecimal digits.
#[inline(always)]
pub fn eight_digits(number: u32) -> [u8; 8]
    ensures { result ≡ hex 8 number }
{
    let [a, b] = two_digits((number / 0x100_0000) as u8);
    let [c, d] = two_digits((number / 0x1_0000 % 256) as u8);
    let [e, f] = two_digits((number / 0x100 % 256) as u8);
    let [g, h] = two_digits((number % 256) as u8);
    [a, b, c, d, e, f, g, h]
}

/// A number in four hexadecimal digits.
#[inline(always)]
pub fn four_digits(number: u16) -> [u8; 4]
    ensures { result ≡ hex 4 number }
{
    let [a, b] = two_digits((number / 0x100) as u8);
    let [c, d] = two_digits((number % 256) as u8);
    [a, b, c, d]
}

/// Writes a byte over three bytes: a space and two hexadecimal digits.
#[inline(always)]
fn write_byte(text: &mut [u8], byte: u8)
    requires { length text.old ≡ 3 }
    ensures { text.new ≡ 32 ∷ hex 2 byte }
{
    let at = 4 * usize::from(byte);
    text.copy_from_slice(&SHOWN[at..at + 3]);
}

/// Writes a byte over four bytes: a space and two hexadecimal digits, and the space of the next byte.
#[inline(always)]
fn write_byte_and_space(text: &mut [u8], byte: u8)
    requires { length text.old ≡ 4 }
    ensures { text.new ≡ 32 ∷ hex 2 byte ++ 32 ∷ [] }
{
    let at = 4 * usize::from(byte);
    text.copy_from_slice(&SHOWN[at..at + 4]);
}

/// Writes each byte as a space and two hexadecimal digits. The text is three times as long as the bytes, and one byte more.
#[inline(always)]
fn write_others(text: &mut [u8], bytes: &[u8])
    requires { length text.old ≡ 3 * length bytes.now + 1 }
    ensures { take (3 * length bytes.now) text.new ≡ flat_map (λ b. 32 ∷ hex 2 b) bytes.now }
{
    // Four bytes are written faster than three: the last of them is overwritten with the same space.
    for i in 0..bytes.len() {
        write_byte_and_space(&mut text[3 * i..3 * i + 4], bytes[i]);
    }
}

/// Writes each byte as a space and two hexadecimal digits. The text is three times as long as the bytes.
#[inline(always)]
pub fn write_bytes(text: &mut [u8], bytes: &[u8])
    requires { length text.old ≡ 3 * length bytes.now }
    ensures { text.new ≡ flat_map (λ b. 32 ∷ hex 2 b) bytes.now }
{
    let Some((last, others)) = bytes.split_last() else {
        return;
    };
    let end = 3 * others.len();
    write_others(&mut text[..end + 1], others);
    write_byte(&mut text[end..], *last);
}

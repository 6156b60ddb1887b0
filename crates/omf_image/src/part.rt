//! Addition of numbers to the locations of fixups.

ghost use Rattle.std.specs.Prelude.{◌≡◌, ◌≤◌, ◌+◌, ◌++◌, length, drop};
ghost use Rattle.omf_image.specs.Inner.Names.{part_size, sum_bytes};
ghost use Rattle.omf_image.specs.Parts.{add_part};

use byteorder::{ByteOrder, LittleEndian};

/// The size of a number that a fixup adds at its location.
#[derive(Clone, Copy, Debug, PartialEq, Eq)]
pub enum Part {
    /// One byte.
    Byte,
    /// Two bytes, little-endian.
    Word,
    /// Four bytes, little-endian.
    Dword,
}

/// Adds `value` to the first byte, modulo 2^8.
fn add_byte(place: &mut [u8], value: u32)
    requires { 1 ≤ length place.old }
    ensures { place.new ≡ sum_bytes 1 place.old value ++ drop 1 place.old }
{
    let sum = (u32::from(place[0]) + value % 256) % 256;
    place[0] = sum as u8;
}

/// Adds `value` to the first two bytes, modulo 2^16.
fn add_word(place: &mut [u8], value: u32)
    requires { 2 ≤ length place.old }
    ensures { place.new ≡ sum_bytes 2 place.old value ++ drop 2 place.old }
{
    let sum = (u32::from(LittleEndian::read_u16(place)) + value % 65536) % 65536;
    LittleEndian::write_u16(place, sum as u16);
}

/// Adds `value` to the first four bytes, modulo 2^32.
fn add_dword(place: &mut [u8], value: u32)
    requires { 4 ≤ length place.old }
    ensures { place.new ≡ sum_bytes 4 place.old value ++ drop 4 place.old }
{
    let sum = LittleEndian::read_u32(place).wrapping_add(value);
    LittleEndian::write_u32(place, sum);
}

/// Adds `value` to the little-endian number at `pos`, modulo the part's size (TIS OMF 1.1, "FIXUPP", LOCATION). No other byte
/// changes. The number must be within `buf`.
pub fn add_part(buf: &mut [u8], pos: usize, part: Part, value: u32)
    requires { pos + part_size part ≤ length buf.old }
    ensures { buf.new ≡ add_part buf.old pos (part_size part) value }
{
    match part {
        Part::Byte => add_byte(&mut buf[pos..], value),
        Part::Word => add_word(&mut buf[pos..], value),
        Part::Dword => add_dword(&mut buf[pos..], value),
    }
}

//! Self-delimiting fields of records (TIS OMF 1.1, "Frequently used fields").

ghost use Rattle.std.specs.Prelude.{◌≡◌, ◌≤◌, ◌<◌, ◌+◌, ◌++◌, ◌∷◌, ℕ, List, drop, length, vec_len, vec_capacity, IfSome, IfNone, OnOk, OnErr};
ghost use Rattle.omf_frame.specs.Fields.{IsSpelledAt, IsUnspelled, IsPrefixFree, IsShortest, IsLittle, IsIndex, index_bytes, IsName, name_bytes, IsCommunalLength, communal_length_bytes};
ghost use Rattle.omf_frame.specs.Inner.FieldLaws.{little_free, little_spelled, little_shortest, index_free, index_shortest, name_free, name_shortest, communal_free, communal_shortest};
ghost use Rattle.byteorder.specs.Endian.{little_bytes};
ghost use Rattle.std.proofs.Common.{ap};

use byteorder::{ByteOrder, LittleEndian};
use std::alloc::AllocError;
use std::marker::Model;

/// A field of a record and its encodings ("spellings"), none of which is a prefix of another.
pub trait Field<'a>: Sized {
    /// The bytes encode the value.
    ghost spells: { Self → List ℕ → Type 0 };

    /// The shortest encoding of a value.
    ghost shortest: { Self → List ℕ };

    /// Decodes the field at offset `pos` of `src`, and returns it with the offset after it. `None` if no encoding begins there.
    fn read_at(src: &'a [u8], pos: usize) -> Option<(Self, usize)>
        requires { pos ≤ length src.now }
        ensures found { IfSome result (λ p. IsSpelledAt spells src.now pos p.0 p.1) }
        ensures none { IfNone result (IsUnspelled spells (drop pos src.now)) };

    /// Appends the shortest encoding. After an error `out` is unchanged.
    fn put(&self, out: &mut Vec<u8>) -> Result<(), AllocError>
        ensures spelled { spells self.now (shortest self.now) }
        ensures ok { OnOk result (out.new.items ≡ out.old.items ++ shortest self.now) }
        ensures err { OnErr result (out.new.items ≡ out.old.items) }
        // Memory is asked for only if the capacity does not hold the encoding.
        ensures full { OnErr result (vec_capacity out.old < vec_len out.old + length (shortest self.now)) }
        ensures capacity { vec_capacity out.old ≤ vec_capacity out.new };

    /// No encoding is a prefix of another.
    ghost prefix_free: { IsPrefixFree spells };

    /// `shortest` is an encoding, and none is shorter.
    ghost is_shortest: { IsShortest spells shortest };
}

/// A little-endian number of 2 bytes.
#[derive(Clone, Copy, Debug, PartialEq, Eq)]
pub struct Le16(pub u16);

impl<'a> Field<'a> for Le16 {
    ghost spells = { λ x bytes. IsLittle 2 x.0 bytes };

    ghost shortest = { λ x. little_bytes 2 x.0 };

    fn read_at(src: &'a [u8], pos: usize) -> Option<(Le16, usize)> {
        if src.len() - pos < 2 {
            return None;
        }
        let end = pos + 2;
        Some((Le16(LittleEndian::read_u16(&src[pos..end])), end))
    }

    #[tactic(auto, using(crate::specs::Inner::FieldLaws::little_spelled))]
    fn put(&self, out: &mut Vec<u8>) -> Result<(), AllocError> {
        let Le16(value) = *self;
        let mut bytes = [0; 2];
        LittleEndian::write_u16(&mut bytes, value);
        out.extend_from_slice(&bytes)
    }

    ghost prefix_free = { λ x y a b r s h g e. let p = little_free 2 x.0 y.0 a b r s h g e in (p.0, ap (λ (n : ℕ). record { 0 = n }) p.1) };

    ghost is_shortest = { λ x a h. little_shortest 2 x.0 a h };
}

/// A little-endian number of 4 bytes.
#[derive(Clone, Copy, Debug, PartialEq, Eq)]
pub struct Le32(pub u32);

impl<'a> Field<'a> for Le32 {
    ghost spells = { λ x bytes. IsLittle 4 x.0 bytes };

    ghost shortest = { λ x. little_bytes 4 x.0 };

    fn read_at(src: &'a [u8], pos: usize) -> Option<(Le32, usize)> {
        if src.len() - pos < 4 {
            return None;
        }
        let end = pos + 4;
        Some((Le32(LittleEndian::read_u32(&src[pos..end])), end))
    }

    #[tactic(auto, using(crate::specs::Inner::FieldLaws::little_spelled))]
    fn put(&self, out: &mut Vec<u8>) -> Result<(), AllocError> {
        let Le32(value) = *self;
        let mut bytes = [0; 4];
        LittleEndian::write_u32(&mut bytes, value);
        out.extend_from_slice(&bytes)
    }

    ghost prefix_free = { λ x y a b r s h g e. let p = little_free 4 x.0 y.0 a b r s h g e in (p.0, ap (λ (n : ℕ). record { 0 = n }) p.1) };

    ghost is_shortest = { λ x a h. little_shortest 4 x.0 a h };
}

/// An index into a table, at most 32,767: 1 byte, or 2 with the top bit of the first set, high byte first.
#[derive(Clone, Copy, Debug, PartialEq, Eq)]
pub struct Index(pub u16);

impl Model for Index {
    ghost use Rattle.std.specs.Prelude.{ℕ, ◌<◌};

    ghost Value = { ℕ };

    ghost view = { λ a. a.0 };

    ghost invariant = { λ a. a.0 < 32768 };

    ghost inverse = { λ n. record { 0 = n } };
}

impl<'a> Field<'a> for Index {
    ghost spells = { IsIndex };

    ghost shortest = { index_bytes };

    fn read_at(src: &'a [u8], pos: usize) -> Option<(Index, usize)> {
        match &src[pos..] {
            [] => None,
            [first @ 0..128, ..] => Some((Index(u16::from(*first)), pos + 1)),
            [_] => None,
            [first, second, ..] => {
                let high = u16::from(*first - 128);
                Some((Index(high * 256 + u16::from(*second)), pos + 2))
            }
        }
    }

    #[tactic(auto, using(crate::specs::Inner::FieldLaws::index_spelled))]
    fn put(&self, out: &mut Vec<u8>) -> Result<(), AllocError> {
        let value = self.0;
        if value < 128 {
            Ok(out.push(value as u8)?)
        } else {
            out.extend_from_slice(&[(value / 256 + 128) as u8, (value % 256) as u8])
        }
    }

    ghost prefix_free = { index_free };

    ghost is_shortest = { index_shortest };
}

/// A name of at most 255 bytes, after a length byte.
#[derive(Debug, Drop)]
pub struct Name<'a>(pub &'a [u8]);

impl<'a> Model for Name<'a> {
    ghost use Rattle.std.specs.Prelude.{ℕ, ◌<◌, List, length};

    ghost Value = { List ℕ };

    ghost view = { λ a. a.0.now };

    ghost invariant = { λ a. length a.0.now < 256 };
}

impl<'a> Field<'a> for Name<'a> {
    ghost spells = { IsName };

    ghost shortest = { name_bytes };

    fn read_at(src: &'a [u8], pos: usize) -> Option<(Name<'a>, usize)> {
        if src.len() == pos {
            return None;
        }
        let start = pos + 1;
        let len = usize::from(src[pos]);
        if src.len() - start < len {
            return None;
        }
        let end = start + len;
        Some((Name(&src[start..end]), end))
    }

    fn put(&self, out: &mut Vec<u8>) -> Result<(), AllocError> {
        let bytes = self.0;
        out.reserve(bytes.len() + 1)?;
        out.push_reserved(bytes.len() as u8);
        out.extend_from_slice(bytes)
    }

    ghost prefix_free = { name_free };

    ghost is_shortest = { name_shortest };
}

/// Decodes a little-endian number of `count` bytes at `pos`, and returns it with the offset after it.
fn little_at(src: &[u8], pos: usize, count: usize) -> Option<(u32, usize)>
    requires within { pos ≤ length src.now }
    requires some { 0 < count }
    requires few { count ≤ 4 }
    ensures found { IfSome result (λ p. IsSpelledAt (λ n bytes. IsLittle count n bytes) src.now pos p.0 p.1) }
    ensures none { IfNone result (IsUnspelled (λ n bytes. IsLittle count n bytes) (drop pos src.now)) }
{
    if src.len() - pos < count {
        return None;
    }
    let end = pos + count;
    Some((LittleEndian::read_uint(&src[pos..end], count) as u32, end))
}

/// A communal length (TIS OMF 1.1, COMDEF): one byte up to 128, or 81H, 84H or 88H and a little-endian number of 2, 3 or 4 bytes.
/// All are unsigned.
#[derive(Clone, Copy, Debug, PartialEq, Eq)]
pub struct CommunalLength(pub u32);

impl<'a> Field<'a> for CommunalLength {
    ghost spells = { λ x bytes. IsCommunalLength x.0 bytes };

    ghost shortest = { λ x. communal_length_bytes x.0 };

    fn read_at(src: &'a [u8], pos: usize) -> Option<(CommunalLength, usize)> {
        if src.len() == pos {
            return None;
        }
        let after = pos + 1;
        let count = match src[pos] {
            first @ 0..=128 => return Some((CommunalLength(u32::from(first)), after)),
            129 => 2,
            132 => 3,
            136 => 4,
            _ => return None,
        };
        let (value, end) = little_at(src, after, count)?;
        Some((CommunalLength(value), end))
    }

    #[tactic(auto, using(crate::specs::Inner::FieldLaws::communal_spelled))]
    fn put(&self, out: &mut Vec<u8>) -> Result<(), AllocError> {
        let CommunalLength(value) = *self;
        let mut bytes = [0; 5];
        let (mark, count) = match value {
            0..=128 => return Ok(out.push(value as u8)?),
            129..0x1_0000 => (129, 2),
            0x1_0000..0x100_0000 => (132, 3),
            _ => (136, 4),
        };
        bytes[0] = mark;
        LittleEndian::write_uint(&mut bytes[1..], u64::from(value), count);
        out.extend_from_slice(&bytes[..count + 1])
    }

    ghost prefix_free = { λ x y a b r s h g e. let p = communal_free x.0 y.0 a b r s h g e in (p.0, ap (λ (n : ℕ). record { 0 = n }) p.1) };

    ghost is_shortest = { λ x a h. communal_shortest x.0 a h };
}

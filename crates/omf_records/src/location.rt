//! The types of locations (TIS OMF 1.1, "FIXUPP", LOCATION).
ghost use Rattle.std.specs.Prelude.{◌≡◌};
ghost use Rattle.omf_records.specs.Location.{location, location_of, row_of};

/// What a fixup changes: the type of its location.
#[derive(Clone, Copy)]
pub enum LocationType {
    /// 0: the low byte of an offset.
    LowByte,
    /// 1: an offset of 16 bits.
    Offset16,
    /// 2: the selector of a frame.
    Base,
    /// 3: an offset of 16 bits and a selector.
    Pointer16,
    /// 4: the high byte of an offset of 16 bits.
    HighByte,
    /// 5: an offset of 16 bits that a loader resolves.
    LoaderOffset16,
    /// 9: an offset of 32 bits.
    Offset32,
    /// 11: an offset of 32 bits and a selector.
    Pointer32,
    /// 13: an offset of 32 bits that a loader resolves.
    LoaderOffset32,
}

impl LocationType {
    /// The type with this number, if it is defined.
    #[inline(always)]
    pub(crate) fn of(number: u16) -> Option<LocationType>
        ensures { result ≡ location_of number }
    {
        match number {
            0 => Some(LocationType::LowByte),
            1 => Some(LocationType::Offset16),
            2 => Some(LocationType::Base),
            3 => Some(LocationType::Pointer16),
            4 => Some(LocationType::HighByte),
            5 => Some(LocationType::LoaderOffset16),
            9 => Some(LocationType::Offset32),
            11 => Some(LocationType::Pointer32),
            13 => Some(LocationType::LoaderOffset32),
            6..=8 | 10 | 12 | 14.. => None,
        }
    }

    /// The size in bytes: 1, 2, 4 or 6.
    #[inline(always)]
    pub fn size(self) -> u8
        ensures { result ≡ (row_of (location self).number).size }
    {
        match self {
            LocationType::LowByte | LocationType::HighByte => 1,
            LocationType::Offset16 | LocationType::Base | LocationType::LoaderOffset16 => 2,
            LocationType::Pointer16 | LocationType::Offset32 | LocationType::LoaderOffset32 => 4,
            LocationType::Pointer32 => 6,
        }
    }

    /// The bits of the offset: 16 or 32.
    pub fn offset_bits(self) -> u8
        ensures { result ≡ (row_of (location self).number).offset_bits }
    {
        match self {
            LocationType::Offset32 | LocationType::Pointer32 | LocationType::LoaderOffset32 => 32,
            LocationType::LowByte
            | LocationType::Offset16
            | LocationType::Base
            | LocationType::Pointer16
            | LocationType::HighByte
            | LocationType::LoaderOffset16 => 16,
        }
    }

    /// The bits of a self-relative offset: 16 or 32. A short jump is computed in 32 bits.
    pub fn self_relative_bits(self) -> u8
        ensures { result ≡ (row_of (location self).number).self_relative_bits }
    {
        match self {
            LocationType::LowByte
            | LocationType::Offset32
            | LocationType::Pointer32
            | LocationType::LoaderOffset32 => 32,
            LocationType::Offset16
            | LocationType::Base
            | LocationType::Pointer16
            | LocationType::HighByte
            | LocationType::LoaderOffset16 => 16,
        }
    }

    /// Whether a self-relative fixup may have this type.
    pub fn may_be_self_relative(self) -> bool
        ensures { result ≡ (row_of (location self).number).may_be_self_relative }
    {
        match self {
            LocationType::LowByte
            | LocationType::Offset16
            | LocationType::LoaderOffset16
            | LocationType::Offset32
            | LocationType::LoaderOffset32 => true,
            LocationType::Base
            | LocationType::Pointer16
            | LocationType::HighByte
            | LocationType::Pointer32 => false,
        }
    }
}

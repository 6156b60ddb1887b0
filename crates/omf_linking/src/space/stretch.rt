//! Bytes of a segment in memory.

/// A segment of a module.
#[derive(Clone, Copy, Debug, PartialEq, Eq)]
pub struct Owner {
    /// The module, from 0.
    pub module: u32,
    /// The index of the segment in its module, from 1.
    pub segment: u16,
}

/// Bytes of a segment at an address.
#[derive(Clone, Copy)]
pub struct Stretch<'a> {
    /// The segment.
    pub owner: Owner,
    /// Whether the segment is common (C = 6, TIS OMF 1.1, "SEGDEF").
    pub common: bool,
    /// The address of the first byte.
    pub address: u32,
    /// The bytes.
    pub bytes: &'a [u8],
}

//! Segments, for later records.

/// A segment as its SEGDEF defines it (TIS OMF 1.1, "SEGDEF").
#[derive(Clone, Copy, Debug, PartialEq, Eq)]
pub struct SegInfo {
    /// Its length in bytes: 0 to 2^32.
    pub length: u64,
    /// For an absolute segment, its frame number and its offset in that frame.
    pub absolute: Option<(u16, u8)>,
    /// The index of its name, from 1; 0 for none.
    pub name: u16,
    /// The index of its class name, from 1; 0 for none.
    pub class: u16,
}

//! The covered intervals of an image.

/// A maximal covered interval of a segment.
#[derive(Clone, Copy, Debug, PartialEq, Eq)]
pub struct Run {
    /// The offset of its first byte in the segment.
    pub first: u32,
    /// Its length in bytes: 1 to 2^32.
    pub len: u64,
}

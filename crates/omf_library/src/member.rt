//! A member of a library.

/// A module of a library: its offset and its length in bytes.
#[derive(Clone, Copy, Debug, PartialEq, Eq)]
pub struct Member {
    /// The offset of its first byte.
    pub offset: u64,
    /// The number of its bytes.
    pub length: u64,
}

//! Places of members in a library.

/// A member's number from 0, its page, and its offset in the library in bytes.
#[derive(Clone, Copy)]
pub struct Spot {
    pub number: u64,
    pub page: u64,
    pub offset: u64,
}

//! The numbers of a module that was judged.

/// The numbers of records and bytes of the module that an input begins with.
#[derive(Clone, Copy, Debug, PartialEq, Eq)]
pub struct Judged {
    pub record_count: u32,
    pub size: u64,
}

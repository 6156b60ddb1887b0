//! Options of a check.

/// The rules beyond those of the format that a caller may choose.
#[derive(Clone, Copy, Debug, PartialEq, Eq)]
pub struct Profile {
    /// Whether to refuse COMENT records of the classes C0H to FFH, which are reserved for vendors.
    pub refuse_vendor_comments: bool,
}

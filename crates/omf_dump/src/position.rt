//! Where a module is in its file.

/// Where a module is in its file.
#[derive(Clone, Copy)]
pub enum Position {
    /// It is the only one.
    Alone,
    /// It is the member of a library with this number from 0.
    Member(u64),
    /// It is one of several modules, with this number from 0.
    Module(u64),
}

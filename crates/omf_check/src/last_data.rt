//! The last data record, for fixups.

/// An LEDATA with the number of its data bytes, or an LIDATA.
#[derive(Clone, Copy, Debug, PartialEq, Eq)]
pub enum LastData {
    Plain(usize),
    Iterated,
}

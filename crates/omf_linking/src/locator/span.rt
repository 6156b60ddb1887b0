//! Where a line lays all segments of a class or of a name.

use omf_placement::Frame;

/// An address of a line that lays segments.
#[derive(Clone, Copy)]
pub enum Where {
    /// This one.
    From(u32),
    /// `after`: the first address after what the last such line before it laid or stored.
    After,
}

/// Where a line lays segments, as its words have it.
#[derive(Clone, Copy)]
pub struct Span {
    /// From where on they run.
    pub start: Where,
    /// Their frame. None for real-mode frames.
    pub frame: Option<Frame>,
    /// From where on they are stored, if that is not where they run.
    pub stored: Option<Where>,
}

/// The same by addresses, each at most 2^32.
#[derive(Clone, Copy)]
pub struct Site {
    /// From where on they run.
    pub start: u64,
    /// Their frame. None for real-mode frames.
    pub frame: Option<Frame>,
    /// From where on they are stored, if that is not where they run.
    pub stored: Option<u64>,
}

/// The first addresses after the segments of a line, each at most 2^32.
#[derive(Clone, Copy)]
pub struct End {
    /// After where they run.
    pub run: u64,
    /// After where they are stored.
    pub stored: u64,
}

//! What the datum of a frame or a target counts (TIS OMF 1.1, "FIXUPP", frame and target methods).

/// What an index counts: segments, groups or externals.
#[derive(Clone, Copy, Debug, PartialEq, Eq)]
pub enum Kind {
    /// A segment of a SEGDEF.
    Segment,
    /// A group of a GRPDEF.
    Group,
    /// An external of an EXTDEF or COMDEF.
    External,
}

/// A frame method without its datum.
#[derive(Clone, Copy)]
pub enum FrameCode {
    /// F0, F1, F2: the frame of this segment, group or external.
    Of(Kind),
    /// F4: the frame of the segment of the last data record.
    Location,
    /// F5: the frame of the target.
    Target,
}

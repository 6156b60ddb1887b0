//! Frame and target methods (TIS OMF 1.1, "FIXUPP").

ghost use Rattle.std.specs.Prelude.{◌≡◌};
ghost use Rattle.omf_check.specs.Threads.{frame_by, index_or_none};

use omf_frame::Index;
use omf_records::{At, FrameCode, Kind};

/// The target of a reference: the entry of a table. T0 is a segment, T1 a group, T2 an external.
#[derive(Clone, Copy, Debug, Drop)]
pub struct TargetMethod {
    pub kind: Kind,
    /// Counts from 1.
    pub index: Index,
}

/// The source of a reference's frame.
#[derive(Clone, Copy, Debug, Drop)]
pub enum FrameMethod {
    /// F0, F1, F2: the frame of this segment, group or external.
    Of(TargetMethod),
    /// F4: the frame of the segment of the last data record.
    Location,
    /// F5: the frame of the target.
    Target,
}

/// The index in a thread's or a reference's datum; 0 if it has none.
#[inline(always)]
fn index_of(datum: &Option<At<Index>>) -> Index
    ensures { result ≡ index_or_none datum.now }
{
    match datum {
        Some(index) => index.item,
        None => Index(0),
    }
}

impl TargetMethod {
    /// The target method with this code and index.
    #[inline(always)]
    pub(crate) fn new(kind: Kind, datum: &Option<At<Index>>) -> TargetMethod
        ensures { result ≡ record { kind = kind; index = index_or_none datum.now } }
    {
        let index = index_of(datum);
        TargetMethod { kind, index }
    }
}

impl FrameMethod {
    /// The frame method with this code and index.
    #[inline(always)]
    pub(crate) fn new(code: FrameCode, datum: &Option<At<Index>>) -> FrameMethod
        ensures { result ≡ frame_by code (index_or_none datum.now) }
    {
        match code {
            FrameCode::Of(kind) => FrameMethod::Of(TargetMethod::new(kind, datum)),
            FrameCode::Location => FrameMethod::Location,
            FrameCode::Target => FrameMethod::Target,
        }
    }
}

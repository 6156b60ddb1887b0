//! The closed bytes of a segment.

ghost use Rattle.std.specs.Prelude.{◌≡◌, ◌++◌, ◌^◌, ◌+◌, ◌≤◌, All, IfOk, OnOk, flat_map, length, option_to_list};
ghost use Rattle.omf_finding.specs.Inner.Measuring.{closed_at, closed_in};
ghost use Rattle.omf_finding.specs.Inner.Shaping.{IsWhole};

use crate::patterning::Interval;
use std::alloc::{AllocError, Global};

/// A closed byte of a segment.
#[derive(Clone, Copy)]
pub struct ClosedByte {
    /// Its offset in the segment.
    pub offset: u32,
    /// The byte of the module's data.
    pub value: u8,
}

/// The closed byte at an index of an interval; `None` for an open one, and after the last.
pub(crate) fn closed_at(interval: Interval<'_>, at: usize) -> Option<ClosedByte>
    requires { interval.first + length interval.values.now ≤ 2 ^ 32 }
    ensures { result ≡ closed_at interval.entry at }
{
    let value = *interval.values.get(at)?;
    let mark = *interval.marks.get(at)?;
    if mark == 1 {
        return None;
    }
    Some(ClosedByte {
        offset: interval.first + at as u32,
        value,
    })
}

/// Appends a closed byte, if there is one.
fn push_closed(closed: &mut Vec<ClosedByte>, byte: Option<ClosedByte>) -> Result<(), AllocError>
    ensures { OnOk result (closed.new.items ≡ closed.old.items ++ option_to_list byte) }
{
    if let Some(byte) = byte {
        closed.push(byte)?;
    }
    Ok(())
}

/// Appends the closed bytes of an interval.
fn push_interval(closed: &mut Vec<ClosedByte>, interval: Interval<'_>) -> Result<(), AllocError>
    requires { interval.first + length interval.values.now ≤ 2 ^ 32 }
    ensures { OnOk result (closed.new.items ≡ closed.old.items ++ closed_in interval.entry) }
{
    for at in 0..interval.values.len() {
        push_closed(closed, closed_at(interval, at))?;
    }
    Ok(())
}

/// The closed bytes of a segment with these intervals, in ascending order of offset. There is room for `room` of them at once.
pub(crate) fn closed_bytes(
    alloc: Global,
    intervals: &[Interval<'_>],
    room: usize,
) -> Result<Vec<ClosedByte>, AllocError>
    requires { All IsWhole intervals.now }
    ensures { IfOk result (λ v. v.items ≡ flat_map closed_in intervals.now) }
{
    let mut closed = Vec::with_capacity(alloc, room)?;
    for interval in intervals {
        push_interval(&mut closed, *interval)?;
    }
    Ok(closed)
}

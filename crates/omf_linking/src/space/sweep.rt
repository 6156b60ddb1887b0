//! The first address at which two segments overlap.

ghost use Rattle.std.specs.Prelude.{◌≡◌, ◌∷◌, [], ◌++◌, All, IfOk, List, OnOk, true};
ghost use Rattle.omf_linking.specs.Space.Memory.{piece, pieces, Lies, shares, IsFirstOverlap};
ghost use Rattle.omf_linking.specs.Inner.Sweeping.{interval, intervals, spot, swept};
ghost use Rattle.omf_linking.specs.declared.space.stretch.Stretch.{Stretch as Seen};

use crate::space::stretch::Stretch;
use omf_image::Extent;
use std::alloc::{AllocError, Global};

/// The addresses of a stretch.
#[derive(Clone, Copy)]
pub(crate) struct Interval {
    common: bool,
    first: u32,
    end: u64,
}

impl Interval {
    /// Returns it as an extent of segment 0.
    pub(crate) fn spot(&self) -> Extent
        ensures { result ≡ spot self.now }
    {
        Extent {
            segment: 0,
            first: self.first,
            len: self.end.saturating_sub(u64::from(self.first)),
        }
    }

    /// Returns whether it is the same as another.
    pub(crate) fn is(&self, other: &Interval) -> bool
        ensures { result ≡ true → self.now ≡ other.now }
    {
        self.common == other.common && self.first == other.first && self.end == other.end
    }
}

/// Returns the addresses of a stretch.
fn interval_of(stretch: &Stretch<'_>) -> Interval
    requires { Lies stretch.now }
    ensures { result ≡ interval (piece stretch.now) }
{
    let len = stretch.bytes.len() as u64;
    Interval {
        common: stretch.common,
        first: stretch.address,
        end: u64::from(stretch.address) + len,
    }
}

/// Appends the addresses of stretches.
pub(crate) fn add_intervals(
    spans: &mut Vec<Interval>,
    stretches: &[Stretch<'_>],
) -> Result<(), AllocError>
    requires { All Lies stretches.now }
    ensures { OnOk result (spans.new.items ≡ spans.old.items ++ intervals (pieces stretches.now)) }
{
    for stretch in stretches {
        spans.push(interval_of(stretch))?;
    }
    Ok(())
}

/// Returns the addresses of stretches.
pub(crate) fn intervals_of(
    alloc: Global,
    stretches: &[Stretch<'_>],
) -> Result<Vec<Interval>, AllocError>
    requires { All Lies stretches.now }
    ensures { IfOk result (λ v. v.items ≡ intervals (pieces stretches.now)) }
{
    let mut intervals = Vec::new(alloc);
    add_intervals(&mut intervals, stretches)?;
    Ok(intervals)
}

/// Returns the first address of the first interval, in rising order, that overlaps an earlier one, unless both are common.
fn sweep(intervals: &[Interval]) -> Option<u32>
    ensures { result ≡ swept 0 0 intervals.now }
{
    let mut own = 0;
    let mut all = 0;
    for interval in intervals {
        let taken = if interval.common { own } else { all };
        if u64::from(interval.first) < taken {
            return Some(interval.first);
        }
        all = all.max(interval.end);
        if !interval.common {
            own = own.max(interval.end);
        }
    }
    None
}

/// Returns the first address at which two segments overlap that may not, by the addresses of their stretches.
pub(crate) fn first_overlap(spans: Vec<Interval>) -> Option<u32>
    ensures { (ss : List Seen) → All Lies ss → spans.items ≡ intervals (pieces ss) → IsFirstOverlap (shares (pieces ss)) result }
{
    let mut sorted = spans;
    sorted.sort_unstable_by_key(|interval| interval.first);
    sweep(&sorted)
}

//! The parts of a program that no segment explains.

ghost use Rattle.std.specs.Prelude.{◌≡◌, IfOk, OnOk};
ghost use Rattle.omf_find.specs.Room.{AddsGap, AreGaps, AreInOrder};

use crate::rows::SegmentRow;
use std::alloc::{AllocError, Global};

/// An interval of addresses, with the address after it.
#[derive(Clone, Copy)]
pub struct Gap {
    pub first: u64,
    pub end: u64,
}

impl Gap {
    /// The number of its addresses.
    pub fn length(self) -> u64 {
        self.end.saturating_sub(self.first)
    }
}

/// Appends the gap from one address up to another, if there is any address between.
fn push_gap(gaps: &mut Vec<Gap>, first: u64, end: u64) -> Result<(), AllocError>
    ensures { OnOk result (AddsGap first end gaps.old.items gaps.new.items) }
{
    if first < end {
        gaps.push(Gap { first, end })?;
    }
    Ok(())
}

/// The parts of a program, from one address up to another, that are in none of these segments, which are in ascending order.
///
/// # Errors
///
/// `AllocError` if memory runs out.
pub fn gaps_of(
    alloc: Global,
    first: u64,
    end: u64,
    rows: &[SegmentRow],
) -> Result<Vec<Gap>, AllocError>
    ensures { IfOk result (λ v. AreInOrder rows.now → AreGaps first end rows.now v.items) }
{
    let mut gaps = Vec::new(alloc);
    let mut next = first;
    for row in rows {
        let address = u64::from(row.address);
        push_gap(&mut gaps, next, address.min(end))?;
        next = next.max(address.saturating_add(row.length));
    }
    push_gap(&mut gaps, next, end)?;
    Ok(gaps)
}

/// The number of addresses in gaps.
pub fn size_of_all(gaps: &[Gap]) -> u64 {
    let mut size: u64 = 0;
    for gap in gaps {
        size = size.saturating_add(gap.length());
    }
    size
}

/// The longest gaps, at most `most`, in ascending order.
///
/// # Errors
///
/// `AllocError` if memory runs out.
pub fn longest(gaps: Vec<Gap>, most: usize) -> Result<Vec<Gap>, AllocError> {
    let mut gaps = gaps;
    gaps.sort_by_key(|gap| u64::MAX - gap.length())?;
    gaps.truncate(most);
    gaps.sort_by_key(|gap| gap.first)?;
    Ok(gaps)
}

//! Room for segments that are not in a program: the addresses that no segment of a found module has.

ghost use Rattle.std.specs.Prelude.{◌≡◌, ◌<◌, ◌≤◌, IfOk, MatchOption, get_or, length, ⊤};
ghost use Rattle.omf_find.specs.Room.{AreInOrder, IsAfter, IsAround, IsLeftOf, IsParagraph, IsPlaceIn, IsRoom};
ghost use Rattle.omf_find.specs.declared.gaps.Gap.{Gap as Between};

use crate::gaps::{Gap, gaps_of};
use crate::rows::SegmentRow;
use std::alloc::{AllocError, Global};

/// The number of addresses that there are.
const ADDRESSES: u64 = 1 << 32;

/// The most gaps that are looked at for one segment.
const MOST_GAPS: usize = 64;

/// Addresses that no segment has.
#[derive(Drop)]
pub struct Room {
    /// The gaps between segments, in ascending order; what is taken of one is cut off, with all before it.
    gaps: Vec<Gap>,
    /// The first address after all segments and after what is taken there.
    next: u64,
}

/// Where room is looked for.
#[derive(Clone, Copy)]
pub enum Side {
    /// After all segments.
    After,
    /// Between segments too.
    Between,
}

/// The lowest multiple of 16 from an address on.
fn paragraph(address: u64) -> u64
    ensures { IsParagraph address result }
{
    address.saturating_add(15) / 16 * 16
}

/// The first address after segments and after an address.
fn next_after(rows: &[SegmentRow], end: u64) -> u64
    ensures end { end ≤ result }
    ensures rows { IsAfter rows.now result }
{
    let mut next = end;
    for row in rows {
        next = next.max(u64::from(row.address).saturating_add(row.length));
    }
    next
}

/// The place in a gap for a segment of this length, from an address on; None if there is none.
fn place_in(gap: Gap, from: u32, size: u64) -> Option<u32>
    ensures { MatchOption result ⊤ (IsPlaceIn gap from size) }
{
    let first = paragraph(gap.first.max(u64::from(from)));
    if first.saturating_add(size) > gap.end.min(ADDRESSES) {
        return None;
    }
    u32::try_from(first).ok()
}

/// The first of gaps from `begin` up to `end` that has room for a segment of this length, and the place there.
fn gap_for(gaps: &[Gap], begin: usize, end: usize, from: u32, size: u64) -> Option<(usize, u32)>
    requires { end ≤ length gaps.now }
    ensures { MatchOption result ⊤ (λ r. (g : Between) × (r.0 < length gaps.now) × (g ≡ get_or gaps.now r.0 g) × IsPlaceIn g from size r.1) }
{
    for gap in begin..end {
        if let Some(address) = place_in(gaps[gap], from, size) {
            return Some((gap, address));
        }
    }
    None
}

impl Room {
    /// The room around segments, which are in ascending order: all addresses that none of them has. What is after all segments is after an
    /// address too.
    ///
    /// # Errors
    ///
    /// `AllocError` if memory runs out.
    pub fn around(alloc: Global, rows: &[SegmentRow], end: u64) -> Result<Room, AllocError>
        ensures next { IfOk result (λ r. (end ≤ r.next) × IsAfter rows.now r.next) }
        ensures free { IfOk result (λ r. AreInOrder rows.now → IsAround rows.now r) }
    {
        let next = next_after(rows, end);
        Ok(Room {
            gaps: gaps_of(alloc, 0, next, rows)?,
            next,
        })
    }

    /// Takes room after all segments, from an address on.
    fn take_after(&mut self, from: u32, size: u64) -> Option<u32>
        ensures room { MatchOption result ⊤ (IsRoom self.old from size) }
        ensures left { IsLeftOf self.old self.new }
    {
        let first = paragraph(self.next.max(u64::from(from)));
        let end = first.saturating_add(size);
        if end > ADDRESSES {
            return None;
        }
        self.next = end;
        u32::try_from(first).ok()
    }

    /// Takes room between segments, from an address on: in the first gap with room, of the first few.
    fn take_between(&mut self, from: u32, size: u64) -> Option<u32>
        ensures room { MatchOption result ⊤ (IsRoom self.old from size) }
        ensures left { IsLeftOf self.old self.new }
    {
        let begin = self.gaps.partition_point(|gap| gap.end <= u64::from(from));
        let end = begin.saturating_add(MOST_GAPS).min(self.gaps.len());
        match gap_for(&self.gaps, begin, end, from, size) {
            Some((gap, address)) => {
                self.gaps[gap].first = u64::from(address).saturating_add(size);
                Some(address)
            }
            None => None,
        }
    }

    /// Takes room for a segment of this length at a multiple of 16, from an address on; None if there is none.
    pub fn take(&mut self, side: Side, from: u32, size: u64) -> Option<u32>
        ensures room { MatchOption result ⊤ (IsRoom self.old from size) }
        ensures left { IsLeftOf self.old self.new }
    {
        match side {
            Side::After => self.take_after(from, size),
            Side::Between => match self.take_between(from, size) {
                Some(address) => Some(address),
                None => self.take_after(from, size),
            },
        }
    }
}

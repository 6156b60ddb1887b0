//! The search for a fault of segments without memory: slow, for a memory that has run out.

ghost use Rattle.std.specs.Prelude.{◌≡◌, ◌<◌, All, Err, is_some, false, true};
ghost use Rattle.omf_linking.specs.Inner.Runs.{IsFoundBeyond, IsTried};
ghost use Rattle.omf_linking.specs.Inner.Searching.{AreMany, IsLowest, begins_in, lesser, listed};
ghost use Rattle.omf_linking.specs.Space.Memory.{IsFirstOverlap, overlap};
ghost use Rattle.omf_linking.specs.Space.Segments.{IsBeyond, IsMemoryOf, IsWithin, segment_at, segment_shares, share_in};

use crate::segments::ModuleSegments;
use crate::space::{MemoryFault, Owner, PlacedSegment, excluded, lower, stretch_at};
use omf_image::Image;

/// Returns the lower of two addresses, if there are any.
fn lesser(one: Option<u32>, other: Option<u32>) -> Option<u32>
    ensures { result ≡ lesser one other }
{
    match other {
        Some(address) => Some(lower(one, address)),
        None => one,
    }
}

/// Returns whether a segment has a byte at an address.
fn has(segment: &PlacedSegment<'_>, address: u32) -> bool
    ensures { result ≡ is_some (share_in address (segment_at segment.now)) }
{
    if address < segment.address {
        return false;
    }
    let offset = address - segment.address;
    segment.image.get(segment.owner.segment, offset).is_some()
}

/// Returns the first two segments with a byte at an address that may not share it.
fn owners_at(segments: &ModuleSegments<'_>, address: u32) -> Option<(Owner, Owner)>
    requires { AreMany segments.now }
    ensures { result ≡ overlap (segment_shares (listed segments.now) address) }
{
    let mut first = None;
    for n in 0..segments.count() {
        let segment = segments.segment(n);
        if !has(&segment, address) {
            continue;
        }
        if let Some(both) = excluded(first, segment.owner, segment.common) {
            return Some(both);
        }
        first = first.or(Some((segment.owner, segment.common)));
    }
    None
}

/// Returns whether a segment has a byte beyond the last address.
fn is_beyond(segment: &PlacedSegment<'_>) -> bool
    ensures beyond { result ≡ true → IsBeyond (segment_at segment.now) }
    ensures within { result ≡ false → IsWithin (segment_at segment.now) }
{
    let mut k = 0;
    while let Some((first, bytes)) = segment.image.run_with_bytes(segment.owner.segment, k) {
        if stretch_at(segment, first, bytes).is_err() {
            return true;
        }
        k += 1;
    }
    false
}

/// Returns the first segment with a byte beyond the last address.
fn first_beyond(segments: &ModuleSegments<'_>) -> Option<Owner>
    requires { AreMany segments.now }
    ensures { IsFoundBeyond (listed segments.now) result }
{
    for n in 0..segments.count() {
        let segment = segments.segment(n);
        if is_beyond(&segment) {
            return Some(segment.owner);
        }
    }
    None
}

/// Returns the first address at which bytes of a segment begin and two segments overlap that may not.
fn overlap_in(segments: &ModuleSegments<'_>, segment: &PlacedSegment<'_>) -> Option<u32>
    requires holds { AreMany segments.now }
    requires within { IsWithin (segment_at segment.now) }
    ensures { IsLowest (segment_shares (listed segments.now)) (λ a. begins_in a (segment_at segment.now)) result }
{
    let mut k = 0;
    while let Some((first, bytes)) = segment.image.run_with_bytes(segment.owner.segment, k) {
        let Ok(stretch) = stretch_at(segment, first, bytes) else {
            unreachable!()
        };
        if owners_at(segments, stretch.address).is_some() {
            return Some(stretch.address);
        }
        k += 1;
    }
    None
}

/// Returns the first address at which two segments overlap that may not.
fn first_overlap(segments: &ModuleSegments<'_>) -> Option<u32>
    requires holds { AreMany segments.now }
    requires within { All IsWithin (listed segments.now) }
    ensures { IsFirstOverlap (segment_shares (listed segments.now)) result }
{
    let mut lowest = None;
    for n in 0..segments.count() {
        let segment = segments.segment(n);
        lowest = lesser(lowest, overlap_in(segments, &segment));
    }
    lowest
}

/// Returns why segments have no memory: the first with a byte beyond the last address, else the first overlap, else that memory ran out.
/// It takes no memory, but time: each run of bytes is compared with each segment, and to find a segment its module's records are read up
/// to its SEGDEF.
fn fault_of(segments: &ModuleSegments<'_>) -> MemoryFault
    requires { AreMany segments.now }
    ensures { IsMemoryOf (listed segments.now) (Err result) }
{
    if let Some(owner) = first_beyond(segments) {
        return MemoryFault::Beyond(owner);
    }
    let Some(address) = first_overlap(segments) else {
        return MemoryFault::Memory;
    };
    match owners_at(segments, address) {
        Some((first, second)) => MemoryFault::Overlap {
            address,
            first,
            second,
        },
        None => unreachable!(),
    }
}

/// Returns what was tried, except that a fault takes the place of `Memory` if there is one.
pub(crate) fn judged(
    segments: &ModuleSegments<'_>,
    tried: Result<Image, MemoryFault>,
) -> Result<Image, MemoryFault>
    requires holds { AreMany segments.now }
    requires tried { IsTried (listed segments.now) tried }
    ensures { IsMemoryOf (listed segments.now) result }
{
    match tried {
        Ok(image) => Ok(image),
        Err(MemoryFault::Memory) => Err(fault_of(segments)),
        Err(fault) => Err(fault),
    }
}

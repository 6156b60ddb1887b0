//! The memory of segments of images.

ghost use Rattle.std.specs.Prelude.{◌≡◌, ◌<◌, All, IfOk, OnOk, length, option_map};
ghost use Rattle.omf_records.specs.Inner.Seen.{map_ok};
ghost use Rattle.omf_image.specs.Inner.Joined.{runs_of};
ghost use Rattle.omf_image.specs.Overlay.{byte_at};
ghost use Rattle.omf_linking.specs.Space.Memory.{Lies};
ghost use Rattle.omf_linking.specs.Inner.Runs.{AreStretches, HasMore, IsAdded, IsStretchAt, IsTried};
ghost use Rattle.omf_linking.specs.Space.Segments.{segment_at, segments_at};

use crate::space::fault::MemoryFault;
use crate::space::memory::memory_of;
use crate::space::segment::PlacedSegment;
use crate::space::stretch::Stretch;
use omf_image::Image;
use std::alloc::Global;

/// The number of addresses.
const ADDRESSES: u64 = 4_294_967_296;

/// Returns bytes of a segment, from an offset on, at their address.
pub(crate) fn stretch_at<'a>(
    segment: &PlacedSegment<'a>,
    first: u32,
    bytes: &'a [u8],
) -> Result<Stretch<'a>, MemoryFault>
    requires { 0 < length bytes.now }
    ensures { IsStretchAt (segment_at segment.now) first bytes.now result }
{
    let address = u64::from(segment.address) + u64::from(first);
    let len = bytes.len() as u64;
    if address >= ADDRESSES || len > ADDRESSES - address {
        return Err(MemoryFault::Beyond(segment.owner));
    }
    Ok(Stretch {
        owner: segment.owner,
        common: segment.common,
        address: address as u32,
        bytes,
    })
}

/// Adds the runs of a segment, each at its address.
fn add_runs<'a>(
    stretches: &mut Vec<Stretch<'a>>,
    segment: &PlacedSegment<'a>,
) -> Result<(), MemoryFault>
    requires { All Lies stretches.old.items }
    ensures lies { OnOk result (All Lies stretches.new.items) }
    ensures shares { OnOk result (HasMore stretches.old.items (segment_at segment.now) stretches.new.items) }
    ensures within { IsAdded (segment_at segment.now) result }
{
    let mut k = 0;
    while let Some((first, bytes)) = segment.image.run_with_bytes(segment.owner.segment, k) {
        stretches.push(stretch_at(segment, first, bytes)?)?;
        k += 1;
    }
    Ok(())
}

/// Returns the runs of segments, each at its address.
pub(crate) fn stretches_of<'a>(
    alloc: Global,
    segments: &[PlacedSegment<'a>],
) -> Result<Vec<Stretch<'a>>, MemoryFault>
    ensures lies { IfOk result (λ v. All Lies v.items) }
    ensures stretches { AreStretches (segments_at segments.now) (map_ok (λ v. v.items) result) }
{
    let mut stretches = Vec::new(alloc);
    for segment in segments {
        add_runs(&mut stretches, segment)?;
    }
    Ok(stretches)
}

/// Returns the memory of segments. Out of memory, it may hide a fault.
pub(crate) fn try_memory(
    alloc: Global,
    segments: &[PlacedSegment<'_>],
) -> Result<Image, MemoryFault>
    ensures { IsTried (segments_at segments.now) result }
{
    let stretches = stretches_of(alloc, segments)?;
    memory_of(alloc, &stretches)
}

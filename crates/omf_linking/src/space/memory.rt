//! The image of several segments in memory.

ghost use Rattle.std.specs.Prelude.{◌≡◌, [], All, Err, IfOk, OnOk, is_some};
ghost use Rattle.omf_image.specs.Overlay.{AreLaidOver};
ghost use Rattle.omf_linking.specs.Space.Memory.{piece, pieces, Lies, share_of, shares, overlap, IsFirstOverlap, IsMemory};
ghost use Rattle.omf_linking.specs.Inner.Laying.{excluded, extents_in, laid_pieces};
ghost use Rattle.omf_linking.specs.Inner.Searching.{lowest_with};

use crate::space::fault::MemoryFault;
use crate::space::stretch::{Owner, Stretch};
use crate::space::sweep::{first_overlap, intervals_of};
use omf_image::{Extent, Image, painted};
use std::alloc::{AllocError, Global};

/// Returns the first segment with a byte at an address and one more, if there is a first and they may not share it.
pub(crate) fn excluded(
    first: Option<(Owner, bool)>,
    owner: Owner,
    is_common: bool,
) -> Option<(Owner, Owner)>
    ensures { result ≡ excluded first owner is_common }
{
    let (known, common) = first?;
    if common && is_common {
        return None;
    }
    Some((known, owner))
}

/// Returns the lower of an address and the lowest so far.
pub(crate) fn lower(lowest: Option<u32>, address: u32) -> u32
    ensures { result ≡ lowest_with lowest address }
{
    match lowest {
        Some(low) => low.min(address),
        None => address,
    }
}

/// Returns whether a stretch has a byte at an address.
fn has(stretch: &Stretch<'_>, address: u32) -> bool
    ensures { result ≡ is_some (share_of address (piece stretch.now)) }
{
    if address < stretch.address {
        return false;
    }
    ((address - stretch.address) as usize) < stretch.bytes.len()
}

/// Returns the first two segments with a byte at an address that may not share it.
fn owners_at(stretches: &[Stretch<'_>], address: u32) -> Option<(Owner, Owner)>
    ensures { result ≡ overlap (shares (pieces stretches.now) address) }
{
    let mut first = None;
    for stretch in stretches {
        if !has(stretch, address) {
            continue;
        }
        if let Some(both) = excluded(first, stretch.owner, stretch.common) {
            return Some(both);
        }
        first = first.or(Some((stretch.owner, stretch.common)));
    }
    None
}

/// Returns the places of stretches in an image with the addresses of memory as the offsets of segment 0.
fn extents_of(alloc: Global, stretches: &[Stretch<'_>]) -> Result<Vec<Extent>, AllocError>
    ensures { IfOk result (λ v. v.items ≡ extents_in stretches.now) }
{
    let mut extents = Vec::new(alloc);
    for stretch in stretches {
        extents.push(Extent {
            segment: 0,
            first: stretch.address,
            len: stretch.bytes.len() as u64,
        })?;
    }
    Ok(extents)
}

/// Lays stretches in an image with the addresses of memory as the offsets of segment 0, one after another.
pub(crate) fn lay_all(
    alloc: Global,
    image: &mut Image,
    stretches: &[Stretch<'_>],
) -> Result<(), AllocError>
    requires { All Lies stretches.now }
    ensures { OnOk result (AreLaidOver image.old (laid_pieces stretches.now) image.new) }
{
    for stretch in stretches {
        image.lay(0, stretch.address, stretch.bytes.to_vec(alloc)?)?;
    }
    Ok(())
}

/// Returns an image with all stretches laid in it, one after another. Their places are reserved first, so no run grows or moves.
fn laid(alloc: Global, stretches: &[Stretch<'_>]) -> Result<Image, AllocError>
    requires { All Lies stretches.now }
    ensures { IfOk result (λ i. AreLaidOver [] (laid_pieces stretches.now) i) }
{
    let mut image = painted(alloc, extents_of(alloc, stretches)?)?;
    lay_all(alloc, &mut image, stretches)?;
    Ok(image)
}

/// Returns the first address at which two stretches overlap that may not. It takes no memory, and time in proportion to the square of the
/// number of stretches.
fn lowest_overlap(stretches: &[Stretch<'_>]) -> Option<u32>
    requires { All Lies stretches.now }
    ensures { IsFirstOverlap (shares (pieces stretches.now)) result }
{
    let mut lowest = None;
    for stretch in stretches {
        if owners_at(stretches, stretch.address).is_some() {
            lowest = Some(lower(lowest, stretch.address));
        }
    }
    lowest
}

/// Returns why stretches have no memory: the overlap at this address, or else that memory ran out.
fn fault_at(stretches: &[Stretch<'_>], overlap: Option<u32>) -> MemoryFault
    requires { IsFirstOverlap (shares (pieces stretches.now)) overlap }
    ensures { IsMemory (shares (pieces stretches.now)) (Err result) }
{
    let Some(address) = overlap else {
        return MemoryFault::Memory;
    };
    match owners_at(stretches, address) {
        Some((first, second)) => MemoryFault::Overlap {
            address,
            first,
            second,
        },
        None => unreachable!(),
    }
}

/// Returns the memory of stretches: an image with the addresses of memory as the offsets of segment 0. Common segments may overlap; the
/// byte of the last one counts.
///
/// # Errors
///
/// `Overlap` if two segments that are not both common have a byte at one address: the first such address, the first segment there, and
/// the next that may not share the address with it. `Memory` if memory runs out, only if no two segments overlap that may not; to see
/// that, each stretch may be compared with each other, which is slow.
pub fn memory_of(alloc: Global, stretches: &[Stretch<'_>]) -> Result<Image, MemoryFault>
    requires { All Lies stretches.now }
    ensures { IsMemory (shares (pieces stretches.now)) result }
{
    let overlap = match intervals_of(alloc, stretches) {
        Ok(intervals) => first_overlap(intervals),
        Err(_) => return Err(fault_at(stretches, lowest_overlap(stretches))),
    };
    if overlap.is_some() {
        return Err(fault_at(stretches, overlap));
    }
    Ok(laid(alloc, stretches)?)
}

//! Images of zeros. Data laid over them make no run grow or move.

ghost use Rattle.std.specs.Prelude.{◌≡◌, [], ◌∷◌, ◌+◌, OnOk, IfOk, IfSome, IfNone, All, option_to_list};
ghost use Rattle.omf_image.specs.Overlay.{IsLaidOver, AreLaidOver};
ghost use Rattle.omf_image.specs.Painting.{zeros, all_zeros, Fits, AreApart};

use crate::Image;
use std::alloc::{AllocError, Global};

/// An interval of a segment.
#[derive(Clone, Copy, Debug, PartialEq, Eq)]
pub struct Extent {
    /// The segment.
    pub segment: u16,
    /// The offset of its first byte in the segment.
    pub first: u32,
    /// Its length in bytes.
    pub len: u64,
}

impl Extent {
    /// The offset after its last byte.
    fn end(self) -> u64
        requires { Fits self }
        ensures { result ≡ self.first + self.len }
    {
        u64::from(self.first) + self.len
    }
}

/// The two intervals as one, if they touch or overlap.
fn joined(last: Extent, next: Extent) -> Option<Extent>
    requires { Fits last × Fits next }
    ensures fits { IfSome result Fits }
    ensures covers { IfSome result (λ e. IsLaidOver (zeros last ∷ []) (zeros next) (zeros e ∷ [])) }
    ensures apart { IfNone result (AreApart last next) }
{
    let first = last.first.min(next.first);
    let len = last.end().max(next.end()) - u64::from(first);
    if last.segment != next.segment || len > last.len + next.len {
        return None;
    }
    Some(Extent {
        segment: last.segment,
        first,
        len,
    })
}

/// `last` and `next` as one interval, if there is a `last` and they touch or overlap.
fn joined_to(last: Option<Extent>, next: Extent) -> Option<Extent>
    requires { IfSome last Fits × Fits next }
    ensures fits { IfSome result Fits }
    ensures covers { IfSome result (λ e. IsLaidOver (all_zeros (option_to_list last)) (zeros next) (zeros e ∷ [])) }
    ensures apart { IfNone result (IfSome last (λ e. AreApart e next)) }
{
    joined(last?, next)
}

/// Lays zeros over the interval, if any.
fn paint(alloc: Global, image: &mut Image, extent: Option<Extent>) -> Result<(), AllocError>
    requires { IfSome extent Fits }
    ensures { OnOk result (AreLaidOver image.old (all_zeros (option_to_list extent)) image.new) }
{
    match extent {
        Some(extent) => image.lay_zeros(alloc, extent),
        None => Ok(()),
    }
}

/// An image of zeros over the intervals; intervals that touch or overlap share a run. The runs are made in ascending order, so none is
/// moved. Each interval must end within 2^32 bytes of its segment's start.
///
/// # Errors
///
/// `AllocError` if out of memory.
pub fn painted(alloc: Global, mut extents: Vec<Extent>) -> Result<Image, AllocError>
    requires { All Fits extents.items }
    ensures { IfOk result (λ i. AreLaidOver [] (all_zeros extents.items) i) }
{
    // This sort merges the runs that it finds, which intervals in file order mostly have.
    extents.sort_by_key(|extent| (extent.segment, extent.first))?;
    let mut image = Image::new(alloc);
    let mut last: Option<Extent> = None;
    for next in extents {
        match joined_to(last, next) {
            Some(both) => last = Some(both),
            None => {
                paint(alloc, &mut image, last)?;
                last = Some(next);
            }
        }
    }
    paint(alloc, &mut image, last)?;
    Ok(image)
}

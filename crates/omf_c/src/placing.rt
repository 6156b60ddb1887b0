//! Placements that rows give.

ghost use Rattle.std.specs.Prelude.{◌≡◌, IfOk, map};
ghost use Rattle.omf_c.specs.Placed.{framed, placed, places_of};

use crate::rows::{FrameRow, PlaceRow, PlacementRows};
use omf_reloc::{Frame, Placed, Placement};
use std::alloc::{AllocError, Global};

/// The place that a row gives.
fn placed(row: &PlaceRow) -> Placed
    ensures { result ≡ placed row.now }
{
    Placed {
        address: row.address,
        frame: Frame {
            base: row.base,
            selector: row.selector,
        },
    }
}

/// The frame that a row gives.
fn framed(row: &FrameRow) -> Frame
    ensures { result ≡ framed row.now }
{
    Frame {
        base: row.base,
        selector: row.selector,
    }
}

/// The places that rows give.
fn all_placed(alloc: Global, rows: &[PlaceRow]) -> Result<Vec<Placed>, AllocError>
    ensures { IfOk result (λ v. v.items ≡ map placed rows.now) }
{
    let mut places = Vec::new(alloc);
    for row in rows {
        places.push(placed(row))?;
    }
    Ok(places)
}

/// The frames that rows give.
fn all_framed(alloc: Global, rows: &[FrameRow]) -> Result<Vec<Frame>, AllocError>
    ensures { IfOk result (λ v. v.items ≡ map framed rows.now) }
{
    let mut frames = Vec::new(alloc);
    for row in rows {
        frames.push(framed(row))?;
    }
    Ok(frames)
}

/// The placement that rows give.
pub(crate) fn placement_of(alloc: Global, rows: &PlacementRows<'_>) -> Result<Placement, AllocError>
    ensures { IfOk result (λ p. p ≡ places_of rows.now) }
{
    let segments = all_placed(alloc, rows.segments)?;
    let groups = all_framed(alloc, rows.groups)?;
    let externals = all_placed(alloc, rows.externals)?;
    Ok(Placement::of(segments, groups, externals))
}

//! The memory of several modules.

ghost use Rattle.std.specs.Prelude.{◌≡◌, ◌<◌, ◌^◌, List, length, zip};
ghost use Rattle.std.specs.List.{AllZip};
ghost use Rattle.omf_check.specs.Module.{typed_modules};
ghost use Rattle.omf_placement.specs.Derive.{placed_modules};
ghost use Rattle.omf_placement.specs.Placement.{Places};
ghost use Rattle.omf_linking.specs.Inner.Runs.{IsTried};
ghost use Rattle.omf_linking.specs.LinkedMemory.{IsLinkedMemory};
ghost use Rattle.omf_linking.specs.Relocated.{IsRelocated};
ghost use Rattle.omf_linking.specs.Segments.{all_segments, stored_images, with_images};

use crate::fault::LinkFault;
use crate::relocated::Relocated;
use crate::search::judged;
use crate::segments::{ModuleSegments, segments_of};
use crate::space::{MemoryFault, try_memory};
use omf_check::Checked;
use omf_image::Image;
use omf_placement::Placement;
use std::alloc::Global;

/// Returns the memory of modules. Out of memory, it may hide a fault.
fn try_image(
    alloc: Global,
    modules: &[Checked],
    placements: &[Placement],
    relocated: &[Relocated],
) -> Result<Image, MemoryFault>
    requires few { length modules.now < 2 ^ 32 }
    requires placed { length placements.now ≡ length modules.now }
    requires relocated { length relocated.now ≡ length modules.now }
    ensures { IsTried (all_segments (with_images (placed_modules modules.now placements.now) relocated.now)) result }
{
    let segments = segments_of(alloc, modules, placements, relocated)?;
    try_memory(alloc, &segments)
}

/// Returns the memory of modules at these placements: an image with the addresses of memory as the offsets of segment 0. A byte of a
/// segment is at the segment's address plus its offset. Common segments may overlap; the byte of the last one counts. The modules may be
/// relocated for other placements: then they are stored at these, and run at those.
///
/// # Errors
///
/// `Space`, with `Beyond` for the first segment with a byte above the last address; else with `Overlap` if two segments that are not both
/// common have a byte at one address: the first such address, the first segment there, and the next that may not share the address with
/// it. `Memory` if memory runs out, only if there is no such fault; to see that, each run of bytes may be compared with each segment, which
/// is slow.
pub fn memory_image(
    alloc: Global,
    modules: &[Checked],
    placements: &[Placement],
    relocated: &[Relocated],
) -> Result<Image, LinkFault>
    requires few { length modules.now < 2 ^ 32 }
    requires placed { length placements.now ≡ length modules.now }
    requires relocated { length relocated.now ≡ length modules.now }
    ensures images { IsLinkedMemory (all_segments (with_images (placed_modules modules.now placements.now) relocated.now)) result }
    ensures stored { (runs : List Places) → AllZip IsRelocated (zip (typed_modules modules.now) runs) relocated.now → IsLinkedMemory (all_segments (stored_images (zip (typed_modules modules.now) runs) placements.now)) result }
{
    let tried = try_image(alloc, modules, placements, relocated);
    let segments = ModuleSegments {
        modules,
        placements,
        relocated,
    };
    let image = judged(&segments, tried)?;
    Ok(image)
}

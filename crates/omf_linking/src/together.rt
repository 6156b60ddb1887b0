//! Modules at their placements as one: the memory that they share, and their start.

ghost use Rattle.std.specs.Prelude.{◌≡◌, ◌<◌, ◌^◌, length};
ghost use Rattle.omf_check.specs.Module.{typed_modules};
ghost use Rattle.omf_linking.specs.Together.{IsTogether};

use crate::fault::LinkFault;
use crate::memory::memory_image;
use crate::relocated::{relocate_all, start_of};
use crate::turns::by_turns;
use omf_check::Checked;
use omf_image::Image;
use omf_placement::Placement;
use std::alloc::Global;

/// Modules at their placements.
#[derive(Drop)]
pub struct Together {
    /// The memory that they share: segment 0 of an image.
    pub memory: Image,
    /// The selector and the offset of their start.
    pub start: Option<(u16, u32)>,
}

/// Relocates all modules, and lays them in one memory after that.
fn at_once(
    alloc: Global,
    modules: &[Checked],
    placements: &[Placement],
    stored: &[Placement],
) -> Result<Together, LinkFault>
    requires few { length modules.now < 2 ^ 32 }
    requires placed { length placements.now ≡ length modules.now }
    requires stored { length stored.now ≡ length modules.now }
    ensures { IsTogether (typed_modules modules.now) placements.now stored.now result }
{
    let relocated = relocate_all(alloc, modules, placements)?;
    let memory = memory_image(alloc, modules, stored, &relocated)?;
    let start = start_of(modules, &relocated)?;
    Ok(Together { memory, start })
}

/// Relocates each of the modules to its placement, where it runs, and lays them in one memory at the placements where they are stored. One module's image is kept beside the memory at a time, unless
/// there is a fault: to find the first, all images are made again and kept.
///
/// # Errors
///
/// The first of: `Reach` for the first module whose placement does not reach; `Space` if the segments do not fit in one memory, as in
/// `memory_image`; `Starts` if two main modules name a start. `Memory` if memory runs out.
pub fn laid_together(
    alloc: Global,
    modules: &[Checked],
    placements: &[Placement],
    stored: &[Placement],
) -> Result<Together, LinkFault>
    requires few { length modules.now < 2 ^ 32 }
    requires placed { length placements.now ≡ length modules.now }
    requires stored { length stored.now ≡ length modules.now }
    ensures { IsTogether (typed_modules modules.now) placements.now stored.now result }
{
    match by_turns(alloc, modules, placements, stored) {
        Some(together) => Ok(together),
        None => at_once(alloc, modules, placements, stored),
    }
}

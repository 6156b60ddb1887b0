//! Placements of several modules.

ghost use Rattle.std.specs.Prelude.{◌≡◌, ◌≤◌, ◌<◌, ◌^◌, List, IfOk, length, map, zip};
ghost use Rattle.omf_records.specs.Inner.Seen.{map_ok};
ghost use Rattle.omf_placement.specs.declared.frame.Placed.{Placed as PlacedAt};
ghost use Rattle.omf_layout.specs.Layout.{IsAnswer};
ghost use Rattle.omf_layout.specs.Several.Laying.{laid};
ghost use Rattle.omf_layout.specs.Several.Placing.{IsLowTable, all_segments_in, all_with_frames, arranged_places, with_frames};
ghost use Rattle.omf_layout.specs.Several.Portions.{Named};
ghost use Rattle.omf_check.specs.Module.{typed_modules};

use crate::several::arranging::arrange;
use crate::several::groups::LowTable;
use crate::several::laying::Lying;
use crate::several::places::segments_of;
use crate::{Frames, LayoutFault, Options};
use omf_check::Checked;
use omf_placement::{Placed, Placement};
use std::alloc::{AllocError, Global};

/// Returns the placements of modules whose segments have these places, with group frames from a table of lowest members.
fn placements_of<'a>(
    alloc: Global,
    modules: &'a [Checked],
    segments: Vec<Vec<Placed>>,
    frames: Frames,
    table: &LowTable<'a>,
) -> Result<Vec<Placement>, AllocError>
    requires { length segments.items ≡ length modules.now }
    ensures { (ls : List (Named PlacedAt)) → IsLowTable table.now.by_name ls → IfOk result (λ v. v.items ≡ map (with_frames frames ls) (zip (typed_modules modules.entry.now) (map (λ s. s.items) segments.items))) }
{
    let mut placements = Vec::with_capacity(alloc, modules.len())?;
    let mut left = segments.into_iter();
    for module in modules {
        let Some(places) = left.next() else {
            unreachable!()
        };
        let groups = table.frames_of(alloc, frames, module)?;
        placements.push(Placement::of(places, groups, Vec::new(alloc)))?;
    }
    Ok(placements)
}

/// Returns the placements of modules whose segments lie at these places.
fn placements_at(
    alloc: Global,
    modules: &[Checked],
    frames: Frames,
    lying: &[Lying],
) -> Result<Vec<Placement>, AllocError>
    ensures { IfOk result (λ v. v.items ≡ all_with_frames frames (typed_modules modules.now) (all_segments_in lying.now (typed_modules modules.now))) }
{
    let segments = segments_of(alloc, modules, lying)?;
    let table = LowTable::of(alloc, modules, &segments)?;
    placements_of(alloc, modules, segments, frames, &table)
}

/// Returns the placement of each module, with its segments and its groups, and the first free address after all segments. The segments
/// are where `arrange` lays them. The groups of one name, over all modules, share one frame: in real mode that of the lowest member of
/// any of them, or the frame at address 0 if none has a member; in flat mode the one frame.
///
/// # Errors
///
/// `NoRoom` if a segment does not fit below the limit; `Memory` if memory runs out.
pub fn place_segments(
    alloc: Global,
    modules: &[Checked],
    options: Options,
) -> Result<(Vec<Placement>, u64), LayoutFault>
    requires { length modules.now < 2 ^ 32 }
    ensures answer { IsAnswer (arranged_places options (typed_modules modules.now)) (map_ok (λ r. laid r.0.items r.1) result) }
    ensures low { IfOk result (λ r. r.1 ≤ 2 ^ 32) }
    ensures from { IfOk result (λ r. options.base ≤ r.1) }
{
    let (lying, free) = arrange(alloc, modules, options)?;
    let placements = placements_at(alloc, modules, options.frames, &lying)?;
    Ok((placements, free))
}

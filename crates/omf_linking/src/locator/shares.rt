//! Which lines of a draft share the frame of their name (this profile's rule): later parts of one segment, and later groups of one name.

ghost use Rattle.std.specs.Prelude.{◌≡◌, ◌∷◌, ◌++◌, [], IfOk, List, OnOk, Option, Some, ℕ, length, map, slice_get};
ghost use Rattle.std.specs.List.{AllZip};
ghost use Rattle.omf_check.specs.Module.{recs_of, typed_modules};
ghost use Rattle.omf_check.specs.Tables.{groups, segments};
ghost use Rattle.omf_placement.specs.declared.frame.Frame.{Frame as Base};
ghost use Rattle.omf_records.specs.Values.{Rec as Records, combination};
ghost use Rattle.omf_linking.specs.Inner.Sharing.{shared_after, shares_seen};
ghost use Rattle.omf_linking.specs.Inner.Titling.{IsFrameTable};
ghost use Rattle.omf_linking.specs.Locator.Drafted.{HasEntries, all_shared, groups_framed, is_combined, is_part, part_frame, parts_framed};
ghost use Rattle.omf_linking.specs.Locator.Items.{group_title, segment_title};

use crate::locator::titles::{FrameTable, group_title, segment_title};
use omf_check::Checked;
use omf_placement::{Frame, Placement};
use std::alloc::{AllocError, Global};

/// Which lines of a module's draft share the frame of their name.
#[derive(Drop)]
pub struct Shares {
    /// Of each segment, in the order of their indices.
    pub segments: Vec<bool>,
    /// Of each group.
    pub groups: Vec<bool>,
}

/// Returns whether segments with this attribute byte are parts of one: public, stack or common.
fn is_combined(attribute: u8) -> bool
    ensures { result ≡ is_combined (combination attribute) }
{
    match attribute / 4 % 8 {
        2 | 4 | 5 | 6 | 7 => true,
        _ => false,
    }
}

/// Returns whether a segment is such a part. An absolute one is none, whatever its attribute.
fn is_part(module: &Checked, index: u16) -> bool
    ensures { result ≡ is_part (recs_of «module».now.bytes) index }
{
    let Some(segment) = module.segment(index) else {
        return false;
    };
    let Some(attribute) = module.attribute(index) else {
        return false;
    };
    segment.absolute.is_none() && is_combined(attribute)
}

/// Returns the frame of a segment, if it is such a part.
fn part_frame(module: &Checked, index: u16, frame: Frame) -> Option<Frame>
    ensures { result ≡ part_frame (recs_of «module».now.bytes) index frame }
{
    if is_part(module, index) {
        Some(frame)
    } else {
        None
    }
}

/// Returns which segments of a module share a frame; `firsts` has the first lines of all names.
fn segments_shared(
    alloc: Global,
    firsts: &mut FrameTable,
    module: &Checked,
    placement: &Placement,
) -> Result<Vec<bool>, AllocError>
    requires { length placement.now.segments ≡ length (segments (recs_of «module».now.bytes)) }
    ensures table { OnOk result ((ms : List (List Records)) (gs : List ((ℕ × ℕ) × Option Base)) (j : ℕ) → slice_get ms j ≡ Some (recs_of «module».now.bytes) → IsFrameTable segment_title ms gs firsts.old.by_title → IsFrameTable segment_title ms (gs ++ parts_framed j (recs_of «module».now.bytes) placement.now.segments) firsts.new.by_title) }
    ensures shared { IfOk result (λ v. (ms : List (List Records)) (gs : List ((ℕ × ℕ) × Option Base)) (j : ℕ) → slice_get ms j ≡ Some (recs_of «module».now.bytes) → IsFrameTable segment_title ms gs firsts.old.by_title → v.items ≡ shared_after segment_title ms gs (recs_of «module».now.bytes) (parts_framed j (recs_of «module».now.bytes) placement.now.segments)) }
{
    let mut shared = Vec::new(alloc);
    for before in 0..module.segments() {
        let index = before + 1;
        let Some(place) = placement.segment(usize::from(index)) else {
            unreachable!()
        };
        let title = segment_title(alloc, module, index)?;
        let frame = part_frame(module, index, place.frame);
        let shares = firsts.share(title, frame)?;
        shared.push(shares)?;
    }
    Ok(shared)
}

/// Returns which groups of a module share a frame.
fn groups_shared(
    alloc: Global,
    firsts: &mut FrameTable,
    module: &Checked,
    placement: &Placement,
) -> Result<Vec<bool>, AllocError>
    requires { length placement.now.groups ≡ length (groups (recs_of «module».now.bytes)) }
    ensures table { OnOk result ((ms : List (List Records)) (gs : List ((ℕ × ℕ) × Option Base)) (j : ℕ) → slice_get ms j ≡ Some (recs_of «module».now.bytes) → IsFrameTable group_title ms gs firsts.old.by_title → IsFrameTable group_title ms (gs ++ groups_framed j 1 placement.now.groups) firsts.new.by_title) }
    ensures shared { IfOk result (λ v. (ms : List (List Records)) (gs : List ((ℕ × ℕ) × Option Base)) (j : ℕ) → slice_get ms j ≡ Some (recs_of «module».now.bytes) → IsFrameTable group_title ms gs firsts.old.by_title → v.items ≡ shared_after group_title ms gs (recs_of «module».now.bytes) (groups_framed j 1 placement.now.groups)) }
{
    let mut shared = Vec::new(alloc);
    for before in 0..module.groups() {
        let index = before + 1;
        let Some(frame) = placement.group(usize::from(index)) else {
            unreachable!()
        };
        let title = group_title(alloc, module, index)?;
        let shares = firsts.share(title, Some(frame))?;
        shared.push(shares)?;
    }
    Ok(shared)
}

/// Returns which lines of a draft of modules at these placements share the frame of their name, for each module. A segment does if it is public,
/// stack or common and not absolute, another segment is the first of its name and class, and that is such a part too, in the same frame.
/// A group does if another group is the first of its name, in the same frame. So the draft gives each of them its frame.
pub fn shares_of(
    alloc: Global,
    modules: &[Checked],
    placements: &[Placement],
) -> Result<Vec<Shares>, AllocError>
    requires { AllZip HasEntries (typed_modules modules.now) placements.now }
    ensures { IfOk result (λ v. map shares_seen v.items ≡ all_shared (typed_modules modules.now) placements.now) }
{
    let mut first_segments = FrameTable::new(alloc);
    let mut first_groups = FrameTable::new(alloc);
    let mut shares = Vec::new(alloc);
    for (number, module) in modules.iter().enumerate() {
        let placement = &placements[number];
        let segments = segments_shared(alloc, &mut first_segments, module, placement)?;
        let groups = groups_shared(alloc, &mut first_groups, module, placement)?;
        shares.push(Shares { segments, groups })?;
    }
    Ok(shares)
}

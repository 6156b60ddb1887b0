//! Frames in real mode with a base that is not 16 times the selector.

ghost use Rattle.std.specs.Prelude.{◌≡◌, ◌++◌, ◌<◌, ◌^◌, IfOk, OnOk, find, length, not, option_and_then, option_to_list};
ghost use Rattle.std.specs.List.{list_any};
ghost use Rattle.omf_check.specs.Module.{recs_of};
ghost use Rattle.omf_check.specs.Tables.{entry, groups, segments};
ghost use Rattle.omf_placement.specs.Derive.{placed_modules};
ghost use Rattle.omf_records.specs.Inner.Seen.{contents_seen};
ghost use Rattle.omf_warnings.specs.RealMode.{all_small, first_unreal, groups_in, has_small, is_real, is_small, segments_in, small_group, small_in, small_segment, tells_real, unreal};

use crate::frames::Framed;
use omf_check::Checked;
use omf_drafting::suiting::is_use32;
use omf_placement::Placement;
use omf_records::{Items, Member, Rec};
use omf_reloc::Kind;
use std::alloc::{AllocError, Global};

/// Returns whether a frame is one of real mode.
fn is_real(framed: &Framed) -> bool
    ensures { result ≡ is_real framed.now }
{
    framed.frame.base == 16 * u32::from(framed.frame.selector)
}

/// Returns whether a frame shows that a text is for real mode.
fn tells_real(framed: &Framed) -> bool
    ensures { result ≡ tells_real framed.now }
{
    framed.frame.selector != 0 && is_real(framed)
}

/// Returns a segment with its frame, if it has 16 bits and is not absolute.
fn small_segment(number: u32, module: &Checked, placement: &Placement, index: u16) -> Option<Framed>
    ensures { result ≡ option_and_then (λ s. small_segment number (recs_of «module».now.bytes, placement.now) (index, s)) (entry (segments (recs_of «module».now.bytes)) index) }
{
    let info = module.segment(index)?;
    if info.absolute.is_some() {
        return None;
    }
    let attribute = module.attribute(index)?;
    if is_use32(attribute) {
        return None;
    }
    let place = placement.segment(usize::from(index))?;
    Some(Framed {
        kind: Kind::Segment,
        module: number,
        index,
        frame: place.frame,
    })
}

/// Returns whether a segment has 16 bits.
fn is_small(module: &Checked, segment: u16) -> bool
    ensures { result ≡ is_small (recs_of «module».now.bytes) segment }
{
    match module.attribute(segment) {
        Some(attribute) => !is_use32(attribute),
        None => false,
    }
}

/// Returns the segment of a member.
fn segment_of(member: &Member<'_>) -> u16
    ensures { result ≡ member.now.item }
{
    member.segment.item.0
}

/// Returns whether one of some members of a group has 16 bits.
fn is_one_small(module: &Checked, members: Items<Member<'_>>) -> bool
    ensures { result ≡ list_any (λ x. is_small (recs_of «module».now.bytes) x.item.item) members.entry }
{
    for member in members {
        if is_small(module, segment_of(&member.item)) {
            return true;
        }
    }
    false
}

/// Returns whether a record is a GRPDEF with a 16-bit member.
fn has_small(module: &Checked, group: &Rec<'_>) -> bool
    ensures { result ≡ has_small (recs_of «module».now.bytes) (contents_seen group.now) }
{
    let Rec::Group { members, .. } = group else {
        return false;
    };
    is_one_small(module, members.iter())
}

/// Returns a group with its frame, if it has a 16-bit member.
fn small_group(number: u32, module: &Checked, placement: &Placement, index: u16) -> Option<Framed>
    ensures { result ≡ option_and_then (λ g. small_group number (recs_of «module».now.bytes, placement.now) (index, g)) (entry (groups (recs_of «module».now.bytes)) index) }
{
    let group = module.group(index)?;
    if !has_small(module, &group) {
        return None;
    }
    let frame = placement.group(usize::from(index))?;
    Some(Framed {
        kind: Kind::Group,
        module: number,
        index,
        frame,
    })
}

/// Adds a frame, if there is one.
fn add(frames: &mut Vec<Framed>, more: Option<Framed>) -> Result<(), AllocError>
    ensures { OnOk result (frames.new.items ≡ frames.old.items ++ option_to_list more) }
{
    if let Some(more) = more {
        frames.push(more)?;
    }
    Ok(())
}

/// Adds the segments of a module.
fn add_segments(
    frames: &mut Vec<Framed>,
    number: u32,
    module: &Checked,
    placement: &Placement,
) -> Result<(), AllocError>
    ensures { OnOk result (frames.new.items ≡ frames.old.items ++ segments_in number (recs_of «module».now.bytes, placement.now)) }
{
    for before in 0..module.segments() {
        add(frames, small_segment(number, module, placement, before + 1))?;
    }
    Ok(())
}

/// Adds the groups of a module.
fn add_groups(
    frames: &mut Vec<Framed>,
    number: u32,
    module: &Checked,
    placement: &Placement,
) -> Result<(), AllocError>
    ensures { OnOk result (frames.new.items ≡ frames.old.items ++ groups_in number (recs_of «module».now.bytes, placement.now)) }
{
    for before in 0..module.groups() {
        add(frames, small_group(number, module, placement, before + 1))?;
    }
    Ok(())
}

/// Adds the segments and the groups of a module.
fn add_module(
    frames: &mut Vec<Framed>,
    number: u32,
    module: &Checked,
    placement: &Placement,
) -> Result<(), AllocError>
    ensures { OnOk result (frames.new.items ≡ frames.old.items ++ small_in number (recs_of «module».now.bytes, placement.now)) }
{
    add_segments(frames, number, module, placement)?;
    add_groups(frames, number, module, placement)
}

/// Returns the 16-bit segments and the groups with a 16-bit member of modules, with their frames.
fn frames_of(
    alloc: Global,
    modules: &[Checked],
    placements: &[Placement],
) -> Result<Vec<Framed>, AllocError>
    requires few { length modules.now < 2 ^ 32 }
    requires placed { length placements.now ≡ length modules.now }
    ensures { IfOk result (λ v. v.items ≡ all_small (placed_modules modules.now placements.now)) }
{
    let mut frames = Vec::new(alloc);
    for (j, module) in modules.iter().enumerate() {
        add_module(&mut frames, j as u32, module, &placements[j])?;
    }
    Ok(frames)
}

/// Returns whether one of the frames shows that a text is for real mode.
fn is_for_real(frames: &[Framed]) -> bool
    ensures { result ≡ list_any tells_real frames.now }
{
    for framed in frames {
        if tells_real(framed) {
            return true;
        }
    }
    false
}

/// Returns the first frame that is not one of real mode.
fn first_other(frames: &[Framed]) -> Option<Framed>
    ensures { result ≡ find (λ f. not (is_real f)) frames.now }
{
    for framed in frames {
        if !is_real(framed) {
            return Some(*framed);
        }
    }
    None
}

/// Returns the first frame that is not one of real mode, if one of them shows that the text is for real mode.
fn unreal(frames: &[Framed]) -> Option<Framed>
    ensures { result ≡ unreal frames.now }
{
    if is_for_real(frames) {
        first_other(frames)
    } else {
        None
    }
}

/// Returns the first segment or group whose frame has a base that is not 16 times its selector, module by module, segments first, if the text
/// is for real mode: if one of these frames has such a base, and a selector that is not 0. Absolute segments and 32-bit segments do not
/// count, and of groups those that have a 16-bit member.
///
/// # Errors
///
/// `AllocError` if memory runs out.
pub fn first_unreal(
    alloc: Global,
    modules: &[Checked],
    placements: &[Placement],
) -> Result<Option<Framed>, AllocError>
    requires few { length modules.now < 2 ^ 32 }
    requires placed { length placements.now ≡ length modules.now }
    ensures { IfOk result (λ o. o ≡ first_unreal (placed_modules modules.now placements.now)) }
{
    let frames = frames_of(alloc, modules, placements)?;
    Ok(unreal(&frames))
}

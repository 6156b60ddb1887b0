//! The frames of groups, by the names of the segments that they have.

ghost use Rattle.std.specs.Prelude.{◌≡◌, ◌==◌, ◌∷◌, [], List, IfOk, OnOk, filter_map, length, not, option_map, option_to_list};
ghost use Rattle.std.specs.List.{list_any};
ghost use Rattle.omf_check.specs.Module.{recs_of};
ghost use Rattle.omf_placement.specs.Derive.{placed_modules};
ghost use Rattle.omf_records.specs.Inner.Seen.{contents_seen};
ghost use Rattle.omf_records.specs.Values.{Group, GroupItem};
ghost use Rattle.omf_output.specs.Exe.Derived.{name_at};
ghost use Rattle.omf_output.specs.Inner.GroupFrames.{HasMore, IsFrameTable};
ghost use Rattle.omf_output.specs.Near.{GroupFrame, frame_of, full_name_at, group_frame, group_frames, group_frames_in, group_frames_of, is_joined, shared_base};

use omf_check::{Checked, SegInfo};
use omf_names::NameKey;
use omf_placement::Placement;
use omf_records::{Items, Member, Rec};
use std::alloc::{AllocError, Global};
use std::collections::BTreeMap;
use std::marker::Model;

/// Returns whether a segment with this attribute byte is joined with others of its name and class: it is public (C = 2, 4, 7) or a stack (C = 5), and not
/// absolute.
fn is_joined(segment: SegInfo, attribute: u8) -> bool
    ensures { result ≡ is_joined segment attribute }
{
    segment.absolute.is_none() && matches!(attribute / 4 % 8, 2 | 4 | 5 | 7)
}

/// Returns the name of an index; the empty name for index 0.
fn name_at(module: &Checked, index: u16) -> &[u8]
    ensures { result.now ≡ name_at (recs_of «module».now.bytes) index }
{
    match module.name(index) {
        Some(name) => name.0,
        None => &[],
    }
}

/// The name of a segment and its class.
type FullName<'a> = (&'a [u8], &'a [u8]);

/// Returns the name and the class of a segment that is joined with others of both.
fn full_name(module: &Checked, segment: u16) -> Option<FullName<'_>>
    ensures { option_map (λ n. (n.0.now, n.1.now)) result ≡ full_name_at (recs_of «module».now.bytes) segment }
{
    let info = module.segment(segment)?;
    let attribute = module.attribute(segment)?;
    if !is_joined(info, attribute) {
        return None;
    }
    Some((name_at(module, info.name), name_at(module, info.class)))
}

/// Returns the segment of a member.
fn segment_of(member: &Member<'_>) -> u16
    ensures { result ≡ member.now.item }
{
    member.segment.item.0
}

/// The base of the first group that has a segment, by the segment's name and class.
#[derive(Drop)]
struct FrameTable<'a> {
    by_name: BTreeMap<(NameKey<'a>, NameKey<'a>), u32>,
}

impl<'a> FrameTable<'a> {
    /// Adds the base of a group that has a segment of this name and class, unless there is one.
    fn add(&mut self, name: FullName<'a>, base: u32) -> Result<(), AllocError>
        ensures { OnOk result (HasMore self.old.by_name self.new.by_name (frame_of base (name.entry.0.now, name.entry.1.now) ∷ [])) }
    {
        let (name, class) = name;
        let key = (NameKey::of(name), NameKey::of(class));
        if self.by_name.get(&key).is_some() {
            return Ok(());
        }
        self.by_name.insert(key, base)?;
        Ok(())
    }

    /// Adds the base of a group that has a segment of a module, if that is joined.
    fn add_segment(
        &mut self,
        module: &'a Checked,
        base: u32,
        segment: u16,
    ) -> Result<(), AllocError>
        ensures { OnOk result (HasMore self.old.by_name self.new.by_name (option_to_list (group_frame (recs_of «module».entry.now.bytes) base segment))) }
    {
        match full_name(module, segment) {
            Some(name) => self.add(name, base),
            None => Ok(()),
        }
    }

    /// Adds the base of a group with these members.
    fn add_members(
        &mut self,
        module: &'a Checked,
        base: u32,
        members: Items<Member<'_>>,
    ) -> Result<(), AllocError>
        ensures { OnOk result (HasMore self.old.by_name self.new.by_name (filter_map (λ x. group_frame (recs_of «module».entry.now.bytes) base x.item.item) members.entry)) }
    {
        for member in members {
            self.add_segment(module, base, segment_of(&member.item))?;
        }
        Ok(())
    }

    /// Adds the base of a group of a module, if it has a frame.
    fn add_group(
        &mut self,
        module: &'a Checked,
        placement: &Placement,
        index: u16,
        group: &Rec<'_>,
    ) -> Result<(), AllocError>
        requires { (g : GroupItem) × (contents_seen group.now ≡ Group g) }
        ensures { (g : GroupItem) → contents_seen group.now ≡ Group g → OnOk result (HasMore self.old.by_name self.new.by_name (group_frames (recs_of «module».entry.now.bytes, placement.now) (index, g))) }
    {
        let Rec::Group { members, .. } = group else {
            unreachable!()
        };
        match placement.group(usize::from(index)) {
            Some(frame) => self.add_members(module, frame.base, members.iter()),
            None => Ok(()),
        }
    }

    /// Adds the bases of the groups of a module.
    fn add_module(&mut self, module: &'a Checked, placement: &Placement) -> Result<(), AllocError>
        ensures { OnOk result (HasMore self.old.by_name self.new.by_name (group_frames_in (recs_of «module».entry.now.bytes, placement.now))) }
    {
        for before in 0..module.groups() {
            let Some(group) = module.group(before + 1) else {
                unreachable!()
            };
            self.add_group(module, placement, before + 1, &group)?;
        }
        Ok(())
    }
}

/// Returns the table of the groups of all modules.
fn table_of<'a>(
    alloc: Global,
    modules: &'a [Checked],
    placements: &[Placement],
) -> Result<FrameTable<'a>, AllocError>
    requires { length placements.now ≡ length modules.now }
    ensures { IfOk result (λ t. IsFrameTable t.by_name (group_frames_of (placed_modules modules.entry.now placements.now))) }
{
    let mut table = FrameTable {
        by_name: BTreeMap::new(alloc),
    };
    for (j, module) in modules.iter().enumerate() {
        table.add_module(module, &placements[j])?;
    }
    Ok(table)
}

/// Modules at their placements, with the frames of their groups by the names of segments.
#[derive(Drop)]
pub(crate) struct GroupFrames<'a> {
    modules: &'a [Checked],
    placements: &'a [Placement],
    table: FrameTable<'a>,
}

impl<'a> Model for GroupFrames<'a> {
    ghost use Rattle.std.specs.Prelude.{List};
    ghost use Rattle.omf_placement.specs.Derive.{PlacedModule, placed_modules};
    ghost use Rattle.omf_output.specs.Inner.GroupFrames.{IsFrameTable};
    ghost use Rattle.omf_output.specs.Near.{group_frames_of};

    ghost Value = { List PlacedModule };

    ghost view = { λ f. placed_modules f.modules.now f.placements.now };

    ghost invariant = { λ f. IsFrameTable f.table.by_name (group_frames_of (placed_modules f.modules.now f.placements.now)) };
}

impl<'a> GroupFrames<'a> {
    /// Finds the frames of the groups of modules at their placements.
    pub(crate) fn of(
        alloc: Global,
        modules: &'a [Checked],
        placements: &'a [Placement],
    ) -> Result<GroupFrames<'a>, AllocError>
        requires { length placements.now ≡ length modules.now }
        ensures { IfOk result (λ f. f ≡ placed_modules modules.entry.now placements.entry.now) }
    {
        let table = table_of(alloc, modules, placements)?;
        Ok(GroupFrames {
            modules,
            placements,
            table,
        })
    }

    /// Returns the base of the first group of all modules that has a part of a module's segment.
    pub(crate) fn base_of(&self, module: &'a Checked, segment: u16) -> Option<u32>
        ensures { result ≡ shared_base self.now (recs_of «module».now.bytes) segment }
    {
        let (name, class) = full_name(module, segment)?;
        let key = (NameKey::of(name), NameKey::of(class));
        self.table.by_name.get(&key).copied()
    }
}

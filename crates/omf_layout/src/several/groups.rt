//! Frames of the groups of several modules.

ghost use Rattle.std.specs.Prelude.{◌≡◌, ◌<◌, ◌^◌, ◌∷◌, [], List, OnOk, IfOk, length, map, filter_map, option_and_then};
ghost use Rattle.omf_check.specs.Module.{recs_of, typed_modules};
ghost use Rattle.omf_check.specs.Tables.{groups};
ghost use Rattle.omf_records.specs.Inner.Seen.{contents_seen};
ghost use Rattle.omf_records.specs.Values.{Group, GroupItem};
ghost use Rattle.omf_layout.specs.Several.Placing.{HasMore, IsLowTable, at_frame, frame_named, group_frames, low_of, lows, lows_in};
ghost use Rattle.omf_layout.specs.Several.Portions.{Named};

use crate::Frames;
use crate::draft::group_name;
use crate::several::portion::name_at;
use omf_check::Checked;
use omf_names::NameKey;
use omf_placement::{Frame, Placed, lower, lowest_member};
use omf_records::Rec;
use std::alloc::{AllocError, Global};
use std::collections::BTreeMap;

/// Returns the place at the start of a place's frame.
fn at_frame(place: Placed) -> Placed
    ensures { result ≡ at_frame place }
{
    Placed {
        address: place.frame.base,
        frame: place.frame,
    }
}

/// Returns, for each place, the place at the start of its frame.
fn frame_starts(alloc: Global, places: &[Placed]) -> Result<Vec<Placed>, AllocError>
    ensures { IfOk result (λ v. v.items ≡ map at_frame places.now) }
{
    let mut starts = Vec::with_capacity(alloc, places.len())?;
    for place in places {
        starts.push(at_frame(*place))?;
    }
    Ok(starts)
}

/// The starts of the lowest frames of the members of groups, by group name.
#[derive(Drop)]
pub struct LowTable<'a> {
    by_name: BTreeMap<NameKey<'a>, Placed>,
}

impl<'a> LowTable<'a> {
    /// Adds the start of the lowest frame of a group's members.
    fn add(&mut self, name: &'a [u8], place: Placed) -> Result<(), AllocError>
        ensures { OnOk result (HasMore self.old.by_name self.new.by_name ((name.entry.now, place) ∷ [])) }
    {
        let low = lower(self.by_name.get(&NameKey::of(name)).copied(), place);
        self.by_name.insert(NameKey::of(name), low)?;
        Ok(())
    }

    /// Adds a group of a module, by these places of its segments.
    fn add_group(
        &mut self,
        module: &'a Checked,
        segments: &[Placed],
        group: &Rec<'_>,
    ) -> Result<(), AllocError>
        requires { (g : GroupItem) × (contents_seen group.now ≡ Group g) }
        ensures { (g : GroupItem) → contents_seen group.now ≡ Group g → OnOk result (HasMore self.old.by_name self.new.by_name (filter_map (low_of (recs_of «module».entry.now.bytes) segments.now) (g ∷ []))) }
    {
        match lowest_member(group, segments) {
            Some(place) => self.add(name_at(module, group_name(group)), place),
            None => Ok(()),
        }
    }

    /// Adds the groups of a module, by these places of its segments.
    fn add_groups(&mut self, module: &'a Checked, segments: &[Placed]) -> Result<(), AllocError>
        ensures { OnOk result (HasMore self.old.by_name self.new.by_name (filter_map (low_of (recs_of «module».entry.now.bytes) segments.now) (groups (recs_of «module».entry.now.bytes)))) }
    {
        for before in 0..module.groups() {
            let Some(group) = module.group(before + 1) else {
                unreachable!()
            };
            self.add_group(module, segments, &group)?;
        }
        Ok(())
    }

    /// Adds the groups of a module whose segments have these places, by the frames of the segments.
    fn add_module(
        &mut self,
        alloc: Global,
        module: &'a Checked,
        segments: &[Placed],
    ) -> Result<(), AllocError>
        ensures { OnOk result (HasMore self.old.by_name self.new.by_name (lows_in (recs_of «module».entry.now.bytes, segments.now))) }
    {
        let starts = frame_starts(alloc, segments)?;
        self.add_groups(module, &starts)
    }

    /// Collects the lowest frames of the groups of all modules, whose segments have these places.
    pub fn of(
        alloc: Global,
        modules: &'a [Checked],
        places: &[Vec<Placed>],
    ) -> Result<LowTable<'a>, AllocError>
        requires { length places.now ≡ length modules.now }
        ensures { IfOk result (λ t. IsLowTable t.by_name (lows (typed_modules modules.entry.now) (map (λ v. v.items) places.now))) }
    {
        let mut table = LowTable {
            by_name: BTreeMap::new(alloc),
        };
        for (j, module) in modules.iter().enumerate() {
            table.add_module(alloc, module, &places[j])?;
        }
        Ok(table)
    }

    /// Returns the frame of the groups of a name.
    fn frame_of(&self, frames: Frames, name: &'a [u8]) -> Frame
        ensures { (ls : List (Named Placed)) → IsLowTable self.now.by_name ls → result ≡ frame_named frames ls name.now }
    {
        match frames {
            Frames::Flat { selector } => Frame { base: 0, selector },
            Frames::Real => match self.by_name.get(&NameKey::of(name)) {
                Some(place) => place.frame,
                None => Frame {
                    base: 0,
                    selector: 0,
                },
            },
        }
    }

    /// Returns the frames of a module's groups.
    pub fn frames_of(
        &self,
        alloc: Global,
        frames: Frames,
        module: &'a Checked,
    ) -> Result<Vec<Frame>, AllocError>
        ensures { (ls : List (Named Placed)) → IsLowTable self.now.by_name ls → IfOk result (λ v. v.items ≡ group_frames frames ls (recs_of «module».entry.now.bytes)) }
    {
        let mut each = Vec::new(alloc);
        for before in 0..module.groups() {
            let Some(group) = module.group(before + 1) else {
                unreachable!()
            };
            each.push(self.frame_of(frames, name_at(module, group_name(&group))))?;
        }
        Ok(each)
    }
}

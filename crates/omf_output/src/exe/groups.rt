//! Which groups move: those of one name, over all modules, are one, and move exactly if the member with the lowest frame does.

ghost use Rattle.std.specs.Prelude.{◌≡◌, ◌∷◌, [], List, IfOk, OnOk, filter_map, length};
ghost use Rattle.omf_check.specs.Module.{recs_of};
ghost use Rattle.omf_check.specs.Tables.{groups};
ghost use Rattle.omf_records.specs.Inner.Seen.{contents_seen};
ghost use Rattle.omf_records.specs.Values.{Group, GroupItem};
ghost use Rattle.omf_placement.specs.Derive.{placed_modules};
ghost use Rattle.omf_output.specs.Exe.Based.{is_movable, segments_moving};
ghost use Rattle.omf_output.specs.Exe.Derived.{HasMore, IsLowTable, Named, low_of, lows, lows_in, marked, marks, name_at, name_moves, names_moving};

use omf_check::{Checked, SegInfo};
use omf_names::NameKey;
use omf_placement::{Frame, Placed, Placement, lower, lowest_member};
use omf_records::Rec;
use std::alloc::{AllocError, Global};
use std::collections::BTreeMap;

/// Whether a segment moves: unless it is absolute.
pub(crate) fn is_movable(segment: &SegInfo) -> bool
    ensures { result ≡ is_movable segment.now.absolute }
{
    match segment.absolute {
        Some(_) => false,
        None => true,
    }
}

/// Whether each segment of a module moves.
pub(crate) fn segments_moving(alloc: Global, module: &Checked) -> Result<Vec<bool>, AllocError>
    ensures { IfOk result (λ v. v.items ≡ segments_moving (recs_of «module».now.bytes)) }
{
    let mut moving = Vec::new(alloc);
    for before in 0..module.segments() {
        let Some(segment) = module.segment(before + 1) else {
            unreachable!()
        };
        moving.push(is_movable(&segment))?;
    }
    Ok(moving)
}

/// The place at the start of a segment's frame, with a mark that shows whether the segment moves.
fn marked(moves: bool, place: Placed) -> Placed
    ensures { result ≡ marked (moves, place) }
{
    let selector = if moves { 1 } else { 0 };
    Placed {
        address: place.frame.base,
        frame: Frame { base: 0, selector },
    }
}

/// The marked places of a module's segments.
fn marks(alloc: Global, module: &Checked, placement: &Placement) -> Result<Vec<Placed>, AllocError>
    ensures { IfOk result (λ v. v.items ≡ marks (recs_of «module».now.bytes, placement.now)) }
{
    let moving = segments_moving(alloc, module)?;
    let mut marks = Vec::new(alloc);
    for (before, moves) in moving.iter().enumerate() {
        let Some(place) = placement.segment(before + 1) else {
            return Ok(marks);
        };
        marks.push(marked(*moves, place))?;
    }
    Ok(marks)
}

/// The name of an index; the empty name for index 0.
fn name_at(module: &Checked, index: u16) -> &[u8]
    ensures { result.now ≡ name_at (recs_of «module».now.bytes) index }
{
    match module.name(index) {
        Some(name) => name.0,
        None => &[],
    }
}

/// The index of a group's name.
fn group_name(group: &Rec<'_>) -> u16
    requires { (g : GroupItem) × (contents_seen group.now ≡ Group g) }
    ensures { (g : GroupItem) → contents_seen group.now ≡ Group g → result ≡ g.name.item }
{
    let Rec::Group { name, .. } = group else {
        unreachable!()
    };
    name.item.0
}

/// The marked places of the members of groups that have the lowest frame, by group name.
#[derive(Drop)]
pub(crate) struct LowTable<'a> {
    by_name: BTreeMap<NameKey<'a>, Placed>,
}

impl<'a> LowTable<'a> {
    /// Adds the marked place of the member of a group that has the lowest frame.
    fn add(&mut self, name: &'a [u8], place: Placed) -> Result<(), AllocError>
        ensures { OnOk result (HasMore self.old.by_name self.new.by_name ((name.entry.now, place) ∷ [])) }
    {
        let low = lower(self.by_name.get(&NameKey::of(name)).copied(), place);
        self.by_name.insert(NameKey::of(name), low)?;
        Ok(())
    }

    /// Adds a group of a module whose segments have these marked places.
    fn add_group(
        &mut self,
        module: &'a Checked,
        marks: &[Placed],
        group: &Rec<'_>,
    ) -> Result<(), AllocError>
        requires { (g : GroupItem) × (contents_seen group.now ≡ Group g) }
        ensures { (g : GroupItem) → contents_seen group.now ≡ Group g → OnOk result (HasMore self.old.by_name self.new.by_name (filter_map (low_of (recs_of «module».entry.now.bytes) marks.now) (g ∷ []))) }
    {
        match lowest_member(group, marks) {
            Some(place) => self.add(name_at(module, group_name(group)), place),
            None => Ok(()),
        }
    }

    /// Adds the groups of a module whose segments have these marked places.
    fn add_groups(&mut self, module: &'a Checked, marks: &[Placed]) -> Result<(), AllocError>
        ensures { OnOk result (HasMore self.old.by_name self.new.by_name (filter_map (low_of (recs_of «module».entry.now.bytes) marks.now) (groups (recs_of «module».entry.now.bytes)))) }
    {
        for before in 0..module.groups() {
            let Some(group) = module.group(before + 1) else {
                unreachable!()
            };
            self.add_group(module, marks, &group)?;
        }
        Ok(())
    }

    /// Adds the groups of a module at its placement.
    fn add_module(
        &mut self,
        alloc: Global,
        module: &'a Checked,
        placement: &Placement,
    ) -> Result<(), AllocError>
        ensures { OnOk result (HasMore self.old.by_name self.new.by_name (lows_in (recs_of «module».entry.now.bytes, placement.now))) }
    {
        if module.groups() == 0 {
            return Ok(());
        }
        let marks = marks(alloc, module, placement)?;
        self.add_groups(module, &marks)
    }

    /// The members with the lowest frames, of the groups of all modules at their placements.
    pub(crate) fn of(
        alloc: Global,
        modules: &'a [Checked],
        places: &[Placement],
    ) -> Result<LowTable<'a>, AllocError>
        requires { length places.now ≡ length modules.now }
        ensures { IfOk result (λ t. IsLowTable t.by_name (lows (placed_modules modules.entry.now places.now))) }
    {
        let mut table = LowTable {
            by_name: BTreeMap::new(alloc),
        };
        for (j, module) in modules.iter().enumerate() {
            table.add_module(alloc, module, &places[j])?;
        }
        Ok(table)
    }

    /// Whether the groups of a name move.
    fn name_moves(&self, name: &'a [u8]) -> bool
        ensures { (ls : List Named) → IsLowTable self.now.by_name ls → result ≡ name_moves ls name.now }
    {
        match self.by_name.get(&NameKey::of(name)) {
            Some(place) => place.frame.selector == 1,
            None => false,
        }
    }

    /// Whether each group of a module moves.
    pub(crate) fn names_moving(
        &self,
        alloc: Global,
        module: &'a Checked,
    ) -> Result<Vec<bool>, AllocError>
        ensures { (ls : List Named) → IsLowTable self.now.by_name ls → IfOk result (λ v. v.items ≡ names_moving ls (recs_of «module».entry.now.bytes)) }
    {
        let mut moving = Vec::new(alloc);
        for before in 0..module.groups() {
            let Some(group) = module.group(before + 1) else {
                unreachable!()
            };
            moving.push(self.name_moves(name_at(module, group_name(&group))))?;
        }
        Ok(moving)
    }
}

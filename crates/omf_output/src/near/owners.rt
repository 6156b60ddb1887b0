//! The groups of a module's segments.

ghost use Rattle.std.specs.Prelude.{◌≡◌, ◌≤◌, ◌∷◌, [], IfOk, Some, map, replicate};
ghost use Rattle.omf_check.specs.Module.{recs_of};
ghost use Rattle.omf_check.specs.Tables.{entry, groups};
ghost use Rattle.omf_records.specs.Inner.Seen.{contents_seen};
ghost use Rattle.omf_records.specs.Values.{GroupItem};
ghost use Rattle.omf_output.specs.Inner.Owners.{HasTaken, IsTable, group_pairs};
ghost use Rattle.omf_output.specs.Near.{group_of, members_of, memberships};

use omf_check::Checked;
use omf_records::{Items, Member, Rec};
use std::alloc::{AllocError, Global};
use std::marker::Model;

/// Notes the group of a segment, unless it has one.
fn note(table: &mut Vec<u16>, segment: u16, group: u16)
    requires { 1 ≤ group }
    ensures { HasTaken table.old.items table.new.items ((segment, group) ∷ []) }
{
    let Some(before) = segment.checked_sub(1) else {
        return;
    };
    if let Some(slot) = table.get_mut(usize::from(before)) {
        if *slot == 0 {
            *slot = group;
        }
    }
}

/// Returns the segment of a member.
fn segment_of(member: &Member<'_>) -> u16
    ensures { result ≡ member.now.item }
{
    member.segment.item.0
}

/// Notes the group of its members.
fn note_members(table: &mut Vec<u16>, group: u16, members: Items<Member<'_>>)
    requires { 1 ≤ group }
    ensures { HasTaken table.old.items table.new.items (map (λ x. (x.item.item, group)) members.entry) }
{
    for member in members {
        note(table, segment_of(&member.item), group);
    }
}

/// The same for the record of a group.
fn note_record(table: &mut Vec<u16>, group: u16, rec: &Rec<'_>)
    requires { 1 ≤ group }
    ensures { HasTaken table.old.items table.new.items (group_pairs group (contents_seen rec.now)) }
{
    if let Rec::Group { members, .. } = rec {
        note_members(table, group, members.iter());
    }
}

/// The same for a group of a module.
fn note_group(table: &mut Vec<u16>, module: &Checked, group: u16)
    requires { 1 ≤ group }
    ensures { (g : GroupItem) → entry (groups (recs_of «module».now.bytes)) group ≡ Some g → HasTaken table.old.items table.new.items (members_of (group, g)) }
{
    if let Some(rec) = module.group(group) {
        note_record(table, group, &rec);
    }
}

/// Returns n zeros.
fn zeros(alloc: Global, count: usize) -> Result<Vec<u16>, AllocError>
    ensures { IfOk result (λ v. v.items ≡ replicate count 0) }
{
    let mut zeros = Vec::new(alloc);
    zeros.resize(count, 0)?;
    Ok(zeros)
}

/// Returns a table with 0 for each segment of a module.
fn blank(alloc: Global, module: &Checked) -> Result<Vec<u16>, AllocError>
    ensures { IfOk result (λ v. IsTable (recs_of «module».now.bytes) (memberships (recs_of «module».now.bytes)) v.items) }
{
    zeros(alloc, usize::from(module.segments()))
}

/// Returns the group of a segment, by the table of a module.
fn group_at(module: &Checked, table: &[u16], segment: u16) -> Option<u16>
    requires { IsTable (recs_of «module».now.bytes) [] table.now }
    ensures { result ≡ group_of (recs_of «module».now.bytes) segment }
{
    let before = segment.checked_sub(1)?;
    if before >= module.segments() {
        return None;
    }
    let group = table[usize::from(before)];
    if group == 0 {
        return None;
    }
    Some(group)
}

/// Returns the group of each segment of a module: the first that has it, or 0.
fn groups_of(alloc: Global, module: &Checked) -> Result<Vec<u16>, AllocError>
    ensures { IfOk result (λ v. IsTable (recs_of «module».now.bytes) [] v.items) }
{
    let mut table = blank(alloc, module)?;
    for before in 0..module.groups() {
        note_group(&mut table, module, before + 1);
    }
    Ok(table)
}

/// A module with the group of each of its segments.
#[derive(Drop)]
pub(crate) struct Owners<'a> {
    module: &'a Checked,
    /// For each segment the index of the first group that has it, or 0.
    groups: Vec<u16>,
}

impl<'a> Model for Owners<'a> {
    ghost use Rattle.std.specs.Prelude.{[]};
    ghost use Rattle.omf_check.specs.Module.{Module, recs_of};
    ghost use Rattle.omf_output.specs.Inner.Owners.{IsTable};

    ghost Value = { Module };

    ghost view = { λ o. o.«module».now };

    ghost invariant = { λ o. IsTable (recs_of o.«module».now.bytes) [] o.groups.items };
}

impl<'a> Owners<'a> {
    /// Finds the groups of a module's segments.
    pub(crate) fn of(alloc: Global, module: &'a Checked) -> Result<Owners<'a>, AllocError>
        ensures { IfOk result (λ o. o ≡ «module».entry.now) }
    {
        let groups = groups_of(alloc, module)?;
        Ok(Owners { module, groups })
    }

    /// Returns the module.
    pub(crate) fn module(&self) -> &'a Checked
        ensures { result.now ≡ self.now }
    {
        self.module
    }

    /// Returns the group of a segment.
    pub(crate) fn group_of(&self, segment: u16) -> Option<u16>
        ensures { result ≡ group_of (recs_of self.now.bytes) segment }
    {
        group_at(self.module, &self.groups, segment)
    }
}

//! Groups with a member too far from their frame.

ghost use Rattle.std.specs.Prelude.{◌≡◌, ◌<◌, ◌^◌, length, option_and_then};
ghost use Rattle.omf_check.specs.Module.{recs_of};
ghost use Rattle.omf_check.specs.Tables.{entry, groups};
ghost use Rattle.omf_placement.specs.Derive.{placed_modules};
ghost use Rattle.omf_records.specs.Inner.Seen.{contents_seen};
ghost use Rattle.omf_warnings.specs.Wide.{first_wide, wide, wide_if, wide_in, wide_in_group, wide_in_members, wide_in_module};

use omf_check::{Checked, SegInfo};
use omf_drafting::suiting::is_use32;
use omf_placement::{Frame, Placed, Placement};
use omf_records::{Items, Member, Rec};

/// The greatest length of a 16-bit segment, and the distance from a group's frame to the end of its addresses.
const FRAME: u64 = 65_536;

/// A member of a group that ends too far from the group's frame.
#[derive(Clone, Copy)]
pub struct FarMember {
    /// The module, from 0.
    pub module: u32,
    /// The index of the group in it, from 1.
    pub group: u16,
    /// The base of the group's frame.
    pub base: u32,
    /// The index of the member, from 1.
    pub segment: u16,
    /// The address after its last one.
    pub end: u128,
}

/// A module of several, at its placement.
#[derive(Clone, Copy)]
struct Part<'a> {
    /// Its number, from 0.
    number: u32,
    /// The module.
    module: &'a Checked,
    /// Its placement.
    placement: &'a Placement,
}

/// Returns a member at its place, if it ends too far from the frame of its group.
pub(crate) fn wide_if(
    found: FarMember,
    frame: Frame,
    place: Placed,
    segment: SegInfo,
    attribute: u8,
) -> Option<FarMember>
    ensures { result ≡ wide_if found.«module» found.group found.segment frame place segment attribute }
{
    let end = u128::from(place.address) + u128::from(segment.length);
    let is_long = segment.length > 0 && u128::from(frame.base) + u128::from(FRAME) < end;
    if !is_long || is_use32(attribute) {
        return None;
    }
    Some(FarMember {
        base: frame.base,
        end,
        ..found
    })
}

/// Returns a member of a group, if it ends too far from the group's frame.
fn wide(part: &Part<'_>, group: u16, segment: u16) -> Option<FarMember>
    ensures { result ≡ wide part.now.number (recs_of part.now.«module».now.bytes, part.now.placement.now) group segment }
{
    let frame = part.placement.group(usize::from(group))?;
    let place = part.placement.segment(usize::from(segment))?;
    let info = part.module.segment(segment)?;
    let attribute = part.module.attribute(segment)?;
    let found = FarMember {
        module: part.number,
        group,
        base: 0,
        segment,
        end: 0,
    };
    wide_if(found, frame, place, info, attribute)
}

/// Returns the segment of a member.
fn segment_of(member: &Member<'_>) -> u16
    ensures { result ≡ member.now.item }
{
    member.segment.item.0
}

/// Returns the first of some members of a group that ends too far from the group's frame.
fn in_members(part: &Part<'_>, group: u16, members: Items<Member<'_>>) -> Option<FarMember>
    ensures { result ≡ wide_in_members part.now.number (recs_of part.now.«module».now.bytes, part.now.placement.now) group members.entry }
{
    for member in members {
        if let Some(found) = wide(part, group, segment_of(&member.item)) {
            return Some(found);
        }
    }
    None
}

/// Returns the first such member of a record, if that is a GRPDEF.
fn in_record(part: &Part<'_>, group: u16, rec: &Rec<'_>) -> Option<FarMember>
    ensures { result ≡ wide_in part.now.number (recs_of part.now.«module».now.bytes, part.now.placement.now) group (contents_seen rec.now) }
{
    let Rec::Group { members, .. } = rec else {
        return None;
    };
    in_members(part, group, members.iter())
}

/// Returns the first such member of a group.
fn in_group(part: &Part<'_>, group: u16) -> Option<FarMember>
    ensures { result ≡ option_and_then (λ g. wide_in_group part.now.number (recs_of part.now.«module».now.bytes, part.now.placement.now) (group, g)) (entry (groups (recs_of part.now.«module».now.bytes)) group) }
{
    let rec = part.module.group(group)?;
    in_record(part, group, &rec)
}

/// Returns the first such member of the groups of a module.
fn in_module(part: &Part<'_>) -> Option<FarMember>
    ensures { result ≡ wide_in_module part.now.number (recs_of part.now.«module».now.bytes, part.now.placement.now) }
{
    for before in 0..part.module.groups() {
        if let Some(found) = in_group(part, before + 1) {
            return Some(found);
        }
    }
    None
}

/// Returns the first 16-bit member of a group that ends more than 65536 bytes after the base of the group's frame, in the order of the
/// modules, of their groups, and of the members in the GRPDEF. No 16-bit offset reaches its end.
pub fn first_wide(modules: &[Checked], placements: &[Placement]) -> Option<FarMember>
    requires few { length modules.now < 2 ^ 32 }
    requires placed { length placements.now ≡ length modules.now }
    ensures { result ≡ first_wide (placed_modules modules.now placements.now) }
{
    for (j, module) in modules.iter().enumerate() {
        let part = Part {
            number: j as u32,
            module,
            placement: &placements[j],
        };
        if let Some(found) = in_module(&part) {
            return Some(found);
        }
    }
    None
}

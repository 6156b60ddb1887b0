//! The frame of a group by its members (a rule of this profile).

ghost use Rattle.std.specs.Prelude.{◌≡◌, ℕ, option_and_then};
ghost use Rattle.omf_check.specs.Module.{recs_of};
ghost use Rattle.omf_placement.specs.Placement.{real_group, lowest, members_placed};
ghost use Rattle.omf_placement.specs.Inner.Lowest.{lower_than, lowest_in};
ghost use Rattle.omf_records.specs.Inner.Seen.{contents_seen};
ghost use Rattle.omf_check.specs.Tables.{entry};

use crate::frame::{Frame, Placed};
use crate::placement::Placement;
use omf_check::{Checked, entry_of};
use omf_records::{Items, Member, Rec};

/// The lower of two places; the first at a tie.
pub fn lower(found: Option<Placed>, place: Placed) -> Placed
    ensures { result ≡ lower_than found place }
{
    match found {
        Some(lowest) if lowest.address <= place.address => lowest,
        _ => place,
    }
}

/// The place of a group's member.
fn place_of(member: &Member<'_>, segments: &[Placed]) -> Option<Placed>
    ensures { result ≡ entry segments.now member.now.item }
{
    entry_of(segments, usize::from(member.segment.item.0))
}

/// The place of the lowest member, the first at a tie. `None` if there is no member, or one has no place.
fn lowest_of(members: Items<Member<'_>>, segments: &[Placed]) -> Option<Placed>
    ensures { result ≡ option_and_then lowest (members_placed segments.now members.entry) }
{
    let mut lowest = None;
    for member in members {
        match place_of(&member.item, segments) {
            Some(place) => lowest = Some(lower(lowest, place)),
            None => return None,
        }
    }
    lowest
}

/// The place of the lowest member of a GRPDEF; `None` for other records.
pub fn lowest_member(rec: &Rec<'_>, segments: &[Placed]) -> Option<Placed>
    ensures { result ≡ lowest_in segments.now (contents_seen rec.now) }
{
    let Rec::Group { members, .. } = rec else {
        return None;
    };
    lowest_of(members.iter(), segments)
}

/// The frame of the `k`th group by its members, with the segments at these places.
pub(crate) fn member_frame(module: &Checked, segments: &[Placed], k: usize) -> Option<Frame>
    ensures { result ≡ real_group (recs_of «module».now.bytes) segments.now k }
{
    if k > usize::from(module.groups()) {
        return None;
    }
    match module.group(k as u16) {
        Some(rec) => lowest_member(&rec, segments).map(|lowest| lowest.frame),
        None => None,
    }
}

/// The frame of the group with index `i`, from 1, by its members: the frame of the member with the lowest address in the placement; at a
/// tie, of the one first in the GRPDEF. `None` if there is no such group, it has no member, or a member has no entry in the
/// placement.
pub fn real_group(module: &Checked, placement: &Placement, i: u16) -> Option<Frame>
    ensures { result ≡ real_group (recs_of «module».now.bytes) placement.now.segments i }
{
    member_frame(module, placement.segments(), usize::from(i))
}

//! Where the near communals of a program are.

ghost use Rattle.std.specs.Prelude.{◌≡◌, ◌==◌, codes, find, option_and_then, option_map};
ghost use Rattle.std.specs.List.{list_any};
ghost use Rattle.omf_check.specs.Module.{recs_of, typed_modules};
ghost use Rattle.omf_check.specs.Tables.{entry, groups, subrecords};
ghost use Rattle.omf_check.specs.Threads.{target_of};
ghost use Rattle.omf_records.specs.Inner.Seen.{contents_seen, rec_seen};
ghost use Rattle.omf_records.specs.Values.{Group, GroupItem};
ghost use Rattle.omf_layout.specs.Several.Portions.{name_at};
ghost use Rattle.omf_layout.specs.Own.Homes.{com_home, exe_home, first_group, first_home, group_with, has_part, home_at, home_of, is_joined, is_member, is_named, joined_at, segment_in, start_segment, target_segment};

use crate::draft::group_name;
use crate::own::communals::are_grouped;
use crate::own::slots::named;
use crate::several::portion::Combination;
use omf_check::{Checked, SegInfo, TargetMethod, threads_of_end};
use omf_frame::Name;
use omf_records::{Items, Kind, Member, Rec, Reference};

/// Where the near communals of modules are.
#[derive(Drop)]
pub enum Home<'a> {
    /// In the segment `c_common` of class `BSS`, which is in no group.
    Apart,
    /// In the same segment, which is in the group of this name.
    Group(Name<'a>),
    /// In a part of the segment of this name and class.
    Segment {
        /// The name.
        name: Name<'a>,
        /// The class.
        class: Name<'a>,
    },
}

/// The name and the class of a segment that is joined with others of both.
#[derive(Drop)]
pub(crate) struct FullName<'a> {
    /// The name.
    pub name: Name<'a>,
    /// The class.
    pub class: Name<'a>,
}

/// A segment of a module by its index, or one of any module by its name and class.
#[derive(Drop)]
pub(crate) enum SegmentKey<'a> {
    /// The index, from 1.
    Index(u16),
    /// The name and the class.
    Named(FullName<'a>),
}

/// Returns the segment of a module's start address, if the target of that is a segment.
fn target_segment(module: &Checked, start: &Reference) -> Option<u16>
    ensures { result ≡ option_and_then target_segment (target_of (subrecords (recs_of «module».now.bytes)) start.now) }
{
    match threads_of_end(module, start).target(start) {
        Some(
            TargetMethod {
                kind: Kind::Segment,
                index,
            },
        ) => Some(index.0),
        _ => None,
    }
}

/// Returns the segment of the start that the MODEND of a main module names.
fn segment_in(module: &Checked, end: &Rec<'_>) -> Option<u16>
    ensures { result ≡ segment_in (subrecords (recs_of «module».now.bytes)) (contents_seen end.now) }
{
    let Rec::ModEnd {
        type_byte,
        start,
        ..
    } = end
    else {
        return None;
    };
    if *type_byte < 128 {
        return None;
    }
    match start {
        Some(start) => target_segment(module, start),
        None => None,
    }
}

/// Returns the segment of a module's start, if it is a main module and its MODEND names one.
fn start_segment(module: &Checked) -> Option<u16>
    ensures { result ≡ start_segment (recs_of «module».now.bytes) }
{
    let end = module.end();
    segment_in(module, &end)
}

/// Returns whether a segment with this attribute byte is joined with others of its name and class.
fn is_joined(segment: SegInfo, attribute: u8) -> bool
    ensures { result ≡ is_joined segment attribute }
{
    if segment.absolute.is_some() {
        return false;
    }
    match Combination::named_by(attribute) {
        Combination::Joined => true,
        Combination::Common | Combination::Alone => false,
    }
}

/// Returns the name and the class of a segment that is joined with others of both.
fn joined_at<'a>(module: &'a Checked, segment: u16) -> Option<FullName<'a>>
    ensures { result ≡ joined_at (recs_of «module».entry.now.bytes) segment }
{
    let info = module.segment(segment)?;
    let attribute = module.attribute(segment)?;
    if !is_joined(info, attribute) {
        return None;
    }
    Some(FullName {
        name: named(module, info.name),
        class: named(module, info.class),
    })
}

/// Returns whether a segment has this name and class.
fn is_named(name: &FullName<'_>, other: &Option<FullName<'_>>) -> bool
    ensures { result ≡ is_named name.now other.now }
{
    match other {
        Some(other) => name.name.0 == other.name.0 && name.class.0 == other.class.0,
        None => false,
    }
}

/// Returns whether a segment of a module is the one that is looked for.
fn is_member(module: &Checked, key: &SegmentKey<'_>, segment: u16) -> bool
    ensures { result ≡ is_member (recs_of «module».now.bytes) key.now segment }
{
    match key {
        SegmentKey::Index(index) => *index == segment,
        SegmentKey::Named(name) => is_named(name, &joined_at(module, segment)),
    }
}

/// Returns the segment of a member.
fn segment_of(member: &Member<'_>) -> u16
    ensures { result ≡ member.now.item }
{
    member.segment.item.0
}

/// Returns whether one of the members of a group is the segment that is looked for.
fn has_member(module: &Checked, key: &SegmentKey<'_>, members: Items<Member<'_>>) -> bool
    ensures { result ≡ list_any (λ x. is_member (recs_of «module».now.bytes) key.now x.item.item) members.entry }
{
    let mut found = false;
    for member in members {
        found = found || is_member(module, key, segment_of(&member.item));
    }
    found
}

/// Returns whether a group of a module has the segment that is looked for.
fn has_part(module: &Checked, key: &SegmentKey<'_>, group: &Rec<'_>) -> bool
    requires { (g : GroupItem) × (contents_seen group.now ≡ Group g) }
    ensures { (g : GroupItem) → contents_seen group.now ≡ Group g → result ≡ has_part (recs_of «module».now.bytes) key.now g }
{
    let Rec::Group { members, .. } = group else {
        unreachable!()
    };
    has_member(module, key, members.iter())
}

/// Returns the name of the first group of a module that has the segment that is looked for.
fn group_with<'a>(module: &'a Checked, key: &SegmentKey<'_>) -> Option<Name<'a>>
    ensures { result ≡ group_with key.now (recs_of «module».entry.now.bytes) }
{
    for before in 0..module.groups() {
        let Some(group) = module.group(before + 1) else {
            unreachable!()
        };
        if has_part(module, key, &group) {
            return Some(named(module, group_name(&group)));
        }
    }
    None
}

/// Returns the name of the first group of modules that has the segment that is looked for.
fn first_group<'a>(modules: &'a [Checked], key: &SegmentKey<'_>) -> Option<Name<'a>>
    ensures { result ≡ first_group key.now (typed_modules modules.entry.now) }
{
    for module in modules {
        if let Some(name) = group_with(module, key) {
            return Some(name);
        }
    }
    None
}

/// Returns the first group of modules that has the segment of this name and class, or else the segment.
fn home_of<'a>(modules: &'a [Checked], segment: FullName<'a>) -> Home<'a>
    ensures { result ≡ home_of (typed_modules modules.entry.now) segment.entry }
{
    let FullName { name, class } = segment;
    let key = SegmentKey::Named(FullName {
        name: Name(name.0),
        class: Name(class.0),
    });
    match first_group(modules, &key) {
        Some(group) => Home::Group(group),
        None => Home::Segment { name, class },
    }
}

/// Returns the group that has a segment of a module, or else the segment.
fn home_at<'a>(modules: &'a [Checked], module: &'a Checked, segment: u16) -> Home<'a>
    ensures { result ≡ home_at (typed_modules modules.entry.now) (recs_of «module».entry.now.bytes) segment }
{
    if let Some(group) = group_with(module, &SegmentKey::Index(segment)) {
        return Home::Group(group);
    }
    match joined_at(module, segment) {
        Some(segment) => home_of(modules, segment),
        None => Home::Apart,
    }
}

/// Returns the group that has the segment of the first start in modules, or else that segment.
fn first_home<'a>(modules: &'a [Checked]) -> Home<'a>
    ensures { result ≡ first_home (typed_modules modules.entry.now) (typed_modules modules.entry.now) }
{
    for module in modules {
        if let Some(segment) = start_segment(module) {
            return home_at(modules, module, segment);
        }
    }
    Home::Apart
}

/// Returns where the near communals of an .EXE program are: in DGROUP, if a module has a group of that name.
pub fn exe_home<'a>(modules: &'a [Checked]) -> Home<'a>
    ensures { result ≡ exe_home (typed_modules modules.entry.now) }
{
    if are_grouped(modules) {
        Home::Group(Name(b"DGROUP"))
    } else {
        Home::Apart
    }
}

/// Returns where the near communals of a .COM program are: in DGROUP, if a module has a group of that name; otherwise in the group that has the segment
/// of the start; otherwise in that segment. The segment is that of the first main module whose MODEND names a segment as the target of its start, itself or
/// by a thread. It is in a group of its module, or, by its name and class, of any module, if it is joined with others of these. An absolute, a private or a
/// common segment without a group takes no communals.
///
/// The start of a .COM program is in the frame in which all its offsets count, so the offsets of the communals count there.
pub fn com_home<'a>(modules: &'a [Checked]) -> Home<'a>
    ensures { result ≡ com_home (typed_modules modules.entry.now) }
{
    if are_grouped(modules) {
        return Home::Group(Name(b"DGROUP"));
    }
    first_home(modules)
}

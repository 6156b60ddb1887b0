//! Parts of one segment, and groups of one name, that have different frames.

ghost use Rattle.std.specs.Prelude.{◌≡◌, ◌++◌, ◌<◌, ◌^◌, IfOk, OnOk, filter_map, find, length, map, option_and_then, option_map, option_to_list};
ghost use Rattle.omf_check.specs.Module.{recs_of, typed_modules};
ghost use Rattle.omf_check.specs.Tables.{entry, groups};
ghost use Rattle.omf_layout.specs.Several.Gathered.{named};
ghost use Rattle.omf_placement.specs.Derive.{placed_modules};
ghost use Rattle.omf_records.specs.Inner.Seen.{contents_seen};
ghost use Rattle.omf_warnings.specs.Wide.{first_some};
ghost use Rattle.omf_warnings.specs.Frames.{all_groups, differs, first_groups, first_parts, first_split, framed_at, group_framed, group_in, groups_in, split, split_in, split_run};

use crate::spans::name_at;
use omf_check::Checked;
use omf_layout::several::{Combination, Portion, combined_by, gather, runs_of};
use omf_placement::{Frame, Placement};
use omf_records::Rec;
use omf_reloc::Kind;
use std::alloc::{AllocError, Global};

/// A segment or a group of a module, with its frame.
#[derive(Clone, Copy)]
pub struct Framed {
    /// Whether it is a segment or a group.
    pub kind: Kind,
    /// The module, from 0.
    pub module: u32,
    /// Its index, from 1.
    pub index: u16,
    /// Its frame.
    pub frame: Frame,
}

/// Returns whether two frames differ.
fn differs(first: &Framed, other: &Framed) -> bool
    ensures { result ≡ differs first.now other.now }
{
    first.frame.base != other.frame.base || first.frame.selector != other.frame.selector
}

/// Returns the first with another frame than this one.
fn first_other(first: &Framed, others: &[Framed]) -> Option<Framed>
    ensures { result ≡ find (differs first.now) others.now }
{
    for other in others {
        if differs(first, other) {
            return Some(*other);
        }
    }
    None
}

/// Returns the first of several, and the first after it with another frame, if there is one.
fn split(several: &[Framed]) -> Option<(Framed, Framed)>
    ensures { result ≡ split several.now }
{
    match several {
        [] => None,
        [first, others @ ..] => {
            let other = first_other(first, others)?;
            Some((*first, other))
        }
    }
}

/// Returns a segment with its frame, if it has a place.
fn framed_at(placements: &[Placement], portion: &Portion) -> Option<Framed>
    ensures { result ≡ framed_at placements.now portion.now }
{
    let Some(placement) = placements.get(portion.module as usize) else {
        return None;
    };
    let place = placement.segment(usize::from(portion.index))?;
    Some(Framed {
        kind: Kind::Segment,
        module: portion.module,
        index: portion.index,
        frame: place.frame,
    })
}

/// Returns segments with their frames.
fn framed_parts(
    alloc: Global,
    placements: &[Placement],
    portions: &[Portion],
) -> Result<Vec<Framed>, AllocError>
    ensures { IfOk result (λ v. v.items ≡ filter_map (framed_at placements.now) portions.now) }
{
    let mut parts = Vec::new(alloc);
    for portion in portions {
        if let Some(part) = framed_at(placements, portion) {
            parts.push(part)?;
        }
    }
    Ok(parts)
}

/// Returns the first two parts of a segment with different frames, among the segments of one class and name that combine in this way.
fn split_in(
    alloc: Global,
    placements: &[Placement],
    combination: Combination,
    run: &[Portion],
) -> Result<Option<(Framed, Framed)>, AllocError>
    ensures { IfOk result (λ o. o ≡ split_in placements.now combination run.now) }
{
    let portions = combined_by(alloc, combination, run)?;
    let parts = framed_parts(alloc, placements, &portions)?;
    Ok(split(&parts))
}

/// Returns the first such two among the segments of one class and name.
fn split_run(
    alloc: Global,
    placements: &[Placement],
    run: &[Portion],
) -> Result<Option<(Framed, Framed)>, AllocError>
    ensures { IfOk result (λ o. o ≡ split_run placements.now run.now) }
{
    let joined = split_in(alloc, placements, Combination::Joined, run)?;
    let common = split_in(alloc, placements, Combination::Common, run)?;
    Ok(joined.or(common))
}

/// Returns the first such two in runs of segments.
fn in_runs(
    alloc: Global,
    placements: &[Placement],
    runs: &[Vec<Portion>],
) -> Result<Option<(Framed, Framed)>, AllocError>
    ensures { IfOk result (λ o. o ≡ first_some (split_run placements.now) (map (λ r. r.items) runs.now)) }
{
    for run in runs {
        if let Some(found) = split_run(alloc, placements, run)? {
            return Ok(Some(found));
        }
    }
    Ok(None)
}

/// Returns the first two parts of one segment with different frames.
fn first_parts(
    alloc: Global,
    modules: &[Checked],
    placements: &[Placement],
) -> Result<Option<(Framed, Framed)>, AllocError>
    requires { length modules.now < 2 ^ 32 }
    ensures { IfOk result (λ o. o ≡ first_parts (typed_modules modules.now) placements.now) }
{
    let runs = runs_of(alloc, modules)?;
    in_runs(alloc, placements, &runs)
}

/// Returns a group with its name, by its GRPDEF.
fn group_in<'a>(module: &'a Checked, framed: Framed, group: &Rec<'_>) -> Option<(&'a [u8], Framed)>
    ensures { option_map named result ≡ group_in (recs_of «module».entry.now.bytes) framed (contents_seen group.now) }
{
    let Rec::Group { name, .. } = group else {
        return None;
    };
    Some((name_at(module, name.item.0), framed))
}

/// Returns a group of a module with its name, if the module has it and it has a frame.
fn group_framed<'a>(
    number: u32,
    module: &'a Checked,
    placement: &Placement,
    index: u16,
) -> Option<(&'a [u8], Framed)>
    ensures { option_map named result ≡ option_and_then (λ g. group_framed number (recs_of «module».entry.now.bytes, placement.now) (index, g)) (entry (groups (recs_of «module».entry.now.bytes)) index) }
{
    let group = module.group(index)?;
    let frame = placement.group(usize::from(index))?;
    let framed = Framed {
        kind: Kind::Group,
        module: number,
        index,
        frame,
    };
    group_in(module, framed, &group)
}

/// Adds a group, if there is one.
fn add<'a>(
    groups: &mut Vec<(&'a [u8], Framed)>,
    group: Option<(&'a [u8], Framed)>,
) -> Result<(), AllocError>
    ensures { OnOk result (map named groups.new.items ≡ map named groups.old.items ++ option_to_list (option_map named group.entry)) }
{
    if let Some(group) = group {
        groups.push(group)?;
    }
    Ok(())
}

/// Adds the groups of a module.
fn add_groups<'a>(
    groups: &mut Vec<(&'a [u8], Framed)>,
    number: u32,
    module: &'a Checked,
    placement: &Placement,
) -> Result<(), AllocError>
    ensures { OnOk result (map named groups.new.items ≡ map named groups.old.items ++ groups_in number (recs_of «module».entry.now.bytes, placement.now)) }
{
    for before in 0..module.groups() {
        add(groups, group_framed(number, module, placement, before + 1))?;
    }
    Ok(())
}

/// Returns the groups of modules with their names, module by module.
fn groups_of<'a>(
    alloc: Global,
    modules: &'a [Checked],
    placements: &[Placement],
) -> Result<Vec<(&'a [u8], Framed)>, AllocError>
    requires few { length modules.now < 2 ^ 32 }
    requires placed { length placements.now ≡ length modules.now }
    ensures { IfOk result (λ v. map named v.items ≡ all_groups (placed_modules modules.entry.now placements.now)) }
{
    let mut groups = Vec::new(alloc);
    for (j, module) in modules.iter().enumerate() {
        add_groups(&mut groups, j as u32, module, &placements[j])?;
    }
    Ok(groups)
}

/// Returns the first two of groups of one name with different frames.
fn in_names(names: &[Vec<Framed>]) -> Option<(Framed, Framed)>
    ensures { result ≡ first_some split (map (λ r. r.items) names.now) }
{
    for groups in names {
        if let Some(found) = split(groups) {
            return Some(found);
        }
    }
    None
}

/// Returns the first two groups of one name with different frames.
fn first_groups(
    alloc: Global,
    modules: &[Checked],
    placements: &[Placement],
) -> Result<Option<(Framed, Framed)>, AllocError>
    requires few { length modules.now < 2 ^ 32 }
    requires placed { length placements.now ≡ length modules.now }
    ensures { IfOk result (λ o. o ≡ first_groups (placed_modules modules.now placements.now)) }
{
    let names = gather(alloc, groups_of(alloc, modules, placements)?)?;
    Ok(in_names(&names))
}

/// Returns the first two parts of one segment with different frames, or else the first two groups of one name with different frames. Parts
/// are those of one name and class that combine (TIS OMF 1.1, "SEGDEF", C field): those that are public or stack (2, 4, 5 and 7), and those
/// that are common (6); absolute segments are no parts. They are taken in the order of a draft: classes, and names in them, as they first
/// appear. Of one name the first, and the first after it with another frame are returned.
///
/// # Errors
///
/// `AllocError` if memory runs out.
pub fn first_split(
    alloc: Global,
    modules: &[Checked],
    placements: &[Placement],
) -> Result<Option<(Framed, Framed)>, AllocError>
    requires few { length modules.now < 2 ^ 32 }
    requires placed { length placements.now ≡ length modules.now }
    ensures { IfOk result (λ o. o ≡ first_split modules.now placements.now) }
{
    let parts = first_parts(alloc, modules, placements)?;
    let groups = first_groups(alloc, modules, placements)?;
    Ok(parts.or(groups))
}

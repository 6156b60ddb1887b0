//! The segments that the parts of several modules make together.

ghost use Rattle.std.specs.Prelude.{◌≡◌, ◌<◌, ◌^◌, ◌++◌, IfOk, None, OnOk, Some, filter_map, flat_map, fold, length, map, option_to_list};
ghost use Rattle.omf_check.specs.Module.{recs_of, typed_modules};
ghost use Rattle.omf_layout.specs.Several.Portions.{name_at};
ghost use Rattle.omf_listing.specs.Combined.{by_start, combined_in, combined_segments, part, part_at, run_segments, with_part};
ghost use Rattle.omf_listing.specs.Sorted.{AreSorted};

use omf_check::Checked;
use omf_layout::several::{Combination, Portion, combined_by, runs_of};
use omf_placement::{Placed, Placement};
use std::alloc::{AllocError, Global};
use std::cmp::Ordering;
use std::marker::Model;

/// A segment that parts of modules make together, or a part of one, with at least one byte.
#[derive(Drop)]
pub struct CombinedSegment<'a> {
    /// The name of its class; the empty name for none.
    pub class: &'a [u8],
    /// Its name; the empty name for none.
    pub name: &'a [u8],
    /// The address of its first byte.
    pub start: u128,
    /// The address after its last byte.
    pub end: u128,
}

impl<'a> Model for CombinedSegment<'a> {
    ghost use Rattle.omf_listing.specs.Combined.{CombinedSegment as Seen};

    ghost Value = { Seen };

    ghost view = { λ s. record { class = s.class.now; name = s.name.now; start = s.start; end = s.end } };
}

/// The name of an index; the empty name for index 0.
fn name_at(module: &Checked, index: u16) -> &[u8]
    ensures { result.now ≡ name_at (recs_of «module».now.bytes) index }
{
    match module.name(index) {
        Some(name) => name.0,
        None => &[],
    }
}

/// A segment of a module at its place.
fn part<'a>(portion: &Portion, module: &'a Checked, place: Placed) -> CombinedSegment<'a>
    ensures { result ≡ part portion.now (recs_of «module».entry.now.bytes) place }
{
    let start = u128::from(place.address);
    CombinedSegment {
        class: name_at(module, portion.segment.class),
        name: name_at(module, portion.segment.name),
        start,
        end: start + u128::from(portion.segment.length),
    }
}

/// A segment of modules at its place, if it has a byte.
fn part_at<'a>(
    modules: &'a [Checked],
    placements: &[Placement],
    portion: &Portion,
) -> Option<CombinedSegment<'a>>
    ensures { result ≡ part_at (typed_modules modules.entry.now) placements.now portion.now }
{
    if portion.segment.length == 0 {
        return None;
    }
    let Some(module) = modules.get(portion.module as usize) else {
        return None;
    };
    let Some(placement) = placements.get(portion.module as usize) else {
        return None;
    };
    let place = placement.segment(usize::from(portion.index))?;
    Some(part(portion, module, place))
}

/// Appends those of segments that have a byte.
fn add_parts<'a>(
    parts: &mut Vec<CombinedSegment<'a>>,
    modules: &'a [Checked],
    placements: &[Placement],
    portions: &[Portion],
) -> Result<(), AllocError>
    ensures { OnOk result (parts.new.items ≡ parts.old.items ++ filter_map (part_at (typed_modules modules.entry.now) placements.now) portions.now) }
{
    for portion in portions {
        if let Some(part) = part_at(modules, placements, portion) {
            parts.push(part)?;
        }
    }
    Ok(())
}

/// The segment of the parts so far and one more.
fn with_part<'a>(
    segment: Option<CombinedSegment<'a>>,
    part: CombinedSegment<'a>,
) -> CombinedSegment<'a>
    ensures { Some result ≡ with_part segment.entry part.entry }
{
    match segment {
        Some(segment) => CombinedSegment {
            start: segment.start.min(part.start),
            end: segment.end.max(part.end),
            ..segment
        },
        None => part,
    }
}

/// The segment that parts make together; `None` for no part.
fn joined<'a>(parts: Vec<CombinedSegment<'a>>) -> Option<CombinedSegment<'a>>
    ensures { result ≡ fold with_part None parts.entry.items }
{
    let mut segment = None;
    for part in parts {
        segment = Some(with_part(segment, part));
    }
    segment
}

/// Of the segments of one class and name, those that combine in this way, as one segment.
fn combined_in<'a>(
    alloc: Global,
    modules: &'a [Checked],
    placements: &[Placement],
    combination: Combination,
    run: &[Portion],
) -> Result<Option<CombinedSegment<'a>>, AllocError>
    ensures { IfOk result (λ s. s ≡ combined_in (typed_modules modules.entry.now) placements.now combination run.now) }
{
    let portions = combined_by(alloc, combination, run)?;
    let mut parts = Vec::new(alloc);
    add_parts(&mut parts, modules, placements, &portions)?;
    Ok(joined(parts))
}

/// Appends a segment, if there is one.
fn add<'a>(
    segments: &mut Vec<CombinedSegment<'a>>,
    segment: Option<CombinedSegment<'a>>,
) -> Result<(), AllocError>
    ensures { OnOk result (segments.new.items ≡ segments.old.items ++ option_to_list segment.entry) }
{
    if let Some(segment) = segment {
        segments.push(segment)?;
    }
    Ok(())
}

/// Appends what the segments of one class and name make: one segment of the joined ones, one of the common ones, and each that is alone.
fn add_run<'a>(
    alloc: Global,
    segments: &mut Vec<CombinedSegment<'a>>,
    modules: &'a [Checked],
    placements: &[Placement],
    run: &[Portion],
) -> Result<(), AllocError>
    ensures { OnOk result (segments.new.items ≡ segments.old.items ++ run_segments (typed_modules modules.entry.now) placements.now run.now) }
{
    let joined = combined_in(alloc, modules, placements, Combination::Joined, run)?;
    let common = combined_in(alloc, modules, placements, Combination::Common, run)?;
    let alone = combined_by(alloc, Combination::Alone, run)?;
    add(segments, joined)?;
    add(segments, common)?;
    add_parts(segments, modules, placements, &alone)
}

/// What the segments of runs make, run by run.
fn segments_of<'a>(
    alloc: Global,
    modules: &'a [Checked],
    placements: &[Placement],
    runs: &[Vec<Portion>],
) -> Result<Vec<CombinedSegment<'a>>, AllocError>
    ensures { IfOk result (λ v. v.items ≡ flat_map (run_segments (typed_modules modules.entry.now) placements.now) (map (λ r. r.items) runs.now)) }
{
    let mut segments = Vec::new(alloc);
    for run in runs {
        add_run(alloc, &mut segments, modules, placements, run)?;
    }
    Ok(segments)
}

/// What all segments make, in the order of the layout.
fn all_segments<'a>(
    alloc: Global,
    modules: &'a [Checked],
    placements: &[Placement],
) -> Result<Vec<CombinedSegment<'a>>, AllocError>
    requires { length modules.now < 2 ^ 32 }
    ensures { IfOk result (λ v. v.items ≡ combined_segments (typed_modules modules.entry.now) placements.now) }
{
    let runs = runs_of(alloc, modules)?;
    segments_of(alloc, modules, placements, &runs)
}

/// The order of two segments by their addresses.
fn by_start(first: &CombinedSegment<'_>, other: &CombinedSegment<'_>) -> Ordering
    ensures { result ≡ by_start first.now other.now }
{
    first.start.cmp(&other.start)
}

/// The segments that the parts of modules make together, by address: of each class and name one of the public and the stack segments, one of the common
/// ones, and each private or absolute one (TIS OMF 1.1, "SEGDEF", C field). Segments without a byte are left out.
///
/// # Errors
///
/// `AllocError` if memory runs out.
pub fn combined_segments<'a>(
    alloc: Global,
    modules: &'a [Checked],
    placements: &[Placement],
) -> Result<Vec<CombinedSegment<'a>>, AllocError>
    requires { length modules.now < 2 ^ 32 }
    ensures { IfOk result (λ v. AreSorted by_start (combined_segments (typed_modules modules.entry.now) placements.now) v.items) }
{
    let mut segments = all_segments(alloc, modules, placements)?;
    segments.sort_by(|first, other| by_start(first, other))?;
    Ok(segments)
}

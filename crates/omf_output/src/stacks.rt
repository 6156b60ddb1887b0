//! Segments between the parts of a stack.

ghost use Rattle.std.specs.Prelude.{◌≡◌, ◌<◌, ◌^◌, ◌++◌, ◌==◌, IfOk, OnOk, find, length, option_and_then, option_to_list};
ghost use Rattle.omf_check.specs.Module.{recs_of};
ghost use Rattle.omf_check.specs.Tables.{entry, segments};
ghost use Rattle.omf_placement.specs.Derive.{placed_modules};
ghost use Rattle.omf_records.specs.Values.{combination};
ghost use Rattle.omf_output.specs.Stacks.{interval_at, interval_of, intervals, intervals_in, first_between, hull, is_between, joined};

use omf_check::Checked;
use omf_placement::Placement;
use std::alloc::{AllocError, Global};

/// A segment of a module, which is not absolute and has a byte, with its addresses.
#[derive(Clone, Copy, Debug, PartialEq, Eq)]
pub struct Interval {
    /// The module, from 0.
    pub module: u32,
    /// Its index, from 1.
    pub segment: u16,
    /// Its first address.
    pub first: u128,
    /// The address after its last one.
    pub end: u128,
    /// Whether it is a part of the stack (TIS OMF 1.1, "SEGDEF", C field: combination 5).
    pub is_stack: bool,
}

/// Returns whether an attribute byte has the combination of the stack.
fn is_stack(attribute: u8) -> bool
    ensures { result ≡ (combination attribute == 5) }
{
    attribute / 4 % 8 == 5
}

/// Returns a segment with its addresses, if it has a byte.
fn interval_of(
    module: u32,
    segment: u16,
    address: u32,
    size: u64,
    attribute: u8,
) -> Option<Interval>
    ensures { result ≡ interval_of «module» segment address size attribute }
{
    if size == 0 {
        return None;
    }
    let first = u128::from(address);
    Some(Interval {
        module,
        segment,
        first,
        end: first + u128::from(size),
        is_stack: is_stack(attribute),
    })
}

/// Returns a segment of a module with its addresses, if it has a byte and is not absolute.
fn interval_at(
    number: u32,
    module: &Checked,
    placement: &Placement,
    segment: u16,
) -> Option<Interval>
    ensures { result ≡ option_and_then (λ s. interval_at number (recs_of «module».now.bytes, placement.now) (segment, s)) (entry (segments (recs_of «module».now.bytes)) segment) }
{
    let info = module.segment(segment)?;
    if info.absolute.is_some() {
        return None;
    }
    let place = placement.segment(usize::from(segment))?;
    let attribute = module.attribute(segment)?;
    interval_of(number, segment, place.address, info.length, attribute)
}

/// Appends a segment, if there is one.
fn add(intervals: &mut Vec<Interval>, part: Option<Interval>) -> Result<(), AllocError>
    ensures { OnOk result (intervals.new.items ≡ intervals.old.items ++ option_to_list part) }
{
    if let Some(part) = part {
        intervals.push(part)?;
    }
    Ok(())
}

/// Appends the segments of a module.
fn add_module(
    intervals: &mut Vec<Interval>,
    number: u32,
    module: &Checked,
    placement: &Placement,
) -> Result<(), AllocError>
    ensures { OnOk result (intervals.new.items ≡ intervals.old.items ++ intervals_in number (recs_of «module».now.bytes, placement.now)) }
{
    for before in 0..module.segments() {
        add(
            intervals,
            interval_at(number, module, placement, before + 1),
        )?;
    }
    Ok(())
}

/// Returns the segments of modules.
fn intervals_of(
    alloc: Global,
    modules: &[Checked],
    placements: &[Placement],
) -> Result<Vec<Interval>, AllocError>
    requires few { length modules.now < 2 ^ 32 }
    requires placed { length placements.now ≡ length modules.now }
    ensures { IfOk result (λ v. v.items ≡ intervals (placed_modules modules.now placements.now)) }
{
    let mut intervals = Vec::new(alloc);
    for (j, module) in modules.iter().enumerate() {
        add_module(&mut intervals, j as u32, module, &placements[j])?;
    }
    Ok(intervals)
}

/// Returns the addresses of the stack with one more of its parts.
fn joined(hull: Option<(u128, u128)>, part: Interval) -> (u128, u128)
    ensures { Some result ≡ joined hull part }
{
    match hull {
        Some((first, end)) => (first.min(part.first), end.max(part.end)),
        None => (part.first, part.end),
    }
}

/// Returns the least address of the parts of the stack, and the greatest address after them; `None` if there are none.
fn hull_of(intervals: &[Interval]) -> Option<(u128, u128)>
    ensures { result ≡ hull intervals.now }
{
    let mut hull = None;
    for part in intervals {
        if part.is_stack {
            hull = Some(joined(hull, *part));
        }
    }
    hull
}

/// Returns whether a segment is no part of the stack, and has an address between these.
fn is_between(hull: (u128, u128), part: &Interval) -> bool
    ensures { result ≡ is_between hull part.now }
{
    !part.is_stack && part.first < hull.1 && hull.0 < part.end
}

/// Returns the first segment between these addresses that is no part of the stack.
fn find_between(hull: (u128, u128), intervals: &[Interval]) -> Option<Interval>
    ensures { result ≡ find (is_between hull) intervals.now }
{
    for part in intervals {
        if is_between(hull, part) {
            return Some(*part);
        }
    }
    None
}

/// Returns the first segment, in the order of the modules and of their segments, that has an address between the first part of the stack and the
/// last, and is no part of it. A program that uses its stack writes over it.
///
/// # Errors
///
/// `AllocError` if memory runs out.
pub fn first_between(
    alloc: Global,
    modules: &[Checked],
    placements: &[Placement],
) -> Result<Option<Interval>, AllocError>
    requires few { length modules.now < 2 ^ 32 }
    requires placed { length placements.now ≡ length modules.now }
    ensures { IfOk result (λ o. o ≡ first_between (placed_modules modules.now placements.now)) }
{
    let intervals = intervals_of(alloc, modules, placements)?;
    match hull_of(&intervals) {
        Some(hull) => Ok(find_between(hull, &intervals)),
        None => Ok(None),
    }
}

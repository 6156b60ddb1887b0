//! Parts of one segment that are 16-bit and 32-bit.

ghost use Rattle.std.specs.Prelude.{◌≡◌, ◌<◌, ◌^◌, IfOk, filter_map, find, length, map};
ghost use Rattle.omf_check.specs.Module.{typed_modules};
ghost use Rattle.omf_records.specs.Values.{is_use32};
ghost use Rattle.omf_combining.specs.Mixed.{differs, first_mixed, mixed, mixed_in, mixed_run, part_at};

use omf_check::Checked;
use omf_layout::several::{Combination, Portion, combined_by, runs_of};
use std::alloc::{AllocError, Global};

/// A segment of a module with at least one byte, and the kind of its code.
#[derive(Clone, Copy, Debug, PartialEq, Eq)]
pub struct CodePart {
    /// The module, from 0.
    pub module: u32,
    /// The index of the segment in its module, from 1.
    pub segment: u16,
    /// Whether it is 32-bit (TIS OMF 1.1, "SEGDEF", P bit).
    pub is_use32: bool,
}

/// Returns whether an attribute byte is that of a 32-bit segment.
fn is_use32(attribute: u8) -> bool
    ensures { result ≡ is_use32 attribute }
{
    attribute % 2 == 1
}

/// Returns whether one of two is 16-bit and the other 32-bit.
fn differs(first: &CodePart, other: &CodePart) -> bool
    ensures { result ≡ differs first.now other.now }
{
    if first.is_use32 {
        !other.is_use32
    } else {
        other.is_use32
    }
}

/// Returns the first that differs from this one.
fn first_other(first: &CodePart, others: &[CodePart]) -> Option<CodePart>
    ensures { result ≡ find (differs first.now) others.now }
{
    for other in others {
        if differs(first, other) {
            return Some(*other);
        }
    }
    None
}

/// Returns the first of several, and the first after it that differs from it, if there is one.
fn mixed(several: &[CodePart]) -> Option<(CodePart, CodePart)>
    ensures { result ≡ mixed several.now }
{
    match several {
        [] => None,
        [first, others @ ..] => {
            let other = first_other(first, others)?;
            Some((*first, other))
        }
    }
}

/// Returns a segment of modules, if it has a byte.
fn part_at(modules: &[Checked], portion: &Portion) -> Option<CodePart>
    ensures { result ≡ part_at (typed_modules modules.now) portion.now }
{
    if portion.segment.length == 0 {
        return None;
    }
    let Some(module) = modules.get(portion.module as usize) else {
        return None;
    };
    let attribute = module.attribute(portion.index)?;
    Some(CodePart {
        module: portion.module,
        segment: portion.index,
        is_use32: is_use32(attribute),
    })
}

/// Returns those of segments that have a byte.
fn parts_of(
    alloc: Global,
    modules: &[Checked],
    portions: &[Portion],
) -> Result<Vec<CodePart>, AllocError>
    ensures { IfOk result (λ v. v.items ≡ filter_map (part_at (typed_modules modules.now)) portions.now) }
{
    let mut parts = Vec::new(alloc);
    for portion in portions {
        if let Some(part) = part_at(modules, portion) {
            parts.push(part)?;
        }
    }
    Ok(parts)
}

/// Returns the first two parts of a segment that differ, among the segments of one class and name that combine in this way.
fn mixed_in(
    alloc: Global,
    modules: &[Checked],
    combination: Combination,
    run: &[Portion],
) -> Result<Option<(CodePart, CodePart)>, AllocError>
    ensures { IfOk result (λ o. o ≡ mixed_in (typed_modules modules.now) combination run.now) }
{
    let portions = combined_by(alloc, combination, run)?;
    let parts = parts_of(alloc, modules, &portions)?;
    Ok(mixed(&parts))
}

/// Returns the first such two among the segments of one class and name.
fn mixed_run(
    alloc: Global,
    modules: &[Checked],
    run: &[Portion],
) -> Result<Option<(CodePart, CodePart)>, AllocError>
    ensures { IfOk result (λ o. o ≡ mixed_run (typed_modules modules.now) run.now) }
{
    let joined = mixed_in(alloc, modules, Combination::Joined, run)?;
    let common = mixed_in(alloc, modules, Combination::Common, run)?;
    Ok(joined.or(common))
}

/// Returns the first such two of each run of segments that has two.
fn all_mixed(
    alloc: Global,
    modules: &[Checked],
    runs: &[Vec<Portion>],
) -> Result<Vec<(CodePart, CodePart)>, AllocError>
    ensures { IfOk result (λ v. v.items ≡ filter_map (mixed_run (typed_modules modules.now)) (map (λ r. r.items) runs.now)) }
{
    let mut all = Vec::new(alloc);
    for run in runs {
        if let Some(found) = mixed_run(alloc, modules, run)? {
            all.push(found)?;
        }
    }
    Ok(all)
}

/// Returns the first two parts of one segment of which one is 16-bit and the other 32-bit. Parts are those of one name and class that combine (TIS
/// OMF 1.1, "SEGDEF", C field): those that are public or stack (2, 4, 5 and 7), and those that are common (6). Absolute segments are no parts, nor
/// are those without a byte. Of one name the first, and the first after it that differs from it are returned.
///
/// # Errors
///
/// `AllocError` if memory runs out.
pub fn first_mixed(
    alloc: Global,
    modules: &[Checked],
) -> Result<Option<(CodePart, CodePart)>, AllocError>
    requires { length modules.now < 2 ^ 32 }
    ensures { IfOk result (λ o. o ≡ first_mixed (typed_modules modules.now)) }
{
    let runs = runs_of(alloc, modules)?;
    let all = all_mixed(alloc, modules, &runs)?;
    match all.as_slice() {
        [] => Ok(None),
        [first, ..] => Ok(Some(*first)),
    }
}

//! Which windows of a program are asked for.

ghost use Rattle.std.specs.Prelude.{All};

use crate::patterning::marked_pattern;
use crate::shapes::rarest_of;
use crate::windows::{BUCKETS, Counts, bucket_of};
use omf_check::Checked;
use std::alloc::{AllocError, Global};

/// How many times as long as the program the modules are where it takes less time to sort all its windows.
const MANY: usize = 4;

/// The size of modules, in bytes.
fn size_of(modules: &[Checked]) -> usize {
    let mut size: usize = 0;
    for module in modules {
        size = size.saturating_add(module.bytes().len());
    }
    size
}

/// Marks the buckets of the four bytes by which the segments of a module are searched for.
fn mark_module(
    alloc: Global,
    marks: &mut Vec<bool>,
    counts: &Counts,
    module: &Checked,
) -> Result<(), AllocError> {
    let pattern = marked_pattern(alloc, module)?;
    for segment in 1..=module.segments() {
        let intervals = pattern.intervals(alloc, segment)?;
        if let Some(rare) = rarest_of(counts, &intervals) {
            if let Some(mark) = marks.get_mut(bucket_of(rare.key)) {
                *mark = true;
            }
        }
    }
    Ok(())
}

/// The buckets of the four bytes by which modules are searched for in a program of this length; empty if all windows are to be kept, since
/// the modules are many.
pub(crate) fn wanted(
    alloc: Global,
    modules: &[Checked],
    length: usize,
    counts: &Counts,
) -> Result<Vec<bool>, AllocError> {
    let mut marks = Vec::new(alloc);
    if size_of(modules) / MANY >= length {
        return Ok(marks);
    }
    marks.resize(BUCKETS, false)?;
    for module in modules {
        mark_module(alloc, &mut marks, counts, module)?;
    }
    Ok(marks)
}

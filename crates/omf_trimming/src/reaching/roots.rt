//! The segments of a program that stay, whatever refers to them.

ghost use Rattle.std.specs.Prelude.{◌≡◌, ◌+◌, ◌++◌, ◌∷◌, [], IfOk, OnOk};
ghost use Rattle.omf_check.specs.Module.{recs_of, typed_modules};
ghost use Rattle.omf_check.specs.Tables.{names};
ghost use Rattle.omf_trimming.specs.Reaching.{roots, roots_of};
ghost use Rattle.omf_trimming.specs.Inner.Reaching.{root_if};

use crate::optional::{LeftOut, always_stays};
use crate::reaching::segment::ProgramSegment;
use omf_check::{Checked, SegInfo};
use std::alloc::{AllocError, Global};

/// Appends a segment of a module, if it stays.
fn push_root(
    found: &mut Vec<ProgramSegment>,
    left_out: LeftOut,
    checked: &Checked,
    at: ProgramSegment,
    segment: SegInfo,
) -> Result<(), AllocError>
    ensures { OnOk result (found.new.items ≡ found.old.items ++ root_if left_out (names (recs_of checked.now.bytes)) at.0 (at.1, segment)) }
{
    if always_stays(left_out, checked, segment) {
        found.push(at)?;
    }
    Ok(())
}

/// Appends the segments of a module that stay, and before them its start.
fn push_roots(
    found: &mut Vec<ProgramSegment>,
    left_out: LeftOut,
    checked: &Checked,
    module: usize,
) -> Result<(), AllocError>
    ensures { OnOk result (found.new.items ≡ found.old.items ++ roots_of left_out «module» (recs_of checked.now.bytes)) }
{
    found.push(ProgramSegment { module, segment: 0 })?;
    for before in 0..checked.segments() {
        let segment = before + 1;
        let Some(info) = checked.segment(segment) else {
            unreachable!()
        };
        push_root(
            found,
            left_out,
            checked,
            ProgramSegment { module, segment },
            info,
        )?;
    }
    Ok(())
}

/// The segments of modules that stay, and before those of each module its start.
pub(crate) fn roots(
    alloc: Global,
    left_out: LeftOut,
    modules: &[Checked],
) -> Result<Vec<ProgramSegment>, AllocError>
    ensures { IfOk result (λ v. v.items ≡ roots left_out (typed_modules modules.now)) }
{
    let mut found = Vec::new(alloc);
    for (number, module) in modules.iter().enumerate() {
        push_roots(&mut found, left_out, module, number)?;
    }
    Ok(found)
}

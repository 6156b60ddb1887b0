//! Modules without the segments that nothing reaches.

ghost use Rattle.std.specs.Prelude.{◌≡◌, IfOk, List, map};
ghost use Rattle.omf_check.specs.Module.{typed_modules};
ghost use Rattle.omf_trimming.specs.Reaching.{AreReached, AreWithoutUnreached, Node};
ghost use Rattle.omf_trimming.specs.Inner.Reaching.{AreUnreached, unmarked_from};

mod program;
mod roots;
mod segment;
mod uses;
mod walk;

use crate::optional::LeftOut;
use crate::reaching::program::Program;
use crate::reaching::roots::roots;
use crate::reaching::walk::{SegmentMarks, Walk};
use crate::without::{LeftPublics, without};
use omf_check::Checked;
use std::alloc::{AllocError, Global};

/// The segments that are not marked, one list for each module.
fn all_unmarked(alloc: Global, marks: &[SegmentMarks]) -> Result<Vec<Vec<u16>>, AllocError>
    ensures { IfOk result (λ v. map (λ gone. gone.items) v.items ≡ map (unmarked_from 0) marks.now) }
{
    let mut all = Vec::new(alloc);
    for own in marks {
        all.push(own.unmarked(alloc)?)?;
    }
    Ok(all)
}

/// The segments of each module that nothing reaches, one list for each.
fn all_unreached(
    alloc: Global,
    left_out: LeftOut,
    modules: &[Checked],
) -> Result<Vec<Vec<u16>>, AllocError>
    ensures { IfOk result (λ v. AreUnreached left_out (typed_modules modules.now) (map (λ gone. gone.items) v.items)) }
{
    let program = Program::of(alloc, modules)?;
    let first = roots(alloc, left_out, modules)?;
    let walk = Walk::from(alloc, modules, &program, &first)?;
    all_unmarked(alloc, &walk.marks)
}

/// The modules of a program without the segments of code, of debug information, or of both, that nothing reaches. Such a segment has a length of 0, its data and fixups are left
/// out, and so are its publics; or they are at its start, so that the externals that name them, which nothing uses, are defined.
///
/// All other segments stay, and absolute ones, with the segments that the starts of modules refer to (the frame and the target of MODEND), and with what the fixups in the data
/// of a segment that stays refer to: a segment, each member of a group, the segment of the only public of an external, or if an external has no public that of its default's
/// (TIS OMF 1.1, "FIXUPP", "MODEND", "COMENT").
///
/// # Errors
///
/// `AllocError` if memory runs out.
pub fn without_unreached(
    alloc: Global,
    left_out: LeftOut,
    publics: LeftPublics,
    modules: Vec<Checked>,
) -> Result<Vec<Checked>, AllocError>
    ensures { IfOk result (λ v. AreWithoutUnreached publics left_out modules.items v.items) }
{
    let unreached = all_unreached(alloc, left_out, &modules)?;
    let mut left = unreached.into_iter();
    let mut all = Vec::new(alloc);
    for module in modules {
        let Some(gone) = left.next() else {
            return Err(AllocError);
        };
        all.push(without(alloc, module, publics, &gone)?)?;
    }
    Ok(all)
}

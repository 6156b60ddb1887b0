//! The image of a module at a placement that may not reach.

ghost use Rattle.std.specs.Prelude.{◌≡◌, ◌↔◌, ℕ, [], IfOk, IfErr, Option, slice_get};
ghost use Rattle.omf_image.specs.Inner.Joined.{runs_of};
ghost use Rattle.omf_image.specs.Limits.{profile_limits};
ghost use Rattle.omf_image.specs.Overlay.{AreLaidOver, IsRunAt, byte_at};
ghost use Rattle.omf_image.specs.declared.run.Run.{Run};
ghost use Rattle.omf_check.specs.Module.{recs_of};
ghost use Rattle.omf_reloc.specs.Image.{laid, image};
ghost use Rattle.omf_reloc.specs.Plain.{pieces};
ghost use Rattle.omf_reloc.specs.Reach.{Reaches};
ghost use Rattle.omf_reloc.specs.Reached.{IsRelocateFault};

use crate::fault::RelocateFault;
use crate::reaching::{misfit, reach};
use crate::relocating::walked;
use omf_check::Checked;
use omf_image::Image;
use omf_placement::Placement;
use std::alloc::Global;

/// The fault to report if memory ran out: the fault of reach, if there is one, or else `Memory`.
fn without_memory(module: &Checked, placement: &Placement) -> RelocateFault
    ensures { IsRelocateFault placement.now (recs_of «module».now.bytes) result }
{
    match reach(module, placement) {
        Ok(()) => RelocateFault::Memory,
        Err(fault) => RelocateFault::Reach(fault),
    }
}

/// Does `reach` and `relocate` in one walk over the module's pieces: each reference is checked when it is applied.
///
/// # Errors
///
/// `Reach` if the placement does not reach, however little memory there is; or else `Memory` if memory runs out.
pub fn reach_and_relocate(
    alloc: Global,
    module: &Checked,
    placement: &Placement,
) -> Result<Image, RelocateFault>
    ensures reaches { IfOk result (λ i. Reaches placement.now (recs_of «module».now.bytes)) }
    ensures laid { IfOk result (λ i. AreLaidOver [] (laid profile_limits placement.now (pieces (recs_of «module».now.bytes))) i) }
    ensures bytes { IfOk result (λ i. (segment x : ℕ) → byte_at i segment x ≡ image profile_limits placement.now (recs_of «module».now.bytes) segment x) }
    ensures runs { IfOk result (λ i. (segment k : ℕ) (run : Option Run) → IsRunAt (byte_at i segment) k run
        ↔ (run ≡ slice_get (runs_of (laid profile_limits placement.now (pieces (recs_of «module».now.bytes))) segment) k)) }
    ensures err { IfErr result (IsRelocateFault placement.now (recs_of «module».now.bytes)) }
{
    if let Some(fault) = misfit(module, placement) {
        return Err(RelocateFault::Reach(fault));
    }
    match walked(alloc, module, placement) {
        Ok(image) => Ok(image),
        Err(RelocateFault::Reach(fault)) => Err(RelocateFault::Reach(fault)),
        Err(RelocateFault::Memory) => Err(without_memory(module, placement)),
    }
}

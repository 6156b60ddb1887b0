//! The start address of a module at a placement.

ghost use Rattle.std.specs.Prelude.{◌≡◌};
ghost use Rattle.omf_check.specs.Module.{recs_of};
ghost use Rattle.omf_reloc.specs.Image.{start};
ghost use Rattle.omf_reloc.specs.Reach.{Reaches};

use crate::offset::start_outcome;
use crate::plain::plain_reference;
use omf_check::{Checked, threads_of_end};
use omf_placement::Placement;
use omf_records::Rec;

/// The start address of a module at a placement (TIS OMF 1.1, "MODEND"): the selector of the frame that MODEND names, and the offset in
/// that frame. None if MODEND names no start. The records before MODEND are read only if the start refers to a thread.
pub fn start(module: &Checked, placement: &Placement) -> Option<(u16, u32)>
    requires { Reaches placement.now (recs_of «module».now.bytes) }
    ensures { result ≡ start placement.now (recs_of «module».now.bytes) }
{
    let end = module.end();
    let Rec::ModEnd { width, start, .. } = &end else {
        return None;
    };
    match start {
        Some(reference) => {
            let threads = threads_of_end(module, reference);
            let plain = plain_reference(&threads, reference);
            let start = start_outcome(placement, *width, &plain).ok()?;
            Some((start.selector, start.offset))
        }
        None => None,
    }
}

//! Output of canonical bytes.

ghost use Rattle.std.specs.Prelude.{◌≡◌, ◌+◌, ◌*◌, ◌≤◌, length, IfOk, IfErr};
ghost use Rattle.omf_frame.specs.Device.{Writes};
ghost use Rattle.omf_check.specs.Module.{recs_of};
ghost use Rattle.omf_canon.specs.Canonical.{canonical};
ghost use Rattle.omf_canon.specs.Output.{IsCanonFault};

use crate::fault::CanonFault;
use crate::writing::canon;
use omf_check::Checked;
use omf_frame::{Sink, push_all};
use std::alloc::Global;

/// Writes the canonical bytes of a module, and does not flush. All of them are made before the first is written.
///
/// # Errors
///
/// `Memory` if memory runs out: nothing is written. `Write` if the writer fails, takes none of some bytes, or is interrupted 1,000 times in
/// a row: the bytes that it took are a beginning of the canonical bytes.
pub fn canon_to<S: Sink>(alloc: Global, module: &Checked, writer: &mut S) -> Result<(), CanonFault>
    ensures bytes { Writes (S.seen writer.old).bytes (S.seen writer.new).bytes result (canonical (recs_of «module».now.bytes)) }
    ensures cause { IfErr result (IsCanonFault (S.seen writer.old) (S.seen writer.new)) }
    ensures grows { (S.seen writer.old).failures ≤ (S.seen writer.new).failures }
    // For each byte at most a thousand failures are passed over.
    ensures bounded { (S.seen writer.new).failures ≤ (S.seen writer.old).failures + 1000 * length (canonical (recs_of «module».now.bytes)) }
    ensures unbroken { IfOk result (λ done. (S.seen writer.new).breaks ≡ (S.seen writer.old).breaks) }
{
    let Ok(bytes) = canon(alloc, module) else {
        return Err(CanonFault::Memory);
    };
    match push_all(writer, &bytes) {
        Ok(()) => Ok(()),
        Err(_error) => Err(CanonFault::Write),
    }
}

//! Reading the placement text.

ghost use Rattle.std.specs.Prelude.{◌+◌, ◌*◌, ◌≤◌, length, IfOk, IfErr};
ghost use Rattle.omf_cmd.specs.Relocating.{IsWholeText, IsTextFault};
ghost use Rattle.omf_cmd.specs.Runs.{IsReadCause};

use crate::fault::RunFault;
use omf_frame::{Source, pull_piece};
use std::alloc::Global;

/// The most bytes read at once.
const PIECE: usize = 65_536;

/// The most bytes of a placement text.
pub(crate) const TEXT_LIMIT: usize = 4_194_304;

/// Reads the rest of the input, which is the placement text. Reads at most one byte beyond its limit of 4,194,304 bytes.
///
/// # Errors
///
/// `TooLong` once 4,194,305 bytes are read. `Read` if the reader failed, or was interrupted 1,000 times in a row. `Memory` if memory ran out.
pub fn read_text<S: Source>(alloc: Global, source: &mut S) -> Result<Vec<u8>, RunFault>
    ensures text { IfOk result (λ text. IsWholeText (S.seen source.old).bytes (S.seen source.new).bytes text.items) }
    ensures fault { IfErr result (IsTextFault (S.seen source.old).bytes (S.seen source.new).bytes) }
    ensures cause { IsReadCause (S.seen source.old) (S.seen source.new) result }
    // Before each byte, and before the end, at most a thousand failures are passed over. At most 4,194,305 bytes are read.
    ensures bounded { IfOk result (λ text. (S.seen source.new).failures ≤ (S.seen source.old).failures + 1000 * (length text.items + 1)) }
    ensures patient { (S.seen source.new).failures ≤ (S.seen source.old).failures + 1000 * 4194305 }
{
    let mut buffer = [0; PIECE];
    let mut text = Vec::new(alloc);
    loop {
        let lacking = TEXT_LIMIT - text.len();
        let room = &mut buffer[..PIECE.min(lacking + 1)];
        let Ok(count) = pull_piece(source, room) else {
            return Err(RunFault::Read);
        };
        if count == 0 {
            return Ok(text);
        }
        if count > lacking {
            return Err(RunFault::TooLong);
        }
        text.extend_from_slice(&room[..count])?;
    }
}

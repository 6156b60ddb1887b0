//! Writing texts.

ghost use Rattle.std.specs.Prelude.{◌≡◌, ◌+◌, ◌*◌, ◌≤◌, length, IfErr, Ok};
ghost use Rattle.omf_cmd.specs.Runs.{IsPrintCause, IsWritten, Prints, PrintsOr};
ghost use Rattle.omf_cmd.specs.Inner.Printing.{Passes};
ghost use Rattle.omf_cmd.specs.declared.fault.RunFault.TheVariants.{Write};

use crate::fault::RunFault;
use omf_frame::{Sink, push_all};

/// The number of bytes collected before they are written.
const PIECE: usize = 65_536;

/// Writes all of the bytes.
///
/// # Errors
///
/// `Write` if the writer failed, or took nothing. A front of the bytes may then be written.
pub fn write_all<K: Sink>(writer: &mut K, bytes: &[u8]) -> Result<(), RunFault>
    ensures prints { Prints (K.seen writer.old).bytes (K.seen writer.new).bytes result bytes.now }
    ensures fault { IfErr result (λ e. e ≡ Write) }
    ensures cause { IsPrintCause (K.seen writer.old) (K.seen writer.new) result }
    // For each byte at most a thousand failures are passed over.
    ensures bounded { (K.seen writer.new).failures ≤ (K.seen writer.old).failures + 1000 * length bytes.now }
{
    match push_all(writer, bytes) {
        Ok(()) => Ok(()),
        Err(_) => Err(RunFault::Write),
    }
}

/// Writes all of the bytes.
///
/// # Errors
///
/// `failed` if the writer failed, or took nothing. A front of the bytes may then be written.
pub fn print_all<F: Drop, K: Sink>(writer: &mut K, bytes: &[u8], failed: F) -> Result<(), F>
    ensures { PrintsOr failed (K.seen writer.old) (K.seen writer.new) (Ok bytes.now) result }
{
    match push_all(writer, bytes) {
        Ok(()) => Ok(()),
        Err(_) => Err(failed),
    }
}

/// Writes all of the bytes. A failing writer is ignored.
pub fn tell<K: Sink>(writer: &mut K, bytes: &[u8])
    ensures prints { IsWritten (K.seen writer.old) (K.seen writer.new) bytes.now }
    ensures bounded { (K.seen writer.new).failures ≤ (K.seen writer.old).failures + 1000 * length bytes.now }
{
    let _ = push_all(writer, bytes);
}

/// Writes the collected text and clears it, if it has 64 KB or more.
pub fn write_piece<K: Sink>(writer: &mut K, kept: &mut Vec<u8>) -> Result<(), RunFault>
    ensures passes { Passes (K.seen writer.old).bytes (K.seen writer.new).bytes result (kept.old.items) (kept.new.items) }
    ensures cause { IsPrintCause (K.seen writer.old) (K.seen writer.new) result }
    ensures bounded { (K.seen writer.new).failures ≤ (K.seen writer.old).failures + 1000 * length kept.old.items }
{
    if kept.len() >= PIECE {
        write_all(writer, kept.as_slice())?;
        kept.clear();
    }
    Ok(())
}

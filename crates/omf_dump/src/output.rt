//! Text that is written in pieces.

ghost use Rattle.omf_frame.specs.Device.{Writes};
ghost use Rattle.omf_dump.specs.Inner.Walking.{Passes};

use crate::fault::DumpFault;
use omf_frame::{Sink, push_all};

/// The number of bytes that are collected before they are written.
const PIECE: usize = 65_536;

/// Writes all of the bytes.
///
/// # Errors
///
/// `Write` if the writer failed, or took nothing. What is written is then a beginning of the bytes.
pub(crate) fn send<K: Sink>(writer: &mut K, bytes: &[u8]) -> Result<(), DumpFault>
    ensures { Writes (K.seen writer.old).bytes (K.seen writer.new).bytes result bytes.now }
{
    match push_all(writer, bytes) {
        Ok(()) => Ok(()),
        Err(_) => Err(DumpFault::Write),
    }
}

/// Writes the collected text and clears it, if it has 64 KB or more.
pub(crate) fn send_piece<K: Sink>(writer: &mut K, text: &mut Vec<u8>) -> Result<(), DumpFault>
    ensures { Passes (K.seen writer.old).bytes (K.seen writer.new).bytes result text.old.items text.new.items }
{
    if text.len() >= PIECE {
        send(writer, text.as_slice())?;
        text.clear();
    }
    Ok(())
}

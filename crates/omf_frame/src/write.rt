//! Writing records to a sink.

ghost use Rattle.std.specs.Prelude.{◌≡◌, ◌+◌, ◌*◌, ◌≤◌, length, OnErr};
ghost use Rattle.omf_frame.specs.Framing.{raw_bytes, raw_of};
ghost use Rattle.omf_frame.specs.Device.{head, Writes, HasFailed, TriesAgain};

use crate::device::{Sink, TRIES, is_interrupted};
use crate::sums::checksum;
use std::io;
use std::io::{Error, ErrorKind};

/// Writes all of the bytes to a sink.
///
/// Errors: the sink's own, or `WriteZero` if it took no byte. `Interrupted` is retried, and is returned after a thousand in a row.
/// After an error the sink holds a prefix of the bytes.
pub fn push_all<S: Sink>(writer: &mut S, bytes: &[u8]) -> io::Result<()>
    ensures bytes { Writes (S.seen writer.old).bytes (S.seen writer.new).bytes result bytes.now }
    ensures cause { OnErr result (HasFailed (S.seen writer.old).failures (S.seen writer.new).failures) }
    ensures grows { (S.seen writer.old).failures ≤ (S.seen writer.new).failures }
    ensures bounded { (S.seen writer.new).failures ≤ (S.seen writer.old).failures + 1000 * length bytes.now }
    ensures tried { TriesAgain (S.seen writer.old) (S.seen writer.new) result }
{
    let mut rest = bytes;
    let mut interrupted = 0;
    while !rest.is_empty() {
        match writer.push(rest) {
            Ok(0) => return Err(Error::from(ErrorKind::WriteZero)),
            Ok(n) => {
                rest = rest.split_at(n).1;
                interrupted = 0;
            }
            Err(error) => {
                interrupted += 1;
                if !is_interrupted(&error) || interrupted == TRIES {
                    return Err(error);
                }
            }
        }
    }
    Ok(())
}

/// The first three bytes of a record: its type and its length.
fn head_of(kind: u8, body: &[u8]) -> [u8; 3]
    requires { length body.now ≤ 65534 }
    ensures { result ≡ head kind body.now }
{
    let [low, high] = ((body.len() + 1) as u16).to_le_bytes();
    [kind, low, high]
}

/// Writes a record: the type byte, the length, at most 65,534 bytes of contents, and the checksum byte.
///
/// Errors are those of `push_all`. After an error the sink holds a prefix of the record.
pub fn write_record<S: Sink>(writer: &mut S, kind: u8, body: &[u8]) -> io::Result<()>
    requires { length body.now ≤ 65534 }
    ensures bytes { Writes (S.seen writer.old).bytes (S.seen writer.new).bytes result (raw_bytes (raw_of kind body.now)) }
    ensures cause { OnErr result (HasFailed (S.seen writer.old).failures (S.seen writer.new).failures) }
    ensures grows { (S.seen writer.old).failures ≤ (S.seen writer.new).failures }
    ensures bounded { (S.seen writer.new).failures ≤ (S.seen writer.old).failures + 1000 * (length body.now + 4) }
    ensures tried { TriesAgain (S.seen writer.old) (S.seen writer.new) result }
{
    let head = head_of(kind, body);
    push_all(writer, &head)?;
    push_all(writer, body)?;
    push_all(writer, &[checksum(kind, body)])
}

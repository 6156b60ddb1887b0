//! Reading pieces from a source.

ghost use Rattle.std.specs.Prelude.{◌≡◌, ◌<◌, ◌≤◌, ◌+◌, length, take, IfOk, IfErr, OnErr};
ghost use Rattle.std.specs.Io.KnownBytes.{Consumes, Keeps, IsAtEnd};
ghost use Rattle.omf_frame.specs.Device.{HasFailed, TriesAgain};

use crate::device::{Source, TRIES, is_interrupted};
use std::io;
use std::io::{Error, ErrorKind};

/// Reads the next bytes of a source into a nonempty buffer. Returns their number: 0 only at the end.
///
/// Errors are the source's own, and take no bytes. `Interrupted` is retried, and is returned after a thousand in a row.
pub fn pull_piece<S: Source>(source: &mut S, buffer: &mut [u8]) -> io::Result<usize>
    requires { 0 < length buffer.old }
    ensures bound { IfOk result (λ n. n ≤ length buffer.new) }
    ensures bytes { IfOk result (λ n. Consumes (S.seen source.old).bytes (S.seen source.new).bytes (take n buffer.new)) }
    ensures end { IfOk result (λ n. n ≡ 0 → IsAtEnd (S.seen source.new).bytes) }
    ensures kept { IfErr result (λ e. Keeps (S.seen source.old).bytes (S.seen source.new).bytes) }
    ensures cause { OnErr result (HasFailed (S.seen source.old).failures (S.seen source.new).failures) }
    ensures grows { (S.seen source.old).failures ≤ (S.seen source.new).failures }
    ensures bounded { (S.seen source.new).failures ≤ (S.seen source.old).failures + 1000 }
    ensures tried { TriesAgain (S.seen source.old) (S.seen source.new) result }
{
    for attempt in 0..TRIES {
        match source.pull(buffer) {
            Err(error) if is_interrupted(&error) => {}
            answer => return answer,
        }
    }
    Err(Error::from(ErrorKind::Interrupted))
}

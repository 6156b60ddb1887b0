//! The check of a module that is read from a source.

ghost use Rattle.std.specs.Prelude.{◌≡◌, ◌≤◌, ◌+◌, ◌*◌, ℕ, List, Some, IfOk, IfErr, length};
ghost use Rattle.std.specs.Io.KnownBytes.{Consumes};
ghost use Rattle.omf_check.specs.Checking.{IsCheckFault, IsReadPatiently, Decides};

use crate::checked::Checked;
use crate::fault::CheckFault;
use crate::profile::Profile;
use crate::session::finished;
use crate::taking::take_module;
use omf_frame::{Framer, Source};
use std::alloc::Global;

/// `check` with a framer that serves several checks, one after another, so that they need its memory once.
///
/// # Errors
///
/// As `check`.
pub fn check_with<S: Source>(
    alloc: Global,
    framer: &mut Framer,
    reader: &mut S,
    profile: Profile,
) -> Result<Checked, CheckFault>
    ensures verdict { (input : List ℕ) → (S.seen reader.old).bytes ≡ Some input → Decides profile input result }
    ensures read { IfOk result (λ m. Consumes (S.seen reader.old).bytes (S.seen reader.new).bytes m.bytes) }
    ensures cause { IfErr result (IsCheckFault profile (S.seen reader.old).bytes (S.seen reader.new).bytes (S.seen reader.old).failures (S.seen reader.new).failures) }
    ensures patient { IsReadPatiently (S.seen reader.old) (S.seen reader.new) result }
    // Before each byte, and before the end, at most a thousand failures are passed over.
    ensures bounded { IfOk result (λ m. (S.seen reader.new).failures ≤ (S.seen reader.old).failures + 1000 * (length m.bytes + 1)) }
    ensures grows { (S.seen reader.old).failures ≤ (S.seen reader.new).failures }
    ensures profile { IfOk result (λ m. m.profile ≡ profile) }
    // The framer keeps its memory.
    ensures room { framer.old.room ≤ framer.new.room }
{
    let mut bytes = Vec::new(alloc);
    let taken = take_module(alloc, framer, reader, &mut bytes, profile)?;
    bytes.shrink_to_fit();
    finished(profile, framer, bytes, taken.tables)
}

/// Reads and checks the module that the input begins with, and reads no further than its end.
///
/// Of an input that is refused it reads no more than the refusal needs: all of it if it ends too early; otherwise up to the end of the
/// record at fault, or only its type byte or its length if these are at fault.
///
/// # Errors
///
/// `Refused` if the input does not begin with a well-formed module: its first fault, by record, then step, place and reason number.
/// `Read` if the reader failed, or was interrupted 1,000 times in a row; only interruptions are retried. `Memory` if out of memory,
/// while the bytes read have no fault except that they end too early.
pub fn check<S: Source>(
    alloc: Global,
    reader: &mut S,
    profile: Profile,
) -> Result<Checked, CheckFault>
    ensures verdict { (input : List ℕ) → (S.seen reader.old).bytes ≡ Some input → Decides profile input result }
    ensures read { IfOk result (λ m. Consumes (S.seen reader.old).bytes (S.seen reader.new).bytes m.bytes) }
    ensures cause { IfErr result (IsCheckFault profile (S.seen reader.old).bytes (S.seen reader.new).bytes (S.seen reader.old).failures (S.seen reader.new).failures) }
    ensures patient { IsReadPatiently (S.seen reader.old) (S.seen reader.new) result }
    // Before each byte, and before the end, at most a thousand failures are passed over.
    ensures bounded { IfOk result (λ m. (S.seen reader.new).failures ≤ (S.seen reader.old).failures + 1000 * (length m.bytes + 1)) }
    ensures grows { (S.seen reader.old).failures ≤ (S.seen reader.new).failures }
    ensures profile { IfOk result (λ m. m.profile ≡ profile) }
{
    check_with(alloc, &mut Framer::new(alloc), reader, profile)
}

//! The records of a module, judged as they are taken from a reader.

ghost use Rattle.std.specs.Prelude.{◌≡◌, ◌≤◌, ◌<◌, ◌+◌, ◌*◌, ◌^◌, ◌++◌, ◌==◌, ◌⊎◌, ℕ, List, Some, None, IfOk, IfErr, OnOk, OnErr, Err, IsTrue, false, true, length, take, if◌then◌else◌};
ghost use Rattle.std.specs.Io.KnownBytes.{Appends, Keeps, IsAtEnd};
ghost use Rattle.omf_frame.specs.Framer.{want_of, want_with};
ghost use Rattle.omf_frame.specs.Framing.{is_taken};
ghost use Rattle.omf_image.specs.Limits.{profile_limits};
ghost use Rattle.omf_check.specs.Checking.{IsCheckFault, IsReadPatiently};
ghost use Rattle.omf_check.specs.Inner.Ahead.{PassesAhead, StopsAhead, FailsAhead};
ghost use Rattle.omf_check.specs.Inner.Judging.{raw_fault, rec_of};
ghost use Rattle.omf_check.specs.Inner.Kept.{IsBounded, with_record};
ghost use Rattle.omf_check.specs.Inner.Passing.{IsPassing, IsStopped, Moves, Fails, refused_at};
ghost use Rattle.omf_check.specs.Inner.Taking.{HasTaken};
ghost use Rattle.omf_check.specs.Judging.{Judges};

use crate::fault::CheckFault;
use crate::keeping::Keeper;
use crate::profile::Profile;
use crate::session::framing_fault;
use crate::table::Tables;
use omf_frame::{Bytes, Fed, Framer, Place, RawRecord, Source, pull_piece};
use omf_records::LayoutFault;
use std::alloc::{AllocError, Global};

/// The records taken from a reader: what later records need of them, and their size in bytes.
#[derive(Drop)]
pub(crate) struct Taken {
    pub(crate) tables: Tables,
    pub(crate) size: u64,
}

/// The number of bytes that can be taken before the next record is judged. `ahead` are the next bytes, `size` the number of those taken.
fn wanted(framer: &Framer, size: u64, ahead: &[u8]) -> usize
    ensures { result ≡ (if size == 0 then want_of framer.now.held else want_with framer.now.held ahead.now) }
{
    if size == 0 {
        return framer.want();
    }
    framer.want_with(ahead)
}

/// The refusal of the record with this number that starts at this offset of the module.
fn refused(number: u32, start: u64, fault: &LayoutFault) -> CheckFault
    ensures { result ≡ refused_at number start fault.now }
{
    CheckFault::Refused {
        reason: fault.reason,
        place: Place {
            number,
            start,
            within: fault.within,
        },
    }
}

/// Why a record is not taken: its fault, or `Memory` if it has none.
fn stopped(number: u32, start: u64, found: Option<LayoutFault>) -> CheckFault
    ensures { IsStopped found number start result }
{
    match found {
        Some(fault) => refused(number, start, &fault),
        None => CheckFault::Memory,
    }
}

/// Judges a record, and then keeps its bytes. Returns its first fault, or no fault if memory ran out.
#[inline(always)]
fn accept<K: Keeper>(
    tables: &mut Tables,
    keeper: &mut K,
    profile: Profile,
    raw: RawRecord<'_>,
    bytes: &[u8],
) -> Result<(), Option<LayoutFault>>
    requires taken { IsTrue (is_taken raw.kind) }
    requires short { length raw.body.now ≤ 65534 }
    requires start { raw.start < 2 ^ 40 }
    requires bounded { IsBounded tables.old }
    ensures sound { OnOk result (raw_fault profile profile_limits tables.old raw.entry.kind raw.entry.body.now ≡ None) }
    ensures tables { OnOk result (tables.new ≡ with_record tables.old raw.entry.start (rec_of raw.entry.kind raw.entry.body.now)) }
    ensures bounded { OnOk result (IsBounded tables.new) }
    ensures grown { OnOk result (Appends (K.kept keeper.old) (K.kept keeper.new) bytes.now) }
    ensures cause { IfErr result (λ found. found ≡ raw_fault profile profile_limits tables.old raw.entry.kind raw.entry.body.now) }
    ensures same { OnErr result (Keeps (K.kept keeper.old) (K.kept keeper.new)) }
{
    tables.take(profile, raw)?;
    match keeper.keep(bytes) {
        Ok(()) => Ok(()),
        Err(AllocError) => Err(None),
    }
}

/// Takes the bytes that the current record still lacks. If the record is then complete, judges it and moves past it.
pub(crate) fn step<K: Keeper>(
    framer: &mut Framer,
    tables: &mut Tables,
    keeper: &mut K,
    profile: Profile,
    piece: &[u8],
) -> Result<Fed, CheckFault>
    requires { (taken : List ℕ) × IsPassing profile framer.old.held taken tables.old }
    ensures moves { (taken : List ℕ) → IsPassing profile framer.old.held taken tables.old → IfOk result (λ fed. Moves framer.old.held taken piece.now fed.taken fed.whole framer.new.held (taken ++ take fed.taken piece.now)) }
    ensures passing { (taken : List ℕ) → IsPassing profile framer.old.held taken tables.old → IfOk result (λ fed. IsPassing profile framer.new.held (taken ++ take fed.taken piece.now) tables.new) }
    ensures grown { IfOk result (λ fed. Appends (K.kept keeper.old) (K.kept keeper.new) (take fed.taken piece.now)) }
    ensures cause { (taken : List ℕ) → IsPassing profile framer.old.held taken tables.old → IfErr result (Fails profile framer.old.held taken piece.now) }
    ensures same { OnErr result (Keeps (K.kept keeper.old) (K.kept keeper.new)) }
    ensures running { OnErr result ((framer.old.held.ended ≡ false) × (framer.new.held.ended ≡ false)) }
    ensures room { framer.old.room ≤ framer.new.room }
{
    let fed = match framer.feed(piece) {
        Ok(fed) => fed,
        Err(fault) => return Err(framing_fault(fault)),
    };
    let bytes = &piece[..fed.taken];
    match framer.raw() {
        None => {
            keeper.keep(bytes)?;
            Ok(fed)
        }
        Some(raw) => {
            if let Err(found) = accept(tables, keeper, profile, raw, bytes) {
                return Err(stopped(raw.number, raw.start, found));
            }
            framer.next();
            Ok(fed)
        }
    }
}

/// Judges the next record where the reader shows it, if it is there whole, and moves past it. Returns its size in bytes, or 0. A
/// record that is refused is taken from the reader too.
#[inline(always)]
fn step_ahead<S: Source, K: Keeper>(
    framer: &mut Framer,
    tables: &mut Tables,
    keeper: &mut K,
    profile: Profile,
    reader: &mut S,
) -> Result<usize, CheckFault>
    requires { (taken : List ℕ) × IsPassing profile framer.old.held taken tables.old }
    ensures moves { (taken : List ℕ) → IsPassing profile framer.old.held taken tables.old → IfOk result (λ size. PassesAhead profile taken size (S.seen reader.old).bytes (S.seen reader.new).bytes (K.kept keeper.old) (K.kept keeper.new) framer.new.held tables.new) }
    ensures cause { (taken : List ℕ) → IsPassing profile framer.old.held taken tables.old → IfErr result (StopsAhead profile framer.old.held taken (S.shown reader.old) (S.seen reader.old).bytes (S.seen reader.new).bytes) }
    ensures failures { (S.seen reader.new).failures ≡ (S.seen reader.old).failures }
    ensures breaks { (S.seen reader.new).breaks ≡ (S.seen reader.old).breaks }
    ensures room { framer.old.room ≤ framer.new.room }
{
    let ahead = reader.ahead();
    let Some(raw) = framer.raw_ahead(ahead) else {
        return Ok(0);
    };
    let (number, start) = (raw.number, raw.start);
    let size = framer.pass(ahead);
    let accepted = accept(tables, keeper, profile, raw, &ahead[..size]);
    reader.consume(size);
    match accepted {
        Ok(()) => Ok(size),
        Err(found) => Err(stopped(number, start, found)),
    }
}

/// Judges all records that the reader shows whole, up to the first that is refused, one by one. Returns their size in bytes.
fn pass_ahead<S: Source, K: Keeper>(
    framer: &mut Framer,
    tables: &mut Tables,
    keeper: &mut K,
    profile: Profile,
    reader: &mut S,
) -> Result<usize, CheckFault>
    requires { (taken : List ℕ) × IsPassing profile framer.old.held taken tables.old }
    ensures moves { (taken : List ℕ) → IsPassing profile framer.old.held taken tables.old → IfOk result (λ size. PassesAhead profile taken size (S.seen reader.old).bytes (S.seen reader.new).bytes (K.kept keeper.old) (K.kept keeper.new) framer.new.held tables.new) }
    ensures cause { (taken : List ℕ) → IsPassing profile framer.old.held taken tables.old → IfErr result (FailsAhead profile taken (S.seen reader.old).bytes (S.seen reader.new).bytes) }
    ensures failures { (S.seen reader.new).failures ≡ (S.seen reader.old).failures }
    ensures breaks { (S.seen reader.new).breaks ≡ (S.seen reader.old).breaks }
    ensures room { framer.old.room ≤ framer.new.room }
{
    let mut size = 0;
    loop {
        let count = step_ahead(framer, tables, keeper, profile, reader)?;
        if count == 0 {
            return Ok(size);
        }
        size += count;
    }
}

/// Judges all records that the reader shows whole, up to the first that is refused, and takes them from the reader at once. Returns their
/// size in bytes.
fn take_ahead<S: Source, K: Keeper>(
    framer: &mut Framer,
    tables: &mut Tables,
    keeper: &mut K,
    profile: Profile,
    reader: &mut S,
) -> Result<usize, CheckFault>
    requires { (taken : List ℕ) × IsPassing profile framer.old.held taken tables.old }
    ensures moves { (taken : List ℕ) → IsPassing profile framer.old.held taken tables.old → IfOk result (λ size. PassesAhead profile taken size (S.seen reader.old).bytes (S.seen reader.new).bytes (K.kept keeper.old) (K.kept keeper.new) framer.new.held tables.new) }
    ensures cause { (taken : List ℕ) → IsPassing profile framer.old.held taken tables.old → IfErr result (FailsAhead profile taken (S.seen reader.old).bytes (S.seen reader.new).bytes) }
    ensures failures { (S.seen reader.new).failures ≡ (S.seen reader.old).failures }
    ensures breaks { (S.seen reader.new).breaks ≡ (S.seen reader.old).breaks }
    ensures room { framer.old.room ≤ framer.new.room }
{
    let shown = reader.ahead();
    let mut bytes = Bytes::new(shown);
    let passed = pass_ahead(framer, tables, keeper, profile, &mut bytes);
    let size = shown.len() - bytes.ahead().len();
    reader.consume(size);
    passed
}

/// Takes the module that the input begins with, up to its end or the end of the input, and judges each record. It reads as far as
/// `check` does, and holds only the current record and the tables, beside what is kept. The framer is restarted, and is then after
/// the records taken.
///
/// # Errors
///
/// As `check`, except that the input may end anywhere.
pub(crate) fn take_module<S: Source, K: Keeper>(
    alloc: Global,
    framer: &mut Framer,
    reader: &mut S,
    keeper: &mut K,
    profile: Profile,
) -> Result<Taken, CheckFault>
    ensures taken { IfOk result (λ t. HasTaken profile (S.seen reader.old).bytes (S.seen reader.new).bytes (K.kept keeper.old) (K.kept keeper.new) framer.new.held t.tables t.size) }
    ensures ends { OnOk result ((framer.new.held.ended ≡ true) ⊎ IsAtEnd (S.seen reader.new).bytes) }
    ensures verdict { IfErr result (λ fault. (input : List ℕ) → (S.seen reader.old).bytes ≡ Some input → Judges profile input (Err fault)) }
    ensures cause { IfErr result (IsCheckFault profile (S.seen reader.old).bytes (S.seen reader.new).bytes (S.seen reader.old).failures (S.seen reader.new).failures) }
    ensures patient { IsReadPatiently (S.seen reader.old) (S.seen reader.new) result }
    ensures bounded { IfOk result (λ t. (S.seen reader.new).failures ≤ (S.seen reader.old).failures + 1000 * (t.size + 1)) }
    ensures grows { (S.seen reader.old).failures ≤ (S.seen reader.new).failures }
    ensures room { framer.old.room ≤ framer.new.room }
{
    framer.restart();
    let mut tables = Tables::new(alloc);
    let mut size: u64 = 0;
    let mut buffer = [0; 4096];
    loop {
        let want = wanted(framer, size, reader.ahead()).min(buffer.len());
        if want == 0 {
            return Ok(Taken { tables, size });
        }
        let room = &mut buffer[..want];
        let Ok(count) = pull_piece(reader, room) else {
            return Err(CheckFault::Read);
        };
        if count == 0 {
            return Ok(Taken { tables, size });
        }
        let fed = step(framer, &mut tables, keeper, profile, &room[..count])?;
        size += fed.taken as u64;
        let passed = take_ahead(framer, &mut tables, keeper, profile, reader)?;
        size += passed as u64;
    }
}

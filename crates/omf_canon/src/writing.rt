//! The canonical bytes of a module.

ghost use Rattle.std.specs.Prelude.{All, ◌≡◌, ◌≤◌, ◌++◌, [], ◌∷◌, None, Some, Ok, OnOk, IfOk, IsOk, IsOkAnd, IfSome, IsTrue, true, false, length, option_map, if◌then◌else◌};
ghost use Rattle.omf_check.specs.Inner.Judging.{IsNoFixupp};
ghost use Rattle.omf_check.specs.Inner.Kept.{no_threads, set_thread, set_threads, threads_after};
ghost use Rattle.omf_check.specs.Module.{recs_of};
ghost use Rattle.omf_frame.specs.Framing.{IsRecord, is_taken};
ghost use Rattle.omf_records.specs.Inner.Reading.{read_body};
ghost use Rattle.omf_records.specs.Inner.Seen.{rec_seen, kind_seen, contents_seen};
ghost use Rattle.omf_records.specs.Shortest.{subrecord_bytes};
ghost use Rattle.omf_records.specs.Valued.{IsSubrecordValue, HaveReferenceValues};
ghost use Rattle.omf_records.specs.Values.{alone, Fixup};
ghost use Rattle.omf_reloc.specs.Inner.Pieces.{IsSet, SubrecordIsSet, SubrecordsAreSet, ContentsAreSet};
ghost use Rattle.omf_reloc.specs.Plain.{Kept, End};
ghost use Rattle.omf_reloc.specs.Inner.Walking.{plain_by};
ghost use Rattle.omf_canon.specs.Inner.Names.{start_bytes, end_byte};
ghost use Rattle.omf_canon.specs.Canonical.{canonical, canonical_raws};
ghost use Rattle.omf_canon.specs.Skeleton.{skeleton};
ghost use Rattle.omf_canon.specs.Form.{IsFormOf};
ghost use Rattle.omf_canon.specs.Inner.Writing.{Held, held, record_bytes, closed, has_room, held_with, closed_by, piece_puts, CanPut, subrecord_piece, subrecord_pieces, contents_pieces, ArePut, IsJoined, is_data, begins_short};

use crate::laws;
use crate::plain::{end_byte, is_direct, put_start, unthreaded_fixup};
use omf_check::laws::modules_hold;
use omf_check::{Checked, Threads, put_record, split_record};
use omf_frame::RawRecord;
use omf_records::laws::typed_have_values;
use omf_records::{
    FIXUP_LIMIT, Locat, Part, Rec, Reference, Subrecord, Unread, put_fixup, put_rec, unread_fixups,
    view_known,
};
use std::alloc::{AllocError, Global};
use std::marker::Model;

/// The most bytes of contents in a canonical FIXUPP: 1,024 less the type byte, the two length bytes and the checksum byte.
const BODY_LIMIT: usize = 1020;

/// Whether this is the type of an LEDATA or an LIDATA.
#[inline(always)]
fn is_data(kind: u8) -> bool
    ensures { result ≡ is_data kind }
{
    kind == 0xA0 || kind == 0xA1 || kind == 0xA2 || kind == 0xA3
}

/// Whether contents begin with an index in its shortest encoding and have another byte after their first.
#[inline(always)]
fn begins_short(body: &[u8]) -> bool
    ensures { result ≡ begins_short body.now }
{
    match body {
        [first, second, ..] => *first != 128 || *second >= 128,
        _ => false,
    }
}

/// A FIXUPP whose record is not yet written.
#[derive(Drop)]
struct Group {
    kind: u8,
    body: Vec<u8>,
}

impl Model for Group {
    ghost use Rattle.std.specs.Prelude.{All, ◌≤◌, length};
    ghost use Rattle.omf_canon.specs.Inner.Writing.{Held};

    ghost Value = { Held };

    ghost view = { λ g. record { kind = g.kind; body = g.body.items } };

    ghost invariant = { λ g. length g.body.items ≤ 1020 };
}

impl Group {
    /// A FIXUPP with one fixup.
    fn open(
        alloc: Global,
        kind: u8,
        location: Locat,
        reference: &Reference,
    ) -> Result<Group, AllocError>
        ensures { IfOk result (λ g. g ≡ held kind (subrecord_bytes kind (Fixup location reference.now))) }
    {
        let mut body = Vec::with_capacity(alloc, BODY_LIMIT + FIXUP_LIMIT)?;
        put_fixup(&mut body, kind, location, reference)?;
        Ok(Group { kind, body })
    }

    /// Appends a fixup and returns true, if this FIXUPP has its type and room for it. Otherwise returns false and changes nothing.
    #[inline(always)]
    fn join(&mut self, kind: u8, location: Locat, reference: &Reference) -> Result<bool, AllocError>
        ensures fits { IfOk result (λ taken. taken ≡ has_room kind (subrecord_bytes kind (Fixup location reference.now)) self.old) }
        ensures taken { IfOk result (λ taken. self.new ≡ (if taken then held self.old.kind (self.old.body ++ subrecord_bytes kind (Fixup location reference.now)) else self.old)) }
    {
        if self.kind != kind {
            return Ok(false);
        }
        let len = self.body.len();
        put_fixup(&mut self.body, kind, location, reference)?;
        if self.body.len() <= BODY_LIMIT {
            return Ok(true);
        }
        self.body.truncate(len);
        Ok(false)
    }

    /// Takes the next subrecord and returns true, if it is a fixup that names no thread and has no displacement of 0, and this FIXUPP has
    /// its type and room for the longest fixup. Otherwise returns false and changes nothing.
    #[inline(always)]
    fn join_direct(&mut self, kind: u8, subrecords: &mut Unread<Subrecord<'_>>) -> bool
        requires { IsOk subrecords.old.items }
        ensures joined { result ≡ true → IsJoined kind (Some self.old) (Some self.new) subrecords.old subrecords.new }
        ensures group { result ≡ false → self.new ≡ self.old }
        ensures left { result ≡ false → subrecords.new ≡ subrecords.old }
    {
        if self.kind != kind || self.body.len() > BODY_LIMIT - FIXUP_LIMIT {
            return false;
        }
        subrecords.put_direct(kind, &mut self.body)
    }
}

/// A walk over a module's records.
#[derive(Drop)]
struct Walk {
    out: Vec<u8>,
    /// The open FIXUPP, if there is one.
    group: Option<Group>,
    /// The threads in force.
    threads: Threads,
    /// The contents of the last kept record. Its room is used again for the next.
    body: Vec<u8>,
}

/// Writes the record of the open FIXUPP, if there is one.
fn close(out: &mut Vec<u8>, group: Option<Group>) -> Result<(), AllocError>
    ensures { OnOk result (out.new.items ≡ out.old.items ++ closed group) }
{
    match group {
        Some(group) => put_record(out, group.kind, &group.body),
        None => Ok(()),
    }
}

/// Closes the open FIXUPP and writes a record after it.
fn write(
    out: &mut Vec<u8>,
    group: &mut Option<Group>,
    kind: u8,
    body: &[u8],
) -> Result<(), AllocError>
    requires { length body.now ≤ 65534 }
    ensures out { OnOk result (out.new.items ≡ out.old.items ++ (closed group.old ++ record_bytes kind body.now)) }
    ensures group { OnOk result (group.new ≡ None) }
{
    close(out, group.take())?;
    put_record(out, kind, body)
}

impl Walk {
    /// A walk from the first record on, with room for `capacity` bytes of output.
    fn new(alloc: Global, capacity: usize) -> Result<Walk, AllocError>
        ensures out { IfOk result (λ w. w.out.items ≡ []) }
        ensures group { IfOk result (λ w. w.group ≡ None) }
        ensures threads { IfOk result (λ w. w.threads ≡ no_threads) }
    {
        Ok(Walk {
            out: Vec::with_capacity(alloc, capacity)?,
            group: None,
            threads: Threads::new(),
            body: Vec::new(alloc),
        })
    }

    /// Takes a fixup that names no thread: it joins the open FIXUPP, if that has its type and room for it; otherwise the open FIXUPP is
    /// written, and the fixup opens the next.
    #[inline(always)]
    fn take_fixup(
        &mut self,
        alloc: Global,
        kind: u8,
        location: Locat,
        reference: &Reference,
    ) -> Result<(), AllocError>
        ensures out { OnOk result (self.new.out.items ≡ self.old.out.items ++ closed_by kind (subrecord_bytes kind (Fixup location reference.now)) self.old.group) }
        ensures group { OnOk result (self.new.group ≡ held_with kind (subrecord_bytes kind (Fixup location reference.now)) self.old.group) }
        ensures threads { self.new.threads ≡ self.old.threads }
    {
        if let Some(group) = &mut self.group {
            if group.join(kind, location, reference)? {
                return Ok(());
            }
        }
        close(&mut self.out, self.group.take())?;
        self.group = Some(Group::open(alloc, kind, location, reference)?);
        Ok(())
    }

    /// Takes a subrecord of a FIXUPP of this type.
    #[inline(always)]
    fn take_subrecord(
        &mut self,
        alloc: Global,
        kind: u8,
        subrecord: &Subrecord<'_>,
    ) -> Result<(), AllocError>
        requires set { SubrecordIsSet self.old.threads subrecord.now }
        requires value { IsSubrecordValue kind subrecord.now }
        ensures put { OnOk result (ArePut (subrecord_piece self.old.threads kind subrecord.now) self.old.out.items self.old.group self.new.out.items self.new.group) }
        ensures threads { OnOk result (self.new.threads ≡ set_thread self.old.threads subrecord.now) }
    {
        match &subrecord.part {
            Part::Thread { .. } => {
                self.threads.set(subrecord);
                Ok(())
            }
            Part::Fixup {
                location,
                reference,
            } => {
                if is_direct(reference) {
                    return self.take_fixup(alloc, kind, *location, reference);
                }
                let plain = unthreaded_fixup(&self.threads, *location, reference);
                self.take_fixup(alloc, kind, *location, &plain)
            }
        }
    }

    /// Takes the next subrecord and returns true, if it is a fixup that names no thread and has no displacement of 0, and the open FIXUPP
    /// has its type and room for the longest fixup. Otherwise returns false and changes nothing.
    #[inline(always)]
    fn join_direct(&mut self, kind: u8, subrecords: &mut Unread<Subrecord<'_>>) -> bool
        requires { IsOk subrecords.old.items }
        ensures joined { result ≡ true → IsJoined kind self.old.group self.new.group subrecords.old subrecords.new }
        ensures group { result ≡ false → self.new.group ≡ self.old.group }
        ensures left { result ≡ false → subrecords.new ≡ subrecords.old }
        ensures out { self.new.out.items ≡ self.old.out.items }
        ensures threads { self.new.threads ≡ self.old.threads }
    {
        match &mut self.group {
            Some(group) => group.join_direct(kind, subrecords),
            None => false,
        }
    }

    /// Takes the subrecords of a FIXUPP of this type. They are well formed.
    fn take_fixups(
        &mut self,
        alloc: Global,
        kind: u8,
        subrecords: Unread<Subrecord<'_>>,
    ) -> Result<(), AllocError>
        requires set { IsOkAnd subrecords.items (SubrecordsAreSet self.old.threads) }
        requires values { IsOkAnd subrecords.items (All (λ s. IsSubrecordValue kind s.item)) }
        ensures put { (subs : _) → subrecords.entry.items ≡ Ok subs → OnOk result (ArePut (subrecord_pieces self.old.threads kind subs) self.old.out.items self.old.group self.new.out.items self.new.group) }
        ensures threads { (subs : _) → subrecords.entry.items ≡ Ok subs → OnOk result (self.new.threads ≡ set_threads self.old.threads subs) }
    {
        let mut subrecords = subrecords;
        'walk: loop {
            if self.join_direct(kind, &mut subrecords) {
                continue;
            }
            let subrecord = match subrecords.read_next() {
                Ok(Some(subrecord)) => subrecord,
                Ok(None) => return Ok(()),
                Err(_) => unreachable!(),
            };
            self.take_subrecord(alloc, kind, &subrecord.item)?;
        }
    }

    /// Writes a kept record.
    fn keep(&mut self, rec: &Rec<'_>) -> Result<(), AllocError>
        requires { CanPut (Kept (alone (rec_seen rec.now))) }
        ensures out { OnOk result (self.new.out.items ≡ self.old.out.items ++ piece_puts (Kept (alone (rec_seen rec.now))) self.old.group) }
        ensures group { OnOk result (self.new.group ≡ None) }
        ensures threads { self.new.threads ≡ self.old.threads }
    {
        self.body.clear();
        put_rec(&mut self.body, rec)?;
        write(&mut self.out, &mut self.group, rec.kind(), &self.body)
    }

    /// Writes a MODEND of this type, with its module type byte normalized.
    fn end(
        &mut self,
        alloc: Global,
        kind: u8,
        type_byte: u8,
        start: &Option<Reference>,
    ) -> Result<(), AllocError>
        requires { IfSome start.now (IsSet self.old.threads) }
        ensures out { OnOk result (self.new.out.items ≡ self.old.out.items ++ piece_puts (End kind (end_byte type_byte) (option_map (plain_by self.old.threads) start.now)) self.old.group) }
        ensures group { OnOk result (self.new.group ≡ None) }
        ensures threads { self.new.threads ≡ self.old.threads }
    {
        let body = end_contents(alloc, kind, end_byte(type_byte), &self.threads, start)?;
        write(&mut self.out, &mut self.group, kind, &body)
    }

    /// Takes a record other than a FIXUPP.
    #[tactic(auto, using(crate::proofs::TakingLaws::end_set))]
    fn take_other(&mut self, alloc: Global, rec: &Rec<'_>) -> Result<(), AllocError>
        requires other { IsNoFixupp (contents_seen rec.now) }
        requires set { ContentsAreSet self.old.threads (contents_seen rec.now) }
        requires short { All CanPut (contents_pieces self.old.threads (kind_seen rec.now) (contents_seen rec.now)) }
        ensures put { OnOk result (ArePut (contents_pieces self.old.threads (kind_seen rec.now) (contents_seen rec.now)) self.old.out.items self.old.group self.new.out.items self.new.group) }
        ensures threads { self.new.threads ≡ self.old.threads }
    {
        let Rec::ModEnd {
            type_byte,
            start,
            ..
        } = rec
        else {
            return self.keep(rec);
        };
        self.end(alloc, rec.kind(), *type_byte, start)
    }

    /// Copies the contents of an LEDATA or an LIDATA whose index is in its shortest encoding.
    fn copy(&mut self, kind: u8, body: &[u8]) -> Result<(), AllocError>
        requires data { is_data kind ≡ true }
        requires begins { begins_short body.now ≡ true }
        requires short { length body.now ≤ 65534 }
        ensures put { (c : _) → read_body kind body.entry.now ≡ Ok c → OnOk result (ArePut (contents_pieces self.old.threads kind c) self.old.out.items self.old.group self.new.out.items self.new.group) }
        ensures threads { (c : _) → read_body kind body.entry.now ≡ Ok c → self.new.threads ≡ threads_after self.old.threads c }
    {
        write(&mut self.out, &mut self.group, kind, body)
    }

    /// Takes the next record. It is well formed.
    fn take(&mut self, alloc: Global, raw: RawRecord<'_>) -> Result<(), AllocError>
        requires taken { IsTrue (is_taken raw.kind) }
        requires body { length raw.body.now ≤ 65534 }
        requires read { IsOk (read_body raw.kind raw.body.now) }
        requires set { (c : _) → read_body raw.kind raw.body.now ≡ Ok c → ContentsAreSet self.old.threads c }
        requires values { (c : _) → read_body raw.kind raw.body.now ≡ Ok c → HaveReferenceValues raw.kind c }
        requires short { (c : _) → read_body raw.kind raw.body.now ≡ Ok c → All CanPut (contents_pieces self.old.threads raw.kind c) }
        ensures put { (c : _) → read_body raw.entry.kind raw.entry.body.now ≡ Ok c → OnOk result (ArePut (contents_pieces self.old.threads raw.entry.kind c) self.old.out.items self.old.group self.new.out.items self.new.group) }
        ensures threads { (c : _) → read_body raw.entry.kind raw.entry.body.now ≡ Ok c → OnOk result (self.new.threads ≡ threads_after self.old.threads c) }
    {
        if let Some(subrecords) = unread_fixups(&raw) {
            return self.take_fixups(alloc, raw.kind, subrecords);
        }
        if is_data(raw.kind) && begins_short(raw.body) {
            return self.copy(raw.kind, raw.body);
        }
        self.take_other(alloc, &view_known(raw))
    }

    /// Writes the open FIXUPP, if there is one, and returns all the bytes.
    fn finish(self) -> Result<Vec<u8>, AllocError>
        ensures { IfOk result (λ v. v.items ≡ self.out.items ++ closed self.group) }
    {
        let mut out = self.out;
        close(&mut out, self.group)?;
        Ok(out)
    }
}

/// The contents of a MODEND of this type.
fn end_contents(
    alloc: Global,
    kind: u8,
    type_byte: u8,
    threads: &Threads,
    start: &Option<Reference>,
) -> Result<Vec<u8>, AllocError>
    requires { IfSome start.now (IsSet threads.now) }
    ensures bytes { IfOk result (λ v. v.items ≡ type_byte ∷ start_bytes kind (option_map (plain_by threads.now) start.now)) }
    ensures short { IfOk result (λ v. length v.items ≤ 10) }
{
    let mut body = Vec::new(alloc);
    body.push(type_byte)?;
    put_start(&mut body, kind, threads, start)?;
    Ok(body)
}

/// The canonical bytes of a module, made in one walk over its records, with room for `capacity` bytes from the start.
fn written(alloc: Global, module: &Checked, capacity: usize) -> Result<Vec<u8>, AllocError>
    requires { All IsRecord (canonical_raws (skeleton (recs_of «module».now.bytes))) }
    ensures { IfOk result (λ v. v.items ≡ canonical (recs_of «module».now.bytes)) }
{
    modules_hold();
    typed_have_values();
    let mut walk = Walk::new(alloc, capacity)?;
    let mut left = module.bytes();
    'records: while !left.is_empty() {
        let (raw, rest) = split_record(left);
        walk.take(alloc, raw)?;
        left = rest;
    }
    walk.finish()
}

/// The canonical bytes of a module: shortest encodings, computed checksums, and fixups without threads in records of at most 1,024 bytes
/// (TIS OMF 1.1, "FIXUPP", "MODEND"). They are well formed under the module's profile, have the same skeleton and no more items, are their
/// own canonical bytes, and mean the same at every placement. Two modules have the same canonical bytes exactly if their skeletons are
/// equal.
///
/// # Errors
///
/// `AllocError` if memory runs out.
pub fn canon(alloc: Global, module: &Checked) -> Result<Vec<u8>, AllocError>
    ensures bytes { IfOk result (λ v. v.items ≡ canonical (recs_of «module».now.bytes)) }
    ensures form { IfOk result (λ v. IsFormOf «module».now.profile «module».now.bytes v.items) }
{
    laws::canonicals_are_well_formed();
    laws::canonicals_are_read();
    laws::canonicals_hold();
    laws::canonicals_are_fixed();
    laws::canonicals_decide();
    laws::canonicals_mean_the_same();
    written(alloc, module, module.bytes().len())
}

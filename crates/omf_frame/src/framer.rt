//! Splits bytes, given in any pieces, into records.

ghost use Rattle.std.specs.Prelude.{◌≡◌, ◌≤◌, ◌<◌, ◌+◌, ◌-◌, ◌^◌, ◌++◌, ◌==◌, ◌||◌, [], true, false, None, IsTrue, length, take, slice_index, IfOk, IfErr, OnOk, OnErr, IfSome, OnSome, ℕ, List, is_some, is_none, vec_capacity};
ghost use Rattle.omf_frame.specs.Framing.{Raw, IsRecord, raw_bytes, present, front_record, frame_fault, standing_fault, is_whole, is_taken, is_end, record_len};
ghost use Rattle.omf_frame.specs.Inner.Judging.{type_fault};
ghost use Rattle.omf_frame.specs.Framer.{at_start, longest_record, open_at, stands, want_of, Takes, IsCause, LacksRoom, FailsAs, passed, stop_of, want_with, with_bytes, shows_record, IsBetween};
ghost use Rattle.omf_frame.specs.declared.fault.FrameFault.TheVariants.{Memory};

use crate::fault::{FrameFault, Place, Reason};
use crate::framing::{is_whole, len_of, record_len, type_fault, whole_fault};
use crate::kinds::{is_end, is_taken};
use std::alloc::{AllocError, Global};
use std::marker::Model;

/// The number of bytes taken, and whether the record at hand is now complete.
#[derive(Clone, Copy, Debug, PartialEq, Eq)]
pub struct Fed {
    pub taken: usize,
    pub whole: bool,
}

/// A record: its type byte, its contents without the checksum byte, its number from 0, and its offset in the stream in bytes
/// (TIS OMF 1.1, "Object record format").
#[derive(Clone, Copy, Debug)]
pub struct RawRecord<'a> {
    pub kind: u8,
    pub body: &'a [u8],
    pub number: u32,
    pub start: u64,
}

/// The largest size of a record: the type byte, two length bytes, and up to 65,535 more.
const LONGEST_RECORD: usize = 65_538;

/// Splits bytes, given in any pieces, into records. It holds one record at most, of up to 65,538 bytes, and allocates that much at
/// its first byte.
#[derive(Drop)]
pub struct Framer {
    bytes: Vec<u8>,
    number: u32,
    start: u64,
    ended: bool,
    fault: Option<FrameFault>,
}

impl Model for Framer {
    ghost use Rattle.std.specs.Prelude.{vec_capacity};
    ghost use Rattle.omf_frame.specs.Framer.{Buffer};
    ghost use Rattle.omf_frame.specs.Inner.Standing.{IsState};

    ghost Value = { Buffer };

    ghost view = { λ a. record { held = record { bytes = a.bytes.items; number = a.number; start = a.start; ended = a.ended; fault = a.fault }; room = vec_capacity a.bytes } };

    ghost invariant = { λ a. IsState (vec_capacity a.bytes) (record { bytes = a.bytes.items; number = a.number; start = a.start; ended = a.ended; fault = a.fault }) };
}

/// The size of the record that starts with `held` and continues with `piece`.
fn joined_len(held: &[u8], piece: &[u8]) -> usize
    ensures same { result ≡ record_len (held.now ++ piece.now) }
    ensures bound { result ≤ 65538 }
{
    match held {
        [] => record_len(piece),
        [_] => match piece {
            [low, high, ..] => len_of(*low, *high),
            _ => 3,
        },
        [_, low] => match piece {
            [high, ..] => len_of(*low, *high),
            [] => 3,
        },
        [_, low, high, ..] => len_of(*low, *high),
    }
}

/// Allocates room for the longest record, unless `coming` is 0.
fn take_room(bytes: &mut Vec<u8>, coming: usize) -> Result<(), AllocError>
    requires small { length bytes.old.items ≤ 65538 }
    ensures same { bytes.new.items ≡ bytes.old.items }
    ensures capacity { vec_capacity bytes.old ≤ vec_capacity bytes.new }
    ensures room { OnOk result (0 < coming → longest_record ≤ vec_capacity bytes.new) }
    ensures first { OnErr result ((0 < coming) × (vec_capacity bytes.old < longest_record)) }
    ensures lacking { OnErr result (vec_capacity bytes.new < longest_record) }
{
    if coming == 0 {
        return Ok(());
    }
    bytes.reserve_exact(LONGEST_RECORD - bytes.len())
}

/// Appends the missing bytes of the record, as far as `piece` has them. Returns their number.
fn grow(bytes: &mut Vec<u8>, piece: &[u8]) -> Result<usize, AllocError>
    requires short { length bytes.old.items ≤ record_len bytes.old.items }
    requires small { length bytes.old.items ≤ 65538 }
    requires room { vec_capacity bytes.old < longest_record → bytes.old.items ≡ [] }
    ensures ok { IfOk result (λ taken. bytes.new.items ≡ present (bytes.old.items ++ piece.now)) }
    ensures grown { IfOk result (λ taken. bytes.new.items ≡ bytes.old.items ++ take taken piece.now) }
    ensures taken { IfOk result (λ taken. taken + length bytes.old.items ≡ length (present (bytes.old.items ++ piece.now))) }
    ensures bound { IfOk result (λ taken. taken ≤ length piece.now) }
    ensures lacked { OnErr result (length bytes.old.items < length (present (bytes.old.items ++ piece.now))) }
    ensures first { OnErr result (vec_capacity bytes.old < longest_record) }
    ensures lacking { OnErr result (vec_capacity bytes.new < longest_record) }
    ensures capacity { vec_capacity bytes.old ≤ vec_capacity bytes.new }
    ensures room { OnOk result (vec_capacity bytes.new < longest_record → bytes.new.items ≡ []) }
    ensures short { OnOk result (length bytes.new.items ≤ record_len bytes.new.items) }
    ensures small { OnOk result (length bytes.new.items ≤ 65538) }
{
    let lacks = joined_len(bytes, piece) - bytes.len();
    let taken = lacks.min(piece.len());
    take_room(bytes, taken)?;
    bytes.extend_from_slice(&piece[..taken])?;
    Ok(taken)
}

/// The fault of the type byte after `piece` is appended.
fn joined_type_fault(held: &[u8], piece: &[u8]) -> Option<(Reason, u32)>
    requires { type_fault held.now ≡ None }
    ensures { result ≡ type_fault (present (held.now ++ piece.now)) }
{
    match held {
        [] => type_fault(piece),
        [_, ..] => None,
    }
}

/// Appends the missing bytes of the record and checks it. `at` is the place of its type byte.
fn advance(bytes: &mut Vec<u8>, at: Place, piece: &[u8]) -> Result<usize, FrameFault>
    requires short { length bytes.old.items ≤ record_len bytes.old.items }
    requires small { length bytes.old.items ≤ 65538 }
    requires sound { standing_fault (at.number == 0) bytes.old.items ≡ None }
    requires room { vec_capacity bytes.old < longest_record → (at.number ≡ 0) × (bytes.old.items ≡ []) }
    ensures ok { OnOk result (bytes.new.items ≡ present (bytes.old.items ++ piece.now)) }
    ensures grown { IfOk result (λ taken. bytes.new.items ≡ bytes.old.items ++ take taken piece.now) }
    ensures taken { IfOk result (λ taken. taken + length bytes.old.items ≡ length (present (bytes.old.items ++ piece.now))) }
    ensures bound { IfOk result (λ taken. taken ≤ length piece.now) }
    ensures sound { OnOk result (standing_fault (at.number == 0) bytes.new.items ≡ None) }
    ensures err { IfErr result (λ fault. IsCause (open_at bytes.old.items at.number at.start) piece.now fault) }
    ensures lacking { IfErr result (λ fault. fault ≡ Memory → vec_capacity bytes.new < longest_record) }
    ensures capacity { vec_capacity bytes.old ≤ vec_capacity bytes.new }
    ensures room { OnOk result (vec_capacity bytes.new < longest_record → bytes.new.items ≡ []) }
    ensures short { OnOk result (length bytes.new.items ≤ record_len bytes.new.items) }
    ensures small { OnOk result (length bytes.new.items ≤ 65538) }
{
    if let Some((reason, within)) = joined_type_fault(bytes, piece) {
        return Err(FrameFault::Refused(reason, Place { within, ..at }));
    }
    let taken = grow(bytes, piece)?;
    match whole_fault(at.number == 0, bytes) {
        Some((reason, within)) => Err(FrameFault::Refused(reason, Place { within, ..at })),
        None => Ok(taken),
    }
}

/// The record in `bytes`, if it is complete.
#[inline(always)]
fn front(bytes: &[u8], number: u32, start: u64) -> Option<RawRecord<'_>>
    requires short { length bytes.now ≤ record_len bytes.now }
    requires sound { standing_fault (number == 0) bytes.now ≡ None }
    ensures stands { is_some result ≡ is_whole bytes.now }
    ensures kind { IfSome result (λ r. r.kind ≡ (front_record bytes.now).kind) }
    ensures body { IfSome result (λ r. r.body.now ≡ (front_record bytes.now).body) }
    ensures number { IfSome result (λ r. r.number ≡ number) }
    ensures start { IfSome result (λ r. r.start ≡ start) }
    ensures sound { OnSome result (frame_fault (number == 0) bytes.now ≡ None) }
    ensures record { OnSome result (IsRecord (front_record bytes.now)) }
    ensures spelled { OnSome result (raw_bytes (front_record bytes.now) ≡ bytes.now) }
    ensures taken { IfSome result (λ r. IsTrue (is_taken r.kind)) }
    ensures small { IfSome result (λ r. length r.body.now ≤ 65534) }
{
    if !is_whole(bytes) {
        return None;
    }
    match bytes {
        [kind, _, _, body @ .., _] => Some(RawRecord {
            kind: *kind,
            body,
            number,
            start,
        }),
        _ => None,
    }
}

/// The record that these bytes begin with, if it is complete and has no framing fault.
#[inline(always)]
fn whole_front(bytes: &[u8], number: u32, start: u64) -> Option<RawRecord<'_>>
    ensures stands { is_some result ≡ is_none (frame_fault (number == 0) (present bytes.now)) }
    ensures kind { IfSome result (λ r. r.kind ≡ (front_record (present bytes.now)).kind) }
    ensures body { IfSome result (λ r. r.body.now ≡ (front_record (present bytes.now)).body) }
    ensures number { IfSome result (λ r. r.number ≡ number) }
    ensures start { IfSome result (λ r. r.start ≡ start) }
    ensures sound { OnSome result (frame_fault (number == 0) (present bytes.now) ≡ None) }
    ensures record { OnSome result (IsRecord (front_record (present bytes.now))) }
    ensures spelled { OnSome result (raw_bytes (front_record (present bytes.now)) ≡ present bytes.now) }
    ensures taken { IfSome result (λ r. IsTrue (is_taken r.kind)) }
    ensures small { IfSome result (λ r. length r.body.now ≤ 65534) }
    ensures whole { OnSome result (is_whole (present bytes.now) ≡ true) }
    ensures standing { OnSome result (standing_fault (number == 0) (present bytes.now) ≡ None) }
    ensures present { OnSome result (record_len bytes.now ≤ length bytes.now) }
{
    // The length bytes are there from here on: the compiler then asks for them once.
    if bytes.len() < 3 {
        return None;
    }
    let size = record_len(bytes);
    if bytes.len() < size {
        return None;
    }
    let bytes = &bytes[..size];
    if let Some(_fault) = type_fault(bytes) {
        return None;
    }
    if let Some(_fault) = whole_fault(number == 0, bytes) {
        return None;
    }
    front(bytes, number, start)
}

impl Framer {
    /// A framer at the start of an input.
    pub fn new(alloc: Global) -> Framer
        ensures { result ≡ record { held = at_start; room = 0 } }
    {
        Framer {
            bytes: Vec::new(alloc),
            number: 0,
            start: 0,
            ended: false,
            fault: None,
        }
    }

    /// Goes to the start of another input. It keeps its memory, so that several inputs need it once.
    pub fn restart(&mut self)
        ensures held { self.new.held ≡ at_start }
        ensures room { self.new.room ≡ self.old.room }
    {
        self.bytes.clear();
        self.number = 0;
        self.start = 0;
        self.ended = false;
        self.fault = None;
    }

    /// Takes bytes up to the end of the current record. Takes none while a record is complete, and none after MODEND.
    ///
    /// Errors: a refusal by reasons 3 to 7, or `Memory`, which only the first byte of the first record can give. An error drops the
    /// bytes at hand and is permanent: each later call returns it.
    pub fn feed(&mut self, piece: &[u8]) -> Result<Fed, FrameFault>
        ensures ok { IfOk result (λ fed. Takes self.old.held piece.now fed.taken fed.whole self.new.held) }
        ensures err { IfErr result (λ fault. FailsAs self.old.held piece.now fault self.new.held) }
        ensures small { length self.new.held.bytes ≤ 65538 }
        // Once it has room for the longest record, it keeps that, and never answers Memory.
        ensures memory { IfErr result (LacksRoom self.old) }
        ensures taken { IfOk result (λ fed. 0 < fed.taken → longest_record ≤ self.new.room) }
        ensures room { self.old.room ≤ self.new.room }
    {
        if let Some(fault) = self.fault {
            return Err(fault);
        }
        if self.ended {
            return Ok(Fed {
                taken: 0,
                whole: false,
            });
        }
        let at = Place {
            number: self.number,
            start: self.start,
            within: 0,
        };
        match advance(&mut self.bytes, at, piece) {
            Ok(taken) => Ok(Fed {
                taken,
                whole: is_whole(&self.bytes),
            }),
            Err(fault) => {
                self.bytes.clear();
                self.fault = Some(fault);
                Err(fault)
            }
        }
    }

    /// The number of bytes up to the next check: 1 before a type byte, then the missing length bytes, then the rest of the record.
    /// 0 while a record is complete, after MODEND, and after a fault.
    pub fn want(&self) -> usize
        ensures same { result ≡ want_of self.now.held }
        ensures none { (result == 0) ≡ (self.now.held.ended || (is_some self.now.held.fault || is_whole self.now.held.bytes)) }
    {
        if self.ended || self.fault.is_some() {
            return 0;
        }
        if self.bytes.is_empty() {
            return 1;
        }
        record_len(&self.bytes) - self.bytes.len()
    }

    /// Like `want`, with a look at the next bytes: between two records, if `ahead` begins with a supported type byte, the size of the
    /// whole record as far as its length bytes are in `ahead`.
    pub fn want_with(&self, ahead: &[u8]) -> usize
        ensures { result ≡ want_with self.now.held ahead.now }
    {
        let between = self.bytes.is_empty() && !self.ended && self.fault.is_none();
        match ahead {
            [kind, ..] if between && is_taken(*kind) => record_len(ahead),
            _ => self.want(),
        }
    }

    /// Whether `next` has passed a MODEND.
    pub fn ended(&self) -> bool
        ensures { result ≡ self.now.held.ended }
    {
        self.ended
    }

    /// The number of records passed by `next`: the number of the record at hand, from 0.
    pub fn number(&self) -> u32
        ensures { result ≡ self.now.held.number }
    {
        self.number
    }

    /// Goes on after the complete record at hand, whose number must be below 2^32 - 1.
    pub fn next(&mut self)
        requires whole { IsTrue (stands self.old.held) }
        requires number { self.old.held.number < 2 ^ 32 - 1 }
        ensures held { self.new.held ≡ passed self.old.held }
        ensures room { self.new.room ≡ self.old.room }
    {
        self.number += 1;
        self.start += self.bytes.len() as u64;
        self.ended = is_end(self.bytes[0]);
        self.bytes.clear();
    }

    /// The record at hand, if it is complete. `None` after a fault.
    pub fn raw(&self) -> Option<RawRecord<'_>>
        ensures stands { is_some result ≡ stands self.now.held }
        ensures kind { IfSome result (λ r. r.kind ≡ (front_record self.now.held.bytes).kind) }
        ensures body { IfSome result (λ r. r.body.now ≡ (front_record self.now.held.bytes).body) }
        ensures number { IfSome result (λ r. r.number ≡ self.now.held.number) }
        ensures start { IfSome result (λ r. r.start ≡ self.now.held.start) }
        ensures sound { OnSome result (frame_fault (self.now.held.number == 0) self.now.held.bytes ≡ None) }
        ensures record { OnSome result (IsRecord (front_record self.now.held.bytes)) }
        ensures spelled { OnSome result (raw_bytes (front_record self.now.held.bytes) ≡ self.now.held.bytes) }
        ensures taken { IfSome result (λ r. IsTrue (is_taken r.kind)) }
        ensures small { IfSome result (λ r. length r.body.now ≤ 65534) }
    {
        if self.fault.is_some() {
            return None;
        }
        front(&self.bytes, self.number, self.start)
    }

    /// The record that `ahead` begins with, which are the next bytes, if it is complete there and has no framing fault. `None` before
    /// the second record, within a record, after MODEND and after a fault.
    ///
    /// It shows what `raw` would after `feed` of these bytes, and copies nothing.
    #[inline(always)]
    pub fn raw_ahead<'a>(&self, ahead: &'a [u8]) -> Option<RawRecord<'a>>
        ensures stands { is_some result ≡ shows_record self.now.held ahead.now }
        ensures between { OnSome result (IsBetween self.now.held) }
        ensures fed { OnSome result (Takes self.now.held ahead.now (record_len ahead.now) true (with_bytes self.now.held (present ahead.now))) }
        ensures kind { IfSome result (λ r. r.kind ≡ (front_record (present ahead.now)).kind) }
        ensures body { IfSome result (λ r. r.body.now ≡ (front_record (present ahead.now)).body) }
        ensures number { IfSome result (λ r. r.number ≡ self.now.held.number) }
        ensures start { IfSome result (λ r. r.start ≡ self.now.held.start) }
        ensures sound { OnSome result (frame_fault (self.now.held.number == 0) (present ahead.now) ≡ None) }
        ensures record { OnSome result (IsRecord (front_record (present ahead.now))) }
        ensures spelled { OnSome result (raw_bytes (front_record (present ahead.now)) ≡ present ahead.now) }
        ensures taken { IfSome result (λ r. IsTrue (is_taken r.kind)) }
        ensures small { IfSome result (λ r. length r.body.now ≤ 65534) }
        ensures whole { OnSome result (is_whole (present ahead.now) ≡ true) }
        ensures present { OnSome result (record_len ahead.now ≤ length ahead.now) }
    {
        if let Some(_fault) = self.fault {
            return None;
        }
        if self.number == 0 || self.ended || self.bytes.len() != 0 {
            return None;
        }
        whole_front(ahead, self.number, self.start)
    }

    /// Goes on after the record that `raw_ahead` shows, as `next` would after `feed` of these bytes. Returns its size in bytes. The
    /// record's number must be below 2^32 - 1.
    #[inline(always)]
    pub fn pass(&mut self, ahead: &[u8]) -> usize
        requires between { IsBetween self.old.held }
        requires sound { frame_fault (self.old.held.number == 0) (present ahead.now) ≡ None }
        requires number { self.old.held.number < 2 ^ 32 - 1 }
        ensures passed { self.new.held ≡ passed (with_bytes self.old.held (present ahead.now)) }
        ensures room { self.new.room ≡ self.old.room }
        ensures size { result ≡ record_len ahead.now }
    {
        let size = record_len(ahead);
        self.number += 1;
        self.start += size as u64;
        self.ended = is_end(ahead[0]);
        size
    }

    /// Whether the input may end here. The record at hand must not be complete, unless it is a MODEND.
    ///
    /// `Ok` if MODEND is complete or was passed. Errors: a fault of `feed`; else `Cut` inside a record, and `NoEnd` between records.
    /// The last two are not permanent.
    pub fn stop(&self) -> Result<(), FrameFault>
        requires { IsTrue (stands self.now.held) → IsTrue (is_end (slice_index self.now.held.bytes 0)) }
        ensures { result ≡ stop_of self.now.held }
    {
        if let Some(fault) = self.fault {
            return Err(fault);
        }
        if self.ended || is_whole(&self.bytes) {
            return Ok(());
        }
        let within = self.bytes.len() as u32;
        let reason = if within == 0 {
            Reason::NoEnd
        } else {
            Reason::Cut
        };
        let place = Place {
            number: self.number,
            start: self.start,
            within,
        };
        Err(FrameFault::Refused(reason, place))
    }
}

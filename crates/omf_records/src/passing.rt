//! Going past a FIXUP without keeping it, if it uses no thread and has no fault (TIS OMF 1.1, "FIXUPP").
ghost use Rattle.std.specs.Prelude.{◌≡◌, ◌≤◌, ◌+◌, ◌*◌, ◌/◌, ◌%◌, ⊤, [], true, false, nat_lt, IfSome, get_or};
ghost use Rattle.omf_records.specs.Entries.{wrong_location, wrong_methods};
ghost use Rattle.omf_records.specs.Inner.EntryReaders.{datum_reader, displacement_reader, subrecord_reader};
ghost use Rattle.omf_records.specs.Inner.Names.{has_frame_datum};
ghost use Rattle.omf_records.specs.Inner.Passing.{IsEntry, IsSound, IsWithin, Passes, PassesNext, rooms};
ghost use Rattle.omf_records.specs.Values.{frame_bits, frame_by_thread, target_by_thread, target_bits};

use crate::field::{index, number};
use crate::fixup::FIXUP_LIMIT;
use crate::here::Here;
use crate::subrecord::{Subrecord, has_displacement, has_frame_datum};
use crate::unread::Unread;
use omf_frame::Index;

/// The size in bytes of a location by bit M and its type, as one number of five bits; 0 if it is refused.
const ROOMS: [u8; 32] = [
    1, 2, 0, 0, 0, 2, 0, 0, 0, 4, 0, 0, 0, 4, 0, 0, 1, 2, 2, 4, 1, 2, 0, 0, 0, 4, 0, 6, 0, 4, 0, 0,
];

/// The size in bytes of the location of a FIXUP with this first byte; 0 if it is refused.
#[inline(always)]
pub(crate) fn room(high: u8) -> u8
    ensures { result ≡ get_or rooms (high / 4 % 32) 0 }
{
    ROOMS[usize::from(high / 4 % 32)]
}

/// Whether these two bytes begin a FIXUP, and its location is within data of `len` bytes.
#[inline(always)]
fn is_within(high: u8, low: u8, len: usize) -> bool
    ensures high { result ≡ true → 128 ≤ high }
    ensures location { result ≡ true → wrong_location (high * 256 + low) ≡ [] }
    ensures within { result ≡ true → IsWithin len (high * 256 + low) }
{
    if high < 128 {
        return false;
    }
    let room = room(high);
    if room == 0 {
        return false;
    }
    usize::from(u16::from(high % 4) * 256 + u16::from(low) + u16::from(room)) <= len
}

/// The upper halves of the fix data bytes with a frame method of their own (F0, F1, F2, F4, F5), bit by bit.
const OWN_FRAMES: u32 = 0x37;

/// The lower halves of the fix data bytes with a target method of their own (T0, T1, T2, with a displacement or without), bit by bit.
const OWN_TARGETS: u32 = 0x77;

/// Whether a fix data byte is valid and names no thread.
#[inline(always)]
pub(crate) fn is_own(fix: u8) -> bool
    ensures methods { result ≡ true → wrong_methods fix ≡ [] }
    ensures frame { result ≡ true → frame_by_thread fix ≡ false }
    ensures target { result ≡ true → target_by_thread fix ≡ false }
{
    if (OWN_FRAMES >> (fix / 16)) % 2 == 0 {
        return false;
    }
    (OWN_TARGETS >> (fix % 16)) % 2 == 1
}

/// Whether an index is that of an entry of a table of `count` entries.
#[inline(always)]
fn is_entry(index: Index, count: usize) -> bool
    ensures low { result ≡ true → 1 ≤ index }
    ensures high { result ≡ true → index ≤ count }
{
    usize::from(index.0).wrapping_sub(1) < count
}

/// Goes past the index at `here`, if it is that of an entry of a table of `count` entries.
#[inline(always)]
fn pass_index<'a>(here: Here<'a>, count: usize) -> Option<Here<'a>>
    ensures { IfSome result (Passes (IsEntry count) here.entry.wide ((datum_reader true).read here.entry.within here.entry.bytes.now)) }
{
    match index(here) {
        Ok((entry, after)) => {
            if is_entry(entry, count) {
                Some(after)
            } else {
                None
            }
        }
        Err(_) => None,
    }
}

/// Goes past the index of a frame at `here`, if there is one. It must be that of an entry.
#[inline(always)]
fn pass_frame<'a>(here: Here<'a>, fix: u8, counts: &[usize; 4]) -> Option<Here<'a>>
    requires { frame_by_thread fix ≡ false }
    ensures { IfSome result (Passes (λ d. nat_lt (frame_bits fix) 3 ≡ true → IsEntry (get_or counts.now (frame_bits fix) 0) d) here.entry.wide ((datum_reader (has_frame_datum fix)).read here.entry.within here.entry.bytes.now)) }
{
    if has_frame_datum(fix) {
        pass_index(here, counts[usize::from(fix / 16 % 4)])
    } else {
        Some(here)
    }
}

/// Goes past the displacement at `here`, if there is one.
#[inline(always)]
fn pass_displacement<'a>(here: Here<'a>, is_there: bool) -> Option<Here<'a>>
    ensures { IfSome result (Passes (λ d. ⊤) here.entry.wide ((displacement_reader here.entry.wide is_there).read here.entry.within here.entry.bytes.now)) }
{
    if !is_there {
        return Some(here);
    }
    match number(here) {
        Ok((_, after)) => Some(after),
        Err(_) => None,
    }
}

/// Goes past the FIXUP at `here`, if it is sound.
#[inline(always)]
fn pass_fixup<'a>(here: Here<'a>, counts: &[usize; 4], len: usize) -> Option<Here<'a>>
    ensures { IfSome result (Passes (IsSound counts.now len) here.entry.wide ((subrecord_reader here.entry.wide).read here.entry.within here.entry.bytes.now)) }
{
    match here.bytes() {
        [high, low, fix, ..] => {
            if !is_within(*high, *low, len) || !is_own(*fix) {
                return None;
            }
            let Some(framed) = pass_frame(here.pass(3), *fix, counts) else {
                return None;
            };
            let Some(aimed) = pass_index(framed, counts[usize::from(*fix % 4)]) else {
                return None;
            };
            pass_displacement(aimed, has_displacement(*fix))
        }
        _ => None,
    }
}

/// `pass_fixup`, compiled twice: where the longest FIXUP fits, the tests whether a field is there are left out.
#[inline(always)]
fn pass_next<'a>(here: Here<'a>, counts: &[usize; 4], len: usize) -> Option<Here<'a>>
    ensures { IfSome result (Passes (IsSound counts.now len) here.entry.wide ((subrecord_reader here.entry.wide).read here.entry.within here.entry.bytes.now)) }
{
    if here.bytes().len() < FIXUP_LIMIT {
        return pass_fixup(here, counts, len);
    }
    pass_fixup(here, counts, len)
}

impl<'a> Unread<Subrecord<'a>> {
    /// Goes on after the next subrecord, if it is a FIXUP that uses no thread and has no fault. `counts` has the numbers of segments,
    /// groups and externals, and then 0; `len` is the number of data bytes of the last data record, 0 if it is no LEDATA. Returns false,
    /// and changes nothing, if the subrecord is another, and may do so if it is such a FIXUP.
    #[inline(always)]
    pub fn pass_direct(&mut self, counts: &[usize; 4], len: usize) -> bool
        ensures passed { result ≡ true → PassesNext counts.now len self.old self.new }
        ensures items { result ≡ false → self.new ≡ self.old }
    {
        match pass_next(self.place(), counts, len) {
            Some(after) => {
                *self = Unread::new(after);
                true
            }
            None => false,
        }
    }
}

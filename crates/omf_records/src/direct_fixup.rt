//! Reading a FIXUP that uses no thread as numbers (TIS OMF 1.1, "FIXUPP").
ghost use Rattle.std.specs.Prelude.{◌≡◌, ◌≤◌, ◌+◌, ◌*◌, [], true, IfSome, IfNone, unwrap_or};
ghost use Rattle.omf_records.specs.Entries.{wrong_location, wrong_methods};
ghost use Rattle.omf_records.specs.Inner.DirectFixups.{index_or_zero, GivesDirect, IsDirectFixup};
ghost use Rattle.omf_records.specs.Inner.EntryReaders.{datum_reader, displacement_reader, subrecord_reader};
ghost use Rattle.omf_records.specs.Inner.Names.{has_frame_datum};
ghost use Rattle.omf_records.specs.Inner.Passing.{Passes};

use crate::bits::{FixByte, Locat};
use crate::field::{index, number};
use crate::here::Here;
use crate::item::{Cursor, Items};
use crate::passing::{is_own, room};
use crate::subrecord::{Subrecord, has_displacement, has_frame_datum};
use omf_frame::Index;

/// A FIXUP that uses no thread.
#[derive(Clone, Copy, Drop)]
pub struct DirectFixup {
    pub location: Locat,
    pub fix: FixByte,
    /// The index of the frame; 0 if its method has none.
    pub frame: Index,
    /// The index of the target.
    pub target: Index,
    /// The displacement from the target's address; 0 if the record gives none.
    pub displacement: u32,
}

/// The first two bytes of a FIXUP, if they are valid.
#[inline(always)]
fn location(high: u8, low: u8) -> Option<Locat>
    ensures high { IfSome result (λ l. 128 ≤ high) }
    ensures location { IfSome result (λ l. wrong_location (high * 256 + low) ≡ []) }
    ensures number { IfSome result (λ l. high * 256 + low ≡ l) }
{
    if high < 128 || room(high) == 0 {
        return None;
    }
    Some(Locat::known(u16::from(high) * 256 + u16::from(low)))
}

/// Reads the index at `here`.
#[inline(always)]
fn own_index<'a>(here: Here<'a>) -> Option<(Index, Here<'a>)>
    ensures { IfSome result (λ x. Passes (λ d. index_or_zero d ≡ x.0) here.entry.wide ((datum_reader true).read here.entry.within here.entry.bytes.now) x.1) }
{
    match index(here) {
        Ok((entry, after)) => Some((entry, after)),
        Err(_) => None,
    }
}

/// Reads the index of a frame at `here`, if there is one.
#[inline(always)]
fn own_frame<'a>(here: Here<'a>, fix: u8) -> Option<(Index, Here<'a>)>
    ensures { IfSome result (λ x. Passes (λ d. index_or_zero d ≡ x.0) here.entry.wide ((datum_reader (has_frame_datum fix)).read here.entry.within here.entry.bytes.now) x.1) }
{
    if has_frame_datum(fix) {
        own_index(here)
    } else {
        Some((Index(0), here))
    }
}

/// Reads the displacement at `here`, if there is one.
#[inline(always)]
fn own_displacement<'a>(here: Here<'a>, is_there: bool) -> Option<(u32, Here<'a>)>
    ensures { IfSome result (λ x. Passes (λ d. unwrap_or d 0 ≡ x.0) here.entry.wide ((displacement_reader here.entry.wide is_there).read here.entry.within here.entry.bytes.now) x.1) }
{
    if !is_there {
        return Some((0, here));
    }
    match number(here) {
        Ok((value, after)) => Some((value, after)),
        Err(_) => None,
    }
}

/// Reads the FIXUP at `here`, if it uses no thread.
#[inline(always)]
fn read_direct<'a>(here: Here<'a>) -> Option<(DirectFixup, Here<'a>)>
    ensures { IfSome result (λ x. Passes (IsDirectFixup x.0) here.entry.wide ((subrecord_reader here.entry.wide).read here.entry.within here.entry.bytes.now) x.1) }
{
    match here.bytes() {
        [high, low, fix, ..] => {
            let Some(location) = location(*high, *low) else {
                return None;
            };
            if !is_own(*fix) {
                return None;
            }
            let Some(frame) = own_frame(here.pass(3), *fix) else {
                return None;
            };
            let Some(target) = own_index(frame.1) else {
                return None;
            };
            let Some(displacement) = own_displacement(target.1, has_displacement(*fix)) else {
                return None;
            };
            let fixup = DirectFixup {
                location,
                fix: FixByte::known(*fix),
                frame: frame.0,
                target: target.0,
                displacement: displacement.0,
            };
            Some((fixup, displacement.1))
        }
        _ => None,
    }
}

impl<'a> Items<Subrecord<'a>> {
    /// Goes on after the next subrecord and returns its offset in the record and its numbers, if it is a FIXUP that uses no thread. Returns
    /// `None`, and changes nothing, for any other, and at the end.
    #[inline(always)]
    pub fn next_direct(&mut self) -> Option<(u32, DirectFixup)>
        ensures direct { IfSome result (λ x. GivesDirect self.old x.0 x.1 self.new) }
        ensures other { IfNone result (self.new ≡ self.old) }
    {
        let here = self.place();
        match read_direct(here) {
            Some((fixup, after)) => {
                *self = Items::known(after);
                Some((here.offset(), fixup))
            }
            None => None,
        }
    }
}

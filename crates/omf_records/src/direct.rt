//! Copying a FIXUP without decoding it, if it uses no thread and has no displacement of 0 (TIS OMF 1.1, "FIXUPP").
ghost use Rattle.std.specs.Prelude.{◌≡◌, ◌+◌, ◌≤◌, ◌++◌, ◌∷◌, [], ⊤, true, false, length, vec_len, vec_capacity, IfSome, IsOk};
ghost use Rattle.byteorder.specs.Endian.{little_bytes};
ghost use Rattle.omf_records.specs.Inner.Begins.{Begins};
ghost use Rattle.omf_records.specs.Inner.Direct.{begins_direct, Copies, IsNonzero, IsDirect, PutsNext};
ghost use Rattle.omf_records.specs.Inner.EntryReaders.{datum_reader, displacement_reader, subrecord_reader};
ghost use Rattle.omf_records.specs.Inner.Reads.{each};
ghost use Rattle.omf_records.specs.Shortest.{option_bytes, datum_bytes, subrecord_bytes};
ghost use Rattle.omf_records.specs.Values.{is_wide, width};

use crate::field::number;
use crate::fixup::{FIXUP_LIMIT, push_displacement, push_index};
use crate::here::Here;
use crate::subrecord::{Subrecord, datum, has_displacement, has_frame_datum};
use crate::unread::Unread;

/// Whether the bytes begin a FIXUP that uses no thread.
#[inline(always)]
fn begins_direct(bytes: &[u8]) -> bool
    ensures { result ≡ begins_direct bytes.now }
{
    match bytes {
        [high, _, fix, ..] => *high >= 128 && fix / 128 % 2 != 1 && fix / 8 % 2 != 1,
        _ => false,
    }
}

/// Appends the index at `here`. The room for it is reserved.
#[inline(always)]
fn copy_index<'a>(here: Here<'a>, out: &mut Vec<u8>) -> Here<'a>
    requires room { vec_len out.old + 2 ≤ vec_capacity out.old }
    requires read { IsOk ((datum_reader true).read here.within here.bytes.now) }
    ensures copied { Copies (λ d. ⊤) (option_bytes datum_bytes) here.entry.wide ((datum_reader true).read here.entry.within here.entry.bytes.now) out.old.items out.new.items result }
    ensures len { vec_len out.new ≤ vec_len out.old + 2 }
    ensures capacity { vec_capacity out.new ≡ vec_capacity out.old }
{
    match datum(here, true) {
        Ok((index, after)) => {
            push_index(out, &index);
            after
        }
        Err(_) => unreachable!(),
    }
}

/// Appends the index at `here`, if there is one. The room for it is reserved.
#[inline(always)]
fn copy_datum<'a>(here: Here<'a>, is_there: bool, out: &mut Vec<u8>) -> Here<'a>
    requires room { vec_len out.old + 2 ≤ vec_capacity out.old }
    requires read { IsOk ((datum_reader is_there).read here.within here.bytes.now) }
    ensures copied { Copies (λ d. ⊤) (option_bytes datum_bytes) here.entry.wide ((datum_reader is_there).read here.entry.within here.entry.bytes.now) out.old.items out.new.items result }
    ensures len { vec_len out.new ≤ vec_len out.old + 2 }
    ensures capacity { vec_capacity out.new ≡ vec_capacity out.old }
{
    if is_there {
        copy_index(here, out)
    } else {
        here
    }
}

/// Appends the displacement at `here`, if there is one. Returns `None` if it is 0. The room for it is reserved.
#[inline(always)]
#[tactic(auto, using(crate::specs::Inner::Begins::begins_itself, crate::specs::Inner::Begins::begins_more))]
fn copy_displacement<'a>(
    here: Here<'a>,
    is_there: bool,
    kind: u8,
    out: &mut Vec<u8>,
) -> Option<Here<'a>>
    requires room { vec_len out.old + 4 ≤ vec_capacity out.old }
    requires width { here.wide ≡ is_wide kind }
    requires read { IsOk ((displacement_reader here.wide is_there).read here.within here.bytes.now) }
    ensures copied { IfSome result (Copies IsNonzero (option_bytes (little_bytes (width kind))) here.entry.wide ((displacement_reader here.entry.wide is_there).read here.entry.within here.entry.bytes.now) out.old.items out.new.items) }
    ensures grows { Begins out.old.items out.new.items }
    ensures len { vec_len out.new ≤ vec_len out.old + 4 }
{
    if !is_there {
        return Some(here);
    }
    match number(here) {
        Ok((0, _)) => None,
        Ok((value, after)) => {
            push_displacement(out, kind, &Some(value));
            Some(after)
        }
        Err(_) => unreachable!(),
    }
}

/// Appends the first three bytes of a FIXUP. The room for them is reserved.
#[inline(always)]
fn push_head(out: &mut Vec<u8>, high: u8, low: u8, fix: u8)
    requires { vec_len out.old + 3 ≤ vec_capacity out.old }
    ensures items { out.new.items ≡ out.old.items ++ high ∷ low ∷ fix ∷ [] }
    ensures len { vec_len out.new ≡ vec_len out.old + 3 }
    ensures capacity { vec_capacity out.new ≡ vec_capacity out.old }
{
    out.push_reserved(high);
    out.push_reserved(low);
    out.push_reserved(fix);
}

/// Appends the FIXUP at `here`, which uses no thread. Returns `None` if its displacement is 0. The room for it is reserved.
#[inline(always)]
fn copy_direct<'a>(here: Here<'a>, kind: u8, out: &mut Vec<u8>) -> Option<Here<'a>>
    requires begins { begins_direct here.bytes.now ≡ true }
    requires room { vec_len out.old + 11 ≤ vec_capacity out.old }
    requires width { here.wide ≡ is_wide kind }
    requires read { IsOk (each (subrecord_reader here.wide).read here.within here.bytes.now) }
    ensures copied { IfSome result (Copies IsDirect (subrecord_bytes kind) here.entry.wide ((subrecord_reader here.entry.wide).read here.entry.within here.entry.bytes.now) out.old.items out.new.items) }
    ensures grows { Begins out.old.items out.new.items }
    ensures len { vec_len out.new ≤ vec_len out.old + 11 }
{
    match here.bytes() {
        [high, low, fix, ..] => {
            push_head(out, *high, *low, *fix);
            let framed = copy_datum(here.pass(3), has_frame_datum(*fix), out);
            let aimed = copy_index(framed, out);
            copy_displacement(aimed, has_displacement(*fix), kind, out)
        }
        _ => None,
    }
}

/// Appends the FIXUP at `here`, if it uses no thread and has no displacement of 0. The room for it is reserved.
#[inline(always)]
#[tactic(auto, using(crate::specs::Inner::Begins::begins_itself))]
fn copy_fixup<'a>(here: Here<'a>, kind: u8, out: &mut Vec<u8>) -> Option<Here<'a>>
    requires room { vec_len out.old + 11 ≤ vec_capacity out.old }
    requires width { here.wide ≡ is_wide kind }
    requires read { IsOk (each (subrecord_reader here.wide).read here.within here.bytes.now) }
    ensures copied { IfSome result (Copies IsDirect (subrecord_bytes kind) here.entry.wide ((subrecord_reader here.entry.wide).read here.entry.within here.entry.bytes.now) out.old.items out.new.items) }
    ensures grows { Begins out.old.items out.new.items }
    ensures len { vec_len out.new ≤ vec_len out.old + 11 }
{
    if begins_direct(here.bytes()) {
        copy_direct(here, kind, out)
    } else {
        None
    }
}

/// `copy_fixup`, compiled twice: where the longest FIXUP fits, the tests whether a field is there are left out.
#[inline(always)]
fn copy_next<'a>(here: Here<'a>, kind: u8, out: &mut Vec<u8>) -> Option<Here<'a>>
    requires room { vec_len out.old + 11 ≤ vec_capacity out.old }
    requires width { here.wide ≡ is_wide kind }
    requires read { IsOk (each (subrecord_reader here.wide).read here.within here.bytes.now) }
    ensures copied { IfSome result (Copies IsDirect (subrecord_bytes kind) here.entry.wide ((subrecord_reader here.entry.wide).read here.entry.within here.entry.bytes.now) out.old.items out.new.items) }
    ensures grows { Begins out.old.items out.new.items }
    ensures len { vec_len out.new ≤ vec_len out.old + 11 }
{
    if here.bytes().len() < FIXUP_LIMIT {
        return copy_fixup(here, kind, out);
    }
    copy_fixup(here, kind, out)
}

impl<'a> Unread<Subrecord<'a>> {
    /// Appends the next subrecord in its shortest encoding, in a FIXUPP of type `kind`, and goes on after it. Returns false, and
    /// changes nothing, unless it is a FIXUP that uses no thread and has no displacement of 0, and `out` has room for
    /// `FIXUP_LIMIT` bytes.
    #[inline(always)]
    #[tactic(auto, using(crate::specs::Inner::Begins::begins_front))]
    pub fn put_direct(&mut self, kind: u8, out: &mut Vec<u8>) -> bool
        requires { IsOk self.old.items }
        ensures put { result ≡ true → PutsNext kind self.old self.new out.old.items out.new.items }
        ensures items { result ≡ false → self.new ≡ self.old }
        ensures bytes { result ≡ false → out.new.items ≡ out.old.items }
        ensures short { length out.new.items ≤ length out.old.items + 11 }
    {
        let len = out.len();
        let here = self.place();
        if out.capacity() - len < FIXUP_LIMIT || here.is_wide() != (kind % 2 == 1) {
            return false;
        }
        match copy_next(here, kind, out) {
            Some(after) => {
                *self = Unread::new(after);
                true
            }
            None => {
                out.truncate(len);
                false
            }
        }
    }
}

//! Checking a record, and keeping what it defines.

ghost use Rattle.std.specs.Prelude.{◌≡◌, ◌≤◌, ◌<◌, ◌+◌, ◌^◌, ◌++◌, length, OnOk, IsTrue, IfErr, Ok, None, Some, false};
ghost use Rattle.omf_check.specs.Inner.Names.{segment_info};
ghost use Rattle.omf_check.specs.Rules.{item_limit};
ghost use Rattle.omf_image.specs.Limits.{profile_limits};
ghost use Rattle.omf_check.specs.Inner.Kept.{starts, alike, with_record, with_contents, IsBounded};
ghost use Rattle.omf_check.specs.Inner.Judging.{IsNoFixupp, raw_fault, rec_of};
ghost use Rattle.omf_check.specs.Inner.Plain.{plain_fault};
ghost use Rattle.omf_check.specs.declared.last_data.LastData.TheVariants.{Plain};
ghost use Rattle.omf_frame.specs.Framing.{is_taken};
ghost use Rattle.omf_records.specs.Inner.Seen.{contents_seen, kind_seen, odd_if, rec_seen};
ghost use Rattle.omf_records.specs.Valued.{is_fixupp};

use crate::last_data::LastData;
use crate::profile::Profile;
use crate::rule::{fault, lesser};
use crate::segment::SegInfo;
use crate::table::Tables;
use omf_frame::{RawRecord, Width};
use omf_records::{
    Item, Items, LayoutFault, PlainData, Rec, Segment, plain_data, unread_fixups, view,
};
use std::alloc::AllocError;

/// The segment that a SEGDEF defines.
fn segment_info(width: Width, segment: &Segment) -> SegInfo
    ensures { result ≡ segment_info (odd_if width 0x98) segment.now }
{
    let length = match (segment.attribute.is_big(), width) {
        (true, Width::Bits16) => 65_536,
        (true, Width::Bits32) => 4_294_967_296,
        (false, Width::Bits16 | Width::Bits32) => u64::from(segment.size),
    };
    SegInfo {
        length,
        absolute: segment.absolute,
        name: segment.name.item.0,
        class: segment.class.item.0,
    }
}

/// Appends the offset of each item in the module; their record starts at `at`.
fn add_starts<T: Item>(places: &mut Vec<u64>, at: u64, items: Items<T>) -> Result<(), AllocError>
    requires { at < 2 ^ 40 }
    ensures { OnOk result (places.new.items ≡ places.old.items ++ starts at items) }
{
    for item in items {
        places.push(at + u64::from(item.within))?;
    }
    Ok(())
}

/// Appends `value` once for each item.
fn add_alike<T: Item>(
    values: &mut Vec<bool>,
    value: bool,
    items: Items<T>,
) -> Result<(), AllocError>
    ensures { OnOk result (values.new.items ≡ values.old.items ++ alike value items) }
{
    for _item in items {
        values.push(value)?;
    }
    Ok(())
}

impl Tables {
    /// Keeps the offsets of external names, either all local or none.
    fn add_externals<T: Item>(
        &mut self,
        at: u64,
        is_local: bool,
        items: Items<T>,
    ) -> Result<(), AllocError>
        requires { at < 2 ^ 40 }
        ensures { OnOk result (self.new ≡ record self.old { externals = self.old.externals ++ starts at items; locals = self.old.locals ++ alike is_local items }) }
    {
        add_starts(&mut self.externals, at, items.iter())?;
        add_alike(&mut self.locals, is_local, items)
    }

    /// Keeps what a record other than a FIXUPP defines. The record starts at offset `at` of the module.
    fn add_contents(&mut self, at: u64, rec: &Rec<'_>) -> Result<(), AllocError>
        requires start { at < 2 ^ 40 }
        requires other { IsNoFixupp (contents_seen rec.now) }
        ensures { OnOk result (self.new ≡ with_contents self.old at (kind_seen rec.now) (contents_seen rec.now)) }
    {
        match rec {
            Rec::Names(items) => add_starts(&mut self.names, at, items.iter()),
            Rec::LocalNames(items) => add_starts(&mut self.names, at, items.iter()),
            Rec::Segment { width, segment } => {
                self.segments.push(segment_info(*width, segment))?;
                Ok(self.attributes.push(segment.attribute.byte())?)
            }
            Rec::Group { .. } => Ok(self.groups.push(at)?),
            Rec::Externs(items) => self.add_externals(at, false, items.iter()),
            Rec::LocalExterns { externs, .. } => self.add_externals(at, true, externs.iter()),
            Rec::Communals(items) => self.add_externals(at, false, items.iter()),
            Rec::LocalCommunals(items) => self.add_externals(at, true, items.iter()),
            Rec::Plain { data, .. } => {
                self.last = Some(LastData::Plain(data.len()));
                Ok(())
            }
            Rec::Iterated { .. } => {
                self.last = Some(LastData::Iterated);
                Ok(())
            }
            Rec::ModEnd { .. } => {
                self.end = at;
                Ok(())
            }
            Rec::Fixups { .. } => unreachable!(),
            Rec::Header { .. }
            | Rec::Comment { .. }
            | Rec::Publics { .. }
            | Rec::LocalPublics { .. }
            | Rec::Carried { .. } => Ok(()),
        }
    }

    /// Keeps all that later records need of a record other than a FIXUPP. The record starts at offset `at` of the module.
    fn add(&mut self, at: u64, rec: &Rec<'_>) -> Result<(), AllocError>
        requires start { at < 2 ^ 40 }
        requires other { IsNoFixupp (contents_seen rec.now) }
        requires items { self.old.items < item_limit }
        ensures { OnOk result (self.new ≡ with_record self.old at (rec_seen rec.now)) }
    {
        self.items += 1;
        self.add_contents(at, rec)
    }

    /// Checks an LEDATA, and keeps the number of its data bytes if it has no fault. A fault of its layout precedes all others.
    #[inline(always)]
    fn take_plain(&mut self, read: Result<PlainData<'_>, LayoutFault>) -> Option<LayoutFault>
        requires { self.old.items ≤ item_limit }
        ensures found { result ≡ plain_fault self.old read.entry }
        ensures kept { (d : _) → read.entry ≡ Ok d → result ≡ None → self.new ≡ record self.old { items = self.old.items + 1; last = Some (Plain (length d.bytes)) } }
    {
        let plain = match read {
            Ok(plain) => plain,
            Err(found) => return Some(found),
        };
        let size = plain.bytes.len();
        let found = lesser(
            self.item_fault(),
            self.data_fault(&plain.segment, &plain.offset, size),
        );
        if found.is_none() {
            self.items += 1;
            self.last = Some(LastData::Plain(size));
        }
        found
    }

    /// Checks a record other than a FIXUPP or an LEDATA, and keeps what it defines. Returns its first fault, or no fault if memory ran out.
    #[inline(never)]
    fn take_other(
        &mut self,
        profile: Profile,
        raw: RawRecord<'_>,
    ) -> Result<(), Option<LayoutFault>>
        requires taken { IsTrue (is_taken raw.kind) }
        requires other { is_fixupp raw.kind ≡ false }
        requires short { length raw.body.now ≤ 65534 }
        requires start { raw.start < 2 ^ 40 }
        requires bounded { IsBounded self.old }
        ensures sound { OnOk result (raw_fault profile profile_limits self.old raw.entry.kind raw.entry.body.now ≡ None) }
        ensures kept { OnOk result (self.new ≡ with_record self.old raw.entry.start (rec_of raw.entry.kind raw.entry.body.now)) }
        ensures bounded { OnOk result (IsBounded self.new) }
        ensures cause { IfErr result (λ found. found ≡ raw_fault profile profile_limits self.old raw.entry.kind raw.entry.body.now) }
    {
        // A typed record is large: it is seen where it is, and not moved.
        let viewed = view(raw);
        let rec = match &viewed {
            Ok(rec) => rec,
            Err(found) => return Err(Some(fault(found.within, found.reason))),
        };
        if let Some(found) = self.record_fault(profile, rec) {
            return Err(Some(found));
        }
        match self.add(raw.start, rec) {
            Ok(()) => Ok(()),
            Err(AllocError) => Err(None),
        }
    }

    /// Checks the next record, and keeps what it defines. Returns its first fault, or no fault if memory ran out. FIXUPPs and LEDATAs are most
    /// records: they are checked where it is called, and an error is small, since it is made there.
    #[inline(always)]
    pub fn take(&mut self, profile: Profile, raw: RawRecord<'_>) -> Result<(), Option<LayoutFault>>
        requires taken { IsTrue (is_taken raw.kind) }
        requires short { length raw.body.now ≤ 65534 }
        requires start { raw.start < 2 ^ 40 }
        requires bounded { IsBounded self.old }
        ensures sound { OnOk result (raw_fault profile profile_limits self.old raw.entry.kind raw.entry.body.now ≡ None) }
        ensures kept { OnOk result (self.new ≡ with_record self.old raw.entry.start (rec_of raw.entry.kind raw.entry.body.now)) }
        ensures bounded { OnOk result (IsBounded self.new) }
        ensures cause { IfErr result (λ found. found ≡ raw_fault profile profile_limits self.old raw.entry.kind raw.entry.body.now) }
    {
        if let Some(subrecords) = unread_fixups(&raw) {
            return match self.take_fixups(subrecords) {
                Some(found) => Err(Some(found)),
                None => Ok(()),
            };
        }
        if let Some(read) = plain_data(&raw) {
            return match self.take_plain(read) {
                Some(found) => Err(Some(found)),
                None => Ok(()),
            };
        }
        self.take_other(profile, raw)
    }
}

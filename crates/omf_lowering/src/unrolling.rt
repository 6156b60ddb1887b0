//! What a module has up to a record, and after one more record.

ghost use Rattle.std.specs.Prelude.{◌≡◌, ◌≤◌, ◌+◌, ◌*◌, ◌++◌, [], ◌∷◌, IfOk, IfSome, OnOk, IsTrue, None, Ok, Some, flat_map, length, nat_le, option_map};
ghost use Rattle.omf_check.specs.Inner.Judging.{IsShort};
ghost use Rattle.omf_check.specs.Rules.{item_limit};
ghost use Rattle.omf_frame.specs.Framing.{is_taken, raw_bytes};
ghost use Rattle.omf_records.specs.Inner.Reading.{read_body};
ghost use Rattle.omf_records.specs.Inner.Reads.{and_then};
ghost use Rattle.omf_records.specs.Inner.Seen.{contents_seen, kind_seen};
ghost use Rattle.omf_records.specs.Values.{Fixup as FixupItem};
ghost use Rattle.omf_lowering.specs.Inner.Rolling.{AreIn, IsStep, blocks_seen};
ghost use Rattle.omf_lowering.specs.Inner.State.{seen};
ghost use Rattle.omf_lowering.specs.Inner.Turns.{offsets_of};
ghost use Rattle.omf_lowering.specs.Unrolled.{after_contents, after_fixups, after_part, after_record, after_subrecords, begun, copied, kept, location_of, start, with_copies};

use crate::copies::Copies;
use crate::fault::Stop;
use crate::fixups::{Fixup, fixupp, fixupp_of, has_fixup};
use crate::iterated::{Iterated, blocks_of, ledata, same, same_if};
use crate::location::{Location, location_of, overlaps_one};
use crate::pieces::is_taken;
use crate::record::{Front, Record};
use crate::spreading::copies_of;
use omf_frame::{RawRecord, Reason};
use omf_records::{At, Items, LayoutFault, Part, Rec, Subrecord, view};
use std::alloc::{AllocError, Global};
use std::marker::Model;

/// The most records of a module.
const RECORD_LIMIT: u64 = 1_048_576;

/// What a module has up to a record: the LIDATA that its fixups are for, if it is one that has blocks within the limits; the locations of the fixups after
/// it; and what replaces the records so far.
#[derive(Drop)]
pub(crate) struct Unrolling<'a> {
    blocks: Option<Iterated<'a>>,
    taken: Vec<Location>,
    records: Vec<Record>,
}

impl<'a> Model for Unrolling<'a> {
    ghost use Rattle.std.specs.Prelude.{IfSome, option_map};
    ghost use Rattle.omf_lowering.specs.Inner.Rolling.{AreIn, blocks_seen};
    ghost use Rattle.omf_lowering.specs.Unrolled.{Before};

    ghost Value = { Before };

    ghost view = { λ u. record { blocks = option_map blocks_seen u.blocks; taken = u.taken.items; records = u.records.items } };

    ghost invariant = { λ u. IfSome u.blocks AreIn };
}

/// A fault at an offset in a record.
fn fault(within: u32, reason: Reason) -> LayoutFault
    ensures { result ≡ record { within = within; reason = reason } }
{
    LayoutFault { reason, within }
}

/// Appends the records of a copy of the location of a fixup.
fn push_copy(
    alloc: Global,
    records: &mut Vec<Record>,
    data: &Iterated<'_>,
    fixup: &Fixup<'_>,
    copy: u64,
) -> Result<(), AllocError>
    ensures { OnOk result (records.new.items ≡ records.old.items ++ copied fixup.now.kind (blocks_seen data.now) fixup.now.locat fixup.now.reference.now (copy ∷ [])) }
{
    let data_record = ledata(alloc, data, location_of(fixup.locat), copy)?;
    let fixup_record = fixupp(alloc, fixup)?;
    records.push(data_record)?;
    records.push(fixup_record)?;
    Ok(())
}

/// Appends the records of the copies of the location of a fixup.
fn push_copies(
    alloc: Global,
    records: &mut Vec<Record>,
    data: &Iterated<'_>,
    fixup: &Fixup<'_>,
    copies: &[u64],
) -> Result<(), AllocError>
    ensures { OnOk result (records.new.items ≡ records.old.items ++ copied fixup.now.kind (blocks_seen data.now) fixup.now.locat fixup.now.reference.now copies.now) }
{
    for copy in copies {
        push_copy(alloc, records, data, fixup, *copy)?;
    }
    Ok(())
}

/// Whether there is room for two records of each copy.
fn has_room(records: usize, copies: &Copies) -> bool
    ensures { result ≡ nat_le (records + 2 * length (offsets_of copies.now)) item_limit }
{
    let more = copies.count().saturating_mul(2);
    more.saturating_add(records as u64) <= RECORD_LIMIT
}

impl<'a> Unrolling<'a> {
    /// Nothing, before the first record.
    pub(crate) fn new(alloc: Global) -> Unrolling<'a>
        ensures { result ≡ start }
    {
        Unrolling {
            blocks: None,
            taken: Vec::new(alloc),
            records: Vec::new(alloc),
        }
    }

    /// Takes a fixup whose location has these copies.
    fn take_copies(
        &mut self,
        alloc: Global,
        data: &Iterated<'_>,
        fixup: &Fixup<'_>,
        copies: &Copies,
    ) -> Result<(), Stop>
        ensures { IsStep result self.new (with_copies fixup.now.kind (blocks_seen data.now) self.old fixup.now.within fixup.now.locat fixup.now.reference.now (Some (offsets_of copies.now))) }
    {
        let location = location_of(fixup.locat);
        if overlaps_one(&location, &self.taken) {
            return Err(Stop::At(fault(fixup.within, Reason::FixupOnIterated)));
        }
        if !has_room(self.records.len(), copies) {
            return Err(Stop::At(fault(fixup.within, Reason::TooMany)));
        }
        let offsets = copies.offsets(alloc)?;
        push_copies(alloc, &mut self.records, data, fixup, &offsets)?;
        Ok(self.taken.push(location)?)
    }

    /// Takes a fixup.
    fn take_fixup(
        &mut self,
        alloc: Global,
        data: &Iterated<'_>,
        fixup: &Fixup<'_>,
    ) -> Result<(), Stop>
        requires { AreIn data.now }
        ensures { IsStep result self.new (after_part fixup.now.kind (blocks_seen data.now) self.old fixup.now.within (FixupItem fixup.now.locat fixup.now.reference.now)) }
    {
        match copies_of(alloc, data.blocks, location_of(fixup.locat)) {
            Ok(Some(copies)) => self.take_copies(alloc, data, fixup, &copies),
            Ok(None) => Err(Stop::At(fault(fixup.within, Reason::OutsideRecord))),
            Err(_) => Err(Stop::Memory),
        }
    }

    /// Takes a subrecord of a FIXUPP of a type for an LIDATA.
    fn take_subrecord(
        &mut self,
        alloc: Global,
        data: &Iterated<'_>,
        kind: u8,
        next: &At<Subrecord<'_>>,
    ) -> Result<(), Stop>
        requires { AreIn data.now }
        ensures { IsStep result self.new (after_part kind (blocks_seen data.now) self.old next.now.within next.now.item) }
    {
        match &next.item.part {
            Part::Thread { .. } => {
                let record = fixupp_of(alloc, kind, &next.item)?;
                Ok(self.records.push(record)?)
            }
            Part::Fixup {
                location,
                reference,
            } => {
                let fixup = Fixup {
                    kind,
                    within: next.within,
                    locat: *location,
                    reference,
                };
                self.take_fixup(alloc, data, &fixup)
            }
        }
    }

    /// Takes the subrecords of a FIXUPP of a type for an LIDATA.
    fn take_all(
        &mut self,
        alloc: Global,
        data: &Iterated<'_>,
        kind: u8,
        subrecords: Items<Subrecord<'_>>,
    ) -> Result<(), Stop>
        requires { AreIn data.now }
        ensures { IsStep result self.new (after_subrecords kind (blocks_seen data.now) self.old subrecords.entry) }
    {
        for next in subrecords {
            self.take_subrecord(alloc, data, kind, &next)?;
        }
        Ok(())
    }

    /// Takes a record that is kept as it is.
    fn keep(&mut self, alloc: Global, front: &Front<'a>) -> Result<(), Stop>
        requires { length front.now.body.now ≤ 65534 }
        ensures { IsStep result self.new (Ok (kept self.old (seen front.now))) }
    {
        let record = Record::copied(alloc, front.kind, front.body, front.checksum)?;
        Ok(self.records.push(record)?)
    }

    /// Takes a data record, with no blocks that fixups after it are for.
    fn begin(&mut self, alloc: Global, front: &Front<'a>) -> Result<(), Stop>
        requires { length front.now.body.now ≤ 65534 }
        ensures { IsStep result self.new (Ok (begun None self.old (seen front.now))) }
    {
        let record = Record::copied(alloc, front.kind, front.body, front.checksum)?;
        self.records.push(record)?;
        self.blocks = None;
        self.taken.clear();
        Ok(())
    }

    /// Takes an LIDATA: the fixups after it are for these blocks, if there are any.
    fn begin_blocks(
        &mut self,
        alloc: Global,
        front: &Front<'a>,
        data: &Option<Iterated<'a>>,
    ) -> Result<(), Stop>
        requires short { length front.now.body.now ≤ 65534 }
        requires within { IfSome data.now AreIn }
        ensures { IsStep result self.new (Ok (begun (option_map blocks_seen data.now) self.old (seen front.now))) }
    {
        let record = Record::copied(alloc, front.kind, front.body, front.checksum)?;
        self.records.push(record)?;
        self.blocks = same_if(data);
        self.taken.clear();
        Ok(())
    }

    /// Takes a FIXUPP.
    fn take_fixups(
        &mut self,
        alloc: Global,
        front: &Front<'a>,
        subrecords: &Items<Subrecord<'a>>,
    ) -> Result<(), Stop>
        requires { length front.now.body.now ≤ 65534 }
        ensures { IsStep result self.new (after_fixups self.old.blocks self.old (seen front.now) subrecords.now) }
    {
        let data = match &self.blocks {
            Some(data) => same(data),
            None => return self.keep(alloc, front),
        };
        if has_fixup(subrecords.iter()) {
            self.take_all(alloc, &data, front.kind, subrecords.iter())
        } else {
            self.keep(alloc, front)
        }
    }

    /// Takes a record with these contents.
    fn take_contents(&mut self, alloc: Global, front: &Front<'a>, rec: &Rec<'a>) -> Result<(), Stop>
        requires body { length front.now.body.now ≤ 65534 }
        requires short { IsShort (contents_seen rec.now) }
        requires kind { kind_seen rec.now ≡ front.now.kind }
        ensures { IsStep result self.new (after_contents self.old (seen front.now) (contents_seen rec.now)) }
    {
        match rec {
            Rec::Plain { .. } => self.begin(alloc, front),
            Rec::Iterated {
                segment,
                offset,
                blocks,
            } => {
                let data = blocks_of(*segment, *offset, *blocks);
                self.begin_blocks(alloc, front, &data)
            }
            Rec::Fixups { subrecords, .. } => self.take_fixups(alloc, front, subrecords),
            _ => self.keep(alloc, front),
        }
    }

    /// Takes a record of this profile.
    fn read(&mut self, alloc: Global, front: &Front<'a>) -> Result<(), Stop>
        requires taken { IsTrue (is_taken front.now.kind) }
        requires short { length front.now.body.now ≤ 65534 }
        ensures { IsStep result self.new (and_then (read_body front.now.kind front.now.body.now) (after_contents self.old (seen front.now))) }
    {
        let raw = RawRecord {
            kind: front.kind,
            body: front.body,
            number: 0,
            start: 0,
        };
        match view(raw) {
            Ok(rec) => self.take_contents(alloc, front, &rec),
            Err(fault) => Err(Stop::At(fault)),
        }
    }

    /// Takes the next record.
    pub(crate) fn take(&mut self, alloc: Global, front: &Front<'a>) -> Result<(), Stop>
        requires { length front.now.body.now ≤ 65534 }
        ensures { IsStep result self.new (after_record self.old (seen front.now)) }
    {
        if is_taken(front.kind) {
            self.read(alloc, front)
        } else {
            self.keep(alloc, front)
        }
    }

    /// The bytes of the records.
    pub(crate) fn finish(self, alloc: Global) -> Result<Vec<u8>, AllocError>
        ensures { IfOk result (λ out. out.items ≡ flat_map raw_bytes self.entry.records) }
    {
        let mut out = Vec::new(alloc);
        put_all(&mut out, &self.records)?;
        Ok(out)
    }
}

/// Appends the bytes of records.
fn put_all(out: &mut Vec<u8>, records: &[Record]) -> Result<(), AllocError>
    ensures { OnOk result (out.new.items ≡ out.old.items ++ flat_map raw_bytes records.now) }
{
    for record in records {
        record.put(out)?;
    }
    Ok(())
}

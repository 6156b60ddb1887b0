//! The records so far, and what later records need of them.

ghost use Rattle.std.specs.Prelude.{◌≡◌, ◌≤◌, ◌++◌, [], None, ◌∷◌, IfErr, IfOk, OnOk, false, true, length, IsTrue, map, if◌then◌else◌};
ghost use Rattle.omf_frame.specs.Framing.{is_taken};
ghost use Rattle.omf_records.specs.Inner.Reading.{read_body};
ghost use Rattle.omf_records.specs.Inner.Reads.{and_then, or_none};
ghost use Rattle.omf_records.specs.Values.{is_wide};
ghost use Rattle.omf_lowering.specs.Comdats.{defined_by, growth, new_of, resolved};
ghost use Rattle.omf_lowering.specs.Externals.{external_record, externals_by};
ghost use Rattle.omf_lowering.specs.Inner.Readers.{comdat_whole};
ghost use Rattle.omf_lowering.specs.Inner.State.{State, IsStop, added, seen, state_of};
ghost use Rattle.omf_lowering.specs.Lowering.{fault_by, fault_of, is_bakpat, is_cextdef, is_comdat, is_late, is_nbkpat, is_vendext, named_fault};
ghost use Rattle.omf_lowering.specs.Patches.{patched, piece_in, pieces_from, with_patch};

use crate::bakpat::{backpatches_in, lower_named, lower_patches, named_in};
use crate::cextdef::lower_externals;
use crate::comdat::{comdat_in, is_continued};
use crate::fault::Stop;
use crate::instance::{Resolved, resolve};
use crate::instances::Instances;
use crate::laid::Pieces;
use crate::linsym::kept;
use crate::made::made;
use crate::pieces::{is_taken, piece_of, push_piece};
use crate::record::{Front, Record};
use crate::segments::{segments_fault, thread_fault};
use crate::tables::Tables;
use crate::values::Patch;
use omf_frame::{RawRecord, Reason};
use omf_image::Part;
use omf_records::{LayoutFault, view};
use std::alloc::{AllocError, Global};
use std::marker::Model;

/// The records so far: their tables and COMDATs, their data, the values to add to these, the growths of lengths, and what replaces the records.
#[derive(Drop)]
pub(crate) struct Work<'a> {
    tables: Tables<'a>,
    instances: Instances<'a>,
    pieces: Pieces,
    patches: Vec<Patch>,
    growths: Vec<Patch>,
    records: Vec<Record>,
}

impl<'a> Model for Work<'a> {
    ghost use Rattle.omf_lowering.specs.Inner.State.{State};

    ghost Value = { State };

    ghost view = { λ w. record { before = record { tables = w.tables; instances = w.instances; records = w.records.items }; data_before = w.pieces; patches = w.patches.items; growths = w.growths.items } };
}

/// Reads the contents of a record of this profile, which will have a number: appends what it defines, and its data.
fn read<'a>(
    tables: &mut Tables<'a>,
    instances: &Instances<'a>,
    pieces: &mut Pieces,
    number: usize,
    front: &Front<'a>,
) -> Result<(), Stop>
    requires taken { IsTrue (is_taken front.now.kind) }
    requires short { length front.now.body.now ≤ 65534 }
    ensures tables { OnOk result (tables.new ≡ defined_by tables.old (seen front.now)) }
    ensures pieces { OnOk result (pieces.new ≡ pieces.old ++ piece_in number (seen front.now)) }
    ensures sound { OnOk result (named_fault tables.old instances.now (read_body front.now.kind front.now.body.now) ≡ None) }
    ensures err { IfErr result (λ stop. IsStop stop (named_fault tables.old instances.now (read_body front.now.kind front.now.body.now))) }
{
    let raw = RawRecord {
        kind: front.kind,
        body: front.body,
        number: 0,
        start: 0,
    };
    let rec = match view(raw) {
        Ok(rec) => rec,
        Err(fault) => return Err(Stop::At(fault)),
    };
    if let Some(fault) = segments_fault(tables, instances, &rec) {
        return Err(Stop::At(fault));
    }
    if let Some(piece) = piece_of(number, front.body.len() as u32, &rec) {
        pieces.push(piece)?;
    }
    Ok(tables.define(&rec)?)
}

/// Reads the contents of a record, if it is of this profile.
fn read_taken<'a>(
    tables: &mut Tables<'a>,
    instances: &Instances<'a>,
    pieces: &mut Pieces,
    number: usize,
    front: &Front<'a>,
) -> Result<(), Stop>
    requires { length front.now.body.now ≤ 65534 }
    ensures tables { OnOk result (tables.new ≡ defined_by tables.old (seen front.now)) }
    ensures pieces { OnOk result (pieces.new ≡ pieces.old ++ piece_in number (seen front.now)) }
    ensures sound { OnOk result ((if is_taken front.now.kind then named_fault tables.old instances.now (read_body front.now.kind front.now.body.now) else None) ≡ None) }
    ensures err { IfErr result (λ stop. IsStop stop (if is_taken front.now.kind then named_fault tables.old instances.now (read_body front.now.kind front.now.body.now) else None)) }
{
    if is_taken(front.kind) {
        read(tables, instances, pieces, number, front)
    } else {
        Ok(())
    }
}

/// Appends a record and its data.
fn append(records: &mut Vec<Record>, pieces: &mut Pieces, next: Record) -> Result<(), AllocError>
    ensures records { OnOk result (records.new.items ≡ records.old.items ++ next ∷ []) }
    ensures pieces { OnOk result (pieces.new ≡ pieces.old ++ pieces_from (length records.old.items) (next ∷ [])) }
{
    push_piece(pieces, records.len(), &next)?;
    Ok(records.push(next)?)
}

/// Appends records and their data.
fn append_all(
    records: &mut Vec<Record>,
    pieces: &mut Pieces,
    added: Vec<Record>,
) -> Result<(), AllocError>
    ensures records { OnOk result (records.new.items ≡ records.old.items ++ added.items) }
    ensures pieces { OnOk result (pieces.new ≡ pieces.old ++ pieces_from (length records.old.items) added.items) }
{
    for record in added {
        append(records, pieces, record)?;
    }
    Ok(())
}

/// Appends what a continued COMDAT adds to the length of its segment.
fn push_growth(
    growths: &mut Vec<Patch>,
    pieces: &Pieces,
    of: &Resolved<'_>,
) -> Result<(), AllocError>
    ensures { OnOk result (growths.new.items ≡ growths.old.items ++ growth pieces.now of.now) }
{
    if !is_continued(of.item.flags) {
        return Ok(());
    }
    Ok(growths.push(Patch {
        number: of.own.number,
        at: 1,
        part: Part::Dword,
        value: pieces.past(of.own.segment.0, of.end),
    })?)
}

/// Appends the instance of a COMDAT, if it is new.
fn push_instance<'a>(instances: &mut Instances<'a>, of: Resolved<'a>) -> Result<(), AllocError>
    ensures { OnOk result (instances.new ≡ instances.old ++ new_of of.entry) }
{
    if is_continued(of.item.flags) {
        return Ok(());
    }
    Ok(instances.push(of.own)?)
}

/// A COMDAT with what it refers to; the records that replace those before are this many.
fn comdat_at<'a>(
    tables: &Tables<'a>,
    instances: &Instances<'a>,
    number: usize,
    front: &Front<'a>,
) -> Result<Resolved<'a>, LayoutFault>
    requires { length front.now.body.now ≤ 65534 }
    ensures { result ≡ and_then ((comdat_whole (is_wide front.now.kind)).read 3 front.now.body.now) (resolved tables.now instances.now number front.now.kind) }
{
    let item = comdat_in(front.body, front.kind % 2 == 1)?;
    resolve(tables, instances, number, front.kind, item)
}

/// Whether a record is a SEGDEF after a COMDAT.
fn is_late(instances: &Instances<'_>, kind: u8) -> bool
    ensures { result ≡ is_late instances.now kind }
{
    (kind == 0x98 || kind == 0x99) && !instances.is_empty()
}

impl<'a> Work<'a> {
    /// Nothing, before the first record.
    pub(crate) fn new(alloc: Global) -> Work<'a>
        ensures { result ≡ state_of [] }
    {
        Work {
            tables: Tables::new(alloc),
            instances: Instances::new(alloc),
            pieces: Pieces::new(alloc),
            patches: Vec::new(alloc),
            growths: Vec::new(alloc),
            records: Vec::new(alloc),
        }
    }

    /// Takes a record that is kept, but for a LINSYM.
    fn keep(&mut self, alloc: Global, front: &Front<'a>) -> Result<(), Stop>
        requires cextdef { is_cextdef front.now.kind ≡ false }
        requires bakpat { is_bakpat front.now.kind ≡ false }
        requires nbkpat { is_nbkpat front.now.kind ≡ false }
        requires comdat { is_comdat front.now.kind ≡ false }
        requires vendext { is_vendext front.now.kind ≡ false }
        requires short { length front.now.body.now ≤ 65534 }
        ensures ok { OnOk result (self.new ≡ added self.old (seen front.now)) }
        ensures sound { OnOk result (fault_by self.old.before self.old.data_before (seen front.now) ≡ None) }
        ensures err { IfErr result (λ stop. IsStop stop (fault_by self.old.before self.old.data_before (seen front.now))) }
    {
        if is_late(&self.instances, front.kind) {
            return Err(Stop::At(LayoutFault {
                reason: Reason::UnsupportedType,
                within: 0,
            }));
        }
        let record = kept(alloc, &self.tables, &self.instances, front)?;
        let number = self.records.len();
        read_taken(
            &mut self.tables,
            &self.instances,
            &mut self.pieces,
            number,
            front,
        )?;
        Ok(self.records.push(record)?)
    }

    /// Takes a COMDAT.
    fn take_comdat(&mut self, alloc: Global, front: &Front<'a>) -> Result<(), Stop>
        requires comdat { is_comdat front.now.kind ≡ true }
        requires short { length front.now.body.now ≤ 65534 }
        ensures ok { OnOk result (self.new ≡ added self.old (seen front.now)) }
        ensures sound { OnOk result (fault_by self.old.before self.old.data_before (seen front.now) ≡ None) }
        ensures err { IfErr result (λ stop. IsStop stop (fault_by self.old.before self.old.data_before (seen front.now))) }
    {
        let number = self.records.len();
        let of = match comdat_at(&self.tables, &self.instances, number, front) {
            Ok(of) => of,
            Err(fault) => return Err(Stop::At(fault)),
        };
        if let Some(fault) = thread_fault(&self.tables, &self.instances, &self.records) {
            return Err(Stop::At(fault));
        }
        push_growth(&mut self.growths, &self.pieces, &of)?;
        let replacing = made(alloc, front.kind, &of)?;
        append_all(&mut self.records, &mut self.pieces, replacing)?;
        Ok(push_instance(&mut self.instances, of)?)
    }

    /// Takes a BAKPAT.
    fn take_patches(&mut self, alloc: Global, front: &Front<'a>) -> Result<(), Stop>
        requires bakpat { is_bakpat front.now.kind ≡ true }
        requires short { length front.now.body.now ≤ 65534 }
        ensures ok { OnOk result (self.new ≡ added self.old (seen front.now)) }
        ensures sound { OnOk result (fault_by self.old.before self.old.data_before (seen front.now) ≡ None) }
        ensures err { IfErr result (λ stop. IsStop stop (fault_by self.old.before self.old.data_before (seen front.now))) }
    {
        let given = backpatches_in(alloc, front.kind % 2 == 1, front.body)?;
        self.pieces.hold_all()?;
        lower_patches(
            &mut self.patches,
            &self.pieces,
            &self.tables,
            &self.instances,
            &given,
        )
    }

    /// Takes an NBKPAT.
    fn take_named(&mut self, alloc: Global, front: &Front<'a>) -> Result<(), Stop>
        requires nbkpat { is_nbkpat front.now.kind ≡ true }
        requires short { length front.now.body.now ≤ 65534 }
        ensures ok { OnOk result (self.new ≡ added self.old (seen front.now)) }
        ensures sound { OnOk result (fault_by self.old.before self.old.data_before (seen front.now) ≡ None) }
        ensures err { IfErr result (λ stop. IsStop stop (fault_by self.old.before self.old.data_before (seen front.now))) }
    {
        let given = named_in(alloc, front.kind % 2 == 1, front.body)?;
        self.pieces.hold_all()?;
        lower_named(
            &mut self.patches,
            &self.pieces,
            &self.tables,
            &self.instances,
            given,
        )
    }

    /// Takes the next record.
    pub(crate) fn take(&mut self, alloc: Global, front: &Front<'a>) -> Result<(), Stop>
        requires { length front.now.body.now ≤ 65534 }
        ensures ok { OnOk result (self.new ≡ added self.old (seen front.now)) }
        ensures sound { OnOk result (fault_by self.old.before self.old.data_before (seen front.now) ≡ None) }
        ensures err { IfErr result (λ stop. IsStop stop (fault_by self.old.before self.old.data_before (seen front.now))) }
    {
        match front.kind {
            0xBC => lower_externals(alloc, &mut self.records, &self.tables, front.body),
            0xB2 | 0xB3 => self.take_patches(alloc, front),
            0xC8 | 0xC9 => self.take_named(alloc, front),
            0xC2 | 0xC3 => self.take_comdat(alloc, front),
            0xCE => Ok(()),
            _ => self.keep(alloc, front),
        }
    }

    /// The number of the records that replace those so far.
    pub(crate) fn count(&self) -> usize
        ensures { result ≡ length self.now.before.records }
    {
        self.records.len()
    }

    /// The records, with all values added.
    pub(crate) fn finish(self) -> Vec<Record>
        ensures { result.items ≡ patched (patched self.entry.before.records self.entry.patches) self.entry.growths }
    {
        let Work {
            patches,
            growths,
            mut records,
            ..
        } = self;
        add_all(&mut records, &patches);
        add_all(&mut records, &growths);
        records
    }
}

/// Adds a value to its record.
fn add_one(records: &mut Vec<Record>, patch: &Patch)
    ensures { records.new.items ≡ with_patch records.old.items patch.now }
{
    if let Some(record) = records.get_mut(patch.number) {
        record.add(patch);
    }
}

/// Adds all values to their records.
fn add_all(records: &mut Vec<Record>, patches: &[Patch])
    ensures { records.new.items ≡ patched records.old.items patches.now }
{
    for patch in patches {
        add_one(records, patch);
    }
}

//! The subrecords of a FIXUPP, and the references of FIXUPs and of MODEND's start address.
ghost use Rattle.std.specs.Prelude.{◌≡◌, not};
ghost use Rattle.omf_records.specs.Inner.Names.{has_frame_datum, has_target_datum, has_no_displacement};
ghost use Rattle.omf_records.specs.Inner.Gives.{Gives};
ghost use Rattle.omf_records.specs.Inner.EntryReaders.{fix_reader, datum_reader, displacement_reader, reference_reader, thread_reader, fixup_reader};

use crate::at::{At, LayoutFault};
use crate::bits::{FixByte, Locat, ThreadByte};
use crate::field::{byte, index, number};
use crate::fixup::put_fixup;
use crate::here::Here;
use crate::item::Item;
use crate::put::{put_byte, put_datum_if};
use omf_frame::{Index, Reason};
use std::alloc::AllocError;
use std::marker::{Model, PhantomData};

/// The reference of a FIXUP, after its first two bytes, or of MODEND's start address (TIS OMF 1.1, "FIXUPP"): the fix data byte; the
/// frame datum of an explicit frame F0, F1 or F2; the target datum of an explicit target; the displacement in bytes if bit P is 0.
#[derive(Drop)]
pub struct Reference {
    pub fix: At<FixByte>,
    pub frame: Option<At<Index>>,
    pub target: Option<At<Index>>,
    pub displacement: Option<u32>,
}

impl Model for Reference {
    ghost use Rattle.omf_records.specs.Values.{Reference as ReferenceModel};

    ghost Value = { ReferenceModel };

    ghost view = { λ r. record { fix = r.fix; frame = r.frame; target = r.target; displacement = r.displacement } };
}

/// A THREAD with its first byte, or a FIXUP with its first two, high byte first.
#[derive(Drop)]
pub enum Part {
    Thread {
        first: ThreadByte,
        index: Option<At<Index>>,
    },
    Fixup {
        location: Locat,
        reference: Reference,
    },
}

/// A subrecord of a FIXUPP, for the lifetime of the record's bytes.
#[derive(Drop)]
pub struct Subrecord<'a> {
    pub part: Part,
    of: PhantomData<&'a [u8]>,
}

impl<'a> Model for Subrecord<'a> {
    ghost use Rattle.omf_records.specs.Values.{Subrecord as SubrecordModel};
    ghost use Rattle.omf_records.specs.Inner.Parts.{part_seen};

    ghost Value = { SubrecordModel };

    ghost view = { λ s. part_seen s.part };
}

/// Reads the fix data byte.
#[inline(always)]
fn fix<'a>(here: Here<'a>) -> Result<(At<FixByte>, Here<'a>), LayoutFault>
    ensures { Gives here.entry.wide result (fix_reader.read here.entry.within here.entry.bytes.now) }
{
    let (byte, after) = byte(here)?;
    let within = here.within();
    match FixByte::new(byte) {
        Ok(item) => Ok((At { within, item }, after)),
        Err(reason) => Err(here.fault(reason)),
    }
}

/// Whether a frame datum follows.
pub(crate) fn has_frame_datum(fix: u8) -> bool
    ensures { result ≡ has_frame_datum fix }
{
    fix / 128 == 0 && fix / 16 % 8 < 3
}

/// Whether a target datum follows: unless a thread gives the target, each method has one.
fn has_target_datum(fix: FixByte) -> bool
    ensures { result ≡ has_target_datum fix }
{
    fix.byte() / 8 % 2 == 0
}

pub(crate) fn has_displacement(fix: u8) -> bool
    ensures { result ≡ not (has_no_displacement fix) }
{
    fix / 4 % 2 == 0
}

/// Reads an index, if there is one.
#[inline(always)]
pub(crate) fn datum<'a>(
    here: Here<'a>,
    is_there: bool,
) -> Result<(Option<At<Index>>, Here<'a>), LayoutFault>
    ensures { Gives here.entry.wide result ((datum_reader is_there).read here.entry.within here.entry.bytes.now) }
{
    if !is_there {
        return Ok((None, here));
    }
    let (item, after) = index(here)?;
    let within = here.within();
    Ok((Some(At { within, item }), after))
}

#[inline(always)]
fn displacement<'a>(here: Here<'a>, is_there: bool) -> Result<(Option<u32>, Here<'a>), LayoutFault>
    ensures { Gives here.entry.wide result ((displacement_reader here.entry.wide is_there).read here.entry.within here.entry.bytes.now) }
{
    if !is_there {
        return Ok((None, here));
    }
    let (value, after) = number(here)?;
    Ok((Some(value), after))
}

#[inline(always)]
pub(crate) fn read_reference<'a>(here: Here<'a>) -> Result<(Reference, Here<'a>), LayoutFault>
    ensures { Gives here.entry.wide result ((reference_reader here.entry.wide).read here.entry.within here.entry.bytes.now) }
{
    let (fix, here) = fix(here)?;
    let (frame, here) = datum(here, has_frame_datum(fix.item.byte()))?;
    let (target, here) = datum(here, has_target_datum(fix.item))?;
    let (displacement, here) = displacement(here, has_displacement(fix.item.byte()))?;
    Ok((
        Reference {
            fix,
            frame,
            target,
            displacement,
        },
        here,
    ))
}

/// Reads a THREAD after its first byte.
#[inline(always)]
fn thread<'a>(here: Here<'a>, first: ThreadByte) -> Result<(Subrecord<'a>, Here<'a>), LayoutFault>
    ensures { Gives here.entry.wide result ((thread_reader first).read here.entry.within here.entry.bytes.now) }
{
    let (index, here) = datum(here, first.method() < 3)?;
    let part = Part::Thread { first, index };
    let of = PhantomData;
    Ok((Subrecord { part, of }, here))
}

/// Reads a FIXUP after its first two bytes.
#[inline(always)]
fn fixup<'a>(here: Here<'a>, location: Locat) -> Result<(Subrecord<'a>, Here<'a>), LayoutFault>
    ensures { Gives here.entry.wide result ((fixup_reader here.entry.wide location).read here.entry.within here.entry.bytes.now) }
{
    let (reference, here) = read_reference(here)?;
    let part = Part::Fixup {
        location,
        reference,
    };
    let of = PhantomData;
    Ok((Subrecord { part, of }, here))
}

impl<'a> Item for Subrecord<'a> {
    ghost use Rattle.omf_records.specs.Shortest.{subrecord_bytes};
    ghost use Rattle.omf_records.specs.Entries.{subrecord};
    ghost use Rattle.omf_records.specs.Inner.EntryReaders.{subrecord_reader, subrecord_shrinks};

    type From = Here<'a>;

    ghost layout = { subrecord };

    ghost reader = { subrecord_reader };

    ghost shrinks = { subrecord_shrinks };

    #[inline(always)]
    fn read(here: Here<'a>) -> Result<(Subrecord<'a>, Here<'a>), LayoutFault> {
        match here.bytes() {
            [first, ..] if *first < 128 => match ThreadByte::new(*first) {
                Ok(first) => thread(here.pass(1), first),
                Err(reason) => Err(here.fault(reason)),
            },
            [first, second, ..] => {
                match Locat::new(u16::from(*first) * 256 + u16::from(*second)) {
                    Ok(location) => fixup(here.pass(2), location),
                    Err(reason) => Err(here.fault(reason)),
                }
            }
            [_] | [] => Err(here.fault(Reason::Short)),
        }
    }

    ghost shortest = { subrecord_bytes };

    #[tactic(auto, using(crate::specs::Inner::Begins::grows_then, crate::specs::Inner::Begins::lacks_then, crate::specs::Inner::Begins::lacks_front, crate::specs::Inner::Begins::lacks_fixup))]
    fn put(&self, kind: u8, out: &mut Vec<u8>) -> Result<(), AllocError> {
        match &self.part {
            Part::Thread { first, index } => {
                put_byte(out, first.byte())?;
                put_datum_if(out, index)
            }
            Part::Fixup {
                location,
                reference,
            } => put_fixup(out, kind, *location, reference),
        }
    }
}

//! FIXUPPs with one subrecord (TIS OMF 1.1, "FIXUPP").

ghost use Rattle.std.specs.Prelude.{◌≡◌, ◌-◌, IfOk, List};
ghost use Rattle.std.specs.List.{list_any};
ghost use Rattle.omf_records.specs.Values.{Fixup as FixupItem, location_offset};
ghost use Rattle.omf_lowering.specs.Unrolled.{fixupp, is_fixup};

use crate::record::Record;
use omf_records::{Item, Items, Locat, Part, Reference, Subrecord, put_fixup};
use std::alloc::{AllocError, Global};

/// A fixup of a FIXUPP of a type, and its offset in the record.
#[derive(Drop)]
pub(crate) struct Fixup<'r> {
    pub kind: u8,
    pub within: u32,
    pub locat: Locat,
    pub reference: &'r Reference,
}

/// The first two bytes of a fixup, with the offset 0.
fn at_first(locat: Locat) -> Locat
    ensures { result ≡ locat - location_offset locat }
{
    match Locat::new(locat.number() - locat.offset()) {
        Ok(first) => first,
        Err(_) => unreachable!(),
    }
}

/// The FIXUPP with a fixup at the first byte of the data before it.
pub(crate) fn fixupp(alloc: Global, fixup: &Fixup<'_>) -> Result<Record, AllocError>
    ensures { IfOk result (λ r. r ≡ fixupp fixup.now.kind (FixupItem (fixup.now.locat - location_offset fixup.now.locat) fixup.now.reference.now)) }
{
    let mut body = Vec::new(alloc);
    put_fixup(
        &mut body,
        fixup.kind,
        at_first(fixup.locat),
        fixup.reference,
    )?;
    Ok(Record::made(fixup.kind, body))
}

/// The FIXUPP of a type with a subrecord.
pub(crate) fn fixupp_of(
    alloc: Global,
    kind: u8,
    subrecord: &Subrecord<'_>,
) -> Result<Record, AllocError>
    ensures { IfOk result (λ r. r ≡ fixupp kind subrecord.now) }
{
    let mut body = Vec::new(alloc);
    subrecord.put(kind, &mut body)?;
    Ok(Record::made(kind, body))
}

/// Whether a subrecord is a FIXUP.
fn is_fixup(subrecord: &Subrecord<'_>) -> bool
    ensures { result ≡ is_fixup subrecord.now }
{
    match &subrecord.part {
        Part::Thread { .. } => false,
        Part::Fixup { .. } => true,
    }
}

/// Whether one of the subrecords is a FIXUP.
pub(crate) fn has_fixup(subrecords: Items<Subrecord<'_>>) -> bool
    ensures { result ≡ list_any (λ s. is_fixup s.item) subrecords.entry }
{
    for next in subrecords {
        if is_fixup(&next.item) {
            return true;
        }
    }
    false
}

//! References to externals in place of virtual segments (TIS OMF 1.1, "FIXUPP", "MODEND").

ghost use Rattle.std.specs.List.{list_any};
ghost use Rattle.std.specs.Prelude.{◌≡◌, ◌++◌, IfOk, OnOk, flat_map};
ghost use Rattle.omf_explicit.specs.Explicit.{part_bytes};
ghost use Rattle.omf_virtual.specs.Virtual.{external_datum, external_if, external_part, external_reference, has_virtual_frame, has_virtual_target, is_virtual, is_virtual_thread, names_virtual, names_virtual_in, parts_of, with_bits};

use crate::externals::{SEGMENT_BASE, Virtual, virtual_at};
use omf_explicit::{
    Datum, Front, Part, Reference, fixups_in, is_end, is_fixupp, is_right, put_part, start_in,
};
use omf_records::At;
use std::alloc::{AllocError, Global};

/// The THREADs and FIXUPs of a FIXUPP, or the one part of a MODEND, with a right checksum byte; of any other record none.
pub(crate) fn parts_of(alloc: Global, record: &Front<'_>) -> Result<Vec<At<Part>>, AllocError>
    ensures { IfOk result (λ v. v.items ≡ parts_of record.now) }
{
    let wide = record.kind % 2 == 1;
    if !is_right(record) {
        return Ok(Vec::new(alloc));
    }
    if is_end(record.kind) {
        return start_in(alloc, record.body, wide);
    }
    if is_fixupp(record.kind) {
        return fixups_in(alloc, record.body, wide);
    }
    Ok(Vec::new(alloc))
}

/// Whether a datum is the index of a virtual segment.
fn is_virtual(externals: &[Option<Virtual<'_>>], datum: Option<Datum>) -> bool
    ensures { result ≡ is_virtual externals.now datum }
{
    match datum {
        Some(Datum::Index(index)) => virtual_at(externals, index).is_some(),
        Some(Datum::Number(_)) | None => false,
    }
}

/// Whether a reference has the frame F0 of a virtual segment.
fn has_virtual_frame(externals: &[Option<Virtual<'_>>], reference: &Reference) -> bool
    ensures { result ≡ has_virtual_frame externals.now reference.now }
{
    reference.fix / 16 % 8 == 0 && is_virtual(externals, reference.frame)
}

/// Whether the target of a reference is a virtual segment, with or without a displacement.
fn has_virtual_target(externals: &[Option<Virtual<'_>>], reference: &Reference) -> bool
    ensures { result ≡ has_virtual_target externals.now reference.now }
{
    reference.fix % 4 == 0 && is_virtual(externals, reference.target)
}

/// Whether a THREAD with a first byte and a datum has method 0 and a virtual segment.
fn is_virtual_thread(externals: &[Option<Virtual<'_>>], first: u8, datum: Option<Datum>) -> bool
    ensures { result ≡ is_virtual_thread externals.now first datum }
{
    let method = if first / 64 % 2 == 1 {
        first / 4 % 8
    } else {
        first / 4 % 4
    };
    method == 0 && is_virtual(externals, datum)
}

/// Whether a reference names a virtual segment.
fn names_virtual_in(externals: &[Option<Virtual<'_>>], reference: &Reference) -> bool
    ensures { result ≡ names_virtual_in externals.now reference.now }
{
    has_virtual_frame(externals, reference) || has_virtual_target(externals, reference)
}

/// Whether a part names a virtual segment.
fn names_virtual(externals: &[Option<Virtual<'_>>], part: &Part) -> bool
    ensures { result ≡ names_virtual externals.now part.now }
{
    match part {
        Part::Thread { first, datum } => is_virtual_thread(externals, *first, *datum),
        Part::Fixup { reference, .. } => names_virtual_in(externals, reference),
        Part::Start {
            reference: Some(reference),
            ..
        } => names_virtual_in(externals, reference),
        Part::Start {
            reference: None,
            ..
        } => false,
    }
}

/// Whether one of some parts names a virtual segment.
pub(crate) fn any_names_virtual(externals: &[Option<Virtual<'_>>], parts: &[At<Part>]) -> bool
    ensures { result ≡ list_any (λ p. names_virtual externals.now p.item) parts.now }
{
    parts
        .iter()
        .any(|part| names_virtual(externals, &part.item))
}

/// The external of a virtual segment.
fn external_datum(datum: Datum) -> Datum
    ensures { result ≡ external_datum datum }
{
    match datum {
        Datum::Index(index) => Datum::Index(index.saturating_sub(SEGMENT_BASE)),
        Datum::Number(number) => Datum::Number(number),
    }
}

/// A datum, or the external in its place if it is a virtual segment.
fn external_if(is_virtual: bool, datum: Option<Datum>) -> Option<Datum>
    ensures { result ≡ external_if is_virtual datum }
{
    if !is_virtual {
        return datum;
    }
    match datum {
        Some(datum) => Some(external_datum(datum)),
        None => None,
    }
}

/// A byte with some bits, if they are to be set. It has them clear, so that no error is met.
fn with_bits(byte: u8, bits: u8, is_set: bool) -> Result<u8, AllocError>
    ensures { IfOk result (λ b. b ≡ with_bits byte bits is_set) }
{
    if !is_set {
        return Ok(byte);
    }
    match byte.checked_add(bits) {
        Some(sum) => Ok(sum),
        None => Err(AllocError),
    }
}

/// A reference with externals in place of virtual segments.
fn external_reference(
    externals: &[Option<Virtual<'_>>],
    reference: &Reference,
) -> Result<Reference, AllocError>
    ensures { IfOk result (λ r. r ≡ external_reference externals.now reference.now) }
{
    let has_frame = has_virtual_frame(externals, reference);
    let has_target = has_virtual_target(externals, reference);
    let fix = with_bits(reference.fix, 0x20, has_frame)?;
    Ok(Reference {
        fix: with_bits(fix, 0x02, has_target)?,
        frame: external_if(has_frame, reference.frame),
        target: external_if(has_target, reference.target),
        displacement: reference.displacement,
    })
}

/// A part with externals in place of virtual segments.
fn external_part(externals: &[Option<Virtual<'_>>], part: &Part) -> Result<Part, AllocError>
    ensures { IfOk result (λ p. p ≡ external_part externals.now part.now) }
{
    match part {
        Part::Thread { first, datum } => {
            let is_virtual = is_virtual_thread(externals, *first, *datum);
            Ok(Part::Thread {
                first: with_bits(*first, 0x08, is_virtual)?,
                datum: external_if(is_virtual, *datum),
            })
        }
        Part::Fixup {
            location,
            reference,
        } => Ok(Part::Fixup {
            location: *location,
            reference: external_reference(externals, reference)?,
        }),
        Part::Start {
            first,
            reference: Some(reference),
        } => Ok(Part::Start {
            first: *first,
            reference: Some(external_reference(externals, reference)?),
        }),
        Part::Start {
            first,
            reference: None,
        } => Ok(Part::Start {
            first: *first,
            reference: None,
        }),
    }
}

/// Appends parts with externals in place of virtual segments, of a record of this type.
pub(crate) fn put_parts(
    out: &mut Vec<u8>,
    kind: u8,
    externals: &[Option<Virtual<'_>>],
    parts: &[At<Part>],
) -> Result<(), AllocError>
    ensures { OnOk result (out.new.items ≡ out.old.items ++ flat_map (λ p. part_bytes kind (external_part externals.now p.item)) parts.now) }
{
    for part in parts {
        let external = external_part(externals, &part.item)?;
        put_part(out, kind, &external)?;
    }
    Ok(())
}

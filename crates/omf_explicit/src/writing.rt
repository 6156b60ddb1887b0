//! The bytes of a module without frame numbers.

ghost use Rattle.std.specs.List.{list_any};
ghost use Rattle.std.specs.Prelude.{◌≡◌, ◌++◌, IfOk, OnOk, flat_map, map};
ghost use Rattle.byteorder.specs.Endian.{little_bytes};
ghost use Rattle.omf_frame.specs.Framing.{raw_bytes, raw_of};
ghost use Rattle.omf_records.specs.Shortest.{option_bytes};
ghost use Rattle.omf_records.specs.Values.{width};
ghost use Rattle.omf_explicit.specs.Explicit.{datum_bytes, is_numbered, part_bytes, plain_part, plain_record, reference_bytes, segment};

use crate::part::{Datum, Part, Reference, parts_of};
use crate::plain::{Table, is_number, plain_part};
use crate::record::Front;
use omf_frame::{Field, Index, Le16, Le32, checksum};
use omf_records::At;
use std::alloc::{AllocError, Global};

/// The most bytes of contents that a record has.
const MOST: usize = 65_534;

/// Appends a record with this checksum byte. Contents do not grow, so that no error but of memory is met.
pub fn put_raw(out: &mut Vec<u8>, kind: u8, body: &[u8], sum: u8) -> Result<(), AllocError>
    ensures { OnOk result (out.new.items ≡ out.old.items ++ raw_bytes (record { kind = kind; body = body.now; checksum = sum })) }
{
    if body.len() > MOST {
        return Err(AllocError);
    }
    let [low, high] = ((body.len() + 1) as u16).to_le_bytes();
    out.reserve(body.len() + 4)?;
    out.push_reserved(kind);
    out.push_reserved(low);
    out.push_reserved(high);
    out.extend_from_slice(body)?;
    Ok(out.push(sum)?)
}

/// Appends the record with these contents.
pub fn put_record(out: &mut Vec<u8>, kind: u8, body: &[u8]) -> Result<(), AllocError>
    ensures { OnOk result (out.new.items ≡ out.old.items ++ raw_bytes (raw_of kind body.now)) }
{
    if body.len() > MOST {
        return Err(AllocError);
    }
    put_raw(out, kind, body, checksum(kind, body))
}

/// Appends a datum. An index that is read or made can be written, so that no error but of memory is met.
fn put_datum(out: &mut Vec<u8>, datum: Datum) -> Result<(), AllocError>
    ensures { OnOk result (out.new.items ≡ out.old.items ++ datum_bytes datum) }
{
    match datum {
        Datum::Index(0x8000..) => Err(AllocError),
        Datum::Index(index) => Index(index).put(out),
        Datum::Number(number) => Le16(number).put(out),
    }
}

/// Appends a datum, if there is one.
fn put_datum_if(out: &mut Vec<u8>, datum: Option<Datum>) -> Result<(), AllocError>
    ensures { OnOk result (out.new.items ≡ out.old.items ++ option_bytes datum_bytes datum) }
{
    match datum {
        Some(datum) => put_datum(out, datum),
        None => Ok(()),
    }
}

/// Appends a displacement, if there is one: 32 bits in a record of odd type, the low 16 in one of even type.
fn put_displacement(
    out: &mut Vec<u8>,
    kind: u8,
    displacement: Option<u32>,
) -> Result<(), AllocError>
    ensures { OnOk result (out.new.items ≡ out.old.items ++ option_bytes (little_bytes (width kind)) displacement) }
{
    match displacement {
        Some(value) if kind % 2 == 1 => Le32(value).put(out),
        Some(value) => Le16((value % 0x1_0000) as u16).put(out),
        None => Ok(()),
    }
}

/// Appends a reference.
fn put_reference(out: &mut Vec<u8>, kind: u8, reference: &Reference) -> Result<(), AllocError>
    ensures { OnOk result (out.new.items ≡ out.old.items ++ reference_bytes kind reference.now) }
{
    out.push(reference.fix)?;
    put_datum_if(out, reference.frame)?;
    put_datum_if(out, reference.target)?;
    put_displacement(out, kind, reference.displacement)
}

/// Appends a part.
pub fn put_part(out: &mut Vec<u8>, kind: u8, part: &Part) -> Result<(), AllocError>
    ensures { OnOk result (out.new.items ≡ out.old.items ++ part_bytes kind part.now) }
{
    match part {
        Part::Thread { first, datum } => {
            out.push(*first)?;
            put_datum_if(out, *datum)
        }
        Part::Fixup {
            location,
            reference,
        } => {
            out.extend_from_slice(&location.to_be_bytes())?;
            put_reference(out, kind, reference)
        }
        Part::Start {
            first,
            reference: Some(reference),
        } => {
            out.push(*first)?;
            put_reference(out, kind, reference)
        }
        Part::Start {
            first,
            reference: None,
        } => Ok(out.push(*first)?),
    }
}

/// Appends parts without frame numbers.
fn put_parts(
    out: &mut Vec<u8>,
    kind: u8,
    table: &Table,
    parts: &[At<Part>],
) -> Result<(), AllocError>
    ensures { OnOk result (out.new.items ≡ out.old.items ++ flat_map (λ p. part_bytes kind (plain_part table.now p.item)) parts.now) }
{
    for part in parts {
        let plain = plain_part(table, &part.item)?;
        put_part(out, kind, &plain)?;
    }
    Ok(())
}

/// Whether a datum is a frame number.
fn is_numbered(part: &Part) -> bool
    ensures { result ≡ is_numbered part.now }
{
    match part {
        Part::Thread { datum, .. } => is_number(*datum),
        Part::Fixup { reference, .. } => is_number(reference.frame) || is_number(reference.target),
        Part::Start {
            reference: Some(reference),
            ..
        } => is_number(reference.frame) || is_number(reference.target),
        Part::Start {
            reference: None,
            ..
        } => false,
    }
}

/// Whether one of some parts has a frame number.
fn has_numbers(parts: &[At<Part>]) -> bool
    ensures { result ≡ list_any (λ p. is_numbered p.item) parts.now }
{
    parts.iter().any(|part| is_numbered(&part.item))
}

/// Appends a record without frame numbers.
fn put_plain(
    alloc: Global,
    out: &mut Vec<u8>,
    table: &Table,
    record: &Front<'_>,
) -> Result<(), AllocError>
    ensures { OnOk result (out.new.items ≡ out.old.items ++ raw_bytes (plain_record table.now record.now)) }
{
    let parts = parts_of(alloc, record)?;
    if !has_numbers(&parts) {
        return put_raw(out, record.kind, record.body, record.checksum);
    }
    let mut body = Vec::new(alloc);
    put_parts(&mut body, record.kind, table, &parts)?;
    put_record(out, record.kind, &body)
}

/// Appends records without frame numbers.
fn put_all(
    alloc: Global,
    out: &mut Vec<u8>,
    table: &Table,
    records: &[Front<'_>],
) -> Result<(), AllocError>
    ensures { OnOk result (out.new.items ≡ out.old.items ++ flat_map raw_bytes (map (plain_record table.now) records.now)) }
{
    for record in records {
        put_plain(alloc, out, table, record)?;
    }
    Ok(())
}

/// Appends the SEGDEF of the frame with a number.
fn put_segment(alloc: Global, out: &mut Vec<u8>, number: u16) -> Result<(), AllocError>
    ensures { OnOk result (out.new.items ≡ out.old.items ++ raw_bytes (segment number)) }
{
    let mut body = Vec::new(alloc);
    body.push(0x02)?;
    Le16(number).put(&mut body)?;
    body.push(0)?;
    Le16(0).put(&mut body)?;
    Index(0).put(&mut body)?;
    Index(0).put(&mut body)?;
    Index(0).put(&mut body)?;
    put_record(out, 0x98, &body)
}

/// Appends the SEGDEFs of frames.
fn put_segments(alloc: Global, out: &mut Vec<u8>, numbers: &[u16]) -> Result<(), AllocError>
    ensures { OnOk result (out.new.items ≡ out.old.items ++ flat_map raw_bytes (map segment numbers.now)) }
{
    for number in numbers {
        put_segment(alloc, out, *number)?;
    }
    Ok(())
}

/// The bytes of records, the SEGDEFs of the table's frames, and further records.
pub(crate) fn written(
    alloc: Global,
    table: &Table,
    front: &[Front<'_>],
    back: &[Front<'_>],
) -> Result<Vec<u8>, AllocError>
    ensures { IfOk result (λ v. v.items ≡ flat_map raw_bytes (map (plain_record table.now) front.now ++ map segment table.now.numbers ++ map (plain_record table.now) back.now)) }
{
    let mut out = Vec::new(alloc);
    put_all(alloc, &mut out, table, front)?;
    put_segments(alloc, &mut out, table.numbers.order())?;
    put_all(alloc, &mut out, table, back)?;
    Ok(out)
}

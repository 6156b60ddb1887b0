//! The data records of a module before relocation: where each lays its bytes, and these bytes.

ghost use Rattle.std.specs.Prelude.{◌≡◌, ◌+◌, ◌≤◌, ◌^◌, ◌++◌, [], ◌∷◌, IfOk, OnOk, length};
ghost use Rattle.omf_check.specs.Inner.Contents.{data_seen};
ghost use Rattle.omf_check.specs.Module.{records_in};
ghost use Rattle.omf_image.specs.Inner.Expanding.{expanded};
ghost use Rattle.omf_image.specs.Limits.{profile_limits};
ghost use Rattle.omf_records.specs.Inner.Seen.{odd_if};
ghost use Rattle.omf_records.specs.Values.{width};
ghost use Rattle.omf_reloc.specs.Inner.Measuring.{CanMeasure};
ghost use Rattle.omf_reloc.specs.Inner.Walking.{Expands};
ghost use Rattle.omf_c.specs.Data.{contents_bytes, contents_rows, data_bytes, data_row, data_rows};

use crate::rows::{DataRow, Span};
use crate::table::size_of;
use omf_check::{Checked, Data, Undecoded};
use omf_frame::{Index, Place, Width};
use omf_image::{Limits, expand, expanded_len};
use omf_records::{At, Blocks};
use std::alloc::{AllocError, Global};

/// The size of an offset field in bytes.
fn field_size(bits: Width) -> u64
    ensures plain { result ≡ width (odd_if bits 0xA0) }
    ensures iterated { result ≡ width (odd_if bits 0xA2) }
{
    match bits {
        Width::Bits16 => 2,
        Width::Bits32 => 4,
    }
}

/// The number of bytes that blocks expand to.
fn expanded_size(blocks: Blocks<'_>) -> u64
    requires { Expands (odd_if blocks.width 0xA2) blocks.bytes.now }
    ensures { result ≡ length (expanded (width (odd_if blocks.entry.width 0xA2)) profile_limits blocks.entry.bytes.now) }
{
    match expanded_len(blocks, Limits::profile()) {
        Ok(len) => u64::from(len),
        Err(_) => unreachable!(),
    }
}

/// What follows an offset field.
fn stored_after(place: Place, bits: Width, offset: &At<u32>, bytes: &[u8]) -> Span
    requires { place.start ≤ 2 ^ 63 }
    ensures plain { result ≡ record { offset = place.start + offset.now.within + width (odd_if bits 0xA0); size = length bytes.now } }
    ensures iterated { result ≡ record { offset = place.start + offset.now.within + width (odd_if bits 0xA2); size = length bytes.now } }
{
    Span {
        offset: place.start + u64::from(offset.within) + field_size(bits),
        size: bytes.len() as u64,
    }
}

/// The row of an LEDATA.
fn plain_row(
    place: Place,
    bits: Width,
    segment: &At<Index>,
    offset: &At<u32>,
    bytes: &[u8],
) -> DataRow
    requires { place.start ≤ 2 ^ 63 }
    ensures { result ≡ data_row place (odd_if bits 0xA0) (record { segment = segment.now; offset = offset.now; bytes = bytes.now }) (length bytes.now) }
{
    let kind = match bits {
        Width::Bits16 => 0xA0,
        Width::Bits32 => 0xA1,
    };
    DataRow {
        stored: stored_after(place, bits, offset, bytes),
        size: bytes.len() as u64,
        offset: offset.item,
        segment: u32::from(segment.item.0),
        type_byte: kind,
        number: place.number,
    }
}

/// The row of an LIDATA.
fn iterated_row(place: Place, segment: &At<Index>, offset: &At<u32>, blocks: Blocks<'_>) -> DataRow
    requires start { place.start ≤ 2 ^ 63 }
    requires expands { Expands (odd_if blocks.width 0xA2) blocks.bytes.now }
    ensures { result ≡ data_row place (odd_if blocks.entry.width 0xA2) (record { segment = segment.now; offset = offset.now; bytes = blocks.entry.bytes.now })
        (length (expanded (width (odd_if blocks.entry.width 0xA2)) profile_limits blocks.entry.bytes.now)) }
{
    let kind = match blocks.width {
        Width::Bits16 => 0xA2,
        Width::Bits32 => 0xA3,
    };
    DataRow {
        stored: stored_after(place, blocks.width, offset, blocks.bytes),
        size: expanded_size(blocks),
        offset: offset.item,
        segment: u32::from(segment.item.0),
        type_byte: kind,
        number: place.number,
    }
}

/// The row of a data record.
fn row_of(place: Place, source: &Data<'_>) -> DataRow
    requires start { place.start ≤ 2 ^ 63 }
    requires measured { CanMeasure (data_seen source.now) }
    ensures { result ∷ [] ≡ contents_rows place (data_seen source.now).kind (data_seen source.now).contents }
{
    match source {
        Data::Plain {
            width,
            segment,
            offset,
            bytes,
        } => plain_row(place, *width, segment, offset, bytes),
        Data::Iterated {
            segment,
            offset,
            blocks,
        } => iterated_row(place, segment, offset, *blocks),
    }
}

/// Appends the row of a data record. Other records add nothing, and are not decoded.
fn add_row(rows: &mut Vec<DataRow>, place: Place, rec: &Undecoded<'_>) -> Result<(), AllocError>
    requires start { place.start ≤ 2 ^ 63 }
    requires measured { CanMeasure rec.now }
    ensures { OnOk result (rows.new.items ≡ rows.old.items ++ contents_rows place rec.now.kind rec.now.contents) }
{
    match rec.as_data() {
        Some(source) => {
            rows.push(row_of(place, &source))?;
            Ok(())
        }
        None => Ok(()),
    }
}

/// The data records of a module, in file order.
pub(crate) fn data_of(alloc: Global, module: &Checked) -> Result<Vec<DataRow>, AllocError>
    ensures { IfOk result (λ v. v.items ≡ data_rows (records_in «module».now.bytes)) }
{
    let bytes = module.bytes();
    let _size = size_of(bytes);
    let mut rows = Vec::new(alloc);
    for (place, rec) in module.undecoded() {
        add_row(&mut rows, place, &rec)?;
    }
    Ok(rows)
}

/// The bytes that blocks expand to.
fn expanded(alloc: Global, blocks: Blocks<'_>) -> Result<Vec<u8>, AllocError>
    requires { Expands (odd_if blocks.width 0xA2) blocks.bytes.now }
    ensures { IfOk result (λ v. v.items ≡ expanded (width (odd_if blocks.entry.width 0xA2)) profile_limits blocks.entry.bytes.now) }
{
    let (bytes, _moved) = expand(alloc, blocks, Limits::profile())?;
    Ok(bytes)
}

/// The bytes of a data record.
fn source_bytes(alloc: Global, source: &Data<'_>) -> Result<Vec<u8>, AllocError>
    requires { CanMeasure (data_seen source.now) }
    ensures { IfOk result (λ v. v.items ≡ contents_bytes (data_seen source.now).kind (data_seen source.now).contents) }
{
    match source {
        Data::Plain { bytes, .. } => Ok(bytes.to_vec(alloc)?),
        Data::Iterated { blocks, .. } => expanded(alloc, *blocks),
    }
}

/// The bytes of a record, if it is a data record; else none.
fn record_bytes(alloc: Global, rec: &Undecoded<'_>) -> Result<Vec<u8>, AllocError>
    requires { CanMeasure rec.now }
    ensures { IfOk result (λ v. v.items ≡ contents_bytes rec.now.kind rec.now.contents) }
{
    match rec.as_data() {
        Some(source) => source_bytes(alloc, &source),
        None => Ok(Vec::new(alloc)),
    }
}

/// The bytes of the record with a number, if it is a data record; else none.
pub(crate) fn bytes_of(alloc: Global, module: &Checked, number: u32) -> Result<Vec<u8>, AllocError>
    ensures { IfOk result (λ v. v.items ≡ data_bytes number (records_in «module».now.bytes)) }
{
    for (place, rec) in module.undecoded() {
        if place.number == number {
            return record_bytes(alloc, &rec);
        }
    }
    Ok(Vec::new(alloc))
}

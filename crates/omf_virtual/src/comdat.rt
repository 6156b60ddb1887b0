//! The COMDATs of virtual segments (TIS OMF 1.1, "COMDAT").

ghost use Rattle.std.specs.Prelude.{◌≡◌, ◌+◌, ◌++◌, ◌∷◌, [], IfOk, OnOk};
ghost use Rattle.byteorder.specs.Endian.{little_bytes};
ghost use Rattle.omf_frame.specs.Bytes.{is_one_of};
ghost use Rattle.omf_frame.specs.Fields.{index_bytes};
ghost use Rattle.omf_frame.specs.Framing.{raw_bytes};
ghost use Rattle.omf_explicit.specs.Explicit.{place_in};
ghost use Rattle.omf_records.specs.Values.{width};
ghost use Rattle.omf_virtual.specs.Virtual.{comdat_bytes, data_in_place, data_of, flags_of};

use crate::externals::virtual_at;
use crate::names::NAME_LIMIT;
use crate::segment_data::{data_of, is_lidata};
use crate::table::{Before, Table};
use omf_explicit::{FrameNumbers, Front, put_raw, put_record};
use omf_frame::{Field, Index, Le16, Le32};
use omf_records::PlainData;
use std::alloc::{AllocError, Global};

/// Whether an index is one of some.
pub(crate) fn is_one_of(indices: &FrameNumbers, index: u16) -> bool
    ensures { result ≡ is_one_of indices.now index }
{
    indices.place(index) != 0
}

/// The flags of a COMDAT.
fn flags_of(continued: bool, iterated: bool) -> u8
    ensures { result ≡ flags_of continued iterated }
{
    match (continued, iterated) {
        (false, false) => 0,
        (true, false) => 1,
        (false, true) => 2,
        (true, true) => 3,
    }
}

/// The index of a COMDAT's name. A name has an index that can be written, so that no error is met.
fn name_index(table: &Table<'_>, index: u16) -> Result<u16, AllocError>
    ensures { IfOk result (λ n. n ≡ table.now.last_name + place_in table.now.filled index) }
{
    let name = table.last_name.saturating_add(table.filled.place(index));
    if name > NAME_LIMIT {
        return Err(AllocError);
    }
    Ok(name as u16)
}

/// Appends an index of a module, which can be written, so that no error but of memory is met.
fn put_index(out: &mut Vec<u8>, index: u16) -> Result<(), AllocError>
    ensures { OnOk result (out.new.items ≡ out.old.items ++ index_bytes index) }
{
    if index > 0x7FFF {
        return Err(AllocError);
    }
    Index(index).put(out)
}

/// Appends an offset: 32 bits in a record of odd type, the low 16 in one of even type.
fn put_offset(out: &mut Vec<u8>, kind: u8, offset: u32) -> Result<(), AllocError>
    ensures { OnOk result (out.new.items ≡ out.old.items ++ little_bytes (width kind) offset) }
{
    if kind % 2 == 1 {
        return Le32(offset).put(out);
    }
    Le16((offset % 0x1_0000) as u16).put(out)
}

/// The segment of a COMDAT, and the index of its name.
#[derive(Clone, Copy, Drop)]
struct Place {
    segment: u8,
    name: u16,
}

/// Appends the contents of a COMDAT with the data of a record of this type.
fn put_contents(
    out: &mut Vec<u8>,
    kind: u8,
    flags: u8,
    place: &Place,
    contents: &PlainData<'_>,
) -> Result<(), AllocError>
    ensures { OnOk result (out.new.items ≡ out.old.items ++ comdat_bytes kind flags place.now.segment place.now.name contents.now) }
{
    out.extend_from_slice(&[flags, 0x10, 0])?;
    put_offset(out, kind, contents.offset.item)?;
    put_index(out, 0)?;
    put_index(out, 0)?;
    put_index(out, u16::from(place.segment))?;
    put_index(out, place.name)?;
    out.extend_from_slice(contents.bytes)
}

/// Appends the COMDAT in place of data of a virtual segment, or the record of other data as it is.
pub(crate) fn put_data_in_place(
    alloc: Global,
    out: &mut Vec<u8>,
    table: &Table<'_>,
    before: &Before,
    record: &Front<'_>,
) -> Result<(), AllocError>
    ensures { OnOk result (out.new.items ≡ out.old.items ++ raw_bytes (data_in_place table.now before.now record.now (data_of record.now))) }
{
    let Some(data) = data_of(record) else {
        return put_raw(out, record.kind, record.body, record.checksum);
    };
    let index = data.segment.item.0;
    let Some(found) = virtual_at(&table.virtuals, index) else {
        return put_raw(out, record.kind, record.body, record.checksum);
    };
    let flags = flags_of(is_one_of(&before.filled, index), is_lidata(record.kind));
    let place = Place {
        segment: found.segment,
        name: name_index(table, index)?,
    };
    let mut body = Vec::new(alloc);
    put_contents(&mut body, record.kind, flags, &place, &data)?;
    put_record(out, 0xC2 + record.kind % 2, &body)
}

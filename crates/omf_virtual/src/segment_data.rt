//! The data of virtual segments.

ghost use Rattle.std.specs.Prelude.{◌≡◌, ◌++◌, ◌≤◌, length, IfOk, OnOk};
ghost use Rattle.omf_records.specs.Inner.RecordReaders.{data_whole};
ghost use Rattle.omf_virtual.specs.Virtual.{data_of, index_if, indices, indices_in, is_data, is_lidata};

use crate::externals::{Virtual, virtual_at};
use omf_explicit::{Front, index_at, is_right, number_at};
use omf_records::{At, LayoutFault, PlainData};
use std::alloc::{AllocError, Global};

/// The most bytes of an LEDATA or LIDATA whose data a COMDAT can have.
const DATA_LIMIT: usize = 65_528;

/// Whether a record of this type is an LIDATA.
pub(crate) fn is_lidata(kind: u8) -> bool
    ensures { result ≡ is_lidata kind }
{
    matches!(kind, 0xA2 | 0xA3)
}

/// Whether a record of this type is an LEDATA or LIDATA.
pub(crate) fn is_data(kind: u8) -> bool
    ensures { result ≡ is_data kind }
{
    matches!(kind, 0xA0 | 0xA1 | 0xA2 | 0xA3)
}

/// The contents of an LEDATA or LIDATA.
fn data_in<'a>(body: &'a [u8], wide: bool) -> Result<PlainData<'a>, LayoutFault>
    requires { length body.now ≤ 65534 }
    ensures { result ≡ (data_whole wide).read 3 body.entry.now }
{
    let (segment, pos) = index_at(body, 0)?;
    let (offset, end) = number_at(body, wide, pos)?;
    let (_, bytes) = body.split_at(end);
    Ok(PlainData {
        segment: At {
            within: 3,
            item: segment,
        },
        offset: At {
            within: 3 + pos as u32,
            item: offset,
        },
        bytes,
    })
}

/// The data of an LEDATA or LIDATA with a right checksum byte, if a COMDAT can have them.
pub(crate) fn data_of<'a>(record: &Front<'a>) -> Option<PlainData<'a>>
    ensures { result ≡ data_of record.now }
{
    if !is_data(record.kind) {
        return None;
    }
    if !is_right(record) {
        return None;
    }
    if record.body.len() > DATA_LIMIT {
        return None;
    }
    match data_in(record.body, record.kind % 2 == 1) {
        Ok(data) => Some(data),
        Err(_) => None,
    }
}

/// Appends an index, if it is a virtual segment's.
fn push_index(
    all: &mut Vec<u16>,
    externals: &[Option<Virtual<'_>>],
    index: u16,
) -> Result<(), AllocError>
    ensures { OnOk result (all.new.items ≡ all.old.items ++ index_if externals.now index) }
{
    if virtual_at(externals, index).is_some() {
        all.push(index)?;
    }
    Ok(())
}

/// Appends the index of the virtual segment that a record has data of.
pub(crate) fn push_of_record(
    all: &mut Vec<u16>,
    externals: &[Option<Virtual<'_>>],
    record: &Front<'_>,
) -> Result<(), AllocError>
    ensures { OnOk result (all.new.items ≡ all.old.items ++ indices_in externals.now record.now) }
{
    match data_of(record) {
        Some(data) => push_index(all, externals, data.segment.item.0),
        None => Ok(()),
    }
}

/// The indices of the virtual segments that records have data of, as often as they have data.
pub(crate) fn indices(
    alloc: Global,
    externals: &[Option<Virtual<'_>>],
    records: &[Front<'_>],
) -> Result<Vec<u16>, AllocError>
    ensures { IfOk result (λ v. v.items ≡ indices externals.now records.now) }
{
    let mut all = Vec::new(alloc);
    for record in records {
        push_of_record(&mut all, externals, record)?;
    }
    Ok(all)
}

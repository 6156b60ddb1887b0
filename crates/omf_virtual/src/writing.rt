//! The bytes of a module with COMDATs in place of virtual segments.

ghost use Rattle.std.specs.Prelude.{◌≡◌, ◌+◌, ◌++◌, IfOk, OnOk, [], flat_map, fold};
ghost use Rattle.omf_frame.specs.Bytes.{with_before};
ghost use Rattle.omf_frame.specs.Framing.{raw_bytes};
ghost use Rattle.omf_explicit.specs.Explicit.{with_number};
ghost use Rattle.omf_virtual.specs.Inner.Writing.{up_to_next, with_state};
ghost use Rattle.omf_virtual.specs.Virtual.{comdef_in_place, comdef_of, entry_bytes, entry_record, entry_records, extdef_of, has_data, in_place, is_segment, lnames_in, lnames_of, references_in_place, replaced, virtual_at};

use crate::comdat::{is_one_of, put_data_in_place};
use crate::entry::{Entry, entries_of, is_segment};
use crate::externals::{
    SEGMENT_BASE, Virtual, has_virtual, is_comdef, push_of_record as push_externals, virtual_at,
};
use crate::references::{any_names_virtual, parts_of, put_parts};
use crate::segment_data::{is_data, push_of_record as push_index};
use crate::table::{Before, Table};
use omf_explicit::{FrameNumbers, Front, is_right, put_raw, put_record};
use omf_frame::{CommunalLength, Field};
use omf_records::At;
use std::alloc::{AllocError, Global};

/// Appends a record as it is.
fn put_same(out: &mut Vec<u8>, record: &Front<'_>) -> Result<(), AllocError>
    ensures { OnOk result (out.new.items ≡ out.old.items ++ raw_bytes record.now) }
{
    put_raw(out, record.kind, record.body, record.checksum)
}

/// Appends an entry with a data type.
fn put_entry(out: &mut Vec<u8>, entry: &Entry<'_>, data_type: u8) -> Result<(), AllocError>
    ensures { OnOk result (out.new.items ≡ out.old.items ++ entry_bytes (record entry.now { data_type = data_type })) }
{
    entry.name.put(out)?;
    entry.type_index.put(out)?;
    out.push(data_type)?;
    CommunalLength(entry.count).put(out)?;
    match entry.element {
        Some(size) => CommunalLength(size).put(out),
        None => Ok(()),
    }
}

/// Appends the COMDEF of an entry with a data type.
fn put_comdef(
    alloc: Global,
    out: &mut Vec<u8>,
    entry: &Entry<'_>,
    data_type: u8,
) -> Result<(), AllocError>
    ensures { OnOk result (out.new.items ≡ out.old.items ++ raw_bytes (comdef_of (record entry.now { data_type = data_type }))) }
{
    let mut body = Vec::new(alloc);
    put_entry(&mut body, entry, data_type)?;
    put_record(out, 0xB0, &body)
}

/// Appends the EXTDEF of an entry.
fn put_extdef(alloc: Global, out: &mut Vec<u8>, entry: &Entry<'_>) -> Result<(), AllocError>
    ensures { OnOk result (out.new.items ≡ out.old.items ++ raw_bytes (extdef_of entry.now)) }
{
    let mut body = Vec::new(alloc);
    entry.name.put(&mut body)?;
    entry.type_index.put(&mut body)?;
    put_record(out, 0x8C, &body)
}

/// Whether the external with an index has data in its virtual segment.
fn has_data(table: &Table<'_>, index: usize) -> bool
    ensures { result ≡ has_data table.now index }
{
    index < usize::from(SEGMENT_BASE) && is_one_of(&table.filled, SEGMENT_BASE + index as u16)
}

/// Appends the record in place of an entry with the index of an external.
fn put_entry_record(
    alloc: Global,
    out: &mut Vec<u8>,
    table: &Table<'_>,
    index: usize,
    entry: &Entry<'_>,
) -> Result<(), AllocError>
    ensures { OnOk result (out.new.items ≡ out.old.items ++ raw_bytes (entry_record table.now index entry.now)) }
{
    if !is_segment(entry.data_type) {
        put_comdef(alloc, out, entry, entry.data_type)
    } else if has_data(table, index) {
        put_extdef(alloc, out, entry)
    } else {
        put_comdef(alloc, out, entry, 0x62)
    }
}

/// The sum of two numbers of externals, which memory could not have if it overflowed.
fn sum(count: usize, more: usize) -> Result<usize, AllocError>
    ensures { IfOk result (λ n. n ≡ count + more) }
{
    match count.checked_add(more) {
        Some(sum) => Ok(sum),
        None => Err(AllocError),
    }
}

/// Appends the records in place of entries, after this many externals.
fn put_entries(
    alloc: Global,
    out: &mut Vec<u8>,
    table: &Table<'_>,
    before: usize,
    entries: &[At<Entry<'_>>],
) -> Result<(), AllocError>
    ensures { OnOk result (out.new.items ≡ out.old.items ++ flat_map raw_bytes (entry_records table.now before entries.now)) }
{
    let mut index = before;
    for entry in entries {
        index = sum(index, 1)?;
        put_entry_record(alloc, out, table, index, &entry.item)?;
    }
    Ok(())
}

/// Appends the records in place of a COMDEF.
fn put_comdef_in_place(
    alloc: Global,
    out: &mut Vec<u8>,
    table: &Table<'_>,
    before: &Before,
    record: &Front<'_>,
) -> Result<(), AllocError>
    ensures { OnOk result (out.new.items ≡ out.old.items ++ flat_map raw_bytes (comdef_in_place table.now before.now record.now)) }
{
    if !is_right(record) {
        return put_same(out, record);
    }
    let mut own = Vec::new(alloc);
    push_externals(alloc, &mut own, record)?;
    if !has_virtual(&own) {
        return put_same(out, record);
    }
    let entries = entries_of(alloc, record.body)?;
    put_entries(alloc, out, table, before.passed, &entries)
}

/// Appends a record with externals in place of the virtual segments that it names.
fn put_references(
    alloc: Global,
    out: &mut Vec<u8>,
    externals: &[Option<Virtual<'_>>],
    record: &Front<'_>,
) -> Result<(), AllocError>
    ensures { OnOk result (out.new.items ≡ out.old.items ++ raw_bytes (references_in_place externals.now record.now)) }
{
    let parts = parts_of(alloc, record)?;
    if !any_names_virtual(externals, &parts) {
        return put_same(out, record);
    }
    let mut body = Vec::new(alloc);
    put_parts(&mut body, record.kind, externals, &parts)?;
    put_record(out, record.kind, &body)
}

/// Appends the records in place of a record.
fn put_in_place(
    alloc: Global,
    out: &mut Vec<u8>,
    table: &Table<'_>,
    before: &Before,
    record: &Front<'_>,
) -> Result<(), AllocError>
    ensures { OnOk result (out.new.items ≡ out.old.items ++ flat_map raw_bytes (in_place table.now before.now record.now)) }
{
    if is_comdef(record.kind) {
        put_comdef_in_place(alloc, out, table, before, record)
    } else if is_data(record.kind) {
        put_data_in_place(alloc, out, table, before, record)
    } else {
        put_references(alloc, out, &table.virtuals, record)
    }
}

/// Adds indices to those that are there.
fn add_all(all: &mut FrameNumbers, indices: &[u16]) -> Result<(), AllocError>
    ensures { OnOk result (all.new ≡ fold with_number all.old indices.now) }
{
    for index in indices {
        all.add(*index)?;
    }
    Ok(())
}

/// What a module has up to the record after this one.
fn take_record(
    alloc: Global,
    before: &mut Before,
    externals: &[Option<Virtual<'_>>],
    record: &Front<'_>,
) -> Result<(), AllocError>
    ensures { OnOk result (before.new ≡ up_to_next externals.now before.old record.now) }
{
    let mut own = Vec::new(alloc);
    push_externals(alloc, &mut own, record)?;
    let mut indices = Vec::new(alloc);
    push_index(&mut indices, externals, record)?;
    add_all(&mut before.filled, &indices)?;
    before.passed = sum(before.passed, own.len())?;
    Ok(())
}

/// Appends the records in place of records, with what the module has up to each.
fn put_all(
    alloc: Global,
    out: &mut Vec<u8>,
    table: &Table<'_>,
    before: &mut Before,
    records: &[Front<'_>],
) -> Result<(), AllocError>
    ensures out { OnOk result (out.new.items ≡ out.old.items ++ flat_map raw_bytes (with_state table.now before.old records.now)) }
    ensures before { OnOk result (before.new ≡ fold (up_to_next table.now.virtuals) before.old records.now) }
{
    for record in records {
        put_in_place(alloc, out, table, before, record)?;
        take_record(alloc, before, &table.virtuals, record)?;
    }
    Ok(())
}

/// Appends the LNAMES of a virtual segment.
fn put_name(
    alloc: Global,
    out: &mut Vec<u8>,
    externals: &[Option<Virtual<'_>>],
    index: u16,
) -> Result<(), AllocError>
    ensures { OnOk result (out.new.items ≡ out.old.items ++ flat_map raw_bytes (lnames_of (virtual_at externals.now index))) }
{
    let Some(found) = virtual_at(externals, index) else {
        return Ok(());
    };
    let mut body = Vec::new(alloc);
    found.name.put(&mut body)?;
    put_record(out, 0x96, &body)
}

/// Appends the LNAMES of a module's virtual segments with data.
fn put_names(
    alloc: Global,
    out: &mut Vec<u8>,
    externals: &[Option<Virtual<'_>>],
    indices: &[u16],
) -> Result<(), AllocError>
    ensures { OnOk result (out.new.items ≡ out.old.items ++ flat_map raw_bytes (flat_map (λ i. lnames_of (virtual_at externals.now i)) indices.now)) }
{
    for index in indices {
        put_name(alloc, out, externals, *index)?;
    }
    Ok(())
}

/// The bytes of records with COMDATs in place of virtual segments, and with the LNAMES of these between both.
pub(crate) fn written(
    alloc: Global,
    table: &Table<'_>,
    front: &[Front<'_>],
    back: &[Front<'_>],
) -> Result<Vec<u8>, AllocError>
    ensures { IfOk result (λ v. v.items ≡ flat_map raw_bytes (with_before (replaced table.now) [] front.now ++ lnames_in table.now ++ with_before (replaced table.now) front.now back.now)) }
{
    let mut out = Vec::new(alloc);
    let mut before = Before {
        passed: 0,
        filled: FrameNumbers::new(alloc)?,
    };
    put_all(alloc, &mut out, table, &mut before, front)?;
    put_names(alloc, &mut out, &table.virtuals, table.filled.order())?;
    put_all(alloc, &mut out, table, &mut before, back)?;
    Ok(out)
}

//! From which record of an input a record of the module with COMDATs comes.

ghost use Rattle.std.specs.Prelude.{◌≡◌, ◌≤◌, ◌++◌, IfOk, IfSome, OnOk, flat_map, length, map};
ghost use Rattle.omf_virtual.specs.Inner.Counts.{count_of};
ghost use Rattle.omf_virtual.specs.Origins.{ComesFrom, before_names, comdats_origin, counts_by};
ghost use Rattle.omf_virtual.specs.Virtual.{front_count, lnames_in, lnames_of, table, virtual_at};

use crate::entry::entries_of;
use crate::externals::{
    Virtual, externals, has_virtual, is_comdef, push_of_record as push_externals, virtual_at,
};
use crate::names::front_count;
use crate::segment_data::indices;
use omf_explicit::{Front, distinct, is_right, module_of, origin_in};
use std::alloc::{AllocError, Global};

/// The number of records that replace a record.
fn count_of(alloc: Global, record: &Front<'_>) -> Result<usize, AllocError>
    ensures { IfOk result (λ n. n ≡ count_of record.now) }
{
    if !is_comdef(record.kind) || !is_right(record) {
        return Ok(1);
    }
    let mut own = Vec::new(alloc);
    push_externals(alloc, &mut own, record)?;
    if !has_virtual(&own) {
        return Ok(1);
    }
    Ok(entries_of(alloc, record.body)?.len())
}

/// Appends the number of records that replace each record.
fn push_counts(
    alloc: Global,
    counts: &mut Vec<usize>,
    records: &[Front<'_>],
) -> Result<(), AllocError>
    ensures { OnOk result (counts.new.items ≡ counts.old.items ++ map count_of records.now) }
{
    for record in records {
        counts.push(count_of(alloc, record)?)?;
    }
    Ok(())
}

/// The number of the LNAMES of the virtual segments with these indices.
fn lnames_count(externals: &[Option<Virtual<'_>>], indices: &[u16]) -> usize
    ensures { result ≡ length (flat_map (λ i. lnames_of (virtual_at externals.now i)) indices.now) }
{
    let mut count = 0;
    for index in indices {
        if virtual_at(externals, *index).is_some() {
            count += 1;
        }
    }
    count
}

/// The number of the LNAMES between both parts of a module's records.
fn added(alloc: Global, records: &[Front<'_>]) -> Result<usize, AllocError>
    ensures { IfOk result (λ n. n ≡ length (lnames_in (table records.now))) }
{
    let virtuals = externals(alloc, records)?;
    let filled = distinct(alloc, &indices(alloc, &virtuals, records)?)?;
    Ok(lnames_count(&virtuals, filled.order()))
}

/// The number of a record among those without the LNAMES, which come from the record before them.
fn before_names(front: usize, number: usize) -> usize
    ensures { result ≡ before_names front number }
{
    if number < front {
        number
    } else {
        number.saturating_sub(1)
    }
}

/// The number of records that replace each record, and after the first `front` that of the LNAMES.
fn counts_of(alloc: Global, records: &[Front<'_>], front: usize) -> Result<Vec<usize>, AllocError>
    requires { front ≤ length records.now }
    ensures { IfOk result (λ v. v.items ≡ counts_by (table records.now) front records.now) }
{
    let (before, after) = records.split_at(front);
    let mut counts = Vec::new(alloc);
    push_counts(alloc, &mut counts, before)?;
    counts.push(added(alloc, records)?)?;
    push_counts(alloc, &mut counts, after)?;
    Ok(counts)
}

/// The number of the record that is replaced by the record with this number; none if there is no such record.
fn origin_of(
    alloc: Global,
    records: &[Front<'_>],
    number: usize,
) -> Result<Option<usize>, AllocError>
    ensures { IfOk result (λ found. found ≡ comdats_origin records.now number) }
{
    let front = front_count(records);
    let counts = counts_of(alloc, records, front)?;
    match origin_in(&counts, number) {
        Some(origin) => Ok(Some(before_names(front, origin))),
        None => Ok(None),
    }
}

/// The number of the input's record from which the record with this number comes, in the module that `with_comdats` makes of the input: the LNAMES of the COMDATs come from the
/// record before them. None if the input begins with no module, or if that has no such record.
///
/// # Errors
///
/// `AllocError` if memory runs out.
pub fn comdats_origin(
    alloc: Global,
    bytes: &[u8],
    number: usize,
) -> Result<Option<usize>, AllocError>
    ensures { IfOk result (λ found. IfSome found (λ n. ComesFrom bytes.now number n)) }
{
    let Some(module) = module_of(alloc, bytes)? else {
        return Ok(None);
    };
    origin_of(alloc, &module.records, number)
}

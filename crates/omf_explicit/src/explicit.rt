//! A module without frame numbers.

ghost use Rattle.std.specs.Prelude.{◌≡◌, ◌≤◌, IfNone, IfOk, IfSome, false, flat_map, length, true};
ghost use Rattle.omf_frame.specs.Framing.{raw_bytes};
ghost use Rattle.omf_explicit.specs.Explicit.{front_count, gets_segments, segment_count, with_segments};
ghost use Rattle.omf_explicit.specs.Modules.{IsWithSegments, Stays};

use crate::numbers::{distinct, numbers};
use crate::plain::{SEGMENT_LIMIT, Table};
use crate::record::{Front, is_segdef, module_of};
use crate::writing::written;
use std::alloc::{AllocError, Global};

/// The number of SEGDEFs among records.
pub fn segment_count(records: &[Front<'_>]) -> usize
    ensures { result ≡ segment_count records.now }
{
    let mut count = 0;
    for record in records {
        if is_segdef(record.kind) {
            count += 1;
        }
    }
    count
}

/// The number of records up to the last SEGDEF; without a SEGDEF 1, or 0 without a record.
pub(crate) fn front_count(records: &[Front<'_>]) -> usize
    ensures count { result ≡ front_count records.now }
    ensures within { result ≤ length records.now }
{
    let mut count = records.len().min(1);
    let mut at = 0;
    for record in records {
        at += 1;
        if is_segdef(record.kind) {
            count = at;
        }
    }
    count
}

/// The bytes of a module's records with segments in place of frame numbers; none if they name no number, or if there were too many segments.
fn bytes_of(alloc: Global, records: &[Front<'_>]) -> Result<Option<Vec<u8>>, AllocError>
    ensures some { IfOk result (λ found. IfSome found (λ v. (gets_segments records.now ≡ true) × (v.items ≡ flat_map raw_bytes (with_segments records.now)))) }
    ensures none { IfOk result (λ found. IfNone found (gets_segments records.now ≡ false)) }
{
    let named = numbers(alloc, records)?;
    if named.is_empty() {
        return Ok(None);
    }
    let numbers = distinct(alloc, &named)?;
    let count = segment_count(records);
    if count.saturating_add(numbers.order().len()) > SEGMENT_LIMIT {
        return Ok(None);
    }
    let (front, back) = records.split_at(front_count(records));
    Ok(Some(written(alloc, &Table { count, numbers }, front, back)?))
}

/// A module without frame numbers, and the bytes after it in the input.
#[derive(Drop)]
pub struct PlainModule<'a> {
    pub bytes: Vec<u8>,
    pub rest: &'a [u8],
}

/// The module at the front of the bytes, with an absolute segment for each frame that a FIXUPP or MODEND names by its number (TIS OMF 1.1, "FIXUPP": F3, T3, T7).
/// The SEGDEFs are after the module's last one, in the order in which the numbers are first named; F3 becomes F0, T3 and T7 become T0 and T4. Such a record has its indices in
/// their shortest form; all others stay as they are. None if no number is named, or if the module's segments would be over 32,767: it stays as it is. So does a record
/// which cannot be read, or has a wrong checksum byte, and bytes that have no MODEND.
///
/// # Errors
///
/// `AllocError` if memory runs out.
pub fn with_segments<'a>(
    alloc: Global,
    bytes: &'a [u8],
) -> Result<Option<PlainModule<'a>>, AllocError>
    ensures some { IfOk result (λ found. IfSome found (λ m. IsWithSegments bytes.entry.now m.bytes.items m.rest.now)) }
    ensures none { IfOk result (λ found. IfNone found (Stays bytes.entry.now)) }
{
    let Some(module) = module_of(alloc, bytes)? else {
        return Ok(None);
    };
    match bytes_of(alloc, &module.records)? {
        Some(bytes) => Ok(Some(PlainModule {
            bytes,
            rest: module.rest,
        })),
        None => Ok(None),
    }
}

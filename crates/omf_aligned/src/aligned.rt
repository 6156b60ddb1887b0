//! A module with A = 4 in place of A = 6 and 7.

ghost use Rattle.std.specs.Prelude.{◌≡◌, IfNone, IfOk, IfSome, false, flat_map, true};
ghost use Rattle.std.specs.List.{list_any};
ghost use Rattle.omf_frame.specs.Framing.{raw_bytes};
ghost use Rattle.omf_aligned.specs.Aligned.{gets_pages, is_changed, with_pages};
ghost use Rattle.omf_aligned.specs.Changed.{IsWithPages, Stays};

use crate::writing::{SEGMENT_LIMIT, page_of, written};
use omf_explicit::{Front, PlainModule, module_of, segment_count};
use std::alloc::{AllocError, Global};

/// Whether one of some records is a SEGDEF that is changed.
fn has_pages(alloc: Global, records: &[Front<'_>]) -> Result<bool, AllocError>
    ensures { IfOk result (λ found. found ≡ list_any is_changed records.now) }
{
    for record in records {
        if page_of(alloc, record)?.is_some() {
            return Ok(true);
        }
    }
    Ok(false)
}

/// The bytes of a module's records with A = 4 in place of A = 6 and 7; none if there is no such segment, or if there are too many segments.
fn bytes_of(alloc: Global, records: &[Front<'_>]) -> Result<Option<Vec<u8>>, AllocError>
    ensures some { IfOk result (λ found. IfSome found (λ v. (gets_pages records.now ≡ true) × (v.items ≡ flat_map raw_bytes (with_pages records.now)))) }
    ensures none { IfOk result (λ found. IfNone found (gets_pages records.now ≡ false)) }
{
    if !has_pages(alloc, records)? {
        return Ok(None);
    }
    if segment_count(records) > SEGMENT_LIMIT {
        return Ok(None);
    }
    Ok(Some(written(alloc, records)?))
}

/// The module at the front of the bytes, with A = 4 in each SEGDEF that has A = 6 or 7 (TIS OMF 1.1, "SEGDEF"). After one with A = 6 comes a comment, of class DCH with the index
/// of the segment: the segment is at a multiple of 4,096 bytes (this profile's rule). All other records stay as they are. None if no SEGDEF has A = 6 or 7, or if there are over
/// 32,767 segments: the module stays as it is. So does a SEGDEF with another fault, or with a wrong checksum byte, and bytes that have no MODEND.
///
/// # Errors
///
/// `AllocError` if memory runs out.
pub fn with_pages<'a>(alloc: Global, bytes: &'a [u8]) -> Result<Option<PlainModule<'a>>, AllocError>
    ensures some { IfOk result (λ found. IfSome found (λ m. IsWithPages bytes.entry.now m.bytes.items m.rest.now)) }
    ensures none { IfOk result (λ found. IfNone found (Stays bytes.entry.now)) }
{
    let Some(module) = module_of(alloc, bytes)? else {
        return Ok(None);
    };
    match bytes_of(alloc, &module.records)? {
        Some(bytes) => Ok(Some(PlainModule {
            bytes,
            rest: module.rest,
        })),
        None => Ok(None),
    }
}

//! From which record of an input a record of the changed module comes.

ghost use Rattle.std.specs.Prelude.{◌≡◌, IfOk, IfSome};
ghost use Rattle.omf_explicit.specs.Origins.{ComesFrom, HasRecord, origin_from, segments_origin};

use crate::explicit::front_count;
use crate::numbers::{distinct, numbers};
use crate::record::{Front, front_of, is_end, module_of};
use std::alloc::{AllocError, Global};

/// The number of the record that is replaced by the record with this number, if this many records replace each; none if they are fewer.
pub fn origin_in(counts: &[usize], number: usize) -> Option<usize>
    ensures { result ≡ origin_from 0 counts.now number }
{
    let mut origin = 0;
    let mut left = number;
    for count in counts {
        if left < *count {
            return Some(origin);
        }
        left -= *count;
        origin += 1;
    }
    None
}

/// The number of the record from which a record of the module with segments comes.
fn origin_of(alloc: Global, records: &[Front<'_>], number: usize) -> Result<usize, AllocError>
    ensures { IfOk result (λ n. n ≡ segments_origin records.now number) }
{
    let front = front_count(records);
    if number < front {
        return Ok(number);
    }
    let added = distinct(alloc, &numbers(alloc, records)?)?.order().len();
    if number - front < added {
        return Ok(front.saturating_sub(1));
    }
    Ok(number.saturating_sub(added))
}

/// The number of the input's record from which the record with this number comes, in the module that `with_segments` makes of the input: a segment comes from the record before
/// it. None if the input begins with no module.
///
/// # Errors
///
/// `AllocError` if memory runs out.
pub fn segments_origin(
    alloc: Global,
    bytes: &[u8],
    number: usize,
) -> Result<Option<usize>, AllocError>
    ensures { IfOk result (λ found. IfSome found (λ n. ComesFrom bytes.now number n)) }
{
    let Some(module) = module_of(alloc, bytes)? else {
        return Ok(None);
    };
    Ok(Some(origin_of(alloc, &module.records, number)?))
}

/// The record with this number, from 0, and its offset; none if a MODEND or the end of the whole records comes before it.
pub fn record_at<'a>(bytes: &'a [u8], number: usize) -> Option<(Front<'a>, usize)>
    ensures { IfSome result (λ r. HasRecord bytes.entry.now number r.1 r.0) }
{
    let mut rest = bytes;
    for _passed in 0..number {
        match front_of(rest) {
            Some((record, after)) => {
                if is_end(record.kind) {
                    return None;
                }
                rest = after;
            }
            None => return None,
        }
    }
    let start = bytes.len().saturating_sub(rest.len());
    match front_of(rest) {
        Some((record, _)) => Some((record, start)),
        None => None,
    }
}

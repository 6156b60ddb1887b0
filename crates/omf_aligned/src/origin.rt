//! From which record of an input a record of the module with A = 4 comes.

ghost use Rattle.std.specs.Prelude.{◌≡◌, IfOk, IfSome};
ghost use Rattle.omf_aligned.specs.Inner.Counts.{count_of};
ghost use Rattle.omf_aligned.specs.Origins.{ComesFrom, counts, pages_origin};

use crate::writing::{alignment_of, page_of};
use omf_explicit::{Front, module_of, origin_in};
use std::alloc::{AllocError, Global};

/// The number of records that replace a record.
fn count_of(alloc: Global, record: &Front<'_>) -> Result<usize, AllocError>
    ensures { IfOk result (λ n. n ≡ count_of record.now) }
{
    match page_of(alloc, record)? {
        Some(_) => {
            if alignment_of(record.body) == 6 {
                Ok(2)
            } else {
                Ok(1)
            }
        }
        None => Ok(1),
    }
}

/// The number of records that replace each record.
fn counts_of(alloc: Global, records: &[Front<'_>]) -> Result<Vec<usize>, AllocError>
    ensures { IfOk result (λ v. v.items ≡ counts records.now) }
{
    let mut counts = Vec::new(alloc);
    for record in records {
        counts.push(count_of(alloc, record)?)?;
    }
    Ok(counts)
}

/// The number of the record that is replaced by the record with this number; none if there is no such record.
fn origin_of(
    alloc: Global,
    records: &[Front<'_>],
    number: usize,
) -> Result<Option<usize>, AllocError>
    ensures { IfOk result (λ found. found ≡ pages_origin records.now number) }
{
    let counts = counts_of(alloc, records)?;
    Ok(origin_in(&counts, number))
}

/// The number of the input's record from which the record with this number comes, in the module that `with_pages` makes of the input: a comment comes from the SEGDEF before it.
/// None if the input begins with no module, or if that has no such record.
///
/// # Errors
///
/// `AllocError` if memory runs out.
pub fn pages_origin(alloc: Global, bytes: &[u8], number: usize) -> Result<Option<usize>, AllocError>
    ensures { IfOk result (λ found. IfSome found (λ n. ComesFrom bytes.now number n)) }
{
    let Some(module) = module_of(alloc, bytes)? else {
        return Ok(None);
    };
    origin_of(alloc, &module.records, number)
}

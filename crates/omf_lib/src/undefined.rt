//! The entries of a dictionary whose members do not define their names.

ghost use Rattle.std.specs.Prelude.{◌≡◌, ◌<◌, ◌++◌, List, ℕ, false, IfOk, string_bytes};
ghost use Rattle.omf_library.specs.Dictionary.{IsBucket, block_count, block_of, is_case_sensitive};
ghost use Rattle.omf_lib.specs.Defining.{AreEntriesDefined, Definer, HasUndefined, HasUndefinedIn, is_undefined_at, undefined_text};
ghost use Rattle.omf_lib.specs.Keys.{all_keys, IsKeySet};

use crate::defining::{KeySet, is_undefined};
use crate::fault::{Fault, Named};
use crate::finding::is_either;
use crate::library::Library;
use crate::shown::{Shown, Stop};
use crate::text::put_fault;
use omf_frame::Sink;
use omf_library::{BLOCK, BUCKETS, Bucket, Dictionary};
use std::alloc::AllocError;

/// Appends the line of a bucket's entry, if its member does not define its name. Returns whether that is so.
fn put_bucket(
    text: &mut String,
    keys: &KeySet,
    is_case_sensitive: bool,
    offset: usize,
    bucket: Bucket<'_>,
) -> Result<bool, AllocError>
    ensures { (ds : List Definer) → IsKeySet keys.now (all_keys is_case_sensitive ds) → (block : List ℕ) → (number : ℕ) → IsBucket block number bucket.entry → IfOk result (λ found. (is_undefined_at is_case_sensitive ds block number ≡ found) × (string_bytes text.new ≡ string_bytes text.old ++ undefined_text is_case_sensitive ds offset block number)) }
{
    let Bucket::Entry { page, name } = bucket else {
        return Ok(false);
    };
    if is_undefined(*text.allocator(), keys, is_case_sensitive, page, name)? {
        put_fault(text, Fault::Undefined(Named { offset, page, name }))?;
        Ok(true)
    } else {
        Ok(false)
    }
}

/// Appends the lines of a block, which begins at an offset of the file. Returns whether there is one.
fn put_block(
    text: &mut String,
    keys: &KeySet,
    dictionary: Dictionary<'_>,
    start: usize,
    number: usize,
) -> Result<bool, AllocError>
    requires { number < block_count dictionary.bytes.now }
    ensures { (ds : List Definer) → IsKeySet keys.now (all_keys dictionary.entry.is_case_sensitive ds) → IfOk result (λ found. HasUndefinedIn dictionary.entry.is_case_sensitive ds (block_of dictionary.entry.bytes.now number) found) }
{
    let mut is_one = false;
    for bucket in 0..BUCKETS {
        let found = put_bucket(
            text,
            keys,
            dictionary.is_case_sensitive,
            start.saturating_add(bucket),
            dictionary.bucket(number, bucket),
        )?;
        is_one = is_either(is_one, found);
    }
    Ok(is_one)
}

/// Writes the lines of a dictionary, which begins at an offset of the file. Returns whether there is one.
fn put_blocks<K: Sink>(
    shown: &mut Shown,
    writer: &mut K,
    keys: &KeySet,
    dictionary: Dictionary<'_>,
    start: usize,
) -> Result<bool, Stop>
    ensures { (ds : List Definer) → IsKeySet keys.now (all_keys dictionary.entry.is_case_sensitive ds) → IfOk result (λ found. HasUndefined dictionary.entry.is_case_sensitive ds dictionary.entry.bytes.now found) }
{
    let mut is_one = false;
    for number in 0..dictionary.blocks() {
        let at = number.saturating_mul(BLOCK).saturating_add(start);
        let found = put_block(&mut shown.text, keys, dictionary, at, number)?;
        shown.flush(writer)?;
        is_one = is_either(is_one, found);
    }
    Ok(is_one)
}

/// Writes a line for each entry whose member does not define its name, by the keys of what the members define. Returns whether there is one, or no
/// dictionary is in the file.
pub fn judge_definitions<K: Sink>(
    shown: &mut Shown,
    writer: &mut K,
    library: &Library<'_>,
    keys: &KeySet,
) -> Result<bool, Stop>
    ensures { (ds : List Definer) → IsKeySet keys.now (all_keys (is_case_sensitive library.now.header) ds) → IfOk result (λ found. found ≡ false → AreEntriesDefined library.now.header library.now.bytes.now ds) }
{
    match library.dictionary() {
        Some(dictionary) => {
            let start = library.dictionary_offset();
            put_blocks(shown, writer, keys, dictionary, start)
        }
        None => Ok(true),
    }
}

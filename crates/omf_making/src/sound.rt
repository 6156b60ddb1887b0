//! Whether the dictionary of a library that was made has no names but those of its members.

ghost use Rattle.std.specs.Prelude.{◌≡◌, ◌<◌, length, slice_index};
ghost use Rattle.std.specs.Bool.{OnTrue};
ghost use Rattle.omf_library.specs.Dictionary.{block_count, block_of};
ghost use Rattle.omf_making.specs.Made.{AreSoundEntries, AreSoundIn, IsSoundEntry, opened_seen};

use crate::making::{Opened, is_defined_at};
use omf_library::{BUCKETS, Bucket, block_count, block_of, bucket_of};

/// Whether a bucket is empty, or has the entry of a name that the member at its page defines.
#[tactic(auto, using(crate::proofs::SoundLaws::sound_empty, crate::proofs::SoundLaws::sound_found))]
fn is_sound_entry(opened: Opened<'_>, block: &[u8], bucket: usize) -> bool
    requires page { 0 < opened.page }
    requires bucket { bucket < length block.now }
    ensures { OnTrue result (IsSoundEntry (opened_seen opened.entry) block.now (slice_index block.now bucket)) }
{
    match bucket_of(block, bucket) {
        Bucket::Empty => true,
        Bucket::Entry { page, name } => is_defined_at(opened, name, usize::from(page)),
        Bucket::Outside => false,
    }
}

/// Whether each bucket of a block is so. Buckets with one entry, one after another, are looked at once.
#[tactic(auto, using(crate::proofs::SoundLaws::sound_more))]
fn is_sound_block(opened: Opened<'_>, block: &[u8]) -> bool
    requires page { 0 < opened.page }
    requires whole { 37 < length block.now }
    ensures { OnTrue result (AreSoundIn (opened_seen opened.entry) block.now) }
{
    let mut last = 0;
    for bucket in 0..BUCKETS {
        let entry = block[bucket];
        if entry != last {
            if !is_sound_entry(opened, block, bucket) {
                return false;
            }
            last = entry;
        }
    }
    true
}

/// Whether each bucket of each block is so.
pub(crate) fn are_sound(opened: Opened<'_>) -> bool
    requires { 0 < opened.page }
    ensures { OnTrue result (AreSoundEntries (opened_seen opened.entry)) }
{
    let bytes = opened.dictionary.bytes;
    for number in 0..block_count(bytes) {
        if !is_sound_block(opened, block_of(bytes, number)) {
            return false;
        }
    }
    true
}

//! The hash of the dictionary (TIS OMF 1.1, appendix 2, "Dictionary"): where a name is looked for first.

ghost use Rattle.std.specs.Prelude.{◌≡◌, ◌%◌, ◌<◌, ◌≤◌, ◌^◌, length, max};
ghost use Rattle.omf_library.specs.Hash.{backwards, forwards, length_byte, mixed, probe_of, turned_left, turned_right, with_character};

/// The number of buckets of a block.
pub const BUCKETS: usize = 37;

/// The block and the bucket that are tried first for a name, and the steps from these to the next ones.
#[derive(Clone, Copy, Debug, PartialEq, Eq)]
pub struct Probe {
    /// The first block, from 0.
    pub block: usize,
    /// The step to the next block: 1 or more.
    pub block_step: usize,
    /// The first bucket, from 0 to 36.
    pub bucket: usize,
    /// The step to the next bucket: 1 to 36.
    pub bucket_step: usize,
}

/// A word, rotated to the left by two bits.
fn turned_left(word: u16) -> u16
    ensures { result ≡ turned_left word }
{
    (word % 0x4000) * 4 + word / 0x4000
}

/// A word, rotated to the right by two bits.
fn turned_right(word: u16) -> u16
    ensures { result ≡ turned_right word }
{
    word / 4 + (word % 4) * 0x4000
}

/// Mixes a character into a word. Its bit 20H is set, so that capital and small letters are the same.
fn with_character(word: u16, character: u8) -> u16
    ensures { result ≡ with_character word character }
{
    word ^ u16::from(character | 0x20)
}

/// Mixes characters into a word, which is rotated to the left before each.
fn mixed_left(word: u16, characters: &[u8]) -> u16
    ensures { result ≡ mixed turned_left word characters.now }
{
    characters
        .iter()
        .fold(word, |word, c| with_character(turned_left(word), *c))
}

/// Mixes characters into a word, which is rotated to the right before each.
fn mixed_right(word: u16, characters: &[u8]) -> u16
    ensures { result ≡ mixed turned_right word characters.now }
{
    characters
        .iter()
        .fold(word, |word, c| with_character(turned_right(word), *c))
}

/// The same as `mixed_left`, from the last character to the first.
fn mixed_left_back(characters: &[u8]) -> u16
    ensures { result ≡ mixed turned_left 0 (backwards characters.now) }
{
    characters
        .iter()
        .rev()
        .fold(0, |word, c| with_character(turned_left(word), *c))
}

/// The same as `mixed_right`, from the last character to the first.
fn mixed_right_back(characters: &[u8]) -> u16
    ensures { result ≡ mixed turned_right 0 (backwards characters.now) }
{
    characters
        .iter()
        .rev()
        .fold(0, |word, c| with_character(turned_right(word), *c))
}

/// The length byte of a name, with its bit 20H set.
fn length_byte(name: &[u8]) -> u16
    ensures { result ≡ length_byte name.now }
{
    (name.len() % 256) as u16 | 0x20
}

/// A name without its last character.
fn forwards<'a>(name: &'a [u8]) -> &'a [u8]
    ensures { result.now ≡ forwards name.entry.now }
{
    &name[..name.len().saturating_sub(1)]
}

/// A remainder as a step: 0 becomes 1.
fn step(word: u16, count: usize) -> usize
    requires { 0 < count }
    ensures { result ≡ max 1 (word % count) }
{
    (usize::from(word) % count).max(1)
}

/// Where a name is looked for in a dictionary of this number of blocks.
pub fn probe_of(blocks: usize, name: &[u8]) -> Probe
    requires { 0 < blocks }
    ensures value { result ≡ probe_of blocks name.now }
    ensures block { result.block < blocks }
    ensures block_step { result.block_step ≤ blocks }
    ensures bucket { result.bucket < 37 }
    ensures bucket_step { result.bucket_step < 37 }
{
    let front = forwards(name);
    let first = length_byte(name);
    Probe {
        block: usize::from(mixed_left(first, front)) % blocks,
        block_step: step(mixed_left_back(name), blocks),
        bucket: usize::from(mixed_right_back(name)) % BUCKETS,
        bucket_step: step(mixed_right(first, front), BUCKETS),
    }
}

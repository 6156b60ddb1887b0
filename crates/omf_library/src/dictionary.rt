//! The dictionary of a library (TIS OMF 1.1, appendix 2, "Dictionary"): its entries, and two ways to search them.

ghost use Rattle.std.specs.Prelude.{◌≡◌, ◌+◌, ◌*◌, ◌<◌, ◌≤◌, ◌^◌, length, true};
ghost use Rattle.omf_library.specs.Dictionary.{block_count, block_of, folded, is_inside, is_same_name, look_of, page_at, name_at, IsBucket, IsDictionary, IsFirstEntry, IsFirstInBlock};

use crate::hash::BUCKETS;
use crate::header::Header;

/// The size of a block.
pub const BLOCK: usize = 512;

/// What a bucket has for a name.
#[derive(Clone, Copy, Debug, PartialEq, Eq)]
pub enum Look {
    Empty,
    /// The name's entry, with the page of its member.
    Found(u16),
    /// The entry of another name, or one that passes the end of its block.
    Other,
}

/// What a bucket of a block has.
#[derive(Clone, Copy)]
pub enum Bucket<'a> {
    Empty,
    Entry {
        /// The page of a member.
        page: u16,
        name: &'a [u8],
    },
    /// The entry passes the end of the block.
    Outside,
}

/// A character as names are compared.
pub fn folded(is_case_sensitive: bool, c: u8) -> u8
    ensures { result ≡ folded is_case_sensitive c }
{
    if !is_case_sensitive && c >= b'A' && c <= b'Z' {
        c + 32
    } else {
        c
    }
}

/// Whether two names are one.
pub fn is_same_name(is_case_sensitive: bool, one: &[u8], other: &[u8]) -> bool
    ensures { result ≡ is_same_name is_case_sensitive one.now other.now }
{
    if one.len() != other.len() {
        return false;
    }
    let mut rest = one;
    let mut others = other;
    while let [c, cs @ ..] = rest {
        match others {
            [] => return false,
            [d, ds @ ..] => {
                if folded(is_case_sensitive, *c) != folded(is_case_sensitive, *d) {
                    return false;
                }
                rest = cs;
                others = ds;
            }
        }
    }
    others.is_empty()
}

/// Whether the entry at an offset ends in its block.
fn is_inside(block: &[u8], at: usize) -> bool
    requires { at < 2 ^ 32 }
    ensures { result ≡ is_inside block.now at }
{
    match block.get(at) {
        Some(length) => at + usize::from(*length) + 3 <= block.len(),
        None => false,
    }
}

/// The name of the entry at an offset.
fn name_at<'a>(block: &'a [u8], at: usize) -> &'a [u8]
    requires { at + 1 ≤ length block.now }
    ensures { result.now ≡ name_at block.entry.now at }
{
    let length = usize::from(block[at]);
    let rest = &block[at + 1..];
    &rest[..length.min(rest.len())]
}

/// The page of the entry at an offset.
fn page_at(block: &[u8], at: usize) -> u16
    requires inside { is_inside block.now at ≡ true }
    requires low { at < 2 ^ 32 }
    ensures { result ≡ page_at block.now at }
{
    let low = at + 1 + usize::from(block[at]);
    u16::from(block[low]) + 256 * u16::from(block[low + 1])
}

/// The length of the name to whose entry a bucket points, if that is in the block.
pub(crate) fn entry_length(block: &[u8], bucket: usize) -> Option<usize>
    requires { bucket < length block.now }
{
    let at = 2 * usize::from(block[bucket]);
    match block.get(at) {
        Some(length) if at != 0 => Some(usize::from(*length)),
        _ => None,
    }
}

/// What a bucket has for a name.
pub(crate) fn look_of(is_case_sensitive: bool, block: &[u8], bucket: usize, name: &[u8]) -> Look
    requires { bucket < length block.now }
    ensures { result ≡ look_of is_case_sensitive block.now bucket name.now }
{
    let at = 2 * usize::from(block[bucket]);
    if at == 0 {
        return Look::Empty;
    }
    if is_inside(block, at) && is_same_name(is_case_sensitive, name_at(block, at), name) {
        return Look::Found(page_at(block, at));
    }
    Look::Other
}

/// The dictionary of a library.
#[derive(Clone, Copy)]
pub struct Dictionary<'a> {
    /// Its blocks.
    pub bytes: &'a [u8],
    /// Whether names that differ in case differ.
    pub is_case_sensitive: bool,
}

/// The dictionary of a library with this header; None where it is not all there.
pub fn dictionary_in<'a>(header: Header, bytes: &'a [u8]) -> Option<Dictionary<'a>>
    ensures { IsDictionary header bytes.entry.now result }
{
    let offset = header.dictionary as usize;
    let end = offset + BLOCK * header.blocks as usize;
    if bytes.len() < end {
        return None;
    }
    Some(Dictionary {
        bytes: bytes.split_at(offset).1.split_at(end - offset).0,
        is_case_sensitive: header.flags % 2 == 1,
    })
}

/// The number of blocks of a dictionary.
pub fn block_count(bytes: &[u8]) -> usize
    ensures { result ≡ block_count bytes.now }
{
    bytes.len() / BLOCK
}

/// The bytes of a block.
pub fn block_of<'a>(bytes: &'a [u8], number: usize) -> &'a [u8]
    requires { number < block_count bytes.now }
    ensures value { result.now ≡ block_of bytes.entry.now number }
    ensures whole { length result.now ≡ 512 }
{
    let rest = bytes.split_at(BLOCK * number).1;
    rest.split_at(BLOCK).0
}

/// The page of the first entry of a name in a block.
fn first_in_block(is_case_sensitive: bool, block: &[u8], name: &[u8]) -> Option<u16>
    requires { 37 ≤ length block.now }
    ensures { IsFirstInBlock is_case_sensitive block.now name.now result }
{
    for bucket in 0..BUCKETS {
        if let Look::Found(page) = look_of(is_case_sensitive, block, bucket, name) {
            return Some(page);
        }
    }
    None
}

/// The page of the first entry of a name, wherever its hash is.
pub(crate) fn first_entry(is_case_sensitive: bool, bytes: &[u8], name: &[u8]) -> Option<u16>
    ensures { IsFirstEntry is_case_sensitive bytes.now name.now result }
{
    for number in 0..block_count(bytes) {
        match first_in_block(is_case_sensitive, block_of(bytes, number), name) {
            Some(page) => return Some(page),
            None => {}
        }
    }
    None
}

/// What a bucket of a block has.
pub fn bucket_of<'a>(block: &'a [u8], bucket: usize) -> Bucket<'a>
    requires { bucket < length block.now }
    ensures { IsBucket block.entry.now bucket result }
{
    let at = 2 * usize::from(block[bucket]);
    if at == 0 {
        return Bucket::Empty;
    }
    if !is_inside(block, at) {
        return Bucket::Outside;
    }
    Bucket::Entry {
        page: page_at(block, at),
        name: name_at(block, at),
    }
}

impl<'a> Dictionary<'a> {
    /// The number of its blocks.
    pub fn blocks(&self) -> usize
        ensures { result ≡ block_count self.now.bytes.now }
    {
        block_count(self.bytes)
    }

    /// What a bucket of a block has. Both count from 0; a block has 37 buckets.
    pub fn bucket(&self, number: usize, bucket: usize) -> Bucket<'a>
        requires number { number < block_count self.now.bytes.now }
        requires bucket { bucket < 37 }
        ensures { IsBucket (block_of self.now.bytes.now number) bucket result }
    {
        bucket_of(block_of(self.bytes, number), bucket)
    }

    /// The page of the first entry of a name, in the order of the blocks and their buckets, wherever its hash is.
    pub fn first_entry(&self, name: &[u8]) -> Option<u16>
        ensures { IsFirstEntry self.now.is_case_sensitive self.now.bytes.now name.now result }
    {
        first_entry(self.is_case_sensitive, self.bytes, name)
    }
}

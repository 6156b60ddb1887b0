//! The bytes of a library that is made. They are read back before they are used (`make`), so these functions promise
//! nothing but that they are safe and return.

ghost use Rattle.std.specs.Prelude.{◌≡◌, ◌+◌, ◌*◌, ◌<◌, ◌≤◌, ◌^◌, length};

use crate::entries::{Entry, First, entries_of};
use crate::making::{MakeFault, Part};
use crate::names::is_strong;
use crate::pages::page_for;
use crate::prime::is_prime;
use omf_library::{BLOCK, BUCKETS, Probe, credit_of, hash_cost, looks_cost, probe_of};
use std::alloc::{AllocError, Global};

/// The most blocks of a dictionary: the greatest prime of 16 bits.
const MOST_BLOCKS: usize = 65_521;

/// The mark of a block that is full.
const FULL: u8 = 0xFF;

/// The bytes of a block for entries, after its buckets and its mark.
const ROOM: usize = BLOCK - BUCKETS - 1;

/// Half the offset of the first entry of a block.
const FIRST_ENTRY: u8 = (BUCKETS as u8 + 1) / 2;

/// How many searches for a name a check of the library makes: one for the name, two for its entry.
const SEARCHES: u64 = 3;

/// What an empty block costs, as searches are counted.
const EMPTY: u64 = 1024;

/// The number of pages that a module takes.
fn pages_of(page: usize, length: usize) -> usize {
    length.div_ceil(page.max(1))
}

/// An empty bucket of a block.
#[derive(Clone, Copy)]
struct Slot {
    bucket: usize,
    /// How many buckets were looked at, with this one.
    looks: u8,
}

/// The empty bucket of a block at which a search for a name ends.
fn slot_of(block: &[u8], probe: Probe) -> Option<Slot>
    requires whole { 37 ≤ length block.now }
    requires bucket { probe.bucket < 37 }
    requires step { probe.bucket_step < 37 }
{
    let mut bucket = probe.bucket;
    for looked in 1..=BUCKETS as u8 {
        if block[bucket] == 0 {
            return Some(Slot {
                bucket,
                looks: looked,
            });
        }
        bucket = (bucket + probe.bucket_step) % BUCKETS;
    }
    None
}

/// Writes a byte, if the index is inside.
fn set(block: &mut [u8], at: usize, byte: u8) {
    if let Some(place) = block.get_mut(at) {
        *place = byte;
    }
}

/// Writes an entry, and the bucket that points to it. Returns whether there was room.
fn write_entry(block: &mut [u8], bucket: usize, entry: Entry<'_>) -> bool {
    let name = entry.name;
    let free = match block.get(BUCKETS) {
        Some(free) => *free,
        None => FULL,
    };
    let at = 2 * usize::from(free);
    let end = at.saturating_add(name.len()).saturating_add(3);
    if free == FULL || name.len() > 255 || end > BLOCK {
        return false;
    }
    set(block, bucket, free);
    set(block, at, name.len() as u8);
    for (i, c) in name.iter().enumerate() {
        set(block, at.saturating_add(1).saturating_add(i), *c);
    }
    let [low, high] = entry.page.to_le_bytes();
    set(block, end.saturating_sub(2), low);
    set(block, end.saturating_sub(1), high);
    set(block, BUCKETS, end.div_ceil(2).min(255) as u8);
    true
}

/// Marks a block as full. Its empty buckets point to its first entry, so that no search ends at one of them: each looks
/// at all buckets, and goes on in the next block at the bucket where it began, by both rules. Returns how many of the looks
/// count at most: buckets with one entry, one after another, count once.
fn close_block(block: &mut [u8]) -> u8 {
    let mut entries = 0u8;
    for bucket in 0..BUCKETS {
        if block.get(bucket) == Some(&0) {
            set(block, bucket, FIRST_ENTRY);
        } else {
            entries = entries.saturating_add(1);
        }
    }
    set(block, BUCKETS, FULL);
    entries.saturating_mul(2).clamp(1, BUCKETS as u8)
}

/// What came of putting an entry into a block.
#[derive(Clone, Copy)]
enum Placed {
    /// It is there, and a search for it looks at this many buckets.
    Done(u8),
    /// There is no room. The block is closed now, and a search looks at this many of its buckets at most.
    Closed(u8),
}

/// Puts an entry into a block. A block that has no room for it is full from then on.
fn put_in_block(block: &mut [u8], probe: Probe, entry: Entry<'_>) -> Placed
    requires whole { 37 ≤ length block.old }
    requires bucket { probe.bucket < 37 }
    requires step { probe.bucket_step < 37 }
{
    match slot_of(block, probe) {
        Some(slot) if write_entry(block, slot.bucket, entry) => Placed::Done(slot.looks),
        Some(_) | None => Placed::Closed(close_block(block)),
    }
}

/// A dictionary that is filled.
#[derive(Drop)]
struct Filled {
    blocks: Vec<u8>,
    /// For each block 0, or, once it is closed, how many of its buckets a search looks at, at most.
    closed: Vec<u8>,
    /// The bytes that its entries take.
    used: usize,
    /// What the searches of a check may still cost. At 0 they are too long.
    searches: u64,
}

/// Puts an entry into a dictionary, where both searches find it. Returns how many buckets a search for it looks at, at most;
/// None if no block has room. Closed blocks are passed, as they have no name twice.
fn put_entry(blocks: &mut [u8], closed: &mut [u8], entry: Entry<'_>) -> Option<u64> {
    let count = blocks.len() / BLOCK;
    if count == 0 {
        return None;
    }
    let probe = probe_of(count, entry.name);
    let mut number = probe.block;
    let mut looks = 0u64;
    for _passed in 0..count {
        let start = BLOCK * number;
        if closed.get(number) == Some(&0) {
            match put_in_block(&mut blocks[start..start + BLOCK], probe, entry) {
                Placed::Done(own) => return Some(looks.saturating_add(u64::from(own))),
                Placed::Closed(most) => set(closed, number, most),
            }
        }
        if let Some(most) = closed.get(number) {
            looks = looks.saturating_add(u64::from(*most));
        }
        number = (number + probe.block_step) % count;
    }
    None
}

/// Puts the entries of a dictionary, and takes what that cost from the credit. Returns whether each has a place, and the
/// blocks are not too full, and the searches not too long; it ends where they are.
fn put_all(filled: &mut Filled, entries: &[Entry<'_>], credit: &mut u64) -> bool {
    let count = filled.blocks.len() / BLOCK;
    for entry in entries {
        if entry.times == 0 {
            continue;
        }
        let Some(looks) = put_entry(&mut filled.blocks, &mut filled.closed, *entry) else {
            return false;
        };
        let cost = hash_cost(entry.name);
        *credit = credit.saturating_sub(cost.saturating_add(looks));
        let search = cost.saturating_add(looks_cost(entry.name, looks));
        let searches = search.saturating_mul(SEARCHES).saturating_mul(entry.times);
        filled.searches = filled.searches.saturating_sub(searches);
        filled.used = filled.used.saturating_add(entry_size(entry.name));
        if *credit == 0 || filled.searches == 0 || !has_room(count, filled.used) {
            return false;
        }
    }
    true
}

/// The first pages of the parts.
fn first_pages(alloc: Global, page: usize, parts: &[Part]) -> Result<Vec<First>, MakeFault> {
    let mut pages = Vec::new(alloc);
    let mut next = 1usize;
    for (number, part) in parts.iter().enumerate() {
        match u16::try_from(next) {
            Ok(first) => pages.push(First {
                part: number,
                page: first,
            })?,
            Err(_) => return Err(MakeFault::TooLarge),
        }
        next = next.saturating_add(pages_of(page, part.bytes.len()));
    }
    Ok(pages)
}

/// Empty blocks: the free space of each begins after its buckets and its mark.
fn empty_blocks(alloc: Global, count: usize) -> Result<Vec<u8>, AllocError>
    requires { count < 65536 }
{
    let mut blocks = vec![in alloc; 0u8; count * BLOCK]?;
    for number in 0..count {
        set(&mut blocks, number * BLOCK + BUCKETS, FIRST_ENTRY);
    }
    Ok(blocks)
}

/// Whether entries of this size fill at most four fifths of the room of the blocks, so that a search passes few full ones.
fn has_room(count: usize, used: usize) -> bool {
    used.saturating_add(used / 4) <= count.saturating_mul(ROOM)
}

/// Fills a dictionary in this number of blocks, and takes what that cost from the credit. Returns its bytes if each entry has
/// a place, and the blocks are not too full, and the searches of a check not too long.
fn fill(
    alloc: Global,
    count: usize,
    size: usize,
    entries: &[Entry<'_>],
    credit: &mut u64,
) -> Result<Option<Vec<u8>>, AllocError>
    requires { count < 65536 }
{
    *credit = credit.saturating_sub(count as u64 * EMPTY);
    if *credit == 0 {
        return Ok(None);
    }
    let mut filled = Filled {
        blocks: empty_blocks(alloc, count)?,
        closed: vec![in alloc; 0u8; count]?,
        used: 0,
        searches: credit_of(size.saturating_add(count * BLOCK)),
    };
    if put_all(&mut filled, entries, credit) {
        Ok(Some(filled.blocks))
    } else {
        Ok(None)
    }
}

/// The bytes that the entry of a name takes: an even number, and a bucket's share of its block or more.
fn entry_size(name: &[u8]) -> usize {
    let size = name.len().saturating_add(4) / 2 * 2;
    size.max(ROOM.div_ceil(BUCKETS))
}

/// The bytes that the entries of a part take, without COMDATs and aliases: these may be those of other parts.
fn entries_size(part: &Part) -> usize {
    let mut size = 0usize;
    for defined in part.names.iter() {
        if is_strong(defined.kind) {
            size = size.saturating_add(entry_size(defined.name.as_slice()));
        }
    }
    size
}

/// The least number of blocks to try: that in which the entries, without COMDATs and aliases, fill four fifths of the room.
fn least_blocks(parts: &[Part]) -> usize {
    let mut size = 0usize;
    for part in parts {
        size = size.saturating_add(entries_size(part));
    }
    size.saturating_add(size / 4).div_ceil(ROOM).max(2)
}

/// The bytes of the parts together.
fn size_of(parts: &[Part]) -> usize {
    let mut size = 0usize;
    for part in parts {
        size = size.saturating_add(part.bytes.len());
    }
    size
}

/// The dictionary of the parts: the least number of blocks is tried first, then primes that grow by a quarter. All together
/// may cost what the searches of a library of this size may.
fn dictionary_of(
    alloc: Global,
    parts: &[Part],
    entries: &[Entry<'_>],
) -> Result<Vec<u8>, MakeFault> {
    let size = size_of(parts);
    let mut credit = credit_of(size);
    let mut next = least_blocks(parts);
    for count in 2..=MOST_BLOCKS {
        if count >= next && is_prime(count) {
            if let Some(blocks) = fill(alloc, count, size, entries, &mut credit)? {
                return Ok(blocks);
            }
            if credit == 0 {
                return Err(MakeFault::LongSearches);
            }
            next = count + count / 4 + 1;
        }
    }
    Err(MakeFault::LongSearches)
}

/// Appends zeros up to a multiple of a size.
fn fill_up(bytes: &mut Vec<u8>, size: usize) -> Result<(), AllocError> {
    for _ in 0..size {
        if bytes.len() % size.max(1) == 0 {
            break;
        }
        bytes.push(0)?;
    }
    Ok(())
}

/// Appends the header record, with a dictionary at an offset.
fn put_header(
    bytes: &mut Vec<u8>,
    page: usize,
    dictionary: u32,
    blocks: u16,
    is_case_sensitive: bool,
) -> Result<(), MakeFault> {
    let Ok(length) = u16::try_from(page.saturating_sub(3)) else {
        return Err(MakeFault::TooLarge);
    };
    bytes.push(0xF0)?;
    bytes.extend_from_slice(length.to_le_bytes().as_slice())?;
    bytes.extend_from_slice(dictionary.to_le_bytes().as_slice())?;
    bytes.extend_from_slice(blocks.to_le_bytes().as_slice())?;
    bytes.push(u8::from(is_case_sensitive))?;
    fill_up(bytes, page)?;
    Ok(())
}

/// The number of zeros after the F1H record's length, so that it ends at a multiple of the block size.
fn end_length(end: usize) -> u16 {
    (BLOCK - 1 - end.wrapping_add(2) % BLOCK) as u16
}

/// The offset of the F1H.
fn end_of(page: usize, parts: &[Part]) -> usize {
    let mut pages = 1usize;
    for part in parts {
        pages = pages.saturating_add(pages_of(page, part.bytes.len()));
    }
    pages.saturating_mul(page)
}

/// The bytes of a library of these parts: the header, the members, the F1H record and the dictionary.
pub fn build(alloc: Global, is_case_sensitive: bool, parts: &[Part]) -> Result<Vec<u8>, MakeFault> {
    let Some(page) = page_for(parts) else {
        return Err(MakeFault::TooLarge);
    };
    let pages = first_pages(alloc, page, parts)?;
    let entries = entries_of(alloc, is_case_sensitive, &pages, parts)?;
    let blocks = dictionary_of(alloc, parts, &entries)?;
    let end = end_of(page, parts);
    let filling = end_length(end);
    let dictionary = end.saturating_add(3).saturating_add(usize::from(filling));
    match (
        u32::try_from(dictionary),
        u16::try_from(blocks.len() / BLOCK),
    ) {
        (Ok(dictionary), Ok(count)) => {
            let mut bytes = Vec::new(alloc);
            put_header(&mut bytes, page, dictionary, count, is_case_sensitive)?;
            put_members(&mut bytes, page, parts)?;
            put_end(&mut bytes, filling)?;
            bytes.extend_from_slice(&blocks)?;
            Ok(bytes)
        }
        _ => Err(MakeFault::TooLarge),
    }
}

/// Appends the members, each filled up to a page.
fn put_members(bytes: &mut Vec<u8>, page: usize, parts: &[Part]) -> Result<(), AllocError> {
    for part in parts {
        bytes.extend_from_slice(part.bytes.as_slice())?;
        fill_up(bytes, page)?;
    }
    Ok(())
}

/// Appends the F1H record.
fn put_end(bytes: &mut Vec<u8>, filling: u16) -> Result<(), AllocError> {
    bytes.push(0xF1)?;
    bytes.extend_from_slice(filling.to_le_bytes().as_slice())?;
    for _ in 0..filling {
        bytes.push(0)?;
    }
    Ok(())
}

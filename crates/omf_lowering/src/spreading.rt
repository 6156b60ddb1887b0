//! Where the copies of a location are in the expanded data of an LIDATA (TIS OMF 1.1, "LIDATA").

ghost use Rattle.std.specs.Prelude.{◌≡◌, ◌<◌, ◌≤◌, length, drop, IfOk, IsOk, option_map};
ghost use Rattle.omf_frame.specs.Types.{width_bytes};
ghost use Rattle.omf_image.specs.Inner.Expanding.{expanded_length};
ghost use Rattle.omf_image.specs.Inner.Lengths.{len_data, read_to};
ghost use Rattle.omf_image.specs.Limits.{profile_limits};
ghost use Rattle.omf_records.specs.Inner.FieldReaders.{le_read};
ghost use Rattle.omf_lowering.specs.Inner.Spreading.{contents_in};
ghost use Rattle.omf_lowering.specs.Inner.Turns.{Gives, GivesAll, IsUnfound, copy_in, either, found_all, found_block, found_contents, joined, nothing, offsets_of, repeated, text_found, with_turn};
ghost use Rattle.omf_lowering.specs.Unrolled.{copies_of};

use crate::copies::{Copies, Turn};
use crate::fault::Stop;
use crate::location::Location;
use omf_frame::{Field, Le16, Le32, Name, Reason, Width};
use omf_records::{Blocks, LayoutFault};
use std::alloc::{AllocError, Global};
use std::marker::Model;

/// The greatest depth of a block.
const LEVELS: u32 = 64;

/// What blocks expand to: a number of bytes, saturating at 2^64 - 1, and the copies of a location, if one of their contents has it.
#[derive(Drop)]
struct Spread {
    size: u64,
    copies: Option<Copies>,
}

impl Model for Spread {
    ghost use Rattle.omf_lowering.specs.Inner.Turns.{Found};

    ghost Value = { Found };

    ghost view = { λ s. record { size = s.size; copies = s.copies } };
}

/// The blocks that are searched, and the location that is looked for.
#[derive(Drop)]
struct Search<'a> {
    bytes: &'a [u8],
    width: Width,
    location: Location,
}

/// A fault at a position in the blocks.
fn fault_at(pos: usize, reason: Reason) -> LayoutFault
    requires { pos < 65536 }
    ensures { result ≡ record { within = pos; reason = reason } }
{
    LayoutFault {
        reason,
        within: pos as u32,
    }
}

/// The 16-bit number at a position, and the position after it.
fn word_at(bytes: &[u8], pos: usize) -> Result<(u32, usize), LayoutFault>
    requires { (pos ≤ length bytes.now) × (length bytes.now ≤ 65534) }
    ensures read { read_to bytes.now result ≡ le_read 2 pos (drop pos bytes.now) }
    ensures bound { IfOk result (λ r. (pos < r.1) × (r.1 ≤ length bytes.now)) }
{
    match Le16::read_at(bytes, pos) {
        Some((Le16(value), end)) => Ok((u32::from(value), end)),
        None => Err(fault_at(pos, Reason::Short)),
    }
}

/// The 32-bit number at a position, and the position after it.
fn dword_at(bytes: &[u8], pos: usize) -> Result<(u32, usize), LayoutFault>
    requires { (pos ≤ length bytes.now) × (length bytes.now ≤ 65534) }
    ensures read { read_to bytes.now result ≡ le_read 4 pos (drop pos bytes.now) }
    ensures bound { IfOk result (λ r. (pos < r.1) × (r.1 ≤ length bytes.now)) }
{
    match Le32::read_at(bytes, pos) {
        Some((Le32(value), end)) => Ok((value, end)),
        None => Err(fault_at(pos, Reason::Short)),
    }
}

/// The repeat count at a position, and the position after it.
fn count_at(bytes: &[u8], width: Width, pos: usize) -> Result<(u32, usize), LayoutFault>
    requires { (pos ≤ length bytes.now) × (length bytes.now ≤ 65534) }
    ensures read { read_to bytes.now result ≡ le_read (width_bytes width) pos (drop pos bytes.now) }
    ensures bound { IfOk result (λ r. (pos < r.1) × (r.1 ≤ length bytes.now)) }
{
    match width {
        Width::Bits16 => word_at(bytes, pos),
        Width::Bits32 => dword_at(bytes, pos),
    }
}

/// The number of data bytes after the length byte at a position, and the position after them.
fn size_at(bytes: &[u8], pos: usize) -> Result<(u64, usize), LayoutFault>
    requires { (pos ≤ length bytes.now) × (length bytes.now ≤ 65534) }
    ensures read { read_to bytes.now result ≡ len_data pos (drop pos bytes.now) }
    ensures bound { IfOk result (λ r. (pos ≤ r.1) × (r.1 ≤ length bytes.now)) }
    ensures small { IfOk result (λ r. r.0 ≤ 65535) }
{
    match Name::read_at(bytes, pos) {
        Some((name, end)) => Ok((name.0.len() as u64, end)),
        None => Err(fault_at(pos, Reason::Short)),
    }
}

/// The copies of a location in data that begin at an offset: one, if they have all its bytes.
fn copy_in(alloc: Global, start: u64, size: u64, location: Location) -> Option<Copies>
    requires { (start ≤ 65535) × (size ≤ 65535) }
    ensures { result ≡ copy_in start size location }
{
    let first = u64::from(location.offset);
    if start <= first && first + u64::from(location.size) <= start + size {
        Some(Copies {
            first: first - start,
            turns: Vec::new(alloc),
        })
    } else {
        None
    }
}

/// What the data of an innermost block expand to, whose length byte is at a position, and the position after them.
fn data_at(alloc: Global, search: &Search<'_>, pos: usize) -> Result<(Spread, usize), Stop>
    requires { (pos ≤ length search.now.bytes.now) × (length search.now.bytes.now ≤ 65534) }
    ensures read { Gives search.now.bytes.now result (text_found search.now.location pos (drop pos search.now.bytes.now)) }
    ensures bound { IfOk result (λ r. (pos ≤ r.1) × (r.1 ≤ length search.now.bytes.now)) }
{
    match size_at(search.bytes, pos) {
        Ok((size, end)) => {
            let copies = copy_in(alloc, pos as u64 + 1, size, search.location);
            Ok((Spread { size, copies }, end))
        }
        Err(fault) => Err(Stop::At(fault)),
    }
}

/// The copies of the first, or else of the second, which are further by a number of bytes.
fn either(first: Option<Copies>, second: Option<Copies>, by: u64) -> Option<Copies>
    ensures { result ≡ either first second by }
{
    match first {
        Some(copies) => Some(copies),
        None => match second {
            Some(copies) => Some(Copies {
                first: copies.first.saturating_add(by),
                turns: copies.turns,
            }),
            None => None,
        },
    }
}

/// The copies, with one more turn of all.
fn with_turn(copies: Option<Copies>, turn: Turn) -> Result<Option<Copies>, AllocError>
    ensures { IfOk result (λ c. c ≡ option_map (with_turn turn) copies) }
{
    match copies {
        Some(copies) => {
            let Copies { first, mut turns } = copies;
            turns.push(turn)?;
            Ok(Some(Copies { first, turns }))
        }
        None => Ok(None),
    }
}

impl Spread {
    /// Nothing.
    fn none() -> Spread
        ensures { result ≡ nothing }
    {
        Spread {
            size: 0,
            copies: None,
        }
    }

    /// What these blocks and the next one expand to.
    fn joined(self, next: Spread) -> Spread
        ensures { result ≡ joined self next }
    {
        let Spread { size, copies } = self;
        Spread {
            size: size.saturating_add(next.size),
            copies: either(copies, next.copies, size),
        }
    }

    /// What a block with these contents expands to.
    fn repeated(self, count: u32) -> Result<Spread, AllocError>
        ensures { IfOk result (λ s. s ≡ repeated count self) }
    {
        let Spread { size, copies } = self;
        let copies = with_turn(copies, Turn { count, size })?;
        Ok(Spread {
            size: u64::from(count).saturating_mul(size),
            copies,
        })
    }
}

/// What the contents of a block at `start` expand to, and the position after them. They are data if `blocks` is 0, else that many blocks, nested at most
/// `levels` deep.
#[cycle(spreading)]
fn contents_at(
    alloc: Global,
    search: &Search<'_>,
    levels: u32,
    blocks: u32,
    start: usize,
) -> Result<(Spread, usize), Stop>
    requires { (start ≤ length search.now.bytes.now) × (length search.now.bytes.now ≤ 65534) }
    ensures read { Gives search.now.bytes.now result (found_contents search.now.location (found_block search.now.location (width_bytes search.now.width) levels) blocks start (drop start search.now.bytes.now)) }
    ensures bound { IfOk result (λ r. (start ≤ r.1) × (r.1 ≤ length search.now.bytes.now)) }
{
    if blocks == 0 {
        return data_at(alloc, search, start);
    }
    let mut inner = Spread::none();
    let mut end = start;
    for _ in 0..blocks {
        match block_at(alloc, search, levels, end) {
            Ok((next, after)) => {
                inner = inner.joined(next);
                end = after;
            }
            Err(stop) => return Err(stop),
        }
    }
    Ok((inner, end))
}

/// What the block at `pos` expands to, and the position after it. Blocks may nest `levels` deep, this one included.
#[cycle(spreading)]
fn block_at(
    alloc: Global,
    search: &Search<'_>,
    levels: u32,
    pos: usize,
) -> Result<(Spread, usize), Stop>
    requires { (pos ≤ length search.now.bytes.now) × (length search.now.bytes.now ≤ 65534) }
    ensures read { Gives search.now.bytes.now result (found_block search.now.location (width_bytes search.now.width) levels pos (drop pos search.now.bytes.now)) }
    ensures bound { IfOk result (λ r. (pos < r.1) × (r.1 ≤ length search.now.bytes.now)) }
{
    let (count, after_count) = match count_at(search.bytes, search.width, pos) {
        Ok(found) => found,
        Err(fault) => return Err(Stop::At(fault)),
    };
    if levels == 0 {
        return Err(Stop::At(fault_at(pos, Reason::TooDeep)));
    }
    let (blocks, start) = match word_at(search.bytes, after_count) {
        Ok(found) => found,
        Err(fault) => return Err(Stop::At(fault)),
    };
    let (contents, end) = match contents_at(alloc, search, levels - 1, blocks, start) {
        Ok(found) => found,
        Err(stop) => return Err(stop),
    };
    match contents.repeated(count) {
        Ok(all) => Ok((all, end)),
        Err(_) => Err(Stop::Memory),
    }
}

/// What all blocks expand to.
fn spread_all(alloc: Global, search: &Search<'_>) -> Result<Spread, Stop>
    requires { length search.now.bytes.now ≤ 65534 }
    ensures { GivesAll result (found_all search.now.location (found_block search.now.location (width_bytes search.now.width) 64) (length search.now.bytes.now) nothing 0 search.now.bytes.now) }
{
    let mut all = Spread::none();
    let mut pos = 0;
    while pos < search.bytes.len() {
        match block_at(alloc, search, LEVELS, pos) {
            Ok((next, end)) => {
                all = all.joined(next);
                pos = end;
            }
            Err(stop) => return Err(stop),
        }
    }
    Ok(all)
}

/// What is found where the search stopped: no copies, unless memory ran out.
fn unfound(stop: Stop) -> Result<Option<Copies>, AllocError>
    ensures { IfOk result (λ c. IsUnfound stop c) }
{
    match stop {
        Stop::At(_) => Ok(None),
        Stop::Memory => Err(AllocError),
    }
}

/// The copies of a location in the expanded data of blocks; `None` if no innermost block has all its bytes.
pub(crate) fn copies_of(
    alloc: Global,
    blocks: Blocks<'_>,
    location: Location,
) -> Result<Option<Copies>, AllocError>
    requires short { length blocks.bytes.now ≤ 65534 }
    requires fits { IsOk (expanded_length (width_bytes blocks.width) profile_limits blocks.bytes.now) }
    ensures { IfOk result (λ c. option_map offsets_of c ≡ copies_of (contents_in (width_bytes blocks.entry.width) profile_limits.nesting blocks.entry.bytes.now) location) }
{
    let search = Search {
        bytes: blocks.bytes,
        width: blocks.width,
        location,
    };
    match spread_all(alloc, &search) {
        Ok(all) => Ok(all.copies),
        Err(stop) => unfound(stop),
    }
}

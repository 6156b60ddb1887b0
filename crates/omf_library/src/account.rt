//! An account of the bytes of a library.

ghost use Rattle.std.specs.Prelude.{◌≡◌, ◌≤◌, ◌∷◌, ◌+◌, ◌-◌, ◌^◌, [], Some, IfOk, length, max, min};
ghost use Rattle.omf_library.specs.Account.{AreAdjacent, account, blocks_at, blocks_end, cut, dictionary_cuts, end_cuts, extended_cuts, member_cuts, record_end};
ghost use Rattle.omf_library.specs.Inner.Accounting.{Adds};
ghost use Rattle.omf_library.specs.declared.account.RegionKind.TheVariants as kinds;

use crate::dictionary::BLOCK;
use crate::header::Header;
use crate::spans::{Span, Spans};
use std::alloc::{AllocError, Global};

/// What the bytes of a region are.
#[derive(Clone, Copy, Debug, PartialEq, Eq)]
pub enum RegionKind {
    /// The fields of the header record.
    Header,
    /// The rest of the header's page, of the page of a member's end, or of the F1H record.
    Padding,
    Member,
    /// The type and the length of the F1H record.
    End,
    /// Between the F1H record and the dictionary.
    Gap,
    Dictionary,
    /// The extended dictionary: a record F2H.
    Extended,
    /// After all these.
    After,
}

/// Bytes of a library.
#[derive(Clone, Copy, Debug, PartialEq, Eq)]
pub struct Region {
    pub kind: RegionKind,
    pub offset: usize,
    /// The number of bytes, 1 or more.
    pub length: usize,
}

/// The length of the fields of the header record.
const FIELDS: usize = 10;

/// The length of a record's type and length.
const HEAD: usize = 3;

/// The type of the extended dictionary.
const EXTENDED: u8 = 0xF2;

/// Appends the region up to an offset, if it has a byte, and not further than the end of the bytes. Returns where it ends.
fn push_region(
    regions: &mut Vec<Region>,
    kind: RegionKind,
    from: usize,
    to: usize,
    all: usize,
) -> Result<usize, AllocError>
    requires { from ≤ all }
    ensures adds { IfOk result (Adds all from (cut kind to ∷ []) regions.old.items regions.new.items) }
    ensures ends { IfOk result (λ end. (end ≡ max from (min to all)) × (end ≤ all)) }
    ensures adjacent { IfOk result (λ end. AreAdjacent regions.old.items 0 from → AreAdjacent regions.new.items 0 end) }
{
    let end = to.min(all);
    if end <= from {
        return Ok(from);
    }
    regions.push(Region {
        kind,
        offset: from,
        length: end - from,
    })?;
    Ok(end)
}

/// Appends the regions of a member and of the padding before it. Returns where they end.
fn push_member(
    regions: &mut Vec<Region>,
    from: usize,
    span: Span<'_>,
    all: usize,
) -> Result<usize, AllocError>
    requires { from ≤ all }
    ensures adds { IfOk result (Adds all from (cut kinds.Padding span.entry.offset ∷ cut kinds.Member (span.entry.offset + length span.entry.bytes.now) ∷ []) regions.old.items regions.new.items) }
    ensures ends { IfOk result (λ end. end ≤ all) }
    ensures adjacent { IfOk result (λ end. AreAdjacent regions.old.items 0 from → AreAdjacent regions.new.items 0 end) }
{
    let end = span.offset.saturating_add(span.bytes.len());
    let at = push_region(regions, RegionKind::Padding, from, span.offset, all)?;
    push_region(regions, RegionKind::Member, at, end, all)
}

/// Appends the regions of the header and the members. Returns where they end.
fn push_members(
    regions: &mut Vec<Region>,
    page: usize,
    spans: &Spans<'_>,
    all: usize,
) -> Result<usize, AllocError>
    ensures adds { IfOk result (Adds all 0 (cut kinds.Header 10 ∷ cut kinds.Padding page ∷ member_cuts spans.now.members.items) regions.old.items regions.new.items) }
    ensures ends { IfOk result (λ end. end ≤ all) }
    ensures adjacent { IfOk result (λ end. AreAdjacent regions.old.items 0 0 → AreAdjacent regions.new.items 0 end) }
{
    let mut at = push_region(regions, RegionKind::Header, 0, FIELDS, all)?;
    at = push_region(regions, RegionKind::Padding, at, page, all)?;
    for span in spans.members.iter() {
        at = push_member(regions, at, *span, all)?;
    }
    Ok(at)
}

/// The offset after a record, by its length field.
fn record_end(bytes: &[u8], at: usize) -> usize
    ensures { result ≡ min (record_end bytes.now at) (2 ^ 64 - 1) }
{
    let low = bytes.get(at.saturating_add(1)).copied().unwrap_or(0);
    let high = bytes.get(at.saturating_add(2)).copied().unwrap_or(0);
    at.saturating_add(HEAD)
        .saturating_add(usize::from(low) + 256 * usize::from(high))
}

/// Where the blocks of the dictionary end, by the header.
fn blocks_end(header: Header) -> usize
    ensures { result ≡ blocks_end header }
{
    header.dictionary as usize + BLOCK * header.blocks as usize
}

/// The offset of the dictionary, if there is one at or after the F1H and inside the bytes.
fn blocks_at(header: Header, end: usize, all: usize) -> Option<usize>
    ensures { result ≡ blocks_at header end all }
{
    let offset = header.dictionary as usize;
    if header.blocks == 0 || offset < end || all < blocks_end(header) {
        return None;
    }
    Some(offset)
}

/// Appends the regions of the dictionary and the extended dictionary. Returns where they end.
fn push_dictionary(
    regions: &mut Vec<Region>,
    header: Header,
    from: usize,
    offset: usize,
    bytes: &[u8],
) -> Result<usize, AllocError>
    requires { from ≤ length bytes.now }
    ensures adds { IfOk result (Adds (length bytes.now) from (dictionary_cuts header bytes.now (Some offset)) regions.old.items regions.new.items) }
    ensures ends { IfOk result (λ end. end ≤ length bytes.now) }
    ensures adjacent { IfOk result (λ end. AreAdjacent regions.old.items 0 from → AreAdjacent regions.new.items 0 end) }
{
    let all = bytes.len();
    let stop = blocks_end(header);
    let at = push_region(regions, RegionKind::Gap, from, offset, all)?;
    let at = push_region(regions, RegionKind::Dictionary, at, stop, all)?;
    if bytes.get(stop) != Some(&EXTENDED) {
        return Ok(at);
    }
    push_region(
        regions,
        RegionKind::Extended,
        at,
        record_end(bytes, stop),
        all,
    )
}

/// Appends the region of the F1H record at `end`, as far as it is before `limit`, with the padding before and after it. Returns where they end.
fn push_end_record(
    regions: &mut Vec<Region>,
    from: usize,
    end: usize,
    limit: usize,
    bytes: &[u8],
) -> Result<usize, AllocError>
    requires from { from ≤ length bytes.now }
    requires limit { limit ≤ length bytes.now }
    ensures adds { IfOk result (Adds (length bytes.now) from (cut kinds.Padding end ∷ cut kinds.End (min (end + 3) limit) ∷ cut kinds.Padding (min (record_end bytes.now end) limit) ∷ []) regions.old.items regions.new.items) }
    ensures ends { IfOk result (λ stop. stop ≤ length bytes.now) }
    ensures adjacent { IfOk result (λ stop. AreAdjacent regions.old.items 0 from → AreAdjacent regions.new.items 0 stop) }
{
    let all = bytes.len();
    let head = end.saturating_add(HEAD).min(limit);
    let stop = record_end(bytes, end).min(limit);
    let at = push_region(regions, RegionKind::Padding, from, end, all)?;
    let at = push_region(regions, RegionKind::End, at, head, all)?;
    push_region(regions, RegionKind::Padding, at, stop, all)
}

/// Appends the regions from the F1H on. Returns where they end.
fn push_end(
    regions: &mut Vec<Region>,
    header: Header,
    from: usize,
    end: usize,
    bytes: &[u8],
) -> Result<usize, AllocError>
    requires { from ≤ length bytes.now }
    ensures adds { IfOk result (Adds (length bytes.now) from (end_cuts header bytes.now end (blocks_at header end (length bytes.now))) regions.old.items regions.new.items) }
    ensures ends { IfOk result (λ stop. stop ≤ length bytes.now) }
    ensures adjacent { IfOk result (λ stop. AreAdjacent regions.old.items 0 from → AreAdjacent regions.new.items 0 stop) }
{
    match blocks_at(header, end, bytes.len()) {
        Some(offset) => {
            let at = push_end_record(regions, from, end, offset, bytes)?;
            push_dictionary(regions, header, at, offset, bytes)
        }
        None => push_end_record(regions, from, end, bytes.len(), bytes),
    }
}

/// The regions of the bytes of a library: each byte is in one of them.
///
/// # Errors
///
/// `AllocError` if out of memory.
pub fn account_of(
    alloc: Global,
    header: Header,
    spans: &Spans<'_>,
    bytes: &[u8],
) -> Result<Vec<Region>, AllocError>
    ensures exact { IfOk result (λ regions. regions.items ≡ account header spans.now.members.items spans.now.end bytes.now) }
    ensures adjacent { IfOk result (λ regions. AreAdjacent regions.items 0 (length bytes.now)) }
{
    let all = bytes.len();
    let mut regions = Vec::new(alloc);
    let mut at = push_members(&mut regions, header.page as usize, spans, all)?;
    if let Ok(end) = spans.end {
        at = push_end(&mut regions, header, at, end, bytes)?;
    }
    push_region(&mut regions, RegionKind::After, at, all, all)?;
    Ok(regions)
}

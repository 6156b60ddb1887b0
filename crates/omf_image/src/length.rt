//! The number of bytes that blocks expand to.

ghost use Rattle.std.specs.Prelude.{◌≡◌, ◌+◌, ◌<◌, ◌≤◌, length, drop, IfOk, IfErr};
ghost use Rattle.omf_records.specs.Inner.FieldReaders.{le_read};
ghost use Rattle.omf_frame.specs.Types.{width_bytes};
ghost use Rattle.omf_image.specs.Inner.Lengths.{read_to, len_data, len_contents, len_block, len_all};
ghost use Rattle.omf_image.specs.Inner.Expanding.{expanded_length};

use crate::limits::Limits;
use omf_frame::{Field, Le16, Le32, Name, Reason, Width};
use omf_records::{Blocks, LayoutFault};

/// A fault at `pos`, counted from the first block's byte.
fn fault_at(pos: usize, reason: Reason) -> LayoutFault
    requires { pos < 65536 }
    ensures { result ≡ record { within = pos; reason = reason } }
{
    LayoutFault {
        reason,
        within: pos as u32,
    }
}

/// The 16-bit number at `pos`, and the position after it.
fn word_at(bytes: &[u8], pos: usize) -> Result<(u32, usize), LayoutFault>
    requires { (pos ≤ length bytes.now) × (length bytes.now ≤ 65534) }
    ensures read { read_to bytes.now result ≡ le_read 2 pos (drop pos bytes.now) }
    ensures bound { IfOk result (λ r. (pos < r.1) × (r.1 ≤ length bytes.now)) }
    ensures near { IfErr result (λ f. f.within < 65536) }
{
    match Le16::read_at(bytes, pos) {
        Some((Le16(value), end)) => Ok((u32::from(value), end)),
        None => Err(fault_at(pos, Reason::Short)),
    }
}

/// The 32-bit number at `pos`, and the position after it.
fn dword_at(bytes: &[u8], pos: usize) -> Result<(u32, usize), LayoutFault>
    requires { (pos ≤ length bytes.now) × (length bytes.now ≤ 65534) }
    ensures read { read_to bytes.now result ≡ le_read 4 pos (drop pos bytes.now) }
    ensures bound { IfOk result (λ r. (pos < r.1) × (r.1 ≤ length bytes.now)) }
    ensures near { IfErr result (λ f. f.within < 65536) }
{
    match Le32::read_at(bytes, pos) {
        Some((Le32(value), end)) => Ok((value, end)),
        None => Err(fault_at(pos, Reason::Short)),
    }
}

/// The repeat count at `pos`, and the position after it.
fn count_at(bytes: &[u8], width: Width, pos: usize) -> Result<(u32, usize), LayoutFault>
    requires { (pos ≤ length bytes.now) × (length bytes.now ≤ 65534) }
    ensures read { read_to bytes.now result ≡ le_read (width_bytes width) pos (drop pos bytes.now) }
    ensures bound { IfOk result (λ r. (pos < r.1) × (r.1 ≤ length bytes.now)) }
    ensures near { IfErr result (λ f. f.within < 65536) }
{
    match width {
        Width::Bits16 => word_at(bytes, pos),
        Width::Bits32 => dword_at(bytes, pos),
    }
}

/// The number of data bytes after the length byte at `pos`, and the position after them.
fn data_at(bytes: &[u8], pos: usize) -> Result<(u64, usize), LayoutFault>
    requires { (pos ≤ length bytes.now) × (length bytes.now ≤ 65534) }
    ensures read { read_to bytes.now result ≡ len_data pos (drop pos bytes.now) }
    ensures bound { IfOk result (λ r. (pos ≤ r.1) × (r.1 ≤ length bytes.now)) }
    ensures near { IfErr result (λ f. f.within < 65536) }
{
    match Name::read_at(bytes, pos) {
        Some((name, end)) => Ok((name.0.len() as u64, end)),
        None => Err(fault_at(pos, Reason::Short)),
    }
}

/// The number of bytes that the contents of a block at `start` expand to, and the position after them. The contents are data if
/// `blocks` is 0, else that many blocks, nested at most `levels` deep.
#[cycle(lengths)]
fn contents_len(
    bytes: &[u8],
    width: Width,
    levels: u32,
    blocks: u32,
    start: usize,
) -> Result<(u64, usize), LayoutFault>
    requires { (start ≤ length bytes.now) × (length bytes.now ≤ 65534) }
    ensures read { read_to bytes.now result ≡ len_contents (len_block (width_bytes width) levels) blocks start (drop start bytes.now) }
    ensures bound { IfOk result (λ r. (start ≤ r.1) × (r.1 ≤ length bytes.now)) }
    ensures near { IfErr result (λ f. f.within < 65536) }
{
    if blocks == 0 {
        return data_at(bytes, start);
    }
    let mut inner: u64 = 0;
    let mut end = start;
    for _ in 0..blocks {
        let (len, next) = block_len(bytes, width, levels, end)?;
        inner = inner.saturating_add(len);
        end = next;
    }
    Ok((inner, end))
}

/// The number of bytes that the block at `pos` expands to, and the position after it. Blocks may nest `levels` deep, this one included.
#[cycle(lengths)]
fn block_len(
    bytes: &[u8],
    width: Width,
    levels: u32,
    pos: usize,
) -> Result<(u64, usize), LayoutFault>
    requires { (pos ≤ length bytes.now) × (length bytes.now ≤ 65534) }
    ensures read { read_to bytes.now result ≡ len_block (width_bytes width) levels pos (drop pos bytes.now) }
    ensures bound { IfOk result (λ r. (pos < r.1) × (r.1 ≤ length bytes.now)) }
    ensures near { IfErr result (λ f. f.within < 65536) }
{
    let (count, after_count) = count_at(bytes, width, pos)?;
    if levels == 0 {
        return Err(fault_at(pos, Reason::TooDeep));
    }
    let (blocks, start) = word_at(bytes, after_count)?;
    let (contents, end) = contents_len(bytes, width, levels - 1, blocks, start)?;
    Ok((u64::from(count).saturating_mul(contents), end))
}

/// The number of bytes that blocks nested at most `levels` deep expand to, saturating at 2^64 - 1.
fn blocks_len(bytes: &[u8], width: Width, levels: u32) -> Result<u64, LayoutFault>
    requires { length bytes.now ≤ 65534 }
    ensures read { result ≡ len_all (len_block (width_bytes width) levels) (length bytes.now) 0 0 bytes.now }
    ensures near { IfErr result (λ f. f.within < 65536) }
{
    let mut total: u64 = 0;
    let mut pos = 0;
    while pos < bytes.len() {
        let (len, next) = block_len(bytes, width, levels, pos)?;
        total = total.saturating_add(len);
        pos = next;
    }
    Ok(total)
}

/// The number of bytes that the blocks of an LIDATA record expand to (TIS OMF 1.1, "LIDATA").
///
/// # Errors
///
/// `Short` or `TooDeep` at the leftmost place that has one, `Short` at a tie; otherwise `DataTooLong` at 0 if the blocks expand to
/// more bytes than the limit. `within` counts from the first block's byte.
pub fn expanded_len(blocks: Blocks<'_>, limits: Limits) -> Result<u32, LayoutFault>
    requires { (limits.nesting ≤ 64) × (length blocks.bytes.now ≤ 65534) }
    ensures length { result ≡ expanded_length (width_bytes blocks.entry.width) limits blocks.entry.bytes.now }
    ensures near { IfErr result (λ f. f.within < 65536) }
{
    let len = blocks_len(blocks.bytes, blocks.width, limits.nesting)?;
    if len > u64::from(limits.expanded) {
        return Err(fault_at(0, Reason::DataTooLong));
    }
    Ok(len as u32)
}

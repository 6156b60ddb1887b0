//! LIDATAs with fixups, and the LEDATAs of their copies (TIS OMF 1.1, "LIDATA", "LEDATA").

ghost use Rattle.std.specs.Prelude.{◌≡◌, ◌≤◌, ◌+◌, ◌^◌, nat_le, IfOk, IfSome, length, drop, take, option_map};
ghost use Rattle.omf_records.specs.Inner.Seen.{odd_if};
ghost use Rattle.omf_lowering.specs.Inner.Rolling.{AreIn, blocks_seen};
ghost use Rattle.omf_lowering.specs.Unrolled.{blocks_of, ledata};

use crate::location::Location;
use crate::record::Record;
use omf_frame::{Field, Index, Le32};
use omf_image::{Limits, expanded_len};
use omf_records::{At, Blocks};
use std::alloc::{AllocError, Global};

/// An LIDATA whose blocks are within the limits, and whose data end by 2^32.
#[derive(Clone, Copy, Drop)]
pub(crate) struct Iterated<'a> {
    pub segment: At<Index>,
    pub offset: At<u32>,
    pub blocks: Blocks<'a>,
}

/// The same LIDATA.
pub(crate) fn same<'a>(data: &Iterated<'a>) -> Iterated<'a>
    ensures { result ≡ data.now }
{
    let segment = data.segment;
    let offset = data.offset;
    let bytes = data.blocks.bytes;
    let width = data.blocks.width;
    Iterated {
        segment,
        offset,
        blocks: Blocks { bytes, width },
    }
}

/// The same LIDATA, if there is one.
pub(crate) fn same_if<'a>(data: &Option<Iterated<'a>>) -> Option<Iterated<'a>>
    ensures { result ≡ data.now }
{
    match data {
        Some(data) => Some(same(data)),
        None => None,
    }
}

/// Whether data of a size at an offset end by 2^32.
fn ends_low(offset: u32, size: u32) -> bool
    ensures { result ≡ nat_le (offset + size) (2 ^ 32) }
{
    u64::from(offset) + u64::from(size) <= 0x1_0000_0000
}

/// The blocks of an LIDATA, if they are within the limits and their data end by 2^32.
pub(crate) fn blocks_of<'a>(
    segment: At<Index>,
    offset: At<u32>,
    blocks: Blocks<'a>,
) -> Option<Iterated<'a>>
    requires { length blocks.bytes.now ≤ 65534 }
    ensures value { option_map blocks_seen result ≡ blocks_of (odd_if blocks.entry.width 0xA2) (record { segment = segment; offset = offset; bytes = blocks.entry.bytes.now }) }
    ensures within { IfSome result AreIn }
{
    match expanded_len(blocks, Limits::profile()) {
        Ok(size) if ends_low(offset.item, size) => Some(Iterated {
            segment,
            offset,
            blocks,
        }),
        Ok(_) => None,
        Err(_) => None,
    }
}

/// The bytes of a location, or those of them that there are.
fn bytes_of<'b>(bytes: &'b [u8], location: Location) -> &'b [u8]
    ensures items { result.now ≡ take location.size (drop location.offset bytes.entry.now) }
    ensures few { length result.now ≤ 255 }
{
    let from = bytes
        .split_at(usize::from(location.offset).min(bytes.len()))
        .1;
    from.split_at(usize::from(location.size).min(from.len())).0
}

/// The LEDATA of a copy of a location at an offset in the expanded data. These end by 2^32; an offset past it counts as if memory ran out.
pub(crate) fn ledata(
    alloc: Global,
    data: &Iterated<'_>,
    location: Location,
    copy: u64,
) -> Result<Record, AllocError>
    ensures { IfOk result (λ r. r ≡ ledata (blocks_seen data.now) location copy) }
{
    let Some(offset) = u64::from(data.offset.item).checked_add(copy) else {
        return Err(AllocError);
    };
    let Ok(offset) = u32::try_from(offset) else {
        return Err(AllocError);
    };
    let mut body = Vec::new(alloc);
    data.segment.item.put(&mut body)?;
    Le32(offset).put(&mut body)?;
    body.extend_from_slice(bytes_of(data.blocks.bytes, location))?;
    Ok(Record::made(0xA1, body))
}

//! The blocks of an LIDATA (TIS OMF 1.1, "LIDATA").

ghost use Rattle.std.specs.Prelude.{◌≡◌, ◌≤◌, ◌<◌, ◌+◌, ◌^◌, [], IfSome, OnOk, length, true};
ghost use Rattle.omf_frame.specs.Bytes.{AddsText};
ghost use Rattle.omf_dump.specs.Blocks.{begun, block_fields, block_front, blocks_from, contents_fields, contents_front, data_front, not_ended, one_came};
ghost use Rattle.omf_dump.specs.Render.{fields_text, items_text};

use crate::field::{bytes, depth, number};
use crate::format::Format;
use crate::item::{close_item, open_item};
use omf_frame::Width;
use omf_records::Blocks;
use std::alloc::AllocError;
use std::marker::Model;

/// A block as it begins: its repeat count; the number of its blocks; its data, if it has no blocks; the number of bytes of all these.
#[derive(Drop)]
struct Front<'a> {
    repeat: u32,
    blocks: u16,
    held: &'a [u8],
    size: usize,
}

impl<'a> Model for Front<'a> {
    ghost use Rattle.omf_dump.specs.Blocks.{Front as FrontModel};

    ghost Value = { FrontModel };

    ghost view = { λ f. record { repeat = f.repeat; blocks = f.blocks; held = f.held.now; size = f.size } };
}

/// A block with data, after its repeat count of `width` bytes and its block count.
fn data_front(repeat: u32, width: usize, bytes: &[u8]) -> Option<Front<'_>>
    requires { width ≤ 4 }
    ensures front { result ≡ data_front repeat width bytes.now }
    ensures fits { IfSome result (λ f. (width < f.size) × (f.size ≤ width + 2 + length bytes.now)) }
{
    match bytes {
        [] => None,
        [count, rest @ ..] => {
            let count = usize::from(*count);
            if count > rest.len() {
                return None;
            }
            Some(Front {
                repeat,
                blocks: 0,
                held: rest.split_at(count).0,
                size: width + 3 + count,
            })
        }
    }
}

/// A block, after its repeat count of `width` bytes.
fn contents_front(repeat: u32, width: usize, bytes: &[u8]) -> Option<Front<'_>>
    requires { width ≤ 4 }
    ensures front { result ≡ contents_front repeat width bytes.now }
    ensures fits { IfSome result (λ f. (width < f.size) × (f.size ≤ width + length bytes.now)) }
{
    match bytes {
        [low, high, rest @ ..] => {
            let blocks = u16::from(*low) + 256 * u16::from(*high);
            if blocks == 0 {
                return data_front(repeat, width, rest);
            }
            Some(Front {
                repeat,
                blocks,
                held: &[],
                size: width + 2,
            })
        }
        _ => None,
    }
}

/// The block at the front.
fn block_front(width: Width, bytes: &[u8]) -> Option<Front<'_>>
    ensures front { result ≡ block_front width bytes.now }
    ensures fits { IfSome result (λ f. (0 < f.size) × (f.size ≤ length bytes.now)) }
{
    match (width, bytes) {
        (Width::Bits16, [a, b, rest @ ..]) => {
            contents_front(u32::from(*a) + 256 * u32::from(*b), 2, rest)
        }
        (Width::Bits32, [a, b, c, d, rest @ ..]) => {
            let low = u32::from(*a) + 256 * u32::from(*b);
            let high = u32::from(*c) + 256 * u32::from(*d);
            contents_front(low + 65_536 * high, 4, rest)
        }
        _ => None,
    }
}

/// Ends the blocks of which all blocks came.
fn end_blocks(around: &mut Vec<u16>)
    ensures { around.new.items ≡ not_ended around.old.items }
{
    while !around.is_empty() && around[0] == 0 {
        let _ended = around.remove(0);
    }
}

/// One block more came.
fn count_one(around: &mut Vec<u16>)
    ensures { around.new.items ≡ one_came around.old.items }
{
    if !around.is_empty() {
        around[0] = around[0].saturating_sub(1);
    }
}

/// A block begins, with this number of blocks.
fn begin_blocks(around: &mut Vec<u16>, blocks: u16) -> Result<(), AllocError>
    ensures { OnOk result (around.new.items ≡ begun blocks around.old.items) }
{
    if blocks != 0 {
        around.insert(0, blocks)?;
    }
    Ok(())
}

/// The data of a block, or the number of its blocks.
fn put_contents(text: &mut Vec<u8>, format: Format, front: &Front<'_>) -> Result<(), AllocError>
    ensures { AddsText result text.old.items text.new.items (fields_text format (contents_fields front.now)) }
{
    if front.blocks == 0 {
        bytes(text, format, "bytes", front.held)
    } else {
        number(text, format, "blocks", u64::from(front.blocks))
    }
}

/// The fields of a block.
fn put_block(
    text: &mut Vec<u8>,
    format: Format,
    level: usize,
    front: &Front<'_>,
) -> Result<(), AllocError>
    ensures { AddsText result text.old.items text.new.items (fields_text format (block_fields level front.now)) }
{
    depth(text, format, level)?;
    number(text, format, "repeat", u64::from(front.repeat))?;
    put_contents(text, format, front)
}

/// The blocks of an LIDATA, from an offset in the record on.
#[tactic(auto, using(crate::proofs::BlockLaws::next_block, crate::proofs::BlockLaws::no_block))]
pub(crate) fn put_blocks(
    text: &mut Vec<u8>,
    format: Format,
    within: u64,
    blocks: Blocks<'_>,
) -> Result<(), AllocError>
    requires { within + length blocks.bytes.now < 2 ^ 64 }
    ensures { AddsText result text.old.items text.new.items (items_text format true (blocks_from blocks.entry.width within [] 0 blocks.entry.bytes.now)) }
{
    let width = blocks.width;
    let mut around = Vec::new(*text.allocator());
    let mut is_first = true;
    let mut at = within;
    let mut rest = blocks.bytes;
    while let Some(front) = block_front(width, rest) {
        end_blocks(&mut around);
        open_item(text, format, is_first, at)?;
        put_block(text, format, around.len(), &front)?;
        close_item(text, format)?;
        count_one(&mut around);
        begin_blocks(&mut around, front.blocks)?;
        is_first = false;
        at += front.size as u64;
        rest = rest.split_at(front.size).1;
    }
    Ok(())
}

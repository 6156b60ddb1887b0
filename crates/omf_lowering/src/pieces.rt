//! The data of records.

ghost use Rattle.std.specs.Prelude.{◌≡◌, ◌≤◌, ◌++◌, ◌∷◌, [], IfNone, IfSome, OnOk, length};
ghost use Rattle.omf_check.specs.Inner.Judging.{IsShort};
ghost use Rattle.omf_frame.specs.Framing.{is_taken};
ghost use Rattle.omf_image.specs.Inner.Expanding.{expanded_length};
ghost use Rattle.omf_image.specs.Limits.{profile_limits};
ghost use Rattle.omf_records.specs.Inner.Seen.{contents_seen, kind_seen, odd_if};
ghost use Rattle.omf_records.specs.Values.{width};
ghost use Rattle.omf_lowering.specs.Patches.{piece_in, piece_of, size_or_none};

use crate::laid::Pieces;
use crate::record::Record;
use crate::values::Piece;
use omf_frame::RawRecord;
use omf_image::{Limits, expanded_len};
use omf_records::{Blocks, Rec, view};
use std::alloc::AllocError;

/// Whether a module of this profile may have records of this type.
pub(crate) fn is_taken(kind: u8) -> bool
    ensures { result ≡ is_taken kind }
{
    matches!(
        kind,
        0x80 | 0x82
            | 0x88
            | 0x8A
            | 0x8B
            | 0x8C
            | 0x8E
            | 0x90
            | 0x91
            | 0x94
            | 0x95
            | 0x96
            | 0x98
            | 0x99
            | 0x9A
            | 0x9C
            | 0x9D
            | 0xA0
            | 0xA1
            | 0xA2
            | 0xA3
            | 0xB0
            | 0xB4
            | 0xB5
            | 0xB6
            | 0xB7
            | 0xB8
            | 0xC4
            | 0xC5
            | 0xC6
            | 0xCA
            | 0xCC
    )
}

/// The number of bytes of an LIDATA's blocks; 0 if they have a fault.
fn blocks_size(blocks: Blocks<'_>) -> usize
    requires { length blocks.bytes.now ≤ 65534 }
    ensures { result ≡ size_or_none (expanded_length (width (odd_if blocks.entry.width 0xA2)) profile_limits blocks.entry.bytes.now) }
{
    match expanded_len(blocks, Limits::profile()) {
        Ok(size) => size as usize,
        Err(_) => 0,
    }
}

/// The data of the record with a number, by its contents, which have `len` bytes.
pub(crate) fn piece_of(number: usize, len: u32, rec: &Rec<'_>) -> Option<Piece>
    requires short { IsShort (contents_seen rec.now) }
    ensures some { IfSome result (λ p. piece_of number (kind_seen rec.now) len (contents_seen rec.now) ≡ p ∷ []) }
    ensures none { IfNone result (piece_of number (kind_seen rec.now) len (contents_seen rec.now) ≡ []) }
{
    match rec {
        Rec::Plain {
            segment,
            offset,
            data,
            ..
        } => Some(Piece {
            number,
            is_plain: true,
            segment: segment.item.0,
            offset: offset.item,
            size: data.len(),
            at: (len as usize).saturating_sub(data.len()) as u32,
        }),
        Rec::Iterated {
            segment,
            offset,
            blocks,
        } => Some(Piece {
            number,
            is_plain: false,
            segment: segment.item.0,
            offset: offset.item,
            size: blocks_size(*blocks),
            at: (len as usize).saturating_sub(blocks.bytes.len()) as u32,
        }),
        _ => None,
    }
}

/// Appends the data of a record that will have a number.
pub(crate) fn push_piece(pieces: &mut Pieces, number: usize, of: &Record) -> Result<(), AllocError>
    ensures { OnOk result (pieces.new ≡ pieces.old ++ piece_in number of.now) }
{
    if !is_taken(of.kind) {
        return Ok(());
    }
    let raw = RawRecord {
        kind: of.kind,
        body: &of.body,
        number: 0,
        start: 0,
    };
    let Ok(rec) = view(raw) else {
        return Ok(());
    };
    match piece_of(number, of.body.len() as u32, &rec) {
        Some(piece) => Ok(pieces.push(piece)?),
        None => Ok(()),
    }
}

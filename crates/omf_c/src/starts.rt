//! The start of a module as a reference, before relocation.

ghost use Rattle.std.specs.Prelude.{◌≡◌, ◌*◌, ◌++◌, IfOk, OnOk};
ghost use Rattle.omf_check.specs.Module.{records_in};
ghost use Rattle.omf_records.specs.Values.{width};
ghost use Rattle.omf_reloc.specs.Inner.PieceSeen.{piece_seen};
ghost use Rattle.omf_reloc.specs.Inner.Widths.{modend_type};
ghost use Rattle.omf_c.specs.Starts.{end_row, end_rows, start_references, with_start, without_start};

use crate::fixups::{frame_of, kind_number};
use crate::rows::StartReferenceRow;
use crate::tables::flag;
use omf_check::Checked;
use omf_frame::{Place, Width};
use omf_reloc::{Piece, PlainReference, pieces_of};
use std::alloc::{AllocError, Global};

/// The bits of a displacement in a MODEND with fields of a width.
fn bits_of(bits: Width) -> u32
    ensures { result ≡ 8 * width (modend_type bits) }
{
    match bits {
        Width::Bits16 => 16,
        Width::Bits32 => 32,
    }
}

/// The row of a MODEND that names no start.
fn without_start(place: Place, type_byte: u8) -> StartReferenceRow
    ensures { result ≡ without_start place type_byte }
{
    StartReferenceRow {
        is_main: flag(type_byte >= 128),
        has_start: 0,
        frame_method: 0,
        frame_index: 0,
        target_method: 0,
        target_index: 0,
        displacement: 0,
        bits: 0,
        number: place.number,
        within: place.within,
    }
}

/// The row of a MODEND that names a start.
fn with_start(
    place: Place,
    bits: Width,
    type_byte: u8,
    reference: &PlainReference,
) -> StartReferenceRow
    ensures { result ≡ with_start place (modend_type bits) type_byte reference.now }
{
    let (frame_method, frame_index) = frame_of(reference.frame);
    StartReferenceRow {
        has_start: 1,
        frame_method,
        frame_index,
        target_method: kind_number(reference.target.kind),
        target_index: u32::from(reference.target.index.0),
        displacement: reference.displacement,
        bits: bits_of(bits),
        ..without_start(place, type_byte)
    }
}

/// The row of a MODEND.
fn end_row(
    place: Place,
    bits: Width,
    type_byte: u8,
    start: &Option<PlainReference>,
) -> StartReferenceRow
    ensures { result ≡ end_row place (modend_type bits) type_byte start.now }
{
    match start {
        Some(reference) => with_start(place, bits, type_byte, reference),
        None => without_start(place, type_byte),
    }
}

/// Appends the row of a piece, if it is the MODEND.
fn add_piece(
    rows: &mut Vec<StartReferenceRow>,
    place: Place,
    piece: &Piece<'_>,
) -> Result<(), AllocError>
    ensures { OnOk result (rows.new.items ≡ rows.old.items ++ end_rows place (piece_seen piece.now)) }
{
    match piece {
        Piece::Kept(_) | Piece::Fixed { .. } => Ok(()),
        Piece::End {
            width,
            type_byte,
            start,
        } => {
            rows.push(end_row(place, *width, *type_byte, start))?;
            Ok(())
        }
    }
}

/// The row of a module's MODEND.
pub(crate) fn start_of(
    alloc: Global,
    module: &Checked,
) -> Result<Vec<StartReferenceRow>, AllocError>
    ensures { IfOk result (λ v. v.items ≡ start_references (records_in «module».now.bytes)) }
{
    let mut rows = Vec::new(alloc);
    for (place, piece) in pieces_of(module) {
        add_piece(&mut rows, place, &piece)?;
    }
    Ok(rows)
}

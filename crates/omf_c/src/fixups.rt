//! The fixups of a module, with their threads resolved.

ghost use Rattle.std.specs.Prelude.{◌≡◌, ◌++◌, IfOk, OnOk};
ghost use Rattle.omf_check.specs.Module.{records_in};
ghost use Rattle.omf_records.specs.Inner.Names.{width_bits};
ghost use Rattle.omf_records.specs.Methods.{kind_number};
ghost use Rattle.omf_records.specs.Values.{location_type};
ghost use Rattle.omf_reloc.specs.Inner.PieceSeen.{piece_seen};
ghost use Rattle.omf_reloc.specs.Inner.Widths.{fixupp_type};
ghost use Rattle.omf_reloc.specs.Plain.{data_contents, data_of};
ghost use Rattle.omf_c.specs.Fixups.{fixup_row, fixup_rows, frame_index, frame_number, nowhere, piece_rows, place_or};

use crate::rows::FixupRow;
use crate::tables::flag;
use omf_check::{Checked, Data, Undecoded};
use omf_frame::{Place, Width};
use omf_records::{Kind, Locat};
use omf_reloc::{FrameMethod, Piece, PlainFixup, pieces_of};
use std::alloc::{AllocError, Global};

/// The segment and the offset of a data record, in bytes.
#[derive(Clone, Copy)]
pub struct DataPlace {
    pub segment: u16,
    pub offset: u32,
}

/// Before the first data record.
const NOWHERE: DataPlace = DataPlace {
    segment: 0,
    offset: 0,
};

/// The place of a record's data; of a record without data, which is not decoded, that of the last data record before it.
fn place_after(before: DataPlace, rec: &Undecoded<'_>) -> DataPlace
    ensures { result ≡ place_or before (data_contents rec.now.contents) }
{
    let Some(data) = rec.as_data() else {
        return before;
    };
    match &data {
        Data::Plain {
            segment,
            offset,
            ..
        } => DataPlace {
            segment: segment.item.0,
            offset: offset.item,
        },
        Data::Iterated {
            segment,
            offset,
            ..
        } => DataPlace {
            segment: segment.item.0,
            offset: offset.item,
        },
    }
}

/// The number of a target method.
pub(crate) fn kind_number(kind: Kind) -> u32
    ensures { result ≡ kind_number kind }
{
    match kind {
        Kind::Segment => 0,
        Kind::Group => 1,
        Kind::External => 2,
    }
}

/// The number of a frame method, and its index.
pub(crate) fn frame_of(frame: FrameMethod) -> (u32, u32)
    ensures number { result.0 ≡ frame_number frame }
    ensures index { result.1 ≡ frame_index frame }
{
    match &frame {
        FrameMethod::Of(target) => (kind_number(target.kind), u32::from(target.index.0)),
        FrameMethod::Location => (4, 0),
        FrameMethod::Target => (5, 0),
    }
}

/// The LOCATION field.
fn location_number(location: Locat) -> u32
    ensures { result ≡ location_type location }
{
    u32::from(location.number() / 1024 % 16)
}

/// The bits of a displacement in a FIXUPP with fields of a width.
fn bits_of(width: Width) -> u32
    ensures { result ≡ width_bits (fixupp_type width) }
{
    match width {
        Width::Bits16 => 16,
        Width::Bits32 => 32,
    }
}

/// The row of a fixup.
fn fixup_row(last: DataPlace, place: Place, width: Width, fixup: &PlainFixup) -> FixupRow
    ensures { result ≡ fixup_row last place (fixupp_type width) fixup.now }
{
    let location = fixup.location;
    let reference = &fixup.reference;
    let (frame_method, frame_index) = frame_of(reference.frame);
    FixupRow {
        offset: u64::from(last.offset) + u64::from(location.offset()),
        segment: u32::from(last.segment),
        location: location_number(location),
        size: u32::from(location.location_type().size()),
        is_self_relative: flag(!location.is_segment_relative()),
        frame_method,
        frame_index,
        target_method: kind_number(reference.target.kind),
        target_index: u32::from(reference.target.index.0),
        displacement: reference.displacement,
        bits: bits_of(width),
        number: place.number,
        within: place.within,
    }
}

/// Appends the row of a piece, if it is a fixup. Returns where the data are that the fixups after it change.
fn add_piece(
    rows: &mut Vec<FixupRow>,
    last: DataPlace,
    place: Place,
    piece: &Piece<'_>,
) -> Result<DataPlace, AllocError>
    ensures rows { OnOk result (rows.new.items ≡ rows.old.items ++ piece_rows last place (piece_seen piece.now)) }
    ensures last { IfOk result (λ next. next ≡ place_or last (data_of (piece_seen piece.now))) }
{
    match piece {
        Piece::Kept(rec) => Ok(place_after(last, rec)),
        Piece::Fixed { width, fixup } => {
            rows.push(fixup_row(last, place, *width, fixup))?;
            Ok(last)
        }
        Piece::End { .. } => Ok(last),
    }
}

/// The fixups of a module, in file order.
pub(crate) fn fixups_of(alloc: Global, module: &Checked) -> Result<Vec<FixupRow>, AllocError>
    ensures { IfOk result (λ v. v.items ≡ fixup_rows (records_in «module».now.bytes)) }
{
    let mut rows = Vec::new(alloc);
    let mut last = NOWHERE;
    for (place, piece) in pieces_of(module) {
        last = add_piece(&mut rows, last, place, &piece)?;
    }
    Ok(rows)
}

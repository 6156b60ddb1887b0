//! Whether a module moves with a program, and its relocation words.

ghost use Rattle.std.specs.Prelude.{◌≡◌, ◌↔◌, ℕ, ◌==◌, if◌then◌else◌, true, None};
ghost use Rattle.std.specs.Option.{option_map_or};
ghost use Rattle.omf_check.specs.Listed.{placed_from};
ghost use Rattle.omf_check.specs.Module.{recs_of, records_in};
ghost use Rattle.omf_records.specs.Inner.Names.{location_number};
ghost use Rattle.omf_reloc.specs.Additions.{type_of_number};
ghost use Rattle.omf_reloc.specs.Inner.Pieces.{placed_pieces};
ghost use Rattle.omf_reloc.specs.Inner.Widths.{fixupp_type};
ghost use Rattle.omf_reloc.specs.Plain.{data_contents, pieces};
ghost use Rattle.omf_output.specs.Exe.Filled.{has_any};
ghost use Rattle.omf_output.specs.Exe.Judged.{main_start_moves, pieces_move, segment_moves, start_moves};
ghost use Rattle.omf_output.specs.Exe.Movable.{first_unmoved, located_moves};
ghost use Rattle.omf_output.specs.Exe.Moved.{moves};
ghost use Rattle.omf_output.specs.Exe.Relocations.{moves_together, selector_at, site};

use crate::exe::movers::Movers;
use crate::located::{Located, located_of};
use omf_check::{Checked, Data, Undecoded};
use omf_frame::{Place, Width};
use omf_records::LocationType;
use omf_reloc::{Piece, PlainFixup, PlainReference};

/// Whether a location has this type: a base, which holds a selector alone.
pub(crate) fn is_base(kind: LocationType) -> bool
    ensures { result ≡ (location_number kind == 2) }
{
    match kind {
        LocationType::Base => true,
        LocationType::LowByte
        | LocationType::Offset16
        | LocationType::Pointer16
        | LocationType::HighByte
        | LocationType::LoaderOffset16
        | LocationType::Offset32
        | LocationType::Pointer32
        | LocationType::LoaderOffset32 => false,
    }
}

/// The offset of the selector in a location of this type, if it has one.
fn selector_at(kind: LocationType) -> Option<u16>
    ensures { result ≡ selector_at (type_of_number (location_number kind)) }
{
    match kind {
        LocationType::Base => Some(0),
        LocationType::Pointer16 => Some(2),
        LocationType::Pointer32 => Some(4),
        LocationType::LowByte
        | LocationType::Offset16
        | LocationType::HighByte
        | LocationType::LoaderOffset16
        | LocationType::Offset32
        | LocationType::LoaderOffset32 => None,
    }
}

/// Whether a fixup of data in a segment, in a FIXUPP of this width, moves with the program: its frame and its target move or stay together,
/// and, if it is self-relative, the data with them. A base needs no target.
fn moves_together(movers: &Movers, segment: u16, width: Width, fixup: &PlainFixup) -> bool
    ensures { result ≡ moves_together movers.now segment (fixupp_type width, fixup.now) }
{
    let reference = &fixup.reference;
    let frame = movers.frame_moves(segment, &reference.target, &reference.frame);
    let target = movers.target_moves(&reference.target);
    if fixup.location.is_segment_relative() {
        is_base(fixup.location.location_type()) || frame == target
    } else {
        frame == target && frame == movers.segment_moves(usize::from(segment))
    }
}

/// The offset in the data of the relocation word of a fixup of data in a segment, if it has one: the selector of a frame that moves, in a
/// base, a pointer 16:16 or a pointer 16:32 (TIS OMF 1.1, "FIXUPP", LOCATION).
pub fn site(movers: &Movers, segment: u16, fixup: &PlainFixup) -> Option<u16>
    ensures { (kind : ℕ) → result ≡ site movers.now segment (kind, fixup.now) }
{
    let reference = &fixup.reference;
    if !fixup.location.is_segment_relative()
        || !movers.frame_moves(segment, &reference.target, &reference.frame)
    {
        return None;
    }
    let at = selector_at(fixup.location.location_type())?;
    Some(fixup.location.offset() + at)
}

/// Whether a start moves: its frame and its target do.
fn start_moves(movers: &Movers, start: &Option<PlainReference>) -> bool
    ensures { result ≡ start_moves movers.now start.now }
{
    match start {
        Some(reference) => {
            movers.frame_moves(0, &reference.target, &reference.frame)
                && movers.target_moves(&reference.target)
        }
        None => true,
    }
}

/// Whether the start of a module with this type byte in its MODEND moves. That of a module that is not main need not (TIS OMF 1.1, "MODEND").
fn main_start_moves(movers: &Movers, type_byte: u8, start: &Option<PlainReference>) -> bool
    ensures { result ≡ main_start_moves movers.now type_byte start.now }
{
    type_byte < 128 || start_moves(movers, start)
}

/// Whether data of a segment move: if the segment does, or if there are none.
fn data_moves(movers: &Movers, segment: u16, bytes: &[u8]) -> bool
    ensures { result ≡ (if has_any bytes.now then moves movers.now.segments segment else true) }
{
    if bytes.len() > 0 {
        movers.segment_moves(usize::from(segment))
    } else {
        true
    }
}

/// Whether a record moves: a data record if its segment does, or if it has no bytes.
fn record_moves(movers: &Movers, rec: &Undecoded<'_>) -> bool
    ensures { result ≡ option_map_or (segment_moves movers.now) (data_contents rec.now.contents) true }
{
    let Some(data) = rec.as_data() else {
        return true;
    };
    match &data {
        Data::Plain { segment, bytes, .. } => data_moves(movers, segment.item.0, bytes),
        Data::Iterated {
            segment,
            blocks,
            ..
        } => data_moves(movers, segment.item.0, blocks.bytes),
    }
}

/// Whether a piece moves. A fixup without data before it does.
fn located_moves(movers: &Movers, located: &Located<'_>) -> bool
    ensures { result ≡ located_moves movers.now located.now }
{
    match (&located.piece, located.segment) {
        (Piece::Kept(rec), _) => record_moves(movers, rec),
        (Piece::Fixed { width, fixup }, Some(segment)) => {
            moves_together(movers, segment, *width, fixup)
        }
        (Piece::Fixed { .. }, None) => true,
        (
            Piece::End {
                type_byte,
                start,
                ..
            },
            _,
        ) => main_start_moves(movers, *type_byte, start),
    }
}

/// The place of the first piece of a module that does not move.
fn first_unmoved(module: &Checked, movers: &Movers) -> Option<Place>
    ensures { result ≡ first_unmoved movers.now (placed_pieces (placed_from 0 0 (records_in «module».now.bytes))) }
{
    for located in located_of(module) {
        if !located_moves(movers, &located) {
            return Some(located.place);
        }
    }
    None
}

/// The place of the first part of a module that does not move with the program: a data record with bytes, of a segment that stays; a fixup of which the
/// frame moves and the target does not, or the reverse, or whose data do not move with both; a start of a main module that stays. `None` if all move.
pub fn movable(module: &Checked, movers: &Movers) -> Option<Place>
    ensures first { result ≡ first_unmoved movers.now (placed_pieces (placed_from 0 0 (records_in «module».now.bytes))) }
    ensures decided { (result ≡ None) ↔ (pieces_move movers.now (pieces (recs_of «module».now.bytes)) ≡ true) }
{
    first_unmoved(module, movers)
}

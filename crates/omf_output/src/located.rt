//! The pieces of a module, each with the segment of the data that its fixups are in.

ghost use Rattle.std.specs.Prelude.{◌≡◌, option_map};
ghost use Rattle.omf_check.specs.Listed.{placed_from};
ghost use Rattle.omf_check.specs.Module.{records_in};
ghost use Rattle.omf_reloc.specs.Inner.PieceSeen.{piece_seen};
ghost use Rattle.omf_reloc.specs.Inner.Pieces.{placed_pieces};
ghost use Rattle.omf_reloc.specs.Plain.{data_contents};
ghost use Rattle.omf_output.specs.Inner.Walked.{segment_after};
ghost use Rattle.omf_output.specs.Located.{located};

use omf_check::{Checked, Data, Undecoded};
use omf_frame::Place;
use omf_reloc::{Piece, Pieces, pieces_of};
use std::marker::Model;

/// A piece of a module, with its place and the segment of the last data record before it (TIS OMF 1.1, "FIXUPP": a fixup is in the data of that record).
#[derive(Drop)]
pub(crate) struct Located<'a> {
    pub(crate) place: Place,
    /// `None` if there is no data record before it.
    pub(crate) segment: Option<u16>,
    pub(crate) piece: Piece<'a>,
}

impl<'a> Model for Located<'a> {
    ghost use Rattle.omf_reloc.specs.Inner.PieceSeen.{piece_seen};
    ghost use Rattle.omf_output.specs.Located.{Located as LocatedModel};

    ghost Value = { LocatedModel };

    ghost view = { λ l. record { place = l.place; segment = l.segment; piece = piece_seen l.piece } };
}

/// Returns the segment of a data record; `None` for any other. No record without data is decoded.
pub(crate) fn segment_of(rec: &Undecoded<'_>) -> Option<u16>
    ensures { result ≡ option_map (λ d. d.segment.item) (data_contents rec.now.contents) }
{
    let Some(data) = rec.as_data() else {
        return None;
    };
    match &data {
        Data::Plain { segment, .. } => Some(segment.item.0),
        Data::Iterated { segment, .. } => Some(segment.item.0),
    }
}

/// Returns the segment of the last data record, up to and including this piece.
fn segment_after(piece: &Piece<'_>, last: Option<u16>) -> Option<u16>
    ensures { result ≡ segment_after (piece_seen piece.now) last }
{
    match piece {
        Piece::Kept(rec) => segment_of(rec).or(last),
        Piece::Fixed { .. } | Piece::End { .. } => last,
    }
}

/// An iterator over the pieces of a module, in file order.
#[derive(Drop)]
pub(crate) struct LocatedPieces<'a> {
    pieces: Pieces<'a>,
    /// The segment of the last data record so far.
    segment: Option<u16>,
}

impl<'a> Model for LocatedPieces<'a> {
    ghost use Rattle.std.specs.Prelude.{List};
    ghost use Rattle.omf_output.specs.Inner.Walked.{located_from};
    ghost use Rattle.omf_output.specs.Located.{Located as LocatedModel};

    ghost Value = { List LocatedModel };

    ghost view = { λ l. located_from l.segment l.pieces };
}

impl<'a> Iterator for LocatedPieces<'a> {
    ghost use Rattle.std.specs.Iterator.{YieldsFirst, item_count};

    type Item = Located<'a>;

    ghost next_gives = { YieldsFirst (λ s. s) };

    ghost remaining = { item_count (λ s. s) };

    fn next(&mut self) -> Option<Located<'a>> {
        let (place, piece) = self.pieces.next()?;
        let segment = self.segment;
        self.segment = segment_after(&piece, segment);
        Some(Located {
            place,
            segment,
            piece,
        })
    }
}

/// Returns the pieces of a module, in file order, each with the segment of the last data record before it.
pub(crate) fn located_of(module: &Checked) -> LocatedPieces<'_>
    ensures { result ≡ located (placed_pieces (placed_from 0 0 (records_in «module».now.bytes))) }
{
    LocatedPieces {
        pieces: pieces_of(module),
        segment: None,
    }
}

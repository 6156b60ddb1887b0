//! The data so far: how far they reach in each segment, and which are the last ones at a place.

ghost use Rattle.std.specs.Prelude.{◌≡◌, ◌++◌, ◌∷◌, ◌≤◌, [], ℕ, IfNone, IfSome, OnErr, OnOk, Some, drop, filter, length, slice_index_or, take};
ghost use Rattle.omf_check.specs.Tables.{entry};
ghost use Rattle.omf_lowering.specs.Comdats.{past};
ghost use Rattle.omf_lowering.specs.Inner.Holders.{last_number};
ghost use Rattle.omf_lowering.specs.Inner.Laid.{end_of, further};
ghost use Rattle.omf_lowering.specs.Patches.{has_byte_of, holder};

use crate::holders::Holders;
use crate::values::Piece;
use std::alloc::{AllocError, Global};
use std::marker::Model;

/// The data of the records so far.
#[derive(Drop)]
pub(crate) struct Pieces {
    items: Vec<Piece>,
    /// The largest end of those in each segment, by its index, up to 2^32 - 1.
    ends: Vec<u32>,
    /// Which of the first `held` are the last ones at each place.
    holders: Holders,
    held: usize,
}

impl Model for Pieces {
    ghost use Rattle.std.specs.Prelude.{List};
    ghost use Rattle.omf_lowering.specs.Inner.Laid.{AreLaid};
    ghost use Rattle.omf_lowering.specs.declared.values.Piece.{Piece as PieceItem};

    ghost Value = { List PieceItem };

    ghost view = { λ p. p.items.items };

    ghost invariant = { λ p. AreLaid p.ends.items p.holders.numbers p.held p.items.items };
}

/// The end of data in their segment, up to 2^32 - 1.
fn end_of(piece: &Piece) -> u32
    ensures { result ≡ end_of piece.now }
{
    (piece.offset as usize)
        .saturating_add(piece.size)
        .min(0xFFFF_FFFF) as u32
}

/// Notes the end of data in their segment.
fn note_end(ends: &mut Vec<u32>, piece: &Piece) -> Result<(), AllocError>
    ensures noted { OnOk result ((s : ℕ) → slice_index_or ends.new.items s 0 ≡ further s (slice_index_or ends.old.items s 0) piece.now) }
    ensures err { OnErr result (ends.new.items ≡ ends.old.items) }
{
    let at = usize::from(piece.segment);
    if at >= ends.len() {
        ends.resize(at + 1, 0)?;
    }
    ends[at] = ends[at].max(end_of(piece));
    Ok(())
}

/// Whether data have a byte of a location.
fn has_byte_of(segment: u16, offset: u32, size: usize, piece: &Piece) -> bool
    requires { size ≤ 4 }
    ensures { result ≡ has_byte_of segment offset size piece.now }
{
    let start = piece.offset as usize;
    let first = offset as usize;
    piece.segment == segment && first < start.saturating_add(piece.size) && start < first + size
}

/// The last data from a number on that have a byte of a location.
fn last_from(pieces: &[Piece], from: usize, segment: u16, offset: u32, size: usize) -> Option<Piece>
    requires few { from ≤ length pieces.now }
    requires small { size ≤ 4 }
    ensures some { IfSome result (λ p. holder pieces.now segment offset size ≡ Some p) }
    ensures none { IfNone result (filter (has_byte_of segment offset size) (drop from pieces.now) ≡ []) }
{
    let mut left = pieces.len();
    while left > from {
        left -= 1;
        let piece = pieces[left];
        if has_byte_of(segment, offset, size, &piece) {
            return Some(piece);
        }
    }
    None
}

impl Pieces {
    /// No data.
    pub(crate) fn new(alloc: Global) -> Pieces
        ensures { result ≡ [] }
    {
        Pieces {
            items: Vec::new(alloc),
            ends: Vec::new(alloc),
            holders: Holders::new(alloc),
            held: 0,
        }
    }

    /// Appends data.
    pub(crate) fn push(&mut self, piece: Piece) -> Result<(), AllocError>
        ensures { OnOk result (self.new ≡ self.old ++ piece ∷ []) }
    {
        self.items.reserve(1)?;
        note_end(&mut self.ends, &piece)?;
        self.items.push_reserved(piece);
        Ok(())
    }

    /// The number of bytes before an end that are past all of these data in a segment.
    pub(crate) fn past(&self, segment: u16, end: u32) -> u32
        ensures { result ≡ past segment end self.now }
    {
        let at = usize::from(segment);
        if at >= self.ends.len() {
            return end;
        }
        end.saturating_sub(self.ends[at])
    }

    /// Holds the next data, if there are more than are held.
    fn hold_next(&mut self) -> Result<(), AllocError>
        ensures { self.new ≡ self.old }
    {
        if self.held >= self.items.len() {
            return Ok(());
        }
        let number = self.held + 1;
        self.holders.hold(&self.items[self.held], number)?;
        self.held = number;
        Ok(())
    }

    /// Holds all data, so that those of a location are found at once.
    pub(crate) fn hold_all(&mut self) -> Result<(), AllocError>
        ensures { self.new ≡ self.old }
    {
        for _number in self.held..self.items.len() {
            self.hold_next()?;
        }
        Ok(())
    }

    /// The data with a number, from 1.
    fn numbered(&self, number: usize) -> Option<Piece>
        ensures { result ≡ entry self.now number }
    {
        if number == 0 || number > self.items.len() {
            return None;
        }
        Some(self.items[number - 1])
    }

    /// The last data that have a byte of a location. Those that are not held are looked at one by one.
    pub(crate) fn holder(&self, segment: u16, offset: u32, size: usize) -> Option<Piece>
        requires { (1 ≤ size) × (size ≤ 4) }
        ensures { result ≡ holder self.now segment offset size }
    {
        match last_from(&self.items, self.held, segment, offset, size) {
            Some(piece) => Some(piece),
            None => self.numbered(self.holders.number_of(segment, offset, size)),
        }
    }
}

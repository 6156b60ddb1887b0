//! Which data are the last ones at each place of the segments.

ghost use Rattle.std.specs.Prelude.{◌≡◌, ◌⊎◌, ℕ, ◌+◌, ◌*◌, ◌<◌, ◌≤◌, ◌++◌, ◌∷◌, [], IfNone, IfSome, IsSome, List, None, OnErr, OnOk, length, min};
ghost use Rattle.omf_lowering.specs.Inner.Holders.{AreHeld, AreInForce, IsInForce, IsLaid, end_place, first_place, keyed, last_number, span};
ghost use Rattle.omf_lowering.specs.Patches.{has_byte_of};
ghost use Rattle.omf_lowering.specs.declared.values.Piece.{Piece as PieceItem};

use crate::values::Piece;
use std::alloc::{AllocError, Global};
use std::collections::BTreeMap;

/// The number of places of a segment. Each byte has two: the boundary before it, and itself.
const SPAN: u64 = 0x4_0000_0000;

/// The numbers of the last data at the places of all segments: each holds from its key up to the next key.
#[derive(Drop)]
pub(crate) struct Holders {
    numbers: BTreeMap<u64, usize>,
}

/// The first place of data.
fn first_of(piece: &Piece) -> u64
    ensures is { result ≡ piece.now.segment * span + first_place piece.now }
    ensures low { result < piece.now.segment * span + 17179869184 }
{
    let start = u64::from(piece.segment) * SPAN + 2 * u64::from(piece.offset);
    if piece.size == 0 { start } else { start + 1 }
}

/// The place after the last one of data.
fn end_of(piece: &Piece) -> u64
    ensures is { result ≡ piece.now.segment * span + min (end_place piece.now) span }
{
    let start = u64::from(piece.segment) * SPAN;
    let offset = 2 * u64::from(piece.offset);
    if piece.size == 0 {
        return start + offset + 1;
    }
    let end = (piece.size as u64).saturating_mul(2).saturating_add(offset);
    start + end.min(SPAN)
}

impl Holders {
    /// No data.
    pub(crate) fn new(alloc: Global) -> Holders
        ensures { AreHeld (keyed result.numbers) [] }
    {
        Holders {
            numbers: BTreeMap::new(alloc),
        }
    }

    /// The number of the last data at a place; 0 if there are none.
    fn number_at(&self, place: u64) -> usize
        ensures { IsInForce (keyed self.now.numbers) place result }
    {
        match self.numbers.range(..=place).next_back() {
            Some((_key, number)) => *number,
            None => 0,
        }
    }

    /// The first key between two places.
    fn key_between(&self, first: u64, end: u64) -> Option<u64>
        requires { first < end }
        ensures some { IfSome result (λ k. (first < k) × (k < end) × IsSome (keyed self.now.numbers k)) }
        ensures none { IfNone result ((k : ℕ) → first < k → k < end → keyed self.now.numbers k ≡ None) }
    {
        match self.numbers.range(first + 1..end).next() {
            Some((key, _number)) => Some(*key),
            None => None,
        }
    }

    /// Removes the keys between two places.
    fn clear(&mut self, first: u64, end: u64)
        requires { first < end }
        ensures inside { (k : ℕ) → first < k → k < end → keyed self.new.numbers k ≡ None }
        ensures others { (k : ℕ) → (k ≤ first) ⊎ (end ≤ k) → keyed self.new.numbers k ≡ keyed self.old.numbers k }
    {
        while let Some(key) = self.key_between(first, end) {
            self.numbers.remove(&key);
        }
    }

    /// Gives a number to the places from the first up to the end.
    fn lay(&mut self, first: u64, end: u64, number: usize) -> Result<(), AllocError>
        requires { first < end }
        ensures ok { OnOk result (IsLaid (keyed self.old.numbers) (keyed self.new.numbers) first end number) }
        ensures err { OnErr result (AreInForce (keyed self.old.numbers) (keyed self.new.numbers)) }
    {
        let after = self.number_at(end);
        self.numbers.insert(end, after)?;
        self.numbers.insert(first, number)?;
        self.clear(first, end);
        Ok(())
    }

    /// Adds data, which have a number from 1.
    pub(crate) fn hold(&mut self, piece: &Piece, number: usize) -> Result<(), AllocError>
        ensures ok { (before : List PieceItem) → AreHeld (keyed self.old.numbers) before → number ≡ length before + 1 → OnOk result (AreHeld (keyed self.new.numbers) (before ++ piece.now ∷ [])) }
        ensures err { (before : List PieceItem) → AreHeld (keyed self.old.numbers) before → OnErr result (AreHeld (keyed self.new.numbers) before) }
    {
        self.lay(first_of(piece), end_of(piece), number)
    }

    /// The number of the last data that have a byte of a location; 0 if there are none.
    pub(crate) fn number_of(&self, segment: u16, offset: u32, size: usize) -> usize
        requires { (1 ≤ size) × (size ≤ 4) }
        ensures { (pieces : List PieceItem) → AreHeld (keyed self.now.numbers) pieces → result ≡ last_number (has_byte_of segment offset size) pieces }
    {
        let start = u64::from(segment) * SPAN + 2 * u64::from(offset) + 1;
        let mut number = self.number_at(start);
        for more in 1..2 * size as u64 - 1 {
            number = number.max(self.number_at(start + more));
        }
        number
    }
}

//! The relocation words of modules in file order, and the parts of modules that overlap one.

ghost use Rattle.std.specs.Prelude.{All, ◌≡◌, ◌++◌, ◌+◌, ◌<◌, ◌≤◌, ◌^◌, ◌||◌, ◌==◌, ℕ, [], ◌∷◌, length, IfOk, IfErr, IfSome, OnErr, OnOk, Some, None, Ok, Err, false, true, if◌then◌else◌, slice_index_or};
ghost use Rattle.omf_check.specs.Listed.{placed_from};
ghost use Rattle.omf_check.specs.Module.{recs_of, records_in};
ghost use Rattle.omf_image.specs.Painting.{Fits};
ghost use Rattle.omf_reloc.specs.Inner.Names.{location_start};
ghost use Rattle.omf_reloc.specs.Inner.Measuring.{CanMeasure, measured};
ghost use Rattle.omf_reloc.specs.Inner.PieceSeen.{piece_seen};
ghost use Rattle.omf_reloc.specs.Inner.Pieces.{placed_pieces};
ghost use Rattle.omf_reloc.specs.Laws.{location_end};
ghost use Rattle.omf_output.specs.Inner.Taking.{CanTake};
ghost use Rattle.omf_output.specs.Exe.Overlaps.{AddsWords, IsLow, IsWordsFault, all_words, are_clear, opened, opened_after, with_contents, with_fixups, with_piece, word_of};

use crate::exe::laying::{extent_of, segment_address};
use crate::exe::member::Member;
use crate::exe::movers::Movers;
use crate::exe::moving::site;
use omf_check::{Checked, Data, Undecoded};
use omf_frame::Place;
use omf_placement::Placement;
use omf_reloc::{Piece, PlainFixup, pieces_of};
use std::alloc::{AllocError, Global};
use std::marker::Model;
use thiserror::Error;

/// Why the relocation words of a module are not added.
#[derive(Clone, Copy, Debug, PartialEq, Eq, Error)]
pub enum WordsFault {
    /// Out of memory.
    #[error("memory ran out")]
    Memory,
    /// The data record or the fixup at this place overlaps a relocation word before it.
    #[error("a data record or a fixup overlaps a relocation word")]
    Overlap(Place),
}

impl From<AllocError> for WordsFault {
    ghost use Rattle.std.specs.Prelude.{◌≡◌};
    ghost use Rattle.omf_output.specs.declared.exe.words.WordsFault.TheVariants.{Memory};

    ghost from_gives = { λ _ e. e ≡ Memory };

    fn from(_error: AllocError) -> WordsFault {
        WordsFault::Memory
    }
}

/// The relocation words of modules, in file order.
#[derive(Drop)]
pub struct Words {
    /// Whether a word begins at each address; none beyond the end.
    starts: Vec<bool>,
    /// The address of each word, in file order.
    found: Vec<usize>,
}

impl Model for Words {
    ghost use Rattle.std.specs.Prelude.{List, ℕ};
    ghost use Rattle.omf_output.specs.Exe.Overlaps.{AreMarked};

    ghost Value = { List ℕ };

    ghost view = { λ w. w.found.items };

    ghost invariant = { λ w. AreMarked w.starts.items w.found.items };
}

/// Whether no word begins at an address from `low` up to `high`.
fn none_begins(starts: &[bool], low: usize, high: usize) -> bool
    requires { high ≤ length starts.now }
    ensures none { result ≡ true → (x : ℕ) → low ≤ x → x < high → slice_index_or starts.now x false ≡ false }
    ensures one { result ≡ false → (x : ℕ) × (low ≤ x) × (x < high) × (slice_index_or starts.now x false ≡ true) }
{
    for x in low..high {
        if starts[x] {
            return false;
        }
    }
    true
}

/// Notes that a word begins at an address.
fn mark(starts: &mut Vec<bool>, at: usize) -> Result<(), AllocError>
    requires { at < 2 ^ 40 }
    ensures marked { OnOk result ((x : ℕ) → slice_index_or starts.new.items x false ≡ ((at == x) || slice_index_or starts.old.items x false)) }
    ensures err { OnErr result (starts.new.items ≡ starts.old.items) }
{
    if at >= starts.len() {
        starts.resize(at + 1, false)?;
    }
    starts[at] = true;
    Ok(())
}

impl Words {
    /// No words.
    pub fn new(alloc: Global) -> Words
        ensures { result ≡ [] }
    {
        Words {
            starts: Vec::new(alloc),
            found: Vec::new(alloc),
        }
    }

    /// Whether no word has a byte from an address up to another.
    fn are_clear(&self, from: usize, to: usize) -> bool
        ensures { result ≡ are_clear self.now from to }
    {
        let high = to.min(self.starts.len());
        none_begins(&self.starts, from.saturating_sub(1), high)
    }

    /// Adds a word.
    fn add(&mut self, at: usize) -> Result<(), AllocError>
        requires { at < 2 ^ 40 }
        ensures { OnOk result (self.new ≡ self.old ++ at ∷ []) }
    {
        self.found.reserve(1)?;
        mark(&mut self.starts, at)?;
        self.found.push_reserved(at);
        Ok(())
    }
}

/// Whether the data of a record overlap no word; a record without data overlaps none, and is not decoded.
fn is_record_clear(words: &Words, placement: &Placement, rec: &Undecoded<'_>) -> bool
    requires measured { CanMeasure rec.now }
    requires fits { All Fits (measured rec.now) }
    ensures { with_contents placement.now rec.now.kind rec.now.contents words.now ≡ (if result then Some words.now else None) }
{
    match extent_of(rec) {
        Some(extent) => {
            let from = segment_address(placement, extent.segment) + extent.first as usize;
            words.are_clear(from, from + extent.len as usize)
        }
        None => true,
    }
}

/// The segment of an LEDATA and the address of its first byte, up to and including this record. No record without data is decoded.
fn opened(
    placement: &Placement,
    rec: &Undecoded<'_>,
    last: Option<(u16, usize)>,
) -> Option<(u16, usize)>
    requires { IfSome last IsLow }
    ensures value { result ≡ opened placement.now rec.now.contents last }
    ensures low { IfSome result IsLow }
{
    let Some(data) = rec.as_data() else {
        return last;
    };
    match &data {
        Data::Plain {
            segment,
            offset,
            ..
        } => {
            let address = segment_address(placement, segment.item.0) + offset.item as usize;
            Some((segment.item.0, address))
        }
        Data::Iterated { .. } => None,
    }
}

/// The same, up to and including this piece.
fn opened_after(
    placement: &Placement,
    piece: &Piece<'_>,
    last: Option<(u16, usize)>,
) -> Option<(u16, usize)>
    requires { IfSome last IsLow }
    ensures value { result ≡ opened_after placement.now (piece_seen piece.now) last }
    ensures low { IfSome result IsLow }
{
    match piece {
        Piece::Kept(rec) => opened(placement, rec, last),
        Piece::Fixed { .. } | Piece::End { .. } => last,
    }
}

/// Whether the location of a fixup overlaps no word. `address` is that of the first byte of its data.
fn is_fixup_clear(words: &Words, address: usize, fixup: &PlainFixup) -> bool
    requires { address < 2 ^ 34 }
    ensures { (kind : ℕ) → result ≡ are_clear words.now (address + location_start (kind, fixup.now)) (address + location_end (kind, fixup.now)) }
{
    let start = address + usize::from(fixup.location.offset());
    let end = start + usize::from(fixup.location.location_type().size());
    words.are_clear(start, end)
}

/// Adds the relocation word of a fixup, if it has one.
fn add_site(
    words: &mut Words,
    movers: &Movers,
    source: (u16, usize),
    fixup: &PlainFixup,
) -> Result<(), AllocError>
    requires { IsLow source }
    ensures { OnOk result ((kind : ℕ) → words.new ≡ words.old ++ word_of movers.now source.0 source.1 (kind, fixup.now)) }
{
    match site(movers, source.0, fixup) {
        Some(at) => words.add(source.1 + usize::from(at)),
        None => Ok(()),
    }
}

/// Takes a fixup of data at a place. Returns whether it overlaps no word; then its own word is added.
fn take_fixup(
    words: &mut Words,
    movers: &Movers,
    source: (u16, usize),
    fixup: &PlainFixup,
) -> Result<bool, AllocError>
    requires { IsLow source }
    ensures { IfOk result (λ clear. (kind : ℕ) → with_fixups movers.now source.0 source.1 ((kind, fixup.now) ∷ []) words.old ≡ (if clear then Some words.new else None)) }
{
    if !is_fixup_clear(words, source.1, fixup) {
        return Ok(false);
    }
    add_site(words, movers, source, fixup)?;
    Ok(true)
}

/// Takes a piece. Returns whether it overlaps no word; then its own word, if it has one, is added.
fn take(
    words: &mut Words,
    placement: &Placement,
    movers: &Movers,
    last: Option<(u16, usize)>,
    piece: &Piece<'_>,
) -> Result<bool, AllocError>
    requires low { IfSome last IsLow }
    requires measured { CanTake (piece_seen piece.now) }
    ensures { IfOk result (λ clear. with_piece movers.now placement.now last (piece_seen piece.now) words.old ≡ (if clear then Some words.new else None)) }
{
    match piece {
        Piece::Kept(rec) => Ok(is_record_clear(words, placement, rec)),
        Piece::Fixed { fixup, .. } => match last {
            Some(source) => take_fixup(words, movers, source, fixup),
            None => Ok(true),
        },
        Piece::End { .. } => Ok(true),
    }
}

/// Adds the relocation words of a module, in file order.
fn add_words(
    words: &mut Words,
    module: &Checked,
    placement: &Placement,
    movers: &Movers,
) -> Result<(), WordsFault>
    ensures ok { OnOk result (all_words movers.now placement.now None (placed_pieces (placed_from 0 0 (records_in «module».now.bytes))) words.old ≡ Ok words.new) }
    ensures adds { OnOk result (AddsWords movers.now placement.now (recs_of «module».now.bytes) words.old words.new) }
    ensures err { IfErr result (IsWordsFault (all_words movers.now placement.now None (placed_pieces (placed_from 0 0 (records_in «module».now.bytes))) words.old)) }
{
    let mut last = None;
    for (place, piece) in pieces_of(module) {
        if !take(words, placement, movers, last, &piece)? {
            return Err(WordsFault::Overlap(place));
        }
        last = opened_after(placement, &piece, last);
    }
    Ok(())
}

impl Words {
    /// The words with those of one more module at its placement. Each data record of the module, with its fixups, overlaps no word before it.
    ///
    /// # Errors
    ///
    /// `Overlap` with the place of the first data record or fixup that overlaps a word before it, of this module or of one that was added
    /// earlier; `Memory` if memory runs out.
    pub fn with_module(
        self,
        module: &Checked,
        placement: &Placement,
        movers: &Movers,
    ) -> Result<Words, WordsFault>
        ensures found { IfOk result (λ w. all_words movers.now placement.now None (placed_pieces (placed_from 0 0 (records_in «module».now.bytes))) self ≡ Ok w) }
        ensures adds { IfOk result (λ w. AddsWords movers.now placement.now (recs_of «module».now.bytes) self w) }
        ensures fault { IfErr result (IsWordsFault (all_words movers.now placement.now None (placed_pieces (placed_from 0 0 (records_in «module».now.bytes))) self)) }
    {
        let mut words = self;
        add_words(&mut words, module, placement, movers)?;
        Ok(words)
    }

    /// The address of each word, in file order.
    pub fn into_addresses(self) -> Vec<usize>
        ensures { result.items ≡ self }
    {
        self.found
    }
}

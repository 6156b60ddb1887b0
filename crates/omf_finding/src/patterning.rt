//! Patterns: what is known of a module's image before it is placed.

ghost use Rattle.std.specs.Prelude.{◌≡◌, ◌+◌, ◌^◌, ◌≤◌, ℕ, [], ◌∷◌, OnOk, IfOk, IfSome, None, Some, option_map, replicate, vec_len};
ghost use Rattle.omf_records.specs.Inner.Seen.{odd_if};
ghost use Rattle.omf_records.specs.Values.{width};
ghost use Rattle.omf_image.specs.Inner.Expanding.{expanded};
ghost use Rattle.omf_image.specs.Limits.{profile_limits};
ghost use Rattle.omf_image.specs.Overlay.{AreLaidOver, Laid};
ghost use Rattle.omf_check.specs.Module.{recs_of};
ghost use Rattle.omf_reloc.specs.Inner.PieceSeen.{piece_seen};
ghost use Rattle.omf_reloc.specs.Inner.ReachSteps.{data_place};
ghost use Rattle.omf_reloc.specs.Inner.Walking.{CanExpand, Expands};
ghost use Rattle.omf_finding.specs.Pattern.{pattern};
ghost use Rattle.omf_finding.specs.Run.{closed_byte, cells, IsPatternRun};
ghost use Rattle.omf_finding.specs.Inner.Shaping.{AreIntervals, IsIntervalAt, IsMarked, IsPatternOf};
ghost use Rattle.omf_finding.specs.Inner.Walking.{byte_in, byte_with, unmarked, marked_all, raw_contents, raw_of, marks_of, IsNext, FitsContents, CanMark, CanTake, marks_contents};

use omf_check::{Checked, Data, Undecoded};
use omf_frame::Index;
use omf_image::{Image, Limits, Run, expand};
use omf_records::{At, Blocks};
use omf_reloc::{Piece, PlainFixup, pieces_of};
use std::alloc::{AllocError, Global};
use std::marker::Model;

/// A byte of a pattern.
#[derive(Clone, Copy)]
pub struct PatternByte {
    /// The byte of the module's data.
    pub value: u8,
    /// Whether a location of a fixup touches it, so that a placement may change it.
    pub is_open: bool,
}

/// The pattern of a module: the bytes of its data, before any fixup, and which of them a fixup may change.
#[derive(Drop)]
pub struct Pattern {
    /// The bytes.
    values: Image,
    /// 1 at each open byte, 0 at each closed one.
    marks: Image,
}

impl Model for Pattern {
    ghost use Rattle.omf_finding.specs.Inner.Walking.{Marks};

    ghost Value = { Marks };

    ghost view = { λ p. record { values = p.values; marks = p.marks } };
}

/// An interval of a segment that data records cover.
#[derive(Clone, Copy)]
pub(crate) struct Interval<'a> {
    /// Its first offset.
    pub(crate) first: u32,
    /// Its bytes.
    pub(crate) values: &'a [u8],
    /// Their marks: 1 for an open byte.
    pub(crate) marks: &'a [u8],
}

/// The byte with this value, and whether it is marked.
fn byte_with(value: Option<u8>, mark: Option<u8>) -> Option<PatternByte>
    ensures { result ≡ byte_with value mark }
{
    match value {
        Some(value) => Some(PatternByte {
            value,
            is_open: mark.unwrap_or(0) == 1,
        }),
        None => None,
    }
}

/// A closed byte; `None` for an open one, and where there is none.
fn closed_byte(byte: Option<PatternByte>) -> Option<u8>
    ensures { result ≡ closed_byte byte }
{
    match byte {
        Some(
            PatternByte {
                value,
                is_open: false,
            },
        ) => Some(value),
        _ => None,
    }
}

impl Pattern {
    /// The byte at an offset of a segment; `None` if no data record covers it.
    pub fn get(&self, segment: u16, offset: u32) -> Option<PatternByte>
        ensures { result ≡ byte_in self.now segment offset }
    {
        byte_with(
            self.values.get(segment, offset),
            self.marks.get(segment, offset),
        )
    }

    /// The k-th interval of a segment that data records cover, from 0 and in ascending order.
    fn interval(&self, segment: u16, k: usize) -> Option<Interval<'_>>
        requires { IsMarked self.now }
        ensures { IsIntervalAt self.now segment k result }
    {
        let (first, values) = self.values.run_with_bytes(segment, k)?;
        let marks = self.marks.run_bytes(segment, k)?;
        Some(Interval {
            first,
            values,
            marks,
        })
    }

    /// The intervals of a segment that data records cover, in ascending order.
    pub(crate) fn intervals(
        &self,
        alloc: Global,
        segment: u16,
    ) -> Result<Vec<Interval<'_>>, AllocError>
        requires { IsMarked self.now }
        ensures { IfOk result (λ v. AreIntervals (byte_in self.now segment) v.items) }
    {
        let mut intervals = Vec::new(alloc);
        let mut k = 0;
        while let Some(interval) = self.interval(segment, k) {
            intervals.push(interval)?;
            k += 1;
        }
        Ok(intervals)
    }

    /// The bytes of an interval of a segment.
    fn cells(&self, alloc: Global, segment: u16, run: Run) -> Result<Vec<Option<u8>>, AllocError>
        requires { run.first + run.len ≤ 2 ^ 32 }
        ensures { IfOk result (λ v. v.items ≡ cells (byte_in self.now segment) run.first run.len) }
    {
        let mut cells = Vec::new(alloc);
        for i in 0..run.len {
            let offset = run.first + i as u32;
            cells.push(closed_byte(self.get(segment, offset)))?;
        }
        Ok(cells)
    }

    /// The first offset and the bytes of the k-th interval of a segment that data records cover, from 0 and in ascending order, as `places`
    /// searches for them: an open byte is `None`. `None` after the last.
    ///
    /// # Errors
    ///
    /// `AllocError` if out of memory.
    pub fn run(
        &self,
        alloc: Global,
        segment: u16,
        k: usize,
    ) -> Result<Option<(u32, Vec<Option<u8>>)>, AllocError>
        ensures { IfOk result (λ r. IsPatternRun self.now segment k (option_map (λ shown. (shown.0, shown.1.items)) r)) }
    {
        match self.values.run_at(segment, k) {
            Some(run) => {
                let cells = self.cells(alloc, segment, run)?;
                Ok(Some((run.first, cells)))
            }
            None => Ok(None),
        }
    }
}

/// The walk over a module's pieces.
#[derive(Drop)]
struct Walk {
    values: Image,
    marks: Image,
    /// The segment and the offset of the last data record.
    last_place: Option<(u16, u32)>,
}

impl Model for Walk {
    ghost use Rattle.omf_finding.specs.Inner.Walking.{Walk as Walked};

    ghost Value = { Walked };

    ghost view = { λ w. record { values = w.values; marks = w.marks; last_place = w.last_place } };
}

/// The expanded bytes of an LIDATA's blocks.
fn expanded(alloc: Global, blocks: Blocks<'_>) -> Result<Vec<u8>, AllocError>
    requires { Expands (odd_if blocks.width 0xA2) blocks.bytes.now }
    ensures { IfOk result (λ v. v.items ≡ expanded (width (odd_if blocks.entry.width 0xA2)) profile_limits blocks.entry.bytes.now) }
{
    let (bytes, _moved) = expand(alloc, blocks, Limits::profile())?;
    Ok(bytes)
}

/// A byte, repeated n times.
fn repeated(alloc: Global, byte: u8, count: usize) -> Result<Vec<u8>, AllocError>
    ensures { IfOk result (λ v. v.items ≡ replicate count byte) }
{
    vec![in alloc; byte; count]
}

impl Walk {
    fn new(alloc: Global) -> Walk
        ensures { result ≡ record { values = []; marks = []; last_place = None } }
    {
        Walk {
            values: Image::new(alloc),
            marks: Image::new(alloc),
            last_place: None,
        }
    }

    fn finish(self) -> Pattern
        ensures { result ≡ record { values = self.values; marks = self.marks } }
    {
        Pattern {
            values: self.values,
            marks: self.marks,
        }
    }

    /// Lays data, which no fixup touches yet.
    fn lay(
        &mut self,
        alloc: Global,
        segment: &At<Index>,
        offset: &At<u32>,
        bytes: Vec<u8>,
    ) -> Result<(), AllocError>
        requires { offset.now.item + vec_len bytes ≤ 2 ^ 32 }
        ensures values { OnOk result (AreLaidOver self.old.values (record { segment = segment.now.item; offset = offset.now.item; bytes = bytes.items } ∷ []) self.new.values) }
        ensures marks { OnOk result (AreLaidOver self.old.marks (unmarked (record { segment = segment.now.item; offset = offset.now.item; bytes = bytes.items }) ∷ []) self.new.marks) }
        ensures place { OnOk result (self.new.last_place ≡ Some (segment.now.item, offset.now.item)) }
    {
        let segment = segment.item.0;
        let offset = offset.item;
        let zeros = repeated(alloc, 0, bytes.len())?;
        self.marks.lay(segment, offset, zeros)?;
        self.values.lay(segment, offset, bytes)?;
        self.last_place = Some((segment, offset));
        Ok(())
    }

    /// Takes the next record. No record without data is decoded.
    fn take_record(&mut self, alloc: Global, rec: &Undecoded<'_>) -> Result<(), AllocError>
        requires expands { CanExpand rec.now.kind rec.now.contents }
        requires fits { FitsContents rec.now.kind rec.now.contents }
        ensures values { OnOk result (AreLaidOver self.old.values (raw_contents rec.now.kind rec.now.contents) self.new.values) }
        ensures marks { OnOk result (AreLaidOver self.old.marks (marks_contents rec.now.kind rec.now.contents) self.new.marks) }
        ensures place { OnOk result (self.new.last_place ≡ data_place rec.now.contents self.old.last_place) }
    {
        let Some(data) = rec.as_data() else {
            return Ok(());
        };
        match &data {
            Data::Plain {
                segment,
                offset,
                bytes,
                ..
            } => {
                let bytes = bytes.to_vec(alloc)?;
                self.lay(alloc, segment, offset, bytes)
            }
            Data::Iterated {
                segment,
                offset,
                blocks,
            } => {
                let bytes = expanded(alloc, *blocks)?;
                self.lay(alloc, segment, offset, bytes)
            }
        }
    }

    /// Marks the location of a fixup of the last data record.
    fn mark(&mut self, alloc: Global, fixup: &PlainFixup) -> Result<(), AllocError>
        requires { IfSome self.old.last_place (CanMark fixup.now) }
        ensures values { self.new.values ≡ self.old.values }
        ensures marks { OnOk result (AreLaidOver self.old.marks (marked_all self.old.last_place (fixup.now ∷ [])) self.new.marks) }
        ensures place { self.new.last_place ≡ self.old.last_place }
    {
        match self.last_place {
            Some((segment, offset)) => {
                let location = fixup.location;
                let size = location.location_type().size();
                let ones = repeated(alloc, 1, usize::from(size))?;
                let start = offset + u32::from(location.offset());
                self.marks.lay(segment, start, ones)
            }
            None => Ok(()),
        }
    }

    /// Takes the next piece.
    fn take(&mut self, alloc: Global, piece: &Piece<'_>) -> Result<(), AllocError>
        requires { CanTake (piece_seen piece.now) self.old.last_place }
        ensures { OnOk result (IsNext (piece_seen piece.now) self.old self.new) }
    {
        match piece {
            Piece::Kept(rec) => self.take_record(alloc, rec),
            Piece::Fixed { fixup, .. } => self.mark(alloc, fixup),
            Piece::End { .. } => Ok(()),
        }
    }
}

/// The pattern of a module, with a mark for each byte.
pub(crate) fn marked_pattern(alloc: Global, module: &Checked) -> Result<Pattern, AllocError>
    ensures { IfOk result (IsPatternOf «module».now) }
{
    let mut walk = Walk::new(alloc);
    for (_, piece) in pieces_of(module) {
        walk.take(alloc, &piece)?;
    }
    Ok(walk.finish())
}

/// The pattern of a module: at each offset of each segment, the byte of the last data record that covers it, an LIDATA's blocks expanded,
/// and whether a location of that record's fixups touches it.
///
/// # Errors
///
/// `AllocError` if out of memory.
pub fn pattern_of(alloc: Global, module: &Checked) -> Result<Pattern, AllocError>
    ensures { IfOk result (λ p. (segment x : ℕ) → byte_in p segment x ≡ pattern profile_limits (recs_of «module».now.bytes) segment x) }
{
    marked_pattern(alloc, module)
}

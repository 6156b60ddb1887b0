//! The references of a module: what its start, and the data of each of its segments, refer to.

ghost use Rattle.std.specs.Prelude.{◌≡◌, ◌+◌, [], IfOk, OnOk, Some, length, map, slice_index_or};
ghost use Rattle.omf_check.specs.Inner.Contents.{data_seen};
ghost use Rattle.omf_check.specs.Module.{recs_of};
ghost use Rattle.omf_reloc.specs.Inner.PieceSeen.{piece_seen};
ghost use Rattle.omf_trimming.specs.Reaching.{data_segment, piece_uses, start_targets};
ghost use Rattle.omf_trimming.specs.Inner.Uses.{empty_buckets, filled, module_uses, piece_after, segment_after, with_use};

use omf_check::{Checked, Data, FrameMethod, TargetMethod, Undecoded};
use omf_reloc::{Piece, PlainReference, pieces_of};
use std::alloc::{AllocError, Global};
use std::marker::Model;

/// The targets of references.
#[derive(Drop)]
struct Targets {
    found: Vec<TargetMethod>,
}

impl Model for Targets {
    ghost use Rattle.std.specs.Prelude.{List};
    ghost use Rattle.omf_check.specs.declared.method.TargetMethod.{TargetMethod as Target};

    ghost Value = { List Target };

    ghost view = { λ t. t.found.items };
}

/// The targets of a module's references: for each segment, by its index, those of the fixups in its data; at 0 those of the module's start.
#[derive(Drop)]
pub(crate) struct Uses {
    of_segment: Vec<Targets>,
}

impl Model for Uses {
    ghost use Rattle.omf_trimming.specs.Inner.Uses.{Buckets};

    ghost Value = { Buckets };

    ghost view = { λ u. u.of_segment.items };
}

/// The segment of data.
fn segment_of(data: &Data<'_>) -> u16
    ensures { result ≡ data_segment (data_seen data.now).contents }
{
    match data {
        Data::Plain { segment, .. } | Data::Iterated { segment, .. } => segment.item.0,
    }
}

/// The segment of the last data after a record, where it was `last` before.
fn segment_after(last: u16, record: &Undecoded<'_>) -> u16
    ensures { result ≡ segment_after last record.now.contents }
{
    match record.as_data() {
        Some(data) => segment_of(&data),
        None => last,
    }
}

/// The segment of the last data after a piece, where it was `last` before.
fn piece_after(last: u16, piece: &Piece<'_>) -> u16
    ensures { result ≡ piece_after last (piece_seen piece.now) }
{
    match piece {
        Piece::Kept(record) => segment_after(last, record),
        Piece::Fixed { .. } | Piece::End { .. } => last,
    }
}

impl Uses {
    /// No references, for this number of indices.
    fn empty(alloc: Global, count: usize) -> Result<Uses, AllocError>
        ensures { IfOk result (λ u. u ≡ empty_buckets count) }
    {
        let mut of_segment = Vec::new(alloc);
        for _index in 0..count {
            of_segment.push(Targets {
                found: Vec::new(alloc),
            })?;
        }
        Ok(Uses { of_segment })
    }

    /// Adds a reference of a segment.
    fn add(&mut self, segment: u16, target: TargetMethod) -> Result<(), AllocError>
        ensures { OnOk result (self.new ≡ with_use segment target self.old) }
    {
        if let Some(targets) = self.of_segment.get_mut(usize::from(segment)) {
            targets.found.push(target)?;
        }
        Ok(())
    }

    /// Adds those of a start.
    fn add_start(&mut self, start: &PlainReference) -> Result<(), AllocError>
        ensures { OnOk result (self.new ≡ filled self.old (map (λ t. (0, t)) (start_targets (Some start.now)))) }
    {
        self.add(0, start.target)?;
        match start.frame {
            FrameMethod::Of(entry) => self.add(0, entry),
            FrameMethod::Location | FrameMethod::Target => Ok(()),
        }
    }

    /// Adds those of a piece, after data of the segment `last`.
    fn add_piece(&mut self, last: u16, piece: &Piece<'_>) -> Result<(), AllocError>
        ensures { OnOk result (self.new ≡ filled self.old (piece_uses last (piece_seen piece.now))) }
    {
        match piece {
            Piece::Kept(_) => Ok(()),
            Piece::Fixed { fixup, .. } => self.add(last, fixup.reference.target),
            Piece::End { start, .. } => match start {
                Some(start) => self.add_start(start),
                None => Ok(()),
            },
        }
    }

    /// The references of a module.
    pub(crate) fn of(alloc: Global, module: &Checked) -> Result<Uses, AllocError>
        ensures { IfOk result (λ u. u ≡ module_uses (recs_of «module».now.bytes)) }
    {
        let mut uses = Uses::empty(alloc, usize::from(module.segments()) + 1)?;
        let mut last = 0;
        for (_, piece) in pieces_of(module) {
            uses.add_piece(last, &piece)?;
            last = piece_after(last, &piece);
        }
        Ok(uses)
    }

    /// The targets of the references of the segment with an index; those of the module's start for 0.
    pub(crate) fn targets(&self, segment: u16) -> &[TargetMethod]
        ensures { result.now ≡ slice_index_or self.now segment [] }
    {
        match self.of_segment.get(usize::from(segment)) {
            Some(targets) => &targets.found,
            None => &[],
        }
    }
}

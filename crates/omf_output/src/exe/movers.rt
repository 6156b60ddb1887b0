//! Which parts of a placement move with a program.

ghost use Rattle.std.specs.Prelude.{◌≡◌, ◌++◌, ◌==◌, ◌&&◌, [], ◌∷◌, OnOk, OnErr, length};
ghost use Rattle.omf_check.specs.Module.{recs_of};
ghost use Rattle.omf_output.specs.Exe.Based.{same_flags, segments_moving};
ghost use Rattle.omf_output.specs.Exe.Moved.{both, frame_moves, moves, moving_of, target_moves};

use crate::exe::groups::is_movable;
use omf_check::{Checked, FrameMethod, TargetMethod, entry_of};
use omf_placement::Placement;
use omf_records::Kind;
use std::alloc::{AllocError, Global};
use std::marker::Model;

/// How an entry of a placement moves when DOS loads the program at a paragraph. The two flags may differ: a public of an absolute segment
/// in a group that moves has an address that stays, in a frame that moves.
#[derive(Clone, Copy, Debug, PartialEq, Eq)]
pub struct Moving {
    /// The address moves.
    pub address: bool,
    /// The frame moves.
    pub frame: bool,
}

impl Moving {
    /// The address and the frame both move, or both stay.
    pub fn both(moves: bool) -> Moving
        ensures { result ≡ both moves }
    {
        Moving {
            address: moves,
            frame: moves,
        }
    }
}

/// Which segments, groups and externals of a module move with the program, each list in index order.
#[derive(Drop)]
pub struct Movers {
    segments: Vec<bool>,
    groups: Vec<bool>,
    externals: Vec<Moving>,
}

impl Model for Movers {
    ghost use Rattle.omf_output.specs.Exe.Moved.{Movers as Moved};

    ghost Value = { Moved };

    ghost view = { λ m. record { segments = m.segments.items; groups = m.groups.items; externals = m.externals.items } };
}

/// Whether these are the flags of a module's segments, each set exactly if its segment is not absolute.
fn are_flags(flags: &[bool], module: &Checked) -> bool
    ensures { result ≡ same_flags flags.now (segments_moving (recs_of «module».now.bytes)) }
{
    if flags.len() != usize::from(module.segments()) {
        return false;
    }
    for before in 0..module.segments() {
        let Some(segment) = module.segment(before + 1) else {
            unreachable!()
        };
        if flags[usize::from(before)] != is_movable(&segment) {
            return false;
        }
    }
    true
}

impl Movers {
    /// Movers without entries.
    pub fn new(alloc: Global) -> Movers
        ensures { result ≡ record { segments = []; groups = []; externals = [] } }
    {
        Movers {
            segments: Vec::new(alloc),
            groups: Vec::new(alloc),
            externals: Vec::new(alloc),
        }
    }

    /// The movers with these entries.
    pub fn of(segments: Vec<bool>, groups: Vec<bool>, externals: Vec<Moving>) -> Movers
        ensures { result ≡ record { segments = segments.items; groups = groups.items; externals = externals.items } }
    {
        Movers {
            segments,
            groups,
            externals,
        }
    }

    /// These with other externals.
    pub fn with_externals(self, externals: Vec<Moving>) -> Movers
        ensures { result ≡ record self { externals = externals.items } }
    {
        Movers {
            segments: self.segments,
            groups: self.groups,
            externals,
        }
    }

    /// Adds whether the next segment moves.
    ///
    /// # Errors
    ///
    /// `AllocError` if memory runs out: nothing is changed.
    pub fn push_segment(&mut self, moves: bool) -> Result<(), AllocError>
        ensures ok { OnOk result (self.new ≡ record self.old { segments = self.old.segments ++ moves ∷ [] }) }
        ensures err { OnErr result (self.new ≡ self.old) }
    {
        self.segments.push(moves)?;
        Ok(())
    }

    /// Adds whether the next group moves.
    ///
    /// # Errors
    ///
    /// `AllocError` if memory runs out: nothing is changed.
    pub fn push_group(&mut self, moves: bool) -> Result<(), AllocError>
        ensures ok { OnOk result (self.new ≡ record self.old { groups = self.old.groups ++ moves ∷ [] }) }
        ensures err { OnErr result (self.new ≡ self.old) }
    {
        self.groups.push(moves)?;
        Ok(())
    }

    /// Adds how the next external moves.
    ///
    /// # Errors
    ///
    /// `AllocError` if memory runs out: nothing is changed.
    pub fn push_external(&mut self, moving: Moving) -> Result<(), AllocError>
        ensures ok { OnOk result (self.new ≡ record self.old { externals = self.old.externals ++ moving ∷ [] }) }
        ensures err { OnErr result (self.new ≡ self.old) }
    {
        self.externals.push(moving)?;
        Ok(())
    }

    /// Whether the segment with index `i`, from 1, moves; one without an entry does not.
    pub fn segment_moves(&self, i: usize) -> bool
        ensures { result ≡ moves self.now.segments i }
    {
        entry_of(&self.segments, i).unwrap_or(false)
    }

    /// Whether the group with index `i`, from 1, moves; one without an entry does not.
    pub fn group_moves(&self, i: usize) -> bool
        ensures { result ≡ moves self.now.groups i }
    {
        entry_of(&self.groups, i).unwrap_or(false)
    }

    /// How the entry of a target moves.
    fn moving_of(&self, target: &TargetMethod) -> Moving
        ensures { result ≡ moving_of self.now target.now }
    {
        let index = usize::from(target.index.0);
        match target.kind {
            Kind::Segment => Moving::both(entry_of(&self.segments, index).unwrap_or(false)),
            Kind::Group => Moving::both(entry_of(&self.groups, index).unwrap_or(false)),
            Kind::External => entry_of(&self.externals, index).unwrap_or(Moving::both(false)),
        }
    }

    /// Whether the address of a target moves.
    pub fn target_moves(&self, target: &TargetMethod) -> bool
        ensures { result ≡ target_moves self.now target.now }
    {
        self.moving_of(target).address
    }

    /// Whether a frame moves. `segment` is the segment of the last data record, whose frame F4 is; F5 is the frame of `target` (TIS OMF 1.1,
    /// "FIXUPP").
    pub fn frame_moves(&self, segment: u16, target: &TargetMethod, method: &FrameMethod) -> bool
        ensures { result ≡ frame_moves self.now segment target.now method.now }
    {
        match method {
            FrameMethod::Of(entry) => self.moving_of(entry).frame,
            FrameMethod::Location => self.segment_moves(usize::from(segment)),
            FrameMethod::Target => self.moving_of(target).frame,
        }
    }

    /// Whether the segments of a module move exactly where they are not absolute.
    fn are_of_segments(&self, module: &Checked) -> bool
        ensures { result ≡ same_flags self.now.segments (segments_moving (recs_of «module».now.bytes)) }
    {
        are_flags(&self.segments, module)
    }

    /// Whether these are the movers of a module at its placement: there is one for each entry of the placement, and a segment moves exactly
    /// if it is not absolute.
    pub(crate) fn are_of(&self, module: &Checked, placement: &Placement) -> bool
        ensures { result ≡ (same_flags self.now.segments (segments_moving (recs_of «module».now.bytes)) && ((length self.now.groups == length placement.now.groups) && (length self.now.externals == length placement.now.externals))) }
    {
        self.are_of_segments(module)
            && self.groups.len() == placement.group_count()
            && self.externals.len() == placement.external_count()
    }
}

//! Placements of modules.

ghost use Rattle.std.specs.Prelude.{◌≡◌, ◌++◌, [], ◌∷◌, length, OnOk, OnErr, IfOk};
ghost use Rattle.omf_check.specs.Tables.{entry};
ghost use Rattle.omf_placement.specs.Placement.{group_place};

use crate::frame::{Frame, Placed};
use omf_check::{FrameMethod, TargetMethod, entry_of};
use omf_records::Kind;
use std::alloc::{AllocError, Global};
use std::marker::Model;

/// The place of a group: the base of its frame, in this frame.
fn group_place(frame: Frame) -> Placed
    ensures { result ≡ group_place frame }
{
    Placed {
        address: frame.base,
        frame,
    }
}

/// A placement of a module: the places of its segments and externals, and the frames of its groups, each in index order.
#[derive(Drop)]
pub struct Placement {
    segments: Vec<Placed>,
    groups: Vec<Frame>,
    externals: Vec<Placed>,
}

impl Model for Placement {
    ghost use Rattle.omf_placement.specs.Placement.{Places};

    ghost Value = { Places };

    ghost view = { λ p. record { segments = p.segments.items; groups = p.groups.items; externals = p.externals.items } };
}

impl Placement {
    ghost use Rattle.omf_placement.specs.Placement.{Places, place_of, frame_by};

    /// An empty placement.
    pub fn new(alloc: Global) -> Self
        ensures { result ≡ record { segments = []; groups = []; externals = [] } }
    {
        Placement {
            segments: Vec::new(alloc),
            groups: Vec::new(alloc),
            externals: Vec::new(alloc),
        }
    }

    /// A placement with these entries.
    pub fn of(segments: Vec<Placed>, groups: Vec<Frame>, externals: Vec<Placed>) -> Self
        ensures { result ≡ record { segments = segments.items; groups = groups.items; externals = externals.items } }
    {
        Placement {
            segments,
            groups,
            externals,
        }
    }

    /// A copy of this placement.
    ///
    /// # Errors
    ///
    /// `AllocError` if out of memory.
    pub fn copied(&self) -> Result<Self, AllocError>
        ensures { IfOk result (λ p. p ≡ self.now) }
    {
        Ok(Placement {
            segments: self.segments.clone()?,
            groups: self.groups.clone()?,
            externals: self.externals.clone()?,
        })
    }

    /// This placement with other externals.
    pub fn with_externals(self, externals: Vec<Placed>) -> Self
        ensures { result ≡ record self { externals = externals.items } }
    {
        Placement {
            segments: self.segments,
            groups: self.groups,
            externals,
        }
    }

    /// The entries of the segments.
    pub fn segments(&self) -> &[Placed]
        ensures { result.now ≡ self.now.segments }
    {
        &self.segments
    }

    /// Adds the place of the next segment.
    ///
    /// # Errors
    ///
    /// `AllocError` if out of memory: the placement is unchanged.
    pub fn push_segment(&mut self, address: u32, frame: Frame) -> Result<(), AllocError>
        ensures ok { OnOk result (self.new ≡ record self.old { segments = self.old.segments ++ record { address = address; frame = frame } ∷ [] }) }
        ensures err { OnErr result (self.new ≡ self.old) }
    {
        self.segments.push(Placed { address, frame })?;
        Ok(())
    }

    /// Adds the frame of the next group.
    ///
    /// # Errors
    ///
    /// `AllocError` if out of memory: the placement is unchanged.
    pub fn push_group(&mut self, frame: Frame) -> Result<(), AllocError>
        ensures ok { OnOk result (self.new ≡ record self.old { groups = self.old.groups ++ frame ∷ [] }) }
        ensures err { OnErr result (self.new ≡ self.old) }
    {
        self.groups.push(frame)?;
        Ok(())
    }

    /// Adds the place of the next external.
    ///
    /// # Errors
    ///
    /// `AllocError` if out of memory: the placement is unchanged.
    pub fn push_external(&mut self, address: u32, frame: Frame) -> Result<(), AllocError>
        ensures ok { OnOk result (self.new ≡ record self.old { externals = self.old.externals ++ record { address = address; frame = frame } ∷ [] }) }
        ensures err { OnErr result (self.new ≡ self.old) }
    {
        self.externals.push(Placed { address, frame })?;
        Ok(())
    }

    /// The place of the segment with index `i`, from 1; `None` if it has no entry.
    pub fn segment(&self, i: usize) -> Option<Placed>
        ensures { result ≡ entry self.now.segments i }
    {
        entry_of(&self.segments, i)
    }

    /// The frame of the group with index `i`, from 1; `None` if it has no entry.
    pub fn group(&self, i: usize) -> Option<Frame>
        ensures { result ≡ entry self.now.groups i }
    {
        entry_of(&self.groups, i)
    }

    /// The place of the external with index `i`, from 1; `None` if it has no entry.
    pub fn external(&self, i: usize) -> Option<Placed>
        ensures { result ≡ entry self.now.externals i }
    {
        entry_of(&self.externals, i)
    }

    /// The place of a target; `None` if it has no entry. The address of a group is the base of its frame.
    pub fn place_of(&self, target: &TargetMethod) -> Option<Placed>
        ensures { result ≡ place_of self.now target.now }
    {
        let index = usize::from(target.index.0);
        match target.kind {
            Kind::Segment => self.segment(index),
            Kind::Group => self.group(index).map(group_place),
            Kind::External => self.external(index),
        }
    }

    /// The frame of a frame method; `None` if it has no entry. `segment` is the segment of the last data record, whose frame F4 is; F5 is the
    /// frame of `target` (TIS OMF 1.1, "FIXUPP").
    pub fn frame_by(
        &self,
        segment: u16,
        target: &TargetMethod,
        method: &FrameMethod,
    ) -> Option<Frame>
        ensures { result ≡ frame_by self.now segment target.now method.now }
    {
        let place = match method {
            FrameMethod::Of(entry) => self.place_of(entry),
            FrameMethod::Location => self.segment(usize::from(segment)),
            FrameMethod::Target => self.place_of(target),
        };
        place.map(|place| place.frame)
    }

    /// The number of segments with an entry.
    pub fn segment_count(&self) -> usize
        ensures { result ≡ length self.now.segments }
    {
        self.segments.len()
    }

    /// The number of groups with an entry.
    pub fn group_count(&self) -> usize
        ensures { result ≡ length self.now.groups }
    {
        self.groups.len()
    }

    /// The number of externals with an entry.
    pub fn external_count(&self) -> usize
        ensures { result ≡ length self.now.externals }
    {
        self.externals.len()
    }
}

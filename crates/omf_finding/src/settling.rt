//! The placement of a module whose segments have places.

use crate::fixes::{Fix, entry_with};
use crate::following::{Search, said};
use crate::indices::Indices;
use omf_check::{Checked, SegInfo, TargetMethod};
use omf_records::Kind;
use omf_reloc::{Frame, Placed, Placement};
use std::alloc::{AllocError, Global};

/// What is known of an entry of a placement.
#[derive(Clone, Copy, Drop)]
pub(crate) struct Known {
    pub(crate) address: Option<u32>,
    selector: Option<u16>,
    /// The greatest base that its frame may have.
    top: u32,
}

/// A module's placement, as far as it is known.
#[derive(Drop)]
struct Draft {
    segments: Vec<Known>,
    groups: Vec<Known>,
    externals: Vec<Known>,
}

/// Nothing is known.
fn unknown() -> Known {
    Known {
        address: None,
        selector: None,
        top: u32::MAX,
    }
}

impl Known {
    /// The frame's base is at or before an address.
    fn lower(&mut self, address: u32) {
        self.top = self.top.min(address);
    }
}

impl Draft {
    /// An entry.
    fn entry(&self, entry: &TargetMethod) -> Option<&Known> {
        let index = usize::from(entry.index.0).checked_sub(1)?;
        match entry.kind {
            Kind::Segment => self.segments.get(index),
            Kind::Group => self.groups.get(index),
            Kind::External => self.externals.get(index),
        }
    }

    /// The same, to be changed.
    fn entry_mut(&mut self, entry: &TargetMethod) -> Option<&mut Known> {
        let index = usize::from(entry.index.0).checked_sub(1)?;
        match entry.kind {
            Kind::Segment => self.segments.get_mut(index),
            Kind::Group => self.groups.get_mut(index),
            Kind::External => self.externals.get_mut(index),
        }
    }

    /// The address of a target, if it is known: of a group the base of its frame.
    fn address(&self, entry: &TargetMethod) -> Option<u32> {
        let known = self.entry(entry)?;
        match entry.kind {
            Kind::Group => Some(16 * u32::from(known.selector?)),
            Kind::Segment | Kind::External => known.address,
        }
    }

    /// The selector of an entry's frame, if it is known.
    fn selector(&self, entry: &TargetMethod) -> Option<u16> {
        self.entry(entry)?.selector
    }

    /// Notes a selector, unless one is known.
    fn set_selector(&mut self, entry: &TargetMethod, selector: u16) {
        if let Some(known) = self.entry_mut(entry) {
            known.selector = known.selector.or(Some(selector));
        }
    }

    /// Notes the address of an external, unless one is known.
    fn set_address(&mut self, entry: &TargetMethod, address: Option<u32>) {
        match entry.kind {
            Kind::External => {
                if let Some(known) = self.entry_mut(entry) {
                    known.address = known.address.or(address);
                }
            }
            Kind::Segment | Kind::Group => {}
        }
    }

    /// What follows from a self-relative fixup: its target, and that its frame begins at or before both ends.
    fn take_relative(&mut self, search: &Search<'_>, segment: u32, fix: &Fix) {
        let [first, _second] = search.relative_targets(segment, fix);
        self.set_address(&fix.target, first);
        let target = self.address(&fix.target);
        if let Some(known) = self.entry_mut(&fix.frame_entry()) {
            known.lower(segment.wrapping_add(fix.location));
            if let Some(target) = target {
                known.lower(target);
            }
        }
    }

    /// What follows from a fixup in a segment at this address for the entries that it names. If `frame` is set, it is taken for a frame that
    /// nothing shows.
    fn take(&mut self, search: &Search<'_>, segment: u32, fix: &Fix, frame: Option<u16>) {
        let entry = fix.frame_entry();
        if let Some(selector) = fix.selector(search.program, segment) {
            self.set_selector(&entry, selector);
        }
        if !fix.is_segment_relative {
            self.take_relative(search, segment, fix);
            return;
        }
        let Some(offset) = fix.offset(search.program, segment) else {
            return;
        };
        if let Some(address) = self.address(&fix.target) {
            if let Some(selector) = search.frame_for(address, fix.displacement, offset) {
                self.set_selector(&entry, selector);
            }
        }
        if let Some(selector) = frame {
            self.set_selector(&entry, selector);
        }
        if let Some(selector) = self.selector(&entry) {
            let [first, second] = said(selector, offset, fix.displacement);
            self.set_address(&fix.target, second.or(first));
        }
    }
}

/// A module's placement, and what of it means nothing.
#[derive(Drop)]
pub(crate) struct Settled {
    pub(crate) placement: Placement,
    /// The segments that have no place.
    pub(crate) absent: Indices,
    /// The externals that have no place.
    pub(crate) unknown: Indices,
}

/// The frame with a selector.
fn frame_with(selector: u16) -> Frame {
    Frame {
        base: 16 * u32::from(selector),
        selector,
    }
}

impl<'a> Search<'a> {
    /// What is known of a segment of a module.
    fn known_segment(&self, module: usize, checked: &Checked, segment: u16) -> Known {
        let info = checked.segment(segment);
        if let Some(
            SegInfo {
                absolute: Some((frame, offset)),
                ..
            },
        ) = info
        {
            let address = 16 * u32::from(frame) + u32::from(offset);
            return Known {
                address: Some(address),
                selector: Some(frame),
                top: address,
            };
        }
        match self.part_of(module, segment) {
            Some(part) => Known {
                address: part.place,
                selector: part.selector,
                top: part.place.unwrap_or(u32::MAX),
            },
            None => unknown(),
        }
    }

    /// What is known of an external of a module: the place of a public with its name.
    pub(crate) fn known_external(&self, module: usize, external: u16) -> Result<Known, AllocError> {
        let target = entry_with(Kind::External, external);
        for definer in self.definers_of(module, &target)? {
            if let Some(place) = self.place_of(definer.part) {
                let address = place.wrapping_add(definer.offset);
                return Ok(Known {
                    address: Some(address),
                    selector: None,
                    top: address,
                });
            }
        }
        Ok(unknown())
    }

    /// What is known of a module's entries.
    fn draft(&self, module: usize, checked: &Checked) -> Result<Draft, AllocError> {
        let mut segments = Vec::new(self.alloc);
        for segment in 1..=checked.segments() {
            segments.push(self.known_segment(module, checked, segment))?;
        }
        let mut groups = Vec::new(self.alloc);
        for group in 1..=checked.groups() {
            let mut known = unknown();
            known.selector = self.frame_of(module, &entry_with(Kind::Group, group));
            groups.push(known)?;
        }
        let mut externals = Vec::new(self.alloc);
        for external in 1..=checked.externals() {
            externals.push(self.known_external(module, external)?)?;
        }
        Ok(Draft {
            segments,
            groups,
            externals,
        })
    }

    /// Reads the fixups of segments with a place.
    fn read_present(&self, draft: &mut Draft, fixes: &[Fix], frame: Option<u16>) {
        for fix in fixes {
            let index = usize::from(fix.segment).wrapping_sub(1);
            let Some(known) = draft.segments.get(index) else {
                continue;
            };
            if let Some(place) = known.address {
                draft.take(self, place, fix, frame);
            }
        }
    }

    /// Gives a frame to each segment without a place from which a self-relative fixup leads.
    fn read_absent(&self, draft: &mut Draft, fixes: &[Fix], frame: u16) {
        for fix in fixes {
            let own = entry_with(Kind::Segment, fix.segment);
            if fix.is_segment_relative || draft.address(&own).is_some() {
                continue;
            }
            let entry = fix.frame_entry();
            let near = match draft.address(&fix.target) {
                Some(target) => self.frame_below(target),
                None => frame,
            };
            let selector = draft.selector(&entry).unwrap_or(near);
            draft.set_selector(&entry, selector);
            draft.set_selector(&own, selector);
        }
    }

    /// The frame that is taken where nothing shows which one it is: of a group, or else of a segment.
    fn usual_frame(&self, draft: &Draft) -> u16 {
        for known in &draft.groups {
            if let Some(selector) = known.selector {
                return selector;
            }
        }
        for known in &draft.segments {
            if let Some(address) = known.address {
                return self.frame_below(address);
            }
        }
        0
    }

    /// The place of an entry, where this frame is taken if nothing shows which one it is.
    fn placed(&self, known: &Known, frame: u16) -> Placed {
        let selector = match (known.selector, known.top) {
            (Some(selector), _) => selector,
            (None, u32::MAX) => frame,
            (None, top) => self.frame_below(top),
        };
        let frame = frame_with(selector);
        Placed {
            address: known.address.unwrap_or(frame.base),
            frame,
        }
    }

    /// The placement of a draft.
    fn placement(&self, draft: &Draft, usual: u16) -> Result<Placement, AllocError> {
        let mut placement = Placement::new(self.alloc);
        for known in &draft.segments {
            let place = self.placed(known, usual);
            placement.push_segment(place.address, place.frame)?;
        }
        for known in &draft.groups {
            placement.push_group(self.placed(known, usual).frame)?;
        }
        for known in &draft.externals {
            let place = self.placed(known, usual);
            placement.push_external(place.address, place.frame)?;
        }
        Ok(placement)
    }

    /// The placement of a module.
    pub(crate) fn settle(&self, module: usize, checked: &Checked) -> Result<Settled, AllocError> {
        let mut draft = self.draft(module, checked)?;
        let fixes = self.fixes_in(module);
        let usual = self.usual_frame(&draft);
        self.read_present(&mut draft, fixes, None);
        self.read_present(&mut draft, fixes, None);
        let absent = without_place(self.alloc, &draft.segments)?;
        let unknown = without_place(self.alloc, &draft.externals)?;
        self.read_present(&mut draft, fixes, Some(usual));
        self.read_absent(&mut draft, fixes, usual);
        Ok(Settled {
            placement: self.placement(&draft, usual)?,
            absent,
            unknown,
        })
    }
}

/// The indices, from 1, of entries that have no place.
fn without_place(alloc: Global, entries: &[Known]) -> Result<Indices, AllocError> {
    let mut found = Indices::new(alloc);
    let mut index: u16 = 0;
    for known in entries {
        index = index.saturating_add(1);
        if known.address.is_none() {
            found.push(index)?;
        }
    }
    Ok(found)
}

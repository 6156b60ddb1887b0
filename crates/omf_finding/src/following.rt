//! The search: from places that are sure by themselves along references to the end.

use crate::fixes::{Fix, entry_with, fixes_of};
use crate::names::{Definer, MOST_DEFINERS, Names};
use crate::program::Program;
use crate::sayings::{Sayings, outcomes};
use crate::shapes::Shape;
use omf_check::{Checked, TargetMethod};
use omf_frame::Name;
use omf_names::NameKey;
use omf_records::{Kind, Rec};
use std::alloc::{AllocError, Global};
use std::collections::BTreeMap;

/// The number of frames that are tried at most, where nothing shows which one it is.
const MOST_FRAMES: usize = 64;

/// The number of times that all references are followed at most.
const MOST_PASSES: usize = 8;

/// The number of closed bytes from which on the only place of a segment is sure, where its module has another place.
const LEAST_OF_ANOTHER: usize = 6;

/// What is known of a segment of a module.
#[derive(Drop)]
pub(crate) struct Part {
    /// The module, from 0.
    pub(crate) module: u32,
    /// The segment, from 1.
    pub(crate) segment: u16,
    /// Its place, once it is known.
    pub(crate) place: Option<u32>,
    /// The selector of its frame, once it is known.
    pub(crate) selector: Option<u16>,
    /// Whether references of one step gave it different places, so that it has none.
    pub(crate) is_disputed: bool,
}

/// The modules of a search, and what is known of their places.
#[derive(Drop)]
pub(crate) struct Search<'a> {
    pub(crate) alloc: Global,
    pub(crate) modules: &'a [Checked],
    pub(crate) program: &'a Program,
    /// The number of closed bytes from which on one place is sure by itself.
    pub(crate) least: usize,
    /// The selectors that the program uses, in ascending order.
    pub(crate) selectors: Vec<u16>,
    /// The places of the closed bytes of each module's segments.
    pub(crate) shapes: &'a [Vec<Shape>],
    /// The segments of all modules.
    pub(crate) parts: Vec<Part>,
    /// The number of the first segment of each module.
    pub(crate) firsts: Vec<usize>,
    pub(crate) names: Names<'a>,
    /// The fixups of each module that has a place.
    pub(crate) fixes: Vec<Vec<Fix>>,
    /// The number of each module's fixups among these, from 1; 0 where they are not read yet.
    pub(crate) fix_numbers: Vec<u32>,
    /// The number of each group, by name.
    pub(crate) groups: BTreeMap<NameKey<'a>, usize>,
    /// The numbers of each module's groups, one module after another; `None` for one without a name.
    pub(crate) group_numbers: Vec<Option<usize>>,
    /// How many groups the modules before each module have.
    pub(crate) first_groups: Vec<u32>,
    /// The selector of each group's frame, once it is known.
    pub(crate) frames: Vec<Option<u16>>,
    /// The segments whose references are to be followed.
    pub(crate) queue: Vec<usize>,
}

/// A place that a reference may mean.
#[derive(Clone, Copy, Drop)]
struct Hit {
    /// The segment.
    number: usize,
    /// Its address.
    address: u32,
    /// The address that is referred to.
    target: u32,
}

/// The places that a reference may mean.
#[derive(Clone, Copy, Drop)]
struct Hits {
    first: Option<Hit>,
    /// Whether there is one at another address.
    several: bool,
}

/// What is looked at of references.
#[derive(Clone, Copy)]
enum Look {
    /// The selectors at their locations.
    Selectors,
    /// Where they lead.
    Targets,
}

/// The name of a group; `None` if there is no such group.
pub(crate) fn group_name(module: &Checked, index: u16) -> Option<Name<'_>> {
    let Rec::Group { name, .. } = module.group(index)? else {
        return None;
    };
    module.name(name.item.0)
}

/// The addresses that an offset in a frame may mean, for each reading of a displacement.
pub(crate) fn said(selector: u16, offset: u32, displacement: u32) -> [Option<u32>; 2] {
    let address = (16 * u32::from(selector)).wrapping_add(offset);
    let first = address.checked_sub(displacement);
    let second = if displacement >= 1 << 31 {
        Some(address.wrapping_sub(displacement))
    } else if (0x8000..0x1_0000).contains(&displacement) {
        Some(address.wrapping_add(0x1_0000).wrapping_sub(displacement))
    } else {
        None
    };
    [first, second]
}

/// The selector of a frame with this base; `None` if that is no multiple of 16.
fn selector_of(base: u32) -> Option<u16> {
    if base % 16 == 0 {
        u16::try_from(base / 16).ok()
    } else {
        None
    }
}

impl<'a> Search<'a> {
    /// The number of a segment of a module among those of all modules.
    pub(crate) fn number_of(&self, module: usize, segment: u16) -> Option<usize> {
        let first = *self.firsts.get(module)?;
        let number = first.checked_add(usize::from(segment.checked_sub(1)?))?;
        let part = self.parts.get(number)?;
        if part.module as usize == module {
            Some(number)
        } else {
            None
        }
    }

    /// A segment of a module.
    pub(crate) fn part_of(&self, module: usize, segment: u16) -> Option<&Part> {
        let number = self.number_of(module, segment)?;
        self.parts.get(number)
    }

    /// The places of the closed bytes of a segment.
    pub(crate) fn shape(&self, number: usize) -> Option<&'a Shape> {
        let part = self.parts.get(number)?;
        let shapes = self.shapes.get(part.module as usize)?;
        shapes.get(usize::from(part.segment.checked_sub(1)?))
    }

    /// Whether a segment may be at an address.
    pub(crate) fn fits(&self, number: usize, address: u32) -> bool {
        match self.shape(number) {
            Some(shape) => shape.fits(self.program, address),
            None => false,
        }
    }

    /// The place of a segment, if it is known.
    pub(crate) fn place_of(&self, number: usize) -> Option<u32> {
        self.parts.get(number)?.place
    }

    /// The number of a group of a module.
    fn group_number(&self, module: usize, group: u16) -> Option<usize> {
        if group > self.modules.get(module)?.groups() {
            return None;
        }
        let first = *self.first_groups.get(module)?;
        let number = (first as usize).checked_add(usize::from(group.checked_sub(1)?))?;
        *self.group_numbers.get(number)?
    }

    /// The greatest selector whose frame begins at or before an address.
    pub(crate) fn frame_below(&self, address: u32) -> u16 {
        let count = self
            .selectors
            .partition_point(|selector| 16 * u32::from(*selector) <= address);
        match self.selectors.get(count.wrapping_sub(1)) {
            Some(selector) => *selector,
            None => u16::try_from(address / 16).unwrap_or(u16::MAX),
        }
    }

    /// Whether the program uses a selector.
    fn uses(&self, selector: Option<u16>) -> bool {
        match selector {
            Some(selector) => self.selectors.binary_search(&selector).is_ok(),
            None => false,
        }
    }

    /// The selector that the program uses of the frame in which a target at an address has this offset.
    pub(crate) fn frame_for(&self, address: u32, displacement: u32, offset: u32) -> Option<u16> {
        let base = address.wrapping_add(displacement).wrapping_sub(offset);
        let first = selector_of(base);
        let second = selector_of(base.wrapping_sub(0x1_0000));
        if self.uses(first) {
            first
        } else if displacement >= 0x8000 && self.uses(second) {
            second
        } else {
            None
        }
    }

    /// The selector of the frame of an entry of a module, if it is known.
    pub(crate) fn frame_of(&self, module: usize, entry: &TargetMethod) -> Option<u16> {
        match entry.kind {
            Kind::Segment => {
                let part = self.part_of(module, entry.index.0)?;
                part.selector
            }
            Kind::Group => {
                let number = self.group_number(module, entry.index.0)?;
                *self.frames.get(number)?
            }
            Kind::External => None,
        }
    }

    /// Notes a selector of the frame of an entry of a module.
    fn note(
        &self,
        sayings: &mut Sayings,
        module: usize,
        entry: &TargetMethod,
        selector: u16,
    ) -> Result<(), AllocError> {
        match entry.kind {
            Kind::Segment => {
                if let Some(number) = self.number_of(module, entry.index.0) {
                    sayings.segments.push((number, u32::from(selector)))?;
                }
            }
            Kind::Group => {
                if let Some(number) = self.group_number(module, entry.index.0) {
                    sayings.groups.push((number, u32::from(selector)))?;
                }
            }
            Kind::External => {}
        }
        Ok(())
    }

    /// Puts a segment at an address, unless it has a place, is disputed, or a selector would be where the loader changes nothing.
    pub(crate) fn place(&mut self, number: usize, address: u32) -> Result<(), AllocError> {
        let module = match self.parts.get(number) {
            Some(part) if part.place.is_none() && !part.is_disputed => part.module as usize,
            _ => return Ok(()),
        };
        self.read_fixes(module)?;
        if !self.may_be_loaded(number, address) {
            return Ok(());
        }
        if let Some(part) = self.parts.get_mut(number) {
            part.place = Some(address);
            self.queue.push(number)?;
        }
        Ok(())
    }

    /// Whether the frame of a fixup does not move with the program: that of an absolute segment.
    fn is_absolute(&self, module: usize, fix: &Fix) -> bool {
        let entry = fix.frame_entry();
        let Some(checked) = self.modules.get(module) else {
            return false;
        };
        match entry.kind {
            Kind::Segment => match checked.segment(entry.index.0) {
                Some(info) => info.absolute.is_some(),
                None => false,
            },
            Kind::Group | Kind::External => false,
        }
    }

    /// Whether the loader changes each selector of a segment, where it is at this address.
    pub(crate) fn may_be_loaded(&self, number: usize, address: u32) -> bool {
        let Some(part) = self.parts.get(number) else {
            return false;
        };
        let module = part.module as usize;
        for k in self.first_fix(module, part.segment)..usize::MAX {
            match self.fix(module, k) {
                Some(fix) if fix.segment == part.segment => {
                    if let Some(at) = fix.selector_address(address)
                        && !self.program.may_change(at)
                        && !self.is_absolute(module, fix)
                    {
                        return false;
                    }
                }
                _ => break,
            }
        }
        true
    }

    /// A segment without a place is disputed.
    fn dispute(&mut self, number: usize) {
        if let Some(part) = self.parts.get_mut(number) {
            part.is_disputed = part.place.is_none();
        }
    }

    /// The addresses that a self-relative fixup may mean, where its segment is at this address.
    pub(crate) fn relative_targets(&self, segment: u32, fix: &Fix) -> [Option<u32>; 2] {
        let Some((distance, size)) = fix.distance(self.program, segment) else {
            return [None; 2];
        };
        let after = fix.after(segment);
        let target = after.wrapping_add(distance).wrapping_sub(fix.displacement);
        if size != 2 {
            return [Some(target), None];
        }
        let base = 16 * u32::from(self.frame_below(segment));
        let first = base.wrapping_add(target.wrapping_sub(base) & 0xFFFF);
        let least = self
            .selectors
            .partition_point(|selector| 16 * u32::from(*selector) + 0xFFFF < after);
        let lowest = self.selectors.get(least).copied().unwrap_or(u16::MAX);
        let second = first.wrapping_sub(0x1_0000);
        if first >= 0x1_0000 && second >= 16 * u32::from(lowest) {
            [Some(first), Some(second)]
        } else {
            [Some(first), None]
        }
    }

    /// The addresses that a fixup may mean, where its segment is at this address.
    pub(crate) fn targets(
        &self,
        module: usize,
        segment: u32,
        fix: &Fix,
    ) -> Result<Vec<u32>, AllocError> {
        let mut targets = Vec::new(self.alloc);
        if !fix.is_segment_relative {
            add_all(&mut targets, self.relative_targets(segment, fix))?;
            return Ok(targets);
        }
        let Some(offset) = fix.offset(self.program, segment) else {
            return Ok(targets);
        };
        let known = fix
            .selector(self.program, segment)
            .or(self.frame_of(module, &fix.frame_entry()));
        if let Some(selector) = known {
            add_all(&mut targets, said(selector, offset, fix.displacement))?;
        } else if self.selectors.len() <= MOST_FRAMES {
            for selector in &self.selectors {
                add_all(&mut targets, said(*selector, offset, fix.displacement))?;
            }
        }
        Ok(targets)
    }

    /// The publics that a target may be: of a segment its first byte.
    pub(crate) fn definers_of(
        &self,
        module: usize,
        target: &TargetMethod,
    ) -> Result<Vec<Definer>, AllocError> {
        match target.kind {
            Kind::Segment => {
                let mut one = Vec::new(self.alloc);
                if let Some(number) = self.number_of(module, target.index.0) {
                    one.push(Definer::start(number))?;
                }
                Ok(one)
            }
            Kind::Group => Ok(Vec::new(self.alloc)),
            Kind::External => match self.external_name(module, target.index.0) {
                Some(name) => self.names.definers(self.alloc, name),
                None => Ok(Vec::new(self.alloc)),
            },
        }
    }

    /// The name of an external of a module that is not local.
    fn external_name(&self, module: usize, external: u16) -> Option<&'a [u8]> {
        let checked = self.modules.get(module)?;
        if checked.local(external)? {
            return None;
        }
        Some(checked.external(external)?.0)
    }

    /// Whether a segment may be at an address: of one that has a place, whether it is this one.
    fn may_be_at(&self, number: usize, address: u32) -> bool {
        match self.place_of(number) {
            Some(place) => place == address,
            None => self.fits(number, address),
        }
    }

    /// Looks at a target's address, for this public and those of the same name before it.
    fn weigh(&self, hits: Hits, first: Option<Definer>, target: u32) -> Hits {
        let mut hits = hits;
        let mut next = first;
        for _ in 0..MOST_DEFINERS {
            let Some(definer) = next else {
                break;
            };
            next = self.names.before(&definer);
            let Some(address) = target.checked_sub(definer.offset) else {
                continue;
            };
            if !self.may_be_at(definer.part, address) {
                continue;
            }
            let one = Hit {
                number: definer.part,
                address,
                target,
            };
            match hits.first {
                None => hits.first = Some(one),
                Some(other) if other.address != address => hits.several = true,
                Some(other) if other.number > one.number => hits.first = Some(one),
                Some(_) => {}
            }
        }
        hits
    }

    /// Notes the selector that a fixup of a module's segment at this address shows.
    fn note_selector(
        &self,
        sayings: &mut Sayings,
        module: usize,
        segment: u32,
        fix: &Fix,
    ) -> Result<(), AllocError> {
        match fix.selector(self.program, segment) {
            Some(selector) => self.note(sayings, module, &fix.frame_entry(), selector),
            None => Ok(()),
        }
    }

    /// Notes where a reference of a module's segment at this address leads.
    fn follow(
        &self,
        sayings: &mut Sayings,
        module: usize,
        segment: u32,
        fix: &Fix,
    ) -> Result<(), AllocError> {
        let definer = self.first_definer(module, fix);
        if definer.is_none() {
            return Ok(());
        }
        let targets = self.targets(module, segment, fix)?;
        let mut hits = Hits {
            first: None,
            several: false,
        };
        for target in &targets {
            hits = self.weigh(hits, definer, *target);
        }
        match hits.first {
            Some(hit) if !hits.several => {
                sayings.places.push((hit.number, hit.address))?;
                match self.frame_from(segment, fix, hit) {
                    Some(selector) => self.note(sayings, module, &fix.frame_entry(), selector),
                    None => Ok(()),
                }
            }
            _ => Ok(()),
        }
    }

    /// The frame that follows from a fixup's offset to a place, if the place is sure enough.
    fn frame_from(&self, segment: u32, fix: &Fix, hit: Hit) -> Option<u16> {
        let shape = self.shape(hit.number)?;
        let offset = fix.offset(self.program, segment)?;
        if shape.closed < 16 || !fix.is_segment_relative {
            return None;
        }
        self.frame_for(hit.target, fix.displacement, offset)
    }

    /// Reads the fixups of a module, unless they were.
    fn read_fixes(&mut self, module: usize) -> Result<(), AllocError> {
        let Some(checked) = self.modules.get(module) else {
            return Ok(());
        };
        if self.fix_numbers.get(module).copied() != Some(0) {
            return Ok(());
        }
        let mut fixes = fixes_of(self.alloc, checked)?;
        for fix in &mut fixes {
            fix.definer = self.definer_number(module, &fix.target);
        }
        self.fixes.push(fixes)?;
        let number = u32::try_from(self.fixes.len()).unwrap_or(0);
        if let Some(own) = self.fix_numbers.get_mut(module) {
            *own = number;
        }
        Ok(())
    }

    /// The number of the last public that a target may be, if it is an external.
    fn definer_number(&self, module: usize, target: &TargetMethod) -> Option<usize> {
        match target.kind {
            Kind::External => self
                .names
                .last_number(self.external_name(module, target.index.0)?),
            Kind::Segment | Kind::Group => None,
        }
    }

    /// The last of the publics that a fixup's target may be: of a segment its first byte.
    fn first_definer(&self, module: usize, fix: &Fix) -> Option<Definer> {
        match fix.target.kind {
            Kind::External => self.names.definer(fix.definer),
            Kind::Segment => Some(Definer::start(self.number_of(module, fix.target.index.0)?)),
            Kind::Group => None,
        }
    }

    /// The fixups of a module, if they are read.
    pub(crate) fn fixes_in(&self, module: usize) -> &[Fix] {
        let Some(number) = self.fix_numbers.get(module) else {
            return &[];
        };
        match self.fixes.get((*number as usize).wrapping_sub(1)) {
            Some(fixes) => fixes.as_slice(),
            None => &[],
        }
    }

    /// A fixup of a module, from 0.
    fn fix(&self, module: usize, number: usize) -> Option<&Fix> {
        self.fixes_in(module).get(number)
    }

    /// The number of the first fixup of a segment of a module, or of the first one of a segment after it.
    fn first_fix(&self, module: usize, segment: u16) -> usize {
        self.fixes_in(module)
            .partition_point(|fix| fix.segment < segment)
    }

    /// Looks at the references of a segment that has a place: at selectors, or at where they lead.
    fn explore(&self, sayings: &mut Sayings, number: usize, look: Look) -> Result<(), AllocError> {
        let Some(part) = self.parts.get(number) else {
            return Ok(());
        };
        let (module, segment) = (part.module as usize, part.segment);
        let Some(place) = part.place else {
            return Ok(());
        };
        for k in self.first_fix(module, segment)..usize::MAX {
            match (self.fix(module, k), look) {
                (Some(fix), Look::Selectors) if fix.segment == segment => {
                    self.note_selector(sayings, module, place, fix)?;
                }
                (Some(fix), Look::Targets) if fix.segment == segment => {
                    self.follow(sayings, module, place, fix)?;
                }
                _ => break,
            }
        }
        Ok(())
    }

    /// Takes the frames that were shown: of a segment or group without one, the one that is shown most often.
    fn take_frames(&mut self, sayings: &mut Sayings) -> Result<(), AllocError> {
        for one in &outcomes(self.alloc, &mut sayings.segments)? {
            if let Some(part) = self.parts.get_mut(one.subject) {
                part.selector = part.selector.or(u16::try_from(one.value).ok());
            }
        }
        for one in &outcomes(self.alloc, &mut sayings.groups)? {
            if let Some(frame) = self.frames.get_mut(one.subject) {
                *frame = frame.or(u16::try_from(one.value).ok());
            }
        }
        Ok(())
    }

    /// Takes the places that were shown: of a segment without one the place, if all that is shown of it is this one.
    fn take_places(&mut self, sayings: &mut Sayings) -> Result<(), AllocError> {
        for one in &outcomes(self.alloc, &mut sayings.places)? {
            if one.is_disputed {
                self.dispute(one.subject);
            } else {
                self.place(one.subject, one.value)?;
            }
        }
        Ok(())
    }

    /// Reads the fixups of the modules of segments.
    fn read_all(&mut self, level: &[usize]) -> Result<(), AllocError> {
        for number in level {
            if let Some(part) = self.parts.get(*number) {
                let module = part.module as usize;
                self.read_fixes(module)?;
            }
        }
        Ok(())
    }

    /// Looks at the references of these segments.
    fn explore_all(&self, level: &[usize], look: Look) -> Result<Sayings, AllocError> {
        let mut sayings = Sayings::new(self.alloc);
        for number in level {
            self.explore(&mut sayings, *number, look)?;
        }
        Ok(sayings)
    }

    /// Follows the references of all segments in the queue at once: first their selectors count, and then where they lead. So the order in which
    /// the segments are in the queue does not matter.
    fn step(&mut self) -> Result<(), AllocError> {
        let level = self.queue.clone()?;
        self.queue.clear();
        self.read_all(&level)?;
        let mut selectors = self.explore_all(&level, Look::Selectors)?;
        self.take_frames(&mut selectors)?;
        let mut sayings = self.explore_all(&level, Look::Targets)?;
        self.take_frames(&mut sayings)?;
        self.take_places(&mut sayings)
    }

    /// Follows the references of all segments in the queue, then of those that are placed by these, and so on.
    fn drain(&mut self) -> Result<(), AllocError> {
        for _ in 0..usize::MAX {
            if self.queue.is_empty() {
                break;
            }
            self.step()?;
        }
        Ok(())
    }

    /// The number of frames that are known.
    fn frames_known(&self) -> usize {
        let mut count: usize = 0;
        for frame in &self.frames {
            if frame.is_some() {
                count = count.saturating_add(1);
            }
        }
        for part in &self.parts {
            if part.selector.is_some() {
                count = count.saturating_add(1);
            }
        }
        count
    }

    /// Puts all segments that have a place into the queue again.
    fn requeue(&mut self) -> Result<(), AllocError> {
        for (number, part) in self.parts.iter().enumerate() {
            if part.place.is_some() {
                self.queue.push(number)?;
            }
        }
        Ok(())
    }

    /// Places the segments of modules that have a place by what only a whole module shows: of a segment that may be at one place this one, and the
    /// places that the externals show.
    fn complete(&mut self) -> Result<(), AllocError> {
        let mut sayings = Sayings::new(self.alloc);
        let shapes = self.shapes;
        for (module, own) in shapes.iter().enumerate() {
            if self.has_place(module, own) {
                self.note_singles(&mut sayings, module, own)?;
                if self.asks_for_unplaced(module) {
                    self.note_externals(&mut sayings, module)?;
                }
            }
        }
        self.take_places(&mut sayings)
    }

    /// Notes the only places of a module's segments.
    fn note_singles(
        &self,
        sayings: &mut Sayings,
        module: usize,
        shapes: &[Shape],
    ) -> Result<(), AllocError> {
        for shape in shapes {
            if let (Some(address), Some(number)) = (
                shape.single_place(),
                self.number_of(module, shape.segment),
            ) {
                if shape.closed >= LEAST_OF_ANOTHER && self.place_of(number).is_none() {
                    sayings.places.push((number, address))?;
                }
            }
        }
        Ok(())
    }

    /// Whether a segment without a place defines an external of a module.
    fn asks_for_unplaced(&self, module: usize) -> bool {
        let Some(checked) = self.modules.get(module) else {
            return false;
        };
        for before in 0..checked.externals() {
            if let Some(name) = self.external_name(module, before.saturating_add(1))
                && self.has_unplaced(name)
            {
                return true;
            }
        }
        false
    }

    /// Whether a segment without a place defines a name.
    fn has_unplaced(&self, name: &'a [u8]) -> bool {
        let mut next = self.names.last(name);
        for _ in 0..MOST_DEFINERS {
            let Some(definer) = next else {
                return false;
            };
            if self.place_of(definer.part).is_none() {
                return true;
            }
            next = self.names.before(&definer);
        }
        false
    }

    /// Notes where the externals of a module are, by all its references together.
    fn note_externals(&self, sayings: &mut Sayings, module: usize) -> Result<(), AllocError> {
        let Some(checked) = self.modules.get(module) else {
            return Ok(());
        };
        let settled = self.settle(module, checked)?;
        for before in 0..checked.externals() {
            let external = before.saturating_add(1);
            if settled.unknown.has(external) {
                continue;
            }
            if let Some(place) = settled.placement.external(usize::from(external)) {
                self.note_definer(sayings, module, external, place.address)?;
            }
        }
        Ok(())
    }

    /// Notes the place of the segment that defines an external at an address, if it is one alone.
    fn note_definer(
        &self,
        sayings: &mut Sayings,
        module: usize,
        external: u16,
        address: u32,
    ) -> Result<(), AllocError> {
        let number = self.definer_number(module, &entry_with(Kind::External, external));
        let hits = self.weigh(
            Hits {
                first: None,
                several: false,
            },
            self.names.definer(number),
            address,
        );
        match hits.first {
            Some(hit) if !hits.several && self.place_of(hit.number).is_none() => {
                sayings.places.push((hit.number, hit.address))?;
            }
            _ => {}
        }
        Ok(())
    }

    /// Follows all references, and again as long as more frames or places are known.
    pub(crate) fn close(&mut self) -> Result<(), AllocError> {
        for _ in 0..MOST_PASSES {
            let before = self.frames_known();
            self.drain()?;
            self.complete()?;
            let is_known = self.frames_known() == before;
            if is_known && self.queue.is_empty() {
                break;
            }
            if !is_known {
                self.queue.clear();
                self.requeue()?;
            }
        }
        self.queue.clear();
        Ok(())
    }
}

/// Adds those that there are.
fn add_all(targets: &mut Vec<u32>, found: [Option<u32>; 2]) -> Result<(), AllocError> {
    for target in found {
        if let Some(target) = target {
            targets.push(target)?;
        }
    }
    Ok(())
}

//! Which modules that are in the program are found: those that a chain of references joins to one that is sure by itself.

ghost use Rattle.std.specs.Prelude.{◌≡◌, ◌==◌, ◌&&◌, ◌∷◌, [], ◌<◌, ℕ, List, bytes_eq, length, set, true, false, IfNone, IfOk, IfSome, OnOk, Some, replicate, slice_get};
ghost use Rattle.std.specs.List.{AllZip, list_any};
ghost use Rattle.omf_check.specs.Module.{Module, recs_of};
ghost use Rattle.omf_finding.specs.declared.findings.Found.{Found};
ghost use Rattle.omf_reloc.specs.Reach.{Reaches};
ghost use Rattle.omf_finding.specs.Chain.{IsAlone, IsDraft, IsStart, IsSure, Refers, address_of, defines, draft_at, enough, is_code, is_public, present_at, record_defines};
ghost use Rattle.omf_finding.specs.Inner.Chaining.{HaveJoined, IsKnown, RefersAt, has_joined};
ghost use Rattle.omf_finding.specs.Inner.Closing.{AreAll};
ghost use Rattle.omf_finding.specs.Inner.Surely.{AreAllSure, HaveSure};
ghost use Rattle.omf_finding.specs.Inner.Shaping.{HasShapes, HaveShapes, IsMarked, IsPatternOf, IsShapeOf};
ghost use Rattle.omf_finding.specs.Inner.Walking.{byte_in};

use crate::defined::{Defined, DefinedNames};
use crate::findings::Found;
use crate::following::Search;
use crate::program::Program;
use crate::shapes::Shape;
use crate::singles::Singles;
use omf_check::{Checked, Undecoded, is_code_name};
use omf_records::{Items, Public};
use omf_reloc::{Placed, start};
use std::alloc::{AllocError, Global};

/// The modules of a search, each with the placement that is tried, if it is in the program there.
#[derive(Clone, Copy)]
pub(crate) struct Tried<'a, 'b, 'c> {
    pub(crate) alloc: Global,
    pub(crate) search: &'b Search<'a>,
    pub(crate) singles: &'b Singles,
    pub(crate) program: &'b Program,
    pub(crate) modules: &'c [Checked],
    pub(crate) shapes: &'b [Vec<Shape>],
    pub(crate) drafts: &'b [Option<Box<Found>>],
    /// The number of closed bytes from which on a segment with one place is sure by itself.
    pub(crate) least: usize,
    /// The number of places that are listed of a segment at most.
    pub(crate) most: usize,
}

/// The place of a segment that is not absent.
pub(crate) fn present_at(found: &Found, segment: u16) -> Option<Placed>
    ensures { result ≡ present_at found.now segment }
{
    if found.absent.has(segment) {
        return None;
    }
    found.placement.segment(usize::from(segment))
}

/// Whether a segment is of code: the name of its class ends with `CODE`.
fn is_code(module: &Checked, segment: u16) -> bool
    ensures { result ≡ is_code (recs_of «module».now.bytes) segment }
{
    match module.segment(segment) {
        Some(info) => is_code_name(module.name(info.class)),
        None => false,
    }
}

/// The number of closed bytes from which on the only place of a segment is sure: of one of code half as many as of others.
pub(crate) fn enough(module: &Checked, segment: u16, least: usize) -> usize
    ensures { result ≡ enough least (recs_of «module».now.bytes) segment }
{
    if is_code(module, segment) {
        least / 2
    } else {
        least
    }
}

/// Whether a module is placed at its start, which is the program's.
pub(crate) fn is_start(program: &Program, module: &Checked, found: &Found) -> bool
    requires { Reaches found.now.placement (recs_of «module».now.bytes) }
    ensures some { result ≡ true → IsStart program.now «module».now found.now }
    ensures none { result ≡ false → IsStart program.now «module».now found.now → ⊥ }
{
    let Some(own) = start(module, &found.placement) else {
        return false;
    };
    let Some(given) = program.start else {
        return false;
    };
    address_of(own.0, own.1) == address_of(given.0, u32::from(given.1))
}

/// The address of a selector and an offset.
fn address_of(selector: u16, offset: u32) -> u64
    ensures { result ≡ address_of (selector, offset) }
{
    16 * u64::from(selector) + u64::from(offset)
}

/// Whether a public has a name and an offset.
fn is_public(public: &Public<'_>, name: &[u8], offset: u32) -> bool
    ensures { result ≡ (bytes_eq public.now.name name.now && (public.now.offset == offset)) }
{
    public.name.0 == name && public.offset == offset
}

/// Whether one of these publics has a name and an offset.
fn has_public(publics: Items<Public<'_>>, name: &[u8], offset: u32) -> bool
    ensures { result ≡ list_any (is_public name.now offset) publics.entry }
{
    let mut found = false;
    for public in publics {
        found = found || is_public(&public.item, name, offset);
    }
    found
}

/// Whether a record defines a name at an offset of a segment.
fn record_defines(rec: &Undecoded<'_>, name: &[u8], segment: u16, offset: u32) -> bool
    ensures { result ≡ record_defines name.now segment offset rec.now }
{
    let Some(publics) = rec.as_publics(false) else {
        return false;
    };
    if publics.segment.item.0 == segment {
        has_public(publics.items, name, offset)
    } else {
        false
    }
}

/// Whether a module defines a name at an offset of a segment.
fn defines(module: &Checked, name: &[u8], segment: u16, offset: u32) -> bool
    ensures { result ≡ defines name.now segment offset (recs_of «module».now.bytes) }
{
    let mut found = false;
    for (_, rec) in module.undecoded() {
        found = found || record_defines(&rec, name, segment, offset);
    }
    found
}

/// The name of an external that is not local, if something shows where it is.
pub(crate) fn known_name<'a>(module: &'a Checked, found: &Found, external: u16) -> Option<&'a [u8]>
    ensures some { IfSome result (λ name. IsKnown (recs_of «module».entry.now.bytes) found.now external name.now) }
    ensures none { IfNone result ((name : List ℕ) → IsKnown (recs_of «module».entry.now.bytes) found.now external name → ⊥) }
{
    let is_local = module.local(external)?;
    if is_local {
        return None;
    }
    if found.unknown.has(external) {
        return None;
    }
    let name = module.external(external)?;
    Some(name.0)
}

/// An external of a module at its placement.
#[derive(Clone, Copy)]
struct Reference<'b, 'c> {
    module: &'c Checked,
    found: &'b Found,
    external: u16,
}

/// A module at its placement, and an offset of one of its segments.
#[derive(Clone, Copy)]
struct Target<'b, 'c> {
    module: &'c Checked,
    found: &'b Found,
    segment: u16,
    offset: u32,
}

/// Whether a reference is to a public at a target.
fn refers(reference: Reference<'_, '_>, target: Target<'_, '_>) -> bool
    ensures { result ≡ true → Refers (recs_of reference.entry.«module».now.bytes) reference.entry.found.now (recs_of target.entry.«module».now.bytes) target.entry.found.now }
{
    let Some(there) = reference
        .found
        .placement
        .external(usize::from(reference.external))
    else {
        return false;
    };
    let Some(place) = present_at(target.found, target.segment) else {
        return false;
    };
    if u64::from(place.address) + u64::from(target.offset) != u64::from(there.address) {
        return false;
    }
    match known_name(reference.module, reference.found, reference.external) {
        Some(name) => defines(target.module, name, target.segment, target.offset),
        None => false,
    }
}

/// The modules that are found so far, and of which of them references are to be followed.
#[derive(Drop)]
pub(crate) struct Joined {
    /// Whether each module is found.
    marks: Vec<bool>,
    queue: Vec<usize>,
}

impl Joined {
    /// None of n modules.
    fn new(alloc: Global, count: usize) -> Result<Joined, AllocError>
        ensures { IfOk result (λ j. j.marks.items ≡ replicate count false) }
    {
        Ok(Joined {
            marks: vec![in alloc; false; count]?,
            queue: Vec::new(alloc),
        })
    }

    /// Whether a module is found.
    pub(crate) fn has(&self, number: usize) -> bool
        ensures { result ≡ has_joined self.now.marks.items number }
    {
        match self.marks.get(number) {
            Some(mark) => *mark,
            None => false,
        }
    }

    /// A module is found.
    pub(crate) fn join(&mut self, number: usize) -> Result<(), AllocError>
        requires { number < length self.old.marks.items }
        ensures { OnOk result (self.new.marks.items ≡ set self.old.marks.items number true) }
    {
        self.marks[number] = true;
        self.queue.push(number)?;
        Ok(())
    }
}

impl<'a, 'b, 'c> Tried<'a, 'b, 'c> {
    /// Joins a module, if it is sure by itself.
    fn join_sure(self, joined: &mut Joined, number: usize) -> Result<(), AllocError>
        requires shapes { AllZip (HasShapes self.program.now self.most) self.modules.now self.shapes.now }
        requires drafts { AllZip (IsDraft self.program.now) self.modules.now self.drafts.now }
        requires joined { HaveJoined self joined.old.marks.items }
        ensures { OnOk result (HaveJoined self.entry joined.new.marks.items) }
    {
        let Some((module, found)) = self.draft(number) else {
            return Ok(());
        };
        let shapes = self.shapes;
        if number >= shapes.len() {
            return Ok(());
        }
        if number >= joined.marks.len() {
            return Ok(());
        }
        let own = shapes[number].as_slice();
        if self.is_sure(number, module, found, own) {
            joined.join(number)?;
        }
        Ok(())
    }

    /// Joins the modules that are sure by themselves.
    fn join_all_sure(self, joined: &mut Joined) -> Result<(), AllocError>
        requires shapes { AllZip (HasShapes self.program.now self.most) self.modules.now self.shapes.now }
        requires drafts { AllZip (IsDraft self.program.now) self.modules.now self.drafts.now }
        requires joined { HaveJoined self joined.old.marks.items }
        ensures { OnOk result (HaveJoined self.entry joined.new.marks.items) }
    {
        for number in 0..self.modules.len() {
            self.join_sure(joined, number)?;
        }
        Ok(())
    }

    /// The draft of a module, with the module.
    pub(crate) fn draft(self, number: usize) -> Option<(&'c Checked, &'b Found)>
        ensures none { IfNone result ((m : Module) (f : Found) → slice_get self.entry.modules.now number ≡ Some m → draft_at self.entry.drafts.now number ≡ Some f → ⊥) }
        ensures some { IfSome result (λ d. (slice_get self.entry.modules.now number ≡ Some d.0.now) × (draft_at self.entry.drafts.now number ≡ Some d.1.now)) }
    {
        let module = self.modules.get(number)?;
        match self.drafts.get(number)? {
            Some(found) => Some((module, found)),
            None => None,
        }
    }

    /// Whether an external of a module refers to an offset of a segment of another one.
    fn refers(self, number: usize, external: u16, other: usize, place: (u16, u32)) -> bool
        ensures { result ≡ true → RefersAt self.entry.modules.now self.entry.drafts.now number other }
    {
        let Some((module, found)) = self.draft(number) else {
            return false;
        };
        let Some((target, there)) = self.draft(other) else {
            return false;
        };
        let reference = Reference {
            module,
            found,
            external,
        };
        let target = Target {
            module: target,
            found: there,
            segment: place.0,
            offset: place.1,
        };
        refers(reference, target)
    }

    /// Joins the module of a public, if an external of a module that is found refers to it.
    fn join_definer(
        self,
        joined: &mut Joined,
        number: usize,
        external: u16,
        public: &Defined,
    ) -> Result<(), AllocError>
        requires { HaveJoined self joined.old.marks.items }
        ensures { OnOk result (HaveJoined self.entry joined.new.marks.items) }
    {
        let other = public.module;
        if other >= joined.marks.len() {
            return Ok(());
        }
        if !joined.has(number) {
            return Ok(());
        }
        if joined.has(other) {
            return Ok(());
        }
        if self.refers(number, external, other, (public.segment, public.offset)) {
            joined.join(other)?;
        }
        Ok(())
    }

    /// The publics of all modules at their drafts.
    fn defined(self) -> Result<DefinedNames<'c>, AllocError> {
        let mut names = DefinedNames::new(self.alloc);
        for number in 0..self.modules.len() {
            if let Some((module, found)) = self.draft(number) {
                names.add_module(number, module, found)?;
            }
        }
        Ok(names)
    }

    /// The last public to which an external of a module refers, if no other reference to it was followed.
    fn last_public(
        self,
        names: &mut DefinedNames<'c>,
        number: usize,
        external: u16,
    ) -> Option<usize> {
        let (module, found) = self.draft(number)?;
        let place = found.placement.external(usize::from(external))?;
        let name = module.external(external)?;
        names.take(name.0, place.address)
    }

    /// Joins the modules of the publics to which an external of a module that is found refers.
    fn follow(
        self,
        joined: &mut Joined,
        names: &mut DefinedNames<'c>,
        number: usize,
        external: u16,
    ) -> Result<(), AllocError>
        requires { HaveJoined self joined.old.marks.items }
        ensures { OnOk result (HaveJoined self.entry joined.new.marks.items) }
    {
        let mut next = self.last_public(names, number, external);
        for step in 0..usize::MAX {
            let Some(public) = names.get(next) else {
                break;
            };
            self.join_definer(joined, number, external, &public)?;
            next = public.before;
        }
        Ok(())
    }

    /// Joins the modules to which a module that is found refers.
    fn explore(
        self,
        joined: &mut Joined,
        names: &mut DefinedNames<'c>,
        number: usize,
    ) -> Result<(), AllocError>
        requires { HaveJoined self joined.old.marks.items }
        ensures { OnOk result (HaveJoined self.entry joined.new.marks.items) }
    {
        let Some((module, found)) = self.draft(number) else {
            return Ok(());
        };
        for before in 0..module.externals() {
            let external = before + 1;
            if !found.unknown.has(external) {
                self.follow(joined, names, number, external)?;
            }
        }
        Ok(())
    }

    /// Joins the modules to which the joined ones refer, and so on.
    fn go_on(self, joined: &mut Joined) -> Result<(), AllocError>
        requires { HaveJoined self joined.old.marks.items }
        ensures { OnOk result (HaveJoined self.entry joined.new.marks.items) }
    {
        let mut names = self.defined()?;
        for step in 0..usize::MAX {
            match joined.queue.pop() {
                Some(number) => self.explore(joined, &mut names, number)?,
                None => break,
            }
        }
        Ok(())
    }

    /// The modules that a chain of references joins to one that is sure by itself, with all to which these refer.
    pub(crate) fn walk(self) -> Result<Joined, AllocError>
        requires shapes { AllZip (HasShapes self.program.now self.most) self.modules.now self.shapes.now }
        requires drafts { AllZip (IsDraft self.program.now) self.modules.now self.drafts.now }
        requires singles { HaveSure self }
        ensures joined { IfOk result (λ j. HaveJoined self.entry j.marks.items) }
        ensures all { IfOk result (λ j. AreAll self.entry j.marks.items) }
        ensures sure { IfOk result (λ j. AreAllSure self.entry j.marks.items) }
    {
        let mut joined = Joined::new(self.alloc, self.modules.len())?;
        self.join_all_sure(&mut joined)?;
        self.go_on(&mut joined)?;
        self.close(&mut joined)?;
        Ok(joined)
    }
}

//! References of a segment at a place that go elsewhere than to the public of their name.

ghost use Rattle.std.specs.Prelude.{◌≡◌, All, IfOk, IfSome};
ghost use Rattle.omf_finding.specs.Stray.{IsStray};
ghost use Rattle.omf_finding.specs.Inner.Straying.{IsElsewhere, any_among, is_among};

use crate::finding::begun;
use crate::findings::{Found, Verdict};
use crate::fixes::{Fix, fixes_of};
use crate::following::Search;
use crate::nearing::Near;
use crate::program::Program;
use omf_check::Checked;
use omf_records::Kind;
use std::alloc::{AllocError, Global};

/// A reference to a public of a module that is found, which goes elsewhere.
#[derive(Clone, Copy)]
pub struct Stray {
    /// The offset of its location in the segment.
    pub offset: u32,
    /// The external that it refers to, from 1.
    pub external: u16,
    /// The address of that public.
    pub wanted: u32,
    /// The address to which the reference goes, in the first reading of its location.
    pub there: u32,
}

/// The modules of a search, with the places of those that are found.
#[derive(Drop)]
pub struct References<'a> {
    search: Search<'a>,
}

impl<'a> References<'a> {
    /// The references of modules with these verdicts, one for each.
    ///
    /// # Errors
    ///
    /// `AllocError` if out of memory.
    pub fn new(
        alloc: Global,
        modules: &'a [Checked],
        program: &'a Program,
        verdicts: &[Verdict],
    ) -> Result<References<'a>, AllocError> {
        let mut search = begun(alloc, modules, &[], program, 0)?;
        for (number, verdict) in verdicts.iter().enumerate() {
            if let Verdict::Found(found) = verdict {
                search.take_found(number, found);
            }
        }
        Ok(References { search })
    }

    /// The references of a segment of module `number`, from 0, that go elsewhere at its place.
    ///
    /// # Errors
    ///
    /// `AllocError` if out of memory.
    pub fn strays(&self, number: usize, near: &Near) -> Result<Vec<Stray>, AllocError>
        ensures { IfOk result (λ v. All IsStray v.items) }
    {
        let mut strays = Vec::new(self.search.alloc);
        let Some(module) = self.search.modules.get(number) else {
            return Ok(strays);
        };
        for fix in fixes_of(self.search.alloc, module)? {
            if fix.segment == near.segment
                && let Some(stray) = self.search.stray(number, near.address, &fix)?
            {
                strays.push(stray)?;
            }
        }
        Ok(strays)
    }
}

/// Whether a place is among the targets.
fn is_among(targets: &[u32], place: u32) -> bool
    ensures { result ≡ is_among targets.now place }
{
    targets.iter().any(|target| *target == place)
}

/// Whether one of these places is among the targets.
fn any_among(wanted: &[u32], targets: &[u32]) -> bool
    ensures { result ≡ any_among wanted.now targets.now }
{
    wanted.iter().any(|place| is_among(targets, *place))
}

/// The reference at an offset to an external, which should go to one of the places that are wanted, and goes to one of the targets.
fn elsewhere(offset: u32, external: u16, wanted: &[u32], targets: &[u32]) -> Option<Stray>
    ensures { IfSome result (λ s. IsElsewhere offset external wanted.now targets.now s) }
{
    if any_among(wanted, targets) {
        return None;
    }
    let [wanted, ..] = wanted else {
        return None;
    };
    let [there, ..] = targets else {
        return None;
    };
    Some(Stray {
        offset,
        external,
        wanted: *wanted,
        there: *there,
    })
}

impl<'a> Search<'a> {
    /// Takes the places of the segments of a module that is found.
    fn take_found(&mut self, number: usize, found: &Found) {
        for (before, place) in found.placement.segments().iter().enumerate() {
            let segment = u16::try_from(before.saturating_add(1)).unwrap_or(u16::MAX);
            if !found.absent.has(segment)
                && let Some(part) = self.number_of(number, segment)
                && let Some(part) = self.parts.get_mut(part)
            {
                part.place = Some(place.address);
                part.selector = Some(place.frame.selector);
            }
        }
    }

    /// The addresses of the publics that a target may be, of those with a place.
    fn wanted(&self, module: usize, fix: &Fix) -> Result<Vec<u32>, AllocError> {
        let mut wanted = Vec::new(self.alloc);
        for definer in self.definers_of(module, &fix.target)? {
            if let Some(place) = self.place_of(definer.part) {
                wanted.push(place.wrapping_add(definer.offset))?;
            }
        }
        Ok(wanted)
    }

    /// The reference of a fixup in a segment at this address, if its external has a place and no reading of its location is there.
    fn stray(&self, module: usize, address: u32, fix: &Fix) -> Result<Option<Stray>, AllocError>
        ensures { IfOk result (λ r. IfSome r IsStray) }
    {
        if fix.target.kind != Kind::External {
            return Ok(None);
        }
        let wanted = self.wanted(module, fix)?;
        let targets = self.targets(module, address, fix)?;
        Ok(elsewhere(fix.location, fix.target.index.0, &wanted, &targets))
    }
}

//! Whether all modules are found that are to be: each one to which a module that is found refers, and each one at the program's start.

ghost use Rattle.std.specs.Prelude.{◌≡◌, ◌+◌, ◌<◌, ◌⊎◌, ℕ, List, Some, false, length, slice_get, true, IfOk, OnOk};
ghost use Rattle.std.specs.List.{AllZip, list_any};
ghost use Rattle.omf_check.specs.Module.{recs_of};
ghost use Rattle.omf_reloc.specs.Reach.{Reaches};
ghost use Rattle.omf_finding.specs.Chain.{IsDraft, IsStart, IsSure, RefersTo};
ghost use Rattle.omf_finding.specs.Inner.Chaining.{HaveJoined};
ghost use Rattle.omf_finding.specs.Inner.Shaping.{HasShapes};
ghost use Rattle.omf_finding.specs.Inner.Surely.{AreAllSure, HaveSure, IsUnsure};
ghost use Rattle.omf_finding.specs.Inner.Closing.{Adds, AreAll, AsksAt, HasOneMore, HaveAsked, IsAskedOf, IsIdle, RefersBy, has_spot, is_asked, left_of, public_asked, record_asked};

use crate::chaining::{Joined, Tried, known_name, present_at};
use crate::findings::Found;
use crate::found::segment_count;
use omf_check::{Checked, Undecoded};
use omf_names::NameKey;
use omf_records::{Items, Public};
use std::alloc::AllocError;
use std::collections::BTreeSet;

/// The names that modules ask for, each with an address that it has for one of them.
#[derive(Drop)]
struct ReferredNames<'a> {
    spots: BTreeSet<(u64, NameKey<'a>)>,
}

impl<'a> ReferredNames<'a> {
    /// Adds a name at an address.
    fn add(&mut self, name: &'a [u8], address: u64) -> Result<(), AllocError>
        ensures { OnOk result (HasOneMore self.old.spots self.new.spots name.entry.now address) }
    {
        self.spots.insert((address, NameKey::of(name)))?;
        Ok(())
    }

    /// Whether there is a name at an address.
    fn has(&self, name: &'a [u8], address: u64) -> bool
        ensures { result ≡ has_spot self.now.spots name.entry.now address }
    {
        self.spots.contains(&(address, NameKey::of(name)))
    }

    /// Adds the name to which a module at its placement refers by an external.
    fn add_external(
        &mut self,
        module: &'a Checked,
        found: &Found,
        external: u16,
    ) -> Result<(), AllocError>
        ensures { OnOk result (Adds self.old.spots self.new.spots (RefersBy (recs_of «module».entry.now.bytes) found.now external)) }
    {
        let Some(place) = found.placement.external(usize::from(external)) else {
            return Ok(());
        };
        match known_name(module, found, external) {
            Some(name) => self.add(name, u64::from(place.address)),
            None => Ok(()),
        }
    }

    /// Adds the names to which a module at its placement refers.
    fn add_module(&mut self, module: &'a Checked, found: &Found) -> Result<(), AllocError>
        ensures { OnOk result (Adds self.old.spots self.new.spots (RefersTo (recs_of «module».entry.now.bytes) found.now)) }
    {
        for before in 0..module.externals() {
            self.add_external(module, found, before + 1)?;
        }
        Ok(())
    }

    /// Whether a public of a segment at an address is asked for.
    fn has_public(&self, address: u32, public: &Public<'a>) -> bool
        ensures { result ≡ has_spot self.now.spots public.now.name (address + public.now.offset) }
    {
        self.has(public.name.0, u64::from(address) + u64::from(public.offset))
    }

    /// Whether one of these publics, of a segment at an address, is asked for.
    fn has_some(&self, address: u32, publics: Items<Public<'a>>) -> bool
        ensures { result ≡ list_any (public_asked self.now.spots address) publics.entry }
    {
        let mut found = false;
        for public in publics {
            found = found || self.has_public(address, &public.item);
        }
        found
    }

    /// Whether a public of a record is asked for, of a module at its placement.
    fn has_record(&self, found: &Found, rec: &Undecoded<'a>) -> bool
        ensures { result ≡ record_asked self.now.spots found.now rec.now }
    {
        let Some(publics) = rec.as_publics(false) else {
            return false;
        };
        match present_at(found, publics.segment.item.0) {
            Some(place) => self.has_some(place.address, publics.items),
            None => false,
        }
    }

    /// Whether a public of a module at its placement is asked for.
    fn has_module(&self, module: &'a Checked, found: &Found) -> bool
        ensures { result ≡ is_asked self.now.spots found.now (recs_of «module».entry.now.bytes) }
    {
        let mut is_asked = false;
        for (_, rec) in module.undecoded() {
            is_asked = is_asked || self.has_record(found, &rec);
        }
        is_asked
    }
}

impl<'a, 'b, 'c> Tried<'a, 'b, 'c> {
    /// Adds the names to which a module refers, if it has joined.
    fn add_names(
        self,
        names: &mut ReferredNames<'c>,
        joined: &Joined,
        number: usize,
    ) -> Result<(), AllocError>
        ensures { OnOk result (Adds names.old.spots names.new.spots (AsksAt self.entry.modules.now self.entry.drafts.now joined.now.marks.items number)) }
    {
        if !joined.has(number) {
            return Ok(());
        }
        match self.draft(number) {
            Some((module, found)) => names.add_module(module, found),
            None => Ok(()),
        }
    }

    /// What the modules ask for that have joined.
    fn referred_names(self, joined: &Joined) -> Result<ReferredNames<'c>, AllocError>
        ensures { IfOk result (λ a. HaveAsked self.entry joined.now.marks.items a.spots) }
    {
        let mut names = ReferredNames {
            spots: BTreeSet::new(self.alloc),
        };
        for number in 0..self.modules.len() {
            self.add_names(&mut names, joined, number)?;
        }
        Ok(names)
    }

    /// Whether a module that has not joined is to be found.
    fn is_due(
        self,
        names: &ReferredNames<'c>,
        number: usize,
        module: &'c Checked,
        found: &Found,
    ) -> bool
        requires shapes { AllZip (HasShapes self.program.now self.most) self.modules.now self.shapes.now }
        requires singles { HaveSure self }
        requires number { slice_get self.modules.now number ≡ Some «module».now }
        requires held { Reaches found.now.placement (recs_of «module».now.bytes) }
        ensures some { result ≡ true → IsSure self.entry.program.now self.entry.least «module».entry.now found.now ⊎ (is_asked names.now.spots found.now (recs_of «module».entry.now.bytes) ≡ true) }
        ensures start { result ≡ false → IsStart self.entry.program.now «module».entry.now found.now → ⊥ }
        ensures alone { result ≡ false → IsUnsure self.entry number «module».entry.now found.now }
        ensures asked { result ≡ false → is_asked names.now.spots found.now (recs_of «module».entry.now.bytes) ≡ false }
    {
        let _count = segment_count(module);
        let Some(own) = self.shapes.get(number) else {
            unreachable!()
        };
        if self.is_sure(number, module, found, own.as_slice()) {
            return true;
        }
        names.has_module(module, found)
    }

    /// Joins a module that is to be found, and returns whether it was one.
    fn join_due(
        self,
        joined: &mut Joined,
        names: &ReferredNames<'c>,
        number: usize,
    ) -> Result<bool, AllocError>
        requires low { number < length self.modules.now }
        requires shapes { AllZip (HasShapes self.program.now self.most) self.modules.now self.shapes.now }
        requires singles { HaveSure self }
        requires drafts { AllZip (IsDraft self.program.now) self.modules.now self.drafts.now }
        requires joined { HaveJoined self joined.old.marks.items }
        requires asked { IsAskedOf self joined.old.marks.items names.now.spots }
        ensures joined { OnOk result (HaveJoined self.entry joined.new.marks.items) }
        ensures asked { OnOk result (IsAskedOf self.entry joined.new.marks.items names.now.spots) }
        ensures same { IfOk result (λ r. r ≡ false → joined.new.marks.items ≡ joined.old.marks.items) }
        ensures idle { IfOk result (λ r. r ≡ false → IsIdle self.entry joined.old.marks.items names.now.spots number) }
        ensures fewer { IfOk result (λ r. r ≡ true → left_of joined.new.marks.items < left_of joined.old.marks.items) }
    {
        if joined.has(number) {
            return Ok(false);
        }
        let Some((module, found)) = self.draft(number) else {
            return Ok(false);
        };
        if !self.is_due(names, number, module, found) {
            return Ok(false);
        }
        joined.join(number)?;
        Ok(true)
    }

    /// Joins the modules that are to be found, and returns whether there was one.
    fn join_all_due(
        self,
        joined: &mut Joined,
        names: &ReferredNames<'c>,
    ) -> Result<bool, AllocError>
        requires shapes { AllZip (HasShapes self.program.now self.most) self.modules.now self.shapes.now }
        requires singles { HaveSure self }
        requires drafts { AllZip (IsDraft self.program.now) self.modules.now self.drafts.now }
        requires joined { HaveJoined self joined.old.marks.items }
        requires asked { IsAskedOf self joined.old.marks.items names.now.spots }
        ensures joined { OnOk result (HaveJoined self.entry joined.new.marks.items) }
        ensures same { IfOk result (λ r. r ≡ false → joined.new.marks.items ≡ joined.old.marks.items) }
        ensures idle { IfOk result (λ r. r ≡ false → (j : ℕ) → j < length self.entry.modules.now → IsIdle self.entry joined.old.marks.items names.now.spots j) }
        ensures fewer { IfOk result (λ r. r ≡ true → left_of joined.new.marks.items < left_of joined.old.marks.items) }
    {
        let mut some = false;
        for number in 0..self.modules.len() {
            if self.join_due(joined, names, number)? {
                some = true;
            }
        }
        Ok(some)
    }

    /// Joins the modules that are to be found by those that have joined, and returns whether there was one.
    fn close_once(self, joined: &mut Joined) -> Result<bool, AllocError>
        requires shapes { AllZip (HasShapes self.program.now self.most) self.modules.now self.shapes.now }
        requires singles { HaveSure self }
        requires drafts { AllZip (IsDraft self.program.now) self.modules.now self.drafts.now }
        requires joined { HaveJoined self joined.old.marks.items }
        ensures joined { OnOk result (HaveJoined self.entry joined.new.marks.items) }
        ensures all { IfOk result (λ r. r ≡ false → AreAll self.entry joined.new.marks.items) }
        ensures sure { IfOk result (λ r. r ≡ false → AreAllSure self.entry joined.new.marks.items) }
        ensures fewer { IfOk result (λ r. r ≡ true → left_of joined.new.marks.items < left_of joined.old.marks.items) }
    {
        let names = self.referred_names(joined)?;
        let some = self.join_all_due(joined, &names)?;
        Ok(some)
    }

    /// Joins modules until all have joined that are to be found.
    pub(crate) fn close(self, joined: &mut Joined) -> Result<(), AllocError>
        requires shapes { AllZip (HasShapes self.program.now self.most) self.modules.now self.shapes.now }
        requires singles { HaveSure self }
        requires drafts { AllZip (IsDraft self.program.now) self.modules.now self.drafts.now }
        requires joined { HaveJoined self joined.old.marks.items }
        ensures joined { OnOk result (HaveJoined self.entry joined.new.marks.items) }
        ensures all { OnOk result (AreAll self.entry joined.new.marks.items) }
        ensures sure { OnOk result (AreAllSure self.entry joined.new.marks.items) }
    {
        while self.close_once(joined)? {}
        Ok(())
    }
}

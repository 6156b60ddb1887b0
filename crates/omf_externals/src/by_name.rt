//! The modules in which a name is.

ghost use Rattle.std.specs.Prelude.{◌≡◌, ◌<◌, ◌≤◌, ◌^◌, [], ◌∷◌, OnOk, IfOk, Bool, List, Some, ℕ, length, true, false};
ghost use Rattle.omf_check.specs.Module.{recs_of, typed_modules};
ghost use Rattle.omf_check.specs.Tables.{entry, externals};
ghost use Rattle.omf_placement.specs.Derive.{named_externals};
ghost use Rattle.omf_externals.specs.Names.{names_asked, names_of, public_names};
ghost use Rattle.omf_externals.specs.Unresolved.{HasMore, IsByName, Row, all_asked, all_rows, asked_row, asked_rows, has_place, is_given, is_other, items_or, rows_in, spots_of};

use crate::settled::{Settled, is_settled};
use omf_check::{Checked, Undecoded, entry_of};
use omf_linking::locator::Sparse;
use omf_placement::Placed;
use omf_records::{Items, Public};
use std::alloc::{AllocError, Global};
use std::collections::BTreeMap;

/// An external of one of several modules, or a public of one.
#[derive(Clone, Copy)]
pub struct Spot {
    /// The module, from 0.
    pub module: u32,
    /// The index of the external in it, from 1; 0 for a public.
    pub external: u16,
}

/// An external of one of several modules: its name, whether it is local, and where it is.
#[derive(Clone, Copy)]
pub struct External<'a> {
    /// Its name.
    pub name: &'a [u8],
    /// Whether it is local: defined by a LEXTDEF or an LCOMDEF.
    pub local: bool,
    /// Where it is.
    pub spot: Spot,
}

/// The external of a module at an index, from 1.
pub fn external_at<'a>(module: &'a Checked, spot: Spot) -> External<'a>
    requires low { 1 ≤ spot.external }
    requires within { spot.external ≤ length (externals (recs_of «module».now.bytes)) }
    ensures named { entry (named_externals (recs_of «module».now.bytes)) spot.external ≡ Some (result.name.now, result.local) }
    ensures same { result.spot ≡ spot }
{
    let local = module.local(spot.external).unwrap_or(false);
    let Some(name) = module.external(spot.external) else {
        unreachable!()
    };
    External {
        name: name.0,
        local,
        spot,
    }
}

/// Whether an external is of the other kind: not local where local ones are wanted, or local where they are not.
fn is_other(wanted: bool, local: bool) -> bool
    ensures { result ≡ is_other wanted local }
{
    if wanted { !local } else { local }
}

/// Whether an entry of a text's table is there and has a place.
fn has_place(entry: Option<Option<Placed>>) -> bool
    ensures { result ≡ has_place entry }
{
    match entry {
        Some(Some(_)) => true,
        Some(None) => false,
        None => false,
    }
}

/// Whether an external has a place by hand.
pub(crate) fn is_given(by_hand: &[Sparse], module: u32, external: u16) -> bool
    ensures { result ≡ is_given by_hand.now «module» external }
{
    match by_hand.get(module as usize) {
        Some(sparse) => has_place(entry_of(sparse.externals(), usize::from(external))),
        None => false,
    }
}

/// These externals or publics; none if there is no list.
fn spots_or_none(alloc: Global, found: Option<Vec<Spot>>) -> Vec<Spot>
    ensures { result.items ≡ items_or found }
{
    match found {
        Some(spots) => spots,
        None => Vec::new(alloc),
    }
}

/// Externals or publics of several modules, by name; those of one name in the order in which they were added.
#[derive(Drop)]
pub(crate) struct ByName<'a> {
    pub(super) spots: BTreeMap<&'a [u8], Vec<Spot>>,
}

impl<'a> ByName<'a> {
    /// Adds an external or a public.
    fn add(&mut self, alloc: Global, name: &'a [u8], spot: Spot) -> Result<(), AllocError>
        ensures { OnOk result (HasMore self.old.spots self.new.spots ((name.entry.now, spot) ∷ [])) }
    {
        let mut spots = spots_or_none(alloc, self.spots.remove(&name));
        spots.push(spot)?;
        self.spots.insert(name, spots)?;
        Ok(())
    }

    /// Adds a public.
    fn add_public(
        &mut self,
        alloc: Global,
        number: u32,
        public: &Public<'a>,
    ) -> Result<(), AllocError>
        ensures { OnOk result (HasMore self.old.spots self.new.spots (rows_in number (public.now.name ∷ []))) }
    {
        let spot = Spot {
            module: number,
            external: 0,
        };
        self.add(alloc, public.name.0, spot)
    }

    /// Adds publics.
    fn add_items(
        &mut self,
        alloc: Global,
        number: u32,
        items: Items<Public<'a>>,
    ) -> Result<(), AllocError>
        ensures { OnOk result (HasMore self.old.spots self.new.spots (rows_in number (names_of items.entry))) }
    {
        for public in items {
            self.add_public(alloc, number, &public.item)?;
        }
        Ok(())
    }

    /// Adds a record's publics: those of an LPUBDEF if `local` is set, of a PUBDEF if not. No other record is decoded.
    #[tactic(auto, using(crate::proofs::UnresolvedLaws::none_more, crate::proofs::NameLaws::none_asked))]
    fn add_record(
        &mut self,
        alloc: Global,
        local: bool,
        number: u32,
        rec: &Undecoded<'a>,
    ) -> Result<(), AllocError>
        ensures { OnOk result (HasMore self.old.spots self.new.spots (rows_in number (names_asked local rec.now.kind rec.now.contents))) }
    {
        match rec.as_publics(local) {
            Some(publics) => self.add_items(alloc, number, publics.items),
            None => Ok(()),
        }
    }

    /// Adds a module's local publics, or the others.
    fn add_module(
        &mut self,
        alloc: Global,
        local: bool,
        number: u32,
        module: &'a Checked,
    ) -> Result<(), AllocError>
        ensures { OnOk result (HasMore self.old.spots self.new.spots (rows_in number (public_names local (recs_of «module».entry.now.bytes)))) }
    {
        for (_, rec) in module.undecoded() {
            self.add_record(alloc, local, number, &rec)?;
        }
        Ok(())
    }

    /// Returns the local publics of a module with this number.
    pub(crate) fn of_locals(
        alloc: Global,
        number: u32,
        module: &'a Checked,
    ) -> Result<ByName<'a>, AllocError>
        ensures { IfOk result (λ t. IsByName t.spots (rows_in number (public_names true (recs_of «module».entry.now.bytes)))) }
    {
        let mut table = ByName {
            spots: BTreeMap::new(alloc),
        };
        table.add_module(alloc, true, number, module)?;
        Ok(table)
    }

    /// Returns the publics of all modules that are not local.
    pub(crate) fn of(alloc: Global, modules: &'a [Checked]) -> Result<ByName<'a>, AllocError>
        requires { length modules.now < 2 ^ 32 }
        ensures { IfOk result (λ t. IsByName t.spots (all_rows (typed_modules modules.entry.now))) }
    {
        let mut table = ByName {
            spots: BTreeMap::new(alloc),
        };
        for (j, module) in modules.iter().enumerate() {
            table.add_module(alloc, false, j as u32, module)?;
        }
        Ok(table)
    }

    /// Adds an external, if it needs a public and is local; or not local, if `local` is not set.
    fn add_external(
        &mut self,
        alloc: Global,
        settled: &[Settled],
        local: bool,
        external: External<'a>,
    ) -> Result<(), AllocError>
        ensures { OnOk result (HasMore self.old.spots self.new.spots (asked_row local settled.now external.entry.spot.«module» (external.entry.spot.external, (external.entry.name.now, external.entry.local)))) }
    {
        if is_other(local, external.local) {
            return Ok(());
        }
        if is_settled(settled, external.spot.module, external.spot.external) {
            return Ok(());
        }
        self.add(alloc, external.name, external.spot)
    }

    /// Adds the externals of a module with this number that need a public: the local ones, or the others.
    fn add_externals(
        &mut self,
        alloc: Global,
        settled: &[Settled],
        local: bool,
        number: u32,
        module: &'a Checked,
    ) -> Result<(), AllocError>
        ensures { OnOk result (HasMore self.old.spots self.new.spots (asked_rows local settled.now (number, recs_of «module».entry.now.bytes))) }
    {
        for before in 0..module.externals() {
            let spot = Spot {
                module: number,
                external: before + 1,
            };
            self.add_external(alloc, settled, local, external_at(module, spot))?;
        }
        Ok(())
    }

    /// Returns the local externals of a module with this number that need a public.
    pub(crate) fn of_local_externals(
        alloc: Global,
        settled: &[Settled],
        number: u32,
        module: &'a Checked,
    ) -> Result<ByName<'a>, AllocError>
        ensures { IfOk result (λ t. IsByName t.spots (asked_rows true settled.now (number, recs_of «module».entry.now.bytes))) }
    {
        let mut table = ByName {
            spots: BTreeMap::new(alloc),
        };
        table.add_externals(alloc, settled, true, number, module)?;
        Ok(table)
    }

    /// Returns the externals of all modules that are not local and need a public.
    pub(crate) fn of_externals(
        alloc: Global,
        settled: &[Settled],
        modules: &'a [Checked],
    ) -> Result<ByName<'a>, AllocError>
        requires { length modules.now < 2 ^ 32 }
        ensures { IfOk result (λ t. IsByName t.spots (all_asked settled.now (typed_modules modules.entry.now))) }
    {
        let mut table = ByName {
            spots: BTreeMap::new(alloc),
        };
        for (j, module) in modules.iter().enumerate() {
            table.add_externals(alloc, settled, false, j as u32, module)?;
        }
        Ok(table)
    }

    /// Returns the externals or publics of a name.
    pub(crate) fn spots(&self, name: &'a [u8]) -> &[Spot]
        ensures { (rows : List Row) → IsByName self.now.spots rows → result.now ≡ spots_of rows name.now }
    {
        match self.spots.get(&name) {
            Some(spots) => spots,
            None => &[],
        }
    }
}

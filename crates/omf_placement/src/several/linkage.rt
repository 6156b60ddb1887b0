//! Derivation of the places of externals from the publics of several modules.

ghost use Rattle.std.specs.Prelude.{◌≡◌, ◌<◌, ◌^◌, Err, IfErr, IfOk, IfSome, Ok, OnOk, length, List, Bool, true, false, filter_map, map, zip, Option};
ghost use Rattle.std.specs.List.{AllZip};
ghost use Rattle.omf_records.specs.Values.{Rec};
ghost use Rattle.omf_records.specs.Inner.Seen.{map_ok};
ghost use Rattle.omf_check.specs.Module.{recs_of, typed_modules};
ghost use Rattle.omf_check.specs.Tables.{externals};
ghost use Rattle.omf_placement.specs.declared.frame.Placed.{Placed as Place};
ghost use Rattle.omf_placement.specs.declared.several.given.Given.{Given as Entry};
ghost use Rattle.omf_placement.specs.Derive.{PlacedPublic, placed_modules};
ghost use Rattle.omf_placement.specs.Inner.Derived.{derived, external_places, given_or, given_place, one_public, resolved};
ghost use Rattle.omf_placement.specs.Inner.GivenTable.{IsGivenTable};
ghost use Rattle.omf_placement.specs.Derivation.{IsDerived, IsPlaceOf};
ghost use Rattle.omf_placement.specs.Inner.Deriving.{IsFound, IsTried, with_own};
ghost use Rattle.omf_placement.specs.Inner.Linkage.{AreFound, IsLinkage, IsSourceTable, NamedSource, definer, definer_at, definers, found_by, of_source, sources};
ghost use Rattle.omf_placement.specs.Inner.PublicTable.{summed};
ghost use Rattle.omf_placement.specs.Weak.{with_weak};

use crate::frame::Placed;
use crate::placement::Placement;
use crate::several::fault::DeriveFault;
use crate::several::given::{Given, GivenTable};
use crate::several::publics::place_found;
use crate::several::search::first_fault;
use crate::several::sources::{Definer, SourceTable, found_by};
use crate::several::weak::{has_pairs, with_weak};
use omf_check::{Checked, entry_of};
use std::alloc::{AllocError, Global};
use std::marker::Model;

/// The publics that each external of a module refers to, in order.
#[derive(Drop)]
struct Links {
    of_external: Vec<Option<Definer>>,
}

impl Model for Links {
    ghost use Rattle.std.specs.Prelude.{List, Option};
    ghost use Rattle.omf_placement.specs.declared.several.sources.Definer.{Definer as Known};

    ghost Value = { List (Option Known) };

    ghost view = { λ l. l.of_external.items };
}

/// What is known of several modules, whatever their places: the publics that their externals refer to, whether two publics may have one
/// name, and whether externals may be weak.
#[derive(Drop)]
pub struct Linkage {
    of_module: Vec<Links>,
    repeats: bool,
    is_weak: bool,
}

impl Model for Linkage {
    ghost use Rattle.omf_placement.specs.Inner.Linkage.{Known};

    ghost Value = { Known };

    ghost view = { λ l. record { links = l.of_module.items; repeats = l.repeats; is_weak = l.is_weak } };
}

/// The local publics with a name of the module with this number. Their table is made where it is first needed.
fn local_definer<'a>(
    alloc: Global,
    own: &mut Option<SourceTable<'a>>,
    module: &'a Checked,
    number: usize,
    name: &'a [u8],
) -> Result<Option<Definer>, AllocError>
    requires { IfSome own.old (λ t. IsSourceTable t (sources true number (recs_of «module».now.bytes))) }
    ensures definer { IfOk result (λ d. d ≡ definer (filter_map (of_source name.now) (sources true number (recs_of «module».entry.now.bytes)))) }
    ensures own { OnOk result (IfSome own.new (λ t. IsSourceTable t (sources true number (recs_of «module».entry.now.bytes)))) }
{
    if let Some(table) = own {
        return Ok(table.definer(name));
    }
    let table = SourceTable::of_locals(alloc, module, number)?;
    let definer = table.definer(name);
    *own = Some(table);
    Ok(definer)
}

/// The publics that the externals of the module with this number refer to: those of its own for a local one, else those of all modules.
fn links_of<'a>(
    alloc: Global,
    all: &SourceTable<'a>,
    module: &'a Checked,
    number: usize,
) -> Result<Links, AllocError>
    ensures links { (among : Bool → List NamedSource) → IsSourceTable all.now (among false) → among true ≡ sources true number (recs_of «module».entry.now.bytes) → IfOk result (λ l. l ≡ definers among (recs_of «module».entry.now.bytes)) }
    ensures few { IfOk result (λ l. length (externals (recs_of «module».entry.now.bytes)) < 32768) }
{
    let mut own = None;
    let mut of_external = Vec::with_capacity(alloc, usize::from(module.externals()))?;
    for i in 1..module.externals() + 1 {
        let Some(name) = module.external(i) else {
            unreachable!()
        };
        let definer = if module.local(i).unwrap_or(false) {
            local_definer(alloc, &mut own, module, number, name.0)?
        } else {
            all.definer(name.0)
        };
        of_external.push(definer)?;
    }
    Ok(Links { of_external })
}

impl Linkage {
    /// The publics that the externals of modules refer to: an EXTDEF or a COMDEF to the PUBDEFs of all modules, a LEXTDEF or an LCOMDEF to
    /// the LPUBDEFs of its own.
    ///
    /// # Errors
    ///
    /// `AllocError` if out of memory.
    pub fn of(alloc: Global, modules: &[Checked]) -> Result<Linkage, AllocError>
        ensures { IfOk result (IsLinkage (typed_modules modules.now)) }
    {
        let all = SourceTable::of(alloc, modules)?;
        let is_weak = has_pairs(alloc, modules)?;
        let mut of_module = Vec::with_capacity(alloc, modules.len())?;
        for (j, module) in modules.iter().enumerate() {
            of_module.push(links_of(alloc, &all, module, j)?)?;
        }
        Ok(Linkage {
            of_module,
            repeats: all.repeats(),
            is_weak,
        })
    }

    /// What the external with an index (from 1) of the module with a number (from 0) refers to; `None` if no public has its name, and if
    /// there is no such external.
    pub fn definer(&self, module: usize, external: u16) -> Option<Definer>
        ensures { result ≡ definer_at self.now.links «module» external }
    {
        let links = self.of_module.get(module)?;
        entry_of(&links.of_external, usize::from(external))?
    }

    /// Whether two publics of PUBDEFs may have one name: false only if none have.
    pub fn repeats(&self) -> bool
        ensures { result ≡ self.now.repeats }
    {
        self.repeats
    }
}

/// The same as `with_weak`, by what is known of the modules: without a weak external they are not looked at.
///
/// # Errors
///
/// `AllocError` if out of memory.
pub fn with_weak_linked(
    alloc: Global,
    linkage: &Linkage,
    modules: &[Checked],
    places: &[Placement],
    given: &[Given],
) -> Result<Vec<Given>, AllocError>
    requires few { length modules.now < 2 ^ 32 }
    requires linked { IsLinkage (typed_modules modules.now) linkage.now }
    requires placed { length places.now ≡ length modules.now }
    ensures { IfOk result (λ v. v.items ≡ with_weak (placed_modules modules.now places.now) given.now) }
{
    if !linkage.is_weak {
        let entries = given.to_vec(alloc)?;
        return Ok(entries);
    }
    with_weak(alloc, modules, places, given)
}

/// The place of an external: the given one, or else that of the only public that it refers to.
fn linked_place(
    places: &[Placement],
    given: &GivenTable,
    definer: Option<Definer>,
    module: u32,
    external: u16,
) -> Result<Placed, DeriveFault>
    ensures { (entries : List Entry) (ps : List Place) → IsGivenTable given.now.by_external entries → found_by places.now definer ≡ summed ps → result ≡ given_or (given_place entries «module» external) (one_public «module» external ps) }
{
    match given.place_of(module, external) {
        Some(place) => Ok(place),
        None => place_found(found_by(places, definer), module, external),
    }
}

/// The places of the externals of the module with this number, or the fault of the first that has none.
fn linked_places(
    alloc: Global,
    links: &Links,
    places: &[Placement],
    given: &GivenTable,
    number: u32,
) -> Result<Vec<Placed>, DeriveFault>
    requires { length links.now < 65536 }
    ensures { (among : Bool → List PlacedPublic) (entries : List Entry) (m : List Rec) → IsGivenTable given.now.by_external entries → AreFound places.now links.now among m → IsFound (external_places among entries number m) (map_ok (λ v. v.items) result) }
{
    let mut found = Vec::with_capacity(alloc, links.of_external.len())?;
    for (before, definer) in links.of_external.iter().enumerate() {
        let external = before as u16 + 1;
        found.push(linked_place(places, given, *definer, number, external)?)?;
    }
    Ok(found)
}

/// The places of the externals of all modules. Out of memory, it may hide a fault.
fn try_resolve(
    alloc: Global,
    linkage: &Linkage,
    modules: &[Checked],
    places: &[Placement],
    given: &[Given],
) -> Result<Vec<Vec<Placed>>, DeriveFault>
    requires few { length modules.now < 2 ^ 32 }
    requires linked { IsLinkage (typed_modules modules.now) linkage.now }
    requires placed { AllZip IsPlaceOf (typed_modules modules.now) places.now }
    ensures { IsTried (resolved (placed_modules modules.now places.now) given.now) (map_ok (λ v. map (λ e. e.items) v.items) result) }
{
    let first_given = GivenTable::of(alloc, given)?;
    let of_module = linkage.of_module.as_slice();
    let mut resolved = Vec::with_capacity(alloc, places.len())?;
    for (j, _place) in places.iter().enumerate() {
        let links = &of_module[j];
        let externals = linked_places(alloc, links, places, &first_given, j as u32)?;
        resolved.push(externals)?;
    }
    Ok(resolved)
}

/// Placements with the places of their externals.
fn with_externals(
    alloc: Global,
    places: Vec<Placement>,
    externals: Vec<Vec<Placed>>,
) -> Result<Vec<Placement>, AllocError>
    requires { length externals.items ≡ length places.items }
    ensures { IfOk result (λ v. v.items ≡ map with_own (zip places.items (map (λ e. e.items) externals.items))) }
{
    let mut placements = Vec::with_capacity(alloc, places.len())?;
    let mut left = externals.into_iter();
    for place in places {
        let Some(own) = left.next() else {
            unreachable!()
        };
        placements.push(place.with_externals(own))?;
    }
    Ok(placements)
}

/// The first external without a place; `Memory` if each has one.
fn fault_or_memory(modules: &[Checked], places: &[Placement], given: &[Given]) -> DeriveFault
    requires few { length modules.now < 2 ^ 32 }
    requires placed { AllZip IsPlaceOf (typed_modules modules.now) places.now }
    ensures { IsDerived (derived (placed_modules modules.now places.now) given.now) (Err result) }
{
    first_fault(modules, places, given).unwrap_or(DeriveFault::Memory)
}

/// The places of the externals of all modules, without which the modules are not derived.
fn resolve(
    alloc: Global,
    linkage: &Linkage,
    modules: &[Checked],
    places: &[Placement],
    given: &[Given],
) -> Result<Vec<Vec<Placed>>, DeriveFault>
    requires few { length modules.now < 2 ^ 32 }
    requires linked { IsLinkage (typed_modules modules.now) linkage.now }
    requires placed { AllZip IsPlaceOf (typed_modules modules.now) places.now }
    ensures resolved { IfOk result (λ v. resolved (placed_modules modules.now places.now) given.now ≡ Ok (map (λ e. e.items) v.items)) }
    ensures fault { IfErr result (λ f. IsDerived (derived (placed_modules modules.now places.now) given.now) (Err f)) }
{
    match try_resolve(alloc, linkage, modules, places, given) {
        Err(DeriveFault::Memory) => Err(fault_or_memory(modules, places, given)),
        answer => answer,
    }
}

/// The same as `derive`, by the publics that the externals refer to: so modules are derived at several places without looking for names
/// again, and the places are not copied.
///
/// # Errors
///
/// Those of `derive`.
pub fn derive_linked(
    alloc: Global,
    linkage: &Linkage,
    modules: &[Checked],
    places: Vec<Placement>,
    given: &[Given],
) -> Result<Vec<Placement>, DeriveFault>
    requires few { length modules.now < 2 ^ 32 }
    requires linked { IsLinkage (typed_modules modules.now) linkage.now }
    requires placed { AllZip IsPlaceOf (typed_modules modules.now) places.items }
    ensures { IsDerived (derived (placed_modules modules.now places.items) given.now) (map_ok (λ v. v.items) result) }
{
    let externals = resolve(alloc, linkage, modules, &places, given)?;
    match with_externals(alloc, places, externals) {
        Ok(placements) => Ok(placements),
        Err(AllocError) => Err(DeriveFault::Memory),
    }
}

/// Copies of placements.
fn copies(alloc: Global, places: &[Placement]) -> Result<Vec<Placement>, AllocError>
    ensures { IfOk result (λ v. v.items ≡ places.now) }
{
    let mut copies = Vec::new(alloc);
    for place in places {
        copies.push(place.copied()?)?;
    }
    Ok(copies)
}

/// Derives the placement of each module: the segments and groups of its placement in `places`, and a place for each of its externals.
/// That is the place of its first entry in `given`, or else the address and the frame of the only public with its name, among those of
/// the PUBDEF records of all modules, or for a local external those of the LPUBDEF records of its own module. There must be one of
/// `places` for each module, with exactly its module's segments and groups, and fewer than 2^32 modules.
///
/// The address of a public is that of its segment plus its offset; without a segment, 16 times its base frame number plus its offset.
/// Its frame is that of its group; without a group, that of its segment or base frame (TIS OMF 1.1, "PUBDEF").
///
/// # Errors
///
/// `Undefined`, `Twice` or `TooHigh` with the first external, by module, then by index, whose name no public has, two or more publics
/// have, or a public at an address of 2^32 or more has. `Memory` if out of memory, only if each external has a place; to see that, the
/// publics are searched for each external, which is slow.
pub fn derive(
    alloc: Global,
    modules: &[Checked],
    places: &[Placement],
    given: &[Given],
) -> Result<Vec<Placement>, DeriveFault>
    requires few { length modules.now < 2 ^ 32 }
    requires placed { AllZip IsPlaceOf (typed_modules modules.now) places.now }
    ensures { IsDerived (derived (placed_modules modules.now places.now) given.now) (map_ok (λ v. v.items) result) }
{
    let (Ok(linkage), Ok(own)) = (Linkage::of(alloc, modules), copies(alloc, places)) else {
        return Err(fault_or_memory(modules, places, given));
    };
    derive_linked(alloc, &linkage, modules, own, given)
}

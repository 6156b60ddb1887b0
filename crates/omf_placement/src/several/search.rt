//! The search for the first fault without memory: slow, for a derivation that has run out of it.

ghost use Rattle.std.specs.Prelude.{◌≡◌, ◌+◌, ◌<◌, ◌^◌, List, length};
ghost use Rattle.omf_check.specs.Module.{recs_of};
ghost use Rattle.omf_placement.specs.declared.frame.Placed.{Placed as Place};
ghost use Rattle.omf_placement.specs.Derive.{PlacedModule, public_at, publics_at, record_publics, publics, all_publics, placed_modules, seen_publics};
ghost use Rattle.omf_placement.specs.Inner.Derived.{given_place, one_public, given_or, external_places, derived};
ghost use Rattle.omf_placement.specs.Inner.PublicTable.{summed, found_with, found_over, found_among};
ghost use Rattle.omf_placement.specs.Inner.Deriving.{IsNext, IsFaultOf, IsFaultIn};

use crate::frame::Placed;
use crate::placement::Placement;
use crate::several::fault::DeriveFault;
use crate::several::given::Given;
use crate::several::publics::{Found, place_found, publics_of, with_one_more};
use omf_check::{Checked, Undecoded};
use omf_records::{Items, Public};

/// What is found for this name after one more public of a PUBDEF or an LPUBDEF with this base.
fn after_public(
    name: &[u8],
    found: Option<Found>,
    public: &Public<'_>,
    base: Placed,
) -> Option<Found>
    ensures { result ≡ found_with name.now found (public_at public.now.name (base.address + public.now.offset) base.frame) }
{
    if name != public.name.0 {
        return found;
    }
    let address = u64::from(base.address) + u64::from(public.offset);
    Some(with_one_more(found, address, base.frame))
}

/// What is found for this name after the publics of a PUBDEF or an LPUBDEF with this base.
fn after_items(
    name: &[u8],
    before: Option<Found>,
    items: Items<Public<'_>>,
    base: Placed,
) -> Option<Found>
    ensures { result ≡ found_over name.now before (publics_at base items.entry) }
{
    let mut found = before;
    for public in items {
        found = after_public(name, found, &public.item, base);
    }
    found
}

/// What is found for this name after the local publics of a record, or after its other publics.
fn after_record(
    name: &[u8],
    found: Option<Found>,
    local: bool,
    rec: &Undecoded<'_>,
    placement: &Placement,
) -> Option<Found>
    ensures { result ≡ found_over name.now found (record_publics local placement.now rec.now.kind rec.now.contents) }
{
    match publics_of(local, rec, placement) {
        Some((base, items)) => after_items(name, found, items, base),
        None => found,
    }
}

/// What is found for this name after the local publics of a module, or after its other publics.
fn after_module(
    name: &[u8],
    before: Option<Found>,
    local: bool,
    module: &Checked,
    placement: &Placement,
) -> Option<Found>
    ensures { result ≡ found_over name.now before (publics local (recs_of «module».now.bytes, placement.now)) }
{
    let mut found = before;
    for (_, rec) in module.undecoded() {
        found = after_record(name, found, local, &rec, placement);
    }
    found
}

/// What is found for this name among the publics of all modules that are not local.
fn found_in_all(name: &[u8], modules: &[Checked], placements: &[Placement]) -> Option<Found>
    requires { length placements.now ≡ length modules.now }
    ensures { result ≡ found_among name.now (all_publics (placed_modules modules.now placements.now)) }
{
    let mut found = None;
    for (j, module) in modules.iter().enumerate() {
        found = after_module(name, found, false, module, &placements[j]);
    }
    found
}

/// The place of the first entry for an external, if any.
fn given_to(given: &[Given], module: u32, external: u16) -> Option<Placed>
    ensures { result ≡ given_place given.now «module» external }
{
    for entry in given {
        if entry.module == module && entry.external == external {
            return Some(Placed {
                address: entry.address,
                frame: entry.frame,
            });
        }
    }
    None
}

/// What is found for this name among the publics that an external of module `j` can refer to: those of its own module if it is local,
/// else all.
fn found_for(
    name: &[u8],
    local: bool,
    modules: &[Checked],
    placements: &[Placement],
    j: usize,
) -> Option<Found>
    requires placed { length placements.now ≡ length modules.now }
    requires within { j < length modules.now }
    ensures { (m : PlacedModule) → IsNext (placed_modules modules.now placements.now) j m → result ≡ found_among name.now (seen_publics (placed_modules modules.now placements.now) m local) }
{
    if local {
        after_module(name, None, true, &modules[j], &placements[j])
    } else {
        found_in_all(name, modules, placements)
    }
}

/// The place of an external with these publics: the given one, or else that of the only public.
fn place_or_fault(
    given: &[Given],
    found: Option<Found>,
    module: u32,
    external: u16,
) -> Result<Placed, DeriveFault>
    ensures { (ps : List Place) → found ≡ summed ps → result ≡ given_or (given_place given.now «module» external) (one_public «module» external ps) }
{
    match given_to(given, module, external) {
        Some(place) => Ok(place),
        None => place_found(found, module, external),
    }
}

/// The fault of the first external of module `j` that has no place.
fn fault_in(
    modules: &[Checked],
    placements: &[Placement],
    given: &[Given],
    j: usize,
) -> Option<DeriveFault>
    requires few { length modules.now < 2 ^ 32 }
    requires placed { length placements.now ≡ length modules.now }
    requires within { j < length modules.now }
    ensures { (m : PlacedModule) → IsNext (placed_modules modules.now placements.now) j m → IsFaultOf (external_places (seen_publics (placed_modules modules.now placements.now) m) given.now j m.0) result }
{
    let module = &modules[j];
    for i in 1..module.externals() + 1 {
        let local = module.local(i).unwrap_or(false);
        let found = match module.external(i) {
            Some(name) => found_for(name.0, local, modules, placements, j),
            None => unreachable!(),
        };
        if let Err(fault) = place_or_fault(given, found, j as u32, i) {
            return Some(fault);
        }
    }
    None
}

/// The fault of the first external, by module, then by index, that has no place. Takes no memory, and for each external as long as there
/// are publics.
pub(crate) fn first_fault(
    modules: &[Checked],
    placements: &[Placement],
    given: &[Given],
) -> Option<DeriveFault>
    requires few { length modules.now < 2 ^ 32 }
    requires placed { length placements.now ≡ length modules.now }
    ensures { IsFaultIn (derived (placed_modules modules.now placements.now) given.now) result }
{
    for j in 0..modules.len() {
        if let Some(fault) = fault_in(modules, placements, given, j) {
            return Some(fault);
        }
    }
    None
}

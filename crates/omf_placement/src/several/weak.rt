//! Places of weak externals: each that no public resolves has the place of its default.

ghost use Rattle.std.specs.Prelude.{◌≡◌, ◌++◌, ◌<◌, ◌^◌, [], Bool, IfOk, List, OnOk, false, filter_map, flat_map, length, option_to_list, true};
ghost use Rattle.std.specs.List.{enumerate_from};
ghost use Rattle.omf_check.specs.Module.{recs_of, typed_modules};
ghost use Rattle.omf_check.specs.Tables.{entry};
ghost use Rattle.omf_placement.specs.Derive.{PlacedModule, PlacedPublic, placed_modules, seen_publics};
ghost use Rattle.omf_placement.specs.Inner.Derived.{external_place, external_places};
ghost use Rattle.omf_placement.specs.Inner.GivenTable.{IsGivenTable};
ghost use Rattle.omf_placement.specs.Inner.PublicTable.{IsTable};
ghost use Rattle.omf_placement.specs.Weak.{default_place, is_undefined, pair_given, weak_in, weak_pairs, with_weak};
ghost use Rattle.omf_placement.specs.declared.several.given.Given.{Given as Entry};

use crate::frame::{Frame, Placed};
use crate::placement::Placement;
use crate::several::fault::DeriveFault;
use crate::several::given::{Given, GivenTable};
use crate::several::pairs::{WeakPair, weak_pairs};
use crate::several::publics::PublicTable;
use omf_check::{Checked, entry_of};
use std::alloc::{AllocError, Global};

/// The place of an external, or why it has none.
type Outcome = Result<Placed, DeriveFault>;

/// Returns whether an external has neither an entry nor a public; false if there is no such external.
fn is_undefined(outcome: Option<Outcome>) -> bool
    ensures { result ≡ is_undefined outcome }
{
    match outcome {
        Some(Err(DeriveFault::Undefined { .. })) => true,
        Some(Err(DeriveFault::Memory)) => false,
        Some(Err(DeriveFault::Twice { .. })) => false,
        Some(Err(DeriveFault::TooHigh { .. })) => false,
        Some(Ok(_)) => false,
        None => false,
    }
}

/// Returns the place that a default gives: its own, or any if its own is too high, which is a fault of the default.
fn default_place(outcome: Option<Outcome>) -> Option<Placed>
    ensures { result ≡ default_place outcome }
{
    match outcome {
        Some(Ok(place)) => Some(place),
        Some(Err(DeriveFault::TooHigh { .. })) => Some(Placed {
            address: 0,
            frame: Frame {
                base: 0,
                selector: 0,
            },
        }),
        Some(Err(DeriveFault::Memory)) => None,
        Some(Err(DeriveFault::Twice { .. })) => None,
        Some(Err(DeriveFault::Undefined { .. })) => None,
        None => None,
    }
}

/// Returns the entry that a pair of this module makes, by the outcomes of the module's externals.
fn pair_given(module: u32, outcomes: &[Outcome], pair: WeakPair) -> Option<Given>
    ensures { result ≡ pair_given «module» outcomes.now pair }
{
    if !is_undefined(entry_of(outcomes, usize::from(pair.weak))) {
        return None;
    }
    let place = default_place(entry_of(outcomes, usize::from(pair.substitute)))?;
    Some(Given {
        module,
        external: pair.weak,
        address: place.address,
        frame: place.frame,
    })
}

/// The place of an external with this name: the given one, or else that of the only public with its name.
fn external_place<'a>(
    table: &PublicTable<'a>,
    given: &GivenTable,
    name: &'a [u8],
    module: u32,
    external: u16,
) -> Result<Placed, DeriveFault>
    ensures { (among : List PlacedPublic) (entries : List Entry) → IsTable table.now.by_name among → IsGivenTable given.now.by_external entries → result ≡ external_place among entries «module» external name.now }
{
    match given.place_of(module, external) {
        Some(place) => Ok(place),
        None => table.place_of(name, module, external),
    }
}

/// The place of an external with this name, by the publics that it can refer to: those of its own module if it is local, else all.
fn visible_place<'a>(
    all: &PublicTable<'a>,
    own: &PublicTable<'a>,
    given: &GivenTable,
    name: &'a [u8],
    local: bool,
    module: u32,
    external: u16,
) -> Result<Placed, DeriveFault>
    ensures { (among : Bool → List PlacedPublic) (entries : List Entry) → IsTable all.now.by_name (among false) → IsTable own.now.by_name (among true) → IsGivenTable given.now.by_external entries → result ≡ external_place (among local) entries «module» external name.now }
{
    if local {
        external_place(own, given, name, module, external)
    } else {
        external_place(all, given, name, module, external)
    }
}

/// Returns the outcomes of the externals of the module with this number, in order.
fn outcomes_of<'a>(
    alloc: Global,
    all: &PublicTable<'a>,
    own: &PublicTable<'a>,
    given: &GivenTable,
    module: &'a Checked,
    number: u32,
) -> Result<Vec<Outcome>, AllocError>
    ensures { (among : Bool → List PlacedPublic) (entries : List Entry) → IsTable all.now.by_name (among false) → IsTable own.now.by_name (among true) → IsGivenTable given.now.by_external entries → IfOk result (λ v. v.items ≡ external_places among entries number (recs_of «module».entry.now.bytes)) }
{
    let mut outcomes = Vec::new(alloc);
    for i in 1..module.externals() + 1 {
        let local = module.local(i).unwrap_or(false);
        let outcome = match module.external(i) {
            Some(name) => visible_place(all, own, given, name.0, local, number, i),
            None => unreachable!(),
        };
        outcomes.push(outcome)?;
    }
    Ok(outcomes)
}

/// Appends the entries that these pairs of the module with this number make.
fn put_pairs(
    entries: &mut Vec<Given>,
    number: u32,
    outcomes: &[Outcome],
    pairs: &[WeakPair],
) -> Result<(), AllocError>
    ensures { OnOk result (entries.new.items ≡ entries.old.items ++ filter_map (pair_given number outcomes.now) pairs.now) }
{
    for pair in pairs {
        if let Some(entry) = pair_given(number, outcomes, *pair) {
            entries.push(entry)?;
        }
    }
    Ok(())
}

/// The publics of all modules that are not local, and the given places.
#[derive(Drop)]
struct Known<'a> {
    /// The publics.
    all: PublicTable<'a>,
    /// The given places.
    given: GivenTable,
}

/// Appends the entries of the weak externals of the module with this number.
fn put_module<'a>(
    alloc: Global,
    entries: &mut Vec<Given>,
    known: &Known<'a>,
    module: &'a Checked,
    place: &Placement,
    number: u32,
) -> Result<(), AllocError>
    ensures { (ms : List PlacedModule) (given : List Entry) → (m : PlacedModule) → m ≡ (recs_of «module».entry.now.bytes, place.now) → IsTable known.now.all.by_name (seen_publics ms m false) → IsGivenTable known.now.given.by_external given → OnOk result (entries.new.items ≡ entries.old.items ++ weak_in ms given (number, m)) }
{
    let pairs = weak_pairs(alloc, module)?;
    if pairs.is_empty() {
        return Ok(());
    }
    let own = PublicTable::of_locals(alloc, module, place)?;
    let outcomes = outcomes_of(alloc, &known.all, &own, &known.given, module, number)?;
    put_pairs(entries, number, &outcomes, &pairs)
}

/// Returns whether some module has a pair.
pub(crate) fn has_pairs(alloc: Global, modules: &[Checked]) -> Result<bool, AllocError>
    ensures { IfOk result (λ b. b ≡ false → flat_map weak_pairs (typed_modules modules.now) ≡ []) }
{
    for module in modules {
        let pairs = weak_pairs(alloc, module)?;
        if !pairs.is_empty() {
            return Ok(true);
        }
    }
    Ok(false)
}

/// Returns entries for externals, and after them one for each weak external that has neither an entry nor a public, at the place of its
/// default: the external that a comment of class A8H or A9H pairs with it (TIS OMF 1.1, "COMENT"), if that has an entry or the only public
/// of its name. So `derive` with these entries resolves weak externals. A pair with an index that the module does not have makes no
/// entry. There must be one of `places` for each module, and fewer than 2^32 modules.
///
/// # Errors
///
/// `AllocError` if memory runs out.
pub fn with_weak(
    alloc: Global,
    modules: &[Checked],
    places: &[Placement],
    given: &[Given],
) -> Result<Vec<Given>, AllocError>
    requires few { length modules.now < 2 ^ 32 }
    requires placed { length places.now ≡ length modules.now }
    ensures { IfOk result (λ v. v.items ≡ with_weak (placed_modules modules.now places.now) given.now) }
{
    let mut entries = given.to_vec(alloc)?;
    if !has_pairs(alloc, modules)? {
        return Ok(entries);
    }
    let known = Known {
        all: PublicTable::of(alloc, modules, places)?,
        given: GivenTable::of(alloc, given)?,
    };
    for (j, module) in modules.iter().enumerate() {
        put_module(alloc, &mut entries, &known, module, &places[j], j as u32)?;
    }
    Ok(entries)
}

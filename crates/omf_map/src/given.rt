//! The addresses of modules by a text, which need not give each entry a place.

ghost use Rattle.std.specs.Prelude.{◌≡◌, ◌<◌, ◌^◌, Bool, IfOk, List, true, false, filter_map, length, map, string_bytes, zip};
ghost use Rattle.omf_check.specs.Module.{recs_of, typed_modules};
ghost use Rattle.omf_check.specs.Tables.{entry};
ghost use Rattle.omf_placement.specs.Derive.{named_externals};
ghost use Rattle.omf_placement.specs.Weak.{weak_pairs};
ghost use Rattle.omf_map.specs.Inner.PublicAddresses.{IsTable};
ghost use Rattle.omf_map.specs.Addresses.{NamedAddress, addressed_by, addresses_given, all_given, external_given, externals_given, for_missing, is_missing, is_unnamed, named_address, of_name, or_default, place_or, with_defaults};
ghost use Rattle.omf_map.specs.MapText.{map_text};

use crate::addresses::{Addresses, given_addresses, known_at};
use crate::listing::addressed_text;
use crate::publics::PublicAddresses;
use omf_check::Checked;
use omf_externals::{External, Spot, external_at};
use omf_linking::locator::Sparse;
use omf_placement::{Placed, WeakPair, weak_pairs};
use std::alloc::{AllocError, Global};

/// The address of a place, or else this one.
fn place_or(place: Option<Placed>, address: Option<u64>) -> Option<u64>
    ensures { result ≡ place_or place address }
{
    match place {
        Some(place) => Some(u64::from(place.address)),
        None => address,
    }
}

/// The address of the one public that an external sees: among the publics of all modules, or if it is local among those of its module.
fn seen_address<'a>(
    all: &PublicAddresses<'a>,
    own: &PublicAddresses<'a>,
    external: &External<'a>,
) -> Option<u64>
    ensures { (among : Bool → List NamedAddress) → IsTable all.now.by_name (among false) → IsTable own.now.by_name (among true) → result ≡ named_address (among external.now.local) external.now.name.now }
{
    if external.local {
        own.address(external.name)
    } else {
        all.address(external.name)
    }
}

/// The address of an external: that which the text gives it, or else that of the one public of its name.
fn external_address<'a>(
    all: &PublicAddresses<'a>,
    own: &PublicAddresses<'a>,
    given: &Sparse,
    external: &External<'a>,
) -> Option<u64>
    ensures { (among : Bool → List NamedAddress) → IsTable all.now.by_name (among false) → IsTable own.now.by_name (among true) → result ≡ external_given among given.now (external.now.spot.external, (external.now.name.now, external.now.local)) }
{
    let place = given.external(external.spot.external);
    place_or(place, seen_address(all, own, external))
}

/// The addresses of the externals of a module.
fn external_addresses<'a>(
    alloc: Global,
    all: &PublicAddresses<'a>,
    own: &PublicAddresses<'a>,
    module: &'a Checked,
    given: &Sparse,
) -> Result<Vec<Option<u64>>, AllocError>
    ensures { (among : Bool → List NamedAddress) → IsTable all.now.by_name (among false) → IsTable own.now.by_name (among true) → IfOk result (λ v. v.items ≡ externals_given among (recs_of «module».entry.now.bytes, given.now)) }
{
    let mut addresses = Vec::new(alloc);
    for before in 0..module.externals() {
        let spot = Spot {
            module: 0,
            external: before + 1,
        };
        let external = external_at(module, spot);
        addresses.push(external_address(all, own, given, &external))?;
    }
    Ok(addresses)
}

/// Whether no public that an external sees has its name.
fn lacks<'a>(all: &PublicAddresses<'a>, own: &PublicAddresses<'a>, external: External<'a>) -> bool
    ensures { (among : Bool → List NamedAddress) → IsTable all.now.by_name (among false) → IsTable own.now.by_name (among true) → result ≡ is_unnamed (filter_map (of_name external.entry.name.now) (among external.entry.local)) }
{
    if external.local {
        own.lacks(external.name)
    } else {
        all.lacks(external.name)
    }
}

/// Whether the text gives an external no place, and no public that it sees has its name; false if the module has no external with this index.
fn is_missing<'a>(
    all: &PublicAddresses<'a>,
    own: &PublicAddresses<'a>,
    given: &Sparse,
    module: &'a Checked,
    external: u16,
) -> bool
    ensures { (among : Bool → List NamedAddress) → IsTable all.now.by_name (among false) → IsTable own.now.by_name (among true) → result ≡ is_missing among given.now external (entry (named_externals (recs_of «module».entry.now.bytes)) external) }
{
    if external == 0 {
        return false;
    }
    if external > module.externals() {
        return false;
    }
    if given.external(external).is_some() {
        return false;
    }
    let spot = Spot {
        module: 0,
        external,
    };
    lacks(all, own, external_at(module, spot))
}

/// Copies addresses.
fn copied(alloc: Global, addresses: &[Option<u64>]) -> Result<Vec<Option<u64>>, AllocError>
    ensures { IfOk result (λ v. v.items ≡ addresses.now) }
{
    let mut copy = Vec::new(alloc);
    for address in addresses {
        copy.push(*address)?;
    }
    Ok(copy)
}

/// Gives a weak external the address of its default, if it has none.
fn or_default(addresses: &mut Vec<Option<u64>>, first: &[Option<u64>], pair: WeakPair)
    ensures { addresses.new.items ≡ or_default first.now addresses.old.items pair }
{
    if known_at(addresses, pair.weak).is_some() {
        return;
    }
    let index = usize::from(pair.weak).saturating_sub(1);
    if index < addresses.len() {
        addresses[index] = known_at(first, pair.substitute);
    }
}

/// Gives a weak external the address of its default, if it is missing and has none.
fn for_missing<'a>(
    addresses: &mut Vec<Option<u64>>,
    all: &PublicAddresses<'a>,
    own: &PublicAddresses<'a>,
    module: &'a Checked,
    given: &Sparse,
    first: &[Option<u64>],
    pair: WeakPair,
)
    ensures { (among : Bool → List NamedAddress) → IsTable all.now.by_name (among false) → IsTable own.now.by_name (among true) → addresses.new.items ≡ for_missing among (recs_of «module».entry.now.bytes, given.now) first.now addresses.old.items pair }
{
    if is_missing(all, own, given, module, pair.weak) {
        or_default(addresses, first, pair);
    }
}

/// The addresses of the externals of a module, each weak one that is missing with that of its default.
fn with_defaults<'a>(
    alloc: Global,
    all: &PublicAddresses<'a>,
    own: &PublicAddresses<'a>,
    module: &'a Checked,
    given: &Sparse,
    first: Vec<Option<u64>>,
) -> Result<Vec<Option<u64>>, AllocError>
    ensures { (among : Bool → List NamedAddress) → IsTable all.now.by_name (among false) → IsTable own.now.by_name (among true) → IfOk result (λ v. v.items ≡ with_defaults among (recs_of «module».entry.now.bytes, given.now) first.items (weak_pairs (recs_of «module».entry.now.bytes)) first.items) }
{
    let pairs = weak_pairs(alloc, module)?;
    let mut addresses = copied(alloc, &first)?;
    for pair in &pairs {
        for_missing(&mut addresses, all, own, module, given, &first, *pair);
    }
    Ok(addresses)
}

/// The addresses of a module; `all` has the publics of all modules.
fn module_addresses<'a>(
    alloc: Global,
    all: &PublicAddresses<'a>,
    module: &'a Checked,
    given: &Sparse,
) -> Result<Addresses, AllocError>
    ensures { (publics : List NamedAddress) → IsTable all.now.by_name publics → IfOk result (λ a. a ≡ addresses_given publics (recs_of «module».entry.now.bytes, given.now)) }
{
    let segments = given_addresses(alloc, given.segments())?;
    let own = PublicAddresses::of_locals(alloc, module, &segments)?;
    let first = external_addresses(alloc, all, &own, module, given)?;
    let externals = with_defaults(alloc, all, &own, module, given, first)?;
    let stored = given.stored().to_vec(alloc)?;
    Ok(Addresses::new(segments, stored, externals))
}

/// The addresses of modules.
fn all_addresses(
    alloc: Global,
    modules: &[Checked],
    given: &[Sparse],
) -> Result<Vec<Addresses>, AllocError>
    requires { length given.now ≡ length modules.now }
    ensures addresses { IfOk result (λ v. v.items ≡ map (addresses_given (all_given (typed_modules modules.now) given.now)) (zip (typed_modules modules.now) given.now)) }
    ensures each { IfOk result (λ v. length v.items ≡ length modules.now) }
{
    let all = PublicAddresses::of(alloc, modules, given)?;
    let mut addresses = Vec::new(alloc);
    for (j, module) in modules.iter().enumerate() {
        addresses.push(module_addresses(alloc, &all, module, &given[j])?)?;
    }
    Ok(addresses)
}

/// The map of modules by what a text gives them, in the form of `map_text`; the line of a segment that is stored elsewhere ends with `at` and
/// that address. An external has the address that the text gives it, or else that
/// of the one public of its name; a weak one without a public that of its default. A segment without a place in the text has no address, and neither has a public of it, nor an external for whose
/// name no public or more than one is found: they have a dash.
///
/// # Errors
///
/// `AllocError` if memory runs out.
pub fn given_text(
    alloc: Global,
    modules: &[Checked],
    given: &[Sparse],
) -> Result<String, AllocError>
    requires { length given.now ≡ length modules.now }
    ensures { IfOk result (λ text. string_bytes text ≡ map_text (addressed_by (typed_modules modules.now) given.now)) }
{
    let addresses = all_addresses(alloc, modules, given)?;
    addressed_text(alloc, modules, &addresses)
}

//! The placements of several modules.

ghost use Rattle.std.specs.Prelude.{◌≡◌, ◌++◌, ◌<◌, ◌^◌, [], OnOk, IfErr, IfOk, length, option_to_list, zip};
ghost use Rattle.omf_check.specs.Module.{recs_of, typed_modules};
ghost use Rattle.omf_records.specs.Inner.Seen.{map_ok};
ghost use Rattle.omf_reloc.specs.declared.fault.Kind.TheVariants.{Segment};
ghost use Rattle.omf_linking.specs.Locator.Sparse.{bad_lines};
ghost use Rattle.omf_linking.specs.Placing.{IsOutcome, all_given, all_stored, frame_given, given_as, given_in, given_of, linked, or_missing, places_given, places_of, stored_by, stored_place, stored_places, stored_segment};
ghost use Rattle.omf_linking.specs.declared.fault.LinkFault.TheVariants.{Memory};

use crate::fault::LinkFault;
use crate::locator::{Sparse, sparse_places};
use omf_check::Checked;
use omf_placement::{Frame, Given, Placed, Placement, derive, real_group, with_weak};
use omf_reloc::{Kind, ReachFault};
use std::alloc::{AllocError, Global};

/// Returns the places of a module's segments.
///
/// # Errors
///
/// `Reach` for the first segment without a place; or `Memory`.
fn segments_given(
    alloc: Global,
    number: u32,
    places: &[Option<Placed>],
) -> Result<Vec<Placed>, LinkFault>
    requires { length places.now < 2 ^ 16 }
    ensures { IsOutcome (or_missing number Segment (all_given 1 places.now)) (map_ok (λ v. v.items) result) }
{
    let mut segments = Vec::new(alloc);
    for (k, place) in places.iter().enumerate() {
        let Some(place) = *place else {
            let fault = ReachFault::Missing(Kind::Segment, k as u16 + 1);
            return Err(LinkFault::Reach {
                module: number,
                fault,
            });
        };
        segments.push(place)?;
    }
    Ok(segments)
}

/// Returns the frame of a group by what a text gives it.
fn frame_given(
    module: &Checked,
    placement: &Placement,
    index: u16,
    given: Option<Option<Frame>>,
) -> Option<Frame>
    ensures { result ≡ frame_given (recs_of «module».now.bytes) placement.now.segments (index, given) }
{
    match given? {
        Some(frame) => Some(frame),
        None => real_group(module, placement, index),
    }
}

/// Returns the places of a module's segments and groups by what a text gives them.
///
/// # Errors
///
/// `Reach` for the first segment without a place, or else the first group without a frame; or `Memory`.
fn places_given(
    alloc: Global,
    number: u32,
    module: &Checked,
    given: &Sparse,
) -> Result<Placement, LinkFault>
    ensures { IsOutcome (places_given number (recs_of «module».now.bytes) given.now) result }
{
    let segments = segments_given(alloc, number, given.segments())?;
    let mut placement = Placement::of(segments, Vec::new(alloc), Vec::new(alloc));
    let groups = given.groups();
    for (k, frame) in groups.iter().enumerate() {
        let index = k as u16 + 1;
        let Some(frame) = frame_given(module, &placement, index, *frame) else {
            let fault = ReachFault::Missing(Kind::Group, index);
            return Err(LinkFault::Reach {
                module: number,
                fault,
            });
        };
        placement.push_group(frame)?;
    }
    Ok(placement)
}

/// Returns the places of modules by what a text gives each of them.
///
/// # Errors
///
/// `Reach` for the first module with an entry that has no place; or `Memory`.
fn places_of(
    alloc: Global,
    modules: &[Checked],
    given: &[Sparse],
) -> Result<Vec<Placement>, LinkFault>
    requires few { length modules.now < 2 ^ 32 }
    requires each { length given.now ≡ length modules.now }
    ensures { IsOutcome (places_of 0 (zip (typed_modules modules.now) given.now)) (map_ok (λ v. v.items) result) }
{
    let mut places = Vec::new(alloc);
    for (j, module) in modules.iter().enumerate() {
        let place = places_given(alloc, j as u32, module, &given[j])?;
        places.push(place)?;
    }
    Ok(places)
}

/// Adds an external of a module, if a text gives it a place.
fn add_external(
    given: &mut Vec<Given>,
    module: u32,
    external: u16,
    place: Option<Placed>,
) -> Result<(), AllocError>
    ensures { OnOk result (given.new.items ≡ given.old.items ++ option_to_list (given_as «module» (external, place))) }
{
    let Some(place) = place else {
        return Ok(());
    };
    given.push(Given {
        module,
        external,
        address: place.address,
        frame: place.frame,
    })?;
    Ok(())
}

/// Adds the externals of a module that a text gives a place.
fn add_externals(given: &mut Vec<Given>, number: u32, sparse: &Sparse) -> Result<(), AllocError>
    ensures { OnOk result (given.new.items ≡ given.old.items ++ given_in (number, sparse.now)) }
{
    let places = sparse.externals();
    for (k, place) in places.iter().enumerate() {
        add_external(given, number, k as u16 + 1, *place)?;
    }
    Ok(())
}

/// Returns the externals that a text gives a place.
fn given_of(alloc: Global, sparse: &[Sparse]) -> Result<Vec<Given>, AllocError>
    requires { length sparse.now < 2 ^ 32 }
    ensures { IfOk result (λ v. v.items ≡ given_of sparse.now) }
{
    let mut given = Vec::new(alloc);
    for (j, one) in sparse.iter().enumerate() {
        add_externals(&mut given, j as u32, one)?;
    }
    Ok(given)
}

/// Returns where a segment is stored, if it runs at a place.
fn stored_place(place: Placed, stored: Option<u32>) -> Placed
    ensures { result ≡ stored_place place stored }
{
    match stored {
        Some(address) => Placed {
            address,
            frame: place.frame,
        },
        None => place,
    }
}

/// Adds where the segment with an index, from 1, is stored, if it has a place.
fn add_stored(
    segments: &mut Vec<Placed>,
    placement: &Placement,
    index: usize,
    stored: Option<u32>,
) -> Result<(), AllocError>
    ensures { OnOk result (segments.new.items ≡ segments.old.items ++ option_to_list (stored_segment placement.now.segments (index, stored))) }
{
    let Some(place) = placement.segment(index) else {
        return Ok(());
    };
    segments.push(stored_place(place, stored))?;
    Ok(())
}

/// Returns where the segments of a module are stored, by what a text gives them and by where they run.
fn stored_places(
    alloc: Global,
    given: &Sparse,
    placement: &Placement,
) -> Result<Placement, AllocError>
    ensures { IfOk result (λ p. p ≡ stored_places (given.now, placement.now)) }
{
    let mut segments = Vec::new(alloc);
    let stored = given.stored();
    for (k, address) in stored.iter().enumerate() {
        add_stored(&mut segments, placement, k + 1, *address)?;
    }
    Ok(Placement::of(segments, Vec::new(alloc), Vec::new(alloc)))
}

/// Returns where the segments of modules are stored.
fn all_stored(
    alloc: Global,
    sparse: &[Sparse],
    placements: &[Placement],
) -> Result<Vec<Placement>, AllocError>
    requires { length placements.now ≡ length sparse.now }
    ensures all { IfOk result (λ v. v.items ≡ all_stored sparse.now placements.now) }
    ensures each { IfOk result (λ v. length v.items ≡ length sparse.now) }
{
    let mut stored = Vec::new(alloc);
    for (j, given) in sparse.iter().enumerate() {
        stored.push(stored_places(alloc, given, &placements[j])?)?;
    }
    Ok(stored)
}

/// Where a text puts modules.
#[derive(Drop)]
pub struct LinkedPlaces {
    /// The placement of each module, where it runs.
    pub placements: Vec<Placement>,
    /// Where the segments of each module are stored, as a placement without groups and externals.
    pub stored: Vec<Placement>,
}

/// Returns the placements of modules by a text: segments, groups and externals at the places that `sparse_places` finds in it; each other
/// external at that of the one public of its name, as `derive` finds it; a weak one without a public at that of its default, as `with_weak`
/// finds it. And where the segments are stored: at the address after `at` in the line of a segment, or else where they run.
///
/// # Errors
///
/// The first of: `NoModules` if there is none; `Line` for a line that does not fit, as in `sparse_places`; `Reach`, with `Missing`, for the
/// first module with a segment without a place, or a group without a frame: one that has no line, or that has a line `real` and no lowest
/// member; `External` for an external without a place. `Memory` if memory runs out, only if every line is understood.
pub fn link(alloc: Global, modules: &[Checked], text: &[u8]) -> Result<LinkedPlaces, LinkFault>
    requires { length modules.now < 2 ^ 32 }
    ensures placements { IsOutcome (linked (typed_modules modules.now) text.now) (map_ok (λ l. l.placements.items) result) }
    ensures stored { IfOk result (λ l. l.stored.items ≡ stored_by (typed_modules modules.now) text.now l.placements.items) }
    ensures lines { IfErr result (λ fault. fault ≡ Memory → bad_lines text.now ≡ []) }
    ensures each { IfOk result (λ l. length l.placements.items ≡ length modules.now) }
    ensures each_stored { IfOk result (λ l. length l.stored.items ≡ length modules.now) }
{
    if modules.is_empty() {
        return Err(LinkFault::NoModules);
    }
    let sparse = sparse_places(alloc, modules, text)?;
    let places = places_of(alloc, modules, &sparse)?;
    let by_hand = given_of(alloc, &sparse)?;
    let given = with_weak(alloc, modules, &places, &by_hand)?;
    let placements = derive(alloc, modules, &places, &given)?;
    let stored = all_stored(alloc, &sparse, &placements)?;
    Ok(LinkedPlaces { placements, stored })
}

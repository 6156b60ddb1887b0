//! What moves of modules that are laid out together and whose externals are derived.

ghost use Rattle.std.specs.Prelude.{◌≡◌, List, IfOk, length, map, zip};
ghost use Rattle.std.specs.List.{enumerate_from};
ghost use Rattle.omf_check.specs.Module.{recs_of, typed_modules};
ghost use Rattle.omf_placement.specs.Derive.{placed_modules};
ghost use Rattle.omf_placement.specs.Inner.Linkage.{IsLinkage};
ghost use Rattle.omf_output.specs.Exe.Derived.{AreMovers, IsLowTable, Named, bases_in};
ghost use Rattle.omf_output.specs.Inner.Referred.{completed, linked_externals};

use crate::exe::groups::{LowTable, segments_moving};
use crate::exe::movers::{Movers, Moving};
use crate::exe::referred::DefaultTable;
use omf_check::Checked;
use omf_placement::{Linkage, Placement};
use std::alloc::{AllocError, Global};

/// What moves of a module, without its externals.
fn bases_of<'a>(
    alloc: Global,
    table: &LowTable<'a>,
    module: &'a Checked,
) -> Result<Movers, AllocError>
    ensures { (ls : List Named) → IsLowTable table.now.by_name ls → IfOk result (λ m. m ≡ bases_in ls (recs_of «module».entry.now.bytes)) }
{
    let segments = segments_moving(alloc, module)?;
    let groups = table.names_moving(alloc, module)?;
    Ok(Movers::of(segments, groups, Vec::new(alloc)))
}

/// What moves of all modules, without their externals.
fn all_bases<'a>(
    alloc: Global,
    table: &LowTable<'a>,
    modules: &'a [Checked],
) -> Result<Vec<Movers>, AllocError>
    ensures { (ls : List Named) → IsLowTable table.now.by_name ls → IfOk result (λ v. v.items ≡ map (bases_in ls) (typed_modules modules.entry.now)) }
{
    let mut bases = Vec::with_capacity(alloc, modules.len())?;
    for module in modules {
        bases.push(bases_of(alloc, table, module)?)?;
    }
    Ok(bases)
}

/// How the externals of the module with this number move, by what moves of the segments and groups of all modules.
fn externals_of(
    alloc: Global,
    bases: &[Movers],
    linkage: &Linkage,
    module: &Checked,
    number: usize,
) -> Result<Vec<Moving>, AllocError>
    ensures { IfOk result (λ v. v.items ≡ linked_externals bases.now linkage.now.links (number, recs_of «module».now.bytes)) }
{
    let defaults = DefaultTable::of(alloc, bases, linkage, module, number)?;
    let mut moving = Vec::with_capacity(alloc, usize::from(module.externals()))?;
    for before in 0..module.externals() {
        let external = before + 1;
        let definer = linkage.definer(number, external);
        moving.push(defaults.moving_of(bases, definer, external))?;
    }
    Ok(moving)
}

/// How the externals of all modules move.
fn all_externals(
    alloc: Global,
    bases: &[Movers],
    linkage: &Linkage,
    modules: &[Checked],
) -> Result<Vec<Vec<Moving>>, AllocError>
    ensures { IfOk result (λ v. map (λ e. e.items) v.items ≡ map (linked_externals bases.now linkage.now.links) (enumerate_from 0 (typed_modules modules.now))) }
{
    let mut all = Vec::with_capacity(alloc, modules.len())?;
    for (j, module) in modules.iter().enumerate() {
        all.push(externals_of(alloc, bases, linkage, module, j)?)?;
    }
    Ok(all)
}

/// What moves of all modules, with their externals.
fn with_externals(
    alloc: Global,
    bases: Vec<Movers>,
    externals: Vec<Vec<Moving>>,
) -> Result<Vec<Movers>, AllocError>
    requires { length externals.items ≡ length bases.items }
    ensures { IfOk result (λ v. v.items ≡ map completed (zip bases.items (map (λ e. e.items) externals.items))) }
{
    let mut movers = Vec::with_capacity(alloc, bases.len())?;
    let mut left = externals.into_iter();
    for of_module in bases {
        let Some(own) = left.next() else {
            unreachable!()
        };
        movers.push(of_module.with_externals(own))?;
    }
    Ok(movers)
}

/// What moves of modules that are laid out together, each with its place in `places`, and whose externals are derived:
///
/// - a segment, unless it is absolute;
/// - a group, if of the members of the groups of its name, over all modules, the one with the lowest frame moves;
/// - an external as the only public that it refers to: its address as the segment of the public does, and its frame as the group does, or
///   the segment if there is no group (TIS OMF 1.1, "PUBDEF"). A weak one that refers to no public moves as its default: that of the first
///   pair for it whose default refers to a single public. Any other does not move: it has no place.
///
/// There must be one of `places` for each module; `linkage` is that of the modules.
///
/// # Errors
///
/// `AllocError` if memory runs out.
pub fn movers_of(
    alloc: Global,
    linkage: &Linkage,
    modules: &[Checked],
    places: &[Placement],
) -> Result<Vec<Movers>, AllocError>
    requires linked { IsLinkage (typed_modules modules.now) linkage.now }
    requires placed { length places.now ≡ length modules.now }
    ensures { IfOk result (λ v. AreMovers (typed_modules modules.now) (placed_modules modules.now places.now) v.items) }
{
    let table = LowTable::of(alloc, modules, places)?;
    let bases = all_bases(alloc, &table, modules)?;
    let externals = all_externals(alloc, &bases, linkage, modules)?;
    with_externals(alloc, bases, externals)
}

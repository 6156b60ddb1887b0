//! Segments that are sure by themselves.

ghost use Rattle.std.specs.Prelude.{◌≡◌, ◌⊎◌, ◌++◌, ◌<◌, ℕ, All, Contains, IfOk, OnOk, false, filter_map, length, min, nat_le, true};
ghost use Rattle.std.specs.List.{AllZip};
ghost use Rattle.std.specs.List.Sorted.{IsNonDecreasingBy, IsPermutation};
ghost use Rattle.omf_check.specs.Module.{recs_of};
ghost use Rattle.omf_finding.specs.Chain.{enough};
ghost use Rattle.omf_finding.specs.Inner.Shaping.{HasShapes};
ghost use Rattle.omf_finding.specs.Inner.Singling.{AreApart, AreShapesOf, AreSingles, HaveSingles, IsAdded, IsStep, IsUnrivaledAmong, has_key, pushed, single_with};
ghost use Rattle.omf_finding.specs.declared.program.Program.{Program};

use crate::chaining::enough;
use crate::shapes::Shape;
use omf_check::Checked;
use std::alloc::{AllocError, Global};
use std::collections::BTreeSet;

/// How many closed bytes at least differ from the one before: a row of zeros may be anywhere.
const LEAST_VARIED: usize = 8;

/// A segment whose closed bytes, enough of them, are at one place of the program.
#[derive(Clone, Copy, Drop)]
struct Single {
    /// The address of its first byte of data, and the one after its last.
    start: u64,
    end: u64,
    /// Its address.
    address: u32,
    /// Its module, from 0, and the segment, from 1.
    owner: usize,
    segment: u16,
    /// The number of its closed bytes.
    closed: usize,
}

/// The segments whose closed bytes, enough of them, are at one place of the program.
#[derive(Drop)]
pub(crate) struct Singles {
    /// The address, the module and the segment of each, in ascending order.
    by_address: Vec<(u32, usize, u16)>,
    /// The modules and the segments of those whose data no other one with as many closed bytes overlaps.
    pub(crate) alone: BTreeSet<(usize, u16)>,
}

/// Whether the closed bytes of a segment with one place vary enough, where this many are enough.
pub(crate) fn is_varied(shape: &Shape, enough: usize) -> bool
    ensures { result ≡ nat_le (min enough 8) shape.now.varied }
{
    shape.varied >= enough.min(LEAST_VARIED)
}

/// A segment of a module with this number, if its closed bytes, enough of them, are at one place.
fn single_of(owner: usize, module: &Checked, shape: &Shape, least: usize) -> Option<Single>
    ensures { result ≡ single_with owner (enough least (recs_of «module».now.bytes) shape.now.segment) shape.now }
{
    let address = shape.single_place()?;
    let enough = enough(module, shape.segment, least);
    if shape.closed < enough || !is_varied(shape, enough) {
        return None;
    }
    let (start, end) = shape.extent(address);
    if start >= end {
        return None;
    }
    Some(Single {
        start,
        end,
        address,
        owner,
        segment: shape.segment,
        closed: shape.closed,
    })
}

/// Appends a segment, if there is one.
fn push_single(all: &mut Vec<Single>, single: Option<Single>) -> Result<(), AllocError>
    ensures { OnOk result (all.new.items ≡ pushed all.old.items single) }
{
    if let Some(single) = single {
        all.push(single)?;
    }
    Ok(())
}

/// Appends those of a module with this number.
fn add_all(
    all: &mut Vec<Single>,
    owner: usize,
    module: &Checked,
    shapes: &[Shape],
    least: usize,
) -> Result<(), AllocError>
    ensures { OnOk result (all.new.items ≡ all.old.items ++ filter_map (λ s. single_with owner (enough least (recs_of «module».now.bytes) s.segment) s) shapes.now) }
{
    for shape in shapes {
        push_single(all, single_of(owner, module, shape, least))?;
    }
    Ok(())
}

/// Those of all modules.
fn singles_of(
    alloc: Global,
    modules: &[Checked],
    shapes: &[Vec<Shape>],
    least: usize,
) -> Result<Vec<Single>, AllocError>
    requires { AreShapesOf modules.now shapes.now }
    ensures have { IfOk result (λ v. HaveSingles least modules.now shapes.now (length modules.now) v.items) }
    ensures apart { IfOk result (λ v. AreApart v.items) }
{
    let mut all = Vec::new(alloc);
    for owner in 0..modules.len() {
        add_all(&mut all, owner, &modules[owner], &shapes[owner], least)?;
    }
    Ok(all)
}

/// Segments in ascending order of their first byte.
fn by_start(all: Vec<Single>) -> Vec<Single>
    ensures same { IsPermutation all.items result.items }
    ensures rises { IsNonDecreasingBy (λ x. x.start) result.items }
{
    let mut all = all;
    all.sort_unstable_by_key(|single| single.start);
    all
}

/// A segment and whether another one with as many closed bytes overlaps its data.
#[derive(Clone, Copy, Drop)]
struct Rated {
    single: Single,
    is_rivaled: bool,
}

/// The one that counts of two that overlap: the one with more closed bytes.
fn stronger(before: Rated, next: Single) -> Rated
    ensures more { before.single.closed < next.closed → result ≡ record { single = next; is_rivaled = false } }
    ensures fewer { next.closed < before.single.closed → result ≡ before }
    ensures either { (result.single ≡ before.single) ⊎ (result.single ≡ next) }
{
    if next.closed > before.single.closed {
        return Rated {
            single: next,
            is_rivaled: false,
        };
    }
    Rated {
        single: before.single,
        is_rivaled: before.is_rivaled || next.closed == before.single.closed,
    }
}

/// Adds the module and the segment, if it has no rival.
fn add_alone(alone: &mut BTreeSet<(usize, u16)>, last: Option<Rated>) -> Result<(), AllocError>
    ensures { OnOk result (IsAdded alone.old alone.new last) }
{
    if let Some(last) = last
        && !last.is_rivaled
    {
        alone.insert((last.single.owner, last.single.segment))?;
    }
    Ok(())
}

/// The one that counts after the next segment. One that does not overlap the last one ends what may rival that one.
fn swept(
    alone: &mut BTreeSet<(usize, u16)>,
    last: Option<Rated>,
    next: Single,
) -> Result<Rated, AllocError>
    ensures { IfOk result (λ r. IsStep alone.old alone.new last next r) }
{
    match last {
        Some(before) if next.start < before.single.end => Ok(stronger(before, next)),
        _ => {
            add_alone(alone, last)?;
            Ok(Rated {
                single: next,
                is_rivaled: false,
            })
        }
    }
}

/// Those whose data no other one with as many closed bytes overlaps.
fn alone(alloc: Global, sorted: &[Single]) -> Result<BTreeSet<(usize, u16)>, AllocError>
    requires rises { IsNonDecreasingBy (λ x. x.start) sorted.now }
    requires apart { AreApart sorted.now }
    requires whole { All (λ x. x.start < x.end) sorted.now }
    ensures { IfOk result (λ s. (x : Single) → Contains sorted.now x → IsUnrivaledAmong sorted.now x → has_key s x.owner x.segment ≡ true) }
{
    let mut alone = BTreeSet::new(alloc);
    let mut last: Option<Rated> = None;
    for single in sorted {
        last = Some(swept(&mut alone, last, *single)?);
    }
    add_alone(&mut alone, last)?;
    Ok(alone)
}

/// The address, the module and the segment of each, in ascending order.
fn by_address(alloc: Global, all: &[Single]) -> Result<Vec<(u32, usize, u16)>, AllocError> {
    let mut by_address = Vec::with_capacity(alloc, all.len())?;
    for single in all {
        by_address.push((single.address, single.owner, single.segment))?;
    }
    by_address.sort_unstable();
    Ok(by_address)
}

impl Singles {
    /// Those of these modules.
    pub(crate) fn of(
        alloc: Global,
        modules: &[Checked],
        shapes: &[Vec<Shape>],
        least: usize,
    ) -> Result<Singles, AllocError>
        requires { AreShapesOf modules.now shapes.now }
        ensures { IfOk result (λ s. (program : Program) (most : ℕ) → AllZip (HasShapes program most) modules.now shapes.now → AreSingles program least modules.now shapes.now s.alone) }
    {
        let all = by_start(singles_of(alloc, modules, shapes, least)?);
        Ok(Singles {
            by_address: by_address(alloc, &all)?,
            alone: alone(alloc, &all)?,
        })
    }

    /// Whether no other one overlaps the data of this segment of a module, but such with fewer closed bytes.
    pub(crate) fn is_alone(&self, owner: usize, segment: u16) -> bool
        ensures { result ≡ has_key self.now.alone owner segment }
    {
        self.alone.contains(&(owner, segment))
    }

    /// The module of another segment than this one at an address; `None` if there is no other.
    pub(crate) fn other(&self, address: u32, owner: usize, segment: u16) -> Option<usize> {
        let first = self.by_address.partition_point(|single| single.0 < address);
        for single in self.by_address.get(first..)? {
            if single.0 != address {
                return None;
            }
            if (single.1, single.2) != (owner, segment) {
                return Some(single.1);
            }
        }
        None
    }
}

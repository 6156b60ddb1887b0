//! The externals that need no public: those with a place by hand, and weak ones that their default serves.

ghost use Rattle.std.specs.Prelude.{◌≡◌, ◌-◌, ◌++◌, ◌<◌, ◌^◌, [], ◌∷◌, Bool, IfOk, List, OnOk, true, false, filter, length, set, unwrap_or};
ghost use Rattle.omf_check.specs.Tables.{entry};
ghost use Rattle.omf_check.specs.Module.{recs_of, typed_modules};
ghost use Rattle.omf_linking.specs.Locator.Sparse.{Sparse as Given};
ghost use Rattle.omf_externals.specs.Unresolved.{IsByName, Row, all_rows, all_settled, given_marks, is_count, is_settled, rows_seen, seen_count, serves, serving, settled_in, spots_of, with_marks};

use crate::by_name::{ByName, External, Spot, external_at, is_given};
use omf_check::{Checked, entry_of};
use omf_linking::locator::Sparse;
use omf_placement::{WeakPair, weak_pairs};
use std::alloc::{AllocError, Global};
use std::marker::Model;

/// For each external of a module, in index order, whether it needs no public.
#[derive(Drop)]
pub(crate) struct Settled {
    marks: Vec<bool>,
}

impl Model for Settled {
    ghost use Rattle.std.specs.Prelude.{List, Bool};

    ghost Value = { List Bool };

    ghost view = { λ s. s.marks.items };
}

impl Settled {
    /// Returns whether the external with an index, from 1, needs no public.
    fn has(&self, external: u16) -> bool
        ensures { result ≡ unwrap_or (entry self.now external) false }
    {
        entry_of(&self.marks, usize::from(external)).unwrap_or(false)
    }
}

/// Returns whether an external of a module needs no public.
pub(crate) fn is_settled(settled: &[Settled], module: u32, external: u16) -> bool
    ensures { result ≡ is_settled settled.now «module» external }
{
    match settled.get(module as usize) {
        Some(own) => own.has(external),
        None => false,
    }
}

/// Returns for each external of the module with this number whether it has a place by hand.
pub(crate) fn given_marks(
    alloc: Global,
    by_hand: &[Sparse],
    number: u32,
    module: &Checked,
) -> Result<Vec<bool>, AllocError>
    ensures { IfOk result (λ v. v.items ≡ given_marks by_hand.now (number, recs_of «module».now.bytes)) }
{
    let mut marks = Vec::new(alloc);
    for before in 0..module.externals() {
        marks.push(is_given(by_hand, number, before + 1))?;
    }
    Ok(marks)
}

/// Returns how many publics an external sees.
fn count_of<'a>(publics: &ByName<'a>, own: &ByName<'a>, external: External<'a>) -> usize
    ensures { (among : Bool → List Row) → IsByName publics.now.spots (among false) → IsByName own.now.spots (among true) → result ≡ length (spots_of (among external.entry.local) external.entry.name.now) }
{
    if external.local {
        own.spots(external.name).len()
    } else {
        publics.spots(external.name).len()
    }
}

/// Returns how many publics an external sees; none if the module has no external with this index.
fn seen_count<'a>(
    publics: &ByName<'a>,
    own: &ByName<'a>,
    module: &'a Checked,
    external: u16,
) -> Option<usize>
    ensures { (among : Bool → List Row) → IsByName publics.now.spots (among false) → IsByName own.now.spots (among true) → result ≡ seen_count among (recs_of «module».entry.now.bytes) external }
{
    if external == 0 {
        return None;
    }
    if external > module.externals() {
        return None;
    }
    let spot = Spot {
        module: 0,
        external,
    };
    Some(count_of(publics, own, external_at(module, spot)))
}

/// Returns whether a count is this one.
fn is_count(wanted: usize, count: Option<usize>) -> bool
    ensures { result ≡ is_count wanted count }
{
    match count {
        Some(count) => count == wanted,
        None => false,
    }
}

/// Returns whether the default of a pair has a place and the weak external needs it.
fn serves<'a>(
    publics: &ByName<'a>,
    own: &ByName<'a>,
    given: &[bool],
    module: &'a Checked,
    pair: WeakPair,
) -> bool
    ensures { (among : Bool → List Row) → IsByName publics.now.spots (among false) → IsByName own.now.spots (among true) → result ≡ serves among given.now (recs_of «module».entry.now.bytes) pair }
{
    if !is_count(0, seen_count(publics, own, module, pair.weak)) {
        return false;
    }
    if entry_of(given, usize::from(pair.substitute)).unwrap_or(false) {
        return true;
    }
    is_count(1, seen_count(publics, own, module, pair.substitute))
}

/// Marks the external with this index, from 1.
fn put_mark(marks: &mut Vec<bool>, external: u16)
    ensures { marks.new.items ≡ set marks.old.items (external - 1) true }
{
    let index = usize::from(external).saturating_sub(1);
    if index < marks.len() {
        marks[index] = true;
    }
}

/// Appends a pair, if it serves.
fn put_serving<'a>(
    serving: &mut Vec<WeakPair>,
    publics: &ByName<'a>,
    own: &ByName<'a>,
    given: &[bool],
    module: &'a Checked,
    pair: WeakPair,
) -> Result<(), AllocError>
    ensures { (among : Bool → List Row) → IsByName publics.now.spots (among false) → IsByName own.now.spots (among true) → OnOk result (serving.new.items ≡ serving.old.items ++ filter (serves among given.now (recs_of «module».entry.now.bytes)) (pair ∷ [])) }
{
    if serves(publics, own, given, module, pair) {
        serving.push(pair)?;
    }
    Ok(())
}

/// Returns those of these pairs of a module that serve.
fn those_serving<'a>(
    alloc: Global,
    publics: &ByName<'a>,
    given: &[bool],
    number: u32,
    module: &'a Checked,
    pairs: &[WeakPair],
) -> Result<Vec<WeakPair>, AllocError>
    ensures { (rows : List Row) → IsByName publics.now.spots rows → IfOk result (λ v. v.items ≡ filter (serves (rows_seen rows (number, recs_of «module».entry.now.bytes)) given.now (recs_of «module».entry.now.bytes)) pairs.now) }
{
    let mut serving = Vec::new(alloc);
    let own = ByName::of_locals(alloc, number, module)?;
    for pair in pairs {
        put_serving(&mut serving, publics, &own, given, module, *pair)?;
    }
    Ok(serving)
}

/// Returns the pairs of the module with this number that serve: of a weak external without a public, and a default with a place by hand or
/// the one public of its name. `given` shows which externals of the module have a place by hand.
pub(crate) fn serving<'a>(
    alloc: Global,
    publics: &ByName<'a>,
    given: &[bool],
    number: u32,
    module: &'a Checked,
) -> Result<Vec<WeakPair>, AllocError>
    ensures { (rows : List Row) (by_hand : List Given) → IsByName publics.now.spots rows → given.now ≡ given_marks by_hand (number, recs_of «module».entry.now.bytes) → IfOk result (λ v. v.items ≡ serving rows by_hand (number, recs_of «module».entry.now.bytes)) }
{
    let pairs = weak_pairs(alloc, module)?;
    if pairs.is_empty() {
        return Ok(pairs);
    }
    those_serving(alloc, publics, given, number, module, &pairs)
}

/// Marks the weak externals of pairs.
fn put_marks(marks: &mut Vec<bool>, pairs: &[WeakPair])
    ensures { marks.new.items ≡ with_marks pairs.now marks.old.items }
{
    for pair in pairs {
        put_mark(marks, pair.weak);
    }
}

/// Returns which externals of the module with this number need no public.
fn settled_in<'a>(
    alloc: Global,
    publics: &ByName<'a>,
    by_hand: &[Sparse],
    number: u32,
    module: &'a Checked,
) -> Result<Settled, AllocError>
    ensures { (rows : List Row) → IsByName publics.now.spots rows → IfOk result (λ s. s ≡ settled_in rows by_hand.now (number, recs_of «module».entry.now.bytes)) }
{
    let mut marks = given_marks(alloc, by_hand, number, module)?;
    let pairs = serving(alloc, publics, &marks, number, module)?;
    put_marks(&mut marks, &pairs);
    Ok(Settled { marks })
}

/// Returns which externals of modules need no public; `publics` has those of all modules.
pub(crate) fn all_settled<'a>(
    alloc: Global,
    publics: &ByName<'a>,
    by_hand: &[Sparse],
    modules: &'a [Checked],
) -> Result<Vec<Settled>, AllocError>
    requires { length modules.now < 2 ^ 32 }
    ensures { IsByName publics.now.spots (all_rows (typed_modules modules.entry.now)) → IfOk result (λ v. v.items ≡ all_settled (typed_modules modules.entry.now) by_hand.now) }
{
    let mut settled = Vec::new(alloc);
    for (j, module) in modules.iter().enumerate() {
        settled.push(settled_in(alloc, publics, by_hand, j as u32, module)?)?;
    }
    Ok(settled)
}

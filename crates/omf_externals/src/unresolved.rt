//! The externals of several modules for which no public or more than one is found, as text.

ghost use Rattle.std.specs.Prelude.{◌≡◌, ◌++◌, ◌∷◌, [], ◌<◌, ◌^◌, Bool, IfOk, List, None, OnOk, Some, ℕ, codes, flat_map, length, map, string_bytes};
ghost use Rattle.std.specs.BTreeMap.{IsOrdered};
ghost use Rattle.std.specs.Cmp.Lexicographic.{slice_cmp};
ghost use Rattle.std.specs.List.{enumerate_from};
ghost use Rattle.std.specs.Ordering.{nat_cmp};
ghost use Rattle.omf_check.specs.Module.{recs_of, typed_modules};
ghost use Rattle.omf_frame.specs.Bytes.{AddsText};
ghost use Rattle.omf_placement.specs.Derive.{named_externals};
ghost use Rattle.omf_externals.specs.Repeated.{IsRepeatedText, repeated_line};
ghost use Rattle.omf_externals.specs.Unresolved.{IsByName, Row, after, all_rows, asked_text, external_text, found_text, is_first, is_last, is_same, label_of, module_text, modules_text, name_line, named_text, next_text, spots_of, unresolved_text};

use crate::by_name::{ByName, External, Spot, external_at};
use crate::names::NameTable;
use crate::settled::{Settled, all_settled, is_settled};
use omf_check::Checked;
use omf_linking::locator::Sparse;
use omf_text::print_quoted;
use std::alloc::{AllocError, Global};
use std::fmt::Write;

/// Appends the label of a module, or its number if it has none.
pub fn put_own(text: &mut String, labels: &[String], module: u32) -> Result<(), AllocError>
    ensures { AddsText result (string_bytes text.old) (string_bytes text.new) (label_of (map string_bytes labels.now) «module») }
{
    match labels.get(module as usize) {
        Some(label) => text.push_str(label.as_str()),
        None => write!(text, "module {}", u64::from(module) + 1),
    }
}

/// Appends the label of a module, after a comma if it is not the first.
fn put_label(
    text: &mut String,
    labels: &[String],
    last: Option<u32>,
    module: u32,
) -> Result<(), AllocError>
    ensures { AddsText result (string_bytes text.old) (string_bytes text.new) (after last (label_of (map string_bytes labels.now) «module»)) }
{
    if last.is_some() {
        text.push_str(", ")?;
    }
    put_own(text, labels, module)
}

/// Whether a module is the last one that was named.
fn is_last(last: Option<u32>, module: u32) -> bool
    ensures { result ≡ is_last last «module» }
{
    match last {
        Some(last) => last == module,
        None => false,
    }
}

/// Appends the label of a module, if it is not the last one that was named.
fn put_next(
    text: &mut String,
    labels: &[String],
    last: Option<u32>,
    module: u32,
) -> Result<(), AllocError>
    ensures { AddsText result (string_bytes text.old) (string_bytes text.new) (next_text (map string_bytes labels.now) last «module») }
{
    if is_last(last, module) {
        return Ok(());
    }
    put_label(text, labels, last, module)
}

/// Appends the labels of the modules of externals or publics; a module that has several in a row is named once.
fn put_modules(text: &mut String, labels: &[String], spots: &[Spot]) -> Result<(), AllocError>
    ensures { AddsText result (string_bytes text.old) (string_bytes text.new) (modules_text (map string_bytes labels.now) None spots.now) }
{
    let mut last = None;
    for spot in spots {
        put_next(text, labels, last, spot.module)?;
        last = Some(spot.module);
    }
    Ok(())
}

/// Appends the line of a name: what is wrong with it, and the modules.
fn put_name(
    text: &mut String,
    labels: &[String],
    what: &str,
    name: &[u8],
    spots: &[Spot],
) -> Result<(), AllocError>
    ensures { AddsText result (string_bytes text.old) (string_bytes text.new) (name_line (map string_bytes labels.now) what.now name.now spots.now) }
{
    text.push_str(what)?;
    text.push_str(" ")?;
    print_quoted(text, name)?;
    text.push_str(": ")?;
    put_modules(text, labels, spots)?;
    text.push_str("\n")
}

/// Appends the line of a name, if it has no public or more than one.
fn put_found(
    text: &mut String,
    labels: &[String],
    name: &[u8],
    found: &[Spot],
    askers: &[Spot],
) -> Result<(), AllocError>
    ensures { AddsText result (string_bytes text.old) (string_bytes text.new) (found_text (map string_bytes labels.now) name.now found.now askers.now) }
{
    match found {
        [] => put_name(text, labels, "undefined", name, askers),
        [_] => Ok(()),
        [_, _, ..] => put_name(text, labels, "twice", name, found),
    }
}

/// Whether two externals are the same.
fn is_same(one: Spot, other: Spot) -> bool
    ensures { result ≡ is_same one other }
{
    one.module == other.module && one.external == other.external
}

/// Whether an external is the first of these.
fn is_first(spots: &[Spot], spot: Spot) -> bool
    ensures { result ≡ is_first spots.now spot }
{
    match spots.get(0) {
        Some(first) => is_same(*first, spot),
        None => false,
    }
}

/// Publics and the externals that look among them, by name: those of all modules that are not local, or the local ones of one module.
#[derive(Drop)]
struct Tables<'a> {
    /// The publics.
    publics: ByName<'a>,
    /// The externals that need a public.
    asks: ByName<'a>,
}

/// Appends the line of the name of an external, if it is the first that asks for it.
fn put_asked<'a>(
    text: &mut String,
    labels: &[String],
    tables: &Tables<'a>,
    name: &'a [u8],
    spot: Spot,
) -> Result<(), AllocError>
    ensures { (publics asks : List Row) → IsByName tables.now.publics.spots publics → IsByName tables.now.asks.spots asks → AddsText result (string_bytes text.old) (string_bytes text.new) (asked_text (map string_bytes labels.now) publics asks name.now spot) }
{
    let askers = tables.asks.spots(name);
    if !is_first(askers, spot) {
        return Ok(());
    }
    put_found(text, labels, name, tables.publics.spots(name), askers)
}

/// Appends the line of an external that needs a public, by the tables of its module if it is local.
fn put_named<'a>(
    text: &mut String,
    labels: &[String],
    tables: &Tables<'a>,
    own: &Tables<'a>,
    external: External<'a>,
) -> Result<(), AllocError>
    ensures { (publics asks rows own_asks : List Row) → IsByName tables.now.publics.spots publics → IsByName tables.now.asks.spots asks → IsByName own.now.publics.spots rows → IsByName own.now.asks.spots own_asks → AddsText result (string_bytes text.old) (string_bytes text.new) (named_text (map string_bytes labels.now) publics asks rows own_asks external.entry.name.now external.entry.local external.entry.spot) }
{
    if external.local {
        put_asked(text, labels, own, external.name, external.spot)
    } else {
        put_asked(text, labels, tables, external.name, external.spot)
    }
}

/// Appends the line of an external, if it needs a public.
fn put_external<'a>(
    text: &mut String,
    labels: &[String],
    settled: &[Settled],
    tables: &Tables<'a>,
    own: &Tables<'a>,
    external: External<'a>,
) -> Result<(), AllocError>
    ensures { (publics asks rows own_asks : List Row) → IsByName tables.now.publics.spots publics → IsByName tables.now.asks.spots asks → IsByName own.now.publics.spots rows → IsByName own.now.asks.spots own_asks → AddsText result (string_bytes text.old) (string_bytes text.new) (external_text (map string_bytes labels.now) settled.now publics asks rows own_asks external.entry.spot.«module» (external.entry.spot.external, (external.entry.name.now, external.entry.local))) }
{
    if is_settled(settled, external.spot.module, external.spot.external) {
        return Ok(());
    }
    put_named(text, labels, tables, own, external)
}

/// Appends the lines of the externals of the module with this number.
fn put_module<'a>(
    text: &mut String,
    labels: &[String],
    settled: &[Settled],
    tables: &Tables<'a>,
    own: &Tables<'a>,
    module: &'a Checked,
    number: u32,
) -> Result<(), AllocError>
    ensures { (publics asks rows own_asks : List Row) → IsByName tables.now.publics.spots publics → IsByName tables.now.asks.spots asks → IsByName own.now.publics.spots rows → IsByName own.now.asks.spots own_asks → AddsText result (string_bytes text.old) (string_bytes text.new) (flat_map (external_text (map string_bytes labels.now) settled.now publics asks rows own_asks number) (enumerate_from 1 (named_externals (recs_of «module».entry.now.bytes)))) }
{
    for before in 0..module.externals() {
        let spot = Spot {
            module: number,
            external: before + 1,
        };
        let external = external_at(module, spot);
        put_external(text, labels, settled, tables, own, external)?;
    }
    Ok(())
}

/// Appends the lines of the externals of all modules.
fn put_all<'a>(
    alloc: Global,
    text: &mut String,
    labels: &[String],
    settled: &[Settled],
    tables: &Tables<'a>,
    modules: &'a [Checked],
) -> Result<(), AllocError>
    requires { length modules.now < 2 ^ 32 }
    ensures { (publics asks : List Row) → IsByName tables.now.publics.spots publics → IsByName tables.now.asks.spots asks → AddsText result (string_bytes text.old) (string_bytes text.new) (flat_map (module_text (map string_bytes labels.now) settled.now publics asks) (enumerate_from 0 (typed_modules modules.entry.now))) }
{
    for (j, module) in modules.iter().enumerate() {
        let publics = ByName::of_locals(alloc, j as u32, module)?;
        let asks = ByName::of_local_externals(alloc, settled, j as u32, module)?;
        let own = Tables { publics, asks };
        put_module(text, labels, settled, tables, &own, module, j as u32)?;
    }
    Ok(())
}

/// The externals of modules for which no public or more than one is found, as text: a line for each name, in the order in which the names
/// first appear. `undefined "NAME": M, N` has the modules that ask for it, and `twice "NAME": M, N` the modules that define it. The local
/// externals of a module have lines of their own, one for each name. Externals that are given a place by hand are left out, and so are weak ones without a public whose default
/// has a place by hand or the one public of its name. A module is named by its label, or if it has
/// none by its number from 1, as `module 1`.
///
/// # Errors
///
/// `AllocError` if memory runs out.
pub fn unresolved_text(
    alloc: Global,
    labels: &[String],
    modules: &[Checked],
    by_hand: &[Sparse],
) -> Result<String, AllocError>
    requires { length modules.now < 2 ^ 32 }
    ensures { IfOk result (λ t. string_bytes t ≡ unresolved_text (map string_bytes labels.now) (typed_modules modules.now) by_hand.now) }
{
    let publics = ByName::of(alloc, modules)?;
    let settled = all_settled(alloc, &publics, by_hand, modules)?;
    let asks = ByName::of_externals(alloc, &settled, modules)?;
    let tables = Tables { publics, asks };
    let mut text = String::new(alloc);
    put_all(alloc, &mut text, labels, &settled, &tables, modules)?;
    Ok(text)
}

/// Appends the line of a name that several publics have.
fn put_repeated(
    text: &mut String,
    labels: &[String],
    name: &[u8],
    spots: &[Spot],
) -> Result<(), AllocError>
    ensures { AddsText result (string_bytes text.old) (string_bytes text.new) (repeated_line (map string_bytes labels.now) name.now spots.now) }
{
    if spots.len() < 2 {
        return Ok(());
    }
    put_name(text, labels, "twice", name, spots)
}

/// Appends the lines of the names that several publics have, in ascending order.
fn put_all_repeated(
    text: &mut String,
    labels: &[String],
    publics: &ByName<'_>,
) -> Result<(), AllocError>
    ensures lines { AddsText result (string_bytes text.old) (string_bytes text.new) (flat_map (λ e. repeated_line (map string_bytes labels.now) e.0.now e.1.items) publics.now.spots.entries) }
    ensures ordered { OnOk result (IsOrdered (λ x y. slice_cmp nat_cmp x.now y.now) publics.now.spots) }
{
    for (name, spots) in &publics.spots {
        put_repeated(text, labels, name, spots)?;
    }
    Ok(())
}

/// The names that more than one public of modules has, local ones left out, as text: a line for each, in ascending order of the names.
/// `twice "NAME": M, N` has the modules that define it. A module is named by its label, or if it has none by its number from 1, as
/// `module 1`.
///
/// # Errors
///
/// `AllocError` if memory runs out.
pub fn repeated_text(
    alloc: Global,
    labels: &[String],
    modules: &[Checked],
) -> Result<String, AllocError>
    requires { length modules.now < 2 ^ 32 }
    ensures { IfOk result (λ t. IsRepeatedText (map string_bytes labels.now) (all_rows (typed_modules modules.now)) (string_bytes t)) }
{
    let mut text = String::new(alloc);
    if !NameTable::of(alloc, modules)?.repeats() {
        return Ok(text);
    }
    let publics = ByName::of(alloc, modules)?;
    put_all_repeated(&mut text, labels, &publics)?;
    Ok(text)
}

//! The symbols of modules at their placements.

ghost use Rattle.std.specs.Prelude.{◌≡◌, ◌++◌, ℕ, [], Bool, IfNone, IfOk, IfSome, OnOk, length};
ghost use Rattle.omf_check.specs.Inner.Contents.{publics_seen};
ghost use Rattle.omf_check.specs.Module.{recs_of};
ghost use Rattle.omf_placement.specs.Derive.{PlacedModule, placed_modules};
ghost use Rattle.omf_symbols.specs.Placed.{contents_symbols, module_symbols, placed_symbols, symbol_at, symbols_at};

use crate::class::is_code;
use crate::symbol::Symbol;
use omf_check::{Checked, Publics, Undecoded};
use omf_placement::Placement;
use omf_records::{At, Items, Public};
use std::alloc::{AllocError, Global};

/// The symbol of a public at its offset from an address.
fn symbol_at<'a>(is_code: bool, load: u32, address: u32, public: &At<Public<'a>>) -> Symbol<'a>
    ensures { result ≡ symbol_at is_code load address public.now }
{
    let item = &public.item;
    Symbol {
        is_code,
        address: u64::from(load) + u64::from(address) + u64::from(item.offset),
        name: item.name.0,
    }
}

/// Appends the symbols of publics at their offsets from an address.
fn push_items<'a>(
    symbols: &mut Vec<Symbol<'a>>,
    is_code: bool,
    load: u32,
    address: u32,
    publics: Items<Public<'a>>,
) -> Result<(), AllocError>
    ensures { OnOk result (symbols.new.items ≡ symbols.old.items ++ symbols_at is_code load address publics.entry) }
{
    for public in publics {
        symbols.push(symbol_at(is_code, load, address, &public))?;
    }
    Ok(())
}

/// The publics of a record, local or not. No record without publics is decoded.
fn publics_of<'a>(rec: &Undecoded<'a>) -> Option<Publics<'a>>
    ensures some { IfSome result (λ p. (local : Bool) × (publics_seen local p ≡ rec.now)) }
    ensures none { IfNone result ((load : ℕ) (m : PlacedModule) → contents_symbols load m rec.now.contents ≡ []) }
{
    match rec.as_publics(false) {
        Some(publics) => Some(publics),
        None => rec.as_publics(true),
    }
}

/// Appends the symbols of a record, by the placement of its module.
fn push_record<'a>(
    symbols: &mut Vec<Symbol<'a>>,
    load: u32,
    module: &Checked,
    placement: &Placement,
    rec: &Undecoded<'a>,
) -> Result<(), AllocError>
    ensures { OnOk result (symbols.new.items ≡ symbols.old.items ++ contents_symbols load (recs_of «module».now.bytes, placement.now) rec.now.contents) }
{
    let Some(publics) = publics_of(rec) else {
        return Ok(());
    };
    let segment = publics.segment.item.0;
    match placement.segment(usize::from(segment)) {
        Some(place) => {
            let is_code = is_code(module, segment);
            push_items(symbols, is_code, load, place.address, publics.items)
        }
        None => Ok(()),
    }
}

/// Appends the symbols of a module at its placement.
fn push_module<'a>(
    symbols: &mut Vec<Symbol<'a>>,
    load: u32,
    module: &'a Checked,
    placement: &Placement,
) -> Result<(), AllocError>
    ensures { OnOk result (symbols.new.items ≡ symbols.old.items ++ module_symbols load (recs_of «module».entry.now.bytes, placement.now)) }
{
    for (_, rec) in module.undecoded() {
        push_record(symbols, load, module, placement, &rec)?;
    }
    Ok(())
}

/// The symbols of modules at their placements, in a program that a tool loads at an address: a symbol for each public of a segment, also a local one, in the
/// order of the records, module by module. A public of no segment, at an address of its own, has none.
///
/// # Errors
///
/// `AllocError` if memory runs out.
pub fn placed_symbols<'a>(
    alloc: Global,
    modules: &'a [Checked],
    placements: &[Placement],
    load: u32,
) -> Result<Vec<Symbol<'a>>, AllocError>
    requires { length placements.now ≡ length modules.now }
    ensures { IfOk result (λ v. v.items ≡ placed_symbols load (placed_modules modules.entry.now placements.now)) }
{
    let mut symbols = Vec::new(alloc);
    for (j, module) in modules.iter().enumerate() {
        push_module(&mut symbols, load, module, &placements[j])?;
    }
    Ok(symbols)
}

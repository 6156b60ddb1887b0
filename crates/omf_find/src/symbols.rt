//! The names that are found, as symbols for a tool.

ghost use Rattle.std.specs.Prelude.{◌≡◌, IfOk, map, option_map};
ghost use Rattle.omf_check.specs.Module.{recs_of};
ghost use Rattle.omf_find.specs.Symbols.{AreSymbols, is_code_row, symbol_of};

use crate::rows::{NameRow, name_rows_of};
use crate::source::Source;
use omf_check::Checked;
use omf_finding::Findings;
use omf_symbols::{Symbol, Tool, is_code, symbols_text as text_of};
use std::alloc::{AllocError, Global};

/// Whether the segment of a public is one of code.
fn is_code_row(module: Option<&Checked>, segment: u16) -> bool
    ensures { result ≡ is_code_row (option_map (λ m. m.now) «module».entry) segment }
{
    match module {
        Some(module) => is_code(module, segment),
        None => false,
    }
}

/// The symbol of a public, in a program that the tool loads at an address.
fn symbol_of<'a>(load: u32, source: Source<'_>, row: &NameRow<'a>) -> Symbol<'a>
    ensures { result ≡ symbol_of load source.entry.gathered.now row.now }
{
    Symbol {
        is_code: is_code_row(source.module(row.module), row.segment),
        address: row.address.saturating_add(u64::from(load)),
        name: row.name,
    }
}

/// The symbols of publics.
fn symbols_of<'a>(
    alloc: Global,
    load: u32,
    source: Source<'_>,
    rows: &[NameRow<'a>],
) -> Result<Vec<Symbol<'a>>, AllocError>
    ensures { IfOk result (λ v. v.items ≡ map (symbol_of load source.entry.gathered.now) rows.now) }
{
    let mut symbols = Vec::new(alloc);
    for row in rows {
        symbols.push(symbol_of(load, source, row))?;
    }
    Ok(symbols)
}

/// The symbols of the publics that are found, in ascending order of address, in the form that a tool imports.
///
/// # Errors
///
/// `AllocError` if memory runs out.
pub fn symbols_text(
    alloc: Global,
    tool: Tool,
    load: u32,
    source: Source<'_>,
    findings: &Findings,
) -> Result<Vec<u8>, AllocError>
    ensures { IfOk result (λ text. AreSymbols tool load source.entry.gathered.now findings.now.verdicts.items text.items) }
{
    let rows = name_rows_of(alloc, source.modules(), findings)?;
    let symbols = symbols_of(alloc, load, source, &rows)?;
    text_of(alloc, tool, &symbols)
}

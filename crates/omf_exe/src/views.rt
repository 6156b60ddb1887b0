//! The map and the symbols of a program. They show its modules without the names of the segments that are left out.

ghost use Rattle.std.specs.Prelude.{◌≡◌, ◌≤◌, IfOk, is_some, length, string_bytes};
ghost use Rattle.omf_exe.specs.Inner.Views.{AreSymbolsAt, IsListedAt};
ghost use Rattle.omf_exe.specs.Making.{AreSymbolsIf, IsMapIf, file_kind};
ghost use Rattle.omf_exe.specs.declared.options.ProgramKind.TheVariants.{Exe};

use crate::lines::Origins;
use crate::listing::{modules_text, put_start};
use crate::options::{ExeOptions, ProgramKind, SymbolsFile};
use omf_check::Checked;
use omf_map::program_map;
use omf_placement::Placement;
use omf_symbols::{Kind, placed_symbols, symbols_text, usual_load};
use std::alloc::{AllocError, Global};

/// The map of modules at these placements: a line for each module, and their map. Out of memory if there are 2^32 modules or more.
fn listed(
    alloc: Global,
    program: Origins<'_>,
    placements: &[Placement],
) -> Result<String, AllocError>
    requires { length placements.now ≡ length program.modules.now }
    ensures { IfOk result (λ text. IsListedAt program.entry.files.now program.entry.from.now program.entry.modules.now placements.now (string_bytes text)) }
{
    if program.modules.len() > u32::MAX as usize {
        return Err(AllocError);
    }
    let map = program_map(alloc, program.modules, placements)?;
    let mut text = modules_text(alloc, program)?;
    text.push_str(map.as_str())?;
    Ok(text)
}

/// The map of a program with these bytes, if it is asked for.
pub(crate) fn map_of(
    alloc: Global,
    program: Origins<'_>,
    placements: &[Placement],
    options: &ExeOptions<'_>,
    bytes: &[u8],
) -> Result<Option<Vec<u8>>, AllocError>
    requires placed { length placements.now ≡ length program.modules.now }
    requires long { options.now.kind ≡ Exe → 28 ≤ length bytes.now }
    ensures { IfOk result (IsMapIf (IsListedAt program.entry.files.now program.entry.from.now program.entry.modules.now placements.now) options.now.kind (is_some options.now.map) bytes.now) }
{
    if options.map.is_none() {
        return Ok(None);
    }
    let mut map = listed(alloc, program, placements)?.into_bytes();
    put_start(alloc, &mut map, options.kind, bytes)?;
    Ok(Some(map))
}

/// What a program's file is for a tool.
fn file_kind(kind: ProgramKind) -> Kind
    ensures { result ≡ file_kind kind }
{
    match kind {
        ProgramKind::Exe => Kind::Mz,
        ProgramKind::Com => Kind::Com,
    }
}

/// The symbols of modules at these placements, if they are asked for, where the tool usually loads the program.
pub(crate) fn symbols_of(
    alloc: Global,
    modules: &[Checked],
    placements: &[Placement],
    options: &ExeOptions<'_>,
) -> Result<Option<Vec<u8>>, AllocError>
    requires { length placements.now ≡ length modules.now }
    ensures { IfOk result (AreSymbolsIf (AreSymbolsAt modules.now placements.now) options.now.kind options.now.symbols) }
{
    let Some(SymbolsFile { tool, .. }) = options.symbols else {
        return Ok(None);
    };
    let load = usual_load(tool, file_kind(options.kind));
    let symbols = placed_symbols(alloc, modules, placements, load)?;
    let text = symbols_text(alloc, tool, &symbols)?;
    Ok(Some(text))
}

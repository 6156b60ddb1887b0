//! What is written of the modules of a program: its bytes, and its map and its symbols if they are asked for.

ghost use Rattle.std.specs.Prelude.{◌≡◌, ◌≤◌, IfErr, IfOk, is_some, length};
ghost use Rattle.omf_exe.specs.Inner.Views.{AreSymbolsAt, IsListedAt};
ghost use Rattle.omf_exe.specs.Making.{AreNamedSymbols, AreSymbolsIf, IsListedMap, IsMadeOf, IsMapIf, IsNotMadeOf};
ghost use Rattle.omf_exe.specs.Refusing.{IsRefusalFor};
ghost use Rattle.omf_exe.specs.declared.options.ProgramKind.TheVariants.{Exe};

use crate::files::memory;
use crate::made::{MadeProgram, PlacedProgram, made_of};
use crate::options::ExeOptions;
use crate::program::ProgramModules;
use crate::refusal::Refusal;
use crate::views::{map_of, symbols_of};
use omf_linking::InputFile;
use omf_placement::Placement;
use omf_trimming::LeftPublics;
use std::alloc::{AllocError, Global};
use std::mem::forget;

/// What becomes of the memory of the modules once their program is made.
#[derive(Clone, Copy, Debug, PartialEq, Eq)]
pub enum Leftovers {
    /// It is freed: for a caller that goes on.
    Freed,
    /// It stays, since freeing it takes long: for a process that ends soon.
    Left,
}

/// The modules that a map and symbols show, with the placements of the program.
#[derive(Drop)]
struct ShownModules {
    modules: ProgramModules,
    placements: Vec<Placement>,
}

/// A program with its map and its symbols, as far as the options ask for them.
fn with_views(
    alloc: Global,
    made: MadeProgram,
    shown: &ShownModules,
    files: &[InputFile],
    options: &ExeOptions<'_>,
) -> Result<MadeProgram, AllocError>
    requires placed { length shown.now.placements.items ≡ length shown.now.modules.modules }
    requires long { options.now.kind ≡ Exe → 28 ≤ length made.bytes.items }
    ensures same { IfOk result (λ all. all ≡ record made { map = all.map; symbols = all.symbols }) }
    ensures map { IfOk result (λ all. IsMapIf (IsListedAt files.now shown.now.modules.from shown.now.modules.modules shown.now.placements.items) options.now.kind (is_some options.now.map) all.bytes.items all.map) }
    ensures symbols { IfOk result (λ all. AreSymbolsIf (AreSymbolsAt shown.now.modules.modules shown.now.placements.items) options.now.kind options.now.symbols all.symbols) }
{
    let mut all = made;
    let program = shown.modules.origins(files);
    let map = map_of(alloc, program, &shown.placements, options, &all.bytes)?;
    let symbols = symbols_of(alloc, program.modules, &shown.placements, options)?;
    all.map = map;
    all.symbols = symbols;
    Ok(all)
}

/// What is written of the modules of files. The map and the symbols show the modules at their placements, without the names of the segments that are left out.
///
/// # Errors
///
/// Those of `made_of`. Out of memory.
pub(crate) fn written_of(
    alloc: Global,
    modules: ProgramModules,
    files: &[InputFile],
    options: &ExeOptions<'_>,
    leftovers: Leftovers,
) -> Result<MadeProgram, Refusal>
    ensures made { IfOk result (IsMadeOf options.now modules) }
    ensures map { IfOk result (λ m. IsMapIf (IsListedMap options.now.unreached files.now modules) options.now.kind (is_some options.now.map) m.bytes.items m.map) }
    ensures symbols { IfOk result (λ m. AreSymbolsIf (AreNamedSymbols options.now.unreached modules.modules) options.now.kind options.now.symbols m.symbols) }
    ensures refused { IfErr result (IsRefusalFor (IsNotMadeOf options.now modules.modules)) }
{
    let program = made_of(alloc, &modules, files, options)?;
    let PlacedProgram { made, placements } = program;
    if !options.shows_names() {
        if leftovers == Leftovers::Left {
            forget(placements);
            forget(modules);
        }
        return Ok(made);
    }
    let named = modules.trimmed(alloc, options.unreached, LeftPublics::Gone)?;
    let shown = ShownModules {
        modules: named,
        placements,
    };
    let Ok(all) = with_views(alloc, made, &shown, files, options) else {
        return Err(memory());
    };
    if leftovers == Leftovers::Left {
        forget(shown);
    }
    Ok(all)
}

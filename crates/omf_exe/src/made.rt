//! What is written of a DOS program: its bytes, its map, its symbols, and lines of what is found in it.

ghost use Rattle.std.specs.Prelude.{◌≡◌, ◌≤◌, IfErr, IfOk, None, length, option_map, string_bytes, true};
ghost use Rattle.omf_exe.specs.Making.{AreBytesOf, HaveNoBytes, IsMadeOf, IsNotMadeOf};
ghost use Rattle.omf_exe.specs.Program.{ArePlaced};
ghost use Rattle.omf_exe.specs.declared.options.ProgramKind.TheVariants.{Exe};
ghost use Rattle.omf_exe.specs.Refusing.{IsRefusalFor, is_out_of_memory};
ghost use Rattle.omf_exe.specs.Stack.{other_stack, stack_line};

use crate::files::memory;
use crate::length::stack_line;
use crate::lines::Origins;
use crate::looks::{Looked, repeated, settled_of};
use crate::options::{ExeOptions, ProgramKind};
use crate::program::ProgramModules;
use crate::refusal::Refusal;
use crate::settling::SettledModules;
use crate::unlinked::of_program;
use omf_linking::InputFile;
use omf_output::exe::ComFault;
use omf_placement::Placement;
use std::alloc::{AllocError, Global};

/// A program, its map, its symbols, and lines of what is found in it.
#[derive(Drop)]
pub struct MadeProgram {
    /// The bytes of the .EXE file, or of the .COM file.
    pub bytes: Vec<u8>,
    /// Whether an .EXE file has no stack.
    pub lacks_stack: bool,
    /// The map, if the options ask for it.
    pub map: Option<Vec<u8>>,
    /// The symbols, if the options ask for them.
    pub symbols: Option<Vec<u8>>,
    /// The line of the first segment, or else of the first member of a group, that ends more than 64 KB after its frame.
    pub long: Option<String>,
    /// The line of the first near reference into another frame.
    pub near: Option<String>,
    /// The line of the first two parts of one segment of which one is 16-bit and the other 32-bit.
    pub mixed: Option<String>,
    /// The lines of the names that more than one public has.
    pub repeated: Option<String>,
    /// The line of the length of the stack of an .EXE file, if another is asked for.
    pub stack: Option<String>,
}

/// The bytes of a program, and whether an .EXE file lacks a stack.
#[derive(Drop)]
struct ProgramBytes {
    bytes: Vec<u8>,
    lacks_stack: bool,
}

/// The bytes of the program of modules. An .EXE file asks DOS for at most `most` paragraphs after its image.
fn bytes_of(
    alloc: Global,
    program: Origins<'_>,
    settled: &SettledModules<'_>,
    kind: ProgramKind,
    most: u16,
) -> Result<ProgramBytes, Refusal>
    ensures bytes { IfOk result (λ b. AreBytesOf kind most settled.now b.bytes.items b.lacks_stack) }
    ensures refused { IfErr result (IsRefusalFor (HaveNoBytes kind settled.now)) }
{
    match kind {
        ProgramKind::Exe => match settled.exe(alloc, most) {
            Ok(file) => Ok(ProgramBytes {
                bytes: file.bytes,
                lacks_stack: !file.has_stack,
            }),
            Err(fault) => {
                let fault = ComFault::Exe(fault);
                Err(of_program(alloc, program, settled.placements(), fault))
            }
        },
        ProgramKind::Com => match settled.com(alloc) {
            Ok(bytes) => Ok(ProgramBytes {
                bytes,
                lacks_stack: false,
            }),
            Err(fault) => Err(of_program(alloc, program, settled.placements(), fault)),
        },
    }
}

/// The line of the length of the stack of a program with these bytes, if it is another than the options ask for.
fn stack_note(
    alloc: Global,
    options: &ExeOptions<'_>,
    bytes: &[u8],
) -> Result<Option<String>, Refusal>
    requires { options.now.kind ≡ Exe → 28 ≤ length bytes.now }
    ensures line { IfOk result (λ text. option_map string_bytes text ≡ option_map stack_line (other_stack options.now.kind options.now.stack bytes.now)) }
    ensures refused { IfErr result (λ r. is_out_of_memory r ≡ true) }
{
    match stack_line(alloc, options.kind, options.stack, bytes) {
        Ok(line) => Ok(line),
        Err(AllocError) => Err(memory()),
    }
}

/// A program without a map and symbols, and the placements of its modules.
#[derive(Drop)]
pub(crate) struct PlacedProgram {
    pub(crate) made: MadeProgram,
    pub(crate) placements: Vec<Placement>,
}

/// The program of modules, with what is found in it. A look refuses before there is a fault of the program, but for a name that is
/// not defined.
///
/// # Errors
///
/// The names that are not defined; otherwise the line of a look, if it finds what is not allowed; otherwise the fault of the program; otherwise the names that more
/// than one public has, if they are not allowed. Out of memory.
pub(crate) fn made_of(
    alloc: Global,
    modules: &ProgramModules,
    files: &[InputFile],
    options: &ExeOptions<'_>,
) -> Result<PlacedProgram, Refusal>
    ensures made { IfOk result (λ p. IsMadeOf options.now modules.now p.made) }
    ensures map { IfOk result (λ p. p.made.map ≡ None) }
    ensures symbols { IfOk result (λ p. p.made.symbols ≡ None) }
    ensures placed { IfOk result (λ p. ArePlaced modules.now.modules p.placements.items) }
    ensures one_each { IfOk result (λ p. length p.placements.items ≡ length modules.now.modules) }
    ensures refused { IfErr result (IsRefusalFor (IsNotMadeOf options.now modules.now.modules)) }
{
    let program = modules.origins(files);
    let looked = settled_of(alloc, program, options)?;
    let Looked {
        settled,
        mixed,
        long,
        near,
    } = looked;
    let most = options.maximum();
    let linked = bytes_of(alloc, program, &settled, options.kind, most)?;
    let ProgramBytes { bytes, lacks_stack } = linked;
    let stack = stack_note(alloc, options, &bytes)?;
    let repeated = repeated(alloc, program, &settled, options.allows_twice)?;
    let made = MadeProgram {
        bytes,
        lacks_stack,
        map: None,
        symbols: None,
        long,
        near,
        mixed,
        repeated,
        stack,
    };
    Ok(PlacedProgram {
        made,
        placements: settled.into_placements(),
    })
}

//! What a linker looks for in the modules of a program, and the lines of what it finds.

ghost use Rattle.std.specs.Prelude.{◌≡◌, ◌<◌, ◌^◌, IfErr, IfOk, IfSome, Some, false, is_some, length, string_bytes, true};
ghost use Rattle.omf_exe.specs.Making.{IsAlone, IsNotSettledOf};
ghost use Rattle.omf_exe.specs.Program.{IsBetweenOf, IsLongOf, IsMixedOf, IsNearOf};
ghost use Rattle.omf_exe.specs.Refusing.{AreTwiceLines, HaveNamesTwice, IsLooked, IsNotAllowed, IsRefusalFor};
ghost use Rattle.omf_exe.specs.declared.options.ProgramKind.TheVariants.{Exe};

use crate::files::{in_line, memory};
use crate::lines::{Found, Origins};
use crate::options::{ExeOptions, ProgramKind};
use crate::refusal::Refusal;
use crate::settling::{LaidModules, SettledModules};
use crate::unlinked::{of_external, of_layout, undefined};
use omf_combining::first_mixed;
use omf_placement::DeriveFault;
use std::alloc::{AllocError, Global};

/// Lines, if they are allowed; else the refusal with them.
fn shown(lines: String, is_allowed: bool) -> Result<Option<String>, Refusal>
    ensures same { IfOk result (λ shown. shown ≡ Some lines) }
    ensures allowed { IfOk result (λ _. is_allowed ≡ true) }
    ensures refused { IfErr result (IsRefusalFor (is_allowed ≡ false)) }
{
    if is_allowed {
        return Ok(Some(lines));
    }
    Err(Refusal::Line(lines.into_bytes()))
}

/// The line of what is found, if it is allowed; else the refusal with it.
fn told(
    alloc: Global,
    program: Origins<'_>,
    found: Found,
    is_allowed: bool,
) -> Result<Option<String>, Refusal>
    ensures some { IfOk result (λ line. is_some line ≡ true) }
    ensures allowed { IfOk result (λ _. is_allowed ≡ true) }
    ensures refused { IfErr result (IsRefusalFor (is_allowed ≡ false)) }
{
    match program.found_line(alloc, found) {
        Ok(line) => shown(line, is_allowed),
        Err(AllocError) => Err(memory()),
    }
}

/// The line of the first two parts of one segment of which one is 16-bit and the other 32-bit; none if there are none. The code of one of
/// them would run with the other's default size of operands and addresses.
///
/// # Errors
///
/// The line, if there is one and it is not allowed; or out of memory.
fn mixed(alloc: Global, program: Origins<'_>, is_allowed: bool) -> Result<Option<String>, Refusal>
    requires { length program.modules.now < 2 ^ 32 }
    ensures looked { IfOk result (λ line. IsLooked (IsMixedOf program.entry.modules.now) is_allowed (is_some line)) }
    ensures refused { IfErr result (IsRefusalFor (IsNotAllowed (IsMixedOf program.entry.modules.now) is_allowed)) }
{
    let Ok(found) = first_mixed(alloc, program.modules) else {
        return Err(memory());
    };
    match found {
        Some(parts) => told(alloc, program, Found::Mixed(parts.0, parts.1), is_allowed),
        None => Ok(None),
    }
}

/// The line of the first segment, or else of the first member of a group, that ends more than 65,536 bytes after the base of its frame; none
/// if there is none. No 16-bit offset reaches its end.
///
/// # Errors
///
/// The line, if there is one and it is not allowed; or out of memory.
fn long(
    alloc: Global,
    program: Origins<'_>,
    laid: &LaidModules<'_>,
    is_allowed: bool,
) -> Result<Option<String>, Refusal>
    ensures looked { IfOk result (λ line. IsLooked (IsLongOf laid.now) is_allowed (is_some line)) }
    ensures refused { IfErr result (IsRefusalFor (IsNotAllowed (IsLongOf laid.now) is_allowed)) }
{
    match laid.long() {
        Some(far) => told(alloc, program, Found::Long(far), is_allowed),
        None => Ok(None),
    }
}

/// Looks whether a segment is between the parts of the stack of an .EXE file.
///
/// # Errors
///
/// The line of the first such segment; or out of memory.
fn alone(
    alloc: Global,
    program: Origins<'_>,
    laid: &LaidModules<'_>,
    kind: ProgramKind,
) -> Result<(), Refusal>
    ensures alone { IfOk result (λ _. IsAlone kind laid.now) }
    ensures refused { IfErr result (IsRefusalFor ((kind ≡ Exe) × IsNotAllowed (IsBetweenOf laid.now) false)) }
{
    match kind {
        ProgramKind::Exe => match laid.between(alloc) {
            Ok(Some(part)) => Err(in_line(program.found_line(alloc, Found::Between(part)))),
            Ok(None) => Ok(()),
            Err(AllocError) => Err(memory()),
        },
        ProgramKind::Com => Ok(()),
    }
}

/// The line of the first near reference into another frame; none if there is none.
///
/// # Errors
///
/// The line, if there is one and it is not allowed; or out of memory.
fn near(
    alloc: Global,
    program: Origins<'_>,
    settled: &SettledModules<'_>,
    is_allowed: bool,
) -> Result<Option<String>, Refusal>
    ensures looked { IfOk result (λ line. IsLooked (IsNearOf settled.now) is_allowed (is_some line)) }
    ensures refused { IfErr result (IsRefusalFor (IsNotAllowed (IsNearOf settled.now) is_allowed)) }
{
    match settled.near(alloc) {
        Ok(Some(stray)) => told(alloc, program, Found::Near(stray), is_allowed),
        Ok(None) => Ok(None),
        Err(AllocError) => Err(memory()),
    }
}

/// The lines of the names that more than one public of the modules has, in ascending order; none if there are no such names. A program
/// without a fault has no external of these names. They are looked for only where names repeat.
///
/// # Errors
///
/// The lines, if there are any and they are not allowed; or out of memory.
pub(crate) fn repeated(
    alloc: Global,
    program: Origins<'_>,
    settled: &SettledModules<'_>,
    is_allowed: bool,
) -> Result<Option<String>, Refusal>
    requires { settled.now ≡ program.modules.now }
    ensures looked { IfOk result (λ lines. HaveNamesTwice settled.now (is_some lines) × (is_allowed ≡ false → is_some lines ≡ false)) }
    ensures lines { IfOk result (λ lines. IfSome lines (λ text. AreTwiceLines settled.now (string_bytes text))) }
    ensures refused { IfErr result (IsRefusalFor ((is_allowed ≡ false) × HaveNamesTwice settled.now true)) }
{
    if !settled.repeats() {
        return Ok(None);
    }
    match program.repeated_lines(alloc) {
        Ok(Some(lines)) => shown(lines, is_allowed),
        Ok(None) => Ok(None),
        Err(AllocError) => Err(memory()),
    }
}

/// Modules at the placements of their program, with the lines of what is found in them.
#[derive(Drop)]
pub(crate) struct Looked<'a> {
    pub(crate) settled: SettledModules<'a>,
    pub(crate) mixed: Option<String>,
    pub(crate) long: Option<String>,
    pub(crate) near: Option<String>,
}

/// The modules of a program at their placements, if what is found in them is allowed. A look refuses before there is a fault of the externals, but for a name that
/// is not defined.
///
/// # Errors
///
/// The names that are not defined; otherwise the line of a look, if it finds what is not allowed; otherwise why the modules have no places. Out of memory.
pub(crate) fn settled_of<'a>(
    alloc: Global,
    program: Origins<'a>,
    options: &ExeOptions<'_>,
) -> Result<Looked<'a>, Refusal>
    ensures same { IfOk result (λ l. l.settled ≡ program.entry.modules.now) }
    ensures alone { IfOk result (λ _. IsAlone options.now.kind program.entry.modules.now) }
    ensures mixed { IfOk result (λ l. IsLooked (IsMixedOf program.entry.modules.now) options.now.allows_mixed (is_some l.mixed)) }
    ensures long { IfOk result (λ l. IsLooked (IsLongOf program.entry.modules.now) options.now.allows_long (is_some l.long)) }
    ensures near { IfOk result (λ l. IsLooked (IsNearOf program.entry.modules.now) options.now.allows_near (is_some l.near)) }
    ensures refused { IfErr result (IsRefusalFor (IsNotSettledOf options.now program.entry.modules.now)) }
{
    if program.modules.len() > u32::MAX as usize {
        return Err(memory());
    }
    let mixed = mixed(alloc, program, options.allows_mixed);
    let laid = match LaidModules::of(alloc, program.modules) {
        Ok(laid) => laid,
        Err(fault) => {
            mixed?;
            return Err(of_layout(alloc, fault));
        }
    };
    let long = long(alloc, program, &laid, options.allows_long);
    let alone = alone(alloc, program, &laid, options.kind);
    let settled = laid.settled(alloc);
    if let Err(DeriveFault::Undefined { .. }) = &settled {
        return Err(undefined(alloc, program));
    }
    let mixed = mixed?;
    let long = long?;
    let settled = match settled {
        Ok(settled) => settled,
        Err(fault) => return Err(of_external(alloc, program, fault)),
    };
    let near = near(alloc, program, &settled, options.allows_near)?;
    alone?;
    Ok(Looked {
        settled,
        mixed,
        long,
        near,
    })
}

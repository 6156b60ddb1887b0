//! The lines of a fault, by names.

ghost use Rattle.std.specs.Prelude.{◌≡◌, ◌<◌, ◌^◌, IfOk, List, ℕ, length, map, string_bytes};
ghost use Rattle.omf_records.specs.Inner.Seen.{map_ok};
ghost use Rattle.omf_check.specs.Module.{typed_modules};
ghost use Rattle.omf_linking.specs.declared.fault.LinkFault.TheVariants.{External, Reach, Space};
ghost use Rattle.omf_lines.specs.Faults.{IsNamed, is_of_modules};
ghost use Rattle.omf_lines.specs.Named.{AreBefore, HasLines};
ghost use Rattle.omf_externals.specs.Unresolved.{AreLines};

use crate::fault::ImageFault;
use crate::lines::{Labeled, beyond_line, high_line, overlap_line, reach_line, starts_line};
use crate::text_line::text_lines;
use omf_externals::unresolved_text;
use omf_linking::LinkFault;
use omf_linking::locator::sparse_places;
use omf_linking::space::MemoryFault;
use omf_reloc::{DeriveFault, ReachFault};
use std::alloc::{AllocError, Global};

/// Whether a fault is about a module and its parts, or about a line of the text: then it has lines by their names.
fn is_of_modules(fault: LinkFault) -> bool
    ensures { result ≡ is_of_modules fault }
{
    match fault {
        LinkFault::External(DeriveFault::Undefined { .. }) => true,
        LinkFault::External(DeriveFault::Twice { .. }) => true,
        LinkFault::External(DeriveFault::TooHigh { .. }) => true,
        LinkFault::External(DeriveFault::Memory) => false,
        LinkFault::Reach { .. } => true,
        LinkFault::Starts { .. } => true,
        LinkFault::Space(MemoryFault::Beyond(_)) => true,
        LinkFault::Space(MemoryFault::Overlap { .. }) => true,
        LinkFault::Space(MemoryFault::Memory) => false,
        LinkFault::Memory => false,
        LinkFault::Read => false,
        LinkFault::Refused { .. } => false,
        LinkFault::NoText(_) => false,
        LinkFault::NoModules => false,
        LinkFault::Line { .. } => true,
    }
}

/// The lines of the names that have no public or more than one, at the placements of a link text.
fn unresolved_lines(alloc: Global, named: Labeled<'_>, text: &[u8]) -> Result<String, AllocError>
    requires { length named.modules.now < 2 ^ 32 }
    ensures { IfOk result (λ lines. AreLines (map string_bytes named.entry.labels.now) (typed_modules named.entry.modules.now) text.now (string_bytes lines)) }
{
    match sparse_places(alloc, named.modules, text) {
        Ok(by_hand) => unresolved_text(alloc, named.labels, named.modules, &by_hand),
        Err(_) => Err(AllocError),
    }
}

/// The line of segments that do not fit in one memory; none if memory ran out.
fn space_line(alloc: Global, named: Labeled<'_>, fault: MemoryFault) -> Result<String, AllocError>
    ensures { IfOk result (λ line. (text : List ℕ) → HasLines (map string_bytes named.entry.labels.now) (typed_modules named.entry.modules.now) text (Space fault) (string_bytes line)) }
{
    match fault {
        MemoryFault::Memory => Ok(String::new(alloc)),
        MemoryFault::Beyond(owner) => beyond_line(alloc, named, owner),
        MemoryFault::Overlap {
            address,
            first,
            second,
        } => overlap_line(alloc, named, address, first, second),
    }
}

/// The lines of a fault of an external; none if memory ran out.
fn external_lines(
    alloc: Global,
    named: Labeled<'_>,
    text: &[u8],
    fault: DeriveFault,
) -> Result<String, AllocError>
    requires { length named.modules.now < 2 ^ 32 }
    ensures { IfOk result (λ lines. HasLines (map string_bytes named.entry.labels.now) (typed_modules named.entry.modules.now) text.now (External fault) (string_bytes lines)) }
{
    match fault {
        DeriveFault::Memory => Ok(String::new(alloc)),
        DeriveFault::Undefined { .. } => unresolved_lines(alloc, named, text),
        DeriveFault::Twice { .. } => unresolved_lines(alloc, named, text),
        DeriveFault::TooHigh { module, external } => high_line(alloc, named, module, external),
    }
}

/// The bytes of lines.
fn bytes_of(lines: Result<String, AllocError>) -> Result<Vec<u8>, AllocError>
    ensures { map_ok (λ v. v.items) result ≡ map_ok string_bytes lines }
{
    match lines {
        Ok(lines) => Ok(lines.into_bytes()),
        Err(error) => Err(error),
    }
}

/// The lines of the names that have no public or more than one, if a text has no line for a segment or no frame for a group; else none.
fn lines_before(
    alloc: Global,
    named: Labeled<'_>,
    text: &[u8],
    fault: ReachFault,
) -> Result<String, AllocError>
    requires { length named.modules.now < 2 ^ 32 }
    ensures { IfOk result (λ lines. AreBefore (map string_bytes named.entry.labels.now) (typed_modules named.entry.modules.now) text.now fault (string_bytes lines)) }
{
    match fault {
        ReachFault::Missing(..) => unresolved_lines(alloc, named, text),
        ReachFault::Extra(..) => Ok(String::new(alloc)),
        ReachFault::Absolute(_) => Ok(String::new(alloc)),
        ReachFault::TooFar { .. } => Ok(String::new(alloc)),
    }
}

/// The lines of a fault of a module's placement.
fn reach_lines(
    alloc: Global,
    named: Labeled<'_>,
    text: &[u8],
    module: u32,
    fault: ReachFault,
) -> Result<String, AllocError>
    requires { length named.modules.now < 2 ^ 32 }
    ensures { IfOk result (λ lines. HasLines (map string_bytes named.entry.labels.now) (typed_modules named.entry.modules.now) text.now (Reach «module» fault) (string_bytes lines)) }
{
    let mut lines = lines_before(alloc, named, text, fault)?;
    let line = reach_line(alloc, named, module, fault)?;
    lines.push_str(&line)?;
    Ok(lines)
}

/// The lines of a fault, by names; none for a fault that is not about a module and its parts, and about no line of the text.
fn lines_of(
    alloc: Global,
    named: Labeled<'_>,
    text: &[u8],
    fault: LinkFault,
) -> Result<Vec<u8>, AllocError>
    requires { length named.modules.now < 2 ^ 32 }
    ensures { IfOk result (λ lines. HasLines (map string_bytes named.entry.labels.now) (typed_modules named.entry.modules.now) text.now fault lines.items) }
{
    match fault {
        LinkFault::External(fault) => bytes_of(external_lines(alloc, named, text, fault)),
        LinkFault::Reach { module, fault } => {
            bytes_of(reach_lines(alloc, named, text, module, fault))
        }
        LinkFault::Starts { first, second } => {
            bytes_of(starts_line(alloc, named.labels, first, second))
        }
        LinkFault::Space(fault) => bytes_of(space_line(alloc, named, fault)),
        LinkFault::Line { line, why } => text_lines(alloc, named.modules, text, line, why),
        LinkFault::Memory => Ok(Vec::new(alloc)),
        LinkFault::Read => Ok(Vec::new(alloc)),
        LinkFault::Refused { .. } => Ok(Vec::new(alloc)),
        LinkFault::NoText(_) => Ok(Vec::new(alloc)),
        LinkFault::NoModules => Ok(Vec::new(alloc)),
    }
}

/// A fault of modules at the placements of a link text, with its lines by names if it is about a module and its parts: a line for each name
/// without a public or with more than one, if it is about such a name; or with those of `text_lines`, if it is about a line of the text.
/// `Memory` if memory runs out for these.
pub fn named(alloc: Global, named: Labeled<'_>, text: &[u8], fault: LinkFault) -> ImageFault
    requires { length named.modules.now < 2 ^ 32 }
    ensures { IsNamed (map string_bytes named.entry.labels.now) (typed_modules named.entry.modules.now) text.now fault result }
{
    if !is_of_modules(fault) {
        return ImageFault::Link(fault);
    }
    match lines_of(alloc, named, text, fault) {
        Ok(lines) => ImageFault::Lines { fault, lines },
        Err(AllocError) => ImageFault::Link(LinkFault::Memory),
    }
}

//! The memory image of several modules as text, and their map.

ghost use Rattle.std.specs.Prelude.{◌≡◌, ◌<◌, ◌^◌, IfOk, Ok, length, map, string_bytes};
ghost use Rattle.omf_records.specs.Inner.Seen.{map_ok};
ghost use Rattle.omf_check.specs.Module.{typed_modules};
ghost use Rattle.omf_linking.specs.Placing.{linked};
ghost use Rattle.omf_linker.specs.Link.Linked.{AreLinked, IsLinked};
ghost use Rattle.omf_linker.specs.Link.Mapped.{IsMapped};

use crate::link::output::Output;
use omf_check::Checked;
use omf_externals::unresolved_text;
use omf_linking::locator::sparse_places;
use omf_linking::{LinkFault, LinkedPlaces, Together, laid_together, link};
use omf_map::given_text;
use omf_placement::Placement;
use std::alloc::Global;

/// Modules at the placements of a link text.
#[derive(Drop)]
pub struct LinkedModules {
    /// The placement of each module, where it runs.
    pub placements: Vec<Placement>,
    /// Where the segments of each module are stored, as a placement.
    pub stored: Vec<Placement>,
    /// The memory that they share, and their start.
    pub together: Together,
}

/// Links modules: gives them the placements of a link text, relocates each, and lays them in one memory, where the text stores them.
///
/// # Errors
///
/// Those of `modules_text`.
pub(crate) fn linked_modules(
    alloc: Global,
    modules: &[Checked],
    text: &[u8],
) -> Result<LinkedModules, LinkFault>
    requires { length modules.now < 2 ^ 32 }
    ensures linked { AreLinked (typed_modules modules.now) text.now result }
    ensures placed { IfOk result (λ l. length l.placements.items ≡ length modules.now) }
    ensures stored { IfOk result (λ l. length l.stored.items ≡ length modules.now) }
{
    let places = link(alloc, modules, text)?;
    let together = laid_together(alloc, modules, &places.placements, &places.stored)?;
    let LinkedPlaces { placements, stored } = places;
    Ok(LinkedModules {
        placements,
        stored,
        together,
    })
}

/// The memory image of modules as text, as that of `modules_text`, and their placements.
///
/// # Errors
///
/// Those of `modules_text`.
pub(crate) fn text_at(
    alloc: Global,
    modules: &[Checked],
    text: &[u8],
) -> Result<(Output, Vec<Placement>), LinkFault>
    requires { length modules.now < 2 ^ 32 }
    ensures shown { IsLinked (typed_modules modules.now) text.now (map_ok (λ r. r.0) result) }
    ensures placed { IfOk result (λ r. length r.1.items ≡ length modules.now) }
    ensures linked { IfOk result (λ r. linked (typed_modules modules.now) text.now ≡ Ok r.1.items) }
{
    let linked = linked_modules(alloc, modules, text)?;
    let LinkedModules {
        placements,
        together,
        ..
    } = linked;
    let shown = Output::of_memory(alloc, together.memory, together.start)?;
    Ok((shown, placements))
}

/// The memory image of modules as text, at the placements that a link text gives them: the bytes of the memory that they share, where the text
/// stores them, and their start address, in the form of `Output::of_memory`.
///
/// # Errors
///
/// The first of: `Line`, `Reach` and `External` if the text gives no placements, as in `link`; `Reach` for the first module whose placement
/// does not reach; `Space` if the segments do not fit in one memory; `Starts` if two main modules have a start address. `Memory` if
/// memory runs out.
pub fn modules_text(alloc: Global, modules: &[Checked], text: &[u8]) -> Result<Output, LinkFault>
    requires { length modules.now < 2 ^ 32 }
    ensures { IsLinked (typed_modules modules.now) text.now result }
{
    match text_at(alloc, modules, text) {
        Ok((shown, placements)) => {
            drop(placements);
            Ok(shown)
        }
        Err(fault) => Err(fault),
    }
}

/// The map of modules at the addresses that a link text gives them, as `given_text` prints it, and after it the lines of `unresolved_text`: one for each
/// name that an external asks for and no public or more than one has. The text need not give each entry a place.
///
/// # Errors
///
/// `Line` for the first line of the text that does not fit, as in `sparse_places`. `Memory` if memory runs out.
pub fn modules_map(
    alloc: Global,
    labels: &[String],
    modules: &[Checked],
    text: &[u8],
) -> Result<String, LinkFault>
    requires { length modules.now < 2 ^ 32 }
    ensures { IsMapped (map string_bytes labels.now) (typed_modules modules.now) text.now (map_ok (λ shown. string_bytes shown) result) }
{
    let given = sparse_places(alloc, modules, text)?;
    let mut shown = given_text(alloc, modules, &given)?;
    let unresolved = unresolved_text(alloc, labels, modules, &given)?;
    shown.push_str(unresolved.as_str())?;
    Ok(shown)
}

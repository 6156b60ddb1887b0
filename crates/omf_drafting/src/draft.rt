//! The draft of a link's text.

ghost use Rattle.std.specs.Prelude.{◌≡◌, ◌<◌, ◌^◌, [], All, List, ℕ, IfOk, length, string_bytes, zip, Some, slice_get};
ghost use Rattle.std.specs.List.{AllZip};
ghost use Rattle.omf_records.specs.Inner.Seen.{map_ok};
ghost use Rattle.omf_records.specs.Values.{Rec as Typed};
ghost use Rattle.omf_placement.specs.Placement.{Places};
ghost use Rattle.omf_layout.specs.Layout.{IsAnswer, Laid};
ghost use Rattle.omf_layout.specs.Reading.{AreShort};
ghost use Rattle.omf_layout.specs.Several.Placing.{arranged_places};
ghost use Rattle.omf_check.specs.Module.{typed_modules};
ghost use Rattle.omf_linking.specs.Locator.Drafted.{HasEntries};
ghost use Rattle.omf_drafting.specs.Reading.{HasFew, IsReadBack};
ghost use Rattle.omf_drafting.specs.Text.{drafted, link_text};

use crate::part::{Part, print_opening, print_part};
use omf_check::Checked;
use omf_externals::NameTable;
use omf_layout::several::place_segments;
use omf_layout::{Frames, LayoutFault, Options};
use omf_linking::locator::forms::{TextTable, module_texts};
use omf_linking::locator::{Shares, shares_of};
use omf_placement::Placement;
use std::alloc::{AllocError, Global};

/// Returns the text of modules at these placements.
fn text_of(
    alloc: Global,
    modules: &[Checked],
    frames: Frames,
    placements: &[Placement],
) -> Result<String, AllocError>
    requires few { length modules.now < 2 ^ 32 }
    requires entries { AllZip HasEntries (typed_modules modules.now) placements.now }
    ensures text { IfOk result (λ text. string_bytes text ≡ link_text frames (typed_modules modules.now) placements.now) }
    ensures short { IfOk result (λ text. All AreShort placements.now) }
    ensures entries { IfOk result (λ text. All HasFew (typed_modules modules.now)) }
{
    let all = NameTable::of(alloc, modules)?;
    let kept = module_texts(alloc, modules)?;
    let names: &[String] = &kept;
    let table = TextTable::of(alloc, names)?;
    let shared = shares_of(alloc, modules, placements)?;
    let shares: &[Shares] = &shared;
    let mut text = String::new(alloc);
    for (number, module) in modules.iter().enumerate() {
        let repeated = table.is_repeated(names[number].as_bytes());
        print_opening(&mut text, module, number as u32, repeated)?;
        let part = Part {
            frames,
            placement: &placements[number],
            shares: &shares[number],
        };
        print_part(alloc, &mut text, module, &part, &all)?;
    }
    Ok(text)
}

/// Returns a first text for a link. For each module it has a line `M` with the module's key; a line for each segment at its place from
/// `place_segments`, with its class, alignment and length in a comment; a line for each group with its frame; and for each external that
/// sees no public of its name an `X` line in a comment, where its place is to be filled in, with a communal's length. A later part of a segment,
/// and a later group of a name, share the frame of the first by `shared`, as `shares_of` of `omf_linking::locator` has it. A local external
/// sees the local publics of its module, any other the publics of all modules. Each line names its module or entry by a key of
/// `omf_linking::locator::forms`: a name that no other has, else a segment's name and class, else its number.
///
/// # Errors
///
/// `NoRoom` if a segment does not fit below the limit; `Memory` if memory runs out.
pub fn link_draft(
    alloc: Global,
    modules: &[Checked],
    options: Options,
) -> Result<String, LayoutFault>
    requires { length modules.now < 2 ^ 32 }
    ensures text { IsAnswer (drafted options (typed_modules modules.now)) (map_ok string_bytes result) }
    // Read back, it gives each module its places from `place_segments`.
    ensures read { IfOk result (λ text. (l : Laid (List Places)) → arranged_places options (typed_modules modules.now) ≡ Some l → IsReadBack (typed_modules modules.now) l.what (string_bytes text)) }
{
    let (placements, _free) = place_segments(alloc, modules, options)?;
    let text = text_of(alloc, modules, options.frames, &placements)?;
    Ok(text)
}

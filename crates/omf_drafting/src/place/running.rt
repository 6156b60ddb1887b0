//! A run of `omf-place`, from a reader to a writer.

ghost use Rattle.std.specs.Prelude.{◌≡◌, ℕ, List, Some, string_bytes};
ghost use Rattle.omf_records.specs.Inner.Seen.{map_ok};
ghost use Rattle.omf_check.specs.Module.{recs_of};
ghost use Rattle.omf_drafting.specs.Place.Drafts.{IsDrafted};
ghost use Rattle.omf_drafting.specs.Place.Runs.{Drafts, IsDraftCause, IsRun};
ghost use Rattle.omf_drafting.specs.Suiting.{module_options};

use crate::options::AskedOptions;
use crate::place::fault::PlaceFault;
use crate::suiting::module_options;
use omf_check::{Checked, Profile, check};
use omf_cmd::{RunFault, print_all};
use omf_frame::{Sink, Source};
use omf_layout::{draft_text, layout_of};
use std::alloc::Global;

/// Drafts a placement for a module, as a text, with the frames that are asked for, or else those that suit the module.
///
/// # Errors
///
/// `NoRoom` if the module has no layout with these options; `Run` with `Memory` if memory runs out.
pub fn placed_text(
    alloc: Global,
    module: &Checked,
    asked: AskedOptions,
) -> Result<String, PlaceFault>
    ensures { IsDrafted (module_options (recs_of «module».now.bytes) asked) (recs_of «module».now.bytes) (map_ok (λ text. string_bytes text) result) }
{
    let options = module_options(module, asked);
    let layout = layout_of(alloc, module, options)?;
    let text = draft_text(alloc, module, options, &layout)?;
    Ok(text)
}

/// Drafts a placement for the module at the front of the input. Nothing after the module is read.
fn drafted<S: Source>(
    alloc: Global,
    asked: AskedOptions,
    reader: &mut S,
) -> Result<String, PlaceFault>
    ensures answer { (input : List ℕ) → (S.seen reader.old).bytes ≡ Some input → Drafts asked input (S.seen reader.old).bytes (S.seen reader.new).bytes (map_ok (λ text. string_bytes text) result) }
    ensures cause { IsDraftCause (S.seen reader.old) (S.seen reader.new) (map_ok (λ text. string_bytes text) result) }
{
    let profile = Profile {
        refuse_vendor_comments: false,
    };
    let checked = check(alloc, reader, profile)?;
    placed_text(alloc, &checked, asked)
}

/// Writes the draft of a placement for the module at the front of the input. Nothing after the module is read. Nothing is written unless
/// the draft succeeds.
///
/// # Errors
///
/// `Run` with `Refused` if the input does not begin with a well-formed module; `NoRoom` if it has no layout with these options; `Run` with
/// `Read` or `Write` if that device fails, and with `Memory` if memory runs out.
pub fn run_place<S: Source, K: Sink>(
    alloc: Global,
    asked: AskedOptions,
    reader: &mut S,
    writer: &mut K,
) -> Result<(), PlaceFault>
    ensures { IsRun asked (S.seen reader.old) (S.seen reader.new) (K.seen writer.old) (K.seen writer.new) result }
{
    let text = drafted(alloc, asked, reader)?;
    print_all(writer, text.as_bytes(), PlaceFault::Run(RunFault::Write))
}

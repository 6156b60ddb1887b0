//! The job `reloc`.

ghost use Rattle.std.specs.Prelude.{◌≡◌, ℕ, List, Some};
ghost use Rattle.omf_check.specs.Module.{records_in, recs_of};
ghost use Rattle.omf_cmd.specs.Relocating.{IsAnswered, IsListingAt, IsOutcome, IsPlaced, IsRelocation};
ghost use Rattle.omf_cmd.specs.Runs.{IsCausedBy, IsPrintCause, IsReadCause, PrintsInPieces};

use crate::fault::RunFault;
use crate::image_text::print_image;
use crate::input::{TEXT_LIMIT, read_text};
use omf_check::{Checked, Profile, check};
use omf_frame::{Sink, Source};
use omf_image::Image;
use omf_reloc::{AnswerAt, Placement, parse_placement, relocate_at};
use std::alloc::{AllocError, Global};
use std::marker::Model;

/// What `reloc` prints of a module at a placement: the segments of its image, and its start. Contracts see it as that text.
#[derive(Drop)]
pub struct Listing {
    image: Image,
    segments: u16,
    start: Option<(u16, u32)>,
}

impl Model for Listing {
    ghost use Rattle.std.specs.Prelude.{ℕ, List};
    ghost use Rattle.omf_image.specs.Inner.Joined.{runs_of};
    ghost use Rattle.omf_image.specs.Overlay.{byte_at};
    ghost use Rattle.omf_cmd.specs.Relocated.{image_text};

    ghost Value = { List ℕ };

    ghost view = { λ l. image_text l.segments (byte_at l.image) (runs_of l.image) l.start };
}

impl Listing {
    /// Relocates a module by a placement text.
    ///
    /// # Errors
    ///
    /// The first of: `TooLong` if the text has more than 4,194,304 bytes; `Line` for a line that is no entry, or a `G real` line whose group has
    /// no frame; `Reach` if the placement does not fit the module, or a fixup or the start is out of range. `Memory` if memory ran out.
    pub fn of(alloc: Global, checked: &Checked, text: &[u8]) -> Result<Listing, RunFault>
        ensures { IsOutcome (recs_of checked.now.bytes) text.now result }
    {
        let placement = placement_by(alloc, checked, text)?;
        Listing::at(alloc, checked, &placement)
    }

    /// Relocates a module by a placement: the listing of what `relocate_at` answers.
    ///
    /// # Errors
    ///
    /// `Reach` if the placement does not fit the module, or a fixup or the start is out of range; otherwise `Memory` if memory ran out.
    pub fn at(alloc: Global, checked: &Checked, placement: &Placement) -> Result<Listing, RunFault>
        ensures { IsListingAt placement.now (records_in checked.now.bytes) result }
    {
        match relocate_at(alloc, checked, placement) {
            Ok(AnswerAt::DoesNotReach(fault)) => Err(RunFault::Reach(fault)),
            Ok(AnswerAt::Relocated { image, start }) => Ok(Listing {
                image,
                segments: checked.segments(),
                start,
            }),
            Err(AllocError) => Err(RunFault::Memory),
        }
    }

    /// Prints the listing. The text is written in pieces of 64 KB or a line more; no more than that is kept in memory.
    ///
    /// # Errors
    ///
    /// `Write` if the writer failed, `Memory` if memory ran out. A front of the text may then be written.
    pub fn print<K: Sink>(&self, alloc: Global, writer: &mut K) -> Result<(), RunFault>
        ensures prints { PrintsInPieces (K.seen writer.old).bytes (K.seen writer.new).bytes result self.now }
        ensures cause { IsPrintCause (K.seen writer.old) (K.seen writer.new) result }
    {
        print_image(alloc, writer, &self.image, self.segments, self.start)
    }
}

/// Relocates the module at the front of the input by the placement text after it, and prints its image and its start. Nothing is written
/// before all faults but Write and Memory are excluded. The writer is not flushed.
///
/// # Errors
///
/// The first of: `Refused` if the input does not begin with a well-formed module; `TooLong` if the text has more than 4,194,304 bytes; `Line`
/// for a line that is no entry, or a `G real` line whose group has no frame; `Reach` if the placement does not fit the module, or a fixup is
/// out of range. `Read` or `Write` if that device failed, `Memory` if memory ran out. At `Write` and at `Memory` a front of the text may be
/// written.
pub fn run_reloc<S: Source, K: Sink>(
    alloc: Global,
    profile: Profile,
    reader: &mut S,
    writer: &mut K,
) -> Result<(), RunFault>
    // A device is named only if it failed, at once or after 1,000 interruptions. One that is not named did not break.
    ensures cause { IsCausedBy (S.seen reader.old) (S.seen reader.new) (K.seen writer.old) (K.seen writer.new) result }
    // The answer is the defined one. The whole text is written, or a front of it if the writer failed or memory ran out. The input is read as
    // far as decides a refusal, one byte beyond the limit of a text that is too long, and else to its end.
    ensures prints { IsRelocation profile (S.seen reader.old) (S.seen reader.new) (K.seen writer.old) (K.seen writer.new) result }
{
    let listing = listed(alloc, profile, reader)?;
    listing.print(alloc, writer)
}

/// Reads a module and a placement text, and relocates the module.
fn listed<S: Source>(alloc: Global, profile: Profile, reader: &mut S) -> Result<Listing, RunFault>
    ensures answer { (input : List ℕ) → (S.seen reader.old).bytes ≡ Some input → IsAnswered profile input (S.seen reader.old).bytes (S.seen reader.new).bytes result }
    ensures cause { IsReadCause (S.seen reader.old) (S.seen reader.new) result }
{
    let checked = check(alloc, reader, profile)?;
    let text = read_text(alloc, reader)?;
    Listing::of(alloc, &checked, &text)
}

/// The placement that a text gives a module.
///
/// # Errors
///
/// `TooLong` if the text has more than 4,194,304 bytes; `Line` for the first line that is no entry, or a `G real` line whose group has no
/// frame. `Memory` if memory ran out.
pub fn placement_by(alloc: Global, checked: &Checked, text: &[u8]) -> Result<Placement, RunFault>
    ensures { IsPlaced (recs_of checked.now.bytes) text.now result }
{
    if text.len() > TEXT_LIMIT {
        return Err(RunFault::TooLong);
    }
    let draft = parse_placement(alloc, text)?;
    Ok(draft.resolve(alloc, checked)?)
}

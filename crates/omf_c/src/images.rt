//! The image of a module at a placement, as runs and their bytes, and its start.

ghost use Rattle.std.specs.Prelude.{◌≡◌, IfOk};
ghost use Rattle.omf_check.specs.Module.{recs_of};
ghost use Rattle.omf_records.specs.Inner.Seen.{map_ok};
ghost use Rattle.omf_c.specs.Images.{HandsBoth, IsMadeAt, IsMadeOf, image_shown, relocated, rows_if, start_rows};
ghost use Rattle.omf_c.specs.Placed.{IsMadeFor, IsMadeWith, places_of};

use crate::answer::{Answer, NOTHING, hand_out};
use crate::making::module_of;
use crate::placing::placement_of;
use crate::rows::{PlacementRows, RunRow, StartRow};
use crate::runs::{Shown, shown_of};
use omf_check::{Checked, Profile};
use omf_cmd::{RunFault, placement_by};
use omf_image::Image;
use omf_reloc::{AnswerAt, Placement, relocate_at};
use std::alloc::{AllocError, Global};
use std::marker::Model;

/// A module at a placement: its image, the number of its segments, and its start. Contracts see the runs of the image with their bytes, and the
/// start.
#[derive(Drop)]
struct Relocated {
    image: Image,
    segments: u16,
    start: Option<(u16, u32)>,
}

impl Model for Relocated {
    ghost use Rattle.std.specs.Prelude.{ℕ, Option};
    ghost use Rattle.omf_image.specs.Inner.Joined.{runs_of};
    ghost use Rattle.omf_image.specs.Overlay.{byte_at};
    ghost use Rattle.omf_c.specs.Runs.{Shown as ShownModel, shown_of};

    ghost Value = { ShownModel × Option (ℕ × ℕ) };

    ghost view = { λ r. (shown_of r.segments (byte_at r.image) (runs_of r.image), r.start) };
}

/// A module at a placement, or the first reason why the placement does not reach.
fn relocated_at(
    alloc: Global,
    checked: &Checked,
    placement: &Placement,
) -> Result<Relocated, RunFault>
    ensures { IsMadeFor relocated placement.now (recs_of checked.now.bytes) result }
{
    match relocate_at(alloc, checked, placement) {
        Ok(AnswerAt::Relocated { image, start }) => Ok(Relocated {
            image,
            segments: checked.segments(),
            start,
        }),
        Ok(AnswerAt::DoesNotReach(fault)) => Err(RunFault::Reach(fault)),
        Err(AllocError) => Err(RunFault::Memory),
    }
}

/// A module at the placement that a text gives, or the first fault.
#[tactic(auto, using(crate::proofs::PlacedLaws::by_text, crate::proofs::PlacedLaws::not_placed))]
fn relocated_by(alloc: Global, checked: &Checked, text: &[u8]) -> Result<Relocated, RunFault>
    ensures { IsMadeAt relocated (recs_of checked.now.bytes) text.now result }
{
    let placement = placement_by(alloc, checked, text)?;
    relocated_at(alloc, checked, &placement)
}

/// The module at the start of the bytes, at the placement that a text gives.
#[tactic(auto, using(crate::proofs::PlacedLaws::made_of))]
fn relocated_of(
    alloc: Global,
    profile: Profile,
    bytes: &[u8],
    text: &[u8],
) -> Result<Relocated, RunFault>
    ensures { IsMadeOf relocated profile bytes.now text.now result }
{
    let checked = module_of(alloc, profile, bytes)?;
    relocated_by(alloc, &checked, text)
}

/// The image of the module at the start of the bytes, at the placement that a text gives.
#[tactic(auto, using(crate::proofs::PlacedLaws::not_made))]
pub(crate) fn image(
    alloc: Global,
    profile: Profile,
    bytes: &[u8],
    text: &[u8],
) -> Result<Shown, RunFault>
    ensures { IsMadeOf image_shown profile bytes.now text.now result }
{
    let relocated = relocated_of(alloc, profile, bytes, text)?;
    Ok(shown_of(alloc, &relocated.image, relocated.segments)?)
}

/// A start as a table of one row, or of none.
fn rows_if(alloc: Global, start: Option<(u16, u32)>) -> Result<Vec<StartRow>, AllocError>
    ensures { IfOk result (λ v. v.items ≡ rows_if start) }
{
    let mut rows = Vec::new(alloc);
    if let Some((selector, offset)) = start {
        rows.push(StartRow {
            selector: u32::from(selector),
            offset,
        })?;
    }
    Ok(rows)
}

/// The start of the module at the start of the bytes, at the placement that a text gives.
#[tactic(auto, using(crate::proofs::PlacedLaws::not_made))]
pub(crate) fn start_rows(
    alloc: Global,
    profile: Profile,
    bytes: &[u8],
    text: &[u8],
) -> Result<Vec<StartRow>, RunFault>
    ensures { IsMadeOf start_rows profile bytes.now text.now (map_ok (λ v. v.items) result) }
{
    let relocated = relocated_of(alloc, profile, bytes, text)?;
    Ok(rows_if(alloc, relocated.start)?)
}

/// The module at the start of the bytes, at the placement that rows give.
#[tactic(auto, using(crate::proofs::PlacedLaws::made_with))]
fn relocated_with(
    alloc: Global,
    profile: Profile,
    bytes: &[u8],
    rows: &PlacementRows<'_>,
) -> Result<Relocated, RunFault>
    ensures { IsMadeWith relocated profile bytes.now (places_of rows.now) result }
{
    let checked = module_of(alloc, profile, bytes)?;
    let placement = placement_of(alloc, rows)?;
    relocated_at(alloc, &checked, &placement)
}

/// The image of the module at the start of the bytes, at the placement that rows give.
#[tactic(auto, using(crate::proofs::PlacedLaws::not_made_with))]
pub(crate) fn image_with(
    alloc: Global,
    profile: Profile,
    bytes: &[u8],
    rows: &PlacementRows<'_>,
) -> Result<Shown, RunFault>
    ensures { IsMadeWith image_shown profile bytes.now (places_of rows.now) result }
{
    let relocated = relocated_with(alloc, profile, bytes, rows)?;
    Ok(shown_of(alloc, &relocated.image, relocated.segments)?)
}

/// The start of the module at the start of the bytes, at the placement that rows give.
#[tactic(auto, using(crate::proofs::PlacedLaws::not_made_with))]
pub(crate) fn start_rows_with(
    alloc: Global,
    profile: Profile,
    bytes: &[u8],
    rows: &PlacementRows<'_>,
) -> Result<Vec<StartRow>, RunFault>
    ensures { IsMadeWith start_rows profile bytes.now (places_of rows.now) (map_ok (λ v. v.items) result) }
{
    let relocated = relocated_with(alloc, profile, bytes, rows)?;
    Ok(rows_if(alloc, relocated.start)?)
}

/// Copies an image to the starts of two buffers if its runs fit the one and its bytes the other; else both are unchanged. The result has the
/// number of its bytes and of its runs in either case.
pub(crate) fn hand_out_image(shown: &Shown, runs: &mut [RunRow], out: &mut [u8]) -> Answer
    ensures { HandsBoth shown.now result (runs.old, out.old) (runs.new, out.new) }
{
    let answer = Answer {
        size: shown.bytes.len() as u64,
        record_count: shown.runs.len() as u64,
        ..NOTHING
    };
    if shown.runs.len() > runs.len() || shown.bytes.len() > out.len() {
        return Answer {
            status: 8,
            ..answer
        };
    }
    let _runs = hand_out(&shown.runs, runs);
    let _bytes = hand_out(&shown.bytes, out);
    answer
}

//! The exported calls.

ghost use Rattle.std.specs.Prelude.{◌≡◌};
ghost use Rattle.omf_canon.specs.Canonical.{canonical};
ghost use Rattle.omf_check.specs.WellFormed.{recs};
ghost use Rattle.omf_cmd.specs.Listing.{list_text};
ghost use Rattle.omf_c.specs.Answers.{IsAnswered};
ghost use Rattle.omf_c.specs.Images.{IsImageAnswered, IsMadeOf, start_rows};
ghost use Rattle.omf_c.specs.Making.{IsTextOf, IsPlacedText, IsVerdict};
ghost use Rattle.omf_c.specs.Placed.{IsImageAnsweredAt, IsMadeWith, places_of};

use crate::answer::{Answer, NOTHING, fault_answer, hand_out};
use crate::images::{hand_out_image, image, image_with, start_rows, start_rows_with};
use crate::making::{canonical, listed, module_of, profile, relocated};
use crate::rows::{PlacementRows, RunRow, StartRow};
use std::alloc::Global;

/// Checks the module at the start of the bytes: status 0 with its size and its number of records, or its refusal.
#[unsafe(no_mangle)]
pub extern "C" fn omf_check(alloc: Global, bytes: &[u8], refuse_vendor_comments: bool) -> Answer
    ensures { IsVerdict (record { refuse_vendor_comments = refuse_vendor_comments }) bytes.now result }
{
    match module_of(alloc, profile(refuse_vendor_comments), bytes) {
        Ok(module) => Answer {
            size: module.bytes().len() as u64,
            record_count: u64::from(module.record_count()),
            ..NOTHING
        },
        Err(fault) => fault_answer(fault),
    }
}

/// Lists the module at the start of the bytes, as `omf list` does. At status 0 the text is at the start of the buffer.
#[unsafe(no_mangle)]
pub extern "C" fn omf_list(
    alloc: Global,
    bytes: &[u8],
    refuse_vendor_comments: bool,
    out: &mut [u8],
) -> Answer
    ensures { IsAnswered (IsTextOf list_text (record { refuse_vendor_comments = refuse_vendor_comments }) bytes.now) result out.old out.new }
{
    match listed(alloc, profile(refuse_vendor_comments), bytes) {
        Ok(text) => hand_out(&text, out),
        Err(fault) => fault_answer(fault),
    }
}

/// Relocates the module at the start of the bytes at the placement that a text gives. At status 0 the listing that `omf reloc` prints is at
/// the start of the buffer.
#[unsafe(no_mangle)]
pub extern "C" fn omf_reloc(
    alloc: Global,
    bytes: &[u8],
    placement: &[u8],
    refuse_vendor_comments: bool,
    out: &mut [u8],
) -> Answer
    ensures { IsAnswered (IsPlacedText (record { refuse_vendor_comments = refuse_vendor_comments }) bytes.now placement.now) result out.old out.new }
{
    match relocated(alloc, profile(refuse_vendor_comments), bytes, placement) {
        Ok(text) => hand_out(&text, out),
        Err(fault) => fault_answer(fault),
    }
}

/// Relocates the module at the start of the bytes at the placement that a text gives. At status 0 the runs of its image are at the start of
/// `runs`, by segment and in rising order, and the bytes of all runs, one after another, at the start of the buffer.
#[unsafe(no_mangle)]
pub extern "C" fn omf_image(
    alloc: Global,
    bytes: &[u8],
    placement: &[u8],
    refuse_vendor_comments: bool,
    runs: &mut [RunRow],
    out: &mut [u8],
) -> Answer
    ensures { IsImageAnswered (record { refuse_vendor_comments = refuse_vendor_comments }) bytes.now placement.now result (runs.old, out.old) (runs.new, out.new) }
{
    match image(alloc, profile(refuse_vendor_comments), bytes, placement) {
        Ok(shown) => hand_out_image(&shown, runs, out),
        Err(fault) => fault_answer(fault),
    }
}

/// Hands out the start of the module at the start of the bytes, at the placement that a text gives: a table of one row, or of none if its
/// MODEND names no start.
#[unsafe(no_mangle)]
pub extern "C" fn omf_start(
    alloc: Global,
    bytes: &[u8],
    placement: &[u8],
    refuse_vendor_comments: bool,
    out: &mut [StartRow],
) -> Answer
    ensures { IsAnswered (IsMadeOf start_rows (record { refuse_vendor_comments = refuse_vendor_comments }) bytes.now placement.now) result out.old out.new }
{
    match start_rows(alloc, profile(refuse_vendor_comments), bytes, placement) {
        Ok(rows) => hand_out(&rows, out),
        Err(fault) => fault_answer(fault),
    }
}

/// Relocates the module at the start of the bytes at the placement that arrays give. At status 0 the runs of its image are at the start of
/// `runs`, by segment and in rising order, and the bytes of all runs, one after another, at the start of the buffer.
#[unsafe(no_mangle)]
pub extern "C" fn omf_image_at(
    alloc: Global,
    bytes: &[u8],
    placement: &PlacementRows<'_>,
    refuse_vendor_comments: bool,
    runs: &mut [RunRow],
    out: &mut [u8],
) -> Answer
    ensures { IsImageAnsweredAt (record { refuse_vendor_comments = refuse_vendor_comments }) bytes.now (places_of placement.now) result (runs.old, out.old) (runs.new, out.new) }
{
    match image_with(alloc, profile(refuse_vendor_comments), bytes, placement) {
        Ok(shown) => hand_out_image(&shown, runs, out),
        Err(fault) => fault_answer(fault),
    }
}

/// Hands out the start of the module at the start of the bytes, at the placement that arrays give: a table of one row, or of none if its
/// MODEND names no start.
#[unsafe(no_mangle)]
pub extern "C" fn omf_start_at(
    alloc: Global,
    bytes: &[u8],
    placement: &PlacementRows<'_>,
    refuse_vendor_comments: bool,
    out: &mut [StartRow],
) -> Answer
    ensures { IsAnswered (IsMadeWith start_rows (record { refuse_vendor_comments = refuse_vendor_comments }) bytes.now (places_of placement.now)) result out.old out.new }
{
    match start_rows_with(alloc, profile(refuse_vendor_comments), bytes, placement) {
        Ok(rows) => hand_out(&rows, out),
        Err(fault) => fault_answer(fault),
    }
}

/// Makes the canonical bytes of the module at the start of the bytes. At status 0 they are at the start of the buffer.
#[unsafe(no_mangle)]
pub extern "C" fn omf_canon(
    alloc: Global,
    bytes: &[u8],
    refuse_vendor_comments: bool,
    out: &mut [u8],
) -> Answer
    ensures { IsAnswered (IsTextOf (λ records. canonical (recs records)) (record { refuse_vendor_comments = refuse_vendor_comments }) bytes.now) result out.old out.new }
{
    match canonical(alloc, profile(refuse_vendor_comments), bytes) {
        Ok(text) => hand_out(&text, out),
        Err(fault) => fault_answer(fault),
    }
}

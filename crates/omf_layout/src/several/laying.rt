//! Laying the segments of one class and name.

ghost use Rattle.std.specs.Prelude.{◌≡◌, ◌≤◌, ◌<◌, ◌+◌, ◌++◌, ◌^◌, IfOk, OnOk};
ghost use Rattle.omf_records.specs.Inner.Seen.{map_ok};
ghost use Rattle.omf_layout.specs.Layout.{IsAnswer, and_then_more, all_laid};
ghost use Rattle.omf_layout.specs.Room.{limit};
ghost use Rattle.omf_layout.specs.Several.Laying.{all_at, alone_laid, common_laid, joined_in, joined_laid, laid, longest, run_laid, strictest};

use crate::room::address_from;
use crate::several::portion::{Combination, Portion};
use crate::several::runs::combined_by;
use crate::spot::segment_spot;
use crate::{LayoutFault, Options};
use omf_placement::{Frame, Placed};
use std::alloc::{AllocError, Global};

/// A segment and its place.
pub type Lying = (Portion, Placed);

/// Lays segments one after another in a frame. Returns the first free address after them.
fn lay_in_frame(
    lying: &mut Vec<Lying>,
    options: Options,
    frame: Frame,
    free: u64,
    portions: &[Portion],
) -> Result<u64, LayoutFault>
    requires { free ≤ 2 ^ 32 }
    ensures answer { IsAnswer (and_then_more lying.old.items (all_laid (joined_in options.frames frame) free portions.now)) (map_ok (laid lying.new.items) result) }
    ensures low { IfOk result (λ f. f ≤ 2 ^ 32) }
    ensures from { IfOk result (λ f. free ≤ f) }
{
    let mut free = free;
    for portion in portions {
        let Some(address) = address_from(
            options.frames,
            portion.alignment.bytes(),
            free,
            portion.segment.length,
        ) else {
            return Err(LayoutFault::NoRoom);
        };
        lying.push((*portion, Placed { address, frame }))?;
        free = u64::from(address) + portion.segment.length;
    }
    Ok(free)
}

/// Lays joined segments. Returns the first free address after them.
fn lay_joined(
    lying: &mut Vec<Lying>,
    options: Options,
    free: u64,
    portions: &[Portion],
) -> Result<u64, LayoutFault>
    requires { free ≤ 2 ^ 32 }
    ensures answer { IsAnswer (and_then_more lying.old.items (joined_laid options.frames free portions.now)) (map_ok (laid lying.new.items) result) }
    ensures low { IfOk result (λ f. f ≤ 2 ^ 32) }
    ensures from { IfOk result (λ f. free ≤ f) }
{
    match portions {
        [] => Ok(free),
        [first, ..] => {
            let alignment = first.alignment.bytes();
            let Some(address) = address_from(options.frames, alignment, free, first.segment.length)
            else {
                return Err(LayoutFault::NoRoom);
            };
            let frame = options.frames.frame_at(address);
            lay_in_frame(lying, options, frame, free, portions)
        }
    }
}

/// Returns the strictest alignment of segments.
fn strictest(portions: &[Portion]) -> u16
    ensures value { result ≡ strictest portions.now }
    ensures some { 1 ≤ result }
{
    let mut strictest = 1;
    for portion in portions {
        strictest = strictest.max(portion.alignment.bytes());
    }
    strictest
}

/// Returns the length of the longest segment.
fn longest(portions: &[Portion]) -> u64
    ensures { result ≡ longest portions.now }
{
    let mut longest = 0;
    for portion in portions {
        longest = longest.max(portion.segment.length);
    }
    longest
}

/// Lays all segments at one place.
fn lay_at(lying: &mut Vec<Lying>, portions: &[Portion], place: Placed) -> Result<(), AllocError>
    ensures { OnOk result (lying.new.items ≡ lying.old.items ++ all_at portions.now place) }
{
    for portion in portions {
        lying.push((*portion, place))?;
    }
    Ok(())
}

/// Lays common segments. Returns the first free address after them.
fn lay_common(
    lying: &mut Vec<Lying>,
    options: Options,
    free: u64,
    portions: &[Portion],
) -> Result<u64, LayoutFault>
    requires { free ≤ 2 ^ 32 }
    ensures answer { IsAnswer (and_then_more lying.old.items (common_laid options.frames free portions.now)) (map_ok (laid lying.new.items) result) }
    ensures low { IfOk result (λ f. f ≤ 2 ^ 32) }
    ensures from { IfOk result (λ f. free ≤ f) }
{
    match portions {
        [] => Ok(free),
        [_, ..] => {
            let size = longest(portions);
            let Some(address) = address_from(options.frames, strictest(portions), free, size) else {
                return Err(LayoutFault::NoRoom);
            };
            let frame = options.frames.frame_at(address);
            lay_at(lying, portions, Placed { address, frame })?;
            Ok(u64::from(address) + size)
        }
    }
}

/// Lays segments that are alone. Returns the first free address after them.
fn lay_alone(
    lying: &mut Vec<Lying>,
    options: Options,
    free: u64,
    portions: &[Portion],
) -> Result<u64, LayoutFault>
    requires { free ≤ 2 ^ 32 }
    ensures answer { IsAnswer (and_then_more lying.old.items (all_laid (alone_laid options.frames) free portions.now)) (map_ok (laid lying.new.items) result) }
    ensures low { IfOk result (λ f. f ≤ 2 ^ 32) }
    ensures from { IfOk result (λ f. free ≤ f) }
{
    let mut free = free;
    for portion in portions {
        let Some(spot) = segment_spot(options, free, portion.segment, portion.alignment) else {
            return Err(LayoutFault::NoRoom);
        };
        let place = Placed {
            address: spot.address,
            frame: spot.frame,
        };
        lying.push((*portion, place))?;
        free = spot.free;
    }
    Ok(free)
}

/// Lays the segments of one class and name. Returns the first free address after them.
pub fn lay_run(
    alloc: Global,
    lying: &mut Vec<Lying>,
    options: Options,
    free: u64,
    run: &[Portion],
) -> Result<u64, LayoutFault>
    requires { free ≤ 2 ^ 32 }
    ensures answer { IsAnswer (and_then_more lying.old.items (run_laid options.frames free run.now)) (map_ok (laid lying.new.items) result) }
    ensures low { IfOk result (λ f. f ≤ 2 ^ 32) }
    ensures from { IfOk result (λ f. free ≤ f) }
{
    let joined = combined_by(alloc, Combination::Joined, run)?;
    let common = combined_by(alloc, Combination::Common, run)?;
    let alone = combined_by(alloc, Combination::Alone, run)?;
    let free = lay_joined(lying, options, free, &joined)?;
    let free = lay_common(lying, options, free, &common)?;
    lay_alone(lying, options, free, &alone)
}

//! Addresses and frames of the segments of several modules.

ghost use Rattle.std.specs.Prelude.{◌≡◌, ◌≤◌, ◌<◌, ◌^◌, IfOk, length, map};
ghost use Rattle.omf_records.specs.Inner.Seen.{map_ok};
ghost use Rattle.omf_layout.specs.Layout.{IsAnswer};
ghost use Rattle.omf_layout.specs.Several.Laying.{arranged, laid, runs_laid};
ghost use Rattle.omf_layout.specs.Several.Order.{runs_in};
ghost use Rattle.omf_layout.specs.Several.Portions.{with_names};
ghost use Rattle.omf_check.specs.Module.{typed_modules};

use crate::several::laying::{Lying, lay_run};
use crate::several::portion::Classed;
use crate::several::runs::{portions_in_order, runs_in};
use crate::{Frames, LayoutFault, Options};
use omf_check::Checked;
use std::alloc::Global;

/// Lays given segments, each with the names of its class and its own, as `arrange` lays all segments of modules: in the same order, each that is not
/// absolute from the address `from` on, which may be the limit. Returns them with their places, and the first free address after them.
///
/// # Errors
///
/// `NoRoom` if a segment does not fit below the limit; `Memory` if memory runs out.
pub fn lay_portions<'a>(
    alloc: Global,
    frames: Frames,
    from: u64,
    portions: Vec<Classed<'a>>,
) -> Result<(Vec<Lying>, u64), LayoutFault>
    requires { from ≤ 2 ^ 32 }
    ensures answer { IsAnswer (runs_laid frames from (runs_in (map with_names portions.entry.items))) (map_ok (λ r. laid r.0.items r.1) result) }
    ensures low { IfOk result (λ r. r.1 ≤ 2 ^ 32) }
    ensures from { IfOk result (λ r. from ≤ r.1) }
{
    let options = Options { base: 0, frames };
    let runs = runs_in(alloc, portions)?;
    let mut lying = Vec::new(alloc);
    let mut free = from;
    for run in &runs {
        free = lay_run(alloc, &mut lying, options, free, run)?;
    }
    Ok((lying, free))
}

/// Returns the segments of all modules in the order in which they are laid, each with its place, and the first free address after them.
/// The first that is not absolute is at the first address of its alignment from the base on. Joined segments follow one another in the frame of the first, each at the first address of its own
/// alignment. Common segments of one class and name share one address, at the strictest of their alignments, and take the room of the
/// longest. A segment that is alone has a frame of its own; an absolute one is where its SEGDEF puts it and takes no room.
///
/// # Errors
///
/// `NoRoom` if a segment does not fit below the limit; `Memory` if memory runs out.
pub fn arrange(
    alloc: Global,
    modules: &[Checked],
    options: Options,
) -> Result<(Vec<Lying>, u64), LayoutFault>
    requires { length modules.now < 2 ^ 32 }
    ensures answer { IsAnswer (arranged options (typed_modules modules.now)) (map_ok (λ r. laid r.0.items r.1) result) }
    ensures low { IfOk result (λ r. r.1 ≤ 2 ^ 32) }
    ensures from { IfOk result (λ r. options.base ≤ r.1) }
{
    let portions = portions_in_order(alloc, modules)?;
    lay_portions(alloc, options.frames, u64::from(options.base), portions)
}

//! Segments, and members of groups, that end too far from their frame.

ghost use Rattle.std.specs.Prelude.{◌≡◌, ◌+◌, ◌<◌, ◌^◌, length, option_and_then};
ghost use Rattle.omf_check.specs.Module.{recs_of};
ghost use Rattle.omf_check.specs.Tables.{entry, segments};
ghost use Rattle.omf_placement.specs.Derive.{placed_modules};
ghost use Rattle.omf_warnings.specs.Long.{first_alone, first_long, long, long_in_module};

use crate::wide::{FarMember, first_wide, wide_if};
use omf_check::Checked;
use omf_placement::Placement;

/// Returns a segment of a module, if it ends too far from its own frame.
fn long(number: u32, module: &Checked, placement: &Placement, segment: u16) -> Option<FarMember>
    ensures { result ≡ option_and_then (λ s. long number (recs_of «module».now.bytes, placement.now) (segment, s)) (entry (segments (recs_of «module».now.bytes)) segment) }
{
    let info = module.segment(segment)?;
    let place = placement.segment(usize::from(segment))?;
    let attribute = module.attribute(segment)?;
    let found = FarMember {
        module: number,
        group: 0,
        base: 0,
        segment,
        end: 0,
    };
    wide_if(found, place.frame, place, info, attribute)
}

/// Returns the first such segment of a module.
fn in_module(number: u32, module: &Checked, placement: &Placement) -> Option<FarMember>
    ensures { result ≡ long_in_module number (recs_of «module».now.bytes, placement.now) }
{
    for before in 0..module.segments() {
        if let Some(found) = long(number, module, placement, before + 1) {
            return Some(found);
        }
    }
    None
}

/// Returns the first such segment of modules.
fn first_alone(modules: &[Checked], placements: &[Placement]) -> Option<FarMember>
    requires few { length modules.now < 2 ^ 32 }
    requires placed { length placements.now ≡ length modules.now }
    ensures { result ≡ first_alone (placed_modules modules.now placements.now) }
{
    for (j, module) in modules.iter().enumerate() {
        if let Some(found) = in_module(j as u32, module, &placements[j]) {
            return Some(found);
        }
    }
    None
}

/// Returns the first 16-bit segment that ends more than 65536 bytes after the base of its own frame, as a combined segment of more than 64 KB
/// does, in the order of the modules and of their segments; its group is 0. If there is none, returns the first member of a group that ends
/// too far from the group's frame, as `first_wide` does.
pub fn first_long(modules: &[Checked], placements: &[Placement]) -> Option<FarMember>
    requires few { length modules.now < 2 ^ 32 }
    requires placed { length placements.now ≡ length modules.now }
    ensures { result ≡ first_long (placed_modules modules.now placements.now) }
{
    first_alone(modules, placements).or(first_wide(modules, placements))
}

//! Modules at their placements.

ghost use Rattle.std.specs.Prelude.{◌≡◌, ◌<◌, ◌^◌, Err, IfOk, length, zip};
ghost use Rattle.omf_check.specs.Module.{recs_of, typed_modules};
ghost use Rattle.omf_placement.specs.Derive.{placed_modules};
ghost use Rattle.omf_records.specs.Inner.Seen.{map_ok};
ghost use Rattle.omf_linking.specs.Relocated.{AreRelocated, IsRelocation};
ghost use Rattle.omf_linking.specs.Starts.{is_main, main_start, main_starts, one_start};

use crate::fault::LinkFault;
use omf_check::Checked;
use omf_image::Image;
use omf_placement::Placement;
use omf_records::Rec;
use omf_reloc::{RelocateFault, reach, reach_and_relocate, start};
use std::alloc::Global;

/// A module at its placement: its image, and its start if it names one.
#[derive(Drop)]
pub struct Relocated {
    /// The image, by segments and offsets.
    pub image: Image,
    /// The selector and the offset of the start.
    pub start: Option<(u16, u32)>,
}

impl Relocated {
    /// Relocates the module with this number to its placement.
    ///
    /// # Errors
    ///
    /// `Reach` if the placement does not reach, with the first fault. `Memory` if memory runs out.
    pub fn of(
        alloc: Global,
        number: u32,
        module: &Checked,
        placement: &Placement,
    ) -> Result<Relocated, LinkFault>
        ensures { IsRelocation number (recs_of «module».now.bytes, placement.now) result }
    {
        let image = match reach_and_relocate(alloc, module, placement) {
            Ok(image) => image,
            Err(RelocateFault::Memory) => return Err(LinkFault::Memory),
            Err(RelocateFault::Reach(fault)) => {
                let module = number;
                return Err(LinkFault::Reach { module, fault });
            }
        };
        let start = start(module, placement);
        Ok(Relocated { image, start })
    }
}

/// Returns whether a module is a main one (TIS OMF 1.1, "MODEND", bit 7 of its type byte).
fn is_main(module: &Checked) -> bool
    ensures { result ≡ is_main (recs_of «module».now.bytes) }
{
    let Rec::ModEnd { type_byte, .. } = module.end() else {
        return false;
    };
    type_byte >= 128
}

/// Returns the start of a main module, if it names one.
pub(crate) fn main_start(module: &Checked, relocated: &Relocated) -> Option<(u16, u32)>
    ensures { result ≡ main_start (recs_of «module».now.bytes, relocated.now) }
{
    if is_main(module) {
        relocated.start
    } else {
        None
    }
}

/// Returns why modules are not all relocated: the first whose placement does not reach, or else that memory ran out.
fn fault_of(modules: &[Checked], placements: &[Placement]) -> LinkFault
    requires few { length modules.now < 2 ^ 32 }
    requires placed { length placements.now ≡ length modules.now }
    ensures { AreRelocated (placed_modules modules.now placements.now) (Err result) }
{
    for (j, module) in modules.iter().enumerate() {
        if let Err(fault) = reach(module, &placements[j]) {
            let module = j as u32;
            return LinkFault::Reach { module, fault };
        }
    }
    LinkFault::Memory
}

/// Relocates modules, each to its placement.
///
/// # Errors
///
/// `Reach` for the first module whose placement does not reach, however little memory there is; or else `Memory` if memory runs out.
pub fn relocate_all(
    alloc: Global,
    modules: &[Checked],
    placements: &[Placement],
) -> Result<Vec<Relocated>, LinkFault>
    requires few { length modules.now < 2 ^ 32 }
    requires placed { length placements.now ≡ length modules.now }
    ensures relocated { AreRelocated (placed_modules modules.now placements.now) (map_ok (λ v. v.items) result) }
    ensures each { IfOk result (λ v. length v.items ≡ length modules.now) }
{
    let mut relocated = Vec::new(alloc);
    for (j, module) in modules.iter().enumerate() {
        let Ok(at) = Relocated::of(alloc, j as u32, module, &placements[j]) else {
            return Err(fault_of(modules, placements));
        };
        let Ok(()) = relocated.push(at) else {
            return Err(fault_of(modules, placements));
        };
    }
    Ok(relocated)
}

/// Returns the start of the one main module that names one; none if no main module does.
///
/// # Errors
///
/// `Starts` if two or more main modules name a start: the first two of them.
pub fn start_of(
    modules: &[Checked],
    relocated: &[Relocated],
) -> Result<Option<(u16, u32)>, LinkFault>
    requires few { length modules.now < 2 ^ 32 }
    requires relocated { length relocated.now ≡ length modules.now }
    ensures { result ≡ one_start (main_starts (zip (typed_modules modules.now) relocated.now)) }
{
    let mut found: Option<(u32, (u16, u32))> = None;
    for (j, module) in modules.iter().enumerate() {
        let Some(start) = main_start(module, &relocated[j]) else {
            continue;
        };
        let second = j as u32;
        if let Some((first, _)) = found {
            return Err(LinkFault::Starts { first, second });
        }
        found = Some((second, start));
    }
    match found {
        Some((_, start)) => Ok(Some(start)),
        None => Ok(None),
    }
}

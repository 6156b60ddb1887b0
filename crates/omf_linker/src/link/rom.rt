//! The memory of several modules as a file for a chip.

ghost use Rattle.std.specs.Prelude.{◌≡◌, ◌<◌, ◌^◌, IfOk, Ok, is_some, length, map, string_bytes};
ghost use Rattle.omf_check.specs.Module.{typed_modules};
ghost use Rattle.omf_records.specs.Inner.Seen.{map_ok};
ghost use Rattle.omf_linking.specs.Placing.{linked};
ghost use Rattle.omf_linking.specs.Space.Segments.{segment_at, segments_at, share_in};
ghost use Rattle.omf_linking.specs.Together.{segments_of};
ghost use Rattle.omf_linker.specs.Link.Rom.{IsLinkedFile, IsOutside, IsOwned, IsRom, first_owner};

use crate::link::linking::{LinkedModules, linked_modules};
use omf_check::Checked;
use omf_lines::{ImageFault, Labeled, named, outside_line};
use omf_linking::space::{Owner, PlacedSegment};
use omf_linking::{LinkFault, relocate_all, segments_of};
use omf_output::rom::{FileFault, Form, memory_file};
use omf_placement::Placement;
use std::alloc::{AllocError, Global};

/// Whether a segment has a byte at an address.
fn has_byte(segment: &PlacedSegment<'_>, address: u32) -> bool
    ensures { result ≡ is_some (share_in address (segment_at segment.now)) }
{
    if address < segment.address {
        return false;
    }
    let offset = address - segment.address;
    segment.image.get(segment.owner.segment, offset).is_some()
}

/// The first segment with a byte at an address.
fn first_owner(segments: &[PlacedSegment<'_>], address: u32) -> Option<Owner>
    ensures { result ≡ first_owner (segments_at segments.now) address }
{
    for segment in segments {
        if has_byte(segment, address) {
            return Some(segment.owner);
        }
    }
    None
}

/// The fault of a byte at an address that a form does not have: the address, its first segment, and the line. `Memory` if memory runs out.
fn outside_of(alloc: Global, labeled: Labeled<'_>, address: u32, owner: Option<Owner>) -> ImageFault
    ensures { IsOutside (map string_bytes labeled.entry.labels.now) (typed_modules labeled.entry.modules.now) address owner result }
{
    match outside_line(alloc, labeled, address, owner) {
        Ok(lines) => ImageFault::Outside {
            address,
            owner,
            lines: lines.into_bytes(),
        },
        Err(AllocError) => ImageFault::Link(LinkFault::Memory),
    }
}

/// The first segment of modules with a byte at an address: they run at their placements, and are stored at others.
fn owner_at(
    alloc: Global,
    modules: &[Checked],
    placements: &[Placement],
    stored: &[Placement],
    address: u32,
) -> Result<Option<Owner>, LinkFault>
    requires few { length modules.now < 2 ^ 32 }
    requires placed { length placements.now ≡ length modules.now }
    requires stored { length stored.now ≡ length modules.now }
    ensures { IfOk result (λ owner. owner ≡ first_owner (segments_of (typed_modules modules.now) placements.now stored.now) address) }
{
    let relocated = relocate_all(alloc, modules, placements)?;
    let segments = segments_of(alloc, modules, stored, &relocated)?;
    Ok(first_owner(&segments, address))
}

/// The fault of linked modules with a byte at an address that a form does not have: the address, and the first segment with a byte there. To
/// find it the modules are relocated again. `Memory` if memory runs out.
fn outside(alloc: Global, labeled: Labeled<'_>, linked: &LinkedModules, address: u32) -> ImageFault
    requires few { length labeled.modules.now < 2 ^ 32 }
    requires placed { length linked.now.placements.items ≡ length labeled.modules.now }
    requires stored { length linked.now.stored.items ≡ length labeled.modules.now }
    ensures { IsOwned (map string_bytes labeled.entry.labels.now) (typed_modules labeled.entry.modules.now) linked.now address result }
{
    let found = owner_at(
        alloc,
        labeled.modules,
        &linked.placements,
        &linked.stored,
        address,
    );
    match found {
        Ok(owner) => outside_of(alloc, labeled, address, owner),
        Err(_) => ImageFault::Link(LinkFault::Memory),
    }
}

/// The memory of linked modules as a file in a form, or why there is none.
fn linked_file(
    alloc: Global,
    form: Form,
    labeled: Labeled<'_>,
    linked: &LinkedModules,
) -> Result<Vec<u8>, ImageFault>
    requires few { length labeled.modules.now < 2 ^ 32 }
    requires placed { length linked.now.placements.items ≡ length labeled.modules.now }
    requires stored { length linked.now.stored.items ≡ length labeled.modules.now }
    ensures { IsLinkedFile form (map string_bytes labeled.entry.labels.now) (typed_modules labeled.entry.modules.now) linked.now (map_ok (λ file. file.items) result) }
{
    match memory_file(alloc, form, &linked.together.memory) {
        Ok(file) => Ok(file),
        Err(FileFault::Outside(address)) => Err(outside(alloc, labeled, linked, address)),
        Err(FileFault::Memory) => Err(ImageFault::Link(LinkFault::Memory)),
    }
}

/// The memory of linked modules as a file in a form, and their placements; or why there is none.
fn placed_file(
    alloc: Global,
    form: Form,
    labeled: Labeled<'_>,
    linked: LinkedModules,
) -> Result<(Vec<u8>, Vec<Placement>), ImageFault>
    requires few { length labeled.modules.now < 2 ^ 32 }
    requires placed { length linked.placements.items ≡ length labeled.modules.now }
    requires stored { length linked.stored.items ≡ length labeled.modules.now }
    ensures file { IsLinkedFile form (map string_bytes labeled.entry.labels.now) (typed_modules labeled.entry.modules.now) linked (map_ok (λ r. r.0.items) result) }
    ensures placed { IfOk result (λ r. length r.1.items ≡ length labeled.entry.modules.now) }
    ensures kept { IfOk result (λ r. r.1.items ≡ linked.placements.items) }
{
    match linked_file(alloc, form, labeled, &linked) {
        Ok(file) => {
            let LinkedModules { placements, .. } = linked;
            Ok((file, placements))
        }
        Err(fault) => Err(fault),
    }
}

/// The memory of modules at the placements that a link text gives them, as a file in a form, and these placements. A fault calls the modules
/// by their labels.
pub(crate) fn file_at(
    alloc: Global,
    form: Form,
    labeled: Labeled<'_>,
    text: &[u8],
) -> Result<(Vec<u8>, Vec<Placement>), ImageFault>
    requires { length labeled.modules.now < 2 ^ 32 }
    ensures file { IsRom form (map string_bytes labeled.entry.labels.now) (typed_modules labeled.entry.modules.now) text.now (map_ok (λ r. r.0.items) result) }
    ensures placed { IfOk result (λ r. length r.1.items ≡ length labeled.entry.modules.now) }
    ensures linked { IfOk result (λ r. linked (typed_modules labeled.entry.modules.now) text.now ≡ Ok r.1.items) }
{
    match linked_modules(alloc, labeled.modules, text) {
        Ok(linked) => placed_file(alloc, form, labeled, linked),
        Err(fault) => Err(named(alloc, labeled, text, fault)),
    }
}

/// The memory of modules at the placements that a link text gives them, where it stores them, as a file in a form.
///
/// # Errors
///
/// Those of `modules_text`, with their lines if they are about a module and its parts; otherwise `Outside` if a byte of the memory is at an
/// address that the form does not have. In the lines modules are called by their labels; a module without one is called `module` and its
/// number from 1. `Link` with `Memory` if memory runs out.
pub fn modules_file(
    alloc: Global,
    form: Form,
    labels: &[String],
    modules: &[Checked],
    text: &[u8],
) -> Result<Vec<u8>, ImageFault>
    requires { length modules.now < 2 ^ 32 }
    ensures { IsRom form (map string_bytes labels.now) (typed_modules modules.now) text.now (map_ok (λ file. file.items) result) }
{
    match file_at(alloc, form, Labeled { labels, modules }, text) {
        Ok((file, placements)) => {
            drop(placements);
            Ok(file)
        }
        Err(fault) => Err(fault),
    }
}

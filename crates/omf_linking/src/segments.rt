//! The segments of modules at their placements.

ghost use Rattle.std.specs.Prelude.{◌≡◌, ◌++◌, ◌<◌, ◌≤◌, ◌^◌, IfOk, OnOk, Some, length, slice_get};
ghost use Rattle.omf_check.specs.Module.{recs_of};
ghost use Rattle.omf_check.specs.Tables.{entry, segments};
ghost use Rattle.omf_placement.specs.Derive.{placed_modules};
ghost use Rattle.omf_linking.specs.Inner.Searching.{AreMany, listed};
ghost use Rattle.omf_linking.specs.Space.Segments.{segment_at, segments_at};
ghost use Rattle.omf_linking.specs.Segments.{address_in, all_segments, commons, image_bytes, is_common, module_segment, module_segments, with_images};

use crate::relocated::Relocated;
use crate::space::{Owner, PlacedSegment};
use omf_check::Checked;
use omf_placement::Placement;
use std::alloc::{AllocError, Global};

/// Returns whether the combination in a SEGDEF's attribute byte is common: the value 6 of its bits 4 to 2.
fn is_common(attribute: u8) -> bool
    ensures { result ≡ is_common attribute }
{
    attribute / 4 % 8 == 6
}

/// Returns whether a segment of a module is common, by its index.
fn common_at(module: &Checked, index: u16) -> bool
    requires low { 1 ≤ index }
    requires within { index ≤ length (segments (recs_of «module».now.bytes)) }
    ensures { entry (commons (recs_of «module».now.bytes)) index ≡ Some result }
{
    let Some(attribute) = module.attribute(index) else {
        unreachable!()
    };
    is_common(attribute)
}

/// Returns the address of a segment, by its index; 0 if it has no place.
fn address_of(placement: &Placement, index: u16) -> u32
    ensures { result ≡ address_in placement.now.segments index }
{
    match placement.segment(usize::from(index)) {
        Some(place) => place.address,
        None => 0,
    }
}

/// Returns a segment of a module at its place.
fn placed_segment<'a>(
    number: u32,
    index: u16,
    common: bool,
    placement: &Placement,
    relocated: &'a Relocated,
) -> PlacedSegment<'a>
    ensures { segment_at result ≡ module_segment number placement.now (image_bytes relocated.now) (index, common) }
{
    let module = number;
    let segment = index;
    PlacedSegment {
        owner: Owner { module, segment },
        common,
        address: address_of(placement, index),
        image: &relocated.image,
    }
}

/// A module of several.
#[derive(Clone, Copy)]
pub(crate) struct Member<'a> {
    /// Its number, from 0.
    pub number: u32,
    /// The module.
    pub module: &'a Checked,
    /// Its placement.
    pub placement: &'a Placement,
}

/// Adds the segments of a module.
pub(crate) fn add_module<'a>(
    segments: &mut Vec<PlacedSegment<'a>>,
    member: &Member<'_>,
    relocated: &'a Relocated,
) -> Result<(), AllocError>
    ensures { OnOk result (segments_at segments.new.items ≡ segments_at segments.old.items ++ module_segments (member.now.number, ((recs_of member.now.«module».now.bytes, member.now.placement.now), image_bytes relocated.now))) }
{
    for before in 0..member.module.segments() {
        let index = before + 1;
        let common = common_at(member.module, index);
        let segment = placed_segment(member.number, index, common, member.placement, relocated);
        segments.push(segment)?;
    }
    Ok(())
}

/// Returns the segments of modules, each at its place in the placement of its module.
///
/// # Errors
///
/// Out of memory.
pub fn segments_of<'a>(
    alloc: Global,
    modules: &[Checked],
    placements: &[Placement],
    relocated: &'a [Relocated],
) -> Result<Vec<PlacedSegment<'a>>, AllocError>
    requires few { length modules.now < 2 ^ 32 }
    requires placed { length placements.now ≡ length modules.now }
    requires relocated { length relocated.now ≡ length modules.now }
    ensures { IfOk result (λ v. segments_at v.items ≡ all_segments (with_images (placed_modules modules.now placements.now) relocated.now)) }
{
    let mut segments = Vec::new(alloc);
    for (j, module) in modules.iter().enumerate() {
        let member = Member {
            number: j as u32,
            module,
            placement: &placements[j],
        };
        add_module(&mut segments, &member, &relocated[j])?;
    }
    Ok(segments)
}

/// The segments of modules, each at its place in the placement of its module: a list that takes no memory.
#[derive(Clone, Copy)]
pub(crate) struct ModuleSegments<'a> {
    /// The modules, fewer than 2^32.
    pub modules: &'a [Checked],
    /// Their placements.
    pub placements: &'a [Placement],
    /// Their images.
    pub relocated: &'a [Relocated],
}

impl<'a> ModuleSegments<'a> {
    /// Returns the number of segments.
    pub fn count(&self) -> usize
        requires { AreMany self.now }
        ensures { result ≡ length (listed self.now) }
    {
        let mut count = 0;
        for module in self.modules {
            count += usize::from(module.segments());
        }
        count
    }

    /// Returns the segment with this number, from 0.
    pub fn segment(&self, n: usize) -> PlacedSegment<'a>
        requires holds { AreMany self.now }
        requires within { n < length (listed self.now) }
        ensures { slice_get (listed self.now) n ≡ Some (segment_at result) }
    {
        let mut left = n;
        for (j, module) in self.modules.iter().enumerate() {
            let count = usize::from(module.segments());
            if left < count {
                let index = left as u16 + 1;
                let common = common_at(module, index);
                let place = &self.placements[j];
                return placed_segment(j as u32, index, common, place, &self.relocated[j]);
            }
            left -= count;
        }
        unreachable!()
    }
}

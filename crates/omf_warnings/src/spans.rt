//! The segments of modules at their placements.

ghost use Rattle.std.specs.Prelude.{◌≡◌, ◌++◌, ◌<◌, ◌^◌, List, IfOk, OnOk, length, map};
ghost use Rattle.omf_check.specs.Module.{recs_of};
ghost use Rattle.omf_layout.specs.Several.Portions.{name_at};
ghost use Rattle.omf_layout.specs.Wants.{AreRaised};
ghost use Rattle.omf_linking.specs.Segments.{address_in};
ghost use Rattle.omf_placement.specs.Derive.{placed_modules};
ghost use Rattle.omf_records.specs.Values.{Rec};
ghost use Rattle.omf_warnings.specs.Lying.{lying, lyings, lyings_in, seen, sharing_of};

use crate::span::{Sharing, Span};
use omf_check::{Checked, SegInfo};
use omf_layout::raised::{Raised, alignment_in, raised_in};
use omf_linking::space::Owner;
use omf_placement::Placement;
use std::alloc::{AllocError, Global};

/// Returns with which segments a segment may share addresses. It is common if the combination, bits 4 to 2 of the attribute byte, is 6.
fn sharing_of(segment: SegInfo, attribute: u8) -> Sharing
    ensures { result ≡ sharing_of segment.absolute attribute }
{
    if segment.absolute.is_some() {
        return Sharing::Absolute;
    }
    if attribute / 4 % 8 == 6 {
        Sharing::Common
    } else {
        Sharing::Alone
    }
}

/// Returns the name of an index; the empty name for index 0.
pub(crate) fn name_at(module: &Checked, index: u16) -> &[u8]
    ensures { result.now ≡ name_at (recs_of «module».now.bytes) index }
{
    match module.name(index) {
        Some(name) => name.0,
        None => &[],
    }
}

/// Returns the address of a segment, by its index; 0 if it has no place.
fn address_of(placement: &Placement, index: u16) -> u32
    ensures { result ≡ address_in placement.now.segments index }
{
    match placement.segment(usize::from(index)) {
        Some(place) => place.address,
        None => 0,
    }
}

/// Returns a segment at its place in a module of which these segments are raised, by its SEGDEF and its attribute byte.
fn span_of<'a>(
    module: &'a Checked,
    raised: &Raised,
    placement: &Placement,
    owner: Owner,
    defined: (SegInfo, u8),
) -> Span<'a>
    ensures { AreRaised raised.now (recs_of «module».entry.now.bytes) → seen result ≡ lying owner.«module» (recs_of «module».entry.now.bytes, placement.now) (owner.segment, defined) }
{
    let (segment, attribute) = defined;
    let first = address_of(placement, owner.segment);
    Span {
        owner,
        name: name_at(module, segment.name),
        class: name_at(module, segment.class),
        sharing: sharing_of(segment, attribute),
        alignment: alignment_in(raised, owner.segment, attribute),
        first,
        end: u128::from(first) + u128::from(segment.length),
    }
}

/// Adds the segments of a module.
fn add_spans<'a>(
    alloc: Global,
    spans: &mut Vec<Span<'a>>,
    module: &'a Checked,
    placement: &Placement,
    number: u32,
) -> Result<(), AllocError>
    ensures { OnOk result (map seen spans.new.items ≡ map seen spans.old.items ++ lyings_in (number, (recs_of «module».entry.now.bytes, placement.now))) }
{
    let raised = raised_in(alloc, module)?;
    for before in 0..module.segments() {
        let index = before + 1;
        let Some(segment) = module.segment(index) else {
            unreachable!()
        };
        let Some(attribute) = module.attribute(index) else {
            unreachable!()
        };
        let owner = Owner {
            module: number,
            segment: index,
        };
        let defined = (segment, attribute);
        spans.push(span_of(module, &raised, placement, owner, defined))?;
    }
    Ok(())
}

/// Returns the segments of modules at their placements, module by module.
///
/// # Errors
///
/// `AllocError` if memory runs out.
pub fn spans_of<'a>(
    alloc: Global,
    modules: &'a [Checked],
    placements: &[Placement],
) -> Result<Vec<Span<'a>>, AllocError>
    requires few { length modules.now < 2 ^ 32 }
    requires placed { length placements.now ≡ length modules.now }
    ensures { IfOk result (λ v. map seen v.items ≡ lyings (placed_modules modules.entry.now placements.now)) }
{
    let mut spans = Vec::new(alloc);
    for (j, module) in modules.iter().enumerate() {
        add_spans(alloc, &mut spans, module, &placements[j], j as u32)?;
    }
    Ok(spans)
}

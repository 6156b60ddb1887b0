//! What a link text does that may not be meant.

ghost use Rattle.std.specs.Prelude.{◌≡◌, ◌++◌, ◌<◌, ◌^◌, IfOk, OnOk, find, length, option_map, option_to_list};
ghost use Rattle.omf_warnings.specs.declared.finding.Finding.TheVariants.{Group, Near, Selector};
ghost use Rattle.omf_warnings.specs.Unseen.{AreUnseen, align_of, frames_of, is_misaligned, overlap_of, range_of};

use crate::frames::{Framed, first_split};
use crate::real::first_unreal;
use crate::span::Span;
use crate::spans::spans_of;
use crate::sweep::first_overlap;
use crate::wide::{FarMember, first_wide};
use omf_check::Checked;
use omf_linking::space::Owner;
use omf_output::near::{Stray, first_near};
use omf_placement::Placement;
use std::alloc::{AllocError, Global};

/// The addresses of a segment.
#[derive(Clone, Copy)]
pub struct Range {
    /// The segment.
    pub owner: Owner,
    /// Its first address.
    pub first: u32,
    /// The address after its last one.
    pub end: u128,
}

/// What a link text does that may not be meant.
#[derive(Clone, Copy)]
pub enum Finding {
    /// Two segments have addresses in common that they may not share.
    Overlap {
        /// The one that begins first.
        first: Range,
        /// The other.
        second: Range,
    },
    /// The address of a segment is no multiple of its alignment.
    Align {
        /// The segment.
        segment: Owner,
        /// Its address.
        address: u32,
        /// Its alignment in bytes: 2, 4, 16, 256 or 4,096.
        alignment: u16,
    },
    /// A 16-bit member of a group ends more than 65536 bytes after the base of the group's frame.
    Group(FarMember),
    /// Two parts of one segment, or two groups of one name, have different frames.
    Frames {
        /// The first of its name.
        first: Framed,
        /// The first after it with another frame.
        other: Framed,
    },
    /// A frame in real mode has a base that is not 16 times its selector.
    Selector(Framed),
    /// A near call or jump is into another frame.
    Near(Stray),
}

/// Returns the addresses of a segment.
fn range_of(span: Span<'_>) -> Range
    ensures { result ≡ range_of span.entry }
{
    Range {
        owner: span.owner,
        first: span.first,
        end: span.end,
    }
}

/// Returns whether a segment's address is no multiple of its alignment.
fn is_misaligned(span: &Span<'_>) -> bool
    ensures { result ≡ is_misaligned span.now }
{
    span.first % u32::from(span.alignment.bytes()) != 0
}

/// Returns the first segment whose address is no multiple of its alignment.
pub fn first_misaligned<'a>(spans: &[Span<'a>]) -> Option<Span<'a>>
    ensures { result ≡ find is_misaligned spans.entry.now }
{
    for span in spans {
        if is_misaligned(span) {
            return Some(*span);
        }
    }
    None
}

/// Returns two segments that overlap as what is found.
fn overlap_of(both: Option<(Span<'_>, Span<'_>)>) -> Option<Finding>
    ensures { result ≡ option_map overlap_of both.entry }
{
    let (first, second) = both?;
    Some(Finding::Overlap {
        first: range_of(first),
        second: range_of(second),
    })
}

/// Returns a segment with a wrong address as what is found.
fn align_of(span: Option<Span<'_>>) -> Option<Finding>
    ensures { result ≡ option_map align_of span.entry }
{
    let span = span?;
    Some(Finding::Align {
        segment: span.owner,
        address: span.first,
        alignment: span.alignment.bytes(),
    })
}

/// Returns a member of a group that is too far as what is found.
fn group_of(member: Option<FarMember>) -> Option<Finding>
    ensures { result ≡ option_map Group member }
{
    Some(Finding::Group(member?))
}

/// Returns two frames of one name as what is found.
fn frames_of(split: Option<(Framed, Framed)>) -> Option<Finding>
    ensures { result ≡ option_map frames_of split }
{
    let (first, other) = split?;
    Some(Finding::Frames { first, other })
}

/// Returns a frame with a wrong base as what is found.
fn selector_of(framed: Option<Framed>) -> Option<Finding>
    ensures { result ≡ option_map Selector framed }
{
    Some(Finding::Selector(framed?))
}

/// Returns a near reference into another frame as what is found.
fn near_of(stray: Option<Stray>) -> Option<Finding>
    ensures { result ≡ option_map Near stray }
{
    Some(Finding::Near(stray?))
}

/// Adds what is found, if there is something.
fn add(found: &mut Vec<Finding>, more: Option<Finding>) -> Result<(), AllocError>
    ensures { OnOk result (found.new.items ≡ found.old.items ++ option_to_list more) }
{
    if let Some(more) = more {
        found.push(more)?;
    }
    Ok(())
}

/// Returns what the placements of modules do that may not be meant, at most one of each kind: two segments with the lowest address in
/// common that they may not share, the first segment whose address is no multiple of its alignment, the first 16-bit member of a group
/// that ends too far from the group's frame, the first parts of one segment, or groups of one name, that have different frames, in real mode the
/// first frame with a base that is not 16 times its selector, and the first near call or jump into another frame.
///
/// Two common segments of one name and class may share addresses, and so may two absolute segments. A segment of length 0 has no address.
///
/// # Errors
///
/// `AllocError` if memory runs out.
pub fn unseen(
    alloc: Global,
    modules: &[Checked],
    placements: &[Placement],
) -> Result<Vec<Finding>, AllocError>
    requires few { length modules.now < 2 ^ 32 }
    requires placed { length placements.now ≡ length modules.now }
    ensures { IfOk result (λ v. AreUnseen modules.now placements.now v.items) }
{
    let spans = spans_of(alloc, modules, placements)?;
    let wide = first_wide(modules, placements);
    let misaligned = first_misaligned(&spans);
    let overlap = first_overlap(spans);
    let split = first_split(alloc, modules, placements)?;
    let unreal = first_unreal(alloc, modules, placements)?;
    let near = first_near(alloc, modules, placements)?;
    let mut found = Vec::new(alloc);
    add(&mut found, overlap_of(overlap))?;
    add(&mut found, align_of(misaligned))?;
    add(&mut found, group_of(wide))?;
    add(&mut found, frames_of(split))?;
    add(&mut found, selector_of(unreal))?;
    add(&mut found, near_of(near))?;
    Ok(found)
}

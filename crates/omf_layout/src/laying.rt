//! The layout of a module.

ghost use Rattle.std.specs.Prelude.{◌≡◌, ◌≤◌, ◌^◌, [], IfOk, OnOk, IfSome, length, option_map, slice_get, Some, ◌<◌};
ghost use Rattle.omf_records.specs.Inner.Seen.{map_ok};
ghost use Rattle.omf_check.specs.Module.{recs_of};
ghost use Rattle.omf_check.specs.Tables.{segments};
ghost use Rattle.omf_layout.specs.Layout.{IsAnswer, segments_laid, group_frame, group_frames, after_communals, externals_laid, layout_of};
ghost use Rattle.omf_layout.specs.Inner.Spots.{segments_alone, externals_in};
ghost use Rattle.omf_layout.specs.Wants.{alignments};

use crate::alignment::Alignment;
use crate::fault::LayoutFault;
use crate::options::{Frames, Options};
use crate::spot::{external_at, external_spot, segment_spot};
use crate::wants::{alignments_of, rooms_of};
use omf_check::Checked;
use omf_placement::{Frame, Placement, real_group};
use std::alloc::{AllocError, Global};
use std::marker::Model;

/// A layout of a module: its placement, the alignments of its segments and the lengths of its communals.
#[derive(Drop)]
pub struct Layout {
    placement: Placement,
    alignments: Vec<Alignment>,
    rooms: Vec<Option<u64>>,
    free: u64,
}

impl Model for Layout {
    ghost use Rattle.omf_layout.specs.Layout.{LaidOut};

    ghost Value = { LaidOut };

    ghost view = { λ l. record { places = l.placement; alignments = l.alignments.items; rooms = l.rooms.items; free = l.free } };
}

impl Layout {
    ghost use Rattle.omf_check.specs.Tables.{entry};

    /// Returns the addresses and frames of the module's entries.
    pub fn placement(&self) -> &Placement
        ensures { result.now ≡ self.now.places }
    {
        &self.placement
    }

    /// Returns the alignments of the module's segments, in order.
    pub fn alignments(&self) -> &[Alignment]
        ensures { result.now ≡ self.now.alignments }
    {
        &self.alignments
    }

    /// Returns the length in bytes of each communal among the module's externals, in order; none for any other external.
    pub fn rooms(&self) -> &[Option<u64>]
        ensures { result.now ≡ self.now.rooms }
    {
        &self.rooms
    }

    /// Returns the first free address after the segments and the communals. What is laid from there, such as another module, does not
    /// overlap them.
    pub fn end(&self) -> u64
        ensures { result ≡ self.now.free }
    {
        self.free
    }
}

/// Returns the alignment at a position.
fn alignment_at(each: &[Alignment], i: u16) -> Alignment
    requires { i < length each.now }
    ensures { slice_get each.now i ≡ Some result }
{
    each[usize::from(i)]
}

/// Places the segments. Returns their placement and the first free address after them.
fn lay_segments(
    alloc: Global,
    module: &Checked,
    each: &[Alignment],
    options: Options,
) -> Result<(Placement, u64), LayoutFault>
    requires all { each.now ≡ alignments (recs_of «module».now.bytes) }
    requires as_many { length each.now ≡ length (segments (recs_of «module».now.bytes)) }
    ensures answer { IsAnswer (option_map segments_alone (segments_laid options (recs_of «module».now.bytes))) result }
    ensures low { IfOk result (λ p. p.1 ≤ 2 ^ 32) }
    ensures from { IfOk result (λ p. options.base ≤ p.1) }
{
    let mut placement = Placement::new(alloc);
    let mut free = u64::from(options.base);
    for before in 0..module.segments() {
        let Some(segment) = module.segment(before + 1) else {
            unreachable!()
        };
        let alignment = alignment_at(each, before);
        let Some(spot) = segment_spot(options, free, segment, alignment) else {
            return Err(LayoutFault::NoRoom);
        };
        placement.push_segment(spot.address, spot.frame)?;
        free = spot.free;
    }
    Ok((placement, free))
}

/// Returns the frame of a group, by its index from 1.
fn group_frame(module: &Checked, placement: &Placement, frames: Frames, k: u16) -> Frame
    ensures { result ≡ group_frame frames (recs_of «module».now.bytes) placement.now.segments k }
{
    match frames {
        Frames::Real => real_group(module, placement, k).unwrap_or(Frame {
            base: 0,
            selector: 0,
        }),
        Frames::Flat { selector } => Frame { base: 0, selector },
    }
}

/// Gives the groups their frames.
fn lay_groups(placement: &mut Placement, module: &Checked, frames: Frames) -> Result<(), AllocError>
    requires { placement.old.groups ≡ [] }
    ensures { OnOk result (placement.new ≡ record placement.old { groups = group_frames frames (recs_of «module».now.bytes) placement.old.segments }) }
{
    for k in 1..module.groups() + 1 {
        let frame = group_frame(module, placement, frames, k);
        placement.push_group(frame)?;
    }
    Ok(())
}

/// Returns the first free address after the communals; none if one does not fit.
fn after_communals(options: Options, free: u64, rooms: &[Option<u64>]) -> Option<u64>
    requires from { options.base ≤ free }
    requires low { free ≤ 2 ^ 32 }
    ensures value { result ≡ after_communals options free rooms.now }
    ensures low { IfSome result (λ f. f ≤ 2 ^ 32) }
    ensures from { IfSome result (λ f. options.base ≤ f) }
{
    let mut free = free;
    for room in rooms {
        if let Some(size) = room {
            free = external_at(options, Alignment::Dword, free, *size)?.free;
        }
    }
    Some(free)
}

/// Places the externals. Returns the first free address after the communals.
fn lay_externals(
    placement: &mut Placement,
    options: Options,
    free: u64,
    rooms: &[Option<u64>],
) -> Result<u64, LayoutFault>
    requires from { options.base ≤ free }
    requires low { free ≤ 2 ^ 32 }
    requires none { placement.old.externals ≡ [] }
    ensures { IsAnswer (option_map (externals_in placement.old) (externals_laid options free rooms.now)) (map_ok (λ f. (placement.new, f)) result) }
{
    let Some(after) = after_communals(options, free, rooms) else {
        return Err(LayoutFault::NoRoom);
    };
    let spare = external_at(options, Alignment::Paragraph, after, 0);
    let mut free = free;
    for room in rooms {
        let Some(spot) = external_spot(options, spare, free, *room) else {
            return Err(LayoutFault::NoRoom);
        };
        placement.push_external(spot.address, spot.frame)?;
        free = spot.free;
    }
    Ok(free)
}

/// Lays out a module. Its segments follow one another from the base on, in index order, each at the first address of its alignment after
/// the one before; an absolute segment is where its SEGDEF puts it. The communals follow the segments, each at a multiple of 4. Every
/// other external is at the first paragraph after the communals; its real place is to be filled in. In real mode each segment has the
/// frame of its paragraph, and each group that of its lowest member, or the frame at address 0 if it has none; in flat mode all share one
/// frame. An external has the base's frame if its offset in that frame fits in 16 bits.
///
/// # Errors
///
/// `NoRoom` if a segment, a communal or another external does not fit below the limit; `Memory` if memory runs out.
pub fn layout_of(alloc: Global, module: &Checked, options: Options) -> Result<Layout, LayoutFault>
    ensures { IsAnswer (layout_of options (recs_of «module».now.bytes)) result }
{
    let alignments = alignments_of(alloc, module)?;
    let rooms = rooms_of(alloc, module)?;
    let (mut placement, free) = lay_segments(alloc, module, &alignments, options)?;
    lay_groups(&mut placement, module, options.frames)?;
    let free = lay_externals(&mut placement, options, free, &rooms)?;
    Ok(Layout {
        placement,
        alignments,
        rooms,
        free,
    })
}

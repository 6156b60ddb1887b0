//! The placement text of a layout.

ghost use Rattle.std.specs.Prelude.{◌≡◌, ◌++◌, ◌∷◌, [], OnOk, IfOk, string_bytes, flat_map, length, Some, codes, decimal, All};
ghost use Rattle.std.specs.List.{enumerate_from, zip};
ghost use Rattle.omf_frame.specs.Bytes.{AddsText};
ghost use Rattle.omf_records.specs.Inner.Seen.{contents_seen};
ghost use Rattle.omf_records.specs.Values.{Group, GroupItem};
ghost use Rattle.omf_check.specs.Module.{recs_of};
ghost use Rattle.omf_check.specs.Tables.{names, segments, groups, externals};
ghost use Rattle.omf_placement.specs.Entries.{in_words};
ghost use Rattle.omf_layout.specs.Draft.{segment_comment, segment_line, group_line, group_entry, external_line, draft_text};
ghost use Rattle.omf_layout.specs.Layout.{layout_of};
ghost use Rattle.omf_placement.specs.Quoted.{named};
ghost use Rattle.omf_layout.specs.Reading.{IsShortFrame, IsShortPlace, IsReadBack};

use crate::alignment::Alignment;
use crate::laying::Layout;
use crate::options::{Frames, Options};
use crate::printing::{
    print_external_entry, print_group_entry, print_index, print_room, print_segment_entry,
    print_segment_room,
};
use omf_check::{Checked, SegInfo, entry_of};
use omf_frame::Name;
use omf_placement::{Frame, Placed, Placement, real_group};
use omf_records::Rec;
use omf_text::{print_name, print_quoted};
use std::alloc::{AllocError, Global};

/// Prints the name of an index in double quotes, or a dash for index 0.
fn print_named(text: &mut String, module: &Checked, index: u16) -> Result<(), AllocError>
    ensures { AddsText result (string_bytes text.old) (string_bytes text.new) (named (names (recs_of «module».now.bytes)) index) }
{
    print_name(text, module.name(index))
}

/// Prints the names of a segment and of its class.
fn print_names(text: &mut String, module: &Checked, segment: SegInfo) -> Result<(), AllocError>
    ensures { AddsText result (string_bytes text.old) (string_bytes text.new) (named (names (recs_of «module».now.bytes)) segment.name ++ codes " class " ++ named (names (recs_of «module».now.bytes)) segment.class) }
{
    print_named(text, module, segment.name)?;
    text.push_str(" class ")?;
    print_named(text, module, segment.class)
}

/// Prints a segment's comment.
fn print_segment_comment(
    text: &mut String,
    module: &Checked,
    index: u16,
    segment: SegInfo,
    alignment: Alignment,
) -> Result<(), AllocError>
    ensures { AddsText result (string_bytes text.old) (string_bytes text.new) (codes " ; " ++ in_words (segment_comment (recs_of «module».now.bytes) index segment alignment) ++ 10 ∷ []) }
{
    print_index(text, index)?;
    print_names(text, module, segment)?;
    print_segment_room(text, segment.absolute, alignment, segment.length)
}

/// Prints a segment's line.
fn print_segment(
    text: &mut String,
    module: &Checked,
    frames: Frames,
    index: u16,
    segment: SegInfo,
    alignment: Alignment,
    place: Placed,
) -> Result<(), AllocError>
    ensures short { IsShortPlace place }
    ensures line { AddsText result (string_bytes text.old) (string_bytes text.new) (segment_line frames (recs_of «module».now.bytes) (index, ((segment, alignment), place))) }
{
    print_segment_entry(text, frames, place)?;
    print_segment_comment(text, module, index, segment, alignment)
}

/// Adds a line for each segment of a module at its place in a placement, with a comment: its index, its name, its class, its alignment
/// and its length.
///
/// # Errors
///
/// Out of memory.
pub fn print_segments(
    text: &mut String,
    module: &Checked,
    frames: Frames,
    alignments: &[Alignment],
    placement: &Placement,
) -> Result<(), AllocError>
    requires aligned { length alignments.now ≡ length (segments (recs_of «module».now.bytes)) }
    requires placed { length placement.now.segments ≡ length (segments (recs_of «module».now.bytes)) }
    // All numbers are short enough for a placement text.
    ensures short { OnOk result (All IsShortPlace placement.now.segments) }
    ensures lines { AddsText result (string_bytes text.old) (string_bytes text.new) (flat_map (segment_line frames (recs_of «module».now.bytes)) (enumerate_from 1 (zip (zip (segments (recs_of «module».now.bytes)) alignments.now) placement.now.segments))) }
{
    for before in 0..module.segments() {
        let index = before + 1;
        let Some(segment) = module.segment(index) else {
            unreachable!()
        };
        let Some(alignment) = entry_of(alignments, usize::from(index)) else {
            unreachable!()
        };
        let Some(place) = placement.segment(usize::from(index)) else {
            unreachable!()
        };
        print_segment(text, module, frames, index, segment, alignment, place)?;
    }
    Ok(())
}

/// Prints a group's entry.
fn print_group_place(
    text: &mut String,
    module: &Checked,
    frames: Frames,
    placement: &Placement,
    k: u16,
    frame: Frame,
) -> Result<(), AllocError>
    ensures { AddsText result (string_bytes text.old) (string_bytes text.new) (group_entry frames (recs_of «module».now.bytes) placement.now.segments k frame) }
{
    match frames {
        Frames::Real => print_group_entry(text, real_group(module, placement, k), frame),
        Frames::Flat { .. } => print_group_entry(text, None, frame),
    }
}

/// Prints a group's comment.
fn print_group_comment(
    text: &mut String,
    module: &Checked,
    index: u16,
    name: u16,
) -> Result<(), AllocError>
    ensures { AddsText result (string_bytes text.old) (string_bytes text.new) (codes " ; " ++ in_words (decimal index ∷ named (names (recs_of «module».now.bytes)) name ∷ []) ++ 10 ∷ []) }
{
    print_index(text, index)?;
    print_named(text, module, name)?;
    text.push_str("\n")
}

/// Returns the index of a group's name.
pub(crate) fn group_name(group: &Rec<'_>) -> u16
    requires { (g : GroupItem) × (contents_seen group.now ≡ Group g) }
    ensures { (g : GroupItem) → contents_seen group.now ≡ Group g → result ≡ g.name.item }
{
    let Rec::Group { name, .. } = group else {
        unreachable!()
    };
    name.item.0
}

/// Prints a group's line.
fn print_group(
    text: &mut String,
    module: &Checked,
    frames: Frames,
    placement: &Placement,
    index: u16,
    group: &Rec<'_>,
    frame: Frame,
) -> Result<(), AllocError>
    requires { (g : GroupItem) × (contents_seen group.now ≡ Group g) }
    ensures short { IsShortFrame frame }
    ensures line { (g : GroupItem) → contents_seen group.now ≡ Group g → AddsText result (string_bytes text.old) (string_bytes text.new) (group_line frames (recs_of «module».now.bytes) placement.now.segments (index, (g, frame))) }
{
    print_group_place(text, module, frames, placement, index, frame)?;
    print_group_comment(text, module, index, group_name(group))
}

/// Adds a line for each group of a module with its frame in a placement, and a comment: its index and its name. In real mode the entry of
/// a group with members is `G real`; any other gives the group's frame.
///
/// # Errors
///
/// Out of memory.
pub fn print_groups(
    text: &mut String,
    module: &Checked,
    frames: Frames,
    placement: &Placement,
) -> Result<(), AllocError>
    requires { length placement.now.groups ≡ length (groups (recs_of «module».now.bytes)) }
    // All numbers are short enough for a placement text.
    ensures short { OnOk result (All IsShortFrame placement.now.groups) }
    ensures lines { AddsText result (string_bytes text.old) (string_bytes text.new) (flat_map (group_line frames (recs_of «module».now.bytes) placement.now.segments) (enumerate_from 1 (zip (groups (recs_of «module».now.bytes)) placement.now.groups))) }
{
    for before in 0..module.groups() {
        let index = before + 1;
        let Some(group) = module.group(index) else {
            unreachable!()
        };
        let Some(frame) = placement.group(usize::from(index)) else {
            unreachable!()
        };
        print_group(text, module, frames, placement, index, &group, frame)?;
    }
    Ok(())
}

/// Prints an external's line.
fn print_external(
    text: &mut String,
    index: u16,
    name: Name<'_>,
    room: Option<u64>,
    place: Placed,
) -> Result<(), AllocError>
    ensures short { IsShortPlace place }
    ensures line { AddsText result (string_bytes text.old) (string_bytes text.new) (external_line (index, ((name.entry, room), place))) }
{
    print_external_entry(text, place)?;
    print_index(text, index)?;
    print_quoted(text, name.0)?;
    print_room(text, room)
}

/// Prints a line for each external.
fn print_externals(text: &mut String, module: &Checked, layout: &Layout) -> Result<(), AllocError>
    requires roomed { length layout.now.rooms ≡ length (externals (recs_of «module».now.bytes)) }
    requires placed { length layout.now.places.externals ≡ length (externals (recs_of «module».now.bytes)) }
    ensures short { OnOk result (All IsShortPlace layout.now.places.externals) }
    ensures lines { AddsText result (string_bytes text.old) (string_bytes text.new) (flat_map external_line (enumerate_from 1 (zip (zip (externals (recs_of «module».now.bytes)) layout.now.rooms) layout.now.places.externals))) }
{
    for before in 0..module.externals() {
        let index = before + 1;
        let Some(name) = module.external(index) else {
            unreachable!()
        };
        let Some(room) = entry_of(layout.rooms(), usize::from(index)) else {
            unreachable!()
        };
        let Some(place) = layout.placement().external(usize::from(index)) else {
            unreachable!()
        };
        print_external(text, index, name, room, place)?;
    }
    Ok(())
}

/// Returns the placement text of a module's layout: a line for each segment, each group and each external, with a comment. The comment has
/// the index and the name; for a segment also its class, its alignment and its length; for a communal its length; for any other external
/// the note that its place is to be filled in. Numbers in comments are decimal.
///
/// # Errors
///
/// Out of memory.
pub fn draft_text(
    alloc: Global,
    module: &Checked,
    options: Options,
    layout: &Layout,
) -> Result<String, AllocError>
    requires { layout_of options (recs_of «module».now.bytes) ≡ Some layout.now }
    ensures text { IfOk result (λ text. string_bytes text ≡ draft_text options.frames (recs_of «module».now.bytes) layout.now) }
    // The text is a placement text with exactly the layout's entries, and it gives the module the layout's places.
    ensures read { IfOk result (λ text. IsReadBack options.frames (recs_of «module».now.bytes) layout.now.places (string_bytes text)) }
{
    let mut text = String::new(alloc);
    let placement = layout.placement();
    print_segments(
        &mut text,
        module,
        options.frames,
        layout.alignments(),
        placement,
    )?;
    print_groups(&mut text, module, options.frames, placement)?;
    print_externals(&mut text, module, layout)?;
    Ok(text)
}

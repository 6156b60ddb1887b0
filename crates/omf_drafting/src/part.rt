//! The lines of a module.

ghost use Rattle.std.specs.Prelude.{◌≡◌, ◌<◌, ◌^◌, ◌∷◌, ◌++◌, [], All, Bool, List, ℕ, OnOk, IfOk, codes, decimal, flat_map, length, map, string_bytes, true, false, zip};
ghost use Rattle.std.specs.List.{enumerate_from};
ghost use Rattle.omf_frame.specs.Bytes.{AddsText};
ghost use Rattle.omf_check.specs.Module.{recs_of};
ghost use Rattle.omf_check.specs.Tables.{externals, groups, names, segments};
ghost use Rattle.omf_placement.specs.Derive.{named_externals};
ghost use Rattle.omf_placement.specs.Placement.{real_frame};
ghost use Rattle.omf_placement.specs.declared.frame.Frame.{Frame as Base};
ghost use Rattle.omf_placement.specs.Quoted.{named};
ghost use Rattle.omf_layout.specs.Draft.{alignment_text, is_same_frame};
ghost use Rattle.omf_layout.specs.Reading.{IsShortFrame, IsShortPlace};
ghost use Rattle.omf_layout.specs.Wants.{rooms};
ghost use Rattle.omf_linking.specs.Inner.Forms.{AreKeys};
ghost use Rattle.omf_linking.specs.Inner.Sharing.{shares_seen};
ghost use Rattle.omf_linking.specs.Locator.Drafted.{Sharing, shared_by};
ghost use Rattle.omf_linking.specs.Locator.KeyForms.{key_words, module_key_by};
ghost use Rattle.omf_reloc.specs.declared.fault.Kind.TheVariants.{External as Externals, Segment as Segments};
ghost use Rattle.omf_externals.specs.Names.{IsNameTable, has_name, public_names};
ghost use Rattle.omf_drafting.specs.Text.{external_by, full_place, group_line_by, group_lines, opening_by, own_place, part_text, place_text, segment_line, segment_line_by, segment_lines, wanted_line_by, wanted_lines};

use omf_check::{Checked, SegInfo, entry_of};
use omf_externals::NameTable;
use omf_layout::printing::{print_room, print_segment_room};
use omf_layout::wants::{alignments_of, rooms_of};
use omf_layout::{Alignment, Frames};
use omf_linking::locator::forms::{KeyForm, Keys, print_key};
use omf_linking::locator::{Shares, module_name};
use omf_placement::{Frame, Placed, Placement};
use omf_reloc::Kind;
use omf_text::{print_name, print_quoted};
use std::alloc::{AllocError, Global};
use std::fmt::Write;

/// Prints the key of the module with this number, from 0: its name, or its number from 1 if another module has the name.
fn print_module_key(
    text: &mut String,
    module: &Checked,
    number: u32,
    repeated: bool,
) -> Result<(), AllocError>
    ensures { AddsText result (string_bytes text.old) (string_bytes text.new) (key_words (module_key_by repeated number (recs_of «module».now.bytes))) }
{
    let one_more = u64::from(number) + 1;
    if repeated {
        write!(text, "#{one_more}")
    } else {
        print_quoted(text, module_name(module))
    }
}

/// Prints the line before the lines of a module.
pub fn print_opening(
    text: &mut String,
    module: &Checked,
    number: u32,
    repeated: bool,
) -> Result<(), AllocError>
    ensures { AddsText result (string_bytes text.old) (string_bytes text.new) (opening_by repeated number (recs_of «module».now.bytes)) }
{
    text.push_str("M ")?;
    print_module_key(text, module, number, repeated)?;
    text.push_str("\n")
}

/// Returns whether a segment has the real-mode frame of its address.
fn is_in_paragraph(place: Placed) -> bool
    ensures { result ≡ is_same_frame (real_frame place.address) place.frame }
{
    match Frame::real(place.address) {
        Some(own) => own.base == place.frame.base && own.selector == place.frame.selector,
        None => false,
    }
}

/// Prints an address and a frame.
fn print_full_place(text: &mut String, place: Placed) -> Result<(), AllocError>
    ensures { AddsText result (string_bytes text.old) (string_bytes text.new) (full_place place) }
{
    let address = place.address;
    let Frame { base, selector } = place.frame;
    write!(text, "{address:X} {base:X} {selector:X}")
}

/// Prints the place of a segment that shares no frame.
fn print_own_place(text: &mut String, frames: Frames, place: Placed) -> Result<(), AllocError>
    ensures { AddsText result (string_bytes text.old) (string_bytes text.new) (own_place frames place) }
{
    let address = place.address;
    match frames {
        Frames::Real => {
            if is_in_paragraph(place) {
                write!(text, "{address:X} real")
            } else {
                print_full_place(text, place)
            }
        }
        Frames::Flat { .. } => print_full_place(text, place),
    }
}

/// Prints the place of a segment.
fn print_place(
    text: &mut String,
    frames: Frames,
    shared: bool,
    place: Placed,
) -> Result<(), AllocError>
    ensures { AddsText result (string_bytes text.old) (string_bytes text.new) (place_text frames shared place) }
{
    let address = place.address;
    if shared {
        write!(text, "{address:X} shared")
    } else {
        print_own_place(text, frames, place)
    }
}

/// Where the lines of a module put its segments and groups.
#[derive(Clone, Copy)]
pub struct Part<'a> {
    /// The kind of frames.
    pub frames: Frames,
    /// Its places and frames.
    pub placement: &'a Placement,
    /// Which of its lines share a frame.
    pub shares: &'a Shares,
}

/// A segment, and how it is named.
#[derive(Clone, Copy)]
struct SegmentLine {
    /// The form of its key.
    form: KeyForm,
    /// Its index, from 1.
    index: u16,
    /// What its SEGDEF has.
    segment: SegInfo,
    /// Its alignment.
    alignment: Alignment,
    /// Its place.
    place: Placed,
    /// Whether it shares the frame of its name.
    shared: bool,
}

/// Prints the name of a segment's class in double quotes, or a dash for index 0.
fn print_class(text: &mut String, module: &Checked, class: u16) -> Result<(), AllocError>
    ensures { AddsText result (string_bytes text.old) (string_bytes text.new) (named (names (recs_of «module».now.bytes)) class) }
{
    print_name(text, module.name(class))
}

/// Prints a segment's comment: its class, its alignment and its length.
fn print_segment_comment(
    text: &mut String,
    module: &Checked,
    segment: SegInfo,
    alignment: Alignment,
) -> Result<(), AllocError>
    ensures { AddsText result (string_bytes text.old) (string_bytes text.new) (codes " ; class " ++ named (names (recs_of «module».now.bytes)) segment.class ++ 32 ∷ alignment_text segment.absolute alignment ++ codes " length " ++ decimal segment.length ++ 10 ∷ []) }
{
    text.push_str(" ; class ")?;
    print_class(text, module, segment.class)?;
    print_segment_room(text, segment.absolute, alignment, segment.length)
}

/// Prints a segment's line.
fn print_segment(
    text: &mut String,
    module: &Checked,
    frames: Frames,
    line: SegmentLine,
) -> Result<(), AllocError>
    ensures short { IsShortPlace line.place }
    ensures line { AddsText result (string_bytes text.old) (string_bytes text.new) (segment_line_by frames (recs_of «module».now.bytes) line.form line.shared (line.index, ((line.segment, line.alignment), line.place))) }
{
    text.push_str("S ")?;
    print_key(text, module, Kind::Segment, line.form, line.index)?;
    text.push_str(" ")?;
    print_place(text, frames, line.shared, line.place)?;
    print_segment_comment(text, module, line.segment, line.alignment)
}

/// Prints a line for each segment.
fn print_segments(
    text: &mut String,
    module: &Checked,
    part: &Part<'_>,
    keys: &Keys,
    alignments: &[Alignment],
) -> Result<(), AllocError>
    requires keys { AreKeys (recs_of «module».now.bytes) Segments keys.now.by_name.items keys.now.by_class.items }
    requires aligned { length alignments.now ≡ length (segments (recs_of «module».now.bytes)) }
    requires placed { length part.now.placement.now.segments ≡ length (segments (recs_of «module».now.bytes)) }
    requires shared { length part.now.shares.now.segments.items ≡ length (segments (recs_of «module».now.bytes)) }
    ensures few { OnOk result (length (segments (recs_of «module».now.bytes)) < 2 ^ 32) }
    ensures short { OnOk result (All IsShortPlace part.now.placement.now.segments) }
    ensures lines { (shares : ℕ → Base → Bool) → part.now.shares.now.segments.items ≡ map (λ y. shares y.0 y.1.frame) (enumerate_from 1 part.now.placement.now.segments) → AddsText result (string_bytes text.old) (string_bytes text.new) (flat_map (segment_line part.now.frames shares (recs_of «module».now.bytes)) (enumerate_from 1 (zip (zip (segments (recs_of «module».now.bytes)) alignments.now) part.now.placement.now.segments))) }
{
    for before in 0..module.segments() {
        let index = before + 1;
        let Some(segment) = module.segment(index) else {
            unreachable!()
        };
        let Some(alignment) = entry_of(alignments, usize::from(index)) else {
            unreachable!()
        };
        let Some(place) = part.placement.segment(usize::from(index)) else {
            unreachable!()
        };
        let Some(shared) = entry_of(&part.shares.segments, usize::from(index)) else {
            unreachable!()
        };
        let form = keys.form(index);
        let line = SegmentLine {
            form,
            index,
            segment,
            alignment,
            place,
            shared,
        };
        print_segment(text, module, part.frames, line)?;
    }
    Ok(())
}

/// Prints a line for each segment.
fn print_segment_lines(
    alloc: Global,
    text: &mut String,
    module: &Checked,
    part: &Part<'_>,
) -> Result<(), AllocError>
    requires placed { length part.now.placement.now.segments ≡ length (segments (recs_of «module».now.bytes)) }
    requires shared { length part.now.shares.now.segments.items ≡ length (segments (recs_of «module».now.bytes)) }
    ensures few { OnOk result (length (segments (recs_of «module».now.bytes)) < 2 ^ 32) }
    ensures short { OnOk result (All IsShortPlace part.now.placement.now.segments) }
    ensures lines { (shares : ℕ → Base → Bool) → part.now.shares.now.segments.items ≡ map (λ y. shares y.0 y.1.frame) (enumerate_from 1 part.now.placement.now.segments) → AddsText result (string_bytes text.old) (string_bytes text.new) (segment_lines part.now.frames shares (recs_of «module».now.bytes) part.now.placement.now.segments) }
{
    let alignments = alignments_of(alloc, module)?;
    let keys = Keys::of(alloc, module, Kind::Segment)?;
    print_segments(text, module, part, &keys, &alignments)
}

/// A group, and how it is named.
#[derive(Clone, Copy)]
struct GroupLine {
    /// The form of its key.
    form: KeyForm,
    /// Its index, from 1.
    index: u16,
    /// Its frame.
    frame: Frame,
    /// Whether it shares the frame of its name.
    shared: bool,
}

/// Prints a group's line.
fn print_group(text: &mut String, module: &Checked, line: GroupLine) -> Result<(), AllocError>
    ensures short { IsShortFrame line.frame }
    ensures line { AddsText result (string_bytes text.old) (string_bytes text.new) (group_line_by (recs_of «module».now.bytes) line.form line.shared line.index line.frame) }
{
    let Frame { base, selector } = line.frame;
    text.push_str("G ")?;
    print_key(text, module, Kind::Group, line.form, line.index)?;
    if line.shared {
        text.push_str(" shared\n")
    } else {
        write!(text, " {base:X} {selector:X}\n")
    }
}

/// Prints a line for each group.
fn print_group_lines(
    alloc: Global,
    text: &mut String,
    module: &Checked,
    part: &Part<'_>,
) -> Result<(), AllocError>
    requires placed { length part.now.placement.now.groups ≡ length (groups (recs_of «module».now.bytes)) }
    requires shared { length part.now.shares.now.groups.items ≡ length (groups (recs_of «module».now.bytes)) }
    ensures few { OnOk result (length (groups (recs_of «module».now.bytes)) < 2 ^ 32) }
    ensures short { OnOk result (All IsShortFrame part.now.placement.now.groups) }
    ensures lines { (shares : ℕ → Base → Bool) → part.now.shares.now.groups.items ≡ map (λ y. shares y.0 y.1) (enumerate_from 1 part.now.placement.now.groups) → AddsText result (string_bytes text.old) (string_bytes text.new) (group_lines shares (recs_of «module».now.bytes) part.now.placement.now.groups) }
{
    let keys = Keys::of(alloc, module, Kind::Group)?;
    for before in 0..module.groups() {
        let index = before + 1;
        let Some(frame) = part.placement.group(usize::from(index)) else {
            unreachable!()
        };
        let Some(shared) = entry_of(&part.shares.groups, usize::from(index)) else {
            unreachable!()
        };
        let line = GroupLine {
            form: keys.form(index),
            index,
            frame,
            shared,
        };
        print_group(text, module, line)?;
    }
    Ok(())
}

/// Prints the line of an external that is to be filled in.
fn print_wanted(
    text: &mut String,
    module: &Checked,
    form: KeyForm,
    index: u16,
    room: Option<u64>,
) -> Result<(), AllocError>
    ensures { AddsText result (string_bytes text.old) (string_bytes text.new) (wanted_line_by (recs_of «module».now.bytes) form index room) }
{
    text.push_str("; X ")?;
    print_key(text, module, Kind::External, form, index)?;
    text.push_str(" address base selector ;")?;
    print_room(text, room)
}

/// Returns whether an external sees a public of its name: among the publics of all modules, or if it is local among its module's own
/// local ones.
fn is_public<'a>(all: &NameTable<'a>, own: &NameTable<'a>, name: &'a [u8], local: bool) -> bool
    ensures { (among : Bool → List (List ℕ)) → IsNameTable all.now (among false) → IsNameTable own.now (among true) → result ≡ has_name (among local) name.now }
{
    if local { own.has(name) } else { all.has(name) }
}

/// Prints the line of an external, unless it sees a public of its name.
fn print_external(
    text: &mut String,
    module: &Checked,
    seen: bool,
    form: KeyForm,
    index: u16,
    room: Option<u64>,
) -> Result<(), AllocError>
    ensures { AddsText result (string_bytes text.old) (string_bytes text.new) (external_by seen (recs_of «module».now.bytes) form index room) }
{
    if seen {
        return Ok(());
    }
    print_wanted(text, module, form, index, room)
}

/// Prints a line for each external that sees no public of its name; `asked` has the lengths of the communals.
fn print_wanted_lines<'a>(
    text: &mut String,
    module: &'a Checked,
    all: &NameTable<'a>,
    own: &NameTable<'a>,
    keys: &Keys,
    asked: &[Option<u64>],
) -> Result<(), AllocError>
    requires keys { AreKeys (recs_of «module».now.bytes) Externals keys.now.by_name.items keys.now.by_class.items }
    requires asked { asked.now ≡ rooms (recs_of «module».now.bytes) }
    requires as_many { length asked.now ≡ length (externals (recs_of «module».now.bytes)) }
    ensures { (among : Bool → List (List ℕ)) → IsNameTable all.now (among false) → IsNameTable own.now (among true) → AddsText result (string_bytes text.old) (string_bytes text.new) (wanted_lines among (recs_of «module».entry.now.bytes)) }
{
    for before in 0..module.externals() {
        let index = before + 1;
        let Some(name) = module.external(index) else {
            unreachable!()
        };
        let Some(room) = entry_of(asked, usize::from(index)) else {
            unreachable!()
        };
        let local = module.local(index).unwrap_or(false);
        let seen = is_public(all, own, name.0, local);
        let form = keys.form(index);
        print_external(text, module, seen, form, index, room)?;
    }
    Ok(())
}

/// Prints a line for each external of a module that sees no public of its name; `all` has the names of the publics of all modules.
fn print_wanted_part<'a>(
    alloc: Global,
    text: &mut String,
    module: &'a Checked,
    all: &NameTable<'a>,
) -> Result<(), AllocError>
    ensures { (among : Bool → List (List ℕ)) → IsNameTable all.now (among false) → among true ≡ public_names true (recs_of «module».entry.now.bytes) → AddsText result (string_bytes text.old) (string_bytes text.new) (wanted_lines among (recs_of «module».entry.now.bytes)) }
{
    let rooms = rooms_of(alloc, module)?;
    let own = NameTable::of_locals(alloc, module)?;
    let keys = Keys::of(alloc, module, Kind::External)?;
    print_wanted_lines(text, module, all, &own, &keys, &rooms)
}

/// Adds the lines of a module at this placement, after that which begins them; `all` has the names of the publics of all modules.
pub fn print_part<'a>(
    alloc: Global,
    text: &mut String,
    module: &'a Checked,
    part: &Part<'_>,
    all: &NameTable<'a>,
) -> Result<(), AllocError>
    requires segments { length part.now.placement.now.segments ≡ length (segments (recs_of «module».now.bytes)) }
    requires groups { length part.now.placement.now.groups ≡ length (groups (recs_of «module».now.bytes)) }
    requires shared_segments { length part.now.shares.now.segments.items ≡ length (segments (recs_of «module».now.bytes)) }
    requires shared_groups { length part.now.shares.now.groups.items ≡ length (groups (recs_of «module».now.bytes)) }
    ensures few_segments { OnOk result (length (segments (recs_of «module».now.bytes)) < 2 ^ 32) }
    ensures few_groups { OnOk result (length (groups (recs_of «module».now.bytes)) < 2 ^ 32) }
    ensures segments { OnOk result (All IsShortPlace part.now.placement.now.segments) }
    ensures groups { OnOk result (All IsShortFrame part.now.placement.now.groups) }
    ensures text { (shares : Sharing) (among : Bool → List (List ℕ)) → shares_seen part.now.shares.now ≡ shared_by shares part.now.placement.now → IsNameTable all.now (among false) → among true ≡ public_names true (recs_of «module».entry.now.bytes) → AddsText result (string_bytes text.old) (string_bytes text.new) (part_text part.now.frames shares among (recs_of «module».entry.now.bytes) part.now.placement.now) }
{
    print_segment_lines(alloc, text, module, part)?;
    print_group_lines(alloc, text, module, part)?;
    print_wanted_part(alloc, text, module, all)
}

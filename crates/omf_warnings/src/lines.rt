//! Lines of what a link text does unseen, by the names of modules and segments.

ghost use Rattle.std.specs.Prelude.{◌≡◌, ◌++◌, ◌∷◌, codes, map, string_bytes};
ghost use Rattle.omf_check.specs.Module.{typed_modules};
ghost use Rattle.omf_frame.specs.Bytes.{AddsText};
ghost use Rattle.omf_placement.specs.Quoted.{hex};
ghost use Rattle.omf_warnings.specs.Lines.{AddsLine, align_line, base_text, end_text, far_end, far_text, framed_text, frames_line, group_frame_text, group_line, group_text, last_of, overlap_line, own_frame_text, part_text, range_text, selector_line};

use crate::finding::{Finding, Range};
use crate::frames::Framed;
use crate::wide::FarMember;
use omf_check::Checked;
use omf_externals::{print_digits, put_own};
use omf_lines::{Labeled, name_at, put_owner, put_segment, put_stray};
use omf_linking::space::Owner;
use omf_reloc::Kind;
use omf_text::print_quoted;
use std::alloc::AllocError;
use std::fmt::Write;

/// Appends a group of a module after a space: its name, or its index if it has none.
fn put_group(
    text: &mut String,
    modules: &[Checked],
    module: u32,
    group: u16,
) -> Result<(), AllocError>
    ensures { AddsText result (string_bytes text.old) (string_bytes text.new) (32 ∷ group_text (typed_modules modules.now) «module» group) }
{
    text.push_str(" ")?;
    match name_at(modules, module, Kind::Group, group) {
        Some(name) => print_quoted(text, name.0),
        None => write!(text, "{group}"),
    }
}

/// Appends the base of a frame.
fn put_base(text: &mut String, base: u32) -> Result<(), AllocError>
    ensures { AddsText result (string_bytes text.old) (string_bytes text.new) (base_text base) }
{
    text.push_str(" frame")?;
    print_digits(text, u64::from(base))
}

/// Appends the group of a member that is too far, and its frame; nothing for a segment alone.
fn put_group_frame(text: &mut String, modules: &[Checked], far: FarMember) -> Result<(), AllocError>
    ensures { AddsText result (string_bytes text.old) (string_bytes text.new) (group_frame_text (typed_modules modules.now) far) }
{
    if far.group == 0 {
        return Ok(());
    }
    put_group(text, modules, far.module, far.group)?;
    put_base(text, far.base)?;
    text.push_str(",")
}

/// Appends the frame of a segment alone; nothing for a member of a group.
fn put_own_frame(text: &mut String, far: FarMember) -> Result<(), AllocError>
    ensures { AddsText result (string_bytes text.old) (string_bytes text.new) (own_frame_text far) }
{
    if far.group == 0 {
        put_base(text, far.base)
    } else {
        Ok(())
    }
}

/// Returns where a member that is too far ends, as it is shown.
fn far_end(far: FarMember) -> u64
    ensures { result ≡ far_end far }
{
    far.end.min(u128::from(u64::MAX)) as u64
}

/// Appends where a member that is too far ends.
fn put_end(text: &mut String, far: FarMember) -> Result<(), AllocError>
    ensures { AddsText result (string_bytes text.old) (string_bytes text.new) (end_text far) }
{
    let end = far_end(far);
    let over = end
        .saturating_sub(u64::from(far.base))
        .saturating_sub(65_536);
    text.push_str(" ends at")?;
    print_digits(text, end)?;
    write!(text, ", {over} bytes too far")
}

/// Appends a segment that ends too far from its frame, or from that of its group if it has one.
fn put_far_member(text: &mut String, named: Labeled<'_>, far: FarMember) -> Result<(), AllocError>
    ensures { AddsText result (string_bytes text.old) (string_bytes text.new) (far_text (map string_bytes named.entry.labels.now) (typed_modules named.entry.modules.now) far) }
{
    put_own(text, named.labels, far.module)?;
    put_group_frame(text, named.modules, far)?;
    put_segment(text, named.modules, far.module, far.segment)?;
    put_own_frame(text, far)?;
    put_end(text, far)
}

/// Returns the last address of a range, as it is shown.
fn last_of(range: Range) -> u64
    ensures { result ≡ last_of range }
{
    range.end.saturating_sub(1).min(u128::from(u64::MAX)) as u64
}

/// Appends a segment and its addresses, from the first to the last.
pub fn put_range(text: &mut String, named: Labeled<'_>, range: Range) -> Result<(), AllocError>
    ensures { AddsText result (string_bytes text.old) (string_bytes text.new) (range_text (map string_bytes named.entry.labels.now) (typed_modules named.entry.modules.now) range) }
{
    put_owner(text, named, range.owner)?;
    print_digits(text, u64::from(range.first))?;
    text.push_str(" to")?;
    print_digits(text, last_of(range))
}

/// Appends a segment or a group of a module.
fn put_part_of(text: &mut String, modules: &[Checked], framed: Framed) -> Result<(), AllocError>
    ensures { AddsText result (string_bytes text.old) (string_bytes text.new) (part_text (typed_modules modules.now) framed.kind framed.«module» framed.index) }
{
    match framed.kind {
        Kind::Group => {
            text.push_str(" group")?;
            put_group(text, modules, framed.module, framed.index)
        }
        Kind::Segment => put_segment(text, modules, framed.module, framed.index),
        Kind::External => put_segment(text, modules, framed.module, framed.index),
    }
}

/// Appends a space and a number of at least four hexadecimal digits.
fn put_four(text: &mut String, number: u64) -> Result<(), AllocError>
    ensures { AddsText result (string_bytes text.old) (string_bytes text.new) (32 ∷ hex 4 number) }
{
    write!(text, " {number:04X}")
}

/// Appends a selector.
fn put_selector(text: &mut String, selector: u16) -> Result<(), AllocError>
    ensures { AddsText result (string_bytes text.old) (string_bytes text.new) (codes " selector " ++ hex 4 selector) }
{
    text.push_str(" selector")?;
    put_four(text, u64::from(selector))
}

/// Appends a part of a segment, or a group, and its frame.
fn put_framed(text: &mut String, named: Labeled<'_>, framed: Framed) -> Result<(), AllocError>
    ensures { AddsText result (string_bytes text.old) (string_bytes text.new) (framed_text (map string_bytes named.entry.labels.now) (typed_modules named.entry.modules.now) framed) }
{
    put_own(text, named.labels, framed.module)?;
    put_part_of(text, named.modules, framed)?;
    put_base(text, framed.frame.base)?;
    put_selector(text, framed.frame.selector)
}

/// Appends the line of two segments with addresses in common.
fn put_overlap(
    text: &mut String,
    named: Labeled<'_>,
    first: Range,
    second: Range,
) -> Result<(), AllocError>
    ensures { AddsText result (string_bytes text.old) (string_bytes text.new) (overlap_line (map string_bytes named.entry.labels.now) (typed_modules named.entry.modules.now) first second) }
{
    text.push_str("overlap: ")?;
    put_range(text, named, first)?;
    text.push_str(", ")?;
    put_range(text, named, second)?;
    text.push_str("\n")
}

/// Appends the line of a segment whose address is no multiple of its alignment.
fn put_align(
    text: &mut String,
    named: Labeled<'_>,
    segment: Owner,
    address: u32,
    alignment: u16,
) -> Result<(), AllocError>
    ensures { AddsText result (string_bytes text.old) (string_bytes text.new) (align_line (map string_bytes named.entry.labels.now) (typed_modules named.entry.modules.now) segment address alignment) }
{
    text.push_str("align: ")?;
    put_owner(text, named, segment)?;
    print_digits(text, u64::from(address))?;
    write!(text, ", alignment {alignment}\n")
}

/// Appends the line of a member that is too far.
fn put_far(text: &mut String, named: Labeled<'_>, far: FarMember) -> Result<(), AllocError>
    ensures { AddsText result (string_bytes text.old) (string_bytes text.new) (group_line (map string_bytes named.entry.labels.now) (typed_modules named.entry.modules.now) far) }
{
    text.push_str("group: ")?;
    put_far_member(text, named, far)?;
    text.push_str("\n")
}

/// Appends the line of two parts of one segment, or two groups of one name.
fn put_frames(
    text: &mut String,
    named: Labeled<'_>,
    first: Framed,
    other: Framed,
) -> Result<(), AllocError>
    ensures { AddsText result (string_bytes text.old) (string_bytes text.new) (frames_line (map string_bytes named.entry.labels.now) (typed_modules named.entry.modules.now) first other) }
{
    text.push_str("frame: ")?;
    put_framed(text, named, first)?;
    text.push_str(", ")?;
    put_framed(text, named, other)?;
    text.push_str("\n")
}

/// Appends the line of a frame in real mode with another base.
fn put_unreal(text: &mut String, named: Labeled<'_>, framed: Framed) -> Result<(), AllocError>
    ensures { AddsText result (string_bytes text.old) (string_bytes text.new) (selector_line (map string_bytes named.entry.labels.now) (typed_modules named.entry.modules.now) framed) }
{
    text.push_str("frame: ")?;
    put_framed(text, named, framed)?;
    text.push_str(": the base is not 16 times the selector")?;
    text.push_str("\n")
}

/// Appends the line of what is found.
pub fn put_line(text: &mut String, named: Labeled<'_>, found: Finding) -> Result<(), AllocError>
    ensures { AddsLine result (map string_bytes named.entry.labels.now) (typed_modules named.entry.modules.now) found (string_bytes text.old) (string_bytes text.new) }
{
    match found {
        Finding::Overlap { first, second } => put_overlap(text, named, first, second),
        Finding::Align {
            segment,
            address,
            alignment,
        } => put_align(text, named, segment, address, alignment),
        Finding::Group(far) => put_far(text, named, far),
        Finding::Frames { first, other } => put_frames(text, named, first, other),
        Finding::Selector(framed) => put_unreal(text, named, framed),
        Finding::Near(stray) => put_stray(text, named, stray),
    }
}

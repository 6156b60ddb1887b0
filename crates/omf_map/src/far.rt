//! The combined segments of a program, and the far addresses of its groups, publics and lines, as LINK's map and a debugger show them.

ghost use Rattle.std.specs.Prelude.{◌-◌, ◌<◌, ◌^◌, ◌++◌, ◌∷◌, [], ◌≡◌, IfOk, Some, codes, decimal, flat_map, length, option_map, string_bytes, unwrap_or};
ghost use Rattle.std.specs.List.{enumerate_from};
ghost use Rattle.omf_check.specs.Module.{recs_of};
ghost use Rattle.omf_check.specs.Tables.{entry, groups};
ghost use Rattle.omf_frame.specs.Bytes.{AddsText};
ghost use Rattle.omf_lowering.specs.Lines.{lines_of};
ghost use Rattle.omf_placement.specs.Derive.{placed_modules};
ghost use Rattle.omf_placement.specs.Quoted.{hex, quoted};
ghost use Rattle.omf_records.specs.Values.{GroupItem};
ghost use Rattle.omf_map.specs.Far.{IsProgramMap, eight, far, far_line, far_place, group_line, group_lines, line_within, lines_at, selector_or_dash, size_of, source_line, source_lines, whole_line};
ghost use Rattle.omf_map.specs.MapText.{line};

use crate::listing::map_text;
use crate::printing::{print_name, print_number, print_quoted};
use omf_check::{Checked, Undecoded};
use omf_externals::print_digits;
use omf_frame::{Index, Name};
use omf_linking::locator::module_name;
use omf_listing::{
    CombinedSegment, FarPublic, combined_segments, publics_by_name, publics_by_value,
};
use omf_lowering::{LineNumber, line_numbers};
use omf_placement::{Frame, Placed, Placement, base_of};
use omf_records::{At, Rec};
use std::alloc::{AllocError, Global};
use std::fmt::Write;

/// Prints a number of at least four hexadecimal digits.
fn print_four(text: &mut String, number: u64) -> Result<(), AllocError>
    ensures { AddsText result (string_bytes text.old) (string_bytes text.new) (hex 4 number) }
{
    write!(text, "{number:04X}")
}

/// Prints a selector and an offset.
pub fn print_far(text: &mut String, selector: u16, offset: u64) -> Result<(), AllocError>
    ensures { AddsText result (string_bytes text.old) (string_bytes text.new) (far selector offset) }
{
    print_four(text, u64::from(selector))?;
    text.push_str(":")?;
    print_four(text, offset)
}

/// Prints an address in its frame, or a dash where it is below the frame's base.
fn print_place(text: &mut String, address: u64, frame: Frame) -> Result<(), AllocError>
    ensures { AddsText result (string_bytes text.old) (string_bytes text.new) (far_place (record { address = address; frame = frame })) }
{
    let base = u64::from(frame.base);
    if address < base {
        return text.push_str("-");
    }
    print_far(text, frame.selector, address - base)
}

/// Prints the line of a public, which begins with the word of its list.
fn print_public(text: &mut String, word: &str, public: &FarPublic<'_>) -> Result<(), AllocError>
    ensures { AddsText result (string_bytes text.old) (string_bytes text.new) (far_line word.now public.now) }
{
    text.push_str(word)?;
    text.push_str(" ")?;
    print_place(text, public.address, public.frame)?;
    print_quoted(text, public.name)?;
    text.push_str("\n")
}

/// Prints a line for each public of a list, whose lines begin with this word.
fn print_publics(text: &mut String, word: &str, publics: &[FarPublic<'_>]) -> Result<(), AllocError>
    ensures { AddsText result (string_bytes text.old) (string_bytes text.new) (flat_map (far_line word.now) publics.now) }
{
    for public in publics {
        print_public(text, word, public)?;
    }
    Ok(())
}

/// Prints a space and a number of eight hexadecimal digits or more.
fn print_eight(text: &mut String, number: u128) -> Result<(), AllocError>
    ensures { AddsText result (string_bytes text.old) (string_bytes text.new) (32 ∷ eight number) }
{
    print_digits(text, number.min(u128::from(u64::MAX)) as u64)
}

/// Prints the addresses of the first and the last byte of a combined segment, and its length.
fn print_extent(text: &mut String, segment: &CombinedSegment<'_>) -> Result<(), AllocError>
    ensures { AddsText result (string_bytes text.old) (string_bytes text.new) (32 ∷ eight segment.now.start ++ 32 ∷ eight (segment.now.end - 1) ++ 32 ∷ eight (segment.now.end - segment.now.start)) }
{
    print_eight(text, segment.start)?;
    print_eight(text, segment.end.saturating_sub(1))?;
    print_eight(text, segment.end.saturating_sub(segment.start))
}

/// Prints the line of a combined segment.
fn print_whole(text: &mut String, segment: &CombinedSegment<'_>) -> Result<(), AllocError>
    ensures { AddsText result (string_bytes text.old) (string_bytes text.new) (whole_line segment.now) }
{
    text.push_str("whole")?;
    print_extent(text, segment)?;
    print_quoted(text, segment.name)?;
    print_quoted(text, segment.class)?;
    text.push_str("\n")
}

/// Prints a line for each of several combined segments.
fn print_wholes(text: &mut String, segments: &[CombinedSegment<'_>]) -> Result<(), AllocError>
    ensures { AddsText result (string_bytes text.old) (string_bytes text.new) (flat_map whole_line segments.now) }
{
    for segment in segments {
        print_whole(text, segment)?;
    }
    Ok(())
}

/// Prints a space and the selector of a group, or a dash for none.
fn print_selector(text: &mut String, frame: Option<Frame>) -> Result<(), AllocError>
    ensures { AddsText result (string_bytes text.old) (string_bytes text.new) (32 ∷ selector_or_dash frame) }
{
    match frame {
        Some(frame) => {
            text.push_str(" ")?;
            print_four(text, u64::from(frame.selector))
        }
        None => text.push_str(" -"),
    }
}

/// Prints the line of a group.
fn print_group(
    text: &mut String,
    number: usize,
    index: u16,
    frame: Option<Frame>,
    name: Option<Name<'_>>,
) -> Result<(), AllocError>
    ensures { AddsText result (string_bytes text.old) (string_bytes text.new) (line (codes "group" ∷ decimal number ∷ decimal index ∷ selector_or_dash frame ∷ unwrap_or (option_map quoted name.entry) (codes "-") ∷ [])) }
{
    text.push_str("group")?;
    print_number(text, number)?;
    print_number(text, usize::from(index))?;
    print_selector(text, frame)?;
    print_name(text, name)?;
    text.push_str("\n")
}

/// Prints the line of the group with an index.
fn print_group_at(
    text: &mut String,
    number: usize,
    index: u16,
    module: &Checked,
    placement: &Placement,
) -> Result<(), AllocError>
    requires { (g : GroupItem) × (entry (groups (recs_of «module».now.bytes)) index ≡ Some g) }
    ensures { (g : GroupItem) → entry (groups (recs_of «module».now.bytes)) index ≡ Some g → AddsText result (string_bytes text.old) (string_bytes text.new) (group_line number (recs_of «module».now.bytes, placement.now) (index, g)) }
{
    let Some(group) = module.group(index) else {
        unreachable!()
    };
    let Rec::Group { name, .. } = &group else {
        unreachable!()
    };
    let frame = placement.group(usize::from(index));
    print_group(text, number, index, frame, module.name(name.item.0))
}

/// Prints a line for each group of a module.
fn print_groups(
    text: &mut String,
    number: usize,
    module: &Checked,
    placement: &Placement,
) -> Result<(), AllocError>
    ensures { AddsText result (string_bytes text.old) (string_bytes text.new) (group_lines (number, (recs_of «module».now.bytes, placement.now))) }
{
    for before in 0..module.groups() {
        print_group_at(text, number, before + 1, module, placement)?;
    }
    Ok(())
}

/// Prints a line for each group of modules, module by module.
fn print_all_groups(
    text: &mut String,
    modules: &[Checked],
    placements: &[Placement],
) -> Result<(), AllocError>
    requires { length placements.now ≡ length modules.now }
    ensures { AddsText result (string_bytes text.old) (string_bytes text.new) (flat_map group_lines (enumerate_from 1 (placed_modules modules.now placements.now))) }
{
    for (j, module) in modules.iter().enumerate() {
        print_groups(text, j + 1, module, &placements[j])?;
    }
    Ok(())
}

/// Where lines of the source are: the number of their module and its name, and the base and the length of their segment.
#[derive(Clone, Copy)]
struct LineBase<'a> {
    number: usize,
    source: &'a [u8],
    base: Placed,
    size: u64,
}

/// Prints the line of a line of the source.
fn print_line(text: &mut String, at: LineBase<'_>, line: &At<LineNumber>) -> Result<(), AllocError>
    ensures { AddsText result (string_bytes text.old) (string_bytes text.new) (source_line at.entry.number at.entry.source.now at.entry.base line.now) }
{
    let address = u64::from(at.base.address) + u64::from(line.item.offset);
    text.push_str("line ")?;
    print_place(text, address, at.base.frame)?;
    print_number(text, at.number)?;
    print_number(text, line.item.number as usize)?;
    print_quoted(text, at.source)?;
    text.push_str("\n")
}

/// Prints the line of a line of the source, unless it is at the end of its segment or after it.
fn print_within(
    text: &mut String,
    at: LineBase<'_>,
    line: &At<LineNumber>,
) -> Result<(), AllocError>
    ensures { AddsText result (string_bytes text.old) (string_bytes text.new) (line_within at.entry.number at.entry.source.now at.entry.base at.entry.size line.now) }
{
    if u64::from(line.item.offset) < at.size {
        print_line(text, at, line)
    } else {
        Ok(())
    }
}

/// Prints lines of the source.
fn print_lines(
    text: &mut String,
    at: LineBase<'_>,
    lines: &[At<LineNumber>],
) -> Result<(), AllocError>
    ensures { AddsText result (string_bytes text.old) (string_bytes text.new) (flat_map (line_within at.entry.number at.entry.source.now at.entry.base at.entry.size) lines.now) }
{
    for line in lines {
        print_within(text, at, line)?;
    }
    Ok(())
}

/// A module at its placement, with its number.
#[derive(Clone, Copy)]
struct NumberedModule<'a> {
    number: usize,
    own: &'a Checked,
    placement: &'a Placement,
}

/// The length of a segment of a module; 0 if no segment has the index.
fn size_of(own: &Checked, placement: &Placement, segment: Index) -> u64
    ensures { result ≡ size_of (recs_of own.now.bytes, placement.now) segment }
{
    match own.segment(segment.0) {
        Some(found) => found.length,
        None => 0,
    }
}

/// Prints the lines of a record, if it is a LINNUM. No other record is decoded.
fn print_linnum(
    alloc: Global,
    text: &mut String,
    of: NumberedModule<'_>,
    rec: &Undecoded<'_>,
) -> Result<(), AllocError>
    ensures { AddsText result (string_bytes text.old) (string_bytes text.new) (lines_at of.entry.number (recs_of of.entry.own.now.bytes, of.entry.placement.now) (lines_of rec.now.kind rec.now.contents)) }
{
    let Some(lines) = line_numbers(alloc, rec)? else {
        return Ok(());
    };
    let size = size_of(of.own, of.placement, lines.segment);
    match base_of(of.placement, lines.group, lines.segment, None) {
        Some(base) => {
            let at = LineBase {
                number: of.number,
                source: module_name(of.own),
                base,
                size,
            };
            print_lines(text, at, &lines.items)
        }
        None => Ok(()),
    }
}

/// Prints the lines of a module's source.
fn print_source(alloc: Global, text: &mut String, of: NumberedModule<'_>) -> Result<(), AllocError>
    ensures { AddsText result (string_bytes text.old) (string_bytes text.new) (source_lines (of.entry.number, (recs_of of.entry.own.now.bytes, of.entry.placement.now))) }
{
    for (_, rec) in of.own.undecoded() {
        print_linnum(alloc, text, of, &rec)?;
    }
    Ok(())
}

/// Prints the lines of the sources of modules, module by module.
fn print_all_sources(
    alloc: Global,
    text: &mut String,
    modules: &[Checked],
    placements: &[Placement],
) -> Result<(), AllocError>
    requires { length placements.now ≡ length modules.now }
    ensures { AddsText result (string_bytes text.old) (string_bytes text.new) (flat_map source_lines (enumerate_from 1 (placed_modules modules.now placements.now))) }
{
    for (j, module) in modules.iter().enumerate() {
        let of = NumberedModule {
            number: j + 1,
            own: module,
            placement: &placements[j],
        };
        print_source(alloc, text, of)?;
    }
    Ok(())
}

/// Returns the map of a program, of modules at their placements: what `map_text` returns, and after it
///
/// - `whole AAAAAAAA ZZZZZZZZ LLLLLLLL "NAME" "CLASS"` for each combined segment, by address: the addresses of its first and of its last byte, its length in bytes, its
/// name and that of its class, of eight hexadecimal digits or more. The public and the stack segments of one class and name are one, and the common ones are one. A private
/// or an absolute segment is one by itself. Segments without a byte are left out (TIS OMF 1.1, "SEGDEF", C field);
/// - `group M I SSSS "NAME"` for each group, module by module: the numbers of the module and of the group in it, from 1, and its selector;
/// - `name SSSS:OOOO "NAME"` for each public that is not local, by name. Its place is the selector of its frame (of its PUBDEF's group, or else of its segment)
/// and the offset from the frame's base, each in hexadecimal, or a dash where its address is below that base;
/// - `value SSSS:OOOO "NAME"` for the same publics, by address;
/// - `line SSSS:OOOO M N "SOURCE"` for each line of a source that a LINNUM has, module by module: its place, found as a public's, the number of its module, its own, and the name
/// in the module's THEADR or LHEADR.
/// A line at the end of its segment or after it is left out.
///
/// # Errors
///
/// `AllocError` if memory runs out.
pub fn program_map(
    alloc: Global,
    modules: &[Checked],
    placements: &[Placement],
) -> Result<String, AllocError>
    requires few { length modules.now < 2 ^ 32 }
    requires placed { length placements.now ≡ length modules.now }
    ensures { IfOk result (λ text. IsProgramMap modules.now placements.now (string_bytes text)) }
{
    let segments = combined_segments(alloc, modules, placements)?;
    let names = publics_by_name(alloc, modules, placements)?;
    let values = publics_by_value(alloc, modules, placements)?;
    let mut text = map_text(alloc, modules, placements)?;
    print_wholes(&mut text, &segments)?;
    print_all_groups(&mut text, modules, placements)?;
    print_publics(&mut text, "name", &names)?;
    print_publics(&mut text, "value", &values)?;
    print_all_sources(alloc, &mut text, modules, placements)?;
    Ok(text)
}

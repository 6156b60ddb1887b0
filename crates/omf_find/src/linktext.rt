//! The text with which `omf-link` lays the modules that are found at their places.

ghost use Rattle.std.specs.Prelude.{◌≡◌, IfOk, flat_map, map, option_map, string_bytes};
ghost use Rattle.std.specs.List.{enumerate_from};
ghost use Rattle.omf_frame.specs.Bytes.{AddsText};
ghost use Rattle.omf_check.specs.Module.{recs_of};
ghost use Rattle.omf_linking.specs.Inner.Forms.{AreKeys};
ghost use Rattle.omf_placement.specs.Quoted.{quoted};
ghost use Rattle.omf_linking.specs.Locator.Keys.{module_name};
ghost use Rattle.omf_find.specs.LinkText.{after_key, entry_lines, frame_text, given, head_line, key_words, left_out_line, letter, line_by, lines_of, link_text, module_lines, name_text, opening, part_by, part_name, part_text, place_text};

use crate::fields::Format;
use crate::parts::{Part, Parts};
use crate::source::Source;
use omf_check::Checked;
use omf_host::put_decimal;
use omf_linking::locator::forms::{KeyForm, Keys, TextTable, print_key};
use omf_linking::locator::{entry_count, module_name};
use omf_reloc::{Frame, Kind, Placed, Placement};
use omf_text::print_quoted;
use std::alloc::{AllocError, Global};
use std::fmt::Write;

/// What is before the modules: how to link them.
fn head_line() -> &'static [u8]
    ensures { result.now ≡ head_line }
{
    b"; omf-link image --allow twice --allow overlap --allow align --allow group --allow frame --allow near -t TEXT MODULE ..\n"
}

/// The letter of a line.
fn letter(kind: Kind) -> &'static str
    ensures { result.now ≡ letter kind }
{
    match kind {
        Kind::Segment => "S ",
        Kind::Group => "G ",
        Kind::External => "X ",
    }
}

/// An address and a frame.
fn place_text(alloc: Global, place: Placed) -> Result<String, AllocError>
    ensures { IfOk result (λ t. string_bytes t ≡ place_text place) }
{
    let address = place.address;
    let Frame { base, selector } = place.frame;
    format!(in alloc; "{address:X} {base:X} {selector:X}")
}

/// A frame.
fn frame_text(alloc: Global, frame: Frame) -> Result<String, AllocError>
    ensures { IfOk result (λ t. string_bytes t ≡ frame_text frame) }
{
    let Frame { base, selector } = frame;
    format!(in alloc; "{base:X} {selector:X}")
}

/// What a placement gives an entry.
fn given(
    alloc: Global,
    placement: &Placement,
    kind: Kind,
    index: u16,
) -> Result<Option<String>, AllocError>
    ensures { IfOk result (λ t. option_map string_bytes t ≡ given placement.now kind index) }
{
    let index = usize::from(index);
    match kind {
        Kind::Segment => match placement.segment(index) {
            Some(place) => Ok(Some(place_text(alloc, place)?)),
            None => Ok(None),
        },
        Kind::Group => match placement.group(index) {
            Some(frame) => Ok(Some(frame_text(alloc, frame)?)),
            None => Ok(None),
        },
        Kind::External => match placement.external(index) {
            Some(place) => Ok(Some(place_text(alloc, place)?)),
            None => Ok(None),
        },
    }
}

/// Appends what comes after the key of a line.
fn print_given(text: &mut String, given: Option<&String>) -> Result<(), AllocError>
    ensures { AddsText result (string_bytes text.old) (string_bytes text.new) (after_key (option_map (λ t. string_bytes t.now) given.entry)) }
{
    match given {
        Some(words) => {
            text.push_str(" ")?;
            text.push_str(words.as_str())
        }
        None => Ok(()),
    }
}

/// Appends the line of an entry.
fn print_entry(
    text: &mut String,
    module: &Checked,
    kind: Kind,
    entry: (KeyForm, u16),
    placement: &Placement,
) -> Result<(), AllocError>
    ensures { AddsText result (string_bytes text.old) (string_bytes text.new) (line_by (recs_of «module».now.bytes) placement.now kind entry.0 entry.1) }
{
    let (form, index) = entry;
    let words = given(*text.allocator(), placement, kind, index)?;
    text.push_str(letter(kind))?;
    print_key(text, module, kind, form, index)?;
    print_given(text, words.as_ref())?;
    text.push_str("\n")
}

/// Appends the lines of the entries of a kind.
fn print_entries(
    text: &mut String,
    module: &Checked,
    kind: Kind,
    keys: &Keys,
    placement: &Placement,
) -> Result<(), AllocError>
    requires { AreKeys (recs_of «module».now.bytes) kind keys.now.by_name.items keys.now.by_class.items }
    ensures { AddsText result (string_bytes text.old) (string_bytes text.new) (entry_lines (recs_of «module».now.bytes) placement.now kind) }
{
    for before in 0..entry_count(module, kind) {
        let index = before + 1;
        let entry = (keys.form(index), index);
        print_entry(text, module, kind, entry, placement)?;
    }
    Ok(())
}

/// Appends the lines of the entries of a kind.
fn put_kind(
    text: &mut Vec<u8>,
    module: &Checked,
    kind: Kind,
    placement: &Placement,
) -> Result<(), AllocError>
    ensures { AddsText result text.old.items text.new.items (entry_lines (recs_of «module».now.bytes) placement.now kind) }
{
    let alloc = *text.allocator();
    let keys = Keys::of(alloc, module, kind)?;
    let mut lines = String::new(alloc);
    print_entries(&mut lines, module, kind, &keys, placement)?;
    text.extend_from_slice(lines.as_bytes())
}

/// Appends the lines of a module after its first: of its segments, groups and externals.
fn put_entries(
    text: &mut Vec<u8>,
    module: &Checked,
    placement: &Placement,
) -> Result<(), AllocError>
    ensures { AddsText result text.old.items text.new.items (module_lines (recs_of «module».now.bytes) placement.now) }
{
    put_kind(text, module, Kind::Segment, placement)?;
    put_kind(text, module, Kind::Group, placement)?;
    put_kind(text, module, Kind::External, placement)
}

/// Appends the lines of a module after its first, if there is such a module.
fn put_module(
    text: &mut Vec<u8>,
    module: Option<&Checked>,
    placement: &Placement,
) -> Result<(), AllocError>
    ensures { AddsText result text.old.items text.new.items (lines_of (option_map (λ m. m.now) «module».entry) placement.now) }
{
    match module {
        Some(module) => put_entries(text, module, placement),
        None => Ok(()),
    }
}

/// Appends the key of the module with this number in the text, from 1: its name as it is printed, or its number if another has the name.
fn put_key(text: &mut Vec<u8>, number: u64, name: &str, repeated: bool) -> Result<(), AllocError>
    ensures { AddsText result text.old.items text.new.items (key_words number name.now repeated) }
{
    if repeated {
        text.push(b'#')?;
        put_decimal(text, number)
    } else {
        text.extend_from_slice(name.as_bytes())
    }
}

/// Appends the first line of a module: its key, which is its name if no other has this, and in a comment where it comes from.
fn put_opening(
    text: &mut Vec<u8>,
    source: Source<'_>,
    part: &Part,
    number: u64,
    key: (&str, bool),
) -> Result<(), AllocError>
    ensures { AddsText result text.old.items text.new.items (opening (map string_bytes source.entry.files.now) source.entry.gathered.now part.now number key.entry.0.now key.entry.1) }
{
    let (name, repeated) = key;
    text.extend_from_slice(b"M ")?;
    put_key(text, number, name, repeated)?;
    text.extend_from_slice(b" ;")?;
    source.put_origin(text, Format::Text, part.module)?;
    text.push(b'\n')?;
    Ok(())
}

/// The name of a module as it is printed.
fn quoted_name(alloc: Global, module: &Checked) -> Result<String, AllocError>
    ensures { IfOk result (λ t. string_bytes t ≡ quoted (module_name (recs_of «module».now.bytes))) }
{
    let mut text = String::new(alloc);
    print_quoted(&mut text, module_name(module))?;
    Ok(text)
}

/// The name of a module as it is printed, if there is such a module.
fn name_text(alloc: Global, module: Option<&Checked>) -> Result<String, AllocError>
    ensures { IfOk result (λ t. string_bytes t ≡ name_text (option_map (λ m. m.now) «module».entry)) }
{
    match module {
        Some(module) => quoted_name(alloc, module),
        None => Ok(String::new(alloc)),
    }
}

/// The name of a module of the text.
fn part_name(alloc: Global, source: Source<'_>, part: &Part) -> Result<String, AllocError>
    ensures { IfOk result (λ t. string_bytes t ≡ part_name source.entry.gathered.now part.now) }
{
    name_text(alloc, source.module(part.module))
}

/// The names of the modules of the text.
fn part_names(alloc: Global, source: Source<'_>, parts: &[Part]) -> Result<Vec<String>, AllocError>
    ensures { IfOk result (λ v. map string_bytes v.items ≡ map (part_name source.entry.gathered.now) parts.now) }
{
    let mut names = Vec::new(alloc);
    for part in parts {
        names.push(part_name(alloc, source, part)?)?;
    }
    Ok(names)
}

/// Appends the lines of a module.
fn put_part(
    text: &mut Vec<u8>,
    source: Source<'_>,
    part: &Part,
    number: u64,
    key: (&str, bool),
) -> Result<(), AllocError>
    ensures { AddsText result text.old.items text.new.items (part_by (map string_bytes source.entry.files.now) source.entry.gathered.now part.now number key.entry.0.now key.entry.1) }
{
    put_opening(text, source, part, number, key)?;
    put_module(text, source.module(part.module), &part.placement)
}

/// Appends the lines of all modules.
fn put_parts(text: &mut Vec<u8>, source: Source<'_>, parts: &[Part]) -> Result<(), AllocError>
    ensures { AddsText result text.old.items text.new.items (flat_map (part_text (map string_bytes source.entry.files.now) source.entry.gathered.now (map (part_name source.entry.gathered.now) parts.now)) (enumerate_from 1 parts.now)) }
{
    let kept = part_names(*text.allocator(), source, parts)?;
    let names: &[String] = &kept;
    let table = TextTable::of(*text.allocator(), names)?;
    for before in 0..parts.len() {
        let name = &names[before];
        let key = (name.as_str(), table.is_repeated(name.as_bytes()));
        put_part(text, source, &parts[before], before as u64 + 1, key)?;
    }
    Ok(())
}

/// Appends the comment of a module that is left out.
fn put_left_out(text: &mut Vec<u8>, source: Source<'_>, module: usize) -> Result<(), AllocError>
    ensures { AddsText result text.old.items text.new.items (left_out_line (map string_bytes source.entry.files.now) source.entry.gathered.now «module») }
{
    text.extend_from_slice(b"; left out:")?;
    source.put_origin(text, Format::Text, module)?;
    text.push(b'\n')?;
    Ok(())
}

/// Appends a comment for each module that is left out.
fn put_all_left_out(
    text: &mut Vec<u8>,
    source: Source<'_>,
    modules: &[usize],
) -> Result<(), AllocError>
    ensures { AddsText result text.old.items text.new.items (flat_map (left_out_line (map string_bytes source.entry.files.now) source.entry.gathered.now) modules.now) }
{
    for module in modules {
        put_left_out(text, source, *module)?;
    }
    Ok(())
}

/// The link text of modules at their places.
///
/// # Errors
///
/// `AllocError` if memory runs out.
pub fn link_text(alloc: Global, source: Source<'_>, parts: &Parts) -> Result<Vec<u8>, AllocError>
    ensures { IfOk result (λ text. text.items ≡ link_text (map string_bytes source.entry.files.now) source.entry.gathered.now parts.now.placed.items parts.now.left_out.items) }
{
    let mut text = Vec::new(alloc);
    text.extend_from_slice(head_line())?;
    put_parts(&mut text, source, &parts.placed)?;
    put_all_left_out(&mut text, source, &parts.left_out)?;
    Ok(text)
}

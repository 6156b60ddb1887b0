//! The map of several modules.

ghost use Rattle.std.specs.Prelude.{◌≡◌, ◌∷◌, IfOk, length, flat_map, map, string_bytes, false, zip};
ghost use Rattle.std.specs.List.{enumerate_from};
ghost use Rattle.omf_frame.specs.Bytes.{AddsText};
ghost use Rattle.omf_check.specs.Module.{recs_of, typed_modules};
ghost use Rattle.omf_map.specs.Addresses.{addressed, addresses_of, public_at, publics_asked, publics_at};
ghost use Rattle.omf_map.specs.MapText.{external_lines, map_text, public_line, public_lines, segment_line, segment_lines};
ghost use Rattle.omf_map.specs.Inner.Steps.{part_lines};

use crate::addresses::Addresses;
use crate::printing::{print_external, print_public, print_segment, print_stored};
use crate::publics::{offset_from, publics_in};
use omf_check::{Checked, SegInfo, Undecoded};
use omf_placement::Placement;
use omf_records::{At, Items, Public};
use std::alloc::{AllocError, Global};

/// The parts of a map.
#[derive(Clone, Copy)]
enum Part {
    /// A line for each segment.
    Segments,
    /// A line for each public that is not local.
    Publics,
    /// A line for each external.
    Externals,
}

/// Prints a segment's line.
fn print_segment_of(
    text: &mut String,
    number: usize,
    index: u16,
    module: &Checked,
    addresses: &Addresses,
    segment: SegInfo,
) -> Result<(), AllocError>
    ensures { AddsText result (string_bytes text.old) (string_bytes text.new) (segment_line number (recs_of «module».now.bytes, addresses.now) (index, segment)) }
{
    let address = addresses.segment(index);
    let name = module.name(segment.name);
    let class = module.name(segment.class);
    print_segment(text, number, index, address, segment.length, name, class)?;
    print_stored(text, addresses.stored(index))
}

/// Prints a line for each segment of a module.
fn print_segments(
    text: &mut String,
    number: usize,
    module: &Checked,
    addresses: &Addresses,
) -> Result<(), AllocError>
    ensures { AddsText result (string_bytes text.old) (string_bytes text.new) (segment_lines (number, (recs_of «module».now.bytes, addresses.now))) }
{
    for before in 0..module.segments() {
        let index = before + 1;
        let Some(segment) = module.segment(index) else {
            unreachable!()
        };
        print_segment_of(text, number, index, module, addresses, segment)?;
    }
    Ok(())
}

/// Prints the line of a public at its offset from a base.
fn print_item(
    text: &mut String,
    number: usize,
    base: Option<u32>,
    public: &At<Public<'_>>,
) -> Result<(), AllocError>
    ensures { AddsText result (string_bytes text.old) (string_bytes text.new) (public_line number (public_at base public.now)) }
{
    let item = &public.item;
    print_public(text, number, offset_from(base, item.offset), item.name.0)
}

/// Prints a line for each public of a PUBDEF.
fn print_items(
    text: &mut String,
    number: usize,
    base: Option<u32>,
    publics: Items<Public<'_>>,
) -> Result<(), AllocError>
    ensures { AddsText result (string_bytes text.old) (string_bytes text.new) (flat_map (public_line number) (publics_at base publics.entry)) }
{
    for public in publics {
        print_item(text, number, base, &public)?;
    }
    Ok(())
}

/// Prints a line for each public of a record that is not local. No other record is decoded.
fn print_record(
    text: &mut String,
    number: usize,
    addresses: &Addresses,
    rec: &Undecoded<'_>,
) -> Result<(), AllocError>
    ensures { AddsText result (string_bytes text.old) (string_bytes text.new) (flat_map (public_line number) (publics_asked false addresses.now.segments rec.now.kind rec.now.contents)) }
{
    match publics_in(false, rec, addresses.segments()) {
        Some((base, publics)) => print_items(text, number, base, publics),
        None => Ok(()),
    }
}

/// Prints a line for each public of a module that is not local.
fn print_publics(
    text: &mut String,
    number: usize,
    module: &Checked,
    addresses: &Addresses,
) -> Result<(), AllocError>
    ensures { AddsText result (string_bytes text.old) (string_bytes text.new) (public_lines (number, (recs_of «module».now.bytes, addresses.now))) }
{
    for (_, rec) in module.undecoded() {
        print_record(text, number, addresses, &rec)?;
    }
    Ok(())
}

/// Prints a line for each external of a module.
fn print_externals(
    text: &mut String,
    number: usize,
    module: &Checked,
    addresses: &Addresses,
) -> Result<(), AllocError>
    ensures { AddsText result (string_bytes text.old) (string_bytes text.new) (external_lines (number, (recs_of «module».now.bytes, addresses.now))) }
{
    for before in 0..module.externals() {
        let index = before + 1;
        let Some(name) = module.external(index) else {
            unreachable!()
        };
        let address = addresses.external(index);
        print_external(text, number, index, address, name.0)?;
    }
    Ok(())
}

/// Prints the lines of one part of the map for a module.
fn print_module(
    text: &mut String,
    part: Part,
    number: usize,
    module: &Checked,
    addresses: &Addresses,
) -> Result<(), AllocError>
    ensures { AddsText result (string_bytes text.old) (string_bytes text.new) (part_lines part (number, (recs_of «module».now.bytes, addresses.now))) }
{
    match part {
        Part::Segments => print_segments(text, number, module, addresses),
        Part::Publics => print_publics(text, number, module, addresses),
        Part::Externals => print_externals(text, number, module, addresses),
    }
}

/// Prints a part of the map, module by module.
fn print_part(
    text: &mut String,
    part: Part,
    modules: &[Checked],
    addresses: &[Addresses],
) -> Result<(), AllocError>
    requires { length addresses.now ≡ length modules.now }
    ensures { AddsText result (string_bytes text.old) (string_bytes text.new) (flat_map (part_lines part) (enumerate_from 1 (zip (typed_modules modules.now) addresses.now))) }
{
    for (j, module) in modules.iter().enumerate() {
        print_module(text, part, j + 1, module, &addresses[j])?;
    }
    Ok(())
}

/// Returns the map of modules by their addresses, in the form of `map_text`.
///
/// # Errors
///
/// Out of memory.
pub(crate) fn addressed_text(
    alloc: Global,
    modules: &[Checked],
    addresses: &[Addresses],
) -> Result<String, AllocError>
    requires { length addresses.now ≡ length modules.now }
    ensures { IfOk result (λ text. string_bytes text ≡ map_text (zip (typed_modules modules.now) addresses.now)) }
{
    let mut text = String::new(alloc);
    print_part(&mut text, Part::Segments, modules, addresses)?;
    print_part(&mut text, Part::Publics, modules, addresses)?;
    print_part(&mut text, Part::Externals, modules, addresses)?;
    Ok(text)
}

/// Returns the addresses of modules at their placements.
fn addresses_of_all(alloc: Global, placements: &[Placement]) -> Result<Vec<Addresses>, AllocError>
    ensures addresses { IfOk result (λ v. v.items ≡ map addresses_of placements.now) }
    ensures each { IfOk result (λ v. length v.items ≡ length placements.now) }
{
    let mut addresses = Vec::new(alloc);
    for placement in placements {
        addresses.push(Addresses::of(alloc, placement)?)?;
    }
    Ok(addresses)
}

/// Returns the map of modules at their placements, with the addresses of their segments, publics and externals:
///
/// - `segment M I AAAAAAAA LLLLLLLL "NAME" "CLASS"` for each segment, module by module: the numbers of the module and of the segment in
/// it, from 1; its address and its length in bytes; its name and that of its class.
/// - `public M AAAAAAAA "NAME"` for each public that is not local, module by module, in its module's order: its address is the one that
/// externals of its name get: that of its segment or base frame plus its offset.
/// - `external M I AAAAAAAA "NAME"` for each external, module by module: its number in the module, from 1, and its address.
///
/// Numbers of modules, segments and externals are decimal; addresses and lengths have eight hexadecimal digits or more. Names are printed
/// as `omf list` prints them, with a dash for none. The address of a segment, an external, or a public of a segment is a dash if the
/// module's placement has no place for it.
///
/// # Errors
///
/// Out of memory.
pub fn map_text(
    alloc: Global,
    modules: &[Checked],
    placements: &[Placement],
) -> Result<String, AllocError>
    requires { length placements.now ≡ length modules.now }
    ensures { IfOk result (λ text. string_bytes text ≡ map_text (addressed (typed_modules modules.now) placements.now)) }
{
    let addresses = addresses_of_all(alloc, placements)?;
    addressed_text(alloc, modules, &addresses)
}

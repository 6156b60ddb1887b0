//! Empty segments, one for each class and name, in DOS order.

ghost use Rattle.std.specs.Prelude.{◌≡◌, ◌<◌, ◌^◌, ◌++◌, ℕ, List, IfOk, OnOk, filter_map, length, map};
ghost use Rattle.omf_check.specs.Module.{recs_of, typed_modules};
ghost use Rattle.omf_layout.specs.Several.Order.{runs};
ghost use Rattle.omf_layout.specs.Several.Portions.{name_at};
ghost use Rattle.omf_layout.specs.Own.Order.{IsNameTable, alignment_bits, bss_slots, combination_bits, data_slots, dgroup_classes, dos_slots, first_of, has_name, in_part, marker, module_at, part_of, slot, slots};

use crate::Alignment;
use crate::own::dgroup::{NameTable, dgroup_classes};
use crate::several::portion::{Combination, Portion};
use crate::several::runs::runs_of;
use omf_check::{Checked, is_code_class};
use omf_frame::Name;
use omf_names::NameKey;
use std::alloc::{AllocError, Global};

/// The parts of a program in DOS order.
#[derive(Clone, Copy, Debug, Drop, PartialEq, Eq)]
pub enum DosPart {
    /// A class that ends in `CODE`.
    Code,
    /// Any other class without a segment in DGROUP.
    Outside,
    /// `BEGDATA` in DGROUP.
    Begin,
    /// Any other class in DGROUP.
    Data,
    /// `BSS` in DGROUP.
    Bss,
    /// `STACK`.
    Stack,
}

/// An empty segment: its part, the names of its class and its own, its attribute byte, and whether a comment raises it to 4,096 bytes.
#[derive(Drop)]
pub(crate) struct Slot<'a> {
    pub part: DosPart,
    pub class: Name<'a>,
    pub name: Name<'a>,
    pub attribute: u8,
    pub raised: bool,
}

/// Whether a class has a segment in DGROUP.
fn is_inside<'a>(inside: &NameTable<'a>, class: &'a [u8]) -> bool
    ensures { (names : List (List ℕ)) → IsNameTable inside.now names → result ≡ has_name names class.now }
{
    inside.contains_key(&NameKey::of(class))
}

/// Returns the part in which a class is.
fn part_of<'a>(inside: &NameTable<'a>, class: &'a [u8]) -> DosPart
    ensures { (names : List (List ℕ)) → IsNameTable inside.now names → result ≡ part_of names class.now }
{
    if is_code_class(class) {
        DosPart::Code
    } else if class == b"STACK".as_slice() {
        DosPart::Stack
    } else if !is_inside(inside, class) {
        DosPart::Outside
    } else if class == b"BEGDATA".as_slice() {
        DosPart::Begin
    } else if class == b"BSS".as_slice() {
        DosPart::Bss
    } else {
        DosPart::Data
    }
}

/// Returns the bits of an alignment in an attribute byte.
fn alignment_bits(alignment: Alignment) -> u8
    ensures { result ≡ alignment_bits alignment }
{
    match alignment {
        Alignment::Byte => 0x20,
        Alignment::Word => 0x40,
        Alignment::Paragraph => 0x60,
        Alignment::Page => 0x80,
        Alignment::Dword => 0xA0,
        Alignment::Block => 0x80,
    }
}

/// Returns the bits of a combination in an attribute byte.
fn combination_bits(combination: Combination) -> u8
    ensures { result ≡ combination_bits combination }
{
    match combination {
        Combination::Joined => 0x08,
        Combination::Common => 0x18,
        Combination::Alone => 0,
    }
}

/// Returns the name of an index; the empty name for index 0.
pub(crate) fn named<'a>(module: &'a Checked, index: u16) -> Name<'a>
    ensures { result ≡ name_at (recs_of «module».entry.now.bytes) index }
{
    match module.name(index) {
        Some(name) => name,
        None => Name(b""),
    }
}

/// Returns the name of an index in one of several modules; the empty name for index 0.
fn name_in<'a>(modules: &'a [Checked], module: u32, index: u16) -> Name<'a>
    ensures { result ≡ name_at (module_at (typed_modules modules.entry.now) «module») index }
{
    match modules.get(module as usize) {
        Some(module) => named(module, index),
        None => Name(b""),
    }
}

/// Returns the empty segment for a segment of modules, whose classes in DGROUP are these.
fn slot_of<'a>(modules: &'a [Checked], inside: &NameTable<'a>, portion: &Portion) -> Slot<'a>
    requires { IsNameTable inside.now (dgroup_classes (typed_modules modules.now)) }
    ensures { result ≡ slot (typed_modules modules.entry.now) portion.now }
{
    let class = name_in(modules, portion.module, portion.segment.class);
    Slot {
        part: part_of(inside, class.0),
        class,
        name: name_in(modules, portion.module, portion.segment.name),
        attribute: alignment_bits(portion.alignment) + combination_bits(portion.combination),
        raised: portion.alignment.is_block(),
    }
}

/// Returns the first segment that is not absolute.
fn first_of(run: &[Portion]) -> Option<Portion>
    ensures { result ≡ first_of run.now }
{
    for portion in run {
        if portion.segment.absolute.is_none() {
            return Some(*portion);
        }
    }
    None
}

/// Returns the empty segments for segments of modules by class and name.
fn slots_in<'a>(
    alloc: Global,
    modules: &'a [Checked],
    inside: &NameTable<'a>,
    runs: &[Vec<Portion>],
) -> Result<Vec<Slot<'a>>, AllocError>
    requires { IsNameTable inside.now (dgroup_classes (typed_modules modules.now)) }
    ensures { IfOk result (λ v. v.items ≡ map (slot (typed_modules modules.entry.now)) (filter_map first_of (map (λ r. r.items) runs.now))) }
{
    let mut slots = Vec::new(alloc);
    for run in runs {
        if let Some(portion) = first_of(run) {
            slots.push(slot_of(modules, inside, &portion))?;
        }
    }
    Ok(slots)
}

/// Returns an empty segment for each class and name of the segments of modules, in the order in which they first appear.
pub(crate) fn slots_of<'a>(
    alloc: Global,
    modules: &'a [Checked],
) -> Result<Vec<Slot<'a>>, AllocError>
    requires { length modules.now < 2 ^ 32 }
    ensures { IfOk result (λ v. v.items ≡ slots (typed_modules modules.entry.now)) }
{
    let inside = dgroup_classes(alloc, modules)?;
    let runs = runs_of(alloc, modules)?;
    slots_in(alloc, modules, &inside, &runs)
}

/// Adds the segments of a part.
fn add_part<'a>(
    ordered: &mut Vec<Slot<'a>>,
    slots: &[Slot<'a>],
    part: DosPart,
) -> Result<(), AllocError>
    ensures { OnOk result (ordered.new.items ≡ ordered.old.items ++ in_part part slots.now) }
{
    for slot in slots {
        if part == slot.part {
            ordered.push(Slot {
                part,
                class: Name(slot.class.0),
                name: Name(slot.name.0),
                attribute: slot.attribute,
                raised: slot.raised,
            })?;
        }
    }
    Ok(())
}

/// Adds the segment at the end of a part of DGROUP, if there is such a group.
fn add_marker<'a>(
    ordered: &mut Vec<Slot<'a>>,
    grouped: bool,
    name: &'a [u8],
) -> Result<(), AllocError>
    requires { length name.now < 256 }
    ensures { OnOk result (ordered.new.items ≡ ordered.old.items ++ marker grouped name.entry.now) }
{
    if grouped {
        ordered.push(Slot {
            part: DosPart::Data,
            class: Name(name),
            name: Name(name),
            attribute: 0x28,
            raised: false,
        })?;
    }
    Ok(())
}

/// Adds the segments from the beginning of the program to the end of the data.
fn add_data<'a>(ordered: &mut Vec<Slot<'a>>, slots: &[Slot<'a>]) -> Result<(), AllocError>
    ensures { OnOk result (ordered.new.items ≡ ordered.old.items ++ data_slots slots.now) }
{
    add_part(ordered, slots, DosPart::Code)?;
    add_part(ordered, slots, DosPart::Outside)?;
    add_part(ordered, slots, DosPart::Begin)?;
    add_part(ordered, slots, DosPart::Data)
}

/// Segments in DOS order, and how many of them are before the end of the data of DGROUP, and before the end of its BSS.
#[derive(Drop)]
pub(crate) struct Ordered<'a> {
    pub slots: Vec<Slot<'a>>,
    pub data: usize,
    pub bss: usize,
}

/// Returns the segments in DOS order.
pub(crate) fn in_dos_order<'a>(
    alloc: Global,
    slots: &[Slot<'a>],
    grouped: bool,
) -> Result<Ordered<'a>, AllocError>
    ensures all { IfOk result (λ o. o.slots.items ≡ dos_slots grouped slots.now) }
    ensures data { IfOk result (λ o. o.data ≡ length (data_slots slots.now)) }
    ensures bss { IfOk result (λ o. o.bss ≡ length (bss_slots grouped slots.now)) }
{
    let mut ordered = Vec::new(alloc);
    add_data(&mut ordered, slots)?;
    let data = ordered.len();
    add_marker(&mut ordered, grouped, b"END OF DATA")?;
    add_part(&mut ordered, slots, DosPart::Bss)?;
    let bss = ordered.len();
    add_marker(&mut ordered, grouped, b"END OF BSS")?;
    add_part(&mut ordered, slots, DosPart::Stack)?;
    Ok(Ordered {
        slots: ordered,
        data,
        bss,
    })
}

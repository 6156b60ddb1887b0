//! The module that a linker puts before the modules of a program for an order of classes.

ghost use Rattle.std.specs.Prelude.{◌≡◌, ◌≤◌, ◌<◌, ◌^◌, ◌++◌, ◌∷◌, [], IfErr, IfOk, OnOk, codes, filter_map, find, length, map, option_map};
ghost use Rattle.omf_check.specs.Module.{typed_modules};
ghost use Rattle.omf_layout.specs.Own.Written.{end_record, header, written};
ghost use Rattle.omf_layout.specs.Several.Portions.{portions, with_names};
ghost use Rattle.omf_combining.specs.Classes.{IsClassOrderFault, bits_of, begins, class_order_records, leader, leader_of, leader_records, leaders, leaders_records, raise_records};

use crate::stack::name_in;
use omf_check::Checked;
use omf_frame::{Index, Name};
use omf_layout::Alignment;
use omf_layout::own::OrderFault;
use omf_layout::own::records::{Segment, put_end, put_header, put_name, put_raising, put_segment};
use omf_layout::several::{Classed, Combination, Portion, portions_of};
use std::alloc::{AllocError, Global};

/// The most classes: each has two names, and a module has at most 32,767 names.
const MOST: usize = 16_383;

/// An empty segment that leads a class: the names of the class and its own, its attribute byte, and whether a comment raises it to 4,096 bytes.
#[derive(Drop)]
pub(crate) struct EmptySegment<'a> {
    pub(crate) class: Name<'a>,
    pub(crate) name: Name<'a>,
    pub(crate) attribute: u8,
    pub(crate) raised: bool,
}

/// The attribute byte of an empty segment that is aligned and combines in these ways (TIS OMF 1.1, "SEGDEF", A and C fields). A comment raises one at 4,096
/// bytes.
fn bits_of(alignment: Alignment, combination: Combination) -> u8
    ensures { result ≡ bits_of alignment combination }
{
    let high = match alignment {
        Alignment::Byte => 0x20,
        Alignment::Word => 0x40,
        Alignment::Paragraph => 0x60,
        Alignment::Page | Alignment::Block => 0x80,
        Alignment::Dword => 0xA0,
    };
    match combination {
        Combination::Joined => high + 0x08,
        Combination::Common => high + 0x18,
        Combination::Alone => high,
    }
}

/// Whether a segment is of a class and not absolute.
fn begins(class: &[u8], segment: &Classed<'_>) -> bool
    ensures { result ≡ begins class.now (with_names segment.now) }
{
    segment.0 == class && segment.1.1.segment.absolute.is_none()
}

/// The first segment of a class that is not absolute, of these.
fn first_in(class: &[u8], segments: &[Classed<'_>]) -> Option<Portion>
    ensures { result ≡ option_map (λ x. x.1.1) (find (begins class.now) (map with_names segments.now)) }
{
    for segment in segments {
        if begins(class, segment) {
            return Some(segment.1.1);
        }
    }
    None
}

/// The empty segment that leads a class; none if the modules have no segment of it, as of a class of more than 255 bytes, which no name has.
fn leader<'a>(
    modules: &'a [Checked],
    segments: &[Classed<'_>],
    class: &'a [u8],
) -> Option<EmptySegment<'a>>
    requires { map with_names segments.now ≡ portions (typed_modules modules.now) }
    ensures { result ≡ leader (typed_modules modules.entry.now) class.entry.now }
{
    if class.len() > 255 {
        return None;
    }
    let first = first_in(class, segments)?;
    Some(EmptySegment {
        class: Name(class),
        name: name_in(modules, first.module, first.segment.name),
        attribute: bits_of(first.alignment, first.combination),
        raised: first.alignment.is_block(),
    })
}

/// The empty segments that lead classes.
fn leaders<'a>(
    alloc: Global,
    modules: &'a [Checked],
    classes: &[&'a [u8]],
) -> Result<Vec<EmptySegment<'a>>, AllocError>
    requires { length modules.now < 2 ^ 32 }
    ensures { IfOk result (λ v. v.items ≡ leaders (typed_modules modules.entry.now) (map (λ c. c.now) classes.entry.now)) }
{
    let segments = portions_of(alloc, modules)?;
    let mut found = Vec::new(alloc);
    for class in classes {
        if let Some(leader) = leader(modules, &segments, *class) {
            found.push(leader)?;
        }
    }
    Ok(found)
}

/// Appends an empty segment after `before` others, with its names.
fn put_leader(
    alloc: Global,
    out: &mut Vec<u8>,
    before: u16,
    leader: &EmptySegment<'_>,
) -> Result<(), AllocError>
    requires { before < 16383 }
    ensures { OnOk result (out.new.items ≡ out.old.items ++ written (leader_records before leader.now)) }
{
    put_name(alloc, out, &leader.class)?;
    put_name(alloc, out, &leader.name)?;
    let segment = Segment {
        attribute: leader.attribute,
        size: 0,
        name: Index(2 * before + 2),
        class: Index(2 * before + 1),
    };
    put_segment(alloc, out, &segment)
}

/// Appends empty segments with their names.
fn put_leaders(
    alloc: Global,
    out: &mut Vec<u8>,
    leaders: &[EmptySegment<'_>],
) -> Result<(), AllocError>
    requires { length leaders.now ≤ 16383 }
    ensures { OnOk result (out.new.items ≡ out.old.items ++ written (leaders_records 0 leaders.now)) }
{
    let mut before = 0;
    for leader in leaders {
        put_leader(alloc, out, before, leader)?;
        before += 1;
    }
    Ok(())
}

/// Appends the comments that raise empty segments.
fn put_raises(
    alloc: Global,
    out: &mut Vec<u8>,
    leaders: &[EmptySegment<'_>],
) -> Result<(), AllocError>
    requires { length leaders.now ≤ 16383 }
    ensures { OnOk result (out.new.items ≡ out.old.items ++ written (raise_records leaders.now)) }
{
    let mut index = 1;
    for leader in leaders {
        put_raising(alloc, out, leader.raised, Index(index))?;
        index += 1;
    }
    Ok(())
}

/// The bytes of the module of these empty segments.
fn leading_module(alloc: Global, leaders: &[EmptySegment<'_>]) -> Result<Vec<u8>, AllocError>
    requires { length leaders.now ≤ 16383 }
    ensures { IfOk result (λ v. v.items ≡ written (header (codes "order") ∷ (leaders_records 0 leaders.now ++ (raise_records leaders.now ++ end_record ∷ [])))) }
{
    let mut out = Vec::new(alloc);
    put_header(alloc, &mut out, &Name(b"order"))?;
    put_leaders(alloc, &mut out, leaders)?;
    put_raises(alloc, &mut out, leaders)?;
    put_end(&mut out)?;
    Ok(out)
}

/// The bytes of a module that, put before these modules, makes classes the first ones, in the order given. For each class of which they have a
/// segment that is not absolute, it has an empty segment with the names of the first such one, aligned and combined as it is: so it changes no address
/// but by the order. It has no data, and is not a main module; its name is `order`. SEGDEF has its 32-bit type, 99H.
///
/// # Errors
///
/// `TooMany` if it has more than 16,383 segments; `Memory` if memory runs out.
pub fn class_order_module(
    alloc: Global,
    modules: &[Checked],
    classes: &[&[u8]],
) -> Result<Vec<u8>, OrderFault>
    requires { length modules.now < 2 ^ 32 }
    ensures ok { IfOk result (λ v. v.items ≡ written (class_order_records (map (λ c. c.now) classes.now) (typed_modules modules.now))) }
    ensures fault { IfErr result (IsClassOrderFault (map (λ c. c.now) classes.now) (typed_modules modules.now)) }
{
    let leaders = leaders(alloc, modules, classes)?;
    if leaders.len() > MOST {
        return Err(OrderFault::TooMany);
    }
    Ok(leading_module(alloc, &leaders)?)
}

//! The module that gives a program DOS order.

ghost use Rattle.std.specs.Prelude.{◌≡◌, ◌≤◌, ◌<◌, ◌+◌, ◌^◌, ◌++◌, ◌∷◌, [], IfErr, IfOk, OnOk, codes, length};
ghost use Rattle.omf_check.specs.Module.{recs_of, typed_modules};
ghost use Rattle.omf_layout.specs.Own.Communals.{are_grouped};
ghost use Rattle.omf_layout.specs.Own.OrderFault.{IsOrderFault};
ghost use Rattle.omf_layout.specs.Own.Order.{ask_dos_order, asks_dos_order, bss_names, data_names, dgroup_records, end_publics, is_dosseg, missing, order_group, order_records, raise_records, slot_names, slot_records, slots, slots_records};
ghost use Rattle.omf_layout.specs.Own.Written.{end_record, header, written};

use crate::own::communals::are_grouped;
use crate::own::ends::missing;
use crate::own::records::{
    Public, Segment, put_empty_group, put_end, put_header, put_name, put_names, put_public,
    put_raising, put_segment,
};
use crate::own::slots::{Ordered, Slot, in_dos_order, slots_of};
use omf_check::{Checked, Undecoded};
use omf_frame::{Index, Name};
use std::alloc::{AllocError, AllocFailed, Global};

/// The most segments: each has two names, the group has one, and a module has at most 32,767 names.
const MOST: usize = 16_383;

/// The class of a comment that asks for DOS order.
const DOSSEG: u8 = 0x9E;

/// Why there is no module for DOS order.
#[derive(Clone, Copy, Debug, Drop, PartialEq, Eq)]
pub enum OrderFault {
    /// It has more than 16,383 segments.
    TooMany,
    /// Memory ran out.
    Memory,
}

impl From<AllocError> for OrderFault {
    ghost use Rattle.std.specs.Prelude.{◌≡◌};
    ghost use Rattle.omf_layout.specs.declared.own.order.OrderFault.TheVariants.{Memory};

    ghost from_gives = { λ _ e. e ≡ Memory };

    fn from(_error: AllocError) -> OrderFault {
        OrderFault::Memory
    }
}

impl<T: Drop> From<AllocFailed<T>> for OrderFault {
    ghost use Rattle.std.specs.Prelude.{◌≡◌};
    ghost use Rattle.omf_layout.specs.declared.own.order.OrderFault.TheVariants.{Memory};

    ghost from_gives = { λ _ e. e ≡ Memory };

    fn from(_error: AllocFailed<T>) -> OrderFault {
        OrderFault::Memory
    }
}

/// Returns whether a record is a comment that asks for DOS order. No other record is decoded.
fn is_dosseg(rec: &Undecoded<'_>) -> bool
    ensures { result ≡ is_dosseg rec.now.contents }
{
    match rec.as_comment() {
        Some(comment) => comment.class == DOSSEG,
        None => false,
    }
}

/// Returns whether a module asks for DOS order.
fn asks_dos_order(module: &Checked) -> bool
    ensures { result ≡ asks_dos_order (recs_of «module».now.bytes) }
{
    let mut found = false;
    for (_, rec) in module.undecoded() {
        found = found || is_dosseg(&rec);
    }
    found
}

/// Returns whether one of the modules asks for DOS order: by a comment of class 9EH (TIS OMF 1.1, "COMENT": DOSSEG).
pub fn ask_dos_order(modules: &[Checked]) -> bool
    ensures { result ≡ ask_dos_order (typed_modules modules.now) }
{
    let mut found = false;
    for module in modules {
        found = found || asks_dos_order(module);
    }
    found
}

/// Appends the names of the class of an empty segment and of itself.
fn put_slot_names(alloc: Global, out: &mut Vec<u8>, slot: &Slot<'_>) -> Result<(), AllocError>
    ensures { OnOk result (out.new.items ≡ out.old.items ++ written (slot_names slot.now)) }
{
    put_names(alloc, out, &[Name(slot.class.0), Name(slot.name.0)])
}

/// Appends an empty segment after `before` others, with its names.
fn put_slot(
    alloc: Global,
    out: &mut Vec<u8>,
    before: u16,
    slot: &Slot<'_>,
) -> Result<(), AllocError>
    requires { before < 16383 }
    ensures { OnOk result (out.new.items ≡ out.old.items ++ written (slot_records before slot.now)) }
{
    put_slot_names(alloc, out, slot)?;
    let segment = Segment {
        attribute: slot.attribute,
        size: 0,
        name: Index(2 * before + 2),
        class: Index(2 * before + 1),
    };
    put_segment(alloc, out, &segment)?;
    Ok(())
}

/// Appends empty segments with their names.
fn put_slots(alloc: Global, out: &mut Vec<u8>, slots: &[Slot<'_>]) -> Result<(), AllocError>
    requires { length slots.now ≤ 16383 }
    ensures { OnOk result (out.new.items ≡ out.old.items ++ written (slots_records 0 slots.now)) }
{
    let mut before = 0;
    for slot in slots {
        put_slot(alloc, out, before, slot)?;
        before += 1;
    }
    Ok(())
}

/// Appends the comments that raise empty segments.
fn put_raises(alloc: Global, out: &mut Vec<u8>, slots: &[Slot<'_>]) -> Result<(), AllocError>
    requires { length slots.now ≤ 16383 }
    ensures { OnOk result (out.new.items ≡ out.old.items ++ written (raise_records slots.now)) }
{
    let mut index = 1;
    for slot in slots {
        put_raising(alloc, out, slot.raised, Index(index))?;
        index += 1;
    }
    Ok(())
}

/// Appends the name of the group after this many segments, and the group.
fn put_dgroup(alloc: Global, out: &mut Vec<u8>, count: u16) -> Result<(), AllocError>
    requires { count ≤ 16383 }
    ensures { OnOk result (out.new.items ≡ out.old.items ++ written (dgroup_records count)) }
{
    put_name(alloc, out, &Name(b"DGROUP"))?;
    put_empty_group(alloc, out, Index(2 * count + 1))?;
    Ok(())
}

/// Appends the group, if there is one, after this many segments.
fn put_order_group(
    alloc: Global,
    out: &mut Vec<u8>,
    grouped: bool,
    count: u16,
) -> Result<(), AllocError>
    requires { count ≤ 16383 }
    ensures { OnOk result (out.new.items ≡ out.old.items ++ written (order_group grouped count)) }
{
    if grouped {
        return put_dgroup(alloc, out, count);
    }
    Ok(())
}

/// Appends publics at the beginning of a segment.
fn put_publics(
    alloc: Global,
    out: &mut Vec<u8>,
    segment: u16,
    names: &[Name<'_>],
) -> Result<(), AllocError>
    requires { segment < 32768 }
    ensures { OnOk result (out.new.items ≡ out.old.items ++ written (end_publics segment names.now)) }
{
    let mut body = Vec::new(alloc);
    for name in names {
        let public = Public {
            group: Index(1),
            segment: Index(segment),
            name: &Name(name.0),
            offset: 0,
        };
        put_public(&mut body, out, &public)?;
    }
    Ok(())
}

/// The names that the module defines: at the end of the data of DGROUP, and at the end of its BSS.
#[derive(Drop)]
struct Ends<'a> {
    data: Vec<Name<'a>>,
    bss: Vec<Name<'a>>,
}

/// Returns the bytes of the module.
fn module_of(
    alloc: Global,
    ordered: &Ordered<'_>,
    grouped: bool,
    ends: &Ends<'_>,
) -> Result<Vec<u8>, AllocError>
    requires few { length ordered.now.slots.items ≤ 16383 }
    requires data { ordered.now.data ≤ length ordered.now.slots.items }
    requires bss { ordered.now.bss ≤ length ordered.now.slots.items }
    ensures { IfOk result (λ v. v.items ≡ written (header (codes "order") ∷ (slots_records 0 ordered.now.slots.items ++ (raise_records ordered.now.slots.items ++ (order_group grouped (length ordered.now.slots.items) ++ (end_publics (ordered.now.data + 1) ends.now.data.items ++ (end_publics (ordered.now.bss + 1) ends.now.bss.items ++ end_record ∷ []))))))) }
{
    let mut out = Vec::new(alloc);
    put_header(alloc, &mut out, &Name(b"order"))?;
    put_slots(alloc, &mut out, &ordered.slots)?;
    put_raises(alloc, &mut out, &ordered.slots)?;
    put_order_group(alloc, &mut out, grouped, ordered.slots.len() as u16)?;
    put_publics(alloc, &mut out, ordered.data as u16 + 1, &ends.data)?;
    put_publics(alloc, &mut out, ordered.bss as u16 + 1, &ends.bss)?;
    put_end(&mut out)?;
    Ok(out)
}

/// Returns the names that the module defines.
fn ends_of(alloc: Global, modules: &[Checked]) -> Result<Ends<'static>, AllocError>
    ensures data { IfOk result (λ e. e.data.items ≡ missing (typed_modules modules.now) data_names) }
    ensures bss { IfOk result (λ e. e.bss.items ≡ missing (typed_modules modules.now) bss_names) }
{
    let data = missing(alloc, modules, &[Name(b"_edata"), Name(b"__edata")])?;
    let bss = missing(alloc, modules, &[Name(b"_end"), Name(b"__end")])?;
    Ok(Ends { data, bss })
}

/// Returns the bytes of a module that, put before these modules, gives the program DOS order: classes that end in `CODE`; those without a
/// segment in the group DGROUP; and those with one: `BEGDATA`, others, and `BSS`; and `STACK`. In each of these the order is that in which classes
/// and names first appear. The module has an empty segment for each class and name of the segments that are not absolute, aligned as the first of them and
/// combined as it is, so that it changes no address but by the order. It has no data, and is not a main module; its name is `order`.
///
/// If a module has a group DGROUP, it has two more segments, `END OF DATA` before `BSS` and `END OF BSS` after it, and publics there for the names
/// that a module asks for and none defines: `_edata` and `__edata`, `_end` and `__end`. SEGDEF and PUBDEF have their 32-bit types, 99H and 91H.
///
/// # Errors
///
/// `TooMany` if it has more than 16,383 segments; `Memory` if memory runs out.
pub fn order_module(alloc: Global, modules: &[Checked]) -> Result<Vec<u8>, OrderFault>
    requires { length modules.now < 2 ^ 32 }
    ensures ok { IfOk result (λ v. v.items ≡ written (order_records (typed_modules modules.now))) }
    ensures fault { IfErr result (IsOrderFault (typed_modules modules.now)) }
{
    let grouped = are_grouped(modules);
    let slots = slots_of(alloc, modules)?;
    let ordered = in_dos_order(alloc, &slots, grouped)?;
    if ordered.slots.len() > MOST {
        return Err(OrderFault::TooMany);
    }
    let ends = ends_of(alloc, modules)?;
    Ok(module_of(alloc, &ordered, grouped, &ends)?)
}

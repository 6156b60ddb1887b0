//! The publics of modules at their placements, in the orders in which a map lists them.

ghost use Rattle.std.specs.Prelude.{◌≡◌, ◌+◌, ◌++◌, IfOk, OnOk, false, length};
ghost use Rattle.omf_check.specs.Module.{recs_of};
ghost use Rattle.omf_placement.specs.Derive.{all_publics, placed_modules, public_at, publics, publics_at, record_publics};
ghost use Rattle.omf_listing.specs.Publics.{by_name, by_value};
ghost use Rattle.omf_listing.specs.Sorted.{AreSorted};

use omf_check::{Checked, Undecoded};
use omf_placement::{Frame, Placed, Placement, publics_of};
use omf_records::{At, Items, Public};
use std::alloc::{AllocError, Global};
use std::cmp::Ordering;
use std::marker::Model;

/// A public at its place.
#[derive(Drop)]
pub struct FarPublic<'a> {
    pub name: &'a [u8],
    /// Its address: that of its PUBDEF's segment or base frame, plus its offset.
    pub address: u64,
    /// The frame of its PUBDEF's group, or else of the PUBDEF's segment, or the base frame.
    pub frame: Frame,
}

impl<'a> Model for FarPublic<'a> {
    ghost use Rattle.omf_placement.specs.Derive.{PlacedPublic};

    ghost Value = { PlacedPublic };

    ghost view = { λ p. record { name = p.name.now; place = record { address = p.address; frame = p.frame } } };
}

/// The public of an entry of a PUBDEF with this base.
fn public_at<'a>(base: Placed, public: &At<Public<'a>>) -> FarPublic<'a>
    ensures { result ≡ public_at public.now.item.name (base.address + public.now.item.offset) base.frame }
{
    let item = &public.item;
    FarPublic {
        name: item.name.0,
        address: u64::from(base.address) + u64::from(item.offset),
        frame: base.frame,
    }
}

/// Appends the publics of a PUBDEF with this base.
fn push_items<'a>(
    all: &mut Vec<FarPublic<'a>>,
    base: Placed,
    publics: Items<Public<'a>>,
) -> Result<(), AllocError>
    ensures { OnOk result (all.new.items ≡ all.old.items ++ publics_at base publics.entry) }
{
    for public in publics {
        all.push(public_at(base, &public))?;
    }
    Ok(())
}

/// Appends the publics of a record that are not local. No other record is decoded.
fn push_record<'a>(
    all: &mut Vec<FarPublic<'a>>,
    placement: &Placement,
    rec: &Undecoded<'a>,
) -> Result<(), AllocError>
    ensures { OnOk result (all.new.items ≡ all.old.items ++ record_publics false placement.now rec.now.kind rec.now.contents) }
{
    match publics_of(false, rec, placement) {
        Some((base, publics)) => push_items(all, base, publics),
        None => Ok(()),
    }
}

/// Appends the publics of a module that are not local.
fn push_module<'a>(
    all: &mut Vec<FarPublic<'a>>,
    module: &'a Checked,
    placement: &Placement,
) -> Result<(), AllocError>
    ensures { OnOk result (all.new.items ≡ all.old.items ++ publics false (recs_of «module».entry.now.bytes, placement.now)) }
{
    for (_, rec) in module.undecoded() {
        push_record(all, placement, &rec)?;
    }
    Ok(())
}

/// The publics of modules that are not local, module by module.
fn all_publics<'a>(
    alloc: Global,
    modules: &'a [Checked],
    placements: &[Placement],
) -> Result<Vec<FarPublic<'a>>, AllocError>
    requires { length placements.now ≡ length modules.now }
    ensures { IfOk result (λ v. v.items ≡ all_publics (placed_modules modules.entry.now placements.now)) }
{
    let mut all = Vec::new(alloc);
    for (j, module) in modules.iter().enumerate() {
        push_module(&mut all, module, &placements[j])?;
    }
    Ok(all)
}

/// The order of two publics by their names.
fn by_name(first: &FarPublic<'_>, other: &FarPublic<'_>) -> Ordering
    ensures { result ≡ by_name first.now other.now }
{
    first.name.cmp(other.name)
}

/// The order of two publics by their addresses, and of those of one address by their names.
fn by_value(first: &FarPublic<'_>, other: &FarPublic<'_>) -> Ordering
    ensures { result ≡ by_value first.now other.now }
{
    first
        .address
        .cmp(&other.address)
        .then(by_name(first, other))
}

/// The publics of modules that are not local, by name: the first byte that differs decides, and a name comes before one that it begins. Those of one
/// name are in the order of the modules and their records.
///
/// # Errors
///
/// `AllocError` if memory runs out.
pub fn publics_by_name<'a>(
    alloc: Global,
    modules: &'a [Checked],
    placements: &[Placement],
) -> Result<Vec<FarPublic<'a>>, AllocError>
    requires { length placements.now ≡ length modules.now }
    ensures { IfOk result (λ v. AreSorted by_name (all_publics (placed_modules modules.entry.now placements.now)) v.items) }
{
    let mut publics = all_publics(alloc, modules, placements)?;
    publics.sort_by(|first, other| by_name(first, other))?;
    Ok(publics)
}

/// The publics of modules that are not local, by value: by their addresses, and those of one address by name.
///
/// # Errors
///
/// `AllocError` if memory runs out.
pub fn publics_by_value<'a>(
    alloc: Global,
    modules: &'a [Checked],
    placements: &[Placement],
) -> Result<Vec<FarPublic<'a>>, AllocError>
    requires { length placements.now ≡ length modules.now }
    ensures { IfOk result (λ v. AreSorted by_value (all_publics (placed_modules modules.entry.now placements.now)) v.items) }
{
    let mut publics = all_publics(alloc, modules, placements)?;
    publics.sort_by(|first, other| by_value(first, other))?;
    Ok(publics)
}

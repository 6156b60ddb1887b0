//! The names that modules define by PUBDEF and COMDEF records.

ghost use Rattle.std.specs.Prelude.{◌≡◌, ◌++◌, OnOk, IfOk, map};
ghost use Rattle.omf_check.specs.Module.{recs_of, typed_modules};
ghost use Rattle.omf_records.specs.Inner.Sizes.{size_seen};
ghost use Rattle.omf_layout.specs.Own.Claims.{all_claims, claimed, communal_claim, has_comdef, have_comdefs, is_comdef, kind_of, module_claims, public_claim, record_claims};
ghost use Rattle.omf_layout.specs.Several.Gathered.{named};

use crate::wants::room_of;
use omf_check::{Checked, Externals, Undecoded};
use omf_frame::Name;
use omf_records::{Communal, CommunalSize, Items, Public};
use std::alloc::{AllocError, Global};
use std::marker::Model;

/// As what a record defines a name.
#[derive(Clone, Copy, Debug, Drop, PartialEq, Eq)]
pub enum ClaimKind {
    /// A public.
    Public,
    /// A near communal.
    Near,
    /// A far communal.
    Far,
}

/// A name, as what a record defines it, and the size of a communal in bytes; 0 for a public.
#[derive(Drop)]
pub struct Claim<'a> {
    pub name: &'a [u8],
    pub kind: ClaimKind,
    pub size: u64,
}

impl<'a> Model for Claim<'a> {
    ghost use Rattle.std.specs.Prelude.{◌<◌, ◌^◌, length};
    ghost use Rattle.omf_layout.specs.Own.Claims.{Claim as ClaimModel};

    ghost Value = { ClaimModel };

    ghost view = { λ c. record { name = c.name.now; kind = c.kind; size = c.size } };

    ghost invariant = { λ c. (length c.name.now < 256) × (c.size < 2 ^ 64) };
}

/// A claim with its name.
pub type NamedClaim<'a> = (&'a [u8], Claim<'a>);

/// Returns a claim of a name.
fn claimed<'a>(name: Name<'a>, kind: ClaimKind, size: u64) -> NamedClaim<'a>
    ensures { named result ≡ claimed name.entry kind size }
{
    let Name(name) = name;
    (name, Claim { name, kind, size })
}

/// Returns whether a communal of this size is near or far.
fn kind_of(size: CommunalSize) -> ClaimKind
    ensures { result ≡ kind_of (size_seen size) }
{
    match size {
        CommunalSize::Near(_) => ClaimKind::Near,
        CommunalSize::Far { .. } => ClaimKind::Far,
    }
}

/// Adds the names of a PUBDEF.
fn add_publics<'a>(
    claims: &mut Vec<NamedClaim<'a>>,
    items: Items<Public<'a>>,
) -> Result<(), AllocError>
    ensures { OnOk result (map named claims.new.items ≡ map named claims.old.items ++ map public_claim items.entry) }
{
    for item in items {
        claims.push(claimed(item.item.name, ClaimKind::Public, 0))?;
    }
    Ok(())
}

/// Adds the names of a COMDEF.
fn add_communals<'a>(
    claims: &mut Vec<NamedClaim<'a>>,
    items: Items<Communal<'a>>,
) -> Result<(), AllocError>
    ensures { OnOk result (map named claims.new.items ≡ map named claims.old.items ++ map communal_claim items.entry) }
{
    for item in items {
        let Communal { name, size, .. } = item.item;
        claims.push(claimed(name, kind_of(size), room_of(size)))?;
    }
    Ok(())
}

/// Adds the names that a record defines for other modules. It is decoded only if it is a PUBDEF, or has externals or communals.
fn add_record<'a>(claims: &mut Vec<NamedClaim<'a>>, rec: &Undecoded<'a>) -> Result<(), AllocError>
    ensures { OnOk result (map named claims.new.items ≡ map named claims.old.items ++ record_claims rec.now.kind rec.now.contents) }
{
    if let Some(publics) = rec.as_publics(false) {
        return add_publics(claims, publics.items);
    }
    let Some(externals) = rec.as_externals() else {
        return Ok(());
    };
    match &externals {
        Externals::Communals {
            local: false,
            items,
        } => add_communals(claims, items.iter()),
        _ => Ok(()),
    }
}

/// Adds the names that a module defines for others.
fn add_module<'a>(claims: &mut Vec<NamedClaim<'a>>, module: &'a Checked) -> Result<(), AllocError>
    ensures { OnOk result (map named claims.new.items ≡ map named claims.old.items ++ module_claims (recs_of «module».entry.now.bytes)) }
{
    for (_, rec) in module.undecoded() {
        add_record(claims, &rec)?;
    }
    Ok(())
}

/// Returns the names that modules define by PUBDEF and COMDEF records, in order.
pub fn claims_of<'a>(
    alloc: Global,
    modules: &'a [Checked],
) -> Result<Vec<NamedClaim<'a>>, AllocError>
    ensures { IfOk result (λ v. map named v.items ≡ all_claims (typed_modules modules.entry.now)) }
{
    let mut claims = Vec::new(alloc);
    for module in modules {
        add_module(&mut claims, module)?;
    }
    Ok(claims)
}

/// Returns whether a record is a COMDEF. It is decoded only if it has externals or communals.
fn is_comdef(rec: &Undecoded<'_>) -> bool
    ensures { result ≡ is_comdef rec.now.kind rec.now.contents }
{
    matches!(
        rec.as_externals(),
        Some(Externals::Communals { local: false, .. })
    )
}

/// Returns whether a module has a COMDEF.
fn has_comdef(module: &Checked) -> bool
    ensures { result ≡ has_comdef (recs_of «module».now.bytes) }
{
    let mut found = false;
    for (_, rec) in module.undecoded() {
        found = found || is_comdef(&rec);
    }
    found
}

/// Returns whether one of the modules has a COMDEF.
pub(crate) fn have_comdefs(modules: &[Checked]) -> bool
    ensures { result ≡ have_comdefs (typed_modules modules.now) }
{
    let mut found = false;
    for module in modules {
        found = found || has_comdef(module);
    }
    found
}

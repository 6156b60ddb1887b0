//! The names that a linker defines where modules ask for them.

ghost use Rattle.std.specs.Prelude.{◌≡◌, IfOk, map};
ghost use Rattle.std.specs.List.{filter};
ghost use Rattle.omf_check.specs.Module.{recs_of, typed_modules};
ghost use Rattle.omf_layout.specs.Several.Gathered.{named};
ghost use Rattle.omf_layout.specs.Own.Claims.{all_claims};
ghost use Rattle.omf_layout.specs.Own.Communals.{are_grouped};
ghost use Rattle.omf_layout.specs.Own.Order.{ask_for, asks_for, has_claim, is_missing, missing};

use crate::own::claims::{NamedClaim, claims_of};
use crate::own::communals::are_grouped;
use omf_check::Checked;
use omf_frame::Name;
use std::alloc::{AllocError, Global};

/// Returns whether a module asks for a name.
fn asks_for(module: &Checked, name: &[u8]) -> bool
    ensures { result ≡ asks_for name.now (recs_of «module».now.bytes) }
{
    for before in 0..module.externals() {
        let Some(external) = module.external(before + 1) else {
            unreachable!()
        };
        if external.0 == name {
            return true;
        }
    }
    false
}

/// Returns whether one of the modules asks for a name.
fn ask_for(modules: &[Checked], name: &[u8]) -> bool
    ensures { result ≡ ask_for name.now (typed_modules modules.now) }
{
    let mut found = false;
    for module in modules {
        found = found || asks_for(module, name);
    }
    found
}

/// Returns whether a PUBDEF or a COMDEF defines a name.
fn has_claim(claims: &[NamedClaim<'_>], name: &[u8]) -> bool
    ensures { result ≡ has_claim (map named claims.now) name.now }
{
    let mut found = false;
    for (own, _) in claims {
        found = found || *own == name;
    }
    found
}

/// Returns whether modules ask for a name that they do not define.
fn is_missing(modules: &[Checked], claims: &[NamedClaim<'_>], name: &[u8]) -> bool
    requires { map named claims.now ≡ all_claims (typed_modules modules.now) }
    ensures { result ≡ is_missing (typed_modules modules.now) name.now }
{
    ask_for(modules, name) && !has_claim(claims, name)
}

/// Returns those of the names that modules ask for and do not define.
fn missing_of<'a>(
    alloc: Global,
    modules: &[Checked],
    claims: &[NamedClaim<'_>],
    names: &[Name<'a>],
) -> Result<Vec<Name<'a>>, AllocError>
    requires { map named claims.now ≡ all_claims (typed_modules modules.now) }
    ensures { IfOk result (λ v. v.items ≡ filter (is_missing (typed_modules modules.now)) names.now) }
{
    let mut missing = Vec::new(alloc);
    for name in names {
        if is_missing(modules, claims, name.0) {
            missing.push(Name(name.0))?;
        }
    }
    Ok(missing)
}

/// Returns those of the names that modules ask for and do not define; none if no module has a group DGROUP.
pub(crate) fn missing<'a>(
    alloc: Global,
    modules: &[Checked],
    names: &[Name<'a>],
) -> Result<Vec<Name<'a>>, AllocError>
    ensures { IfOk result (λ v. v.items ≡ missing (typed_modules modules.now) names.now) }
{
    if !are_grouped(modules) {
        return Ok(Vec::new(alloc));
    }
    let claims = claims_of(alloc, modules)?;
    missing_of(alloc, modules, &claims, names)
}

//! The names of the linker for which modules ask by aliases.

ghost use Rattle.std.specs.Prelude.{◌≡◌, IfOk, List, flat_map};
ghost use Rattle.std.specs.List.{filter};
ghost use Rattle.omf_check.specs.Module.{typed_modules};
ghost use Rattle.omf_records.specs.Values.{Rec as Typed};
ghost use Rattle.omf_layout.specs.Own.Written.{written};
ghost use Rattle.omf_aliases.specs.Aliases.{IsAskerOf, asked_by_aliases, asking_records, defaults, is_default};
ghost use Rattle.omf_aliases.specs.Inner.Aliases.{AreAliases};

use crate::defaults::{ExternalDefault, defaults_of};
use crate::ends::Aliases;
use crate::profile::any_profile;
use crate::records::put_externals;
use omf_check::{CheckFault, Checked, check};
use omf_externals::move_all;
use omf_frame::{Bytes, Name};
use omf_layout::own::records::{put_end, put_header};
use std::alloc::{AllocError, Global};

/// The defaults of modules, one module after another.
fn all_defaults<'a>(
    alloc: Global,
    aliases: &Aliases<'a>,
    modules: &'a [Checked],
) -> Result<Vec<ExternalDefault<'a>>, AllocError>
    ensures { (ms : List (List Typed)) → AreAliases aliases.now ms → IfOk result (λ v. v.items ≡ flat_map (defaults ms) (typed_modules modules.entry.now)) }
{
    let mut all = Vec::new(alloc);
    for module in modules {
        move_all(defaults_of(alloc, aliases, module)?, &mut all)?;
    }
    Ok(all)
}

/// Whether a name is one of defaults.
fn is_default(defaults: &[ExternalDefault<'_>], name: &[u8]) -> bool
    ensures { result ≡ is_default defaults.now name.now }
{
    let mut found = false;
    for default in defaults {
        found = found || default.name.0 == name;
    }
    found
}

/// Those of names that are one of defaults.
fn among<'a>(
    alloc: Global,
    defaults: &[ExternalDefault<'_>],
    names: &[Name<'a>],
) -> Result<Vec<Name<'a>>, AllocError>
    ensures { IfOk result (λ v. v.items ≡ filter (is_default defaults.now) names.now) }
{
    let mut found = Vec::new(alloc);
    for name in names {
        if is_default(defaults, name.0) {
            found.push(Name(name.0))?;
        }
    }
    Ok(found)
}

/// The names of the linker for which modules ask by aliases.
fn asked_by_aliases(alloc: Global, modules: &[Checked]) -> Result<Vec<Name<'static>>, AllocError>
    ensures { IfOk result (λ v. v.items ≡ asked_by_aliases (typed_modules modules.now)) }
{
    let aliases = Aliases::of(alloc, modules)?;
    let defaults = all_defaults(alloc, &aliases, modules)?;
    let names = [
        Name(b"_edata"),
        Name(b"__edata"),
        Name(b"_end"),
        Name(b"__end"),
    ];
    among(alloc, &defaults, &names)
}

/// The bytes of a module that asks for names.
fn asking_bytes(alloc: Global, names: &[Name<'_>]) -> Result<Vec<u8>, AllocError>
    ensures { IfOk result (λ v. v.items ≡ written (asking_records names.now)) }
{
    let mut out = Vec::new(alloc);
    put_header(alloc, &mut out, &Name(b"aliases"))?;
    put_externals(alloc, &mut out, names)?;
    put_end(&mut out)?;
    Ok(out)
}

/// The checked module that asks for the names of the linker (`_edata`, `__edata`, `_end`, `__end`) at which aliases of the modules end; `None` if
/// there are none. The module for DOS order is made of the modules with it.
///
/// # Errors
///
/// `AllocError` if memory runs out.
pub fn asker_of(alloc: Global, modules: &[Checked]) -> Result<Option<Checked>, AllocError>
    ensures { IfOk result (IsAskerOf modules.now) }
{
    let names = asked_by_aliases(alloc, modules)?;
    if names.is_empty() {
        return Ok(None);
    }
    let bytes = asking_bytes(alloc, &names)?;
    match check(alloc, &mut Bytes::new(&bytes), any_profile()) {
        Ok(module) => Ok(Some(module)),
        Err(CheckFault::Refused { .. } | CheckFault::Memory | CheckFault::Read) => Err(AllocError),
    }
}

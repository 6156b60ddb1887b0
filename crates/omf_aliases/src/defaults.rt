//! The defaults that aliases give to the externals of a module.

ghost use Rattle.std.specs.Prelude.{◌≡◌, ◌≤◌, ◌++◌, IfOk, List, OnOk, length};
ghost use Rattle.omf_check.specs.Module.{recs_of};
ghost use Rattle.omf_check.specs.Tables.{externals};
ghost use Rattle.omf_placement.specs.Weak.{weak_pairs};
ghost use Rattle.omf_records.specs.Values.{Rec as Typed};
ghost use Rattle.omf_aliases.specs.Aliases.{default_by, defaults};
ghost use Rattle.omf_aliases.specs.Inner.Aliases.{AreAliases, IsNextDefault, IsOwnTable};

use crate::ends::Aliases;
use crate::own::OwnDefaults;
use omf_check::Checked;
use omf_externals::{Spot, external_at};
use omf_frame::{Index, Name};
use std::alloc::{AllocError, Global};
use std::marker::Model;

/// An external, by its index, and the name of its default.
#[derive(Drop)]
pub(crate) struct ExternalDefault<'a> {
    pub(crate) external: Index,
    pub(crate) name: Name<'a>,
}

impl<'a> Model for ExternalDefault<'a> {
    ghost use Rattle.omf_aliases.specs.Aliases.{Default};

    ghost Value = { Default };

    ghost view = { λ d. record { external = d.external; name = d.name } };
}

/// Appends the default of an external that is followed by a name, if it has one.
fn put_default<'a>(
    defaults: &mut Vec<ExternalDefault<'a>>,
    aliases: &Aliases<'a>,
    external: Index,
    name: &'a [u8],
    is_local: bool,
) -> Result<(), AllocError>
    ensures { (ms : List (List Typed)) → AreAliases aliases.now ms → OnOk result (defaults.new.items ≡ defaults.old.items ++ default_by ms external (name.now, is_local)) }
{
    if is_local {
        return Ok(());
    }
    if let Some(name) = aliases.end_of(name) {
        defaults.push(ExternalDefault { external, name })?;
    }
    Ok(())
}

/// Appends the default of the external with an index, from 1, if it has one.
fn put_external<'a>(
    defaults: &mut Vec<ExternalDefault<'a>>,
    aliases: &Aliases<'a>,
    own: &OwnDefaults,
    module: &'a Checked,
    external: u16,
) -> Result<(), AllocError>
    requires low { 1 ≤ external }
    requires within { external ≤ length (externals (recs_of «module».now.bytes)) }
    requires small { external ≤ 32767 }
    ensures { (ms : List (List Typed)) → AreAliases aliases.now ms → IsOwnTable own.now.by_external (weak_pairs (recs_of «module».now.bytes)) → OnOk result (IsNextDefault ms (recs_of «module».now.bytes) external defaults.old.items defaults.new.items) }
{
    let spot = Spot {
        module: 0,
        external,
    };
    let named = own.followed(module, external_at(module, spot));
    put_default(defaults, aliases, Index(external), named.name, named.local)
}

/// The defaults of a module, in the order of its externals. Without an alias there are none.
///
/// # Errors
///
/// `AllocError` if memory runs out.
pub(crate) fn defaults_of<'a>(
    alloc: Global,
    aliases: &Aliases<'a>,
    module: &'a Checked,
) -> Result<Vec<ExternalDefault<'a>>, AllocError>
    ensures { (ms : List (List Typed)) → AreAliases aliases.now ms → IfOk result (λ v. v.items ≡ defaults ms (recs_of «module».entry.now.bytes)) }
{
    let mut defaults = Vec::new(alloc);
    if aliases.is_empty() {
        return Ok(defaults);
    }
    let own = OwnDefaults::of(alloc, module)?;
    for i in 1..module.externals() + 1 {
        put_external(&mut defaults, aliases, &own, module, i)?;
    }
    Ok(defaults)
}

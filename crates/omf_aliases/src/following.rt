//! Modules with the defaults of their externals.

ghost use Rattle.std.specs.Prelude.{◌≡◌, ◌+◌, ◌≤◌, IfErr, IfOk, List, length, unwrap_or};
ghost use Rattle.std.specs.List.{AllZip};
ghost use Rattle.omf_check.specs.Module.{Module, recs_of, typed_modules};
ghost use Rattle.omf_check.specs.Tables.{externals};
ghost use Rattle.omf_records.specs.Values.{Rec as Typed};
ghost use Rattle.omf_aliases.specs.Aliases.{AreBytesWith, AreFollowed, Default, IsFollowingFault, IsModuleFault};
ghost use Rattle.omf_aliases.specs.Inner.Aliases.{AreAliases, IsMadeWith, IsReplacement, replaced};

use crate::defaults::{ExternalDefault, defaults_of};
use crate::ends::Aliases;
use crate::fault::FollowingFault;
use crate::profile::any_profile;
use crate::records::{last_at, put_defaults};
use omf_check::{CheckFault, Checked, check};
use omf_frame::Bytes;
use std::alloc::{AllocError, Global};

/// The most externals of a module.
const MOST: usize = 32_767;

/// The bytes of a module with the records of defaults before its last record. They must be few enough.
fn bytes_with(
    alloc: Global,
    module: &Checked,
    defaults: &[ExternalDefault<'_>],
) -> Result<Vec<u8>, AllocError>
    requires { length (externals (recs_of «module».now.bytes)) + length defaults.now ≤ 32767 }
    ensures { IfOk result (λ v. AreBytesWith «module».now defaults.now v.items) }
{
    let Some(at) = last_at(module) else {
        return Err(AllocError);
    };
    let (front, back) = module.bytes().split_at(at);
    let mut bytes = front.to_vec(alloc)?;
    put_defaults(alloc, &mut bytes, module.externals(), defaults)?;
    bytes.extend_from_slice(back)?;
    Ok(bytes)
}

/// The checked module of these bytes.
fn checked(alloc: Global, bytes: &[u8]) -> Result<Checked, FollowingFault>
    ensures { (m : Module) (ds : List Default) → AreBytesWith m ds bytes.now → IsMadeWith m ds result }
{
    match check(alloc, &mut Bytes::new(bytes), any_profile()) {
        Ok(module) => Ok(module),
        Err(CheckFault::Refused { reason, place }) => {
            Err(FollowingFault::Refused { reason, place })
        }
        Err(CheckFault::Memory | CheckFault::Read) => Err(FollowingFault::Memory),
    }
}

/// A module with defaults.
fn with_defaults(
    alloc: Global,
    module: &Checked,
    defaults: &[ExternalDefault<'_>],
) -> Result<Checked, FollowingFault>
    ensures { IsMadeWith «module».now defaults.now result }
{
    if usize::from(module.externals()) + defaults.len() > MOST {
        return Err(FollowingFault::TooMany);
    }
    let bytes = bytes_with(alloc, module, defaults)?;
    checked(alloc, &bytes)
}

/// What takes the place of a module, if it has defaults.
fn replacement<'a>(
    alloc: Global,
    aliases: &Aliases<'a>,
    module: &'a Checked,
) -> Result<Option<Checked>, FollowingFault>
    ensures made { (ms : List (List Typed)) → AreAliases aliases.now ms → IfOk result (IsReplacement ms «module».now) }
    ensures fault { (ms : List (List Typed)) → AreAliases aliases.now ms → IfErr result (λ f. IsModuleFault ms f «module».now) }
{
    let defaults = defaults_of(alloc, aliases, module)?;
    if defaults.is_empty() {
        return Ok(None);
    }
    let with = with_defaults(alloc, module, &defaults)?;
    Ok(Some(with))
}

/// What takes the place of each module.
fn replacements(alloc: Global, modules: &[Checked]) -> Result<Vec<Option<Checked>>, FollowingFault>
    ensures made { IfOk result (λ v. AllZip (IsReplacement (typed_modules modules.now)) modules.now v.items) }
    ensures fault { IfErr result (IsFollowingFault modules.now) }
{
    let aliases = Aliases::of(alloc, modules)?;
    let mut all = Vec::new(alloc);
    for module in modules {
        all.push(replacement(alloc, &aliases, module)?)?;
    }
    Ok(all)
}

/// A module, or what takes its place.
fn chosen(module: Checked, replacement: Option<Checked>) -> Checked
    ensures { result ≡ unwrap_or replacement «module» }
{
    match replacement {
        Some(other) => other,
        None => module,
    }
}

/// Modules, each with what takes its place.
fn replaced(
    alloc: Global,
    modules: Vec<Checked>,
    replacements: Vec<Option<Checked>>,
) -> Result<Vec<Checked>, AllocError>
    requires { length replacements.items ≡ length modules.items }
    ensures { IfOk result (λ v. v.items ≡ replaced modules.items replacements.items) }
{
    let mut all = Vec::with_capacity(alloc, modules.len())?;
    let mut left = replacements.into_iter();
    for module in modules {
        let Some(replacement) = left.next() else {
            unreachable!()
        };
        all.push(chosen(module, replacement))?;
    }
    Ok(all)
}

/// Modules with the defaults of their externals: each external that no public of theirs has, and whose name is an alias of theirs, gets as its
/// default the name at the end of the aliases, so that it is a weak external. Each such module has two records more before its MODEND for each
/// (an EXTDEF, and a COMENT of class A8H); it is checked again. A comment of its own that has the external as weak comes before.
///
/// Of several substitutes of one name the first counts. At most 64 aliases are followed from a name: in a circle the external has no default.
///
/// # Errors
///
/// `TooMany` if a module would have more than 32,767 externals; `Refused` if it is refused. `Memory` if memory runs out.
pub fn followed(alloc: Global, modules: Vec<Checked>) -> Result<Vec<Checked>, FollowingFault>
    ensures followed { IfOk result (λ v. AreFollowed modules.items v.items) }
    ensures fault { IfErr result (IsFollowingFault modules.items) }
{
    let replacements = replacements(alloc, &modules)?;
    Ok(replaced(alloc, modules, replacements)?)
}

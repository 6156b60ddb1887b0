//! The names of a module by which modules find each other.

ghost use Rattle.std.specs.Prelude.{◌≡◌, ◌++◌, ◌∷◌, ◌||◌, [], OnOk, false, map, unwrap_or};
ghost use Rattle.omf_check.specs.Module.{recs_of};
ghost use Rattle.omf_check.specs.Tables.{entry, locals};
ghost use Rattle.omf_library.specs.LibraryMembers.{names_kept};
ghost use Rattle.omf_library.specs.Needed.{linkage, member_linkage, name_unless, needed_names, public_names, public_names_of};
ghost use Rattle.omf_library.specs.Inner.Names.{names_seen};
ghost use Rattle.omf_library.specs.Inner.Weak.{is_marked};

use crate::aliases::{AliasPair, alias_pairs};
use crate::judged::LibraryMember;
use crate::needed::weak::WeakExternals;
use omf_check::{Checked, Undecoded};
use omf_records::{Items, Public};
use std::alloc::{AllocError, Global};

/// Adds the names of publics.
fn push_publics<'a>(names: &mut Vec<&'a [u8]>, items: Items<Public<'a>>) -> Result<(), AllocError>
    ensures { OnOk result (names_seen names.new.items ≡ names_seen names.old.items ++ map (λ q. q.item.name) items.entry) }
{
    for public in items {
        names.push(public.item.name.0)?;
    }
    Ok(())
}

/// Adds the names of a record's publics, unless they are local. No record but a PUBDEF is decoded.
fn push_publics_of<'a>(names: &mut Vec<&'a [u8]>, rec: &Undecoded<'a>) -> Result<(), AllocError>
    ensures { OnOk result (names_seen names.new.items ≡ names_seen names.old.items ++ public_names_of rec.now.kind rec.now.contents) }
{
    match rec.as_publics(false) {
        Some(publics) => push_publics(names, publics.items),
        None => Ok(()),
    }
}

/// Puts the names of a module's publics in the place of others, those of local ones left out.
fn put_public_names<'a>(names: &mut Vec<&'a [u8]>, module: &'a Checked) -> Result<(), AllocError>
    ensures { OnOk result (names_seen names.new.items ≡ public_names (recs_of «module».entry.now.bytes)) }
{
    names.clear();
    for (_, rec) in module.undecoded() {
        push_publics_of(names, &rec)?;
    }
    Ok(())
}

/// Adds an alias.
fn push_alias<'a>(names: &mut Vec<&'a [u8]>, pair: &AliasPair<'a>) -> Result<(), AllocError>
    ensures { OnOk result (names_seen names.new.items ≡ names_seen names.old.items ++ pair.now.alias ∷ []) }
{
    names.push(pair.alias.0)?;
    Ok(())
}

/// Adds aliases.
fn push_aliases<'a>(names: &mut Vec<&'a [u8]>, pairs: &[AliasPair<'a>]) -> Result<(), AllocError>
    ensures { OnOk result (names_seen names.new.items ≡ names_seen names.old.items ++ map (λ p. p.alias) pairs.now) }
{
    for pair in pairs {
        push_alias(names, pair)?;
    }
    Ok(())
}

/// Puts the names that a module defines in the place of others: those of its publics, local ones left out, and its aliases.
pub(crate) fn take_public_names<'a>(
    alloc: Global,
    names: &mut Vec<&'a [u8]>,
    module: &'a Checked,
) -> Result<(), AllocError>
    ensures { OnOk result (names_seen names.new.items ≡ (linkage «module».entry.now).publics) }
{
    put_public_names(names, module)?;
    let pairs = alias_pairs(alloc, module)?;
    push_aliases(names, &pairs)
}

/// Whether an external is local or weak.
fn is_left_out(weak: &WeakExternals, module: &Checked, i: u16) -> bool
    ensures { result ≡ (unwrap_or (entry (locals (recs_of «module».now.bytes)) i) false || is_marked weak.now.marks.items i) }
{
    module.local(i).unwrap_or(false) || weak.has(i)
}

/// Adds a name, unless it is left out.
fn push_unless<'a>(
    names: &mut Vec<&'a [u8]>,
    name: &'a [u8],
    left_out: bool,
) -> Result<(), AllocError>
    ensures { OnOk result (names_seen names.new.items ≡ names_seen names.old.items ++ name_unless left_out name.entry.now) }
{
    if !left_out {
        names.push(name)?;
    }
    Ok(())
}

/// Puts the names of a module's externals in the place of others, local and weak ones left out.
fn put_needed_names<'a>(
    alloc: Global,
    names: &mut Vec<&'a [u8]>,
    module: &'a Checked,
) -> Result<(), AllocError>
    ensures { OnOk result (names_seen names.new.items ≡ needed_names (recs_of «module».entry.now.bytes)) }
{
    names.clear();
    let weak = WeakExternals::of(alloc, module)?;
    for i in 1..module.externals() + 1 {
        match module.external(i) {
            Some(name) => push_unless(names, name.0, is_left_out(&weak, module, i))?,
            None => unreachable!(),
        }
    }
    Ok(())
}

/// Adds the substitute of an alias.
fn push_substitute<'a>(names: &mut Vec<&'a [u8]>, pair: &AliasPair<'a>) -> Result<(), AllocError>
    ensures { OnOk result (names_seen names.new.items ≡ names_seen names.old.items ++ pair.now.substitute ∷ []) }
{
    names.push(pair.substitute.0)?;
    Ok(())
}

/// Adds the substitutes of aliases.
fn push_substitutes<'a>(
    names: &mut Vec<&'a [u8]>,
    pairs: &[AliasPair<'a>],
) -> Result<(), AllocError>
    ensures { OnOk result (names_seen names.new.items ≡ names_seen names.old.items ++ map (λ p. p.substitute) pairs.now) }
{
    for pair in pairs {
        push_substitute(names, pair)?;
    }
    Ok(())
}

/// Puts the names that a module needs in the place of others: those of its externals, local and weak ones left out, and the substitutes of its
/// aliases.
pub(crate) fn take_needed_names<'a>(
    alloc: Global,
    names: &mut Vec<&'a [u8]>,
    module: &'a Checked,
) -> Result<(), AllocError>
    ensures { OnOk result (names_seen names.new.items ≡ (linkage «module».entry.now).externals) }
{
    put_needed_names(alloc, names, module)?;
    let pairs = alias_pairs(alloc, module)?;
    push_substitutes(names, &pairs)
}

/// Adds names that are kept.
fn push_kept<'a>(names: &mut Vec<&'a [u8]>, kept: &'a [Vec<u8>]) -> Result<(), AllocError>
    ensures { OnOk result (names_seen names.new.items ≡ names_seen names.old.items ++ names_kept kept.entry.now) }
{
    for name in kept {
        names.push(name.as_slice())?;
    }
    Ok(())
}

/// Puts the names that a member defines in the place of others. A member that is refused has no aliases.
pub(crate) fn take_publics<'a>(
    alloc: Global,
    names: &mut Vec<&'a [u8]>,
    member: &'a LibraryMember,
) -> Result<(), AllocError>
    ensures { OnOk result (names_seen names.new.items ≡ (member_linkage member.entry.now).publics) }
{
    match member {
        LibraryMember::Module(module) => take_public_names(alloc, names, module),
        LibraryMember::Refused(refused) => {
            names.clear();
            push_kept(names, refused.publics.as_slice())
        }
    }
}

/// Puts the names that a member needs in the place of others. A member that is refused needs none.
pub(crate) fn take_externals<'a>(
    alloc: Global,
    names: &mut Vec<&'a [u8]>,
    member: &'a LibraryMember,
) -> Result<(), AllocError>
    ensures { OnOk result (names_seen names.new.items ≡ (member_linkage member.entry.now).externals) }
{
    match member {
        LibraryMember::Module(module) => take_needed_names(alloc, names, module),
        LibraryMember::Refused(_) => {
            names.clear();
            Ok(())
        }
    }
}

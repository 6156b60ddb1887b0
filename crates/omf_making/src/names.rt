//! The names that a module defines, and those of them that the dictionary of its library has.

ghost use Rattle.std.specs.Prelude.{◌≡◌, ◌++◌, ◌∷◌, [], IfOk, OnOk, is_some, map, option_to_list, ◌==◌, if◌then◌else◌};
ghost use Rattle.omf_records.specs.Inner.Seen.{rec_seen};
ghost use Rattle.omf_check.specs.Module.{recs_of};
ghost use Rattle.omf_lowering.specs.Marks.{selection_by};
ghost use Rattle.omf_library.specs.Imports.{import_class, imported};
ghost use Rattle.omf_making.specs.Names.{alias_named, defined_as, defined_by, defined_names, entered, has_entry, is_strong, kind_by, name_seen, names_seen, recorded_names};
ghost use Rattle.omf_making.specs.declared.names.Kind.TheVariants as shown;

use omf_check::{Checked, Undecoded};
use omf_library::{AliasPair, alias_pairs, imported};
use omf_lowering::selection_of;
use omf_records::{Communal, Items, Public, Rec};
use std::alloc::{AllocError, Global};

/// How a module defines a name.
#[derive(Clone, Copy, Debug, PartialEq, Eq)]
pub enum Kind {
    /// By a PUBDEF.
    Public,
    /// By an import definition (IMPDEF), a comment.
    Import,
    /// By a COMDAT that was lowered. Other modules may have one of the name, or a public, which then counts.
    Comdat,
    /// By a COMDEF. The dictionary of a library that is made has none of these.
    Communal,
    /// By an ALIAS, for a substitute. Other modules may have one of the name, or a public, which then counts.
    Alias,
}

/// A name that a module defines.
#[derive(Drop)]
pub struct Defined {
    pub kind: Kind,
    pub name: Vec<u8>,
}

/// Whether a name counts before COMDATs, communals and aliases of it.
pub(crate) fn is_strong(kind: Kind) -> bool
    ensures { result ≡ is_strong kind }
{
    match kind {
        Kind::Public | Kind::Import => true,
        Kind::Comdat | Kind::Communal | Kind::Alias => false,
    }
}

/// How a record defines a name that is defined so by itself. `is_marked`: whether the next record is the mark of a COMDAT.
fn kind_by(is_marked: bool, kind: Kind) -> Kind
    ensures { result ≡ kind_by is_marked kind }
{
    match kind {
        Kind::Public => {
            if is_marked {
                Kind::Comdat
            } else {
                Kind::Public
            }
        }
        Kind::Import => Kind::Import,
        Kind::Comdat => Kind::Comdat,
        Kind::Communal => Kind::Communal,
        Kind::Alias => Kind::Alias,
    }
}

/// The class of comments that can be import definitions.
const IMPORT_CLASS: u8 = 0xA0;

/// Appends a name.
fn push_name(
    alloc: Global,
    names: &mut Vec<Defined>,
    kind: Kind,
    name: &[u8],
) -> Result<(), AllocError>
    ensures { OnOk result (names_seen names.new.items ≡ names_seen names.old.items ++ record { kind = kind; name = name.now } ∷ []) }
{
    let name = Vec::from_slice(alloc, name)?;
    names.push(Defined { kind, name })?;
    Ok(())
}

/// Appends the names of a PUBDEF.
fn push_publics(
    alloc: Global,
    names: &mut Vec<Defined>,
    publics: &Items<Public<'_>>,
) -> Result<(), AllocError>
    ensures { OnOk result (names_seen names.new.items ≡ names_seen names.old.items ++ map (λ q. record { kind = shown.Public; name = q.item.name }) publics.now) }
{
    for public in publics.iter() {
        push_name(alloc, names, Kind::Public, public.item.name.0)?;
    }
    Ok(())
}

/// Appends the names of a COMDEF.
fn push_communals(
    alloc: Global,
    names: &mut Vec<Defined>,
    communals: &Items<Communal<'_>>,
) -> Result<(), AllocError>
    ensures { OnOk result (names_seen names.new.items ≡ names_seen names.old.items ++ map (λ c. record { kind = shown.Communal; name = c.item.name }) communals.now) }
{
    for communal in communals.iter() {
        push_name(alloc, names, Kind::Communal, communal.item.name.0)?;
    }
    Ok(())
}

/// Appends the name of a comment, if it is an import definition.
fn push_import(
    alloc: Global,
    names: &mut Vec<Defined>,
    class: u8,
    text: &[u8],
) -> Result<(), AllocError>
    ensures { OnOk result (names_seen names.new.items ≡ names_seen names.old.items ++ (if class == import_class then map (λ n. record { kind = shown.Import; name = n }) (option_to_list (imported text.now)) else [])) }
{
    if class == IMPORT_CLASS
        && let Some(name) = imported(text)
    {
        push_name(alloc, names, Kind::Import, name)?;
    }
    Ok(())
}

/// Appends the names that a record defines.
fn push_names(alloc: Global, names: &mut Vec<Defined>, rec: &Rec<'_>) -> Result<(), AllocError>
    ensures { OnOk result (names_seen names.new.items ≡ names_seen names.old.items ++ defined_by (rec_seen rec.now)) }
{
    match rec {
        Rec::Publics { publics, .. } => push_publics(alloc, names, publics),
        Rec::Communals(communals) => push_communals(alloc, names, communals),
        Rec::Comment { class, text, .. } => push_import(alloc, names, *class, text),
        Rec::Header { .. }
        | Rec::Names(_)
        | Rec::Segment { .. }
        | Rec::Group { .. }
        | Rec::Externs(_)
        | Rec::Plain { .. }
        | Rec::Iterated { .. }
        | Rec::Fixups { .. }
        | Rec::ModEnd { .. }
        | Rec::LocalNames(_)
        | Rec::LocalExterns { .. }
        | Rec::LocalPublics { .. }
        | Rec::LocalCommunals(_)
        | Rec::Carried { .. } => Ok(()),
    }
}

/// The names that a record defines by itself.
fn names_by(alloc: Global, rec: &Rec<'_>) -> Result<Vec<Defined>, AllocError>
    ensures { IfOk result (λ names. names_seen names.items ≡ defined_by (rec_seen rec.now)) }
{
    let mut names = Vec::new(alloc);
    push_names(alloc, &mut names, rec)?;
    Ok(names)
}

/// Appends a name. `is_marked`: whether the record after that of the name is the mark of a COMDAT.
fn push_as(names: &mut Vec<Defined>, defined: Defined, is_marked: bool) -> Result<(), AllocError>
    ensures { OnOk result (names_seen names.new.items ≡ names_seen names.old.items ++ defined_as is_marked (name_seen defined) ∷ []) }
{
    let Defined { kind, name } = defined;
    let kind = kind_by(is_marked, kind);
    names.push(Defined { kind, name })?;
    Ok(())
}

/// Appends the names of a record. `is_marked`: whether the next record is the mark of a COMDAT.
fn push_marked(
    names: &mut Vec<Defined>,
    own: Vec<Defined>,
    is_marked: bool,
) -> Result<(), AllocError>
    ensures { OnOk result (names_seen names.new.items ≡ names_seen names.old.items ++ map (defined_as is_marked) (names_seen own.items)) }
{
    for defined in own {
        push_as(names, defined, is_marked)?;
    }
    Ok(())
}

/// Whether a record is the mark of a COMDAT.
fn is_mark(rec: &Undecoded<'_>) -> bool
    ensures { result ≡ is_some (selection_by rec.now.contents) }
{
    selection_of(rec).is_some()
}

/// The names that a module defines, but for aliases, in the order of its records: those of its PUBDEFs, import definitions and COMDEFs.
///
/// # Errors
///
/// `AllocError` if out of memory.
fn recorded_names(alloc: Global, module: &Checked) -> Result<Vec<Defined>, AllocError>
    ensures { IfOk result (λ names. names_seen names.items ≡ recorded_names (recs_of «module».now.bytes)) }
{
    let mut names = Vec::new(alloc);
    let mut last = Vec::new(alloc);
    for (_, rec) in module.undecoded() {
        push_marked(&mut names, last, is_mark(&rec))?;
        last = names_by(alloc, &rec.decoded())?;
    }
    push_marked(&mut names, last, false)?;
    Ok(names)
}

/// Appends the names of aliases.
fn push_aliases(
    alloc: Global,
    names: &mut Vec<Defined>,
    pairs: Vec<AliasPair<'_>>,
) -> Result<(), AllocError>
    ensures { OnOk result (names_seen names.new.items ≡ names_seen names.old.items ++ map alias_named pairs.entry.items) }
{
    for pair in pairs {
        push_name(alloc, names, Kind::Alias, pair.alias.0)?;
    }
    Ok(())
}

/// The names that a module defines, in the order of its records: those of its PUBDEFs, import definitions and COMDEFs; then those of its aliases.
///
/// # Errors
///
/// `AllocError` if out of memory.
pub fn defined_names(alloc: Global, module: &Checked) -> Result<Vec<Defined>, AllocError>
    ensures { IfOk result (λ names. names_seen names.items ≡ defined_names (recs_of «module».now.bytes)) }
{
    let mut names = recorded_names(alloc, module)?;
    let pairs = alias_pairs(alloc, module)?;
    push_aliases(alloc, &mut names, pairs)?;
    Ok(names)
}

/// Whether a name has an entry in the dictionary of a library that is made: that of a communal has none.
fn has_entry(kind: Kind) -> bool
    ensures { result ≡ has_entry kind }
{
    match kind {
        Kind::Public | Kind::Import | Kind::Comdat | Kind::Alias => true,
        Kind::Communal => false,
    }
}

/// The names of a module that the dictionary of its library has, in the order of its records: those that it defines, without those of communals.
///
/// # Errors
///
/// `AllocError` if out of memory.
pub(crate) fn entered_names(alloc: Global, module: &Checked) -> Result<Vec<Defined>, AllocError>
    ensures { IfOk result (λ names. names_seen names.items ≡ entered (defined_names (recs_of «module».now.bytes))) }
{
    let mut names = Vec::new(alloc);
    for defined in defined_names(alloc, module)? {
        if has_entry(defined.kind) {
            names.push(defined)?;
        }
    }
    Ok(names)
}

//! The pairs of ALIAS records: a name, the alias, and its substitute (TIS OMF 1.1, "ALIAS").

ghost use Rattle.std.specs.Prelude.{◌≡◌, ◌++◌, [], IfNone, IfOk, IfSome, OnOk, map};
ghost use Rattle.omf_check.specs.Module.{recs_of};
ghost use Rattle.omf_library.specs.Aliases.{alias_pairs, counted_names, names_in, paired, pairs_of};
ghost use Rattle.omf_records.specs.Inner.Seen.{contents_seen, kind_seen};

use omf_check::{Checked, Undecoded};
use omf_frame::{Name, RawRecord};
use omf_records::{Items, Rec, view};
use std::alloc::{AllocError, Global};
use std::marker::Model;

/// The type of an ALIAS record.
const ALIAS: u8 = 0xC6;

/// The type of an LNAMES: its contents are names.
const LNAMES: u8 = 0x96;

/// The most bytes of contents that a record has.
const MOST: usize = 65_534;

/// An alias and its substitute: a name that has no public is that of its substitute.
#[derive(Drop)]
pub struct AliasPair<'a> {
    pub alias: Name<'a>,
    pub substitute: Name<'a>,
}

impl<'a> Model for AliasPair<'a> {
    ghost use Rattle.omf_library.specs.Aliases.{AliasPair as Seen};

    ghost Value = { Seen };

    ghost view = { λ p. record { alias = p.alias; substitute = p.substitute } };
}

/// The names of an LNAMES; none of another record.
fn names_of<'a>(rec: &Rec<'a>) -> Option<Items<Name<'a>>>
    ensures some { IfSome result (λ items. names_in (contents_seen rec.now) ≡ map (λ n. n.item) items) }
    ensures none { IfNone result (names_in (contents_seen rec.now) ≡ []) }
{
    match rec {
        Rec::Names(items) | Rec::LocalNames(items) => Some(items.iter()),
        Rec::Header { .. }
        | Rec::Comment { .. }
        | Rec::Segment { .. }
        | Rec::Group { .. }
        | Rec::Externs(_)
        | Rec::Publics { .. }
        | Rec::Communals(_)
        | Rec::Plain { .. }
        | Rec::Iterated { .. }
        | Rec::Fixups { .. }
        | Rec::ModEnd { .. }
        | Rec::LocalExterns { .. }
        | Rec::LocalPublics { .. }
        | Rec::LocalCommunals(_)
        | Rec::Carried { .. } => None,
    }
}

/// The names in bytes, each after its length in one byte; none if the bytes end within a name.
fn counted_names<'a>(bytes: &'a [u8]) -> Option<Items<Name<'a>>>
    ensures some { IfSome result (λ items. counted_names bytes.entry.now ≡ map (λ n. n.item) items) }
    ensures none { IfNone result (counted_names bytes.now ≡ []) }
{
    if bytes.len() > MOST {
        return None;
    }
    let raw = RawRecord {
        kind: LNAMES,
        body: bytes,
        number: 0,
        start: 0,
    };
    match view(raw) {
        Ok(rec) => names_of(&rec),
        Err(_) => None,
    }
}

/// Appends the pairs of names.
fn put_names<'a>(pairs: &mut Vec<AliasPair<'a>>, names: Items<Name<'a>>) -> Result<(), AllocError>
    ensures { OnOk result (pairs.new.items ≡ pairs.old.items ++ paired (map (λ n. n.item) names.entry)) }
{
    let mut rest = names;
    while let Some(alias) = rest.next() {
        let Some(substitute) = rest.next() else {
            return Ok(());
        };
        pairs.push(AliasPair {
            alias: alias.item,
            substitute: substitute.item,
        })?;
    }
    Ok(())
}

/// Appends the pairs of the contents of an ALIAS.
fn put_contents<'a>(pairs: &mut Vec<AliasPair<'a>>, bytes: &'a [u8]) -> Result<(), AllocError>
    ensures { OnOk result (pairs.new.items ≡ pairs.old.items ++ paired (counted_names bytes.entry.now)) }
{
    match counted_names(bytes) {
        Some(names) => put_names(pairs, names),
        None => Ok(()),
    }
}

/// Appends the pairs of a decoded record.
fn put_decoded<'a>(pairs: &mut Vec<AliasPair<'a>>, rec: &Rec<'a>) -> Result<(), AllocError>
    ensures { OnOk result (pairs.new.items ≡ pairs.old.items ++ pairs_of (kind_seen rec.now) (contents_seen rec.now)) }
{
    match rec {
        Rec::Carried {
            kind: ALIAS,
            contents,
        } => put_contents(pairs, contents),
        Rec::Carried { .. } => Ok(()),
        Rec::Header { .. }
        | Rec::Comment { .. }
        | Rec::Names(_)
        | Rec::Segment { .. }
        | Rec::Group { .. }
        | Rec::Externs(_)
        | Rec::Publics { .. }
        | Rec::Communals(_)
        | Rec::Plain { .. }
        | Rec::Iterated { .. }
        | Rec::Fixups { .. }
        | Rec::ModEnd { .. }
        | Rec::LocalNames(_)
        | Rec::LocalExterns { .. }
        | Rec::LocalPublics { .. }
        | Rec::LocalCommunals(_) => Ok(()),
    }
}

/// Appends the pairs of a record. No record but an ALIAS is decoded.
fn put_record<'a>(pairs: &mut Vec<AliasPair<'a>>, rec: &Undecoded<'a>) -> Result<(), AllocError>
    ensures { OnOk result (pairs.new.items ≡ pairs.old.items ++ pairs_of rec.now.kind rec.now.contents) }
{
    if rec.kind() == ALIAS {
        put_decoded(pairs, &rec.decoded())
    } else {
        Ok(())
    }
}

/// The pairs of a module's ALIAS records, in order. A record whose contents end within a name has none, and a name that is left over at the end
/// makes no pair.
///
/// # Errors
///
/// `AllocError` if memory runs out.
pub fn alias_pairs<'a>(alloc: Global, module: &'a Checked) -> Result<Vec<AliasPair<'a>>, AllocError>
    ensures { IfOk result (λ v. v.items ≡ alias_pairs (recs_of «module».entry.now.bytes)) }
{
    let mut pairs = Vec::new(alloc);
    for (_, rec) in module.undecoded() {
        put_record(&mut pairs, &rec)?;
    }
    Ok(pairs)
}

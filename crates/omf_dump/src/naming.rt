//! The lines of the names of a module.

ghost use Rattle.std.specs.Prelude.{◌≡◌, ◌+◌, ◌++◌, ◌<◌, ◌^◌, IfNone, IfOk, IfSome, Ok, OnOk, length, map, option_map};
ghost use Rattle.std.specs.Io.KnownBytes.{Appends};
ghost use Rattle.omf_frame.specs.Bytes.{AddsText};
ghost use Rattle.omf_records.specs.Inner.Seen.{contents_seen, kind_seen};
ghost use Rattle.omf_check.specs.Checking.{Decides};
ghost use Rattle.omf_check.specs.Module.{recs_of};
ghost use Rattle.omf_check.specs.Tables.{defined_externals};
ghost use Rattle.omf_library.specs.Imports.{imported};
ghost use Rattle.omf_dump.specs.Inner.Naming.{lines_of};
ghost use Rattle.omf_dump.specs.Library.{Shows};
ghost use Rattle.omf_dump.specs.Names.{IsNamed, bare_row, communal_row, external_rows, import_rows, module_rows, public_row, record_rows, row_line, rows_text};
ghost use Rattle.omf_dump.specs.Verdict.{IsRefusalLine};

use crate::comment::counted;
use crate::facts::Facts;
use crate::fault::DumpFault;
use crate::format::{Listing, Shape, Which};
use crate::output::{send, send_piece};
use crate::row::{NameRow, put_line};
use crate::sort::Sort;
use crate::verdict::put_refusal;
use omf_check::{CheckFault, Checked, check};
use omf_frame::{Bytes, Sink, Width, is_local};
use omf_records::{At, Communal, Extern, Items, Public, Rec};
use std::alloc::{AllocError, Global};

/// The class of comments that can be import definitions.
const IMPORT_CLASS: u8 = 0xA0;

/// The subtype of import definitions.
const IMPORT: u8 = 1;

/// How the lines of a module's names are made.
#[derive(Drop)]
pub(crate) struct Names<'a> {
    pub shape: Shape,
    pub which: Which,
    /// What each line begins with.
    pub head: &'a [u8],
    pub facts: Facts<'a>,
}

/// The type of a PUBDEF or an LPUBDEF, the index of its base segment, and its base frame.
#[derive(Clone, Copy)]
pub(crate) struct Base {
    pub kind: u8,
    pub segment: u16,
    pub frame: Option<u16>,
}

/// A name without a place.
fn bare_row<'a>(sort: Sort, is_local: bool, name: &'a [u8]) -> NameRow<'a>
    ensures { result ≡ bare_row sort is_local name.entry.now }
{
    NameRow {
        sort,
        is_local,
        segment: None,
        frame: None,
        offset: None,
        name,
    }
}

/// A public.
fn public_row<'a>(facts: &Facts<'a>, base: Base, public: &At<Public<'a>>) -> NameRow<'a>
    ensures { result ≡ public_row facts.now base.kind base.segment base.frame public.now }
{
    let item = &public.item;
    NameRow {
        sort: facts.public_sort(base.segment),
        is_local: is_local(base.kind),
        segment: facts.segment_name(base.segment),
        frame: base.frame,
        offset: Some((Width::of(base.kind), item.offset)),
        name: item.name.0,
    }
}

/// Appends the line of a name, if it is listed.
fn put_name(text: &mut Vec<u8>, names: &Names<'_>, row: NameRow<'_>) -> Result<(), AllocError>
    ensures { AddsText result text.old.items text.new.items (row_line names.now.shape names.now.which names.now.head.now row.entry) }
{
    put_line(text, names.shape, names.which, names.head, row)
}

/// Appends the lines of the externals of an EXTDEF or a LEXTDEF, of which the first has this index.
fn put_externals<'a>(
    text: &mut Vec<u8>,
    names: &Names<'a>,
    first: u64,
    is_local: bool,
    externals: Items<Extern<'a>>,
) -> Result<(), AllocError>
    requires { first + length externals < 2 ^ 64 }
    ensures { AddsText result text.old.items text.new.items (lines_of names.now (external_rows names.now.facts is_local first externals.entry)) }
{
    let mut index = first;
    for external in externals {
        let sort = names.facts.external_sort(index);
        put_name(text, names, bare_row(sort, is_local, external.item.name.0))?;
        index += 1;
    }
    Ok(())
}

/// Appends the lines of the publics of a PUBDEF or an LPUBDEF.
fn put_publics<'a>(
    text: &mut Vec<u8>,
    names: &Names<'a>,
    base: Base,
    publics: Items<Public<'a>>,
) -> Result<(), AllocError>
    ensures { AddsText result text.old.items text.new.items (lines_of names.now (map (public_row names.now.facts base.kind base.segment base.frame) publics.entry)) }
{
    for public in publics {
        put_name(text, names, public_row(&names.facts, base, &public))?;
    }
    Ok(())
}

/// Appends the lines of the communals of a COMDEF or an LCOMDEF.
fn put_communals<'a>(
    text: &mut Vec<u8>,
    names: &Names<'a>,
    is_local: bool,
    communals: Items<Communal<'a>>,
) -> Result<(), AllocError>
    ensures { AddsText result text.old.items text.new.items (lines_of names.now (map (communal_row is_local) communals.entry)) }
{
    for communal in communals {
        let row = bare_row(Sort::Common, is_local, communal.item.name.0);
        put_name(text, names, row)?;
    }
    Ok(())
}

/// The internal name of an import definition, in the text of a comment of its class.
fn imported(text: &[u8]) -> Option<&[u8]>
    ensures { option_map (λ n. n.now) result ≡ imported text.now }
{
    match text {
        [IMPORT, _ordinal, rest @ ..] => match counted(rest) {
            Some((name, _)) => Some(name),
            None => None,
        },
        _ => None,
    }
}

/// Appends the line of a comment's name, if it is an import definition.
fn put_import(
    text: &mut Vec<u8>,
    names: &Names<'_>,
    class: u8,
    comment: &[u8],
) -> Result<(), AllocError>
    ensures { AddsText result text.old.items text.new.items (lines_of names.now (import_rows class comment.now)) }
{
    if class != IMPORT_CLASS {
        return Ok(());
    }
    match imported(comment) {
        Some(name) => put_name(text, names, bare_row(Sort::Imported, false, name)),
        None => Ok(()),
    }
}

/// Appends the lines of a record's names. The first external that it defines has this index.
#[tactic(auto, using(crate::proofs::NamingLaws::externals_counted))]
fn put_record<'a>(
    text: &mut Vec<u8>,
    names: &Names<'a>,
    first: u64,
    rec: &Rec<'a>,
) -> Result<(), AllocError>
    requires { first + length (defined_externals (contents_seen rec.now)) < 2 ^ 64 }
    ensures { AddsText result text.old.items text.new.items (lines_of names.now (record_rows names.now.facts first (kind_seen rec.now) (contents_seen rec.now))) }
{
    let kind = rec.kind();
    match rec {
        Rec::Externs(items) => put_externals(text, names, first, is_local(kind), items.iter()),
        Rec::LocalExterns { externs, .. } => {
            put_externals(text, names, first, is_local(kind), externs.iter())
        }
        Rec::Communals(items) => put_communals(text, names, is_local(kind), items.iter()),
        Rec::LocalCommunals(items) => put_communals(text, names, is_local(kind), items.iter()),
        Rec::Publics {
            segment,
            frame,
            publics,
            ..
        }
        | Rec::LocalPublics {
            segment,
            frame,
            publics,
            ..
        } => {
            let segment = segment.item.0;
            let frame = *frame;
            let base = Base {
                kind,
                segment,
                frame,
            };
            put_publics(text, names, base, publics.iter())
        }
        Rec::Comment {
            class,
            text: comment,
            ..
        } => put_import(text, names, *class, *comment),
        Rec::Header { .. }
        | Rec::Names(_)
        | Rec::Segment { .. }
        | Rec::Group { .. }
        | Rec::Plain { .. }
        | Rec::Iterated { .. }
        | Rec::Fixups { .. }
        | Rec::ModEnd { .. }
        | Rec::LocalNames(_)
        | Rec::Carried { .. } => Ok(()),
    }
}

/// The number of externals of an EXTDEF or a LEXTDEF.
fn extern_count(externals: Items<Extern<'_>>) -> u64
    requires { length externals < 2 ^ 64 }
    ensures { result ≡ length externals.entry }
{
    let mut count = 0;
    for _external in externals {
        count += 1;
    }
    count
}

/// The number of communals of a COMDEF or an LCOMDEF.
fn communal_count(communals: Items<Communal<'_>>) -> u64
    requires { length communals < 2 ^ 64 }
    ensures { result ≡ length communals.entry }
{
    let mut count = 0;
    for _communal in communals {
        count += 1;
    }
    count
}

/// The number of externals that a record defines.
#[tactic(auto, using(crate::proofs::NamingLaws::externals_counted, crate::proofs::NamingLaws::communals_counted))]
fn external_count(rec: &Rec<'_>) -> u64
    requires { length (defined_externals (contents_seen rec.now)) < 2 ^ 64 }
    ensures { result ≡ length (defined_externals (contents_seen rec.now)) }
{
    match rec {
        Rec::Externs(items) => extern_count(items.iter()),
        Rec::LocalExterns { externs, .. } => extern_count(externs.iter()),
        Rec::Communals(items) => communal_count(items.iter()),
        Rec::LocalCommunals(items) => communal_count(items.iter()),
        Rec::Publics { .. }
        | Rec::LocalPublics { .. }
        | Rec::Comment { .. }
        | Rec::Header { .. }
        | Rec::Names(_)
        | Rec::Segment { .. }
        | Rec::Group { .. }
        | Rec::Plain { .. }
        | Rec::Iterated { .. }
        | Rec::Fixups { .. }
        | Rec::ModEnd { .. }
        | Rec::LocalNames(_)
        | Rec::Carried { .. } => 0,
    }
}

/// Writes the lines of the names of a module, in pieces.
fn show_rows<K: Sink>(alloc: Global, writer: &mut K, names: &Names<'_>) -> Result<(), DumpFault>
    ensures { OnOk result (Appends (K.seen writer.old).bytes (K.seen writer.new).bytes (lines_of names.now (module_rows names.now.facts))) }
{
    let _count = names.facts.external_count();
    let mut text = Vec::new(alloc);
    let mut first: u64 = 1;
    for (_, rec) in names.facts.records() {
        let Ok(()) = put_record(&mut text, names, first, &rec) else {
            return Err(DumpFault::Memory);
        };
        send_piece(writer, &mut text)?;
        first += external_count(&rec);
    }
    send(writer, &text)?;
    Ok(())
}

/// Writes the lines of the names of an accepted module, after this head.
fn show_accepted<K: Sink>(
    writer: &mut K,
    shape: Shape,
    which: Which,
    head: &Vec<u8>,
    module: &Checked,
) -> Result<(), DumpFault>
    ensures { OnOk result (Appends (K.seen writer.old).bytes (K.seen writer.new).bytes (rows_text shape which head.now.items (module_rows (recs_of «module».now.bytes)))) }
{
    let alloc = *head.allocator();
    let Ok(facts) = Facts::of(alloc, module) else {
        return Err(DumpFault::Memory);
    };
    let names = Names {
        shape,
        which,
        head,
        facts,
    };
    show_rows(alloc, writer, &names)
}

/// The module of bytes; or `None`, and the line of their first fault is appended to the head.
fn checked_or_line(
    text: &mut Vec<u8>,
    listing: Listing,
    bytes: &[u8],
) -> Result<Option<Checked>, AllocError>
    ensures module { IfOk result (λ o. IfSome o (λ m. Decides listing.profile bytes.now (Ok m) × (text.new.items ≡ text.old.items))) }
    ensures line { IfOk result (λ o. IfNone o (IsRefusalLine listing text.old.items bytes.now text.new.items)) }
{
    match check(*text.allocator(), &mut Bytes::new(bytes), listing.profile) {
        Ok(checked) => Ok(Some(checked)),
        Err(CheckFault::Refused { reason, place }) => {
            put_refusal(text, listing, reason, place)?;
            Ok(None)
        }
        Err(CheckFault::Memory) => Err(AllocError),
        Err(CheckFault::Read) => Err(AllocError),
    }
}

/// Writes the lines of bytes as a module: those of its names, or one with their first fault. Returns whether they are refused.
pub(crate) fn show_names<K: Sink>(
    writer: &mut K,
    listing: Listing,
    which: Which,
    head: Vec<u8>,
    bytes: &[u8],
) -> Result<bool, DumpFault>
    ensures { IfOk result (λ is_refused. Shows (K.seen writer.old).bytes (K.seen writer.new).bytes (IsNamed listing which head.items bytes.now is_refused)) }
{
    let mut text = head;
    match checked_or_line(&mut text, listing, bytes) {
        Ok(Some(checked)) => {
            show_accepted(writer, listing.shape, which, &text, &checked)?;
            Ok(false)
        }
        Ok(None) => {
            send(writer, &text)?;
            Ok(true)
        }
        Err(AllocError) => Err(DumpFault::Memory),
    }
}

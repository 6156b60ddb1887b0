//! The externals of a module, and its virtual segments.

ghost use Rattle.std.specs.List.{list_any};
ghost use Rattle.std.specs.Prelude.{◌≡◌, ◌≤◌, ◌++◌, None, length, IfOk, OnOk, is_some, map, replicate, true};
ghost use Rattle.omf_records.specs.Inner.Reading.{read_body};
ghost use Rattle.omf_records.specs.Inner.Seen.{contents_seen};
ghost use Rattle.omf_virtual.specs.Virtual.{entries_of, external_count, externals, externals_by, externals_in, is_cextdef, is_comdef, is_external, virtual_at, virtual_of};

use crate::entry::{Entry, entries_of, is_segment};
use omf_explicit::Front;
use omf_frame::{Name, RawRecord};
use omf_records::{At, Item, Items, Rec, view};
use std::alloc::{AllocError, Global};
use std::marker::Model;

/// The index of a virtual segment is this number and the index of its external.
pub(crate) const SEGMENT_BASE: u16 = 0x4000;

/// A virtual segment: its name, and the index of the segment of the module that it is put with.
#[derive(Drop)]
pub(crate) struct Virtual<'a> {
    pub name: Name<'a>,
    pub segment: u8,
}

impl<'a> Model for Virtual<'a> {
    ghost use Rattle.omf_virtual.specs.Values.{VirtualItem};

    ghost Value = { VirtualItem };

    ghost view = { λ v. record { name = v.name; segment = v.segment } };
}

impl<'a> Virtual<'a> {
    ghost use Rattle.std.specs.Prelude.{◌≡◌};

    /// A copy.
    fn copy(&self) -> Virtual<'a>
        ensures { result ≡ self.now }
    {
        Virtual {
            name: Name(self.name.0),
            segment: self.segment,
        }
    }
}

/// Whether a record of this type is a COMDEF.
pub(crate) fn is_comdef(kind: u8) -> bool
    ensures { result ≡ is_comdef kind }
{
    kind == 0xB0
}

/// Whether a record of this type is a CEXTDEF.
pub(crate) fn is_cextdef(kind: u8) -> bool
    ensures { result ≡ is_cextdef kind }
{
    kind == 0xBC
}

/// Whether a record of this type has external names that this profile reads.
fn is_external(kind: u8) -> bool
    ensures { result ≡ is_external kind }
{
    matches!(kind, 0x8C | 0xB0 | 0xB4 | 0xB5 | 0xB8)
}

/// The virtual segment of an entry, if it has one.
fn virtual_of<'a>(entry: &Entry<'a>) -> Option<Virtual<'a>>
    ensures { result ≡ virtual_of entry.now }
{
    if !is_segment(entry.data_type) {
        return None;
    }
    Some(Virtual {
        name: Name(entry.name.0),
        segment: entry.data_type,
    })
}

/// Appends externals without virtual segments, one for each item.
fn push_each<'a, T: Item>(
    all: &mut Vec<Option<Virtual<'a>>>,
    items: Items<T>,
) -> Result<(), AllocError>
    ensures { OnOk result (all.new.items ≡ all.old.items ++ replicate (length items) None) }
{
    for _item in items {
        all.push(None)?;
    }
    Ok(())
}

/// Appends the externals of contents that this profile reads: none has a virtual segment.
fn push_others<'a>(all: &mut Vec<Option<Virtual<'a>>>, rec: &Rec<'_>) -> Result<(), AllocError>
    ensures { OnOk result (all.new.items ≡ all.old.items ++ replicate (external_count (contents_seen rec.now)) None) }
{
    match rec {
        Rec::Externs(externs) | Rec::LocalExterns { externs, .. } => push_each(all, externs.iter()),
        Rec::Communals(communals) | Rec::LocalCommunals(communals) => {
            push_each(all, communals.iter())
        }
        Rec::Header { .. }
        | Rec::Comment { .. }
        | Rec::Names(_)
        | Rec::Segment { .. }
        | Rec::Group { .. }
        | Rec::Publics { .. }
        | Rec::Plain { .. }
        | Rec::Iterated { .. }
        | Rec::Fixups { .. }
        | Rec::ModEnd { .. }
        | Rec::LocalNames(_)
        | Rec::LocalPublics { .. }
        | Rec::Carried { .. } => Ok(()),
    }
}

/// Appends the externals of entries.
fn push_entries<'a>(
    all: &mut Vec<Option<Virtual<'a>>>,
    entries: &[At<Entry<'a>>],
) -> Result<(), AllocError>
    ensures { OnOk result (all.new.items ≡ all.old.items ++ map (λ e. virtual_of e.item) entries.now) }
{
    for entry in entries {
        all.push(virtual_of(&entry.item))?;
    }
    Ok(())
}

/// Appends the externals of a COMDEF that this profile does not read.
fn push_of_comdef<'a>(
    alloc: Global,
    all: &mut Vec<Option<Virtual<'a>>>,
    body: &'a [u8],
) -> Result<(), AllocError>
    requires { length body.now ≤ 65534 }
    ensures { OnOk result (all.new.items ≡ all.old.items ++ map (λ e. virtual_of e.item) (entries_of body.entry.now)) }
{
    let entries = entries_of(alloc, body)?;
    push_entries(all, &entries)
}

/// Appends the externals of a record of a type with external names.
fn push_read<'a>(
    alloc: Global,
    all: &mut Vec<Option<Virtual<'a>>>,
    kind: u8,
    body: &'a [u8],
) -> Result<(), AllocError>
    requires external { is_external kind ≡ true }
    requires short { length body.now ≤ 65534 }
    ensures { OnOk result (all.new.items ≡ all.old.items ++ externals_by kind body.entry.now (read_body kind body.entry.now)) }
{
    let raw = RawRecord {
        kind,
        body,
        number: 0,
        start: 0,
    };
    match view(raw) {
        Ok(rec) => push_others(all, &rec),
        Err(_) => {
            if is_comdef(kind) {
                push_of_comdef(alloc, all, body)
            } else {
                Ok(())
            }
        }
    }
}

/// Appends the externals of a record.
pub(crate) fn push_of_record<'a>(
    alloc: Global,
    all: &mut Vec<Option<Virtual<'a>>>,
    record: &Front<'a>,
) -> Result<(), AllocError>
    ensures { OnOk result (all.new.items ≡ all.old.items ++ externals_in record.now) }
{
    if is_external(record.kind) {
        push_read(alloc, all, record.kind, record.body)
    } else {
        Ok(())
    }
}

/// The externals of records, each with its virtual segment if it has one.
pub(crate) fn externals<'a>(
    alloc: Global,
    records: &[Front<'a>],
) -> Result<Vec<Option<Virtual<'a>>>, AllocError>
    ensures { IfOk result (λ v. v.items ≡ externals records.now) }
{
    let mut all = Vec::new(alloc);
    for record in records {
        push_of_record(alloc, &mut all, record)?;
    }
    Ok(all)
}

/// Whether one of some externals has a virtual segment.
pub(crate) fn has_virtual(externals: &[Option<Virtual<'_>>]) -> bool
    ensures { result ≡ list_any (λ x. is_some x) externals.now }
{
    externals.iter().any(|external| external.is_some())
}

/// The virtual segment with an index.
pub(crate) fn virtual_at<'a>(externals: &[Option<Virtual<'a>>], index: u16) -> Option<Virtual<'a>>
    ensures { result ≡ virtual_at externals.now index }
{
    if index <= SEGMENT_BASE {
        return None;
    }
    match externals.get(usize::from(index - SEGMENT_BASE - 1)) {
        Some(external) => match external {
            Some(found) => Some(found.copy()),
            None => None,
        },
        None => None,
    }
}

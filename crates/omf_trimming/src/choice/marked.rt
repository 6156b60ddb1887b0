//! The instances of a module: COMDATs as `lowered` replaces them.

ghost use Rattle.std.specs.Prelude.{◌≡◌, ◌==◌, ◌≤◌, ◌+◌, ◌∷◌, ◌++◌, IfOk, IfSome, IfNone, OnOk, None, Some, List, ℕ, true};
ghost use Rattle.std.specs.List.{list_any};
ghost use Rattle.omf_check.specs.Inner.Contents.{references_seen};
ghost use Rattle.omf_check.specs.Module.{recs_of};
ghost use Rattle.omf_check.specs.Tables.{segment_length};
ghost use Rattle.omf_records.specs.Values.{Rec};
ghost use Rattle.omf_lowering.specs.Marks.{selection_by};
ghost use Rattle.omf_lowering.specs.Unrolled.{is_fixup};
ghost use Rattle.omf_trimming.specs.Choice.{fixes_nothing, instances, marked_after, marked_if, name_by, only_name, past_threads};
ghost use Rattle.omf_trimming.specs.Inner.Choosing.{begun_rest, ended, marked_named, option_list};

use omf_check::{Checked, Publics, References, Undecoded};
use omf_lowering::selection_of;
use omf_records::{Items, Part, Public, Segment, Subrecord};
use std::alloc::{AllocError, Global};
use std::marker::Model;

/// An instance of a module.
#[derive(Drop)]
pub(crate) struct Marked<'a> {
    pub name: &'a [u8],
    /// The index of its segment.
    pub segment: u16,
    pub selection: u8,
    /// The length of its segment.
    pub size: u64,
    pub module: &'a Checked,
}

impl<'a> Model for Marked<'a> {
    ghost use Rattle.omf_check.specs.Module.{recs_of};
    ghost use Rattle.omf_trimming.specs.Choice.{Marked as MarkedItem, data_of};

    ghost Value = { MarkedItem };

    ghost view = { λ i. record { name = i.name.now; segment = i.segment; selection = i.selection; size = i.size; data_pieces = data_of i.segment (recs_of i.«module».now.bytes) } };
}

/// What the last records begin.
#[derive(Drop)]
pub(crate) enum Begun<'a> {
    /// No instance.
    Nothing,
    /// The last record is a SEGDEF of this length.
    Segment {
        size: u64,
    },
    /// The last records are a SEGDEF of this length, and a PUBDEF of one name in its segment.
    Named {
        segment: u16,
        size: u64,
        name: &'a [u8],
    },
}

/// The length of the segment of a SEGDEF of this type.
fn length_of(kind: u8, segment: &Segment) -> u64
    ensures { result ≡ segment_length kind segment.now }
{
    if !segment.attribute.is_big() {
        return u64::from(segment.size);
    }
    if kind % 2 == 1 {
        0x1_0000_0000
    } else {
        0x1_0000
    }
}

/// The one name of some public names.
fn only_name<'a>(items: Items<Public<'a>>) -> Option<&'a [u8]>
    ensures some { IfSome result (λ name. only_name true items.entry ≡ Some name.now) }
    ensures none { IfNone result (only_name true items.entry ≡ None) }
{
    let mut left = items;
    let Some(first) = left.next() else {
        return None;
    };
    if left.next().is_some() {
        return None;
    }
    Some(first.item.name.0)
}

/// What a PUBDEF begins after a SEGDEF of this length, with this number of SEGDEFs so far.
fn begun_by<'a>(size: u64, segments: u64, publics: Publics<'a>) -> Begun<'a>
    ensures { (m rest : List Rec) → begun_rest m segments result rest ≡ marked_named m segments size (only_name (publics.entry.segment.item == segments) publics.entry.items) rest }
{
    let segment = publics.segment.item.0;
    if u64::from(segment) != segments {
        return Begun::Nothing;
    }
    match only_name(publics.items) {
        Some(name) => Begun::Named {
            segment,
            size,
            name,
        },
        None => Begun::Nothing,
    }
}

/// What a record begins after a SEGDEF of this length, with this number of SEGDEFs so far.
fn begun_after<'a>(size: u64, segments: u64, record: &Undecoded<'a>) -> Begun<'a>
    ensures { (m rest : List Rec) → begun_rest m segments result rest ≡ marked_named m segments size (name_by segments record.now.kind record.now.contents) rest }
{
    match record.as_publics(false) {
        Some(publics) => begun_by(size, segments, publics),
        None => Begun::Nothing,
    }
}

/// The instance whose mark is a record, after what the last records begin.
fn ended_by<'a>(
    module: &'a Checked,
    begun: &Begun<'a>,
    record: &Undecoded<'a>,
) -> Option<Marked<'a>>
    ensures { option_list result ≡ ended (recs_of «module».entry.now.bytes) begun.now (selection_by record.now.contents) }
{
    let Begun::Named {
        segment,
        size,
        name,
    } = begun
    else {
        return None;
    };
    let selection = selection_of(record)?;
    Some(Marked {
        name,
        segment: *segment,
        selection,
        size: *size,
        module,
    })
}

/// Whether a subrecord is a FIXUP.
fn is_fixup(subrecord: &Subrecord<'_>) -> bool
    ensures { result ≡ is_fixup subrecord.now }
{
    match &subrecord.part {
        Part::Thread { .. } => false,
        Part::Fixup { .. } => true,
    }
}

/// Whether one of the subrecords is a FIXUP.
fn has_fixup(subrecords: Items<Subrecord<'_>>) -> bool
    ensures { result ≡ list_any (λ s. is_fixup s.item) subrecords.entry }
{
    for next in subrecords {
        if is_fixup(&next.item) {
            return true;
        }
    }
    false
}

/// Whether these are those of a FIXUPP without a FIXUP.
fn fix_nothing(references: &References<'_>) -> bool
    ensures { result ≡ fixes_nothing (references_seen references.now).contents }
{
    match references {
        References::Fixups { subrecords, .. } => !has_fixup(subrecords.iter()),
        References::ModEnd { .. } => false,
    }
}

/// Whether a record is a FIXUPP without a FIXUP.
fn fixes_nothing(record: &Undecoded<'_>) -> bool
    ensures { result ≡ fixes_nothing record.now.contents }
{
    match record.as_references() {
        Some(references) => fix_nothing(&references),
        None => false,
    }
}

/// What a record begins after a SEGDEF of this length; a FIXUPP without a FIXUP is passed over.
fn after_segment<'a>(size: u64, segments: u64, record: &Undecoded<'a>) -> Begun<'a>
    ensures { (m rest : List Rec) → marked_after m segments size (past_threads (record.now ∷ rest)) ≡ begun_rest m segments result (past_threads rest) }
{
    if fixes_nothing(record) {
        return Begun::Segment { size };
    }
    begun_after(size, segments, record)
}

/// What is begun after a record that follows a SEGDEF and a PUBDEF: nothing, whether it is a mark or not. A FIXUPP without a FIXUP is passed over.
fn after_name<'a>(segment: u16, size: u64, name: &'a [u8], record: &Undecoded<'a>) -> Begun<'a>
    ensures { (m rest : List Rec) (count : ℕ) → marked_named m segment size (Some name.entry.now) (past_threads (record.now ∷ rest))
        ≡ marked_if m segment size (Some name.entry.now) (selection_by record.now.contents) ++ begun_rest m count result (past_threads rest) }
{
    if fixes_nothing(record) {
        return Begun::Named {
            segment,
            size,
            name,
        };
    }
    Begun::Nothing
}

/// What a record that is no SEGDEF begins, after what the last records begin, with this number of SEGDEFs so far.
fn next<'a>(begun: &Begun<'a>, segments: u64, record: &Undecoded<'a>) -> Begun<'a>
    ensures { (m rest : List Rec) → begun_rest m segments begun.now (past_threads (record.now ∷ rest)) ≡ ended m begun.now (selection_by record.now.contents) ++ begun_rest m segments result (past_threads rest) }
{
    match begun {
        Begun::Nothing => Begun::Nothing,
        Begun::Segment { size } => after_segment(*size, segments, record),
        Begun::Named {
            segment,
            size,
            name,
        } => after_name(*segment, *size, name, record),
    }
}

/// The number of SEGDEFs with that of one more, the record with this number.
fn with_one(segments: u64, number: u32) -> u64
    requires { segments ≤ number }
    ensures { result ≡ segments + 1 }
{
    segments + 1
}

/// Appends an instance, if there is one.
fn push_some<'a>(found: &mut Vec<Marked<'a>>, marked: Option<Marked<'a>>) -> Result<(), AllocError>
    ensures { OnOk result (found.new.items ≡ found.old.items ++ option_list marked.entry) }
{
    if let Some(marked) = marked {
        found.push(marked)?;
    }
    Ok(())
}

/// The instances of a module: each is a SEGDEF, a PUBDEF of one name in its segment, and a mark, with nothing between them but FIXUPPs without a FIXUP. No other record
/// is decoded, but a PUBDEF after a SEGDEF.
pub(crate) fn instances<'a>(
    alloc: Global,
    module: &'a Checked,
) -> Result<Vec<Marked<'a>>, AllocError>
    ensures { IfOk result (λ v. v.items ≡ instances (recs_of «module».entry.now.bytes)) }
{
    let mut found = Vec::new(alloc);
    let mut begun = Begun::Nothing;
    let mut segments: u64 = 0;
    for (place, record) in module.undecoded() {
        if let Some(segment) = record.as_segment() {
            let size = length_of(record.kind(), &segment);
            begun = Begun::Segment { size };
            segments = with_one(segments, place.number);
        } else {
            push_some(&mut found, ended_by(module, &begun, &record))?;
            begun = next(&begun, segments, &record);
        }
    }
    Ok(found)
}

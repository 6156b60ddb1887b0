//! The segments that records name by their indices. After a COMDAT they are segments of the module's own.

ghost use Rattle.std.specs.Prelude.{◌≡◌, ◌==◌, ◌&&◌, [], ◌∷◌, flat_map, length, map};
ghost use Rattle.std.specs.List.{list_any};
ghost use Rattle.omf_records.specs.Inner.Seen.{contents_seen};
ghost use Rattle.omf_records.specs.Values.{frame_bits, target_bits, thread_method};
ghost use Rattle.omf_lowering.specs.Lowering.{thread_fault};
ghost use Rattle.omf_lowering.specs.Segments.{first_past, has_thread_past, in_reference, in_start, in_subrecord, in_thread, is_past, names_thread_past, of_segment, segment_fault, segments_named};

use crate::instances::Instances;
use crate::pieces::is_taken;
use crate::record::Record;
use crate::tables::Tables;
use omf_frame::{Index, RawRecord, Reason};
use omf_records::{
    At, Items, LayoutFault, Member, Part, Rec, Reference, Subrecord, ThreadByte, view,
};

/// The fault of an index that is past a number of segments.
fn index_fault(count: usize, index: &At<Index>) -> Option<LayoutFault>
    ensures { result ≡ first_past count (index.now ∷ []) }
{
    if usize::from(index.item.0) <= count {
        return None;
    }
    Some(LayoutFault {
        reason: Reason::UndefinedSegment,
        within: index.within,
    })
}

/// The fault of the index of a datum of a method, if the method is F0 or T0.
fn datum_fault(count: usize, method: u8, datum: &Option<At<Index>>) -> Option<LayoutFault>
    ensures { result ≡ first_past count (of_segment method datum.now) }
{
    match datum {
        Some(index) if method == 0 => index_fault(count, index),
        _ => None,
    }
}

/// The method of a reference's frame, if no thread gives it.
fn frame_method(reference: &Reference) -> u8
    ensures { result ≡ frame_bits reference.now.fix.item }
{
    reference.fix.item.byte() / 16 % 8
}

/// The method of a reference's target, if no thread gives it.
fn target_method(reference: &Reference) -> u8
    ensures { result ≡ target_bits reference.now.fix.item }
{
    reference.fix.item.byte() % 4
}

/// The fault of a reference's frame.
fn frame_fault(count: usize, reference: &Reference) -> Option<LayoutFault>
    ensures { result ≡ first_past count (of_segment (frame_bits reference.now.fix.item) reference.now.frame) }
{
    datum_fault(count, frame_method(reference), &reference.frame)
}

/// The fault of a reference's target.
fn target_fault(count: usize, reference: &Reference) -> Option<LayoutFault>
    ensures { result ≡ first_past count (of_segment (target_bits reference.now.fix.item) reference.now.target) }
{
    datum_fault(count, target_method(reference), &reference.target)
}

/// The fault of a reference: of its frame, or else of its target.
fn reference_fault(count: usize, reference: &Reference) -> Option<LayoutFault>
    ensures { result ≡ first_past count (in_reference reference.now) }
{
    match frame_fault(count, reference) {
        Some(fault) => Some(fault),
        None => target_fault(count, reference),
    }
}

/// The fault of a start address.
fn start_fault(count: usize, start: &Option<Reference>) -> Option<LayoutFault>
    ensures { result ≡ first_past count (in_start start.now) }
{
    match start {
        Some(reference) => reference_fault(count, reference),
        None => None,
    }
}

/// The method of a THREAD with this first byte.
fn method_of(first: ThreadByte) -> u8
    ensures { result ≡ thread_method first }
{
    if first.is_frame() {
        first.byte() / 4 % 8
    } else {
        first.byte() / 4 % 4
    }
}

/// The fault of a subrecord of a FIXUPP.
fn subrecord_fault(count: usize, subrecord: &Subrecord<'_>) -> Option<LayoutFault>
    ensures { result ≡ first_past count (in_subrecord subrecord.now) }
{
    match &subrecord.part {
        Part::Thread { first, index } => datum_fault(count, method_of(*first), index),
        Part::Fixup { reference, .. } => reference_fault(count, reference),
    }
}

/// The first fault of some subrecords.
fn subrecords_fault(count: usize, subrecords: Items<Subrecord<'_>>) -> Option<LayoutFault>
    ensures { result ≡ first_past count (flat_map (λ s. in_subrecord s.item) subrecords.entry) }
{
    for subrecord in subrecords {
        match subrecord_fault(count, &subrecord.item) {
            Some(fault) => return Some(fault),
            None => {}
        }
    }
    None
}

/// The fault of a member of a group.
fn member_fault(count: usize, member: &Member<'_>) -> Option<LayoutFault>
    ensures { result ≡ first_past count (member.now ∷ []) }
{
    index_fault(count, &member.segment)
}

/// The first fault of the members of a group.
fn members_fault(count: usize, members: Items<Member<'_>>) -> Option<LayoutFault>
    ensures { result ≡ first_past count (map (λ m. m.item) members.entry) }
{
    for member in members {
        match member_fault(count, &member.item) {
            Some(fault) => return Some(fault),
            None => {}
        }
    }
    None
}

/// The first fault of the segments that a record names, where the module has this many.
fn named_fault(count: usize, rec: &Rec<'_>) -> Option<LayoutFault>
    ensures { result ≡ first_past count (segments_named (contents_seen rec.now)) }
{
    match rec {
        Rec::Group { members, .. } => members_fault(count, members.iter()),
        Rec::Publics { segment, .. } | Rec::LocalPublics { segment, .. } => {
            index_fault(count, segment)
        }
        Rec::Plain { segment, .. } | Rec::Iterated { segment, .. } => index_fault(count, segment),
        Rec::Fixups { subrecords, .. } => subrecords_fault(count, subrecords.iter()),
        Rec::ModEnd { start, .. } => start_fault(count, start),
        Rec::Header { .. }
        | Rec::Comment { .. }
        | Rec::Names(_)
        | Rec::Segment { .. }
        | Rec::Externs(_)
        | Rec::Communals(_)
        | Rec::LocalNames(_)
        | Rec::LocalExterns { .. }
        | Rec::LocalCommunals(_)
        | Rec::Carried { .. } => None,
    }
}

/// The first fault of the segments that a record names, if there is a COMDAT before it.
pub(crate) fn segments_fault(
    tables: &Tables<'_>,
    instances: &Instances<'_>,
    rec: &Rec<'_>,
) -> Option<LayoutFault>
    ensures { result ≡ segment_fault tables.now instances.now (segments_named (contents_seen rec.now)) }
{
    if instances.is_empty() {
        None
    } else {
        named_fault(tables.segments.len(), rec)
    }
}

/// The fault of the index of a segment, if there is a COMDAT before it.
pub(crate) fn segment_fault(
    tables: &Tables<'_>,
    instances: &Instances<'_>,
    index: &At<Index>,
) -> Option<LayoutFault>
    ensures { result ≡ segment_fault tables.now instances.now (index.now ∷ []) }
{
    if instances.is_empty() {
        None
    } else {
        index_fault(tables.segments.len(), index)
    }
}

/// Whether a subrecord is a THREAD that names a segment past a number of segments.
fn is_thread_past(count: usize, subrecord: &Subrecord<'_>) -> bool
    ensures { result ≡ list_any (is_past count) (in_thread subrecord.now) }
{
    match &subrecord.part {
        Part::Thread {
            first,
            index: Some(index),
        } => { method_of(*first) == 0 && usize::from(index.item.0) > count }
        Part::Thread { index: None, .. } | Part::Fixup { .. } => false,
    }
}

/// Whether one of some subrecords is a THREAD that names a segment past a number of segments.
fn has_thread_past(count: usize, subrecords: Items<Subrecord<'_>>) -> bool
    ensures { result ≡ list_any (λ s. list_any (is_past count) (in_thread s.item)) subrecords.entry }
{
    for subrecord in subrecords {
        if is_thread_past(count, &subrecord.item) {
            return true;
        }
    }
    false
}

/// Whether contents have a THREAD that names a segment past a number of segments.
fn rec_has_thread_past(count: usize, rec: &Rec<'_>) -> bool
    ensures { result ≡ has_thread_past count (contents_seen rec.now) }
{
    match rec {
        Rec::Fixups { subrecords, .. } => has_thread_past(count, subrecords.iter()),
        _ => false,
    }
}

/// Whether a record has a THREAD that names a segment past a number of segments.
fn names_thread_past(count: usize, of: &Record) -> bool
    ensures { result ≡ names_thread_past count of.now }
{
    if !is_taken(of.kind) {
        return false;
    }
    let raw = RawRecord {
        kind: of.kind,
        body: &of.body,
        number: 0,
        start: 0,
    };
    match view(raw) {
        Ok(rec) => rec_has_thread_past(count, &rec),
        Err(_) => false,
    }
}

/// Whether one of some records has a THREAD that names a segment past a number of segments.
fn any_names_thread_past(count: usize, records: &[Record]) -> bool
    ensures { result ≡ list_any (names_thread_past count) records.now }
{
    for record in records {
        if names_thread_past(count, record) {
            return true;
        }
    }
    false
}

/// Whether there is no COMDAT so far, and one of these records has a THREAD that names a segment past a number of segments.
fn is_thread_before(instances: &Instances<'_>, count: usize, records: &[Record]) -> bool
    ensures { result ≡ ((length instances.now == 0) && list_any (names_thread_past count) records.now) }
{
    instances.is_empty() && any_names_thread_past(count, records)
}

/// The fault of a module's first COMDAT for a THREAD before it.
pub(crate) fn thread_fault(
    tables: &Tables<'_>,
    instances: &Instances<'_>,
    records: &[Record],
) -> Option<LayoutFault>
    ensures { result ≡ thread_fault (record { tables = tables.now; instances = instances.now; records = records.now }) }
{
    if !is_thread_before(instances, tables.segments.len(), records) {
        return None;
    }
    Some(LayoutFault {
        reason: Reason::UndefinedSegment,
        within: 0,
    })
}

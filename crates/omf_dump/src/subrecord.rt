//! The subrecords of a FIXUPP, and the start of a MODEND.

ghost use Rattle.std.specs.Prelude.{◌≡◌, OnOk, true};
ghost use Rattle.omf_frame.specs.Bytes.{AddsText};
ghost use Rattle.omf_records.specs.Values.{thread_method};
ghost use Rattle.omf_check.specs.Inner.Names.{frame_from, target_from};
ghost use Rattle.omf_check.specs.Threads.{index_or_none, setting};
ghost use Rattle.omf_check.specs.Inner.Kept.{set_threads};
ghost use Rattle.omf_dump.specs.Contents.{thread_fields};
ghost use Rattle.omf_dump.specs.Inner.Resolving.{reference_fields_by, start_items_by, subrecord_fields_by, subrecord_items_by};
ghost use Rattle.omf_dump.specs.Render.{fields_text, items_text};

use crate::field::number;
use crate::format::Format;
use crate::item::{close_item, open_item};
use crate::known::{Known, Tables};
use crate::reference::{Resolved, put_frame, put_location, put_reference, put_target};
use omf_check::{FrameMethod, TargetMethod};
use omf_frame::{Index, Width};
use omf_records::{At, FrameCode, Items, Part, Reference, Subrecord, ThreadByte};
use std::alloc::AllocError;

/// The index in a THREAD's datum; 0 if it has none.
fn index_of(datum: &Option<At<Index>>) -> Index
    ensures { result ≡ index_or_none datum.now }
{
    match datum {
        Some(index) => index.item,
        None => Index(0),
    }
}

/// The frame method that a THREAD sets.
fn frame_method(first: ThreadByte, datum: &Option<At<Index>>) -> FrameMethod
    ensures { result ≡ frame_from (setting (thread_method first) datum.now) }
{
    let index = index_of(datum);
    match first.frame_method() {
        FrameCode::Of(kind) => FrameMethod::Of(TargetMethod { kind, index }),
        FrameCode::Location => FrameMethod::Location,
        FrameCode::Target => FrameMethod::Target,
    }
}

/// The target method that a THREAD sets.
fn target_method(first: ThreadByte, datum: &Option<At<Index>>) -> TargetMethod
    ensures { result ≡ target_from (setting (thread_method first) datum.now) }
{
    TargetMethod {
        kind: first.target_method(),
        index: index_of(datum),
    }
}

/// A THREAD: its kind and number, and the method that it sets.
fn put_thread(
    text: &mut Vec<u8>,
    format: Format,
    tables: &Tables<'_>,
    first: ThreadByte,
    index: &Option<At<Index>>,
) -> Result<(), AllocError>
    ensures { AddsText result text.old.items text.new.items (fields_text format (thread_fields tables.now first index.now)) }
{
    let thread = u64::from(first.number());
    if first.is_frame() {
        number(text, format, "frame-thread", thread)?;
        put_frame(text, format, tables, Some(frame_method(first, index)))
    } else {
        number(text, format, "target-thread", thread)?;
        put_target(text, format, tables, Some(target_method(first, index)))
    }
}

/// A reference with the threads in force.
fn put_resolved(
    text: &mut Vec<u8>,
    format: Format,
    known: &Known<'_>,
    width: Width,
    reference: &Reference,
) -> Result<(), AllocError>
    ensures { AddsText result text.old.items text.new.items (fields_text format (reference_fields_by known.now.tables width known.now.threads reference.now)) }
{
    let resolved = Resolved {
        width,
        frame: known.threads.frame(reference),
        target: known.threads.target(reference),
        reference,
    };
    put_reference(text, format, &known.tables, resolved)
}

/// A subrecord of a FIXUPP.
fn put_subrecord(
    text: &mut Vec<u8>,
    format: Format,
    known: &Known<'_>,
    width: Width,
    subrecord: &Subrecord<'_>,
) -> Result<(), AllocError>
    ensures { AddsText result text.old.items text.new.items (fields_text format (subrecord_fields_by known.now.tables known.now.fixed width known.now.threads subrecord.now)) }
{
    match &subrecord.part {
        Part::Thread { first, index } => put_thread(text, format, &known.tables, *first, index),
        Part::Fixup {
            location,
            reference,
        } => {
            put_location(text, format, &known.fixed, width, *location)?;
            put_resolved(text, format, known, width, reference)
        }
    }
}

/// The subrecords of a FIXUPP. Keeps the threads that they set.
pub(crate) fn put_subrecords(
    text: &mut Vec<u8>,
    format: Format,
    known: &mut Known<'_>,
    width: Width,
    subrecords: Items<Subrecord<'_>>,
) -> Result<(), AllocError>
    ensures text { AddsText result text.old.items text.new.items (items_text format true (subrecord_items_by known.old.tables known.old.fixed width known.old.threads subrecords.entry)) }
    ensures threads { OnOk result (known.new.threads ≡ set_threads known.old.threads subrecords.entry) }
    ensures tables { known.new.tables ≡ known.old.tables }
    ensures fixed { known.new.fixed ≡ known.old.fixed }
{
    let mut is_first = true;
    for subrecord in subrecords {
        open_item(text, format, is_first, u64::from(subrecord.within))?;
        put_subrecord(text, format, known, width, &subrecord.item)?;
        close_item(text, format)?;
        known.threads.set(&subrecord.item);
        is_first = false;
    }
    Ok(())
}

/// The start of a MODEND, if it has one.
pub(crate) fn put_start(
    text: &mut Vec<u8>,
    format: Format,
    known: &Known<'_>,
    width: Width,
    start: &Option<Reference>,
) -> Result<(), AllocError>
    ensures { AddsText result text.old.items text.new.items (items_text format true (start_items_by known.now.tables width known.now.threads start.now)) }
{
    let Some(reference) = start else {
        return Ok(());
    };
    open_item(text, format, true, u64::from(reference.fix.within))?;
    put_resolved(text, format, known, width, reference)?;
    close_item(text, format)
}

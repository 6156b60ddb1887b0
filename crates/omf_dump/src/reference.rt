//! The fields of a FIXUPP's subrecords, and of the start of a MODEND.

ghost use Rattle.std.specs.Prelude.{◌≡◌, ◌∷◌, [], ◌+◌, Some, None, codes};
ghost use Rattle.omf_frame.specs.Bytes.{AddsText};
ghost use Rattle.omf_check.specs.Inner.Names.{frame_from, target_from};
ghost use Rattle.omf_check.specs.Threads.{setting};
ghost use Rattle.omf_dump.specs.Contents.{bytes_if, displacement_if, entry_value, frame_thread_of, frame_value, kind_entry, kind_word, location_fields, location_place, marked_location, reference_fields, target_thread_of, target_value, thread_fields, thread_if};
ghost use Rattle.omf_dump.specs.Fields.{field};
ghost use Rattle.omf_dump.specs.Render.{fields_text, value_text};

use crate::entry::Entry;
use crate::field::{flag, hexadecimal, marked, method, number, word};
use crate::flags::locat_word;
use crate::format::Format;
use crate::known::{Data, Tables};
use crate::part::{after, first};
use omf_check::{FrameMethod, TargetMethod};
use omf_frame::{Index, Width};
use omf_records::{Kind, Locat, Reference};
use std::alloc::AllocError;

/// The most bytes that are shown before and after a location.
const AROUND: usize = 4;

/// The word for a segment, a group or an external.
fn kind_word(kind: Kind) -> &'static str
    ensures { result.now ≡ kind_word kind }
{
    match kind {
        Kind::Segment => "segment",
        Kind::Group => "group",
        Kind::External => "external",
    }
}

/// A segment, a group or an external by its index and its name.
fn entry_of<'a>(tables: &Tables<'a>, method: &TargetMethod) -> Entry<'a>
    ensures { result ≡ kind_entry tables.now method.now.kind method.now.index }
{
    let Index(index) = method.index;
    match method.kind {
        Kind::Segment => tables.segment(index),
        Kind::Group => tables.group(index),
        Kind::External => tables.external(index),
    }
}

/// A field that is the entry of a target method.
fn put_entry(
    text: &mut Vec<u8>,
    format: Format,
    name: &str,
    tables: &Tables<'_>,
    entry: &TargetMethod,
) -> Result<(), AllocError>
    ensures { AddsText result text.old.items text.new.items (value_text format name.now (entry_value tables.now entry.now)) }
{
    let shown = entry_of(tables, entry);
    method(text, format, name, kind_word(entry.kind), Some(shown))
}

/// A target method with its entry; None if its thread is not set.
pub(crate) fn put_target(
    text: &mut Vec<u8>,
    format: Format,
    tables: &Tables<'_>,
    target: Option<TargetMethod>,
) -> Result<(), AllocError>
    ensures { AddsText result text.old.items text.new.items (value_text format (codes "target") (target_value tables.now target)) }
{
    match &target {
        None => method(text, format, "target", "unset", None),
        Some(target) => put_entry(text, format, "target", tables, target),
    }
}

/// A frame method with its entry; None if its thread is not set.
pub(crate) fn put_frame(
    text: &mut Vec<u8>,
    format: Format,
    tables: &Tables<'_>,
    frame: Option<FrameMethod>,
) -> Result<(), AllocError>
    ensures { AddsText result text.old.items text.new.items (value_text format (codes "frame") (frame_value tables.now frame)) }
{
    match &frame {
        None => method(text, format, "frame", "unset", None),
        Some(FrameMethod::Of(entry)) => put_entry(text, format, "frame", tables, entry),
        Some(FrameMethod::Location) => method(text, format, "frame", "location", None),
        Some(FrameMethod::Target) => method(text, format, "frame", "target", None),
    }
}

/// The number of a thread, if there is one.
fn put_thread_number(
    text: &mut Vec<u8>,
    format: Format,
    name: &str,
    thread: Option<u8>,
) -> Result<(), AllocError>
    ensures { AddsText result text.old.items text.new.items (fields_text format (thread_if name.now thread)) }
{
    match thread {
        Some(thread) => number(text, format, name, u64::from(thread)),
        None => Ok(()),
    }
}

/// A displacement, if there is one.
fn put_displacement(
    text: &mut Vec<u8>,
    format: Format,
    width: Width,
    displacement: Option<u32>,
) -> Result<(), AllocError>
    ensures { AddsText result text.old.items text.new.items (fields_text format (displacement_if width displacement)) }
{
    match displacement {
        Some(displacement) => {
            hexadecimal(text, format, "displacement", width, u64::from(displacement))
        }
        None => Ok(()),
    }
}

/// A reference with its methods: those that it gives, or those of its threads; None if a thread is not set.
#[derive(Drop)]
pub(crate) struct Resolved<'r> {
    pub width: Width,
    pub frame: Option<FrameMethod>,
    pub target: Option<TargetMethod>,
    pub reference: &'r Reference,
}

/// A reference: target, displacement, frame, threads.
pub(crate) fn put_reference(
    text: &mut Vec<u8>,
    format: Format,
    tables: &Tables<'_>,
    resolved: Resolved<'_>,
) -> Result<(), AllocError>
    ensures { AddsText result text.old.items text.new.items (fields_text format (reference_fields tables.now resolved.entry.width resolved.entry.frame resolved.entry.target resolved.entry.reference.now)) }
{
    let reference = resolved.reference;
    put_target(text, format, tables, resolved.target)?;
    put_displacement(text, format, resolved.width, reference.displacement)?;
    put_frame(text, format, tables, resolved.frame)?;
    put_thread_number(text, format, "target-thread", reference.target_thread())?;
    put_thread_number(text, format, "frame-thread", reference.frame_thread())
}

/// The place of a location: its offset in the data, after the offset of these in their segment if they are known.
fn location_place(fixed: &Option<Data<'_>>, location: Locat) -> u64
    ensures { result ≡ location_place fixed.now location }
{
    let offset = match fixed {
        Some(fixed) => u64::from(fixed.offset),
        None => 0,
    };
    offset + u64::from(location.offset())
}

/// The bytes of a location in data, with at most four before and after them.
fn put_bytes(
    text: &mut Vec<u8>,
    format: Format,
    bytes: &[u8],
    location: Locat,
) -> Result<(), AllocError>
    ensures { AddsText result text.old.items text.new.items (value_text format (codes "bytes") (marked_location bytes.now location)) }
{
    let start = usize::from(location.offset());
    let size = usize::from(location.location_type().size());
    let before = after(start.saturating_sub(AROUND), first(start, bytes));
    let changed = first(size, after(start, bytes));
    let others = first(AROUND, after(start + size, bytes));
    marked(text, format, before, changed, others)
}

/// The same in the data that a fixup changes, if they are known.
fn put_bytes_if(
    text: &mut Vec<u8>,
    format: Format,
    fixed: &Option<Data<'_>>,
    location: Locat,
) -> Result<(), AllocError>
    ensures { AddsText result text.old.items text.new.items (fields_text format (bytes_if fixed.now location)) }
{
    match fixed {
        Some(fixed) => put_bytes(text, format, fixed.bytes, location),
        None => Ok(()),
    }
}

/// The location of a fixup.
pub(crate) fn put_location(
    text: &mut Vec<u8>,
    format: Format,
    fixed: &Option<Data<'_>>,
    width: Width,
    location: Locat,
) -> Result<(), AllocError>
    ensures { AddsText result text.old.items text.new.items (fields_text format (location_fields fixed.now width location)) }
{
    let kind = locat_word((location.number() / 1024 % 16) as u8);
    let is_self_relative = !location.is_segment_relative();
    hexadecimal(text, format, "at", width, location_place(fixed, location))?;
    put_bytes_if(text, format, fixed, location)?;
    word(text, format, "location", kind)?;
    flag(text, format, "self-relative", is_self_relative)
}

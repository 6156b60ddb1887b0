//! The record at fault: its fields, as far as they can be read, and why it is refused.

ghost use Rattle.std.specs.Prelude.{◌≡◌, ◌++◌, ◌∷◌, [], codes, List, OnOk};
ghost use Rattle.omf_frame.specs.Bytes.{AddsText};
ghost use Rattle.omf_records.specs.Values.{Rec};
ghost use Rattle.omf_dump.specs.Inner.Walking.{Holds};
ghost use Rattle.omf_dump.specs.Known.{tables};
ghost use Rattle.omf_dump.specs.Later.{kept_record, lost_by};
ghost use Rattle.omf_dump.specs.Refused.{fault_record, fault_text, faulty_lost, faulty_record, fields_object, has_fields, own_lost, refused_record};
ghost use Rattle.omf_dump.specs.declared.format.Format.TheVariants as format;

use crate::format::{Format, Style};
use crate::item::close_record;
use crate::later::{
    Fault, Rest, State, lost_with, put_checksum_if, put_unjudged, put_unjudged_body,
};
use crate::lost::Lost;
use crate::refused::{open_refusal, show_refusal};
use omf_frame::{Reason, RecordType};
use std::alloc::AllocError;

/// Whether the record at fault, which is at the front, is shown with its fields.
fn has_fields(bytes: &[u8]) -> bool
    ensures { result ≡ has_fields bytes.now }
{
    match bytes {
        [] => false,
        [kind, ..] => RecordType::of(*kind).is_some(),
    }
}

/// What the fields of the record at fault go by that is not known.
pub(crate) fn own_lost(reason: Reason, bytes: &[u8]) -> Lost
    ensures { result ≡ own_lost reason bytes.now }
{
    match reason {
        Reason::Checksum => lost_with(bytes),
        _ => Lost::none(),
    }
}

/// Begins the object.
fn open_fields(text: &mut Vec<u8>) -> Result<(), AllocError>
    ensures { AddsText result text.old.items text.new.items (codes ",\"fields\":{\"unjudged\":true") }
{
    text.extend_from_slice(b",\"fields\":{\"unjudged\":true")
}

/// Ends it.
fn close_fields(text: &mut Vec<u8>) -> Result<(), AllocError>
    ensures { AddsText result text.old.items text.new.items (125 ∷ []) }
{
    text.push(b'}')?;
    Ok(())
}

/// The fields of the record at the front, as an object in a line of JSON. Keeps what they give later records.
fn put_fields_object<'a>(
    text: &mut Vec<u8>,
    style: Style,
    state: &mut State<'a>,
    bytes: &'a [u8],
) -> Result<(), AllocError>
    ensures text { (before : List Rec) → Holds state.old.known before → AddsText result text.old.items text.new.items (fields_object style before state.old.lost bytes.entry.now) }
    ensures holds { (before : List Rec) → Holds state.old.known before → OnOk result (Holds state.new.known (before ++ kept_record (tables before) state.old.lost bytes.entry.now ∷ [])) }
    ensures lost { OnOk result (state.new.lost ≡ lost_by state.old.known.tables state.old.lost bytes.entry.now) }
{
    open_fields(text)?;
    put_checksum_if(text, style.format, bytes)?;
    put_unjudged_body(text, style, state, bytes)?;
    close_fields(text)
}

/// The record at fault in lines of text: its fields, and then why it is refused.
fn show_lines<'a>(
    text: &mut Vec<u8>,
    style: Style,
    state: &mut State<'a>,
    fault: Fault<'a>,
) -> Result<(), AllocError>
    ensures text { (before : List Rec) → Holds state.old.known before → AddsText result text.old.items text.new.items (fault_text format.Text style before state.old.lost fault.entry.place fault.entry.reason fault.entry.rest.now) }
    ensures holds { (before : List Rec) → Holds state.old.known before → OnOk result (Holds state.new.known (before ++ kept_record (tables before) state.old.lost fault.entry.rest.now ∷ [])) }
    ensures lost { OnOk result (state.new.lost ≡ lost_by state.old.known.tables state.old.lost fault.entry.rest.now) }
{
    let Fault {
        reason,
        place,
        rest,
    } = fault;
    let here = Rest {
        number: u64::from(place.number),
        start: place.start,
        bytes: rest,
    };
    put_unjudged(text, style, state, here)?;
    show_refusal(text, Format::Text, place, reason, rest)
}

/// The record at fault as a line of JSON: why it is refused, and its fields.
fn show_object<'a>(
    text: &mut Vec<u8>,
    style: Style,
    state: &mut State<'a>,
    fault: Fault<'a>,
) -> Result<(), AllocError>
    ensures text { (before : List Rec) → Holds state.old.known before → AddsText result text.old.items text.new.items (fault_text format.Json style before state.old.lost fault.entry.place fault.entry.reason fault.entry.rest.now) }
    ensures holds { (before : List Rec) → Holds state.old.known before → OnOk result (Holds state.new.known (before ++ kept_record (tables before) state.old.lost fault.entry.rest.now ∷ [])) }
    ensures lost { OnOk result (state.new.lost ≡ lost_by state.old.known.tables state.old.lost fault.entry.rest.now) }
{
    open_refusal(text, Format::Json, fault.place, fault.reason, fault.rest)?;
    put_fields_object(text, style, state, fault.rest)?;
    close_record(text, Format::Json)
}

/// The record at fault, of a known type.
fn show_both<'a>(
    text: &mut Vec<u8>,
    format: Format,
    style: Style,
    state: &mut State<'a>,
    fault: Fault<'a>,
) -> Result<(), AllocError>
    ensures text { (before : List Rec) → Holds state.old.known before → AddsText result text.old.items text.new.items (fault_text format style before state.old.lost fault.entry.place fault.entry.reason fault.entry.rest.now) }
    ensures holds { (before : List Rec) → Holds state.old.known before → OnOk result (Holds state.new.known (before ++ kept_record (tables before) state.old.lost fault.entry.rest.now ∷ [])) }
    ensures lost { OnOk result (state.new.lost ≡ lost_by state.old.known.tables state.old.lost fault.entry.rest.now) }
{
    match format {
        Format::Text => show_lines(text, style, state, fault),
        Format::Json => show_object(text, style, state, fault),
    }
}

/// The record at fault of a type that is not known.
fn show_unknown(text: &mut Vec<u8>, format: Format, fault: Fault<'_>) -> Result<(), AllocError>
    ensures { AddsText result text.old.items text.new.items (refused_record format fault.entry.place fault.entry.reason fault.entry.rest.now) }
{
    show_refusal(text, format, fault.place, fault.reason, fault.rest)
}

/// The record at fault. Keeps what it gives later records.
pub(crate) fn show_fault<'a>(
    text: &mut Vec<u8>,
    style: Style,
    state: &mut State<'a>,
    fault: Fault<'a>,
) -> Result<(), AllocError>
    ensures text { (before : List Rec) → Holds state.old.known before → AddsText result text.old.items text.new.items (fault_record style before state.old.lost fault.entry.place fault.entry.reason fault.entry.rest.now) }
    ensures holds { (before : List Rec) → Holds state.old.known before → OnOk result (Holds state.new.known (before ++ faulty_record (tables before) state.old.lost fault.entry.rest.now ∷ [])) }
    ensures lost { OnOk result (state.new.lost ≡ faulty_lost state.old.known.tables state.old.lost fault.entry.rest.now) }
{
    if !has_fields(fault.rest) {
        return show_unknown(text, style.format, fault);
    }
    show_both(text, style.format, style, state, fault)
}

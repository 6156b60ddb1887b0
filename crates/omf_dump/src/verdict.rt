//! The line of the verdict on a module.

ghost use Rattle.std.specs.Prelude.{◌≡◌, ◌++◌, ◌∷◌, IfOk, decimal};
ghost use Rattle.omf_frame.specs.Bytes.{AddsText};
ghost use Rattle.omf_dump.specs.Library.{Shows};
ghost use Rattle.omf_dump.specs.Verdict.{IsVerdict, accepted_text, gap, place_text, reason_text, refused_line};

use crate::fault::DumpFault;
use crate::field::number;
use crate::format::{Format, Listing, Shape, Subject};
use crate::item::close_record;
use crate::output::send;
use crate::refused::put_reason_fields;
use omf_check::{CheckFault, Judged, judge};
use omf_frame::{Bytes, Place, Reason, Sink};
use omf_host::put_decimal;
use std::alloc::AllocError;

/// Text and a number.
pub(crate) fn put_count(text: &mut Vec<u8>, front: &[u8], number: u64) -> Result<(), AllocError>
    ensures { AddsText result text.old.items text.new.items (front.now ++ decimal number) }
{
    text.extend_from_slice(front)?;
    put_decimal(text, number)
}

/// The end of the line of an accepted module.
fn put_accepted(text: &mut Vec<u8>, shape: Shape, judged: Judged) -> Result<(), AllocError>
    ensures { AddsText result text.old.items text.new.items (accepted_text shape judged.record_count judged.size) }
{
    match shape {
        Shape::Text => {
            put_count(text, b"OK ", u64::from(judged.record_count))?;
            put_count(text, b" records, ", judged.size)?;
            text.extend_from_slice(b" bytes\n")
        }
        Shape::Json => {
            let records = u64::from(judged.record_count);
            number(text, Format::Json, "records", records)?;
            number(text, Format::Json, "bytes", judged.size)?;
            close_record(text, Format::Json)
        }
        Shape::Csv => {
            put_count(text, b",", u64::from(judged.record_count))?;
            put_count(text, b",", judged.size)?;
            text.extend_from_slice(b",,,,,,\n")
        }
    }
}

/// A reason: its number and its name.
fn put_reason(text: &mut Vec<u8>, shape: Shape, reason: Reason) -> Result<(), AllocError>
    ensures { AddsText result text.old.items text.new.items (reason_text shape reason) }
{
    match shape {
        Shape::Text => {
            put_count(text, b"refused ", u64::from(reason.number()))?;
            text.push(b' ')?;
            text.extend_from_slice(reason.name().as_bytes())
        }
        Shape::Json => put_reason_fields(text, Format::Json, reason),
        Shape::Csv => {
            put_count(text, b",", u64::from(reason.number()))?;
            text.push(b',')?;
            text.extend_from_slice(reason.name().as_bytes())
        }
    }
}

/// The place of a refusal, and the end of the line.
fn put_place(text: &mut Vec<u8>, shape: Shape, place: Place) -> Result<(), AllocError>
    ensures { AddsText result text.old.items text.new.items (place_text shape place) }
{
    match shape {
        Shape::Text => {
            put_count(text, b" record ", u64::from(place.number))?;
            put_count(text, b" at ", place.start)?;
            put_count(text, b" within ", u64::from(place.within))?;
            text.extend_from_slice(b"\n")
        }
        Shape::Json => {
            number(text, Format::Json, "record", u64::from(place.number))?;
            number(text, Format::Json, "at", place.start)?;
            number(text, Format::Json, "within", u64::from(place.within))?;
            close_record(text, Format::Json)
        }
        Shape::Csv => {
            put_count(text, b",", u64::from(place.number))?;
            put_count(text, b",", place.start)?;
            put_count(text, b",", u64::from(place.within))?;
            text.extend_from_slice(b",\n")
        }
    }
}

/// The empty cells before those of a refusal.
pub(crate) fn put_gap(text: &mut Vec<u8>, subject: Subject, shape: Shape) -> Result<(), AllocError>
    ensures { AddsText result text.old.items text.new.items (gap subject shape) }
{
    match (shape, subject) {
        (Shape::Text, _) => Ok(()),
        (Shape::Json, _) => Ok(()),
        (Shape::Csv, Subject::Verdicts) => text.extend_from_slice(b",,"),
        (Shape::Csv, Subject::Names(_)) => text.extend_from_slice(b",,,,,,"),
    }
}

/// The line of a refused module, after its head.
pub(crate) fn put_refusal(
    text: &mut Vec<u8>,
    listing: Listing,
    reason: Reason,
    place: Place,
) -> Result<(), AllocError>
    ensures { AddsText result text.old.items text.new.items (refused_line listing reason place) }
{
    put_gap(text, listing.subject, listing.shape)?;
    put_reason(text, listing.shape, reason)?;
    put_place(text, listing.shape, place)
}

/// Appends the line of bytes as a module, after its head. Returns whether they are refused.
fn put_verdict(text: &mut Vec<u8>, listing: Listing, bytes: &[u8]) -> Result<bool, AllocError>
    ensures { IfOk result (λ is_refused. IsVerdict listing text.old.items bytes.now is_refused text.new.items) }
{
    match judge(*text.allocator(), &mut Bytes::new(bytes), listing.profile) {
        Ok(judged) => {
            put_accepted(text, listing.shape, judged)?;
            Ok(false)
        }
        Err(CheckFault::Refused { reason, place }) => {
            put_refusal(text, listing, reason, place)?;
            Ok(true)
        }
        Err(CheckFault::Memory) => Err(AllocError),
        Err(CheckFault::Read) => Err(AllocError),
    }
}

/// Writes the line of bytes as a module, after its head. Returns whether they are refused.
pub(crate) fn show_verdict<K: Sink>(
    writer: &mut K,
    listing: Listing,
    head: Vec<u8>,
    bytes: &[u8],
) -> Result<bool, DumpFault>
    ensures { IfOk result (λ is_refused. Shows (K.seen writer.old).bytes (K.seen writer.new).bytes (IsVerdict listing head.items bytes.now is_refused)) }
{
    let mut text = head;
    let Ok(is_refused) = put_verdict(&mut text, listing, bytes) else {
        return Err(DumpFault::Memory);
    };
    send(writer, &text)?;
    Ok(is_refused)
}

//! Records that are not judged, as far as they can be read: those after a record at fault.

ghost use Rattle.std.specs.Prelude.{◌≡◌, ◌≤◌, ◌<◌, ◌+◌, ◌++◌, ◌∷◌, ◌^◌, IfOk, IsTrue, List, OnOk, [], is_some, length, true, unwrap_or};
ghost use Rattle.omf_frame.specs.Bytes.{AddsText};
ghost use Rattle.omf_frame.specs.Framing.{after_front, is_end, is_taken, is_whole, record_len, stated_length};
ghost use Rattle.omf_frame.specs.Types.{type_of};
ghost use Rattle.omf_records.specs.Inner.Reading.{contents_or, read_body};
ghost use Rattle.omf_records.specs.Values.{Carried, Rec};
ghost use Rattle.omf_dump.specs.Inner.Later.{following, unjudged_shown};
ghost use Rattle.omf_dump.specs.Inner.Showing.{Keeps, shown_by};
ghost use Rattle.omf_dump.specs.Inner.Walking.{Holds, Passes};
ghost use Rattle.omf_dump.specs.Later.{body_of, checksum_at, checksum_if, front_kind, given, given_if, goes_on, has_data_if, is_lost_if, is_plain, kept_contents, kept_record, later_from, later_text, lose_if, lost_after, lost_by, lost_with, none_lost, stand_in, unjudged_body, unjudged_head, unjudged_text, unread_contents, unread_lost};
ghost use Rattle.omf_dump.specs.Known.{tables};
ghost use Rattle.omf_dump.specs.Library.{after_member};
ghost use Rattle.omf_dump.specs.Raw.{raw_shown};
ghost use Rattle.omf_dump.specs.Render.{fields_text, head_text, shown_text};

use crate::fault::DumpFault;
use crate::field::{flag, small};
use crate::format::{Format, Style};
use crate::giving::give;
use crate::item::{close_record, put_kind_head, put_number_head};
use crate::known::Known;
use crate::library::front_contents;
use crate::looks::is_foreign;
use crate::lost::{Lost, has_data, is_lost, lose};
use crate::output::send_piece;
use crate::part::after;
use crate::raw::show_raw;
use crate::record::show_contents;
use omf_frame::{Place, RawRecord, Reason, RecordType, Sink, Width};
use omf_records::view;
use std::alloc::AllocError;

/// Bytes of an input, with the number and the offset of the record that they begin with.
#[derive(Clone, Copy)]
pub(crate) struct Rest<'a> {
    pub number: u64,
    pub start: u64,
    pub bytes: &'a [u8],
}

/// Whether all bytes of the record at the front are present.
fn is_whole(bytes: &[u8]) -> bool
    ensures { result ≡ is_whole bytes.now }
{
    match bytes {
        [_, low, high, after @ ..] => usize::from(*low) + 256 * usize::from(*high) <= after.len(),
        _ => false,
    }
}

/// Whether a record of this type ends a module.
fn is_end(kind: u8) -> bool
    ensures { result ≡ is_end kind }
{
    matches!(kind, 0x8A | 0x8B)
}

/// The type byte of the record at the front.
pub(crate) fn front_kind(bytes: &[u8]) -> u8
    ensures { result ≡ front_kind bytes.now }
{
    match bytes {
        [] => 0,
        [kind, ..] => *kind,
    }
}

/// The number in the two length bytes.
fn stated_length(bytes: &[u8]) -> usize
    ensures value { result ≡ stated_length bytes.now }
    ensures small { result < 65536 }
{
    match bytes {
        [_, low, high, ..] => usize::from(*low) + 256 * usize::from(*high),
        _ => 0,
    }
}

/// The bytes after the record at the front.
fn after_front(bytes: &[u8]) -> &[u8]
    ensures { result.now ≡ after_front bytes.now }
{
    match bytes {
        [_, low, high, rest @ ..] => after(usize::from(*low) + 256 * usize::from(*high), rest),
        _ => &[],
    }
}

/// The bytes after the record at the front; none if it is a MODEND.
fn following(bytes: &[u8]) -> &[u8]
    ensures { result.now ≡ following bytes.now }
{
    if is_end(front_kind(bytes)) {
        return &[];
    }
    after_front(bytes)
}

/// The bytes after the member at the front, which ends at its first MODEND, by the lengths of its records alone.
#[tactic(auto, using(crate::proofs::LaterLaws::after_one, crate::proofs::LaterLaws::after_last, crate::proofs::LaterLaws::front_shorter))]
pub(crate) fn after_member(bytes: &[u8]) -> &[u8]
    ensures value { result.now ≡ after_member 0 bytes.now }
    ensures shorter { 0 < length bytes.now → length result.now < length bytes.now }
{
    let mut left = bytes;
    while !left.is_empty() {
        if is_end(front_kind(left)) {
            return after_front(left);
        }
        left = after_front(left);
    }
    left
}

/// A record at fault, which is at the front of the bytes, and why.
#[derive(Clone, Copy)]
pub(crate) struct Fault<'a> {
    pub reason: Reason,
    pub place: Place,
    pub rest: &'a [u8],
}

/// What the records so far give, and what they leave unknown.
#[derive(Drop)]
pub(crate) struct State<'a> {
    pub known: Known<'a>,
    pub lost: Lost,
}

impl Lost {
    /// Nothing is lost.
    pub(crate) fn none() -> Lost
        ensures { result ≡ none_lost }
    {
        Lost {
            names: false,
            segments: false,
            groups: false,
            externals: false,
            threads: false,
        }
    }
}

/// Whether records of a type go by something that is lost.
fn is_lost_if(lost: Lost, kind: Option<RecordType>) -> bool
    ensures { result ≡ is_lost_if lost kind }
{
    match kind {
        Some(kind) => is_lost(lost, kind),
        None => false,
    }
}

/// What is lost after a record of a type that was not read.
fn lose_if(lost: Lost, kind: Option<RecordType>) -> Lost
    ensures { result ≡ lose_if lost kind }
{
    match kind {
        Some(kind) => lose(lost, kind),
        None => lost,
    }
}

/// Whether a record of a type has data.
fn has_data_if(kind: Option<RecordType>) -> bool
    ensures { result ≡ has_data_if kind }
{
    match kind {
        Some(kind) => has_data(kind),
        None => false,
    }
}

/// Whether a module may have records of this type.
fn is_taken(kind: u8) -> bool
    ensures { result ≡ is_taken kind }
{
    matches!(
        kind,
        0x80 | 0x82
            | 0x88
            | 0x8A
            | 0x8B
            | 0x8C
            | 0x90
            | 0x91
            | 0x96
            | 0x98
            | 0x99
            | 0x9A
            | 0x9C
            | 0x9D
            | 0xA0
            | 0xA1
            | 0xA2
            | 0xA3
            | 0xB0
            | 0xB4
            | 0xB5
            | 0xB6
            | 0xB7
            | 0xB8
            | 0xCA
            | 0x8E
            | 0x94
            | 0x95
            | 0xC4
            | 0xC5
            | 0xC6
            | 0xCC
    )
}

/// Whether a module may have records of this type, and what these go by is known.
fn is_plain(lost: Lost, kind: u8) -> bool
    ensures { result ≡ is_plain lost kind }
{
    is_taken(kind) && !is_lost_if(lost, RecordType::of(kind))
}

/// Forgets what a record of this type would have given, which was not read.
fn forget(state: &mut State<'_>, kind: u8, body: &[u8])
    ensures keeps { Keeps state.old.known (stand_in kind body.now) state.new.known }
    ensures lost { state.new.lost ≡ lose_if state.old.lost (type_of kind) }
{
    let kind = RecordType::of(kind);
    if has_data_if(kind) {
        state.known.fixed = None;
    }
    state.lost = lose_if(state.lost, kind);
}

/// Keeps what a record of a type gives that is not read, if that and its place in the tables are known. Returns whether it is.
#[tactic(auto, using(crate::proofs::LaterLaws::by_true, crate::proofs::LaterLaws::by_false, crate::proofs::GivesLaws::none_changed))]
fn give_if<'a>(
    state: &mut State<'a>,
    kind: Option<RecordType>,
    width: Width,
    body: &'a [u8],
) -> Result<bool, AllocError>
    ensures given { IfOk result (λ is_given. is_given ≡ is_some (given_if state.old.known.tables.names state.old.lost width body.entry.now kind)) }
    ensures keeps { OnOk result (Keeps state.old.known (unwrap_or (given_if state.old.known.tables.names state.old.lost width body.entry.now kind) (Carried [])) state.new.known) }
    ensures lost { state.new.lost ≡ state.old.lost }
{
    match kind {
        Some(kind) => {
            if is_lost(state.lost, kind) {
                return Ok(false);
            }
            give(&mut state.known, width, kind, body)
        }
        None => Ok(false),
    }
}

/// Keeps what a record gives that is not read, if that is known; else forgets what it would have given.
#[tactic(auto, using(crate::proofs::GivesLaws::given_kept, crate::proofs::GivesLaws::none_kept, crate::proofs::LaterLaws::by_true, crate::proofs::LaterLaws::by_false))]
fn keep_unread<'a>(state: &mut State<'a>, kind: u8, body: &'a [u8]) -> Result<(), AllocError>
    ensures keeps { OnOk result (Keeps state.old.known (unread_contents state.old.known.tables state.old.lost kind body.entry.now) state.new.known) }
    ensures lost { OnOk result (state.new.lost ≡ unread_lost state.old.known.tables state.old.lost kind body.entry.now) }
{
    let is_given = give_if(state, RecordType::of(kind), Width::of(kind), body)?;
    if is_given {
        return Ok(());
    }
    forget(state, kind, body);
    Ok(())
}

/// The contents of a record by its bytes alone.
fn show_opaque<'a>(
    text: &mut Vec<u8>,
    style: Style,
    state: &mut State<'a>,
    kind: u8,
    body: &'a [u8],
) -> Result<(), AllocError>
    ensures text { AddsText result text.old.items text.new.items (shown_text style (raw_shown state.old.known.tables kind body.entry.now)) }
    ensures keeps { OnOk result (Keeps state.old.known (unread_contents state.old.known.tables state.old.lost kind body.entry.now) state.new.known) }
    ensures lost { OnOk result (state.new.lost ≡ unread_lost state.old.known.tables state.old.lost kind body.entry.now) }
{
    show_raw(text, style, &state.known.tables, kind, body)?;
    keep_unread(state, kind, body)
}

/// The contents of a record of a type that a module may have, if its layout has no fault; else its fields by its bytes alone.
fn show_plain<'a>(
    text: &mut Vec<u8>,
    style: Style,
    state: &mut State<'a>,
    raw: RawRecord<'a>,
) -> Result<(), AllocError>
    requires plain { is_plain state.old.lost raw.kind ≡ true }
    requires taken { IsTrue (is_taken raw.kind) }
    requires short { length raw.body.now ≤ 65534 }
    ensures text { AddsText result text.old.items text.new.items (shown_text style (unjudged_shown state.old.known state.old.lost raw.entry.kind raw.entry.body.now)) }
    ensures keeps { OnOk result (Keeps state.old.known (kept_contents state.old.known.tables state.old.lost raw.entry.kind raw.entry.body.now) state.new.known) }
    ensures lost { OnOk result (state.new.lost ≡ lost_after state.old.known.tables state.old.lost raw.entry.kind raw.entry.body.now) }
{
    match view(raw) {
        Ok(rec) => show_contents(text, style, &mut state.known, Width::of(raw.kind), &rec),
        Err(_) => show_opaque(text, style, state, raw.kind, raw.body),
    }
}

/// The contents of a record that is not judged. Keeps what they give later records.
fn show_unjudged<'a>(
    text: &mut Vec<u8>,
    style: Style,
    state: &mut State<'a>,
    raw: RawRecord<'a>,
) -> Result<(), AllocError>
    requires { length raw.body.now ≤ 65534 }
    ensures text { AddsText result text.old.items text.new.items (shown_text style (unjudged_shown state.old.known state.old.lost raw.entry.kind raw.entry.body.now)) }
    ensures keeps { OnOk result (Keeps state.old.known (kept_contents state.old.known.tables state.old.lost raw.entry.kind raw.entry.body.now) state.new.known) }
    ensures lost { OnOk result (state.new.lost ≡ lost_after state.old.known.tables state.old.lost raw.entry.kind raw.entry.body.now) }
{
    if is_plain(state.lost, raw.kind) {
        show_plain(text, style, state, raw)
    } else {
        show_opaque(text, style, state, raw.kind, raw.body)
    }
}

/// The checksum byte, if it is there.
fn put_checksum(text: &mut Vec<u8>, format: Format, bytes: &[u8]) -> Result<(), AllocError>
    ensures { AddsText result text.old.items text.new.items (fields_text format (checksum_at bytes.now)) }
{
    match bytes {
        [] => Ok(()),
        [sum, ..] => small(text, format, "checksum", *sum),
    }
}

/// The checksum byte of the record at the front, if it is there.
pub(crate) fn put_checksum_if(
    text: &mut Vec<u8>,
    format: Format,
    bytes: &[u8],
) -> Result<(), AllocError>
    ensures { AddsText result text.old.items text.new.items (fields_text format (checksum_if bytes.now)) }
{
    let length = stated_length(bytes);
    if length == 0 {
        return Ok(());
    }
    put_checksum(text, format, after(2 + length, bytes))
}

/// The head of a record that is not judged.
fn put_unjudged_head(text: &mut Vec<u8>, format: Format, rest: Rest<'_>) -> Result<(), AllocError>
    ensures { AddsText result text.old.items text.new.items (unjudged_head format rest.entry.number rest.entry.start rest.entry.bytes.now) }
{
    put_number_head(text, format, rest.number, rest.start)?;
    put_kind_head(text, format, front_kind(rest.bytes))?;
    put_checksum_if(text, format, rest.bytes)?;
    flag(text, format, "unjudged", true)
}

/// The contents of the record at the front, which is not judged. Keeps what they give later records.
pub(crate) fn put_unjudged_body<'a>(
    text: &mut Vec<u8>,
    style: Style,
    state: &mut State<'a>,
    bytes: &'a [u8],
) -> Result<(), AllocError>
    ensures text { (before : List Rec) → Holds state.old.known before → AddsText result text.old.items text.new.items (unjudged_body style before state.old.lost bytes.entry.now) }
    ensures holds { (before : List Rec) → Holds state.old.known before → OnOk result (Holds state.new.known (before ++ kept_record (tables before) state.old.lost bytes.entry.now ∷ [])) }
    ensures lost { OnOk result (state.new.lost ≡ lost_by state.old.known.tables state.old.lost bytes.entry.now) }
{
    let raw = RawRecord {
        kind: front_kind(bytes),
        body: front_contents(bytes),
        number: 0,
        start: 0,
    };
    show_unjudged(text, style, state, raw)
}

/// A record that is not judged. Keeps what it gives later records.
pub(crate) fn put_unjudged<'a>(
    text: &mut Vec<u8>,
    style: Style,
    state: &mut State<'a>,
    rest: Rest<'a>,
) -> Result<(), AllocError>
    ensures text { (before : List Rec) → Holds state.old.known before → AddsText result text.old.items text.new.items (unjudged_text style before state.old.lost rest.entry.number rest.entry.start rest.entry.bytes.now) }
    ensures holds { (before : List Rec) → Holds state.old.known before → OnOk result (Holds state.new.known (before ++ kept_record (tables before) state.old.lost rest.entry.bytes.now ∷ [])) }
    ensures lost { OnOk result (state.new.lost ≡ lost_by state.old.known.tables state.old.lost rest.entry.bytes.now) }
{
    put_unjudged_head(text, style.format, rest)?;
    put_unjudged_body(text, style, state, rest.bytes)?;
    close_record(text, style.format)
}

/// Writes the records from an offset on, as far as they are whole, up to the first MODEND. The end of it is left in `text`.
#[tactic(auto, using(crate::proofs::LaterLaws::whole_fits, crate::proofs::LaterLaws::following_fits))]
fn put_from<'a, K: Sink>(
    writer: &mut K,
    text: &mut Vec<u8>,
    style: Style,
    state: &mut State<'a>,
    rest: Rest<'a>,
) -> Result<(), DumpFault>
    requires number { rest.number + length rest.bytes.now < 2 ^ 64 }
    requires start { rest.start + length rest.bytes.now < 2 ^ 64 }
    ensures { (before : List Rec) → Holds state.old.known before → Passes (K.seen writer.old).bytes (K.seen writer.new).bytes result (text.old.items ++ later_from style before state.old.lost rest.entry.number rest.entry.start 0 rest.entry.bytes.now) text.new.items }
{
    let mut number = rest.number;
    let mut start = rest.start;
    let mut left = rest.bytes;
    while is_whole(left) {
        let here = Rest {
            number,
            start,
            bytes: left,
        };
        let Ok(()) = put_unjudged(text, style, state, here) else {
            return Err(DumpFault::Memory);
        };
        send_piece(writer, text)?;
        number += 1;
        start += 3 + stated_length(left) as u64;
        left = following(left);
    }
    Ok(())
}

/// Whether records can follow the one at fault, which is at the front.
fn goes_on(number: u32, bytes: &[u8]) -> bool
    ensures { result ≡ goes_on number bytes.now }
{
    is_whole(bytes) && !is_end(front_kind(bytes)) && !is_foreign(number, bytes)
}

/// What is lost by the record at fault, which is at the front, if its checksum is wrong.
pub(crate) fn lost_with(bytes: &[u8]) -> Lost
    ensures { result ≡ lost_with bytes.now }
{
    lose_if(Lost::none(), RecordType::of(front_kind(bytes)))
}

/// Writes the records that follow the one at fault, which has this place. The end of it is left in `text`.
#[tactic(auto, using(crate::proofs::LaterLaws::goes_whole))]
pub(crate) fn put_later<'a, K: Sink>(
    writer: &mut K,
    text: &mut Vec<u8>,
    style: Style,
    state: &mut State<'a>,
    fault: Fault<'a>,
) -> Result<(), DumpFault>
    requires { fault.place.start + length fault.rest.now < 2 ^ 63 }
    ensures { (before : List Rec) → Holds state.old.known before → Passes (K.seen writer.old).bytes (K.seen writer.new).bytes result (text.old.items ++ later_text style before state.old.lost fault.entry.place.number fault.entry.place.start fault.entry.rest.now) text.new.items }
{
    let place = fault.place;
    let bytes = fault.rest;
    if !goes_on(place.number, bytes) {
        return Ok(());
    }
    let size = 3 + stated_length(bytes);
    let rest = Rest {
        number: u64::from(place.number) + 1,
        start: place.start + size as u64,
        bytes: bytes.split_at(size).1,
    };
    put_from(writer, text, style, state, rest)
}

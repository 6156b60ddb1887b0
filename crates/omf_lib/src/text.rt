//! Reasons, faults and notes as text.

ghost use Rattle.std.specs.Prelude.{◌≡◌, ◌++◌, string_bytes};
ghost use Rattle.omf_frame.specs.Bytes.{AddsText};
ghost use Rattle.omf_lib.specs.Lines.{fault_head, fault_line, fault_name, fault_offset, fault_rest, of_entry, of_member, of_public, of_refused, place_text, reason_text};

use crate::fault::{Fault, Named, Note, Public};
use omf_frame::{Place, Reason, type_name};
use omf_host::put_quoted;
use std::alloc::AllocError;
use std::fmt::Write;

/// Appends the place of a fault in a member.
fn put_place(text: &mut String, place: Place) -> Result<(), AllocError>
    ensures { AddsText result (string_bytes text.old) (string_bytes text.new) (place_text place) }
{
    let Place {
        number,
        start,
        within,
    } = place;
    write!(text, " record {number} at {start} within {within}")
}

/// Appends a reason, and its place in the member, as `omf check` prints them.
pub fn put_reason(text: &mut String, reason: Reason, place: Place) -> Result<(), AllocError>
    ensures { AddsText result (string_bytes text.old) (string_bytes text.new) (reason_text reason place) }
{
    let code = reason.number();
    let name = reason.name();
    write!(text, " {code} {name}")?;
    put_place(text, place)
}

/// The number and the name of a fault.
fn fault_name(fault: Fault<'_>) -> &'static str
    ensures { result.now ≡ fault_name fault.entry }
{
    match fault {
        Fault::NoHeader => "1 NoHeader",
        Fault::HeaderCut => "2 HeaderCut",
        Fault::PageSize(_) => "3 PageSize",
        Fault::NoMember { .. } => "4 NoMember",
        Fault::MemberCut { .. } => "5 MemberCut",
        Fault::NoEnd { .. } => "6 NoEnd",
        Fault::Member { .. } => "7 Member",
        Fault::DictionaryOffset(_) => "8 DictionaryOffset",
        Fault::DictionaryOutside(_) => "9 DictionaryOutside",
        Fault::EntryOutside(_) => "10 EntryOutside",
        Fault::EntryNowhere(_) => "11 EntryNowhere",
        Fault::NotFound(_) => "12 NotFound",
        Fault::NotFoundKept(_) => "13 NotFoundKept",
        Fault::NoEntry(_) => "14 NoEntry",
        Fault::OtherMember(_) => "15 OtherMember",
        Fault::LongSearches(_) => "16 LongSearches",
        Fault::Undefined(_) => "21 Undefined",
    }
}

/// The offset that the line of a fault names.
fn fault_offset(fault: Fault<'_>) -> usize
    ensures { result ≡ fault_offset fault.entry }
{
    match fault {
        Fault::NoHeader | Fault::HeaderCut => 0,
        Fault::PageSize(_) => 1,
        Fault::NoMember { offset, .. }
        | Fault::MemberCut { offset, .. }
        | Fault::NoEnd { offset, .. }
        | Fault::Member { offset, .. } => offset,
        Fault::DictionaryOffset(offset)
        | Fault::DictionaryOutside(offset)
        | Fault::EntryOutside(offset)
        | Fault::LongSearches(offset) => offset,
        Fault::EntryNowhere(entry)
        | Fault::NotFound(entry)
        | Fault::NotFoundKept(entry)
        | Fault::Undefined(entry) => entry.offset,
        Fault::NoEntry(public) | Fault::OtherMember(public) => public.offset,
    }
}

/// Appends the head of a fault's line.
fn put_head(text: &mut String, fault: Fault<'_>) -> Result<(), AllocError>
    ensures { AddsText result (string_bytes text.old) (string_bytes text.new) (fault_head fault.entry) }
{
    let name = fault_name(fault);
    let offset = fault_offset(fault);
    write!(text, "fault {name} at {offset}")
}

/// Appends the number of a member.
fn put_member(text: &mut String, member: usize) -> Result<(), AllocError>
    ensures { AddsText result (string_bytes text.old) (string_bytes text.new) (of_member member) }
{
    write!(text, " member {member}")
}

/// Appends a member that is refused, and why.
fn put_refused(
    text: &mut String,
    member: usize,
    reason: Reason,
    place: Place,
) -> Result<(), AllocError>
    ensures { AddsText result (string_bytes text.old) (string_bytes text.new) (of_refused member reason place) }
{
    put_member(text, member)?;
    text.push_str(" refused")?;
    put_reason(text, reason, place)
}

/// Appends an entry of the dictionary: its page and its name.
fn put_entry(text: &mut String, entry: Named<'_>) -> Result<(), AllocError>
    ensures { AddsText result (string_bytes text.old) (string_bytes text.new) (of_entry entry.entry) }
{
    let page = entry.page;
    write!(text, " page {page} ")?;
    put_quoted(text, entry.name)
}

/// Appends a public of a member: the member's number and the name.
fn put_public(text: &mut String, public: Public<'_>) -> Result<(), AllocError>
    ensures { AddsText result (string_bytes text.old) (string_bytes text.new) (of_public public.entry) }
{
    let member = public.member;
    write!(text, " member {member} ")?;
    put_quoted(text, public.name)
}

/// Appends the rest of a fault's line: the member, the entry or the public that has it.
fn put_rest(text: &mut String, fault: Fault<'_>) -> Result<(), AllocError>
    ensures { AddsText result (string_bytes text.old) (string_bytes text.new) (fault_rest fault.entry) }
{
    match fault {
        Fault::NoHeader
        | Fault::HeaderCut
        | Fault::DictionaryOffset(_)
        | Fault::DictionaryOutside(_)
        | Fault::EntryOutside(_)
        | Fault::LongSearches(_) => Ok(()),
        Fault::PageSize(size) => write!(text, " size {size}"),
        Fault::NoMember { member, .. }
        | Fault::MemberCut { member, .. }
        | Fault::NoEnd { member, .. } => put_member(text, member),
        Fault::Member {
            member,
            reason,
            place,
            ..
        } => put_refused(text, member, reason, place),
        Fault::EntryNowhere(entry)
        | Fault::NotFound(entry)
        | Fault::NotFoundKept(entry)
        | Fault::Undefined(entry) => put_entry(text, entry),
        Fault::NoEntry(public) | Fault::OtherMember(public) => put_public(text, public),
    }
}

/// Appends the line of a fault.
pub fn put_fault(text: &mut String, fault: Fault<'_>) -> Result<(), AllocError>
    ensures { AddsText result (string_bytes text.old) (string_bytes text.new) (fault_line fault.entry) }
{
    put_head(text, fault)?;
    put_rest(text, fault)?;
    text.push('\n')
}

/// The number and the name of a note.
fn note_name(note: Note) -> &'static str {
    match note {
        Note::Padding { .. } => "17 Padding",
        Note::Gap { .. } => "18 Gap",
        Note::After { .. } => "19 After",
        Note::Lowered { .. } => "22 Lowered",
    }
}

/// The offset that the line of a note names.
fn note_offset(note: Note) -> usize {
    match note {
        Note::Padding { offset, .. }
        | Note::Gap { offset, .. }
        | Note::After { offset, .. }
        | Note::Lowered { offset, .. } => offset,
    }
}

/// Appends the head of a note's line.
fn put_note_head(text: &mut String, note: Note) -> Result<(), AllocError> {
    let name = note_name(note);
    let offset = note_offset(note);
    write!(text, "note {name} at {offset}")
}

/// Appends a member that is lowered, and the type of the record that is refused without this.
fn put_lowered(text: &mut String, member: usize, kind: u8) -> Result<(), AllocError> {
    let name = type_name(kind);
    write!(text, " member {member} {name}")
}

/// Appends the rest of a note's line.
fn put_note_rest(text: &mut String, note: Note) -> Result<(), AllocError> {
    match note {
        Note::Padding { member, .. } => put_member(text, member),
        Note::Gap { length, .. } | Note::After { length, .. } => {
            write!(text, " length {length}")
        }
        Note::Lowered { member, kind, .. } => put_lowered(text, member, kind),
    }
}

/// Appends the line of a note.
pub fn put_note(text: &mut String, note: Note) -> Result<(), AllocError> {
    put_note_head(text, note)?;
    put_note_rest(text, note)?;
    text.push('\n')
}

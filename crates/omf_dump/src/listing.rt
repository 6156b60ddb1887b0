//! A list of an input: a line for each module, or for each of its names.

ghost use Rattle.std.specs.Prelude.{◌≡◌, ◌<◌, ◌++◌, IfOk};
ghost use Rattle.omf_frame.specs.Bytes.{AddsText};
ghost use Rattle.omf_dump.specs.Csv.{csv_name};
ghost use Rattle.omf_dump.specs.Library.{Shows};
ghost use Rattle.omf_dump.specs.Listing.{AreListed, AreModulesListed, IsEndListed, IsInputListed, IsLibraryListed, IsListed, IsListedAs, columns, fault_cells, fault_name, fault_object, fault_spot, fault_text, fault_words, file_head, first_position, header_line, lone_head, member_name, numbered_head, position_head};
ghost use Rattle.omf_dump.specs.Render.{name_beside};
ghost use Rattle.omf_library.specs.Library.{HasHeader, page_size};

use crate::comment::counted;
use crate::csv::put_csv_quoted;
use crate::fault::DumpFault;
use crate::format::{Format, Listing, Shape, Subject};
use crate::later::front_kind;
use crate::library::{front_contents, is_either};
use crate::naming::show_names;
use crate::output::send;
use crate::padding::after_module;
use crate::position::Position;
use crate::value::{put_name, put_quoted};
use crate::verdict::{put_count, put_gap, show_verdict};
use omf_frame::{Sink, is_header};
use omf_host::put_decimal;
use omf_library::{Span, SpanFault, read_header, spans_in};
use std::alloc::{AllocError, Global};

/// The names of the columns of comma-separated values.
fn columns(subject: Subject) -> &'static [u8]
    ensures { result.now ≡ columns subject }
{
    match subject {
        Subject::Verdicts => {
            b"file,member,name,records,bytes,refused,reason,record,at,within,fault\n"
        }
        Subject::Names(_) => {
            b"file,member,name,kind,local,segment,frame,offset,symbol,refused,reason,record,at,within,fault\n"
        }
    }
}

/// The line before those of all inputs: the names of the columns of comma-separated values.
pub(crate) fn header_line(listing: Listing) -> &'static [u8]
    ensures { result.now ≡ header_line listing.shape listing.subject }
{
    match listing.shape {
        Shape::Text => b"",
        Shape::Json => b"",
        Shape::Csv => columns(listing.subject),
    }
}

/// Begins a line with the file's name.
fn put_file(text: &mut Vec<u8>, shape: Shape, file: &[u8]) -> Result<(), AllocError>
    ensures { AddsText result text.old.items text.new.items (file_head shape file.now) }
{
    match shape {
        Shape::Text => {
            put_name(text, Format::Text, file)?;
            text.extend_from_slice(b": ")
        }
        Shape::Json => {
            text.extend_from_slice(b"{\"file\":")?;
            put_quoted(text, Format::Json, file)
        }
        Shape::Csv => put_csv_quoted(text, file),
    }
}

/// The name of the module that these bytes begin with.
fn put_member_name(text: &mut Vec<u8>, format: Format, bytes: &[u8]) -> Result<(), AllocError>
    ensures { AddsText result text.old.items text.new.items (name_beside format (member_name bytes.now)) }
{
    let Some((name, _)) = counted(front_contents(bytes)) else {
        return Ok(());
    };
    match format {
        Format::Text => text.push(b' ')?,
        Format::Json => text.extend_from_slice(b",\"name\":")?,
    }
    put_quoted(text, format, name)
}

/// The same as a cell.
fn put_member_cell(text: &mut Vec<u8>, bytes: &[u8]) -> Result<(), AllocError>
    ensures { AddsText result text.old.items text.new.items (csv_name (member_name bytes.now)) }
{
    match counted(front_contents(bytes)) {
        Some((name, _)) => put_csv_quoted(text, name),
        None => Ok(()),
    }
}

/// The number and the name of the module that these bytes begin with, after the word for it.
fn put_numbered(
    text: &mut Vec<u8>,
    shape: Shape,
    word: &str,
    number: u64,
    bytes: &[u8],
) -> Result<(), AllocError>
    ensures { AddsText result text.old.items text.new.items (numbered_head shape word.now number bytes.now) }
{
    match shape {
        Shape::Text => {
            text.extend_from_slice(word.as_bytes())?;
            put_count(text, b" ", number)?;
            put_member_name(text, Format::Text, bytes)?;
            text.extend_from_slice(b": ")
        }
        Shape::Json => {
            text.extend_from_slice(b",\"")?;
            text.extend_from_slice(word.as_bytes())?;
            put_count(text, b"\":", number)?;
            put_member_name(text, Format::Json, bytes)
        }
        Shape::Csv => {
            put_count(text, b",", number)?;
            text.push(b',')?;
            put_member_cell(text, bytes)
        }
    }
}

/// The same of the only module of a file: these cells are empty.
fn put_lone(text: &mut Vec<u8>, shape: Shape) -> Result<(), AllocError>
    ensures { AddsText result text.old.items text.new.items (lone_head shape) }
{
    match shape {
        Shape::Text => Ok(()),
        Shape::Json => Ok(()),
        Shape::Csv => text.extend_from_slice(b",,"),
    }
}

/// Where the module that these bytes begin with is in its file, with its name if it is not the only one.
fn put_position(
    text: &mut Vec<u8>,
    shape: Shape,
    position: Position,
    bytes: &[u8],
) -> Result<(), AllocError>
    ensures { AddsText result text.old.items text.new.items (position_head shape position bytes.now) }
{
    match position {
        Position::Alone => put_lone(text, shape),
        Position::Member(number) => put_numbered(text, shape, "member", number, bytes),
        Position::Module(number) => put_numbered(text, shape, "module", number, bytes),
    }
}

/// The head of a line of the module that these bytes begin with, after the file's.
fn line_head(
    alloc: Global,
    shape: Shape,
    head: &[u8],
    position: Position,
    bytes: &[u8],
) -> Result<Vec<u8>, AllocError>
    ensures { IfOk result (λ v. v.items ≡ head.now ++ position_head shape position bytes.now) }
{
    let mut text = Vec::new(alloc);
    text.extend_from_slice(head)?;
    put_position(&mut text, shape, position, bytes)?;
    Ok(text)
}

/// Writes the lines of bytes as a module, after this head. Returns whether they are refused.
fn show_as<K: Sink>(
    writer: &mut K,
    subject: Subject,
    listing: Listing,
    head: Vec<u8>,
    bytes: &[u8],
) -> Result<bool, DumpFault>
    ensures { IfOk result (λ is_refused. Shows (K.seen writer.old).bytes (K.seen writer.new).bytes (IsListedAs subject listing head.items bytes.now is_refused)) }
{
    match subject {
        Subject::Verdicts => show_verdict(writer, listing, head, bytes),
        Subject::Names(which) => show_names(writer, listing, which, head, bytes),
    }
}

/// Writes the lines of the module that these bytes begin with. Returns whether it is refused.
fn show_at<K: Sink>(
    writer: &mut K,
    listing: Listing,
    head: &Vec<u8>,
    position: Position,
    bytes: &[u8],
) -> Result<bool, DumpFault>
    ensures { IfOk result (λ is_refused. Shows (K.seen writer.old).bytes (K.seen writer.new).bytes (IsListed listing (head.now.items ++ position_head listing.shape position bytes.now) bytes.now is_refused)) }
{
    let Ok(own) = line_head(*head.allocator(), listing.shape, head, position, bytes) else {
        return Err(DumpFault::Memory);
    };
    let is_refused = show_as(writer, listing.subject, listing, own, bytes)?;
    Ok(is_refused)
}

/// Writes the lines of members. Returns whether one of them is refused.
fn show_members<K: Sink>(
    writer: &mut K,
    listing: Listing,
    head: &Vec<u8>,
    members: &[Span<'_>],
) -> Result<bool, DumpFault>
    ensures { IfOk result (λ is_refused. Shows (K.seen writer.old).bytes (K.seen writer.new).bytes (AreListed listing head.now.items 0 members.now is_refused)) }
{
    let mut is_refused = false;
    let mut number: u64 = 0;
    let mut rest = members;
    while let [member, others @ ..] = rest {
        let position = Position::Member(number);
        let is_faulty = show_at(writer, listing, head, position, member.bytes)?;
        is_refused = is_either(is_refused, is_faulty);
        number += 1;
        rest = others;
    }
    Ok(is_refused)
}

/// The name of what is there in place of a member.
fn fault_name(fault: SpanFault) -> &'static str
    ensures { result.now ≡ fault_name fault }
{
    match fault {
        SpanFault::NoMember { .. } => "NoMember",
        SpanFault::MemberCut { .. } => "MemberCut",
        SpanFault::NoEnd { .. } => "NoEnd",
    }
}

/// The number of members before a fault, and its offset.
fn fault_spot(fault: SpanFault) -> (usize, usize)
    ensures { result ≡ fault_spot fault }
{
    match fault {
        SpanFault::NoMember { offset, member } => (member, offset),
        SpanFault::MemberCut { offset, member } => (member, offset),
        SpanFault::NoEnd { offset, member } => (member, offset),
    }
}

/// The end of the line of what is there in place of a member, as a text.
fn put_fault_words(text: &mut Vec<u8>, fault: SpanFault) -> Result<(), AllocError>
    ensures { AddsText result text.old.items text.new.items (fault_words fault) }
{
    let (member, offset) = fault_spot(fault);
    text.extend_from_slice(b"fault ")?;
    text.extend_from_slice(fault_name(fault).as_bytes())?;
    put_count(text, b" member ", member as u64)?;
    put_count(text, b" at ", offset as u64)?;
    text.extend_from_slice(b"\n")
}

/// The end of the object of what is there in place of a member.
fn put_fault_object(text: &mut Vec<u8>, fault: SpanFault) -> Result<(), AllocError>
    ensures { AddsText result text.old.items text.new.items (fault_object fault) }
{
    let (member, offset) = fault_spot(fault);
    text.extend_from_slice(b",\"fault\":\"")?;
    text.extend_from_slice(fault_name(fault).as_bytes())?;
    put_count(text, b"\",\"member\":", member as u64)?;
    put_count(text, b",\"at\":", offset as u64)?;
    text.extend_from_slice(b"}\n")
}

/// The cells of what is there in place of a member.
fn put_fault_cells(text: &mut Vec<u8>, subject: Subject, fault: SpanFault) -> Result<(), AllocError>
    ensures { AddsText result text.old.items text.new.items (fault_cells subject fault) }
{
    let (member, offset) = fault_spot(fault);
    put_count(text, b",", member as u64)?;
    text.push(b',')?;
    put_gap(text, subject, Shape::Csv)?;
    put_count(text, b",,,,", offset as u64)?;
    text.extend_from_slice(b",,")?;
    text.extend_from_slice(fault_name(fault).as_bytes())?;
    text.extend_from_slice(b"\n")
}

/// The end of the line of what is there in place of a member.
fn put_fault(
    text: &mut Vec<u8>,
    subject: Subject,
    shape: Shape,
    fault: SpanFault,
) -> Result<(), AllocError>
    ensures { AddsText result text.old.items text.new.items (fault_text subject shape fault) }
{
    match shape {
        Shape::Text => put_fault_words(text, fault),
        Shape::Json => put_fault_object(text, fault),
        Shape::Csv => put_fault_cells(text, subject, fault),
    }
}

/// Writes the line of what is there in place of a member, if it is no F1H. Returns whether it is a fault.
fn show_end<K: Sink>(
    writer: &mut K,
    listing: Listing,
    head: Vec<u8>,
    end: Result<usize, SpanFault>,
) -> Result<bool, DumpFault>
    ensures { IfOk result (λ is_faulty. Shows (K.seen writer.old).bytes (K.seen writer.new).bytes (IsEndListed listing head.items end is_faulty)) }
{
    let Err(fault) = end else {
        send(writer, &[])?;
        return Ok(false);
    };
    let mut text = head;
    let Ok(()) = put_fault(&mut text, listing.subject, listing.shape, fault) else {
        return Err(DumpFault::Memory);
    };
    send(writer, &text)?;
    Ok(true)
}

/// Writes the lines of a library with pages of `page` bytes. Returns whether it is refused.
fn show_library<K: Sink>(
    writer: &mut K,
    listing: Listing,
    head: Vec<u8>,
    page: usize,
    bytes: &[u8],
) -> Result<bool, DumpFault>
    requires page { page ≡ page_size bytes.now }
    requires header { HasHeader bytes.now }
    requires small { page < 65539 }
    ensures { IfOk result (λ is_refused. Shows (K.seen writer.old).bytes (K.seen writer.new).bytes (IsLibraryListed listing head.items bytes.now is_refused)) }
{
    let Ok(spans) = spans_in(*head.allocator(), bytes, page) else {
        return Err(DumpFault::Memory);
    };
    let has_refused = show_members(writer, listing, &head, &spans.members)?;
    let is_faulty = show_end(writer, listing, head, spans.end)?;
    Ok(is_either(has_refused, is_faulty))
}

/// The head of each line of a file.
fn file_head(alloc: Global, shape: Shape, file: &[u8]) -> Result<Vec<u8>, AllocError>
    ensures { IfOk result (λ v. v.items ≡ file_head shape file.now) }
{
    let mut text = Vec::new(alloc);
    put_file(&mut text, shape, file)?;
    Ok(text)
}

/// Where the first module of a file is in it, by what follows that and its padding.
fn first_position(rest: &[u8]) -> Position
    ensures { result ≡ first_position rest.now }
{
    if is_header(front_kind(rest)) {
        Position::Module(0)
    } else {
        Position::Alone
    }
}

/// Writes the lines of a file that is no library: those of the module that it begins with, and of the modules that follow. Returns whether one of them is
/// refused.
fn show_modules<K: Sink>(
    writer: &mut K,
    listing: Listing,
    head: &Vec<u8>,
    bytes: &[u8],
) -> Result<bool, DumpFault>
    ensures { IfOk result (λ is_refused. Shows (K.seen writer.old).bytes (K.seen writer.new).bytes (AreModulesListed listing head.now.items bytes.now is_refused)) }
{
    let mut rest = after_module(bytes);
    let mut is_refused = show_at(writer, listing, head, first_position(rest), bytes)?;
    let mut number: u64 = 1;
    while is_header(front_kind(rest)) {
        let position = Position::Module(number);
        let is_faulty = show_at(writer, listing, head, position, rest)?;
        is_refused = is_either(is_refused, is_faulty);
        number += 1;
        rest = after_module(rest);
    }
    Ok(is_refused)
}

/// Writes the list of a file: the lines of each member of a library, or else those of each module. Returns whether something is refused.
///
/// # Errors
///
/// `Memory` if memory ran out, `Write` if the writer failed.
pub(crate) fn list_input<K: Sink>(
    alloc: Global,
    writer: &mut K,
    listing: Listing,
    file: &[u8],
    input: &[u8],
) -> Result<bool, DumpFault>
    ensures { IfOk result (λ is_refused. IsInputListed listing file.now input.now is_refused (K.seen writer.old).bytes (K.seen writer.new).bytes) }
{
    let Ok(head) = file_head(alloc, listing.shape, file) else {
        return Err(DumpFault::Memory);
    };
    match read_header(input) {
        Ok(header) => {
            let is_refused = show_library(writer, listing, head, header.page as usize, input)?;
            Ok(is_refused)
        }
        Err(_) => {
            let is_refused = show_modules(writer, listing, &head, input)?;
            Ok(is_refused)
        }
    }
}

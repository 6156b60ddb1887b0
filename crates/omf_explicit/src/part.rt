//! The subrecords of a FIXUPP and the contents of a MODEND, with frame numbers (TIS OMF 1.1, "FIXUPP", "MODEND").

ghost use Rattle.std.specs.Prelude.{◌≡◌, ◌+◌, ◌<◌, ◌≤◌, not, length, drop, IfOk};
ghost use Rattle.omf_frame.specs.Bytes.{has_bit};
ghost use Rattle.omf_records.specs.Inner.Reads.{or_none};
ghost use Rattle.omf_records.specs.Inner.Readers.{ends_read};
ghost use Rattle.omf_records.specs.Values.{thread_method};
ghost use Rattle.omf_explicit.specs.Explicit.{parts_of, placed};
ghost use Rattle.omf_explicit.specs.Layouts.{frame_follows, target_follows};
ghost use Rattle.omf_explicit.specs.Inner.Readers.{fixupp_whole, datum_reader, datum_if_reader, displacement_reader, part_reader, read_to, reference_if_reader, reference_reader, start_whole};

use crate::fields::{byte_at, fault_at, head_at, index_at, number_at, word_at};
use crate::record::{Front, is_changed, is_end};
use omf_frame::{Index, Reason};
use omf_records::{At, LayoutFault};
use std::alloc::{AllocError, Global};

/// What names a frame or a target: an index, or the number of a frame.
#[derive(Clone, Copy, Drop)]
pub enum Datum {
    Index(u16),
    Number(u16),
}

/// The reference of a FIXUP, or of a MODEND: the fix data byte, the datum of the frame, the datum of the target, and the displacement.
#[derive(Clone, Copy, Drop)]
pub struct Reference {
    pub fix: u8,
    pub frame: Option<Datum>,
    pub target: Option<Datum>,
    pub displacement: Option<u32>,
}

/// A THREAD with its first byte, a FIXUP with its first two bytes, or the contents of a MODEND with their first byte.
#[derive(Clone, Copy, Drop)]
pub enum Part {
    Thread {
        first: u8,
        datum: Option<Datum>,
    },
    Fixup {
        location: u16,
        reference: Reference,
    },
    Start {
        first: u8,
        reference: Option<Reference>,
    },
}

/// The datum of a method at a position, and the position after it.
fn datum_at(body: &[u8], method: u8, pos: usize) -> Result<(Datum, usize), LayoutFault>
    requires { (pos ≤ length body.now) × (length body.now ≤ 65534) }
    ensures read { read_to body.now result ≡ (datum_reader method).read (3 + pos) (drop pos body.now) }
    ensures bound { IfOk result (λ r. (pos < r.1) × (r.1 ≤ length body.now)) }
{
    if method == 3 {
        let (number, end) = word_at(body, pos)?;
        return Ok((Datum::Number(number), end));
    }
    let (Index(index), end) = index_at(body, pos)?;
    Ok((Datum::Index(index), end))
}

/// The datum of a method at a position, if there is one, and the position after it.
fn datum_if(
    body: &[u8],
    is_there: bool,
    method: u8,
    pos: usize,
) -> Result<(Option<Datum>, usize), LayoutFault>
    requires { (pos ≤ length body.now) × (length body.now ≤ 65534) }
    ensures read { read_to body.now result ≡ (datum_if_reader is_there method).read (3 + pos) (drop pos body.now) }
    ensures bound { IfOk result (λ r. (pos ≤ r.1) × (r.1 ≤ length body.now)) }
{
    if !is_there {
        return Ok((None, pos));
    }
    let (datum, end) = datum_at(body, method, pos)?;
    Ok((Some(datum), end))
}

/// The displacement at a position, if there is one, and the position after it.
fn displacement_if(
    body: &[u8],
    wide: bool,
    is_there: bool,
    pos: usize,
) -> Result<(Option<u32>, usize), LayoutFault>
    requires { (pos ≤ length body.now) × (length body.now ≤ 65534) }
    ensures read { read_to body.now result ≡ (displacement_reader wide is_there).read (3 + pos) (drop pos body.now) }
    ensures bound { IfOk result (λ r. (pos ≤ r.1) × (r.1 ≤ length body.now)) }
{
    if !is_there {
        return Ok((None, pos));
    }
    let (value, end) = number_at(body, wide, pos)?;
    Ok((Some(value), end))
}

/// Whether a frame's datum follows a fix data byte.
fn frame_follows(fix: u8) -> bool
    ensures { result ≡ frame_follows fix }
{
    fix / 128 % 2 == 0 && fix / 16 % 8 < 4
}

/// Whether a target's datum follows a fix data byte.
fn target_follows(fix: u8) -> bool
    ensures { result ≡ target_follows fix }
{
    fix / 8 % 2 == 0
}

/// Whether a displacement follows a fix data byte.
fn displacement_follows(fix: u8) -> bool
    ensures { result ≡ not (has_bit fix 2) }
{
    fix / 4 % 2 == 0
}

/// The reference at a position, and the position after it.
fn reference_at(body: &[u8], wide: bool, pos: usize) -> Result<(Reference, usize), LayoutFault>
    requires { (pos ≤ length body.now) × (length body.now ≤ 65534) }
    ensures read { read_to body.now result ≡ (reference_reader wide).read (3 + pos) (drop pos body.now) }
    ensures bound { IfOk result (λ r. (pos < r.1) × (r.1 ≤ length body.now)) }
{
    let (fix, pos) = byte_at(body, pos)?;
    let (frame, pos) = datum_if(body, frame_follows(fix), fix / 16 % 8, pos)?;
    let (target, pos) = datum_if(body, target_follows(fix), fix % 4, pos)?;
    let (displacement, pos) = displacement_if(body, wide, displacement_follows(fix), pos)?;
    Ok((
        Reference {
            fix,
            frame,
            target,
            displacement,
        },
        pos,
    ))
}

/// The reference at a position, if there is one, and the position after it.
fn reference_if(
    body: &[u8],
    wide: bool,
    is_there: bool,
    pos: usize,
) -> Result<(Option<Reference>, usize), LayoutFault>
    requires { (pos ≤ length body.now) × (length body.now ≤ 65534) }
    ensures read { read_to body.now result ≡ (reference_if_reader wide is_there).read (3 + pos) (drop pos body.now) }
    ensures bound { IfOk result (λ r. (pos ≤ r.1) × (r.1 ≤ length body.now)) }
{
    if !is_there {
        return Ok((None, pos));
    }
    let (reference, end) = reference_at(body, wide, pos)?;
    Ok((Some(reference), end))
}

/// The method of a THREAD.
fn method_of(first: u8) -> u8
    ensures { result ≡ thread_method first }
{
    if first / 64 % 2 == 1 {
        first / 4 % 8
    } else {
        first / 4 % 4
    }
}

/// The THREAD or FIXUP at a position, and the position after it.
fn part_at(body: &[u8], wide: bool, pos: usize) -> Result<(Part, usize), LayoutFault>
    requires { (pos ≤ length body.now) × (length body.now ≤ 65534) }
    ensures read { read_to body.now result ≡ (part_reader wide).read (3 + pos) (drop pos body.now) }
    ensures bound { IfOk result (λ r. (pos < r.1) × (r.1 ≤ length body.now)) }
{
    let (head, pos) = head_at(body, pos)?;
    if head < 128 {
        let first = head as u8;
        let method = method_of(first);
        let (datum, pos) = datum_if(body, method < 4, method, pos)?;
        return Ok((Part::Thread { first, datum }, pos));
    }
    let (reference, pos) = reference_at(body, wide, pos)?;
    let location = head;
    Ok((
        Part::Fixup {
            location,
            reference,
        },
        pos,
    ))
}

/// The parts of a FIXUPP; none if its contents have a fault.
pub fn fixups_in(alloc: Global, body: &[u8], wide: bool) -> Result<Vec<At<Part>>, AllocError>
    requires { length body.now ≤ 65534 }
    ensures { IfOk result (λ v. v.items ≡ or_none ((fixupp_whole wide).read 3 body.now)) }
{
    let mut items = Vec::new(alloc);
    let mut pos = 0;
    while pos < body.len() {
        match part_at(body, wide, pos) {
            Ok((item, end)) => {
                let within = 3 + pos as u32;
                items.push(At { within, item })?;
                pos = end;
            }
            Err(_) => return Ok(Vec::new(alloc)),
        }
    }
    Ok(items)
}

/// A part, if the contents end at this position.
fn ended(body: &[u8], pos: usize, part: Part) -> Result<Part, LayoutFault>
    requires { (pos ≤ length body.now) × (length body.now ≤ 65534) }
    ensures { result ≡ ends_read part (3 + pos) (drop pos body.now) }
{
    if pos == body.len() {
        Ok(part)
    } else {
        Err(fault_at(pos, Reason::Long))
    }
}

/// The contents of a MODEND.
fn start_of(body: &[u8], wide: bool) -> Result<Part, LayoutFault>
    requires { length body.now ≤ 65534 }
    ensures { result ≡ (start_whole wide).read 3 body.now }
{
    let (first, pos) = byte_at(body, 0)?;
    let (reference, pos) = reference_if(body, wide, first / 64 % 2 == 1, pos)?;
    ended(body, pos, Part::Start { first, reference })
}

/// The one part of a MODEND; none if its contents have a fault.
pub fn start_in(alloc: Global, body: &[u8], wide: bool) -> Result<Vec<At<Part>>, AllocError>
    requires { length body.now ≤ 65534 }
    ensures { IfOk result (λ v. v.items ≡ placed ((start_whole wide).read 3 body.now)) }
{
    let mut items = Vec::new(alloc);
    match start_of(body, wide) {
        Ok(item) => items.push(At { within: 3, item })?,
        Err(_) => {}
    }
    Ok(items)
}

/// The parts of a FIXUPP or a MODEND that this profile does not read; of any other record none.
pub(crate) fn parts_of(alloc: Global, record: &Front<'_>) -> Result<Vec<At<Part>>, AllocError>
    ensures { IfOk result (λ v. v.items ≡ parts_of record.now) }
{
    if !is_changed(record) {
        return Ok(Vec::new(alloc));
    }
    let wide = record.kind % 2 == 1;
    if is_end(record.kind) {
        return start_in(alloc, record.body, wide);
    }
    fixups_in(alloc, record.body, wide)
}

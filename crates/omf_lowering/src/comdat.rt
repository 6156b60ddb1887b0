//! The contents of a COMDAT (TIS OMF 1.1, "COMDAT").

ghost use Rattle.std.specs.Prelude.{◌≡◌, ◌+◌, ◌<◌, ◌≤◌, ◌==◌, length, drop, IfOk};
ghost use Rattle.omf_records.specs.Inner.Readers.{number_at};
ghost use Rattle.omf_lowering.specs.Inner.Readers.{align_reader, attributes_reader, base_reader, comdat_whole, explicit_reader, frame_reader, read_to};
ghost use Rattle.omf_lowering.specs.Values.{is_continued, is_iterated, is_local};

use crate::fields::{byte_at, fault_at, index_at, number_at, placed_index_at};
use omf_frame::{Index, Reason};
use omf_records::{At, LayoutFault};
use std::marker::Model;

/// The base of a COMDAT with an explicit segment.
#[derive(Drop)]
pub(crate) struct Base {
    pub group: At<Index>,
    pub segment: At<Index>,
    /// A frame number, if the segment index is 0.
    pub frame: Option<u32>,
}

impl Model for Base {
    ghost use Rattle.omf_lowering.specs.Values.{BaseItem};

    ghost Value = { BaseItem };

    ghost view = { λ b. record { group = b.group; segment = b.segment; frame = b.frame } };
}

/// The contents of a COMDAT.
#[derive(Drop)]
pub(crate) struct Comdat<'a> {
    pub flags: u8,
    /// Selection in the high half, allocation in the low half.
    pub attributes: u8,
    /// An alignment as of a SEGDEF; 0 is that of the base.
    pub align: u8,
    pub offset: At<u32>,
    pub type_index: Index,
    pub base: Option<Base>,
    /// The index of its public name.
    pub name: At<Index>,
    /// Data, or blocks as of an LIDATA.
    pub bytes: &'a [u8],
}

impl<'a> Model for Comdat<'a> {
    ghost use Rattle.std.specs.Prelude.{◌<◌, ◌≤◌, length};
    ghost use Rattle.omf_lowering.specs.Values.{ComdatItem};

    ghost Value = { ComdatItem };

    ghost view = { λ c. record { flags = c.flags; attributes = c.attributes; align = c.align; offset = c.offset; type_index = c.type_index; base = c.base; name = c.name; bytes = c.bytes.now } };

    ghost invariant = { λ c. (c.align < 6) × (length c.bytes.now ≤ 65528) };
}

/// Whether the data continue a COMDAT before.
pub(crate) fn is_continued(flags: u8) -> bool
    ensures { result ≡ is_continued flags }
{
    flags % 2 == 1
}

/// Whether the data are blocks.
pub(crate) fn is_iterated(flags: u8) -> bool
    ensures { result ≡ is_iterated flags }
{
    flags / 2 % 2 == 1
}

/// Whether the name is local.
pub(crate) fn is_local(flags: u8) -> bool
    ensures { result ≡ is_local flags }
{
    flags / 4 % 2 == 1
}

/// The selection and the allocation at a position, and the position after them.
fn attributes_at(body: &[u8], pos: usize) -> Result<(u8, usize), LayoutFault>
    requires { (pos ≤ length body.now) × (length body.now ≤ 65534) }
    ensures read { read_to body.now result ≡ attributes_reader.read (3 + pos) (drop pos body.now) }
    ensures bound { IfOk result (λ r. (pos < r.1) × (r.1 ≤ length body.now)) }
{
    let (attributes, end) = byte_at(body, pos)?;
    if attributes / 16 < 4 && attributes % 16 < 5 {
        Ok((attributes, end))
    } else {
        Err(fault_at(pos, Reason::UnsupportedType))
    }
}

/// The alignment at a position, and the position after it.
fn align_at(body: &[u8], pos: usize) -> Result<(u8, usize), LayoutFault>
    requires { (pos ≤ length body.now) × (length body.now ≤ 65534) }
    ensures read { read_to body.now result ≡ align_reader.read (3 + pos) (drop pos body.now) }
    ensures bound { IfOk result (λ r. (pos < r.1) × (r.1 ≤ length body.now)) }
    ensures small { IfOk result (λ r. r.0 < 6) }
{
    let (align, end) = byte_at(body, pos)?;
    if align < 6 {
        Ok((align, end))
    } else {
        Err(fault_at(pos, Reason::Alignment))
    }
}

/// The number at a position with its offset in the record, and the position after it.
fn placed_number_at(body: &[u8], wide: bool, pos: usize) -> Result<(At<u32>, usize), LayoutFault>
    requires { (pos ≤ length body.now) × (length body.now ≤ 65534) }
    ensures read { read_to body.now result ≡ (number_at wide).read (3 + pos) (drop pos body.now) }
    ensures bound { IfOk result (λ r. (pos < r.1) × (r.1 ≤ length body.now)) }
{
    let (item, end) = number_at(body, wide, pos)?;
    let within = 3 + pos as u32;
    Ok((At { within, item }, end))
}

/// The frame number at a position, if the base has one, and the position after it.
fn frame_at(body: &[u8], absolute: bool, pos: usize) -> Result<(Option<u32>, usize), LayoutFault>
    requires { (pos ≤ length body.now) × (length body.now ≤ 65534) }
    ensures read { read_to body.now result ≡ (frame_reader absolute).read (3 + pos) (drop pos body.now) }
    ensures bound { IfOk result (λ r. (pos ≤ r.1) × (r.1 ≤ length body.now)) }
{
    if absolute {
        let (frame, end) = number_at(body, false, pos)?;
        Ok((Some(frame), end))
    } else {
        Ok((None, pos))
    }
}

/// The base at a position, and the position after it.
fn base_at(body: &[u8], pos: usize) -> Result<(Base, usize), LayoutFault>
    requires { (pos ≤ length body.now) × (length body.now ≤ 65534) }
    ensures read { read_to body.now result ≡ base_reader.read (3 + pos) (drop pos body.now) }
    ensures bound { IfOk result (λ r. (pos < r.1) × (r.1 ≤ length body.now)) }
{
    let (group, pos) = placed_index_at(body, pos)?;
    let (segment, pos) = placed_index_at(body, pos)?;
    let (frame, pos) = frame_at(body, segment.item.0 == 0, pos)?;
    Ok((
        Base {
            group,
            segment,
            frame,
        },
        pos,
    ))
}

/// The base at a position, if the COMDAT has one, and the position after it.
fn explicit_at(
    body: &[u8],
    explicit: bool,
    pos: usize,
) -> Result<(Option<Base>, usize), LayoutFault>
    requires { (pos ≤ length body.now) × (length body.now ≤ 65534) }
    ensures read { read_to body.now result ≡ (explicit_reader explicit).read (3 + pos) (drop pos body.now) }
    ensures bound { IfOk result (λ r. (pos ≤ r.1) × (r.1 ≤ length body.now)) }
{
    if explicit {
        let (base, end) = base_at(body, pos)?;
        Ok((Some(base), end))
    } else {
        Ok((None, pos))
    }
}

/// The contents of a COMDAT.
pub(crate) fn comdat_in<'a>(body: &'a [u8], wide: bool) -> Result<Comdat<'a>, LayoutFault>
    requires { length body.now ≤ 65534 }
    ensures { result ≡ (comdat_whole wide).read 3 body.entry.now }
{
    let (flags, pos) = byte_at(body, 0)?;
    let (attributes, pos) = attributes_at(body, pos)?;
    let (align, pos) = align_at(body, pos)?;
    let (offset, pos) = placed_number_at(body, wide, pos)?;
    let (type_index, pos) = index_at(body, pos)?;
    let (base, pos) = explicit_at(body, attributes % 16 == 0, pos)?;
    let (name, pos) = placed_index_at(body, pos)?;
    Ok(Comdat {
        flags,
        attributes,
        align,
        offset,
        type_index,
        base,
        name,
        bytes: body.split_at(pos).1,
    })
}

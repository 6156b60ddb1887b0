//! The entries of a COMDEF with Borland's data types (TIS OMF 1.1, "COMDEF").

ghost use Rattle.std.specs.Prelude.{◌≡◌, ◌+◌, ◌<◌, ◌≤◌, length, drop, IfOk};
ghost use Rattle.omf_explicit.specs.Inner.Readers.{read_to};
ghost use Rattle.omf_virtual.specs.Inner.Readers.{entry_reader};
ghost use Rattle.omf_virtual.specs.Virtual.{entries_of, is_segment};

use crate::fields::{length_at, length_if, name_at};
use omf_explicit::{byte_at, index_at};
use omf_frame::{Index, Name};
use omf_records::{At, LayoutFault};
use std::alloc::{AllocError, Global};
use std::marker::Model;

/// An entry of a COMDEF: its data type is 61H, far; 62H, near; or, from 01H to 5FH, the index of a segment. The count is of bytes or, in a far communal, of elements, whose
/// size is then in `element`.
#[derive(Drop)]
pub(crate) struct Entry<'a> {
    pub name: Name<'a>,
    pub type_index: Index,
    pub data_type: u8,
    pub count: u32,
    pub element: Option<u32>,
}

impl<'a> Model for Entry<'a> {
    ghost use Rattle.omf_virtual.specs.Values.{EntryItem};

    ghost Value = { EntryItem };

    ghost view = { λ e. record { name = e.name; type_index = e.type_index; data_type = e.data_type; count = e.count; element = e.element } };
}

/// Whether a data type is the index of a segment.
pub(crate) fn is_segment(data_type: u8) -> bool
    ensures { result ≡ is_segment data_type }
{
    0 < data_type && data_type < 0x60
}

/// The entry at a position, and the position after it.
fn entry_at<'a>(body: &'a [u8], pos: usize) -> Result<(Entry<'a>, usize), LayoutFault>
    requires { (pos ≤ length body.now) × (length body.now ≤ 65534) }
    ensures read { read_to body.entry.now result ≡ entry_reader.read (3 + pos) (drop pos body.entry.now) }
    ensures bound { IfOk result (λ r. (pos < r.1) × (r.1 ≤ length body.entry.now)) }
{
    let (name, pos) = name_at(body, pos)?;
    let (type_index, pos) = index_at(body, pos)?;
    let (data_type, pos) = byte_at(body, pos)?;
    let (count, pos) = length_at(body, pos)?;
    let (element, pos) = length_if(body, data_type == 0x61, pos)?;
    Ok((
        Entry {
            name,
            type_index,
            data_type,
            count,
            element,
        },
        pos,
    ))
}

/// The entries of a COMDEF; none if its contents have a fault.
pub(crate) fn entries_of<'a>(
    alloc: Global,
    body: &'a [u8],
) -> Result<Vec<At<Entry<'a>>>, AllocError>
    requires { length body.now ≤ 65534 }
    ensures { IfOk result (λ v. v.items ≡ entries_of body.entry.now) }
{
    let mut items = Vec::new(alloc);
    let mut pos = 0;
    while pos < body.len() {
        match entry_at(body, pos) {
            Ok((item, end)) => {
                let within = 3 + pos as u32;
                items.push(At { within, item })?;
                pos = end;
            }
            Err(_) => return Ok(Vec::new(alloc)),
        }
    }
    Ok(items)
}

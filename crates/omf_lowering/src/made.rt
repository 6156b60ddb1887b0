//! The records that replace a COMDAT (TIS OMF 1.1, "SEGDEF", "PUBDEF", "COMENT", "LEDATA").

ghost use Rattle.std.specs.Prelude.{◌≡◌, ◌<◌, ◌++◌, IfOk, OnOk};
ghost use Rattle.byteorder.specs.Endian.{little_bytes};
ghost use Rattle.omf_records.specs.Values.{width};
ghost use Rattle.omf_lowering.specs.Comdats.{attribute_of, data_kind, data_record, group_of, made, mark, pubdef, segdef};

use crate::comdat::{Base, is_continued, is_iterated};
use crate::instance::Resolved;
use crate::marks::mark_contents;
use crate::record::Record;
use omf_frame::{Field, Index, Le16, Le32};
use std::alloc::{AllocError, Global};

/// The attributes of a segment with an alignment, after a pattern; 0 is the alignment of the pattern.
fn attribute_of(align: u8, attribute: u8) -> u8
    requires { align < 6 }
    ensures { result ≡ attribute_of align attribute }
{
    let own = if align == 0 {
        attribute / 32 % 8
    } else {
        align
    };
    own * 32 + attribute / 4 % 8 * 4 + attribute % 2
}

/// The SEGDEF of a COMDAT.
fn segdef(alloc: Global, of: &Resolved<'_>) -> Result<Record, AllocError>
    ensures { IfOk result (λ r. r ≡ segdef of.now) }
{
    let mut body = Vec::new(alloc);
    body.push(attribute_of(of.item.align, of.pattern.attribute))?;
    Le32(of.end).put(&mut body)?;
    of.pattern.name.put(&mut body)?;
    of.pattern.class.put(&mut body)?;
    of.pattern.overlay.put(&mut body)?;
    Ok(Record::made(0x99, body))
}

/// The group of a base; 0 if there is none.
fn group_of(base: &Option<Base>) -> Index
    ensures { result ≡ group_of base.now }
{
    match base {
        Some(base) => base.group.item,
        None => Index(0),
    }
}

/// The PUBDEF of a COMDAT, or the LPUBDEF of one with a local name.
fn pubdef(alloc: Global, of: &Resolved<'_>) -> Result<Record, AllocError>
    ensures { IfOk result (λ r. r ≡ pubdef of.now) }
{
    let mut body = Vec::new(alloc);
    group_of(&of.item.base).put(&mut body)?;
    of.own.segment.put(&mut body)?;
    of.own.name.put(&mut body)?;
    Le32(0).put(&mut body)?;
    of.item.type_index.put(&mut body)?;
    let kind = if of.is_local { 0xB7 } else { 0x91 };
    Ok(Record::made(kind, body))
}

/// The COMENT that keeps how a linker selects among COMDATs of the name.
fn mark(alloc: Global, of: &Resolved<'_>) -> Result<Record, AllocError>
    ensures { IfOk result (λ r. r ≡ mark of.now) }
{
    let body = mark_contents(alloc, of.item.attributes / 16)?;
    Ok(Record::made(0x88, body))
}

/// Appends a number: 32 bits in a record of odd type, the low 16 in one of even type.
fn put_number(out: &mut Vec<u8>, kind: u8, value: u32) -> Result<(), AllocError>
    ensures { OnOk result (out.new.items ≡ out.old.items ++ little_bytes (width kind) value) }
{
    if kind % 2 == 1 {
        return Le32(value).put(out);
    }
    Le16((value % 0x1_0000) as u16).put(out)
}

/// The type byte of the data record of a COMDAT with this type byte and these flags.
fn data_kind(kind: u8, flags: u8) -> u8
    ensures { result ≡ data_kind kind flags }
{
    let even = if is_iterated(flags) { 0xA2 } else { 0xA0 };
    even + kind % 2
}

/// The LEDATA of a COMDAT of a record with this type byte, or the LIDATA of one with blocks.
fn data_record(alloc: Global, kind: u8, of: &Resolved<'_>) -> Result<Record, AllocError>
    ensures { IfOk result (λ r. r ≡ data_record kind of.now) }
{
    let mut body = Vec::new(alloc);
    of.own.segment.put(&mut body)?;
    put_number(&mut body, kind, of.item.offset.item)?;
    body.extend_from_slice(of.item.bytes)?;
    Ok(Record::made(data_kind(kind, of.item.flags), body))
}

/// The records that replace a COMDAT of a record with this type byte.
pub(crate) fn made(alloc: Global, kind: u8, of: &Resolved<'_>) -> Result<Vec<Record>, AllocError>
    ensures { IfOk result (λ v. v.items ≡ made kind of.now) }
{
    let mut records = Vec::new(alloc);
    if !is_continued(of.item.flags) {
        records.push(segdef(alloc, of)?)?;
        records.push(pubdef(alloc, of)?)?;
        records.push(mark(alloc, of)?)?;
    }
    records.push(data_record(alloc, kind, of)?)?;
    Ok(records)
}

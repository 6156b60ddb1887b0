//! The lines of a COMDAT: a LINSYM as a LINNUM (TIS OMF 1.1, "LINSYM", "LINNUM").

ghost use Rattle.std.specs.Prelude.{◌≡◌, ◌≤◌, IfNone, IfOk, IfSome, Some, None, length};
ghost use Rattle.omf_lowering.specs.Inner.Readers.{linsym_whole};
ghost use Rattle.omf_lowering.specs.Inner.State.{seen};
ghost use Rattle.omf_lowering.specs.Symbols.{is_linsym, line_bytes, lines_of, with_linnum};

use crate::fields::{byte_at, placed_index_at};
use crate::instance::segment_at;
use crate::instances::Instances;
use crate::record::{Front, Record};
use crate::tables::Tables;
use omf_frame::{Field, Index};
use omf_records::{At, LayoutFault};
use std::alloc::{AllocError, Global};
use std::marker::Model;

/// The most bytes of a record's contents.
const CONTENTS_LIMIT: usize = 65_534;

/// The contents of a LINSYM: the index of the name of a COMDAT, and its lines, as of a LINNUM.
#[derive(Drop)]
struct NamedLines<'a> {
    name: At<Index>,
    lines: &'a [u8],
}

impl<'a> Model for NamedLines<'a> {
    ghost use Rattle.omf_lowering.specs.Layouts.{NamedLines as Lines};

    ghost Value = { Lines };

    ghost view = { λ l. record { name = l.name; lines = l.lines.now } };
}

/// Whether a record is a LINSYM.
fn is_linsym(kind: u8) -> bool
    ensures { result ≡ is_linsym kind }
{
    matches!(kind, 0xC4 | 0xC5)
}

/// Reads the contents of a LINSYM.
fn linsym_in<'a>(body: &'a [u8]) -> Result<NamedLines<'a>, LayoutFault>
    requires { length body.now ≤ 65534 }
    ensures { result ≡ linsym_whole.read 3 body.entry.now }
{
    let (_, pos) = byte_at(body, 0)?;
    let (name, pos) = placed_index_at(body, pos)?;
    Ok(NamedLines {
        name,
        lines: &body[pos..],
    })
}

/// The contents of a LINNUM with these lines of a segment.
fn line_bytes(alloc: Global, segment: Index, lines: &[u8]) -> Result<Vec<u8>, AllocError>
    ensures { IfOk result (λ v. v.items ≡ line_bytes segment lines.now) }
{
    let mut body = Vec::new(alloc);
    Index(0).put(&mut body)?;
    segment.put(&mut body)?;
    body.extend_from_slice(lines)?;
    Ok(body)
}

/// The contents of the LINNUM in place of a LINSYM, by the COMDATs before it; none if there is no such LINNUM.
fn lines_of<'a>(
    alloc: Global,
    tables: &Tables<'a>,
    instances: &Instances<'a>,
    front: &Front<'_>,
) -> Result<Option<Vec<u8>>, AllocError>
    requires { length front.now.body.now ≤ 65534 }
    ensures some { IfOk result (λ found. IfSome found (λ v. (lines_of tables.now instances.now (seen front.now) ≡ Some v.items) × (length v.items ≤ 65534))) }
    ensures none { IfOk result (λ found. IfNone found (lines_of tables.now instances.now (seen front.now) ≡ None)) }
{
    if !is_linsym(front.kind) {
        return Ok(None);
    }
    let Ok(own) = linsym_in(front.body) else {
        return Ok(None);
    };
    let Ok(segment) = segment_at(tables, instances, &own.name) else {
        return Ok(None);
    };
    let body = line_bytes(alloc, segment, own.lines)?;
    if body.len() > CONTENTS_LIMIT {
        return Ok(None);
    }
    Ok(Some(body))
}

/// A record that is kept; in place of a LINSYM of a COMDAT before it, the LINNUM with its lines.
pub(crate) fn kept<'a>(
    alloc: Global,
    tables: &Tables<'a>,
    instances: &Instances<'a>,
    front: &Front<'_>,
) -> Result<Record, AllocError>
    requires { length front.now.body.now ≤ 65534 }
    ensures { IfOk result (λ r. r ≡ with_linnum tables.now instances.now (seen front.now)) }
{
    match lines_of(alloc, tables, instances, front)? {
        Some(body) => Ok(Record::made(0x94 + front.kind % 2, body)),
        None => Record::copied(alloc, front.kind, front.body, front.checksum),
    }
}

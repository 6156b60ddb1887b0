//! The records in place of a SEGDEF with A = 6 or 7.

ghost use Rattle.std.specs.Prelude.{◌≡◌, ◌≤◌, ◌++◌, IfNone, IfOk, IfSome, OnOk, false, flat_map, is_ok, length, true};
ghost use Rattle.omf_frame.specs.Framing.{raw_bytes};
ghost use Rattle.omf_records.specs.Inner.Reading.{read_body};
ghost use Rattle.omf_explicit.specs.Explicit.{is_segdef};
ghost use Rattle.omf_aligned.specs.Aligned.{alignment_of, block_comment, block_comments, is_changed, replacement, with_page, with_pages};

use omf_explicit::{Front, is_right, is_segdef, put_raw, put_record};
use omf_frame::{Field, Index, RawRecord};
use omf_records::view;
use std::alloc::{AllocError, Global};

/// The most segments of a module.
pub(crate) const SEGMENT_LIMIT: usize = 32_767;

/// A of a SEGDEF's contents.
pub(crate) fn alignment_of(body: &[u8]) -> u8
    ensures { result ≡ alignment_of body.now }
{
    match body {
        [attribute, ..] => *attribute / 32,
        [] => 0,
    }
}

/// A SEGDEF's contents with A = 4.
fn with_page(alloc: Global, body: &[u8]) -> Result<Vec<u8>, AllocError>
    ensures page { IfOk result (λ v. v.items ≡ with_page body.now) }
    ensures same { IfOk result (λ v. length v.items ≡ length body.now) }
{
    let mut page = Vec::new(alloc);
    if let [attribute, rest @ ..] = body {
        page.push(0x80 + *attribute % 32)?;
        page.extend_from_slice(rest)?;
    }
    Ok(page)
}

/// Whether this profile reads the contents of a SEGDEF.
fn is_read(kind: u8, body: &[u8]) -> bool
    requires segdef { is_segdef kind ≡ true }
    requires short { length body.now ≤ 65534 }
    ensures { result ≡ is_ok (read_body kind body.now) }
{
    let raw = RawRecord {
        kind,
        body,
        number: 0,
        start: 0,
    };
    match view(raw) {
        Ok(_) => true,
        Err(_) => false,
    }
}

/// The contents with A = 4, if the record is a SEGDEF that is changed.
pub(crate) fn page_of(alloc: Global, record: &Front<'_>) -> Result<Option<Vec<u8>>, AllocError>
    ensures some { IfOk result (λ found. IfSome found (λ v. (is_changed record.now ≡ true) × (v.items ≡ with_page record.now.body))) }
    ensures none { IfOk result (λ found. IfNone found (is_changed record.now ≡ false)) }
{
    if !is_segdef(record.kind) || alignment_of(record.body) < 6 || !is_right(record) {
        return Ok(None);
    }
    let page = with_page(alloc, record.body)?;
    if is_read(record.kind, &page) {
        Ok(Some(page))
    } else {
        Ok(None)
    }
}

/// Appends the comment that the segment with this index is at a multiple of 4,096 bytes. An index of a module's segment can be written, so that no error but of memory is met.
fn put_comment(alloc: Global, out: &mut Vec<u8>, index: usize) -> Result<(), AllocError>
    ensures { OnOk result (out.new.items ≡ out.old.items ++ raw_bytes (block_comment index)) }
{
    if index > SEGMENT_LIMIT {
        return Err(AllocError);
    }
    let mut body = Vec::new(alloc);
    body.push(0x00)?;
    body.push(0xDC)?;
    Index(index as u16).put(&mut body)?;
    put_record(out, 0x88, &body)
}

/// Appends the comment after a SEGDEF with this index, if there is one.
fn put_comments(
    alloc: Global,
    out: &mut Vec<u8>,
    record: &Front<'_>,
    index: usize,
) -> Result<(), AllocError>
    ensures { OnOk result (out.new.items ≡ out.old.items ++ flat_map raw_bytes (block_comments index record.now)) }
{
    if alignment_of(record.body) != 6 {
        return Ok(());
    }
    put_comment(alloc, out, index)
}

/// Appends what replaces a record.
fn put_replacement(
    alloc: Global,
    out: &mut Vec<u8>,
    record: &Front<'_>,
    index: usize,
) -> Result<(), AllocError>
    ensures { OnOk result (out.new.items ≡ out.old.items ++ flat_map raw_bytes (replacement index record.now)) }
{
    match page_of(alloc, record)? {
        Some(page) => {
            put_record(out, record.kind, &page)?;
            put_comments(alloc, out, record, index)
        }
        None => put_raw(out, record.kind, record.body, record.checksum),
    }
}

/// The bytes of records with each replaced.
pub(crate) fn written(alloc: Global, records: &[Front<'_>]) -> Result<Vec<u8>, AllocError>
    ensures { IfOk result (λ v. v.items ≡ flat_map raw_bytes (with_pages records.now)) }
{
    let mut out = Vec::new(alloc);
    let mut index = 1;
    for record in records {
        put_replacement(alloc, &mut out, record, index)?;
        if is_segdef(record.kind) {
            index += 1;
        }
    }
    Ok(out)
}

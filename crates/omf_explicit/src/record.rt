//! The records of a module.

ghost use Rattle.std.specs.Prelude.{◌≡◌, ◌<◌, ◌++◌, ◌||◌, length, IfSome, IfNone, IfOk, true, false};
ghost use Rattle.omf_frame.specs.Framing.{after_front, front_record, is_end, raw_bytes};
ghost use Rattle.omf_explicit.specs.Explicit.{has_record, is_changed, is_fixupp, is_read, is_right, is_segdef};
ghost use Rattle.omf_explicit.specs.Modules.{HasNoModule, IsModule};

use omf_frame::{RawRecord, checksum};
use omf_records::view;
use std::alloc::{AllocError, Global};
use std::marker::Model;

/// A record: its type byte, its contents and its checksum byte.
#[derive(Drop)]
pub struct Front<'a> {
    pub kind: u8,
    pub body: &'a [u8],
    pub checksum: u8,
}

impl<'a> Model for Front<'a> {
    ghost use Rattle.std.specs.Prelude.{◌≤◌, length};
    ghost use Rattle.omf_frame.specs.Framing.{Raw};

    ghost Value = { Raw };

    ghost view = { λ f. record { kind = f.kind; body = f.body.now; checksum = f.checksum } };

    ghost invariant = { λ f. length f.body.now ≤ 65534 };
}

/// Whether a record of this type ends a module.
pub fn is_end(kind: u8) -> bool
    ensures { result ≡ is_end kind }
{
    matches!(kind, 0x8A | 0x8B)
}

/// Whether a record of this type has fixups.
pub fn is_fixupp(kind: u8) -> bool
    ensures { result ≡ is_fixupp kind }
{
    matches!(kind, 0x9C | 0x9D)
}

/// Whether a record of this type defines a segment.
pub fn is_segdef(kind: u8) -> bool
    ensures { result ≡ is_segdef kind }
{
    matches!(kind, 0x98 | 0x99)
}

/// Whether the checksum byte is 0 or makes the sum of the bytes 0 modulo 256.
pub fn is_right(record: &Front<'_>) -> bool
    ensures { result ≡ is_right record.now }
{
    record.checksum == 0 || record.checksum == checksum(record.kind, record.body)
}

/// Whether a FIXUPP or MODEND is one that this profile reads.
fn is_read(record: &Front<'_>) -> bool
    requires { (is_fixupp record.now.kind || is_end record.now.kind) ≡ true }
    ensures { result ≡ is_read record.now }
{
    let raw = RawRecord {
        kind: record.kind,
        body: record.body,
        number: 0,
        start: 0,
    };
    match view(raw) {
        Ok(_) => true,
        Err(_) => false,
    }
}

/// Whether a record is a FIXUPP or MODEND, with a right checksum byte, that this profile does not read.
pub(crate) fn is_changed(record: &Front<'_>) -> bool
    ensures { result ≡ is_changed record.now }
{
    if !is_fixupp(record.kind) && !is_end(record.kind) {
        return false;
    }
    is_right(record) && !is_read(record)
}

/// The record at the front of the bytes, and the bytes after it; none if they begin with no whole record.
fn whole_front<'a>(bytes: &'a [u8]) -> Option<(Front<'a>, &'a [u8])>
    ensures whole { IfSome result (λ r. has_record bytes.entry.now ≡ true) }
    ensures kind { IfSome result (λ r. r.0.kind ≡ (front_record bytes.entry.now).kind) }
    ensures body { IfSome result (λ r. r.0.body ≡ (front_record bytes.entry.now).body) }
    ensures sum { IfSome result (λ r. r.0.checksum ≡ (front_record bytes.entry.now).checksum) }
    ensures rest { IfSome result (λ r. r.1.now ≡ after_front bytes.entry.now) }
    ensures none { IfNone result (has_record bytes.entry.now ≡ false) }
{
    match bytes {
        [kind, low, high, rest @ ..] => {
            let size = usize::from(*low) + 256 * usize::from(*high);
            if size == 0 {
                return None;
            }
            if rest.len() < size {
                return None;
            }
            let (contents, after) = rest.split_at(size);
            let front = Front {
                kind: *kind,
                body: &contents[..size - 1],
                checksum: contents[size - 1],
            };
            Some((front, after))
        }
        _ => None,
    }
}

/// The record at the front of the bytes, and the bytes after it; none if they begin with no whole record.
pub(crate) fn front_of<'a>(bytes: &'a [u8]) -> Option<(Front<'a>, &'a [u8])>
    ensures spelled { IfSome result (λ r. bytes.entry.now ≡ raw_bytes r.0 ++ r.1.now) }
    ensures short { IfSome result (λ r. length r.0.body < 65535) }
    ensures none { IfNone result (has_record bytes.entry.now ≡ false) }
{
    match whole_front(bytes) {
        Some((record, after)) => Some((record, after)),
        None => None,
    }
}

/// The records of a module, and the bytes after it.
#[derive(Drop)]
pub struct Records<'a> {
    pub records: Vec<Front<'a>>,
    pub rest: &'a [u8],
}

/// The records of the module that the bytes begin with; none if no MODEND is among the whole records at their front.
pub fn module_of<'a>(alloc: Global, bytes: &'a [u8]) -> Result<Option<Records<'a>>, AllocError>
    ensures some { IfOk result (λ found. IfSome found (λ m. IsModule bytes.entry.now m.records.items m.rest.now)) }
    ensures none { IfOk result (λ found. IfNone found (HasNoModule bytes.entry.now)) }
{
    let mut records = Vec::new(alloc);
    let mut rest = bytes;
    while let Some((record, after)) = front_of(rest) {
        let ends = is_end(record.kind);
        records.push(record)?;
        rest = after;
        if ends {
            return Ok(Some(Records { records, rest }));
        }
    }
    Ok(None)
}

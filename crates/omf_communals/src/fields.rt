//! The fields of a record's contents, at a position.

ghost use Rattle.std.specs.Prelude.{◌≡◌, ◌+◌, ◌<◌, ◌≤◌, length, drop, IfOk};
ghost use Rattle.omf_frame.specs.Bytes.{is_one_of};
ghost use Rattle.omf_records.specs.Inner.FieldReaders.{byte_read, index_read, length_read, name_read};
ghost use Rattle.omf_records.specs.Layout.{fault, length_reason};
ghost use Rattle.omf_communals.specs.Inner.Readers.{code_reader, read_to};

use omf_frame::{CommunalLength, Field, Index, Name, Reason};
use omf_records::LayoutFault;

/// A fault at a position in the contents. Contents begin at offset 3 of their record.
pub(crate) fn fault_at(pos: usize, reason: Reason) -> LayoutFault
    requires { pos < 65536 }
    ensures { result ≡ fault (3 + pos) reason }
{
    LayoutFault {
        reason,
        within: 3 + pos as u32,
    }
}

/// The name at a position, and the position after it.
pub(crate) fn name_at<'a>(body: &'a [u8], pos: usize) -> Result<(Name<'a>, usize), LayoutFault>
    requires { (pos ≤ length body.now) × (length body.now ≤ 65534) }
    ensures read { read_to body.entry.now result ≡ name_read (3 + pos) (drop pos body.entry.now) }
    ensures bound { IfOk result (λ r. (pos < r.1) × (r.1 ≤ length body.entry.now)) }
{
    match Name::read_at(body, pos) {
        Some(found) => Ok(found),
        None => Err(fault_at(pos, Reason::Short)),
    }
}

/// The index at a position, and the position after it.
pub(crate) fn index_at(body: &[u8], pos: usize) -> Result<(Index, usize), LayoutFault>
    requires { (pos ≤ length body.now) × (length body.now ≤ 65534) }
    ensures read { read_to body.now result ≡ index_read (3 + pos) (drop pos body.now) }
    ensures bound { IfOk result (λ r. (pos < r.1) × (r.1 ≤ length body.now)) }
{
    match Index::read_at(body, pos) {
        Some(found) => Ok(found),
        None => Err(fault_at(pos, Reason::Short)),
    }
}

/// The reason why bytes begin with no communal length.
fn length_reason(bytes: &[u8]) -> Reason
    ensures { result ≡ length_reason bytes.now }
{
    match bytes {
        [] | [0..=128 | 0x81 | 0x84 | 0x88, ..] => Reason::Short,
        _ => Reason::CommunalLength,
    }
}

/// The communal length at a position, and the position after it.
pub(crate) fn length_at(body: &[u8], pos: usize) -> Result<(u32, usize), LayoutFault>
    requires { (pos ≤ length body.now) × (length body.now ≤ 65534) }
    ensures read { read_to body.now result ≡ length_read (3 + pos) (drop pos body.now) }
    ensures bound { IfOk result (λ r. (pos < r.1) × (r.1 ≤ length body.now)) }
{
    match CommunalLength::read_at(body, pos) {
        Some((CommunalLength(length), end)) => Ok((length, end)),
        None => {
            let (_, rest) = body.split_at(pos);
            Err(fault_at(pos, length_reason(rest)))
        }
    }
}

/// The byte at a position, and the position after it.
fn byte_at(body: &[u8], pos: usize) -> Result<(u8, usize), LayoutFault>
    requires { (pos ≤ length body.now) × (length body.now ≤ 65534) }
    ensures read { read_to body.now result ≡ byte_read (3 + pos) (drop pos body.now) }
    ensures bound { IfOk result (λ r. (pos < r.1) × (r.1 ≤ length body.now)) }
{
    if pos < body.len() {
        Ok((body[pos], pos + 1))
    } else {
        Err(fault_at(pos, Reason::Short))
    }
}

/// Whether a byte is one of these.
fn is_one_of(allowed: &[u8], code: u8) -> bool
    ensures { result ≡ is_one_of allowed.now code }
{
    allowed.iter().any(|one| *one == code)
}

/// The byte at a position, which must be one of these, and the position after it.
pub(crate) fn code_at(body: &[u8], pos: usize, allowed: &[u8]) -> Result<(u8, usize), LayoutFault>
    requires { (pos ≤ length body.now) × (length body.now ≤ 65534) }
    ensures read { read_to body.now result ≡ (code_reader allowed.now).read (3 + pos) (drop pos body.now) }
    ensures bound { IfOk result (λ r. (pos < r.1) × (r.1 ≤ length body.now)) }
{
    let (code, end) = byte_at(body, pos)?;
    if is_one_of(allowed, code) {
        Ok((code, end))
    } else {
        Err(fault_at(pos, Reason::CommunalType))
    }
}

//! The fields of a record's contents, at a position.

ghost use Rattle.std.specs.Prelude.{◌≡◌, ◌+◌, ◌<◌, ◌≤◌, length, drop, IfOk, true, false};
ghost use Rattle.omf_records.specs.Inner.FieldReaders.{byte_read, head_read, index_read, le_read, number_reader};
ghost use Rattle.omf_records.specs.Layout.{fault};
ghost use Rattle.omf_explicit.specs.Inner.Readers.{read_to};

use omf_frame::{Field, Index, Le16, Le32, Reason};
use omf_records::LayoutFault;

/// A fault at a position in the contents. Contents begin at offset 3 of their record.
pub fn fault_at(pos: usize, reason: Reason) -> LayoutFault
    requires { pos < 65536 }
    ensures { result ≡ fault (3 + pos) reason }
{
    LayoutFault {
        reason,
        within: 3 + pos as u32,
    }
}

/// The index at a position, and the position after it.
pub fn index_at(body: &[u8], pos: usize) -> Result<(Index, usize), LayoutFault>
    requires { (pos ≤ length body.now) × (length body.now ≤ 65534) }
    ensures read { read_to body.now result ≡ index_read (3 + pos) (drop pos body.now) }
    ensures bound { IfOk result (λ r. (pos < r.1) × (r.1 ≤ length body.now)) }
{
    match Index::read_at(body, pos) {
        Some(found) => Ok(found),
        None => Err(fault_at(pos, Reason::Short)),
    }
}

/// The byte at a position, and the position after it.
pub fn byte_at(body: &[u8], pos: usize) -> Result<(u8, usize), LayoutFault>
    requires { (pos ≤ length body.now) × (length body.now ≤ 65534) }
    ensures read { read_to body.now result ≡ byte_read (3 + pos) (drop pos body.now) }
    ensures bound { IfOk result (λ r. (pos < r.1) × (r.1 ≤ length body.now)) }
{
    if pos < body.len() {
        Ok((body[pos], pos + 1))
    } else {
        Err(fault_at(pos, Reason::Short))
    }
}

/// The first byte of a THREAD at a position, or the first two of a FIXUP, as one number; and the position after it.
pub(crate) fn head_at(body: &[u8], pos: usize) -> Result<(u16, usize), LayoutFault>
    requires { (pos ≤ length body.now) × (length body.now ≤ 65534) }
    ensures read { read_to body.now result ≡ head_read (3 + pos) (drop pos body.now) }
    ensures bound { IfOk result (λ r. (pos < r.1) × (r.1 ≤ length body.now)) }
{
    let (first, end) = byte_at(body, pos)?;
    if first < 128 {
        return Ok((u16::from(first), end));
    }
    match byte_at(body, end) {
        Ok((second, end)) => Ok((u16::from(first) * 256 + u16::from(second), end)),
        Err(_) => Err(fault_at(pos, Reason::Short)),
    }
}

/// The number of two bytes at a position, and the position after it.
pub(crate) fn word_at(body: &[u8], pos: usize) -> Result<(u16, usize), LayoutFault>
    requires { (pos ≤ length body.now) × (length body.now ≤ 65534) }
    ensures read { read_to body.now result ≡ le_read 2 (3 + pos) (drop pos body.now) }
    ensures bound { IfOk result (λ r. (pos < r.1) × (r.1 ≤ length body.now)) }
{
    match Le16::read_at(body, pos) {
        Some((Le16(value), end)) => Ok((value, end)),
        None => Err(fault_at(pos, Reason::Short)),
    }
}

/// The number of four bytes at a position, and the position after it.
fn dword_at(body: &[u8], pos: usize) -> Result<(u32, usize), LayoutFault>
    requires { (pos ≤ length body.now) × (length body.now ≤ 65534) }
    ensures read { read_to body.now result ≡ le_read 4 (3 + pos) (drop pos body.now) }
    ensures bound { IfOk result (λ r. (pos < r.1) × (r.1 ≤ length body.now)) }
{
    match Le32::read_at(body, pos) {
        Some((Le32(value), end)) => Ok((value, end)),
        None => Err(fault_at(pos, Reason::Short)),
    }
}

/// The number at a position in a record of odd type, 32 bits, or of even type, 16; and the position after it.
pub fn number_at(body: &[u8], wide: bool, pos: usize) -> Result<(u32, usize), LayoutFault>
    requires { (pos ≤ length body.now) × (length body.now ≤ 65534) }
    ensures read { read_to body.now result ≡ (number_reader wide).read (3 + pos) (drop pos body.now) }
    ensures bound { IfOk result (λ r. (pos < r.1) × (r.1 ≤ length body.now)) }
{
    if wide {
        return dword_at(body, pos);
    }
    let (value, end) = word_at(body, pos)?;
    Ok((u32::from(value), end))
}

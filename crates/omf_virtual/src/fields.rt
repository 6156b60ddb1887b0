//! The fields of a COMDEF, at a position.

ghost use Rattle.std.specs.Prelude.{◌≡◌, ◌+◌, ◌<◌, ◌≤◌, length, drop, IfOk};
ghost use Rattle.omf_records.specs.Inner.FieldReaders.{length_read, name_read};
ghost use Rattle.omf_records.specs.Layout.{length_reason};
ghost use Rattle.omf_explicit.specs.Inner.Readers.{read_to};
ghost use Rattle.omf_virtual.specs.Inner.Readers.{element_reader};

use omf_explicit::fault_at;
use omf_frame::{CommunalLength, Field, Name, Reason};
use omf_records::LayoutFault;

/// The name at a position, and the position after it.
pub(crate) fn name_at<'a>(body: &'a [u8], pos: usize) -> Result<(Name<'a>, usize), LayoutFault>
    requires { (pos ≤ length body.now) × (length body.now ≤ 65534) }
    ensures read { read_to body.entry.now result ≡ name_read (3 + pos) (drop pos body.entry.now) }
    ensures bound { IfOk result (λ r. (pos < r.1) × (r.1 ≤ length body.entry.now)) }
{
    match Name::read_at(body, pos) {
        Some(found) => Ok(found),
        None => Err(fault_at(pos, Reason::Short)),
    }
}

/// The reason why bytes begin with no communal length.
fn length_reason(bytes: &[u8]) -> Reason
    ensures { result ≡ length_reason bytes.now }
{
    match bytes {
        [] | [0..=128 | 0x81 | 0x84 | 0x88, ..] => Reason::Short,
        _ => Reason::CommunalLength,
    }
}

/// The communal length at a position, and the position after it.
pub(crate) fn length_at(body: &[u8], pos: usize) -> Result<(u32, usize), LayoutFault>
    requires { (pos ≤ length body.now) × (length body.now ≤ 65534) }
    ensures read { read_to body.now result ≡ length_read (3 + pos) (drop pos body.now) }
    ensures bound { IfOk result (λ r. (pos < r.1) × (r.1 ≤ length body.now)) }
{
    match CommunalLength::read_at(body, pos) {
        Some((CommunalLength(length), end)) => Ok((length, end)),
        None => {
            let (_, rest) = body.split_at(pos);
            Err(fault_at(pos, length_reason(rest)))
        }
    }
}

/// The communal length at a position, if there is one, and the position after it.
pub(crate) fn length_if(
    body: &[u8],
    is_there: bool,
    pos: usize,
) -> Result<(Option<u32>, usize), LayoutFault>
    requires { (pos ≤ length body.now) × (length body.now ≤ 65534) }
    ensures read { read_to body.now result ≡ (element_reader is_there).read (3 + pos) (drop pos body.now) }
    ensures bound { IfOk result (λ r. (pos ≤ r.1) × (r.1 ≤ length body.now)) }
{
    if !is_there {
        return Ok((None, pos));
    }
    let (length, end) = length_at(body, pos)?;
    Ok((Some(length), end))
}

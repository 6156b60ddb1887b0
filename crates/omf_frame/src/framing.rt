//! The record at the front of some bytes, and its framing fault.

ghost use Rattle.std.specs.Prelude.{◌≡◌, ◌≤◌, ◌+◌, ◌*◌, length};
ghost use Rattle.omf_frame.specs.Framing.{is_whole, record_len};
ghost use Rattle.omf_frame.specs.Inner.Judging.{type_fault, whole_fault};

use crate::fault::Reason;
use crate::kinds::{is_header, is_taken, is_unsupported};
use crate::sums::byte_sum;

/// The number of bytes after the two length bytes.
#[inline(always)]
fn stated(low: u8, high: u8) -> usize
    ensures same { result ≡ low + 256 * high }
    ensures bound { result ≤ 65535 }
{
    usize::from(u16::from_le_bytes([low, high]))
}

/// The size of a record in bytes, from its length bytes.
#[inline(always)]
pub fn len_of(low: u8, high: u8) -> usize
    ensures same { result ≡ 3 + (low + 256 * high) }
    ensures bound { result ≤ 65538 }
{
    3 + stated(low, high)
}

/// The size in bytes of the record at the front; 3 until both length bytes are present.
#[inline(always)]
pub fn record_len(bytes: &[u8]) -> usize
    ensures same { result ≡ record_len bytes.now }
    ensures bound { result ≤ 65538 }
{
    match bytes {
        [_, low, high, ..] => len_of(*low, *high),
        _ => 3,
    }
}

/// Whether all bytes of the record are present.
#[inline(always)]
pub fn is_whole(bytes: &[u8]) -> bool
    ensures { result ≡ is_whole bytes.now }
{
    match bytes {
        [_, low, high, rest @ ..] => stated(*low, *high) <= rest.len(),
        _ => false,
    }
}

/// The fault of the type byte, with its offset in the record.
#[inline(always)]
#[tactic(auto, unfolding(crate::specs::Inner::Judging::type_fault))]
pub fn type_fault(bytes: &[u8]) -> Option<(Reason, u32)>
    ensures { result ≡ type_fault bytes.now }
{
    match bytes {
        [] => None,
        [kind, ..] if is_taken(*kind) => None,
        [kind, ..] if is_unsupported(*kind) => Some((Reason::UnsupportedType, 0)),
        _ => Some((Reason::UnknownType, 0)),
    }
}

/// The fault of a complete record of a supported type, with its offset in the record.
#[inline(always)]
#[tactic(auto, unfolding(crate::specs::Inner::Judging::whole_fault))]
pub fn whole_fault(is_first: bool, bytes: &[u8]) -> Option<(Reason, u32)>
    ensures { result ≡ whole_fault is_first bytes.now }
{
    match bytes {
        [kind, low, high, rest @ ..] => {
            let stated = stated(*low, *high);
            if rest.len() < stated {
                return None;
            }
            if stated == 0 {
                return Some((Reason::EmptyRecord, 1));
            }
            if bytes[2 + stated] != 0 && byte_sum(bytes) != 0 {
                return Some((Reason::Checksum, (2 + stated) as u32));
            }
            if is_first && !is_header(*kind) {
                return Some((Reason::NoHeader, 0));
            }
            None
        }
        _ => None,
    }
}

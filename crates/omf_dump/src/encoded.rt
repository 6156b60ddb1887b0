//! Fields by their bytes: sizes and values.

ghost use Rattle.std.specs.Prelude.{◌≡◌, ◌+◌, ◌*◌, ◌≤◌, ◌<◌, IfSome, length};
ghost use Rattle.omf_dump.specs.declared.step.When.TheVariants as when;
ghost use Rattle.omf_dump.specs.Raw.{after_first, count_bytes, count_of, count_size, first_of, if_there, index_of, index_size, is_near, is_there, left_by, little, locat_of, name_size, size_of, thread_fix, version_of};

use crate::step::{Kind, Step, When};
use omf_frame::Width;

/// `count`, if that many bytes are there.
fn if_there(count: usize, bytes: &[u8]) -> Option<usize>
    ensures value { result ≡ if_there count bytes.now }
    ensures fits { IfSome result (λ n. n ≤ length bytes.now) }
{
    if count <= bytes.len() {
        Some(count)
    } else {
        None
    }
}

/// The size of an index in bytes.
pub(crate) fn index_size(bytes: &[u8]) -> Option<usize>
    ensures value { result ≡ index_size bytes.now }
    ensures fits { IfSome result (λ n. n ≤ length bytes.now) }
{
    match bytes {
        [] => None,
        [first, ..] => {
            if *first < 128 {
                Some(1)
            } else {
                if_there(2, bytes)
            }
        }
    }
}

/// The size of a name with its length byte.
pub(crate) fn name_size(bytes: &[u8]) -> Option<usize>
    ensures value { result ≡ name_size bytes.now }
    ensures fits { IfSome result (λ n. n ≤ length bytes.now) }
    ensures small { IfSome result (λ n. n ≤ 256) }
{
    match bytes {
        [] => None,
        [count, ..] => if_there(usize::from(*count) + 1, bytes),
    }
}

/// The number of bytes of a communal's length that begins with this one.
fn count_bytes(first: u8) -> usize
    ensures { result ≡ count_bytes first }
{
    match first {
        0x81 => 3,
        0x84 => 4,
        0x88 => 5,
        _ => 1,
    }
}

/// The size of a communal's length.
fn count_size(bytes: &[u8]) -> Option<usize>
    ensures value { result ≡ count_size bytes.now }
    ensures fits { IfSome result (λ n. n ≤ length bytes.now) }
{
    match bytes {
        [] => None,
        [first, ..] => if_there(count_bytes(*first), bytes),
    }
}

/// The number of bytes of the field at the front; None if they are not all there.
pub(crate) fn size_of(width: Width, kind: Kind, bytes: &[u8]) -> Option<usize>
    ensures value { result ≡ size_of width kind bytes.now }
    ensures fits { IfSome result (λ n. n ≤ length bytes.now) }
{
    match kind {
        Kind::Decimal | Kind::Short | Kind::Location => if_there(2, bytes),
        Kind::Long => if_there(4, bytes),
        Kind::Wide => if_there(width.bytes(), bytes),
        Kind::Count => count_size(bytes),
        Kind::Counted => name_size(bytes),
        Kind::Version | Kind::Bytes => Some(bytes.len()),
        Kind::Type
        | Kind::Name
        | Kind::Segment
        | Kind::Group
        | Kind::External
        | Kind::OfSegment
        | Kind::OfGroup
        | Kind::OfExternal => index_size(bytes),
        Kind::Small
        | Kind::ComdatFlags
        | Kind::Selection
        | Kind::ComdatAlign
        | Kind::Attributes
        | Kind::LineFlags
        | Kind::CommentFlags
        | Kind::CommentClass
        | Kind::EndFlags
        | Kind::Patch
        | Kind::Leaf
        | Kind::Variable
        | Kind::Communal
        | Kind::Thread
        | Kind::Fix => if_there(1, bytes),
    }
}

/// Two bytes, little-endian.
fn low_high(low: u8, high: u8) -> u32
    ensures { result ≡ low + 256 * high }
{
    u32::from(low) + 256 * u32::from(high)
}

/// A number of up to four bytes, little-endian.
pub(crate) fn little(bytes: &[u8]) -> u32
    ensures { result ≡ little bytes.now }
{
    match bytes {
        [] => 0,
        [a] => u32::from(*a),
        [a, b] => low_high(*a, *b),
        [a, b, c] => low_high(*a, *b) + 65_536 * u32::from(*c),
        [a, b, c, d, ..] => low_high(*a, *b) + 65_536 * low_high(*c, *d),
    }
}

/// An index, of one byte or two.
pub(crate) fn index_of(bytes: &[u8]) -> u16
    ensures value { result ≡ index_of bytes.now }
    ensures small { result < 32768 }
{
    match bytes {
        [] => 0,
        [index] => u16::from(*index),
        [high, low, ..] => u16::from(high.saturating_sub(128)) * 256 + u16::from(*low),
    }
}

/// A communal's length.
pub(crate) fn count_of(bytes: &[u8]) -> u32
    ensures { result ≡ count_of bytes.now }
{
    match bytes {
        [] => 0,
        [count] => u32::from(*count),
        [_, rest @ ..] => little(rest),
    }
}

/// The first byte; 0 if there is none.
pub(crate) fn first_of(bytes: &[u8]) -> u8
    ensures { result ≡ first_of bytes.now }
{
    match bytes {
        [] => 0,
        [first, ..] => *first,
    }
}

/// A fixup's location, which is big-endian.
pub(crate) fn locat_of(bytes: &[u8]) -> u16
    ensures { result ≡ locat_of bytes.now }
{
    match bytes {
        [high, low, ..] => 256 * u16::from(*high) + u16::from(*low),
        _ => 0,
    }
}

/// The bytes after the first one.
pub(crate) fn after_first(bytes: &[u8]) -> &[u8]
    ensures { result.now ≡ after_first bytes.now }
{
    match bytes {
        [] => &[],
        [_, rest @ ..] => rest,
    }
}

/// A version, after its length byte if it has one.
pub(crate) fn version_of(bytes: &[u8]) -> &[u8]
    ensures { result.now ≡ version_of bytes.now }
{
    match bytes {
        [] => &[],
        [count, rest @ ..] => {
            if usize::from(*count) == rest.len() {
                rest
            } else {
                bytes
            }
        }
    }
}

/// The fix data that ask for the datum that a THREAD has.
fn thread_fix(byte: u8) -> u8
    ensures { result ≡ thread_fix byte }
{
    if byte / 64 % 2 == 1 {
        16 * (byte / 4 % 8) + 12
    } else {
        132 + byte / 4 % 4
    }
}

/// What a field with these bytes leaves for the fields after it.
pub(crate) fn left_by(step: Step, bytes: &[u8], last: u16) -> u16
    ensures { result ≡ left_by step bytes.now last }
{
    match step {
        Step::Segment | Step::ExplicitSegment => index_of(bytes),
        Step::Selection
        | Step::Attributes
        | Step::Communal
        | Step::Component
        | Step::Leaf
        | Step::Fix => u16::from(first_of(bytes)),
        Step::Thread => u16::from(thread_fix(first_of(bytes))),
        _ => last,
    }
}

/// Whether a communal is near: 62H, or the segment index of a communal of Borland's.
pub(crate) fn is_near(kind: u16) -> bool
    ensures { result ≡ is_near kind }
{
    kind == 0x62 || kind > 0 && kind < 0x60
}

/// Whether fix data have this target method, and no thread.
fn has_target(last: u16, method: u8) -> bool
    ensures { result ≡ is_there (when.Target method) last }
{
    last / 8 % 2 == 0 && last % 4 == u16::from(method)
}

/// Whether a record has a field, by what the fields before left.
pub(crate) fn is_there(when: When, last: u16) -> bool
    ensures { result ≡ is_there when last }
{
    match when {
        When::Always => true,
        When::Zero => last == 0,
        When::Explicit => last % 16 == 0,
        When::Absolute => last < 32,
        When::Near => is_near(last),
        When::Far => last == 0x61,
        When::Component(byte) => last == u16::from(byte),
        When::OtherComponent => last < 0xFE,
        When::Frame(method) => last / 16 == u16::from(method),
        When::Target(method) => has_target(last, method),
        When::Displaced => last / 4 % 2 == 0,
    }
}

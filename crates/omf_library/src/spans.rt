//! Members by the lengths of their records alone, so that a member that the check of modules refuses has an end too.

ghost use Rattle.std.specs.Prelude.{◌≡◌, ◌<◌, IfOk, length, option_map};
ghost use Rattle.omf_records.specs.Inner.Seen.{map_ok};
ghost use Rattle.omf_library.specs.Spans.{AreSpansIn, IsFirstModule, IsPage, IsSplit, ends_module};

use crate::members::{LIBRARY_END, next_page};
use omf_frame::is_header;
use std::alloc::{AllocError, Global};

/// A member: its offset, and its bytes from the header record to the first MODEND.
#[derive(Clone, Copy)]
pub struct Span<'a> {
    pub offset: usize,
    pub bytes: &'a [u8],
}

/// What is at a page in place of a member or F1H. `member` is the number of members before it.
#[derive(Clone, Copy, Debug, PartialEq, Eq)]
pub enum SpanFault {
    /// The page begins with neither a THEADR or LHEADR nor F1H.
    NoMember { offset: usize, member: usize },
    /// The bytes end in the record at this offset.
    MemberCut { offset: usize, member: usize },
    /// The bytes end before the page.
    NoEnd { offset: usize, member: usize },
}

/// The members of a library, and the offset of the F1H, or what is there in its place.
#[derive(Drop)]
pub struct Spans<'a> {
    pub members: Vec<Span<'a>>,
    pub end: Result<usize, SpanFault>,
}

/// Splits bytes into their first record and the rest; None if the record is not all there.
fn split_record<'a>(bytes: &'a [u8]) -> Option<(&'a [u8], &'a [u8])>
    ensures { IsSplit bytes.entry.now (option_map (λ parts. (parts.0.now, parts.1.now)) result) }
{
    match bytes {
        [_, low, high, rest @ ..] => {
            let size = usize::from(*low) + 256 * usize::from(*high);
            if rest.len() < size {
                return None;
            }
            Some(bytes.split_at(3 + size))
        }
        _ => None,
    }
}

/// Whether a record is a MODEND.
fn ends_module(record: &[u8]) -> bool
    ensures { result ≡ ends_module «record».now }
{
    match record {
        [kind, ..] => *kind == 0x8A || *kind == 0x8B,
        [] => false,
    }
}

/// The bytes up to the end of the first MODEND; or the offset of the first record that is not all there.
fn first_module<'a>(bytes: &'a [u8]) -> Result<&'a [u8], usize>
    ensures { IsFirstModule bytes.entry.now (map_ok (λ m. m.now) result) }
{
    let mut rest = bytes;
    while let Some((record, next)) = split_record(rest) {
        if ends_module(record) {
            return Ok(bytes.split_at(bytes.len() - next.len()).0);
        }
        rest = next;
    }
    Err(bytes.len() - rest.len())
}

/// What a page has.
pub(crate) enum Page<'a> {
    Member(&'a [u8]),
    End,
    Fault(SpanFault),
}

/// What the page at an offset has, after `member` members.
pub(crate) fn page_at<'a>(bytes: &'a [u8], at: usize, member: usize) -> Page<'a>
    requires { at < length bytes.now }
    ensures { IsPage bytes.entry.now member at result }
{
    let kind = bytes[at];
    if kind == LIBRARY_END {
        return Page::End;
    }
    if !is_header(kind) {
        return Page::Fault(SpanFault::NoMember { offset: at, member });
    }
    match first_module(bytes.split_at(at).1) {
        Ok(found) => Page::Member(found),
        Err(within) => Page::Fault(SpanFault::MemberCut {
            offset: at + within,
            member,
        }),
    }
}

/// The members of a library with this page size, from the second page on, by the lengths of their records alone; and
/// how they end.
///
/// # Errors
///
/// `AllocError` if out of memory.
pub fn spans_in<'a>(alloc: Global, bytes: &'a [u8], page: usize) -> Result<Spans<'a>, AllocError>
    requires filled { 0 < page }
    requires low { page < 65539 }
    ensures { IfOk result (λ spans. AreSpansIn bytes.entry.now page spans.members.items spans.end) }
{
    let mut members = Vec::new(alloc);
    let mut at = page;
    while at < bytes.len() {
        match page_at(bytes, at, members.len()) {
            Page::Member(found) => {
                let length = found.len();
                members.push(Span {
                    offset: at,
                    bytes: found,
                })?;
                at = next_page(page, at + length);
            }
            Page::End => {
                return Ok(Spans {
                    members,
                    end: Ok(at),
                });
            }
            Page::Fault(fault) => {
                return Ok(Spans {
                    members,
                    end: Err(fault),
                });
            }
        }
    }
    let member = members.len();
    Ok(Spans {
        members,
        end: Err(SpanFault::NoEnd { offset: at, member }),
    })
}

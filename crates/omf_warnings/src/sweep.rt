//! The first address that two segments have in common.

ghost use Rattle.std.specs.Prelude.{◌≡◌, None};
ghost use Rattle.omf_warnings.specs.Overlaps.{IsFirstOverlap};
ghost use Rattle.omf_warnings.specs.Inner.Overlapping.{clash, further, other_with, reaching, rival, swept};

use crate::span::{Span, may_share};

/// Returns of two spans, the furthest so far and the furthest of those that may not share addresses with it, the one that a span may not
/// share addresses with.
fn rival<'a>(
    furthest: Option<Span<'a>>,
    other: Option<Span<'a>>,
    span: &Span<'a>,
) -> Option<Span<'a>>
    ensures { result ≡ rival furthest.entry other.entry span.entry.now }
{
    let furthest = furthest?;
    if may_share(&furthest, span) {
        other
    } else {
        Some(furthest)
    }
}

/// Returns a span if it ends after the first address of another.
fn reaching<'a>(earlier: Option<Span<'a>>, span: &Span<'a>) -> Option<Span<'a>>
    ensures { result ≡ reaching span.entry.now earlier.entry }
{
    let earlier = earlier?;
    if u128::from(span.first) < earlier.end {
        Some(earlier)
    } else {
        None
    }
}

/// Returns an earlier span that overlaps a span.
fn clash<'a>(
    furthest: Option<Span<'a>>,
    other: Option<Span<'a>>,
    span: &Span<'a>,
) -> Option<Span<'a>>
    ensures { result ≡ clash furthest.entry other.entry span.entry.now }
{
    if span.end <= u128::from(span.first) {
        return None;
    }
    reaching(rival(furthest, other, span), span)
}

/// Returns the span that ends last of one and the furthest so far.
fn further<'a>(furthest: Option<Span<'a>>, span: &Span<'a>) -> Span<'a>
    ensures { result ≡ further furthest.entry span.entry.now }
{
    match furthest {
        Some(furthest) if span.end <= furthest.end => furthest,
        _ => *span,
    }
}

/// Returns the furthest of the spans that may not share addresses with the furthest of all, with one more span.
fn other_with<'a>(
    furthest: Option<Span<'a>>,
    other: Option<Span<'a>>,
    span: &Span<'a>,
) -> Option<Span<'a>>
    ensures { result ≡ other_with furthest.entry other.entry span.entry.now }
{
    let Some(furthest) = furthest else {
        return other;
    };
    if may_share(&furthest, span) {
        return other;
    }
    if furthest.end < span.end {
        Some(furthest)
    } else {
        Some(further(other, span))
    }
}

/// Returns the first span, in rising order, that overlaps an earlier one, after that one.
fn sweep<'a>(spans: &[Span<'a>]) -> Option<(Span<'a>, Span<'a>)>
    ensures { result ≡ swept None None spans.entry.now }
{
    let mut furthest = None;
    let mut other = None;
    for span in spans {
        if let Some(earlier) = clash(furthest, other, span) {
            return Some((earlier, *span));
        }
        other = other_with(furthest, other, span);
        furthest = Some(further(furthest, span));
    }
    None
}

/// Returns two spans that overlap: those that have the lowest address in common of all such two, the one that begins first before the
/// other. It takes no memory; the time is that of a sort.
pub fn first_overlap<'a>(spans: Vec<Span<'a>>) -> Option<(Span<'a>, Span<'a>)>
    ensures { IsFirstOverlap spans.entry.items result }
{
    let mut sorted = spans;
    sorted.sort_unstable_by_key(|span| span.first);
    sweep(&sorted)
}

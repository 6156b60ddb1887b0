//! The map of what is found in a program.

ghost use Rattle.std.specs.Prelude.{IfOk, flat_map, map, string_bytes};
ghost use Rattle.omf_frame.specs.Bytes.{AddsText};
ghost use Rattle.omf_find.specs.Map.{IsMap, name_line, segment_line};
ghost use Rattle.omf_find.specs.NearLines.{HasNearLines};

use crate::fields::{Format, address, begin, close, name, number, word};
use crate::gaps::{Gap, gaps_of, longest, size_of_all};
use crate::near::{Nearly, put_nearly};
use crate::rows::{NameRow, SegmentRow, asked_rows, name_rows_of, segment_rows_of};
use crate::source::Source;
use omf_finding::{Candidate, Findings, Program, Verdict, Why};
use std::alloc::{AllocError, Global};

/// The most gaps that are shown.
const MOST_GAPS: usize = 10;

/// Appends the line of a segment.
fn put_segment(
    text: &mut Vec<u8>,
    format: Format,
    source: Source<'_>,
    row: SegmentRow,
) -> Result<(), AllocError>
    ensures { AddsText result text.old.items text.new.items (segment_line format (map string_bytes source.entry.files.now) source.entry.gathered.now row) }
{
    begin(text, format, "segment", u64::from(row.address))?;
    address(text, format, "length", row.length)?;
    source.put_origin(text, format, row.module)?;
    source.put_segment(text, format, row.module, row.index)?;
    close(text, format)
}

/// Appends the line of a name.
fn put_name(
    text: &mut Vec<u8>,
    format: Format,
    source: Source<'_>,
    what: &str,
    row: &NameRow<'_>,
) -> Result<(), AllocError>
    ensures { AddsText result text.old.items text.new.items (name_line format (map string_bytes source.entry.files.now) source.entry.gathered.now what.now row.now) }
{
    begin(text, format, what, row.address)?;
    name(text, format, "name", row.name)?;
    source.put_origin(text, format, row.module)?;
    close(text, format)
}

/// Appends the lines of segments.
fn put_segments(
    text: &mut Vec<u8>,
    format: Format,
    source: Source<'_>,
    rows: &[SegmentRow],
) -> Result<(), AllocError>
    ensures { AddsText result text.old.items text.new.items (flat_map (segment_line format (map string_bytes source.entry.files.now) source.entry.gathered.now) rows.now) }
{
    for row in rows {
        put_segment(text, format, source, *row)?;
    }
    Ok(())
}

/// Appends the lines of names.
fn put_names(
    text: &mut Vec<u8>,
    format: Format,
    source: Source<'_>,
    what: &str,
    rows: &[NameRow<'_>],
) -> Result<(), AllocError>
    ensures { AddsText result text.old.items text.new.items (flat_map (name_line format (map string_bytes source.entry.files.now) source.entry.gathered.now what.now) rows.now) }
{
    for row in rows {
        put_name(text, format, source, what, row)?;
    }
    Ok(())
}

/// The word for why a place is only a possible one.
fn why_word(why: Why) -> &'static str {
    match why {
        Why::FewBytes => "few-bytes",
        Why::SeveralPlaces => "several-places",
        Why::SameBytes(_) => "same-bytes",
        Why::OtherMissing(_) => "other-segment-missing",
        Why::FewValues => "few-values",
        Why::Overlapped => "overlapped",
        Why::Disagrees => "reference-disagrees",
        Why::OpenBytes => "fixup-disagrees",
        Why::ManyPlaces => "many-places",
    }
}

/// Appends why a place is only a possible one.
fn put_why(text: &mut Vec<u8>, format: Format, why: Why) -> Result<(), AllocError> {
    word(text, format, "why", why_word(why))?;
    match why {
        Why::OtherMissing(segment) => number(text, format, "missing", u64::from(segment)),
        _ => Ok(()),
    }
}

/// Appends the line of a possible place.
fn put_place(
    text: &mut Vec<u8>,
    format: Format,
    source: Source<'_>,
    module: usize,
    candidate: &Candidate,
    place: u32,
) -> Result<(), AllocError> {
    begin(text, format, "possible", u64::from(place))?;
    put_why(text, format, candidate.why)?;
    source.put_origin(text, format, module)?;
    source.put_segment(text, format, module, candidate.segment)?;
    close(text, format)
}

/// Appends the line of a segment that may be at other places too.
fn put_more(
    text: &mut Vec<u8>,
    format: Format,
    source: Source<'_>,
    module: usize,
    candidate: &Candidate,
) -> Result<(), AllocError> {
    match format {
        Format::Text => text.extend_from_slice(b"more")?,
        Format::Json => text.extend_from_slice(b"{\"more\":true")?,
    }
    put_why(text, format, candidate.why)?;
    source.put_origin(text, format, module)?;
    source.put_segment(text, format, module, candidate.segment)?;
    close(text, format)
}

/// Appends the lines of the possible places of a segment.
fn put_candidate(
    text: &mut Vec<u8>,
    format: Format,
    source: Source<'_>,
    module: usize,
    candidate: &Candidate,
) -> Result<(), AllocError> {
    for place in &candidate.addresses {
        put_place(text, format, source, module, candidate, *place)?;
    }
    if candidate.more {
        put_more(text, format, source, module, candidate)
    } else {
        Ok(())
    }
}

/// Appends the lines of the possible places of segments.
fn put_candidates(
    text: &mut Vec<u8>,
    format: Format,
    source: Source<'_>,
    module: usize,
    candidates: &[Candidate],
) -> Result<(), AllocError> {
    for candidate in candidates {
        put_candidate(text, format, source, module, candidate)?;
    }
    Ok(())
}

/// Appends the lines of the possible places of all modules.
fn put_possible(
    text: &mut Vec<u8>,
    format: Format,
    source: Source<'_>,
    findings: &Findings,
) -> Result<(), AllocError> {
    for (module, verdict) in findings.verdicts.iter().enumerate() {
        if let Verdict::Possible(candidates) = verdict {
            put_candidates(text, format, source, module, candidates)?;
        }
    }
    Ok(())
}

/// Appends the lines of gaps.
fn put_gaps(text: &mut Vec<u8>, format: Format, gaps: &[Gap]) -> Result<(), AllocError> {
    for gap in gaps {
        begin(text, format, "unknown", gap.first)?;
        address(text, format, "length", gap.length())?;
        close(text, format)?;
    }
    Ok(())
}

/// The number of modules that are found.
fn count_found(findings: &Findings) -> u64 {
    let mut count: u64 = 0;
    for verdict in &findings.verdicts {
        if matches!(verdict, Verdict::Found(_)) {
            count = count.saturating_add(1);
        }
    }
    count
}

/// What is shown of a search.
#[derive(Clone, Copy)]
pub struct Shown<'a> {
    pub program: &'a Program,
    pub findings: &'a Findings,
    /// Whether the places that are only possible are shown.
    pub shows_possible: bool,
    /// The segments that are nearly in the program, if these are asked for.
    pub nearly: &'a [Nearly],
}

/// Appends the line with the program's address and length, and how much of it is explained.
fn put_program(
    text: &mut Vec<u8>,
    format: Format,
    shown: Shown<'_>,
    modules: usize,
    open: u64,
) -> Result<(), AllocError> {
    let length = shown.program.bytes.len() as u64;
    begin(text, format, "program", u64::from(shown.program.base))?;
    address(text, format, "length", length)?;
    address(text, format, "explained", length.saturating_sub(open))?;
    number(text, format, "found", count_found(shown.findings))?;
    number(text, format, "modules", modules as u64)?;
    close(text, format)
}

/// Appends a line of text if no module is found.
fn put_nothing(text: &mut Vec<u8>, format: Format, findings: &Findings) -> Result<(), AllocError> {
    match format {
        Format::Text if count_found(findings) == 0 => {
            text.extend_from_slice(b"nothing found: no module of these files is in the program\n")
        }
        Format::Text | Format::Json => Ok(()),
    }
}

/// What is still open: how much of the program, and the longest gaps.
fn open_text(
    alloc: Global,
    format: Format,
    source: Source<'_>,
    shown: Shown<'_>,
    rows: &[SegmentRow],
) -> Result<Vec<u8>, AllocError> {
    let mut text = Vec::new(alloc);
    let first = u64::from(shown.program.base);
    let end = first.saturating_add(shown.program.bytes.len() as u64);
    let gaps = gaps_of(alloc, first, end, rows)?;
    put_program(
        &mut text,
        format,
        shown,
        source.modules().len(),
        size_of_all(&gaps),
    )?;
    put_gaps(&mut text, format, &longest(gaps, MOST_GAPS)?)?;
    put_nothing(&mut text, format, shown.findings)?;
    Ok(text)
}

/// What follows the publics: the names that are asked for, the possible places and what is near if these are asked for, and what is still open.
fn others_text(
    alloc: Global,
    format: Format,
    source: Source<'_>,
    shown: Shown<'_>,
    rows: &[SegmentRow],
) -> Result<Vec<u8>, AllocError>
    ensures { IfOk result (λ text. HasNearLines format (map string_bytes source.entry.files.now) source.entry.gathered.now shown.entry.nearly.now text.items) }
{
    let mut text = Vec::new(alloc);
    let asked = asked_rows(alloc, source.modules(), shown.findings)?;
    put_names(&mut text, format, source, "asked", &asked)?;
    if shown.shows_possible {
        put_possible(&mut text, format, source, shown.findings)?;
    }
    put_nearly(&mut text, format, source, shown.nearly)?;
    let rest = open_text(alloc, format, source, shown, rows)?;
    text.extend_from_slice(&rest)?;
    Ok(text)
}

/// The map of what is found: segments, their publics, the names that are asked for, and what is still open.
///
/// # Errors
///
/// `AllocError` if memory runs out.
pub fn map_text(
    alloc: Global,
    format: Format,
    source: Source<'_>,
    shown: Shown<'_>,
) -> Result<Vec<u8>, AllocError>
    ensures { IfOk result (λ text. IsMap format (map string_bytes source.entry.files.now) source.entry.gathered.now shown.entry.findings.now.verdicts.items shown.entry.nearly.now text.items) }
{
    let mut text = Vec::new(alloc);
    let rows = segment_rows_of(alloc, source.modules(), shown.findings)?;
    put_segments(&mut text, format, source, &rows)?;
    let publics = name_rows_of(alloc, source.modules(), shown.findings)?;
    put_names(&mut text, format, source, "public", &publics)?;
    let others = others_text(alloc, format, source, shown, &rows)?;
    text.extend_from_slice(&others)?;
    Ok(text)
}

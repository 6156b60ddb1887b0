//! The lines of segments that are nearly in a program.

ghost use Rattle.std.specs.Prelude.{◌≡◌, ◌-◌, ◌++◌, [], ◌∷◌, IfOk, IsPermutation, List, OnOk, length, map, nat_le, option_map, string_bytes, ℕ};
ghost use Rattle.std.specs.List.Sorted.{IsNonDecreasingBy};
ghost use Rattle.omf_frame.specs.Bytes.{AddsText};
ghost use Rattle.omf_check.specs.Module.{recs_of};
ghost use Rattle.omf_find.specs.NearLines.{AreTexts, IsBeforeIn, IsByteLine, IsNearText, IsReferenceLine, byte_line, external_text, length_in, length_text, near_line, offset_text, public_text, reference_line};
ghost use Rattle.omf_find.specs.Nearly.{AreNearly, IsBefore, all_wanted, place, places_of, publics_of, record_publics, seen, wanted_of};

use crate::fields::{Format, address, begin, byte, close, name, number};
use crate::source::{Source, put_own};
use omf_check::{Checked, SegInfo, Undecoded};
use omf_finding::{Difference, Near, Program, References, Stray, Verdict, nearest};
use omf_frame::Name;
use omf_records::{Items, Public};
use std::alloc::{AllocError, Global};

/// A segment that is nearly in the program.
#[derive(Drop)]
pub struct Nearly {
    /// Its module, from 0.
    module: usize,
    near: Near,
    /// Its references that go elsewhere.
    strays: Vec<Stray>,
}

/// What is asked for of segments that are nearly in a program.
#[derive(Clone, Copy)]
pub struct Wanted {
    /// The number of closed bytes that differ at most.
    pub most: usize,
    /// The number of those that agree at least.
    pub least: usize,
}

impl Wanted {
    /// Whether enough closed bytes of a segment agree.
    fn takes(self, near: &Near) -> bool
        ensures { result ≡ nat_le self.least (near.now.closed - length near.now.differences.items) }
    {
        near.closed.saturating_sub(near.differences.len()) >= self.least
    }
}

/// Appends a segment of a module, if it is asked for.
fn push_one(
    nearly: &mut Vec<Nearly>,
    wanted: Wanted,
    references: &References<'_>,
    module: usize,
    near: Near,
) -> Result<(), AllocError>
    ensures { OnOk result (map seen nearly.new.items ≡ map seen nearly.old.items ++ wanted_of wanted «module» (near ∷ [])) }
{
    if !wanted.takes(&near) {
        return Ok(());
    }
    let strays = references.strays(module, &near)?;
    nearly.push(Nearly {
        module,
        near,
        strays,
    })?;
    Ok(())
}

/// Appends the segments of a module that are asked for.
fn push_wanted(
    nearly: &mut Vec<Nearly>,
    wanted: Wanted,
    references: &References<'_>,
    module: usize,
    nears: Vec<Near>,
) -> Result<(), AllocError>
    ensures { OnOk result (map seen nearly.new.items ≡ map seen nearly.old.items ++ wanted_of wanted «module» nears.items) }
{
    for near in nears {
        push_one(nearly, wanted, references, module, near)?;
    }
    Ok(())
}

/// The segments that are asked for, in the order of the modules.
fn all_wanted(
    alloc: Global,
    wanted: Wanted,
    references: &References<'_>,
    nears: Vec<Vec<Near>>,
) -> Result<Vec<Nearly>, AllocError>
    ensures { IfOk result (λ v. map seen v.items ≡ all_wanted wanted 0 nears.items) }
{
    let mut nearly = Vec::new(alloc);
    let mut module = 0;
    for own in nears {
        push_wanted(&mut nearly, wanted, references, module, own)?;
        module += 1;
    }
    Ok(nearly)
}

/// Segments in ascending order of address.
fn by_address(nearly: Vec<Nearly>) -> Result<Vec<Nearly>, AllocError>
    ensures same { IfOk result (λ v. IsPermutation nearly.items v.items) }
    ensures order { IfOk result (λ v. IsNonDecreasingBy (λ y. y.near.address) v.items) }
{
    let mut nearly = nearly;
    nearly.sort_by_key(|one| one.near.address)?;
    Ok(nearly)
}

/// The segments of modules with these verdicts that are nearly in a program, in ascending order of address.
///
/// # Errors
///
/// `AllocError` if memory runs out.
pub fn nearly_of(
    alloc: Global,
    modules: &[Checked],
    program: &Program,
    verdicts: &[Verdict],
    wanted: Wanted,
) -> Result<Vec<Nearly>, AllocError>
    ensures { IfOk result (λ v. AreNearly program.now modules.now wanted v.items) }
{
    let references = References::new(alloc, modules, program, verdicts)?;
    let nears = nearest(alloc, modules, program, wanted.most)?;
    let nearly = all_wanted(alloc, wanted, &references, nears)?;
    let sorted = by_address(nearly)?;
    Ok(sorted)
}

/// A public of a segment at or before an offset, and its own offset.
type Before<'a> = Option<(u32, Name<'a>)>;

/// The last of publics at or before an offset: the best one so far, or one more.
fn later<'a>(best: Before<'a>, offset: u32, at: u32, public: Name<'a>) -> Before<'a>
    ensures { (ps : List (ℕ × List ℕ)) → IsBefore offset ps best.entry → IsBefore offset (ps ++ (at, public.entry) ∷ []) result }
{
    if at > offset {
        return best;
    }
    match best {
        Some((first, _)) if at < first => best,
        _ => Some((at, public)),
    }
}

/// The same with all of these publics.
fn later_of<'a>(best: Before<'a>, offset: u32, publics: Items<Public<'a>>) -> Before<'a>
    ensures { (ps : List (ℕ × List ℕ)) → IsBefore offset ps best.entry → IsBefore offset (ps ++ map place publics.entry) result }
{
    let mut best = best;
    for public in publics {
        best = later(best, offset, public.item.offset, public.item.name);
    }
    best
}

/// The publics of a segment in a record, if it is of the kind that is asked for. No other record is decoded.
fn publics_in<'a>(local: bool, rec: &Undecoded<'a>, segment: u16) -> Option<Items<Public<'a>>>
    ensures { places_of result ≡ record_publics local segment rec.now.kind rec.now.contents }
{
    let publics = rec.as_publics(local)?;
    if publics.segment.item.0 == segment {
        Some(publics.items)
    } else {
        None
    }
}

/// The same with these publics.
fn later_in<'a>(
    best: Before<'a>,
    local: bool,
    rec: &Undecoded<'a>,
    segment: u16,
    offset: u32,
) -> Before<'a>
    ensures { (ps : List (ℕ × List ℕ)) → IsBefore offset ps best.entry → IsBefore offset (ps ++ record_publics local segment rec.now.kind rec.now.contents) result }
{
    match publics_in(local, rec, segment) {
        Some(publics) => later_of(best, offset, publics),
        None => best,
    }
}

/// The public of a segment of a module that is at an offset, or the last one before it; also a local one.
fn public_before(module: &Checked, segment: u16, offset: u32) -> Before<'_>
    ensures { IsBefore offset (publics_of segment (recs_of «module».entry.now.bytes)) result }
{
    let mut best = None;
    for (_, rec) in module.undecoded() {
        best = later_in(best, false, &rec, segment, offset);
        best = later_in(best, true, &rec, segment, offset);
    }
    best
}

/// The same in a module, if there is one.
fn before_in(module: Option<&Checked>, segment: u16, offset: u32) -> Before<'_>
    ensures { IsBeforeIn (option_map (λ m. m.now) «module».entry) segment offset result }
{
    match module {
        Some(module) => public_before(module, segment, offset),
        None => None,
    }
}

/// Appends the public before an offset, and how far the offset is after it.
fn put_public(
    text: &mut Vec<u8>,
    format: Format,
    offset: u32,
    before: Before<'_>,
) -> Result<(), AllocError>
    ensures { AddsText result text.old.items text.new.items (public_text format offset before.entry) }
{
    match before {
        Some((first, public)) => {
            name(text, format, "public", public.0)?;
            let after = offset.saturating_sub(first);
            address(text, format, "after", u64::from(after))
        }
        None => Ok(()),
    }
}

/// Appends the segment and the offset of a place, and the public before it.
fn put_offset(
    text: &mut Vec<u8>,
    format: Format,
    segment: u16,
    offset: u32,
    before: Before<'_>,
) -> Result<(), AllocError>
    ensures { AddsText result text.old.items text.new.items (offset_text format segment offset before.entry) }
{
    number(text, format, "index", u64::from(segment))?;
    address(text, format, "offset", u64::from(offset))?;
    put_public(text, format, offset, before)
}

/// Appends the line of a byte that differs, after this public.
fn put_byte_line(
    text: &mut Vec<u8>,
    format: Format,
    near: &Near,
    difference: &Difference,
    before: Before<'_>,
) -> Result<(), AllocError>
    ensures { AddsText result text.old.items text.new.items (byte_line format near.now difference.now before.entry) }
{
    let place = u64::from(near.address) + u64::from(difference.offset);
    begin(text, format, "byte", place)?;
    put_offset(text, format, near.segment, difference.offset, before)?;
    byte(text, format, "own", Some(difference.own))?;
    byte(text, format, "program", difference.there)?;
    close(text, format)
}

/// Appends the line of a byte that differs.
fn put_difference(
    text: &mut Vec<u8>,
    format: Format,
    module: Option<&Checked>,
    near: &Near,
    difference: &Difference,
) -> Result<(), AllocError>
    ensures { OnOk result ((line : List ℕ) × IsByteLine format (option_map (λ m. m.now) «module».entry) near.now difference.now line × (text.new.items ≡ text.old.items ++ line)) }
{
    let before = before_in(module, near.segment, difference.offset);
    put_byte_line(text, format, near, difference, before)?;
    Ok(())
}

/// Appends the lines of the bytes that differ.
fn put_differences(
    text: &mut Vec<u8>,
    format: Format,
    module: Option<&Checked>,
    near: &Near,
    differences: &[Difference],
) -> Result<(), AllocError>
    ensures { OnOk result ((lines : List ℕ) × AreTexts (IsByteLine format (option_map (λ m. m.now) «module».entry) near.now) differences.now lines × (text.new.items ≡ text.old.items ++ lines)) }
{
    for difference in differences {
        put_difference(text, format, module, near, difference)?;
    }
    Ok(())
}

/// Appends the name of an external of a module.
fn put_external(
    text: &mut Vec<u8>,
    format: Format,
    module: Option<&Checked>,
    external: u16,
) -> Result<(), AllocError>
    ensures { AddsText result text.old.items text.new.items (external_text format (option_map (λ m. m.now) «module».entry) external) }
{
    match module {
        Some(module) => put_own(text, format, "name", module.external(external)),
        None => Ok(()),
    }
}

/// A reference of a segment that is near, which goes elsewhere.
#[derive(Clone, Copy)]
struct Away<'a> {
    near: &'a Near,
    stray: &'a Stray,
}

/// Appends the line of a reference that goes elsewhere, after this public.
fn put_reference_line(
    text: &mut Vec<u8>,
    format: Format,
    module: Option<&Checked>,
    away: Away<'_>,
    before: Before<'_>,
) -> Result<(), AllocError>
    ensures { AddsText result text.old.items text.new.items (reference_line format (option_map (λ m. m.now) «module».entry) away.entry.near.now away.entry.stray.now before.entry) }
{
    let Away { near, stray } = away;
    let place = u64::from(near.address) + u64::from(stray.offset);
    begin(text, format, "reference", place)?;
    put_offset(text, format, near.segment, stray.offset, before)?;
    put_external(text, format, module, stray.external)?;
    address(text, format, "own", u64::from(stray.wanted))?;
    address(text, format, "program", u64::from(stray.there))?;
    close(text, format)
}

/// Appends the line of a reference that goes elsewhere.
fn put_stray(
    text: &mut Vec<u8>,
    format: Format,
    module: Option<&Checked>,
    near: &Near,
    stray: &Stray,
) -> Result<(), AllocError>
    ensures { OnOk result ((line : List ℕ) × IsReferenceLine format (option_map (λ m. m.now) «module».entry) near.now stray.now line × (text.new.items ≡ text.old.items ++ line)) }
{
    let before = before_in(module, near.segment, stray.offset);
    put_reference_line(text, format, module, Away { near, stray }, before)?;
    Ok(())
}

/// Appends the lines of references that go elsewhere.
fn put_strays(
    text: &mut Vec<u8>,
    format: Format,
    module: Option<&Checked>,
    near: &Near,
    strays: &[Stray],
) -> Result<(), AllocError>
    ensures { OnOk result ((lines : List ℕ) × AreTexts (IsReferenceLine format (option_map (λ m. m.now) «module».entry) near.now) strays.now lines × (text.new.items ≡ text.old.items ++ lines)) }
{
    for stray in strays {
        put_stray(text, format, module, near, stray)?;
    }
    Ok(())
}

/// Appends the length of a segment.
fn put_length(
    text: &mut Vec<u8>,
    format: Format,
    segment: Option<SegInfo>,
) -> Result<(), AllocError>
    ensures { AddsText result text.old.items text.new.items (length_text format segment) }
{
    match segment {
        Some(segment) => address(text, format, "length", segment.length),
        None => Ok(()),
    }
}

/// Appends the length of a segment of a module.
fn put_length_in(
    text: &mut Vec<u8>,
    format: Format,
    module: Option<&Checked>,
    segment: u16,
) -> Result<(), AllocError>
    ensures { AddsText result text.old.items text.new.items (length_in format (option_map (λ m. m.now) «module».entry) segment) }
{
    match module {
        Some(module) => put_length(text, format, module.segment(segment)),
        None => Ok(()),
    }
}

/// Appends the line of a segment that is nearly in the program.
fn put_segment(
    text: &mut Vec<u8>,
    format: Format,
    source: Source<'_>,
    one: &Nearly,
) -> Result<(), AllocError>
    ensures { AddsText result text.old.items text.new.items (near_line format (map string_bytes source.entry.files.now) source.entry.gathered.now one.now) }
{
    let near = &one.near;
    begin(text, format, "near", u64::from(near.address))?;
    put_length_in(text, format, source.module(one.module), near.segment)?;
    number(text, format, "differs", near.differences.len() as u64)?;
    source.put_origin(text, format, one.module)?;
    source.put_segment(text, format, one.module, near.segment)?;
    close(text, format)
}

/// Appends the lines of a segment: its own, one for each byte that differs, and one for each reference that goes elsewhere.
fn put_one(
    text: &mut Vec<u8>,
    format: Format,
    source: Source<'_>,
    one: &Nearly,
) -> Result<(), AllocError>
    ensures { OnOk result ((own : List ℕ) × IsNearText format (map string_bytes source.entry.files.now) source.entry.gathered.now one.now own × (text.new.items ≡ text.old.items ++ own)) }
{
    put_segment(text, format, source, one)?;
    let module = source.module(one.module);
    let near = &one.near;
    put_differences(text, format, module, near, &near.differences)?;
    put_strays(text, format, module, near, &one.strays)?;
    Ok(())
}

/// Appends the lines of segments that are nearly in the program.
///
/// # Errors
///
/// `AllocError` if memory runs out.
pub fn put_nearly(
    text: &mut Vec<u8>,
    format: Format,
    source: Source<'_>,
    nearly: &[Nearly],
) -> Result<(), AllocError>
    ensures { OnOk result ((lines : List ℕ) × AreTexts (IsNearText format (map string_bytes source.entry.files.now) source.entry.gathered.now) nearly.now lines × (text.new.items ≡ text.old.items ++ lines)) }
{
    for one in nearly {
        put_one(text, format, source, one)?;
    }
    Ok(())
}

//! What is shown of findings: segments and names, in ascending order of address.

ghost use Rattle.std.specs.Prelude.{◌≡◌, ◌++◌, IfOk, IsPermutation, OnOk, false, option_map, option_to_list, slice_get, true};
ghost use Rattle.std.specs.List.Sorted.{IsNonDecreasingBy};
ghost use Rattle.omf_frame.specs.Bytes.{is_one_of};
ghost use Rattle.omf_check.specs.Module.{recs_of};
ghost use Rattle.omf_find.specs.Rows.{AreNames, AreSegments, all_names, all_segments, base_of, name_row, name_rows, public_rows, record_rows, segment_row, segment_rows, verdict_names, verdict_segments};

use omf_check::{Checked, SegInfo, Undecoded};
use omf_finding::{Findings, Found, Verdict};
use omf_records::{At, Items, Public};
use std::alloc::{AllocError, Global};
use std::marker::Model;

/// A segment of a module that is in the program.
#[derive(Clone, Copy)]
pub struct SegmentRow {
    pub address: u32,
    /// The number of the module, from 0.
    pub module: usize,
    /// The segment in the module, from 1.
    pub index: u16,
    /// Its length in bytes.
    pub length: u64,
}

/// A name with an address.
#[derive(Drop)]
pub struct NameRow<'a> {
    pub address: u64,
    /// The number of the module that defines it or asks for it, from 0.
    pub module: usize,
    /// The segment of a public, from 1; 0 of a name that is asked for.
    pub segment: u16,
    pub name: &'a [u8],
}

impl<'a> Model for NameRow<'a> {
    ghost use Rattle.omf_find.specs.NameRow.{NameRow as Seen};

    ghost Value = { Seen };

    ghost view = { λ r. record { address = r.address; «module» = r.«module»; segment = r.segment; name = r.name.now } };
}

/// The address of a segment; None if it is absent, or there is none.
fn base_of(found: &Found, segment: u16) -> Option<u32>
    ensures { result ≡ base_of found.now segment }
{
    if found.absent.has(segment) {
        return None;
    }
    match found.placement.segment(usize::from(segment)) {
        Some(place) => Some(place.address),
        None => None,
    }
}

/// The row of a segment, if it is in the program.
fn segment_row(number: usize, found: &Found, index: u16, segment: SegInfo) -> Option<SegmentRow>
    ensures { result ≡ segment_row number found.now (index, segment) }
{
    match base_of(found, index) {
        Some(address) => Some(SegmentRow {
            address,
            module: number,
            index,
            length: segment.length,
        }),
        None => None,
    }
}

/// Appends a row, if there is one.
fn push_row(rows: &mut Vec<SegmentRow>, row: Option<SegmentRow>) -> Result<(), AllocError>
    ensures { OnOk result (rows.new.items ≡ rows.old.items ++ option_to_list row) }
{
    if let Some(row) = row {
        rows.push(row)?;
    }
    Ok(())
}

/// Appends the rows of the segments of a module that are in the program.
fn push_found(
    rows: &mut Vec<SegmentRow>,
    number: usize,
    module: &Checked,
    found: &Found,
) -> Result<(), AllocError>
    ensures { OnOk result (rows.new.items ≡ rows.old.items ++ segment_rows number (recs_of «module».now.bytes) found.now) }
{
    for before in 0..module.segments() {
        let index = before + 1;
        let Some(segment) = module.segment(index) else {
            unreachable!()
        };
        push_row(rows, segment_row(number, found, index, segment))?;
    }
    Ok(())
}

/// Appends the rows of the segments of a module, if it is found.
fn push_segments(
    rows: &mut Vec<SegmentRow>,
    number: usize,
    module: &Checked,
    verdict: Option<&Verdict>,
) -> Result<(), AllocError>
    ensures { OnOk result (rows.new.items ≡ rows.old.items ++ verdict_segments number (recs_of «module».now.bytes) (option_map (λ v. v.now) verdict.entry)) }
{
    match verdict {
        Some(Verdict::Found(found)) => push_found(rows, number, module, found),
        Some(Verdict::Possible(_)) => Ok(()),
        Some(Verdict::NotThere) => Ok(()),
        None => Ok(()),
    }
}

/// What is known of a module.
pub fn verdict_of(verdicts: &[Verdict], number: usize) -> Option<&Verdict>
    ensures { option_map (λ v. v.now) result ≡ slice_get verdicts.now number }
{
    verdicts.get(number)
}

/// The segments that are in the program, in the order of the modules.
fn all_segments(
    alloc: Global,
    modules: &[Checked],
    verdicts: &[Verdict],
) -> Result<Vec<SegmentRow>, AllocError>
    ensures { IfOk result (λ v. v.items ≡ all_segments 0 modules.now verdicts.now) }
{
    let mut rows = Vec::new(alloc);
    for (number, module) in modules.iter().enumerate() {
        push_segments(&mut rows, number, module, verdict_of(verdicts, number))?;
    }
    Ok(rows)
}

/// Segments in ascending order of address.
fn segments_by_address(rows: Vec<SegmentRow>) -> Result<Vec<SegmentRow>, AllocError>
    ensures same { IfOk result (λ v. IsPermutation rows.items v.items) }
    ensures order { IfOk result (λ v. IsNonDecreasingBy (λ r. r.address) v.items) }
{
    let mut rows = rows;
    rows.sort_by_key(|row| row.address)?;
    Ok(rows)
}

/// The segments that are in the program, in ascending order of address; those at one address in the order of the modules.
///
/// # Errors
///
/// `AllocError` if memory runs out.
pub fn segment_rows_of(
    alloc: Global,
    modules: &[Checked],
    findings: &Findings,
) -> Result<Vec<SegmentRow>, AllocError>
    ensures { IfOk result (λ v. AreSegments modules.now findings.now.verdicts.items v.items) }
{
    let rows = all_segments(alloc, modules, &findings.verdicts)?;
    segments_by_address(rows)
}

/// The row of a public at its offset from a base.
fn name_row<'a>(number: usize, segment: u16, base: u32, public: &At<Public<'a>>) -> NameRow<'a>
    ensures { result ≡ name_row number segment base public.now }
{
    let item = &public.item;
    NameRow {
        address: u64::from(base) + u64::from(item.offset),
        module: number,
        segment,
        name: item.name.0,
    }
}

/// Appends the rows of publics at their offsets from a base.
fn push_items<'a>(
    rows: &mut Vec<NameRow<'a>>,
    number: usize,
    segment: u16,
    base: u32,
    publics: Items<Public<'a>>,
) -> Result<(), AllocError>
    ensures { OnOk result (rows.new.items ≡ rows.old.items ++ name_rows number segment base publics.entry) }
{
    for public in publics {
        rows.push(name_row(number, segment, base, &public))?;
    }
    Ok(())
}

/// Appends the rows of the publics of a record, if it is of the kind that is asked for. No other record is decoded.
fn push_record<'a>(
    rows: &mut Vec<NameRow<'a>>,
    local: bool,
    number: usize,
    found: &Found,
    rec: &Undecoded<'a>,
) -> Result<(), AllocError>
    ensures { OnOk result (rows.new.items ≡ rows.old.items ++ record_rows local number found.now rec.now.kind rec.now.contents) }
{
    let Some(publics) = rec.as_publics(local) else {
        return Ok(());
    };
    let segment = publics.segment.item.0;
    match base_of(found, segment) {
        Some(base) => push_items(rows, number, segment, base, publics.items),
        None => Ok(()),
    }
}

/// Appends the rows of the local publics of a module that is found, or of the others.
fn push_publics<'a>(
    rows: &mut Vec<NameRow<'a>>,
    local: bool,
    number: usize,
    module: &'a Checked,
    found: &Found,
) -> Result<(), AllocError>
    ensures { OnOk result (rows.new.items ≡ rows.old.items ++ public_rows local number (recs_of «module».entry.now.bytes) found.now) }
{
    for (_, rec) in module.undecoded() {
        push_record(rows, local, number, found, &rec)?;
    }
    Ok(())
}

/// Appends the rows of the publics of a module, if it is found.
fn push_names<'a>(
    rows: &mut Vec<NameRow<'a>>,
    number: usize,
    module: &'a Checked,
    verdict: Option<&Verdict>,
) -> Result<(), AllocError>
    ensures { OnOk result (rows.new.items ≡ rows.old.items ++ verdict_names number (recs_of «module».entry.now.bytes) (option_map (λ v. v.now) verdict.entry)) }
{
    match verdict {
        Some(Verdict::Found(found)) => {
            push_publics(rows, false, number, module, found)?;
            push_publics(rows, true, number, module, found)
        }
        Some(Verdict::Possible(_)) => Ok(()),
        Some(Verdict::NotThere) => Ok(()),
        None => Ok(()),
    }
}

/// The publics of the modules that are found, in the order of the modules.
fn all_names<'a>(
    alloc: Global,
    modules: &'a [Checked],
    verdicts: &[Verdict],
) -> Result<Vec<NameRow<'a>>, AllocError>
    ensures { IfOk result (λ v. v.items ≡ all_names 0 modules.entry.now verdicts.now) }
{
    let mut rows = Vec::new(alloc);
    for (number, module) in modules.iter().enumerate() {
        push_names(&mut rows, number, module, verdict_of(verdicts, number))?;
    }
    Ok(rows)
}

/// Names in ascending order of address.
fn names_by_address<'a>(rows: Vec<NameRow<'a>>) -> Result<Vec<NameRow<'a>>, AllocError>
    ensures same { IfOk result (λ v. IsPermutation rows.entry.items v.items) }
    ensures order { IfOk result (λ v. IsNonDecreasingBy (λ r. r.address) v.items) }
{
    let mut rows = rows;
    rows.sort_by_key(|row| row.address)?;
    Ok(rows)
}

/// The publics of the modules that are found, but for those of absent segments and of no segment, in ascending order of address; those at one
/// address in the order of the modules.
///
/// # Errors
///
/// `AllocError` if memory runs out.
pub fn name_rows_of<'a>(
    alloc: Global,
    modules: &'a [Checked],
    findings: &Findings,
) -> Result<Vec<NameRow<'a>>, AllocError>
    ensures { IfOk result (λ v. AreNames modules.entry.now findings.now.verdicts.items v.items) }
{
    let rows = all_names(alloc, modules, &findings.verdicts)?;
    names_by_address(rows)
}

/// The names that are asked for and that no module defines, with the addresses that references give them.
///
/// # Errors
///
/// `AllocError` if memory runs out.
pub fn asked_rows<'a>(
    alloc: Global,
    modules: &'a [Checked],
    findings: &Findings,
) -> Result<Vec<NameRow<'a>>, AllocError> {
    let mut rows = Vec::new(alloc);
    for asked in &findings.asked {
        let module = asked.module as usize;
        if let Some(own) = modules.get(module)
            && let Some(name) = own.external(asked.external)
        {
            rows.push(NameRow {
                address: u64::from(asked.address),
                module,
                segment: 0,
                name: name.0,
            })?;
        }
    }
    Ok(rows)
}

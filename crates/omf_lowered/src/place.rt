//! The place of a fault in the input, where a step or the lowering has changed the module.

ghost use Rattle.std.specs.Prelude.{◌≡◌, ◌<◌, ◌^◌, IfNone, IfOk, IfSome, flat_map, length};
ghost use Rattle.omf_frame.specs.Framing.{raw_bytes};
ghost use Rattle.omf_lowered.specs.Inner.Moves.{IsMoved, number_of};
ghost use Rattle.omf_lowered.specs.Places.{AreUnlike, IsFirstSame, IsPlaceIn, IsPlaceOf, is_same};

use omf_explicit::{Front, module_of, record_at};
use omf_frame::Place;
use omf_lowering::LoweringFault;
use std::alloc::{AllocError, Global};

/// Whether two records are the same.
fn is_same(one: &Front<'_>, other: &Front<'_>) -> bool
    ensures { result ≡ is_same one.now other.now }
{
    one.kind == other.kind && one.checksum == other.checksum && one.body == other.body
}

/// The place in the input for a place in the changed module, whose record comes from the input's record with the number `origin`; none if there is no such record.
fn place_of(input: &[u8], own: &[u8], origin: usize, there: Place) -> Option<Place>
    ensures number { IfSome result (λ at. at.number ≡ origin) }
    ensures place { IfSome result (λ at. IsPlaceOf input.now own.now there at) }
{
    if origin > 0xFFFF_FFFF {
        return None;
    }
    let Some((from, start)) = record_at(input, origin) else {
        return None;
    };
    let Some((to, _)) = record_at(own, there.number as usize) else {
        return None;
    };
    let within = if is_same(&from, &to) { there.within } else { 0 };
    Some(Place {
        number: origin as u32,
        start: start as u64,
        within,
    })
}

/// The number of the record at fault.
pub(crate) fn number_of(fault: LoweringFault) -> usize
    ensures { result ≡ number_of fault }
{
    match fault {
        LoweringFault::Memory => 0,
        LoweringFault::Refused { place, .. } => place.number as usize,
    }
}

/// The fault of a changed module, at the place in the input, whose record has the number `origin`. Each record has an origin, so that no fault but of memory is lost.
pub(crate) fn moved(
    input: &[u8],
    own: &[u8],
    origin: Result<Option<usize>, AllocError>,
    fault: LoweringFault,
) -> LoweringFault
    ensures { IsMoved input.now own.now origin fault result }
{
    let LoweringFault::Refused { reason, place } = fault else {
        return LoweringFault::Memory;
    };
    let Ok(Some(origin)) = origin else {
        return LoweringFault::Memory;
    };
    match place_of(input, own, origin, place) {
        Some(place) => LoweringFault::Refused { reason, place },
        None => LoweringFault::Memory,
    }
}

/// The number of the first record that is the same as another one, and the offset at which it begins; none if no record is.
fn first_same(records: &[Front<'_>], other: &Front<'_>) -> Option<(usize, usize)>
    requires { length (flat_map raw_bytes records.now) < 2 ^ 64 }
    ensures some { IfSome result (λ r. IsFirstSame records.now other.now r.0 r.1) }
    ensures none { IfNone result (AreUnlike records.now other.now) }
{
    let mut number = 0;
    let mut start = 0;
    for record in records {
        if is_same(record, other) {
            return Some((number, start));
        }
        number += 1;
        start += record.body.len() + 4;
    }
    None
}

/// The place in the input's module for a place in its lowering: that of the first record that is the same as the one there; none if the lowering wrote it.
///
/// # Errors
///
/// `AllocError` if memory runs out. The input begins with a module, and its lowering has a record at the place, so that no place but for memory is lost.
pub fn place_in(
    alloc: Global,
    input: &[u8],
    own: &[u8],
    there: Place,
) -> Result<Option<Place>, AllocError>
    ensures { IfOk result (IsPlaceIn input.now own.now there) }
{
    let Some((to, _)) = record_at(own, there.number as usize) else {
        return Err(AllocError);
    };
    let Some(module) = module_of(alloc, input)? else {
        return Err(AllocError);
    };
    let Some((number, start)) = first_same(&module.records, &to) else {
        return Ok(None);
    };
    if number > 0xFFFF_FFFF {
        return Err(AllocError);
    }
    Ok(Some(Place {
        number: number as u32,
        start: start as u64,
        within: there.within,
    }))
}

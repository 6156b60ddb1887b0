//! The lowering of a module after the steps before it.

ghost use Rattle.std.specs.Prelude.{IfErr, IfOk};
ghost use Rattle.omf_lowered.specs.Modules.{IsComdatFault, IsLoweredComdats, IsLoweredModule, IsLoweredPaged, IsModuleFault, IsPagedFault};

use crate::place::{moved, number_of};
use omf_aligned::{pages_origin, with_pages};
use omf_explicit::{segments_origin, with_segments};
use omf_lowering::{LoweredModule, LoweringFault, lowered};
use omf_virtual::{comdats_origin, with_comdats};
use std::alloc::Global;

/// The first module of `bytes`, lowered as by `lowered` after each SEGDEF with A = 6 or 7 has A = 4 (`with_pages` of omf_aligned).
fn lowered_pages<'a>(alloc: Global, bytes: &'a [u8]) -> Result<LoweredModule<'a>, LoweringFault>
    ensures ok { IfOk result (λ l. IsLoweredPaged bytes.entry.now l.bytes.items l.rest.now) }
    ensures err { IfErr result (IsPagedFault bytes.entry.now) }
{
    match with_pages(alloc, bytes) {
        Ok(Some(paged)) => match lowered(alloc, &paged.bytes) {
            Ok(own) => Ok(LoweredModule {
                bytes: own.bytes,
                rest: paged.rest,
            }),
            Err(fault) => {
                let origin = pages_origin(alloc, bytes, number_of(fault));
                Err(moved(bytes, &paged.bytes, origin, fault))
            }
        },
        Ok(None) => lowered(alloc, bytes),
        Err(_) => Err(LoweringFault::Memory),
    }
}

/// The first module of `bytes`, lowered as by `lowered_pages` after it has COMDATs in place of virtual segments (`with_comdats` of omf_virtual).
fn lowered_comdats<'a>(alloc: Global, bytes: &'a [u8]) -> Result<LoweredModule<'a>, LoweringFault>
    ensures ok { IfOk result (λ l. IsLoweredComdats bytes.entry.now l.bytes.items l.rest.now) }
    ensures err { IfErr result (IsComdatFault bytes.entry.now) }
{
    match with_comdats(alloc, bytes) {
        Ok(Some(comdats)) => match lowered_pages(alloc, &comdats.bytes) {
            Ok(own) => Ok(LoweredModule {
                bytes: own.bytes,
                rest: comdats.rest,
            }),
            Err(fault) => {
                let origin = comdats_origin(alloc, bytes, number_of(fault));
                Err(moved(bytes, &comdats.bytes, origin, fault))
            }
        },
        Ok(None) => lowered_pages(alloc, bytes),
        Err(_) => Err(LoweringFault::Memory),
    }
}

/// The first module of `bytes`, lowered as by `lowered` after three steps: each frame that it names by a number has a segment (`with_segments` of omf_explicit), COMDATs are
/// in place of virtual segments (`with_comdats` of omf_virtual), and each SEGDEF with A = 6 or 7 has A = 4, with a comment if it was 6 (`with_pages` of omf_aligned). The bytes
/// after the module are not read, but returned.
///
/// # Errors
///
/// `Refused` for the first record with a fault; `Memory` if memory runs out. The place is one in `bytes`: if a step has changed or added the record, it is that of the record from
/// which it comes, at its byte 0.
pub fn lowered_module<'a>(
    alloc: Global,
    bytes: &'a [u8],
) -> Result<LoweredModule<'a>, LoweringFault>
    ensures ok { IfOk result (λ l. IsLoweredModule bytes.entry.now l.bytes.items l.rest.now) }
    ensures err { IfErr result (IsModuleFault bytes.entry.now) }
{
    match with_segments(alloc, bytes) {
        Ok(Some(plain)) => match lowered_comdats(alloc, &plain.bytes) {
            Ok(own) => Ok(LoweredModule {
                bytes: own.bytes,
                rest: plain.rest,
            }),
            Err(fault) => {
                let origin = segments_origin(alloc, bytes, number_of(fault));
                Err(moved(bytes, &plain.bytes, origin, fault))
            }
        },
        Ok(None) => lowered_comdats(alloc, bytes),
        Err(_) => Err(LoweringFault::Memory),
    }
}

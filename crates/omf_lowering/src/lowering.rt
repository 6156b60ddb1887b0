//! The lowering of a module.

ghost use Rattle.std.specs.Prelude.{◌≡◌, ◌++◌, ◌||◌, [], nat_lt, IfErr, IfOk, None, OnOk};
ghost use Rattle.omf_frame.specs.Framing.{front_record, is_end, raw_bytes};
ghost use Rattle.std.specs.Option.{option_or};
ghost use Rattle.omf_lowering.specs.Inner.Rolling.{IsFaultOf, IsHaltOf};
ghost use Rattle.omf_lowering.specs.Inner.State.{IsRead, IsStop, added, excess, refusal, state_of};
ghost use Rattle.omf_lowering.specs.Lowering.{IsLowered, IsLoweringFault, IsOrigin, IsWideRecord, fault_by};
ghost use Rattle.omf_lowering.specs.Wide.{framing_fault};

use crate::fault::{LoweringFault, Stop};
use crate::record::front_of;
use crate::unroll::{Halt, unrolled};
use crate::work::Work;
use omf_frame::{Place, Reason};
use omf_records::LayoutFault;
use std::alloc::Global;

/// The most records of a module.
const RECORD_LIMIT: u32 = 1_048_576;

/// Whether a record of this type ends a module.
fn is_end(kind: u8) -> bool
    ensures { result ≡ is_end kind }
{
    matches!(kind, 0x8A | 0x8B)
}

/// Takes the record at the front of the bytes. Returns whether it is a MODEND, and the bytes after it.
fn take_front<'a>(
    alloc: Global,
    work: &mut Work<'a>,
    bytes: &'a [u8],
) -> Result<(bool, &'a [u8]), Stop>
    ensures spelled { IfOk result (λ r. bytes.entry.now ≡ raw_bytes (front_record bytes.entry.now) ++ r.1.now) }
    ensures wide { OnOk result (IsWideRecord (front_record bytes.entry.now)) }
    ensures end { IfOk result (λ r. r.0 ≡ is_end (front_record bytes.entry.now).kind) }
    ensures added { OnOk result (work.new ≡ added work.old (front_record bytes.entry.now)) }
    ensures sound { OnOk result (fault_by work.old.before work.old.data_before (front_record bytes.entry.now) ≡ None) }
    ensures err { IfErr result (λ stop. IsStop stop (option_or (framing_fault bytes.entry.now) (fault_by work.old.before work.old.data_before (front_record bytes.entry.now)))) }
{
    let front = match front_of(bytes) {
        Ok(front) => front,
        Err(fault) => return Err(Stop::At(fault)),
    };
    match work.take(alloc, &front) {
        Ok(()) => Ok((is_end(front.kind), front.rest)),
        Err(stop) => Err(stop),
    }
}

/// The fault of the record with a number that starts at an offset in the input.
fn refused(stop: Stop, number: u32, start: usize) -> LoweringFault
    ensures { result ≡ refusal stop number start }
{
    match stop {
        Stop::Memory => LoweringFault::Memory,
        Stop::At(fault) => LoweringFault::Refused {
            reason: fault.reason,
            place: Place {
                number,
                start: start as u64,
                within: fault.within,
            },
        },
    }
}

/// The fault that records are too many, at an offset in the input.
fn too_many(start: usize) -> LoweringFault
    ensures { result ≡ excess start }
{
    LoweringFault::Refused {
        reason: Reason::TooMany,
        place: Place {
            number: RECORD_LIMIT,
            start: start as u64,
            within: 0,
        },
    }
}

/// Takes the records of a module, up to its MODEND. Returns the bytes after it.
fn read_into<'a>(
    alloc: Global,
    work: &mut Work<'a>,
    bytes: &'a [u8],
) -> Result<&'a [u8], LoweringFault>
    requires { work.old ≡ state_of [] }
    ensures ok { IfOk result (λ rest. IsRead bytes.entry.now rest.now work.new) }
    ensures err { IfErr result (IsLoweringFault bytes.entry.now) }
{
    let mut rest = bytes;
    for number in 0..RECORD_LIMIT {
        match take_front(alloc, work, rest) {
            Ok((true, after)) => return Ok(after),
            Ok((false, after)) => rest = after,
            Err(stop) => return Err(refused(stop, number, bytes.len().saturating_sub(rest.len()))),
        }
    }
    Err(too_many(bytes.len().saturating_sub(rest.len())))
}

/// The records of a module, up to its MODEND, and the bytes after it.
fn read_all<'a>(alloc: Global, bytes: &'a [u8]) -> Result<(Work<'a>, &'a [u8]), LoweringFault>
    ensures ok { IfOk result (λ r. IsRead bytes.entry.now r.1.now r.0) }
    ensures err { IfErr result (IsLoweringFault bytes.entry.now) }
{
    let mut work = Work::new(alloc);
    match read_into(alloc, &mut work, bytes) {
        Ok(rest) => Ok((work, rest)),
        Err(fault) => Err(fault),
    }
}

/// The place of a record.
fn place(number: u32, start: usize) -> Place
    ensures { result ≡ record { number = number; start = start; within = 0 } }
{
    Place {
        number,
        start: start as u64,
        within: 0,
    }
}

/// Whether a lowered record with this number is among the first `count`, or the module has ended.
fn is_reached(ends: bool, wanted: usize, count: usize) -> bool
    ensures { result ≡ (ends || nat_lt wanted count) }
{
    ends || wanted < count
}

/// The place of the record that gives the lowered record with this number, from 0; of the MODEND, if no record before it does.
fn origin_in<'a>(
    alloc: Global,
    work: &mut Work<'a>,
    bytes: &'a [u8],
    wanted: usize,
) -> Result<Place, LoweringFault>
    requires { work.old ≡ state_of [] }
    ensures ok { IfOk result (IsOrigin bytes.entry.now wanted) }
    ensures err { IfErr result (IsLoweringFault bytes.entry.now) }
{
    let mut rest = bytes;
    for number in 0..RECORD_LIMIT {
        let start = bytes.len().saturating_sub(rest.len());
        match take_front(alloc, work, rest) {
            Ok((ends, after)) => {
                if is_reached(ends, wanted, work.count()) {
                    return Ok(place(number, start));
                }
                rest = after;
            }
            Err(stop) => return Err(refused(stop, number, start)),
        }
    }
    Err(too_many(bytes.len().saturating_sub(rest.len())))
}

/// The same of a module of which nothing is taken yet.
fn origin(alloc: Global, bytes: &[u8], wanted: usize) -> Result<Place, LoweringFault>
    ensures ok { IfOk result (IsOrigin bytes.now wanted) }
    ensures err { IfErr result (IsLoweringFault bytes.now) }
{
    let mut work = Work::new(alloc);
    origin_in(alloc, &mut work, bytes, wanted)
}

/// The fault of a record of the lowered module with this number: at the record of the input that gives it.
fn fixup_fault(alloc: Global, bytes: &[u8], wanted: usize, fault: &LayoutFault) -> LoweringFault
    ensures { IsFaultOf bytes.now wanted fault.now result }
{
    match origin(alloc, bytes, wanted) {
        Ok(place) => LoweringFault::Refused {
            reason: fault.reason,
            place: Place {
                number: place.number,
                start: place.start,
                within: fault.within,
            },
        },
        Err(fault) => fault,
    }
}

/// The fault for which records are not unrolled.
fn halted(alloc: Global, bytes: &[u8], halt: Halt) -> LoweringFault
    ensures { IsHaltOf bytes.now halt.number halt.stop result }
{
    let Halt { number, stop } = halt;
    match stop {
        Stop::Memory => LoweringFault::Memory,
        Stop::At(fault) => fixup_fault(alloc, bytes, number, &fault),
    }
}

/// A module of this profile, and the bytes after the lowered module in the input.
#[derive(Drop)]
pub struct LoweredModule<'a> {
    pub bytes: Vec<u8>,
    pub rest: &'a [u8],
}

/// The first module of `bytes`, lowered: as a module of this profile that means the same (TIS OMF 1.1). Each CEXTDEF becomes EXTDEFs with the names
/// that it refers to, or LEXTDEFs with those of an LLNAMES, so that each external keeps its index. The values of each BAKPAT and NBKPAT are added to the data
/// of the LEDATAs before it, and the record is left out, as is a VENDEXT. Each COMDAT becomes a segment of its own, a piece of its base, with a public name and the data; one that is continued becomes more data of
/// that segment, and its LINSYMs become LINNUMs. Then each fixup after an LIDATA becomes, for each copy of its location, an LEDATA of the location's bytes and a FIXUPP. Every other record
/// is kept as it is, also one that `check` refuses: so the result is for `check` to judge. A module that `check` accepts is its own lowering (law
/// `accepted_stay`). The bytes after the module are not read, but returned.
///
/// # Errors
///
/// `Refused` for the first record with a fault; `Memory` if memory runs out.
pub fn lowered<'a>(alloc: Global, bytes: &'a [u8]) -> Result<LoweredModule<'a>, LoweringFault>
    ensures ok { IfOk result (λ l. IsLowered bytes.entry.now l.bytes.items l.rest.now) }
    ensures err { IfErr result (IsLoweringFault bytes.entry.now) }
{
    let (work, rest) = match read_all(alloc, bytes) {
        Ok(read) => read,
        Err(fault) => return Err(fault),
    };
    let records = work.finish();
    match unrolled(alloc, &records) {
        Ok(bytes) => Ok(LoweredModule { bytes, rest }),
        Err(halt) => Err(halted(alloc, bytes, halt)),
    }
}

//! Modules as a program takes them: one that the check refuses by its lowering.

ghost use Rattle.std.specs.Prelude.{◌≡◌, ◌-◌, length, IfErr, IfNone, IfOk, IfSome};
ghost use Rattle.omf_lowered.specs.Checked.{IsRefusedAsWritten, IsUnloweredBy};
ghost use Rattle.omf_making.specs.Taken.{IsJudgement, IsLoweringOf, IsRefusedBy};

use omf_check::{CheckFault, Checked, Profile, check_with};
use omf_frame::{Bytes, Framer, Place, Reason};
use omf_lowered::{LoweringFault, lowered_module, place_in, shown};
use std::alloc::{AllocError, Global};

/// A module that a program takes.
#[derive(Drop)]
pub struct Taken {
    /// The module that the bytes begin with; or, if the check refuses it, its lowering.
    pub module: Checked,
    /// The number of its bytes in the input: up to the end of its MODEND.
    pub length: usize,
    /// Whether it is the lowering.
    pub is_lowered: bool,
}

/// Why a module is refused.
#[derive(Clone, Copy, Debug, PartialEq, Eq)]
pub struct Refusal {
    pub reason: Reason,
    /// The place of the fault: its offset counts from the module's first byte.
    pub place: Place,
}

/// What a program takes of bytes.
#[derive(Drop)]
pub enum Judgement {
    Taken(Taken),
    Refused(Refusal),
}

/// The number of bytes before the last of them.
fn length_before(bytes: &[u8], rest: &[u8]) -> usize
    ensures { result ≡ length bytes.now - length rest.now }
{
    bytes.len().saturating_sub(rest.len())
}

/// The lowering of the module that bytes begin with; none if it is refused at a record that the lowering wrote.
///
/// # Errors
///
/// The fault of `lowered_module`, or of the check of the lowering; `Memory` if out of memory.
fn lowering_of(
    alloc: Global,
    framer: &mut Framer,
    profile: Profile,
    bytes: &[u8],
) -> Result<Option<Taken>, LoweringFault>
    ensures some { IfOk result (λ found. IfSome found (IsLoweringOf profile bytes.now)) }
    ensures none { IfOk result (λ found. IfNone found (IsRefusedAsWritten profile bytes.now)) }
    ensures fault { IfErr result (IsUnloweredBy profile bytes.now) }
{
    let lower = match lowered_module(alloc, bytes) {
        Ok(lower) => lower,
        Err(fault) => return Err(fault),
    };
    let length = length_before(bytes, lower.rest);
    match check_with(alloc, framer, &mut Bytes::new(&lower.bytes), profile) {
        Ok(module) => Ok(Some(Taken {
            module,
            length,
            is_lowered: true,
        })),
        Err(CheckFault::Memory) => Err(LoweringFault::Memory),
        Err(CheckFault::Read) => unreachable!(),
        Err(CheckFault::Refused { reason, place }) => match place_in(
            alloc,
            bytes,
            &lower.bytes,
            place,
        ) {
            Ok(Some(place)) => Err(LoweringFault::Refused { reason, place }),
            Ok(None) => Ok(None),
            Err(_) => Err(LoweringFault::Memory),
        },
    }
}

/// What a program takes of bytes that the check refuses.
///
/// # Errors
///
/// `AllocError` if out of memory.
fn judge_lowering(
    alloc: Global,
    framer: &mut Framer,
    profile: Profile,
    bytes: &[u8],
    own: Refusal,
) -> Result<Judgement, AllocError>
    requires { IsRefusedBy profile bytes.now own }
    ensures { IfOk result (λ j. IsJudgement profile bytes.now j) }
{
    match lowering_of(alloc, framer, profile, bytes) {
        Ok(Some(taken)) => Ok(Judgement::Taken(taken)),
        Ok(None) => Ok(Judgement::Refused(own)),
        Err(LoweringFault::Memory) => Err(AllocError),
        Err(LoweringFault::Refused { reason, place }) => {
            Ok(Judgement::Refused(shown(own.reason, own, Refusal { reason, place })))
        }
    }
}

/// What a program takes of the module that bytes begin with: the module; or, if the check refuses it, its lowering, if the
/// check accepts that. The framer serves all modules.
///
/// # Errors
///
/// `AllocError` if out of memory.
pub fn judge_taken(
    alloc: Global,
    framer: &mut Framer,
    profile: Profile,
    bytes: &[u8],
) -> Result<Judgement, AllocError>
    ensures { IfOk result (λ j. IsJudgement profile bytes.now j) }
{
    match check_with(alloc, framer, &mut Bytes::new(bytes), profile) {
        Ok(module) => {
            let length = module.bytes().len();
            Ok(Judgement::Taken(Taken {
                module,
                length,
                is_lowered: false,
            }))
        }
        Err(CheckFault::Refused { reason, place }) => {
            judge_lowering(alloc, framer, profile, bytes, Refusal { reason, place })
        }
        // Bytes in memory are always read.
        Err(CheckFault::Memory | CheckFault::Read) => Err(AllocError),
    }
}

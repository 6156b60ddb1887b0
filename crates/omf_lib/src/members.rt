//! Members, and the check of one.

ghost use Rattle.std.specs.Prelude.{IfOk};
ghost use Rattle.omf_making.specs.Taken.{IsJudgement};
ghost use Rattle.omf_lib.specs.Members.{IsVerdict};

use omf_check::{CheckFault, Checked, Profile, check};
use omf_frame::{Bytes, Framer, Place, Reason};
use omf_making::{Judgement, judge_taken};
use std::alloc::{AllocError, Global};

/// A member of a library: its number from 0, its offset, and its bytes from the THEADR to the MODEND.
#[derive(Clone, Copy)]
pub struct Member<'a> {
    pub number: usize,
    pub offset: usize,
    pub bytes: &'a [u8],
}

/// The answer of the check to a member.
#[derive(Drop)]
pub enum Verdict {
    Accepted(Checked),
    Refused { reason: Reason, place: Place },
}

/// Checks a member.
pub fn judge(alloc: Global, profile: Profile, bytes: &[u8]) -> Result<Verdict, AllocError>
    ensures { IfOk result (λ v. IsVerdict profile bytes.now v) }
{
    match check(alloc, &mut Bytes::new(bytes), profile) {
        Ok(module) => Ok(Verdict::Accepted(module)),
        Err(CheckFault::Refused { reason, place }) => Ok(Verdict::Refused { reason, place }),
        // Bytes in memory are always read.
        Err(CheckFault::Memory | CheckFault::Read) => Err(AllocError),
    }
}

/// What a program takes of a member: it, or its lowering if the check refuses it.
pub fn taken_of(alloc: Global, profile: Profile, bytes: &[u8]) -> Result<Judgement, AllocError>
    ensures { IfOk result (λ j. IsJudgement profile bytes.now j) }
{
    judge_taken(alloc, &mut Framer::new(alloc), profile, bytes)
}

/// The name in the first record of a module, which is a THEADR or an LHEADR.
pub fn name_of<'a>(module: &'a [u8]) -> &'a [u8] {
    match module {
        [_, _, _, length, rest @ ..] => rest.get(..usize::from(*length)).unwrap_or(rest),
        _ => &[],
    }
}

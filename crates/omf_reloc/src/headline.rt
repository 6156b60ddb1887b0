//! The headline: the answer to an input and a placement, by one call with one contract.
//!
//! ```
//! match check_and_relocate(alloc, &mut Bytes::new(bytes), profile, &placement)? {
//!     Answer::Refused { reason, place } => {} // the input begins with no module: the first reason, and where
//!     Answer::DoesNotReach(fault) => {}       // the placement does not reach: the first reason
//!     Answer::Relocated { image, start } => {} // the module's image and its start address
//! }
//! ```
//!
//! `relocate_at` is its second half, for a module that is checked already.

ghost use Rattle.std.specs.Prelude.{◌≡◌, ◌≤◌, ℕ, List, Some, IfOk, IfErr};
ghost use Rattle.omf_check.specs.Module.{records_in, recs_of};
ghost use Rattle.omf_reloc.specs.Headline.{Headline, IsAnswerAt, IsAside, IsReadAs, ReadsPatiently};
ghost use Rattle.omf_reloc.specs.Reach.{Reaches};

pub mod laws;

use crate::fault::{ReachFault, RelocateFault};
use crate::reached::reach_and_relocate;
use crate::starting::start;
use omf_check::{CheckFault, Checked, Profile, check};
use omf_frame::{Place, Reason, Source};
use omf_image::Image;
use omf_placement::Placement;
use std::alloc::{AllocError, Global};
use thiserror::Error;

/// The answer to an input and a placement.
#[derive(Drop)]
pub enum Answer {
    /// The input does not begin with a well-formed module.
    Refused {
        /// The first reason.
        reason: Reason,
        /// The place of what is wrong.
        place: Place,
    },
    /// The input begins with a well-formed module, and the placement does not reach: the first reason why not.
    DoesNotReach(ReachFault),
    /// The input begins with a well-formed module, and the placement reaches.
    Relocated {
        /// The image of the module.
        image: Image,
        /// The selector and the offset of the start address; None if the module has none.
        start: Option<(u16, u32)>,
    },
}

/// The answer to a checked module and a placement.
#[derive(Drop)]
pub enum AnswerAt {
    /// The placement does not reach: the first reason why not.
    DoesNotReach(ReachFault),
    /// The placement reaches.
    Relocated {
        /// The image of the module.
        image: Image,
        /// The selector and the offset of the start address; None if the module has none.
        start: Option<(u16, u32)>,
    },
}

/// Why there is no answer.
#[derive(Clone, Copy, Debug, PartialEq, Eq, Error)]
pub enum NoAnswer {
    /// 1: memory ran out.
    #[error("memory ran out")]
    Memory,
    /// 2: the reader failed.
    #[error("the reader failed")]
    Read,
}

/// Relocates a checked module at a placement: its image and its start address if the placement reaches, or the first reason why it does
/// not (TIS OMF 1.1, "FIXUPP", "MODEND").
///
/// # Errors
///
/// `AllocError` if memory ran out. The placement then reaches.
pub fn relocate_at(
    alloc: Global,
    module: &Checked,
    placement: &Placement,
) -> Result<AnswerAt, AllocError>
    ensures answer { IfOk result (IsAnswerAt placement.now (records_in «module».now.bytes)) }
    ensures memory { IfErr result (λ e. Reaches placement.now (recs_of «module».now.bytes)) }
{
    match reach_and_relocate(alloc, module, placement) {
        Ok(image) => {
            let start = start(module, placement);
            Ok(AnswerAt::Relocated { image, start })
        }
        Err(RelocateFault::Reach(fault)) => Ok(AnswerAt::DoesNotReach(fault)),
        Err(RelocateFault::Memory) => Err(AllocError),
    }
}

/// Checks the module that the input begins with, and relocates it at a placement: `check`, and then `relocate_at`. It reads no further than
/// `check` does.
///
/// # Errors
///
/// `Read` if the reader failed, or was interrupted 1,000 times in a row, before the answer was decided. `Memory` if memory ran out; then the
/// bytes read have no fault except that they end too early, or they are a module that the placement reaches.
pub fn check_and_relocate<S: Source>(
    alloc: Global,
    reader: &mut S,
    profile: Profile,
    placement: &Placement,
) -> Result<Answer, NoAnswer>
    ensures headline { (input : List ℕ) → (S.seen reader.old).bytes ≡ Some input → IfOk result (Headline profile input placement.now) }
    ensures aside { IfErr result (IsAside profile placement.now (S.seen reader.old) (S.seen reader.new)) }
    // Of a reader whose bytes are not known too: the answer is the answer to the bytes that were read, and no more was read than it needs.
    ensures read { IfOk result (IsReadAs profile placement.now (S.seen reader.old) (S.seen reader.new)) }
    ensures patient { ReadsPatiently (S.seen reader.old) (S.seen reader.new) result }
    ensures grows { (S.seen reader.old).failures ≤ (S.seen reader.new).failures }
{
    let module = match check(alloc, reader, profile) {
        Ok(module) => module,
        Err(CheckFault::Memory) => return Err(NoAnswer::Memory),
        Err(CheckFault::Read) => return Err(NoAnswer::Read),
        Err(CheckFault::Refused { reason, place }) => {
            return Ok(Answer::Refused { reason, place });
        }
    };
    // by the clause of `bytes`, the module is well formed
    let _bytes = module.bytes();
    match relocate_at(alloc, &module, placement) {
        Ok(AnswerAt::DoesNotReach(fault)) => Ok(Answer::DoesNotReach(fault)),
        Ok(AnswerAt::Relocated { image, start }) => Ok(Answer::Relocated { image, start }),
        Err(AllocError) => Err(NoAnswer::Memory),
    }
}

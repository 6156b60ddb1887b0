//! References without threads (TIS OMF 1.1, "FIXUPP", frame and target methods).

ghost use Rattle.std.specs.Prelude.{◌≡◌, IsSome};
ghost use Rattle.omf_check.specs.Inner.Judging.{frame_cell, target_cell};
ghost use Rattle.omf_check.specs.Threads.{frame_by};
ghost use Rattle.omf_reloc.specs.Inner.Walking.{direct_plain, plain_by};

use omf_check::{FrameMethod, TargetMethod, Threads};
use omf_frame::Index;
use omf_records::{DirectFixup, FrameCode, Locat, Reference};
use std::marker::Model;

/// A reference with its threads resolved.
#[derive(Drop)]
pub struct PlainReference {
    pub frame: FrameMethod,
    pub target: TargetMethod,
    /// The displacement from the target's address; 0 if the record gives none.
    pub displacement: u32,
}

impl Model for PlainReference {
    ghost use Rattle.omf_check.specs.Threads.{PlainReference as PlainReferenceModel};

    ghost Value = { PlainReferenceModel };

    ghost view = { λ r. record { frame = r.frame; target = r.target; displacement = r.displacement } };
}

/// A fixup with its threads resolved: its LOCAT, and its reference.
#[derive(Drop)]
pub struct PlainFixup {
    pub location: Locat,
    pub reference: PlainReference,
}

impl Model for PlainFixup {
    ghost use Rattle.omf_reloc.specs.Plain.{PlainFixup as PlainFixupModel};

    ghost Value = { PlainFixupModel };

    ghost view = { λ f. record { locat = f.location; reference = f.reference } };
}

/// Resolves a reference: its frame and its target are its own, or those of the threads that it names.
#[inline(always)]
pub fn plain_reference(threads: &Threads, reference: &Reference) -> PlainReference
    requires frame { IsSome (frame_cell threads.now reference.now) }
    requires target { IsSome (target_cell threads.now reference.now) }
    ensures { result ≡ plain_by threads.now reference.now }
{
    PlainReference {
        frame: threads.frame(reference).unwrap(),
        target: threads.target(reference).unwrap(),
        displacement: reference.displacement.unwrap_or(0),
    }
}

/// The frame method with this code and index.
#[inline(always)]
fn own_frame(code: FrameCode, index: Index) -> FrameMethod
    ensures { result ≡ frame_by code index }
{
    match code {
        FrameCode::Of(kind) => FrameMethod::Of(TargetMethod { kind, index }),
        FrameCode::Location => FrameMethod::Location,
        FrameCode::Target => FrameMethod::Target,
    }
}

/// A fixup that uses no thread.
#[inline(always)]
pub fn direct_fixup(fixup: &DirectFixup) -> PlainFixup
    ensures { result ≡ direct_plain fixup.now }
{
    let target = TargetMethod {
        kind: fixup.fix.target_method(),
        index: fixup.target,
    };
    let reference = PlainReference {
        frame: own_frame(fixup.fix.frame_method(), fixup.frame),
        target,
        displacement: fixup.displacement,
    };
    PlainFixup {
        location: fixup.location,
        reference,
    }
}

//! Which reasons of this profile a lowering may mend, so that what a refused module is shown for is its lowering's fault.

ghost use Rattle.std.specs.Prelude.{◌≡◌};
ghost use Rattle.omf_lowered.specs.Mended.{is_mendable, shown};

use omf_frame::Reason;

/// Whether a lowering may mend what a module is refused for: a record type, a communal in a segment, a fixup of repeated data, an alignment of 6 or 7, a frame by number.
pub fn is_mendable(reason: Reason) -> bool
    ensures { result ≡ is_mendable reason }
{
    reason.number() == Reason::UnsupportedType.number()
        || reason.number() == Reason::CommunalType.number()
        || reason.number() == Reason::FixupOnIterated.number()
        || reason.number() == Reason::Alignment.number()
        || reason.number() == Reason::FrameMethod.number()
        || reason.number() == Reason::TargetMethod.number()
}

/// What is shown of a module that is refused for a reason, and whose lowering has a fault: that fault, if a lowering may mend the reason; else its own.
pub fn shown<F: Copy>(reason: Reason, own: F, lowering: F) -> F
    ensures { result ≡ shown reason own lowering }
{
    if is_mendable(reason) { lowering } else { own }
}

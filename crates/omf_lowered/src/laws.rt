//! Laws of the definitions, for all inputs.

ghost use Rattle.omf_lowered.specs.Laws.{AcceptedStay};

/// A module that is accepted is its own lowering: no step changes it.
pub fn accepted_stay()
    ensures { AcceptedStay }
{}

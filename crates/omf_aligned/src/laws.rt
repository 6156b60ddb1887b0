//! Laws of the definitions, for all inputs.

ghost use Rattle.omf_aligned.specs.Laws.{ReadStay};

/// Records that this profile reads have no segment with A = 6 or 7: a module that it accepts stays as it is.
pub fn read_stay()
    ensures { ReadStay }
{}

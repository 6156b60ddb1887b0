//! Laws of what is reached, for all inputs.

ghost use Rattle.omf_trimming.specs.ReachingLaws.{AllReachedStay, ReachedAreUnique};

/// The segments of a program that are reached are determined.
pub fn reached_are_unique()
    ensures { ReachedAreUnique }
{}

/// Modules of which each segment is reached stay as they are.
pub fn all_reached_stay()
    ensures { AllReachedStay }
{}

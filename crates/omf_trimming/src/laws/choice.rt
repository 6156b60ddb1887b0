//! Laws of the choice, for all inputs.

ghost use Rattle.omf_trimming.specs.ChoiceLaws.{ChosenAreTyped, FirstStays, FirstsAreKept, InstancesAreTriples, OneIsKept, UnmarkedStay};

/// Modules without a mark stay as they are.
pub fn unmarked_stay()
    ensures { UnmarkedStay }
{}

/// The first module stays as it is.
pub fn first_stays()
    ensures { FirstStays }
{}

/// The instances of a module are its SEGDEFs that are followed by a PUBDEF of one name in that segment and a mark.
pub fn instances_are_triples()
    ensures { InstancesAreTriples }
{}

/// Each chosen module has its records without the instances that are left out.
pub fn chosen_are_typed()
    ensures { ChosenAreTyped }
{}

/// Of the instances of a name, over all modules in their order, the first is kept, with those that do not agree with it.
pub fn firsts_are_kept()
    ensures { FirstsAreKept }
{}

/// If all of them agree with the first, it alone is kept, and its PUBDEF alone defines the name.
pub fn one_is_kept()
    ensures { OneIsKept }
{}

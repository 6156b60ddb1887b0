//! Laws of what is left of a module, for all inputs.

ghost use Rattle.omf_trimming.specs.WithoutLaws.{PublicsAreLeftOut, RestsAreTyped, RestsAreWellFormed, RestsHaveTheRest};

/// A well-formed module is well-formed without any of its segments.
pub fn rests_are_well_formed()
    ensures { RestsAreWellFormed }
{}

/// Its records mean what is left, as it is defined for typed records.
pub fn rests_are_typed()
    ensures { RestsAreTyped }
{}

/// They define the same names, groups and externals, as many segments, and the data of the segments that are not left out.
pub fn rests_have_the_rest()
    ensures { RestsHaveTheRest }
{}

/// Where publics go too, those of the other segments are left.
pub fn publics_are_left_out()
    ensures { PublicsAreLeftOut }
{}

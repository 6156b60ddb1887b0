//! Laws of members by need, each the contract of a function that does nothing.

ghost use Rattle.omf_library.specs.NeededLaws.{MembersAreFirst, NeededAreUnique, RefusedPlayNoPart, UndefinedAreNowhere};

/// The members that a program needs are determined.
pub fn needed_are_unique()
    ensures { NeededAreUnique }
{}

/// The member of a name is the first that defines it, and no given module does.
pub fn members_are_first()
    ensures { MembersAreFirst }
{}

/// A needed name that stays undefined is defined by no member at all.
pub fn undefined_are_nowhere()
    ensures { UndefinedAreNowhere }
{}

/// If no needed member is refused, the refused ones play no part.
pub fn refused_play_no_part()
    ensures { RefusedPlayNoPart }
{}

//! Laws of the definitions. Each is the contract of an empty function.

ghost use Rattle.omf_placement.specs.Laws.{EntriesAreRead, GroupsTakeTheLowest, NumbersAreRead, PlacesAreRead};

/// The text of a line is parsed as the entry that it spells, and as none if it spells none.
pub fn entries_are_read()
    ensures { EntriesAreRead }
{}

/// Digits are parsed as a hexadecimal number exactly if they spell it.
pub fn numbers_are_read()
    ensures { NumbersAreRead }
{}

/// Three words are parsed as a place exactly if they spell its address, and the base and the selector of its frame.
pub fn places_are_read()
    ensures { PlacesAreRead }
{}

/// The frame of a group by its members is that of the lowest member, the first at a tie. There is none exactly if the group does not
/// exist, has no member, or has a member without a place.
pub fn groups_take_the_lowest()
    ensures { GroupsTakeTheLowest }
{}

//! Laws of the definitions, for all inputs.

ghost use Rattle.omf_communals.specs.Laws.{ExternalsStay, OthersStay, ReadingsMeetLayout};

/// Reading the contents of a TYPDEF gives the one variable that they encode, or else the least of their faults.
pub fn readings_meet_layout()
    ensures { ReadingsMeetLayout }
{}

/// A module without an EXTDEF or LEXTDEF that names the TYPDEF of a variable stays as it is.
pub fn others_stay()
    ensures { OthersStay }
{}

/// A module has the same externals in the same order, and the same of them are local.
pub fn externals_stay()
    ensures { ExternalsStay }
{}

//! Laws of the definitions, for all inputs.

ghost use Rattle.omf_lowering.specs.Laws.{AcceptedStay, AnswersAreUnique, CopiesAreCopies, DataAreAdded, ReadingsMeetLayouts, ValuesFit};

/// Reading the contents of a CEXTDEF, a BAKPAT, a COMDAT, an NBKPAT, a LINSYM or a LINNUM gives the one value that they encode, or else the least of their faults.
pub fn readings_meet_layouts()
    ensures { ReadingsMeetLayouts }
{}

/// An input has at most one lowering or refusal, and not both.
pub fn answers_are_unique()
    ensures { AnswersAreUnique }
{}

/// A module that is accepted is its own lowering.
pub fn accepted_stay()
    ensures { AcceptedStay }
{}

/// No value of a BAKPAT or an NBKPAT is lost: each is for an LEDATA, with all bytes of its location in the data.
pub fn values_fit()
    ensures { ValuesFit }
{}

/// An LEDATA with a value added has the same segment and offset, and the value is added to its data.
pub fn data_are_added()
    ensures { DataAreAdded }
{}

/// The expanded data of blocks have, at each copy of a location, the bytes that the blocks have at the location.
pub fn copies_are_copies()
    ensures { CopiesAreCopies }
{}

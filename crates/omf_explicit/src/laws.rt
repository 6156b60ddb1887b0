//! Laws of the definitions, for all inputs.

ghost use Rattle.omf_explicit.specs.Laws.{ReadNameNone, ReadingsMeetLayouts};

/// Reading the contents of a FIXUPP or a MODEND with frame numbers gives the one value that they encode, or else the least of their faults.
pub fn readings_meet_layouts()
    ensures { ReadingsMeetLayouts }
{}

/// Records that this profile reads name no frame by its number: a module that it accepts stays as it is.
pub fn read_name_none()
    ensures { ReadNameNone }
{}

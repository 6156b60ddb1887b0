//! Laws of the definitions, for all inputs.

ghost use Rattle.omf_virtual.specs.Laws.{ReadGetNone, ReadingsMeetLayout};

/// Reading the contents of a COMDEF with Borland's data types gives the one value that they encode, or else the least of their faults.
pub fn readings_meet_layout()
    ensures { ReadingsMeetLayout }
{}

/// Records that this profile reads get no COMDATs: a module that it accepts stays as it is.
pub fn read_get_none()
    ensures { ReadGetNone }
{}

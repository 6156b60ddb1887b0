//! Laws of typed records.

ghost use Rattle.omf_records.specs.Laws.{AreUnique, ReadingsMeet, AreDecided, AreTyped, FaultsAreLeast, FaultsStandBehind, LayoutReasons, ShortestAreTyped, ShortestDecide, ValuesAreTyped, TypedHaveValues, PlacesDoNotCount};

/// Two typed records of one type with the same contents are equal.
pub fn typed_records_are_unique()
    ensures { AreUnique }
{}

/// Reading contents gives the one value they encode, or the least of their faults.
pub fn readings_meet_layouts()
    ensures { ReadingsMeet }
{}

/// A record has no layout fault exactly if its contents encode a typed record.
pub fn layouts_are_decided()
    ensures { AreDecided }
{}

/// Contents encode at most one typed record.
pub fn contents_are_typed_once()
    ensures { AreTyped }
{}

/// The reported layout fault is the least one.
pub fn layout_faults_are_least()
    ensures { FaultsAreLeast }
{}

/// No layout fault is at an offset before the contents.
pub fn faults_stand_behind()
    ensures { FaultsStandBehind }
{}

/// A layout fault has one of the reasons 8 to 18.
pub fn layout_reasons()
    ensures { LayoutReasons }
{}

/// The shortest contents of a typed record encode exactly that record, and no other encoding is shorter.
pub fn shortest_contents_are_typed()
    ensures { ShortestAreTyped }
{}

/// Typed records of one type have the same shortest contents exactly if they are equal up to offsets.
pub fn shortest_contents_decide()
    ensures { ShortestDecide }
{}

/// A FIXUPP or MODEND whose fields are in range is encoded by its shortest contents, up to offsets.
pub fn values_are_typed()
    ensures { ValuesAreTyped }
{}

/// The fields of an encoded FIXUPP or MODEND are in range.
pub fn typed_have_values()
    ensures { TypedHaveValues }
{}

/// The shortest contents do not depend on offsets.
pub fn places_do_not_count()
    ensures { PlacesDoNotCount }
{}

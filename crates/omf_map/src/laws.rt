//! A law of the maps of programs.

ghost use Rattle.omf_map.specs.Laws.{MapsAreOne};

/// The map of a program is one text: its lists have one order each.
pub fn maps_are_one()
    ensures { MapsAreOne }
{}

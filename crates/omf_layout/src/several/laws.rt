//! Laws of the layout of several modules, each the contract of an empty function.

ghost use Rattle.omf_layout.specs.Several.Laws.{ArrangedAsTold, ArrangedLieApart, OrderedOnce, PlacesLieApart, SegmentsAreFound};

/// Each laid segment that is not absolute is at a multiple of its alignment, at or above the base and below the limit; each absolute one
/// is where its SEGDEF puts it. Of two that are not absolute one ends before the other begins, unless both are common and have one place:
/// no byte is in both. They are laid in the order of the definition `order`.
pub fn arranged_lie_apart()
    ensures { ArrangedLieApart }
{}

/// The order has each segment of each module once, and no other.
pub fn ordered_once()
    ensures { OrderedOnce }
{}

/// Each segment of each module is found among those that are laid: `place_segments` gives it the place where it is laid.
pub fn segments_are_found()
    ensures { SegmentsAreFound }
{}

/// In the places of modules, each segment that is not absolute is at a multiple of its SEGDEF's alignment, at or above the base and below
/// the limit. Of two that are not absolute one ends before the other begins, unless both are common and have one place: no byte is in
/// both.
pub fn places_lie_apart()
    ensures { PlacesLieApart }
{}

/// The segments laid of several modules are those of their runs, in order, each as its SEGDEF defines it.
pub fn arranged_as_told()
    ensures { ArrangedAsTold }
{}

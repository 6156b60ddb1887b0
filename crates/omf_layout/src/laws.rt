//! Laws of layouts, each the contract of an empty function.

ghost use Rattle.omf_layout.specs.Laws.{CommunalsLieApart, DraftsAreRead, LayoutsKeepAlignments, LayoutsLieApart};

/// Each segment that is not absolute is at a multiple of its alignment, at or above the base and below the limit, and ends before the
/// next one begins: no byte is in two of them.
pub fn layouts_lie_apart()
    ensures { LayoutsLieApart }
{}

/// The text of a layout is a placement text: it has no faulty line, its entries are exactly those of the layout, and they give the module
/// the layout's places. The law assumes numbers short enough for a text: addresses and bases below 2^32, selectors below 2^16.
pub fn drafts_are_read()
    ensures { DraftsAreRead }
{}

/// A layout has for each segment its alignment, so each segment is laid at a multiple of it.
pub fn layouts_keep_alignments()
    ensures { LayoutsKeepAlignments }
{}

/// The communals of a layout are after its segments that are not absolute, one after another, each at a multiple of 4; the first free
/// address is after all of them.
pub fn communals_lie_apart()
    ensures { CommunalsLieApart }
{}

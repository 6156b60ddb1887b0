//! Laws of drafts and of placements that fit, each the contract of an empty function.

ghost use Rattle.omf_drafting.specs.Fit.{LayoutsFit, PlacesFit};
ghost use Rattle.omf_drafting.specs.Laws.{DraftsAreRead, DraftsFit, DraftsLieApart, DraftsLookAmongPublics};

/// The draft of modules is a link's text: it has no faulty line, it gives each module the places of its segments and groups, and no
/// external a place. The law assumes numbers short enough for a text: addresses, bases, and the numbers of modules and entries below 2^32,
/// selectors below 2^16.
pub fn drafts_are_read()
    ensures { DraftsAreRead }
{}

/// The draft's text, read as a link's text, gives the modules places that fit: one entry for each segment and each group, and each
/// absolute segment where its SEGDEF puts it. Whatever places are given for externals, `reach` never reports an entry of what `derive`
/// makes of them as missing, extra or misplaced.
pub fn drafts_fit()
    ensures { DraftsFit }
{}

/// In the places that the draft's text gives the modules, each segment that is not absolute is at a multiple of its SEGDEF's alignment,
/// at or above the base and below the limit. Of two that are not absolute one ends before the other begins, unless both are common and
/// have one place: no byte is in both.
pub fn drafts_lie_apart()
    ensures { DraftsLieApart }
{}

/// A layout fits its module: one entry for each segment, group and external, and each absolute segment where its SEGDEF puts it. So
/// `reach` never reports an entry of it as missing, extra or misplaced.
pub fn layouts_fit()
    ensures { LayoutsFit }
{}

/// The places of several modules fit them: one entry for each segment and each group, and each absolute segment where its SEGDEF puts it.
/// Whatever places are given for externals, `reach` never reports an entry of what `derive` makes of them as missing, extra or misplaced.
pub fn places_fit()
    ensures { PlacesFit }
{}

/// A draft leaves an external open exactly if none of the publics among which `derive` looks has its name, at placements where each PUBDEF and
/// LPUBDEF has a base.
pub fn drafts_look_among_publics()
    ensures { DraftsLookAmongPublics }
{}

//! Laws about the definitions, each the contract of an empty function.

ghost use Rattle.omf_canon.specs.Laws.{EqualSkeletons, CutsAreGreedy, FixuppsFit, SkeletonsAreJoined, SkeletonsAreUnique, FixupsStandAlone, CutsAreJoined, CutsAreNotMore, CanonicalsHold, CanonicalsAreWellFormed, CanonicalsAreFixed, CanonicalsDecide, UnthreadedArePlain, CanonicalsMeanTheSame, CanonicalsAreRead, WalksAreCanonical};

use omf_check::laws::modules_hold;
use omf_records::laws::{
    contents_are_typed_once, places_do_not_count, shortest_contents_are_typed, typed_have_values,
    values_are_typed,
};
use omf_reloc::laws::reach_is_decided;

/// Modules with equal skeletons have the same image and start at every placement, and their fixups reach or fail to reach for the same
/// causes.
pub fn equal_skeletons()
    ensures { EqualSkeletons }
{
    reach_is_decided();
}

/// There is one greedy cut of fixups, and it is the computed one.
pub fn cuts_are_greedy()
    ensures { CutsAreGreedy }
{}

/// Each canonical FIXUPP has at most 1,024 bytes.
pub fn fixupps_fit()
    ensures { FixuppsFit }
{}

/// In a skeleton each FIXUPP has a fixup, and two adjacent FIXUPPs differ in type.
pub fn skeletons_are_joined()
    ensures { SkeletonsAreJoined }
{}

/// There is exactly one joined list with the same fixups and records in order: the skeleton.
pub fn skeletons_are_unique()
    ensures { SkeletonsAreUnique }
{}

/// The pieces of a module one fixup at a time, as a walk gives them, are the parts of its pieces.
pub fn fixups_stand_alone()
    ensures { FixupsStandAlone }
{}

/// Joined pieces are the skeleton of their cut.
pub fn cuts_are_joined()
    ensures { CutsAreJoined }
{}

/// The cut of a module's skeleton has no more items than the module.
pub fn cuts_are_not_more()
    ensures { CutsAreNotMore }
{}

/// Canonical records encode the cut of the skeleton that they come from, and have that skeleton.
pub fn canonicals_hold()
    ensures { CanonicalsHold }
{
    contents_are_typed_once();
    shortest_contents_are_typed();
    values_are_typed();
    typed_have_values();
    places_do_not_count();
}

/// Canonical bytes are well formed under their module's profile, and have no more items than the module.
pub fn canonicals_are_well_formed()
    ensures { CanonicalsAreWellFormed }
{
    contents_are_typed_once();
    shortest_contents_are_typed();
    values_are_typed();
    typed_have_values();
    places_do_not_count();
    modules_hold();
}

/// Canonical bytes are their own canonical bytes.
pub fn canonicals_are_fixed()
    ensures { CanonicalsAreFixed }
{
    canonicals_hold();
}

/// Canonical bytes are equal exactly if skeletons are.
pub fn canonicals_decide()
    ensures { CanonicalsDecide }
{
    canonicals_hold();
    canonicals_are_well_formed();
}

/// A resolved reference can be written as one that names no thread.
pub fn unthreaded_are_plain()
    ensures { UnthreadedArePlain }
{}

/// At every placement canonical bytes mean the same as their module.
pub fn canonicals_mean_the_same()
    ensures { CanonicalsMeanTheSame }
{
    canonicals_hold();
    equal_skeletons();
}

/// The records of canonical bytes are the canonical records.
pub fn canonicals_are_read()
    ensures { CanonicalsAreRead }
{
    canonicals_are_well_formed();
}

/// One walk with at most one open group of fixups gives the canonical records.
pub fn walks_are_canonical()
    ensures { WalksAreCanonical }
{}

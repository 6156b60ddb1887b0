//! Laws about the definitions, each the contract of an empty function.

ghost use Rattle.std.specs.Prelude.{List};
ghost use Rattle.omf_image.specs.declared.limits.Limits.{Limits};
ghost use Rattle.omf_records.specs.Values.{Rec};
ghost use Rattle.omf_check.specs.Sound.{ModuleHolds};
ghost use Rattle.omf_placement.specs.Placement.{Places};
ghost use Rattle.omf_reloc.specs.Reach.{Reaches};
ghost use Rattle.omf_reloc.specs.Laws.{PatchesStayInside, ReachIsDecided, ThreadsGiveReferences, FaultsAreWalked, DerivedAreComplete, AllAreAdded};

/// Fixups whose locations are inside their data change no other byte, and keep the data's length.
pub fn patches_stay_inside()
    ensures { PatchesStayInside }
{}

/// A placement has no fault of reach exactly if it fits the module, and every fixup and the start reach.
pub fn reach_is_decided()
    ensures { (pl : Places) (m : List Rec) → ReachIsDecided pl m }
{}

/// References resolved by the threads in force are those of the definition, which searches the earlier subrecords for each thread.
pub fn threads_give_references()
    ensures { ThreadsGiveReferences }
{}

/// In a well-formed module each reference has a place of its own. The references that do not reach are those found by a walk over the
/// module's pieces, one fixup at a time, in the same order.
pub fn faults_are_walked()
    ensures { (limits : Limits) (pl : Places) (m : List Rec) → ModuleHolds limits m → FaultsAreWalked pl m }
{}

/// If each given placement has exactly one entry for each segment and group of its module, no derived placement has a missing or an extra
/// entry. Whether it reaches then depends on its absolute segments and its references alone.
pub fn derived_are_complete()
    ensures { DerivedAreComplete }
{}

/// If a placement reaches, every fixup of a data record has something to add, and a start has its frame and its offset.
pub fn all_are_added()
    ensures { (pl : Places) (m : List Rec) → Reaches pl m → AllAreAdded pl m }
{}

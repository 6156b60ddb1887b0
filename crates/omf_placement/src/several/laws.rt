//! Laws of the definitions. Each is the contract of an empty function.

ghost use Rattle.std.specs.Prelude.{List};
ghost use Rattle.omf_placement.specs.declared.several.given.Given.{Given};
ghost use Rattle.omf_placement.specs.Derivation.{BasesAreFound, DerivedFit, DerivedIsTaken};
ghost use Rattle.omf_placement.specs.Derive.{PlacedModule};

/// A derived placement keeps the segments and groups of its module's placement, and has an entry for each external.
pub fn derived_fit()
    ensures { DerivedFit }
{}

/// In the derived placements each external has the place of its first given entry, or else that of the only public with its name. If an
/// external has neither, the fault is that of the first such external of the first module that has one.
pub fn derived_is_taken()
    ensures { (ms : List PlacedModule) (given : List Given) → DerivedIsTaken ms given }
{}

/// For a well-formed module, and a placement with exactly its segments and groups, each PUBDEF and LPUBDEF has a base. So no public is
/// passed over because its place is missing.
pub fn bases_are_found()
    ensures { BasesAreFound }
{}

//! Worked examples, each evaluated by the check.

ghost use Rattle.std.specs.Prelude.{◌≡◌, [], ◌∷◌, codes};
ghost use Rattle.omf_reloc.specs.Modules.{constant_public, local_public, using, using_locally};
ghost use Rattle.omf_externals.specs.Rows.{names_of};

/// The lines of the name X: none if one module defines it; else with the modules that ask for it, or those that define it. A public that is not
/// local is not seen by a local external.
pub fn lines_of_names()
    ensures one { names_of (using ∷ constant_public ∷ []) ≡ [] }
    ensures undefined { names_of (using ∷ using ∷ []) ≡ codes "undefined \"X\": module 1, module 2\n" }
    ensures twice { names_of (constant_public ∷ using ∷ constant_public ∷ []) ≡ codes "twice \"X\": module 1, module 3\n" }
    ensures local { names_of (constant_public ∷ using_locally [] ∷ using_locally local_public ∷ []) ≡ codes "undefined \"X\": module 2\n" }
{}

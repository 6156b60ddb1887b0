//! Worked examples of DOS order, each evaluated by the check.

ghost use Rattle.std.specs.Prelude.{◌≡◌, [], ◌∷◌, map, Some};
ghost use Rattle.omf_layout.specs.Own.Order.{order_records};
ghost use Rattle.omf_layout.specs.Own.Ordered.{dos_runs};
ghost use Rattle.omf_layout.specs.Own.Rows.{program, raised_program};
ghost use Rattle.omf_layout.specs.Several.Order.{place_of};
ghost use Rattle.omf_layout.specs.Several.Rows.{place, places};
ghost use Rattle.omf_layout.specs.declared.options.Frames.TheVariants.{Real};

/// The runs of a module in DOS order: code, data, BSS and stack.
pub fn runs()
    ensures { map (map place_of) (dos_runs (program ∷ [])) ≡ ((0, 4) ∷ []) ∷ ((0, 2) ∷ []) ∷ ((0, 1) ∷ []) ∷ ((0, 3) ∷ []) ∷ [] }
{}

/// The places of its segments with the module for DOS order in front, whose segments are at the addresses of those after them; the third is at the end of the data, and the fifth at
/// the end of BSS.
pub fn places()
    ensures { places 0x10001 Real (order_records (program ∷ []) ∷ program ∷ []) ≡ Some (((0, 1), place 0x10001 0x1000) ∷ ((1, 4), place 0x10001 0x1000) ∷ ((0, 2), place 0x10004 0x1000) ∷ ((1, 2), place 0x10004 0x1000) ∷ ((0, 3), place 0x10008 0x1000) ∷ ((0, 4), place 0x10008 0x1000) ∷ ((1, 1), place 0x10008 0x1000) ∷ ((0, 5), place 0x1000B 0x1000) ∷ ((0, 6), place 0x10010 0x1001) ∷ ((1, 3), place 0x10010 0x1001) ∷ [], 0x10018) }
{}

/// The places of a raised segment with the module for DOS order in front. The empty segment of that module is raised too: the two have one address and one frame.
pub fn raised_places()
    ensures { places 0x10001 Real (order_records (raised_program ∷ []) ∷ raised_program ∷ []) ≡ Some (((0, 1), place 0x11000 0x1100) ∷ ((1, 1), place 0x11000 0x1100) ∷ [], 0x11002) }
{}

//! Worked examples, each evaluated by the check.

ghost use Rattle.std.specs.Prelude.{◌≡◌, [], ◌∷◌, codes, true, false, Some, None, Ok, Err};
ghost use Rattle.omf_linking.specs.Space.Segments.{segment_shares};
ghost use Rattle.omf_reloc.specs.Rows.{at, frame};
ghost use Rattle.omf_reloc.specs.declared.fault.Kind.TheVariants.{Group, Segment};
ghost use Rattle.omf_reloc.specs.declared.fault.ReachFault.TheVariants.{Missing};
ghost use Rattle.omf_linking.specs.Locator.Rows.{given_segments, given_stored, named_only, three_segments};
ghost use Rattle.omf_linking.specs.Placing.{all_stored, given_of, linked, placed_by, places_given};
ghost use Rattle.omf_linking.specs.Rows.{ending, given_at, given_externals, given_groups, lying, share, three_lines, three_places};
ghost use Rattle.omf_linking.specs.Segments.{all_segments, is_common};
ghost use Rattle.omf_linking.specs.Starts.{main_starts, one_start};
ghost use Rattle.omf_linking.specs.declared.fault.LinkFault.TheVariants.{Line, NoModules, Reach, Starts};
ghost use Rattle.omf_linking.specs.declared.locator.fault.LineFault.TheVariants.{Unknown};

/// What a text gives a module: a place for each of its segments; none for the second; a group with a line `real` and without a member; an
/// address at which the first of two segments is stored.
pub fn places_that_a_text_gives()
    ensures all { places_given 0 three_segments (given_segments (Some (at 0x10 0 0) ∷ Some (at 0x20 0 0) ∷ Some (at 0x30 0 0) ∷ [])) ≡ Ok (placed_by (at 0x10 0 0 ∷ at 0x20 0 0 ∷ at 0x30 0 0 ∷ []) []) }
    ensures segment { places_given 1 three_segments (given_segments (Some (at 0x10 0 0) ∷ None ∷ None ∷ [])) ≡ Err (Reach 1 (Missing Segment 2)) }
    ensures group { places_given 0 [] (given_groups (Some (Some (frame 0 8)) ∷ Some None ∷ [])) ≡ Err (Reach 0 (Missing Group 2)) }
    ensures stored { all_stored (given_stored (Some (at 0x10 0x20 2) ∷ Some (at 0x30 0x20 2) ∷ []) (Some 0x8000 ∷ None ∷ []) ∷ []) (placed_by (at 0x10 0x20 2 ∷ at 0x30 0x20 2 ∷ []) (frame 0x20 2 ∷ []) ∷ []) ≡ placed_by (at 0x8000 0x20 2 ∷ at 0x30 0x20 2 ∷ []) [] ∷ [] }
    ensures external { given_of (given_externals [] ∷ given_externals (None ∷ Some (at 0x30 0 0) ∷ []) ∷ []) ≡ given_at 1 2 0x30 ∷ [] }
{}

/// A text gives a module the same places, whatever the order of the modules. No modules, and a line at fault.
pub fn modules_in_any_order()
    ensures first { linked (three_segments ∷ named_only (codes "a") ∷ []) three_lines ≡ Ok (three_places ∷ placed_by [] [] ∷ []) }
    ensures second { linked (named_only (codes "a") ∷ three_segments ∷ []) three_lines ≡ Ok (placed_by [] [] ∷ three_places ∷ []) }
    ensures none { linked [] three_lines ≡ Err NoModules }
    ensures unknown { linked (named_only (codes "a") ∷ []) three_lines ≡ Err (Line 1 Unknown) }
{}

/// The start is that of the one main module that names one: bit 7 of the type byte of its MODEND is set. Of two or more the first two are
/// reported.
pub fn starts_of_modules()
    ensures none { one_start (main_starts (ending 0x40 (0x1000, 1) ∷ [])) ≡ Ok None }
    ensures one { one_start (main_starts (ending 0x40 (0x1000, 1) ∷ ending 0xC0 (0x2000, 2) ∷ [])) ≡ Ok (Some (0x2000, 2)) }
    ensures two { one_start (main_starts (ending 0x40 (0, 1) ∷ ending 0xC0 (0, 2) ∷ ending 0x80 (0, 3) ∷ ending 0xC1 (0, 4) ∷ [])) ≡ Err (Starts 1 2) }
{}

/// The bytes of modules at an address: each segment's bytes follow its address. A segment is common if bits 2 to 4 of its attribute byte
/// are 6.
pub fn bytes_of_modules()
    ensures both { segment_shares (all_segments (lying 0x20 0x10 (0xAA ∷ 0xBB ∷ []) ∷ lying 0x38 0x11 (0xCC ∷ []) ∷ [])) 0x11 ≡ share 0 false 0xBB ∷ share 1 true 0xCC ∷ [] }
    ensures first { segment_shares (all_segments (lying 0x20 0x10 (0xAA ∷ 0xBB ∷ []) ∷ lying 0x38 0x11 (0xCC ∷ []) ∷ [])) 0x10 ≡ share 0 false 0xAA ∷ [] }
    ensures beyond { segment_shares (all_segments (lying 0x20 0x10 (0xAA ∷ 0xBB ∷ []) ∷ lying 0x38 0x11 (0xCC ∷ []) ∷ [])) 0x12 ≡ [] }
    ensures common { is_common 0x78 ≡ true }
    ensures stack { is_common 0x74 ≡ false }
{}

//! Worked examples, each evaluated by the check.

ghost use Rattle.std.specs.Prelude.{◌≡◌, [], ◌∷◌, codes, None, Some};
ghost use Rattle.omf_reloc.specs.Modules.{constant_public, local_public, using, using_locally};
ghost use Rattle.omf_reloc.specs.Rows.{at, only, places};
ghost use Rattle.omf_map.specs.Rows.{gives, lines, map_by, map_of, stores, two_publics, whole};

/// A module with the external X, and one of two segments with two publics in the second: the segments of both come first, then the
/// publics, then the external.
pub fn maps_of_two_modules()
    ensures none { map_of [] ≡ [] }
    ensures two { map_of ((using, places (at 0x10020 0x10000 0x1000 ∷ []) [] (at 0x1ABCF 0x10000 0x1000 ∷ [])) ∷ (two_publics, places (at 0x10030 0x10000 0x1000 ∷ at 0x1ABCC 0x10000 0x1000 ∷ []) [] []) ∷ []) ≡ lines (codes "segment 1 1 00010020 00000004 \"T\" \"\"" ∷ codes "segment 2 1 00010030 00000004 \"T\" \"\"" ∷ codes "segment 2 2 0001ABCC 00000004 \"T\" \"\"" ∷ codes "public 2 0001ABCF \"X\"" ∷ codes "public 2 0001ABCD \"\\x22\\x07\"" ∷ codes "external 1 1 0001ABCF \"X\"" ∷ []) }
{}

/// A public at a frame number, a segment without a place, and publics of such a segment; a local public is not listed, but the external that
/// finds it is.
pub fn maps_of_one_module()
    ensures constant { map_of ((constant_public, places [] [] []) ∷ []) ≡ lines (codes "segment 1 1 - 00000004 \"T\" \"\"" ∷ codes "public 1 000B8002 \"X\"" ∷ []) }
    ensures local { map_of ((using_locally local_public, places (at 0 0 0 ∷ []) [] (at 3 0 0 ∷ [])) ∷ []) ≡ lines (codes "segment 1 1 00000000 00000004 \"T\" \"\"" ∷ codes "external 1 1 00000003 \"X\"" ∷ []) }
    ensures unplaced { map_of ((two_publics, places [] [] []) ∷ []) ≡ lines (codes "segment 1 1 - 00000004 \"T\" \"\"" ∷ codes "segment 1 2 - 00000004 \"T\" \"\"" ∷ codes "public 1 - \"X\"" ∷ codes "public 1 - \"\\x22\\x07\"" ∷ []) }
    ensures whole { map_of ((whole, only (at 0 0 0)) ∷ []) ≡ lines (codes "segment 1 1 00000000 100000000 - \"T\"" ∷ []) }
{}

/// A text that gives one of three segments a place: the others have no address, and an external has that of its public; or that of the text. A public
/// of a segment without a place has no address, and neither has an external that sees it, or two publics, or none. A segment that is stored
/// elsewhere has that address too.
pub fn maps_with_gaps()
    ensures gaps { map_by (using ∷ two_publics ∷ []) (gives (None ∷ []) (None ∷ []) ∷ gives (None ∷ Some (at 0x1ABCC 0x10000 0x1000) ∷ []) [] ∷ []) ≡ lines (codes "segment 1 1 - 00000004 \"T\" \"\"" ∷ codes "segment 2 1 - 00000004 \"T\" \"\"" ∷ codes "segment 2 2 0001ABCC 00000004 \"T\" \"\"" ∷ codes "public 2 0001ABCF \"X\"" ∷ codes "public 2 0001ABCD \"\\x22\\x07\"" ∷ codes "external 1 1 0001ABCF \"X\"" ∷ []) }
    ensures stored { map_by (two_publics ∷ []) (stores (None ∷ Some 0x8000 ∷ []) (gives (None ∷ Some (at 0x1ABCC 0x10000 0x1000) ∷ []) []) ∷ []) ≡ lines (codes "segment 1 1 - 00000004 \"T\" \"\"" ∷ codes "segment 1 2 0001ABCC 00000004 \"T\" \"\" at 00008000" ∷ codes "public 1 0001ABCF \"X\"" ∷ codes "public 1 0001ABCD \"\\x22\\x07\"" ∷ []) }
    ensures by_hand { map_by (using ∷ constant_public ∷ []) (gives (None ∷ []) (Some (at 0x7C00 0 0) ∷ []) ∷ gives (None ∷ []) [] ∷ []) ≡ lines (codes "segment 1 1 - 00000004 \"T\" \"\"" ∷ codes "segment 2 1 - 00000004 \"T\" \"\"" ∷ codes "public 2 000B8002 \"X\"" ∷ codes "external 1 1 00007C00 \"X\"" ∷ []) }
    ensures twice { map_by (constant_public ∷ using ∷ constant_public ∷ []) (gives (None ∷ []) [] ∷ gives (None ∷ []) (None ∷ []) ∷ gives (None ∷ []) [] ∷ []) ≡ lines (codes "segment 1 1 - 00000004 \"T\" \"\"" ∷ codes "segment 2 1 - 00000004 \"T\" \"\"" ∷ codes "segment 3 1 - 00000004 \"T\" \"\"" ∷ codes "public 1 000B8002 \"X\"" ∷ codes "public 3 000B8002 \"X\"" ∷ codes "external 2 1 - \"X\"" ∷ []) }
    ensures undefined { map_by (using ∷ []) (gives (Some (at 0 0 0) ∷ []) (None ∷ []) ∷ []) ≡ lines (codes "segment 1 1 00000000 00000004 \"T\" \"\"" ∷ codes "external 1 1 - \"X\"" ∷ []) }
    ensures local { map_by (using_locally local_public ∷ constant_public ∷ []) (gives (Some (at 0x20 0 0) ∷ []) (None ∷ []) ∷ gives (None ∷ []) [] ∷ []) ≡ lines (codes "segment 1 1 00000020 00000004 \"T\" \"\"" ∷ codes "segment 2 1 - 00000004 \"T\" \"\"" ∷ codes "public 2 000B8002 \"X\"" ∷ codes "external 1 1 00000023 \"X\"" ∷ []) }
    ensures unplaced { map_by (using_locally local_public ∷ []) (gives (None ∷ []) (None ∷ []) ∷ []) ≡ lines (codes "segment 1 1 - 00000004 \"T\" \"\"" ∷ codes "external 1 1 - \"X\"" ∷ []) }
{}

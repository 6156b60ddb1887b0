//! Worked examples of what is reached, with values worked out by hand.

ghost use Rattle.std.specs.Prelude.{◌≡◌, ◌∷◌, [], codes, false, true};
ghost use Rattle.omf_check.specs.Threads.{T0, T1};
ghost use Rattle.omf_trimming.specs.Reaching.{is_debug_class, next, optional_segments, roots, unreached, uses};
ghost use Rattle.omf_trimming.specs.ReachingRows.{asks, code_out, debug_out, defines, one_refers, starts, symbols};

/// The classes of debug information.
pub fn classes_of_debug_information()
    ensures symbols { is_debug_class (codes "DEBSYM") ≡ true }
    ensures types { is_debug_class (codes "DEBTYP") ≡ true }
    ensures dwarf { is_debug_class (codes "DWARF") ≡ true }
    ensures data { is_debug_class (codes "DATA") ≡ false }
    ensures lower { is_debug_class (codes "dwarf") ≡ false }
{}

/// A fixup is of the segment of the last data before it; a start is of the index 0.
pub fn references_of_modules()
    ensures data { uses one_refers ≡ (1, T0 2) ∷ (3, T0 1) ∷ [] }
    ensures start { uses starts ≡ (0, T1 1) ∷ (0, T0 2) ∷ [] }
{}

/// The starts and the segments that are not of a class to be left out stay.
pub fn segments_that_stay()
    ensures one { roots code_out (one_refers ∷ []) ≡ (0, 0) ∷ (0, 1) ∷ [] }
    ensures two { roots code_out (asks ∷ defines ∷ []) ≡ (0, 0) ∷ (0, 1) ∷ (1, 0) ∷ (1, 1) ∷ [] }
    ensures debug { roots debug_out (one_refers ∷ symbols ∷ []) ≡ (0, 0) ∷ (0, 1) ∷ (0, 2) ∷ (0, 3) ∷ (1, 0) ∷ [] }
    ensures optional { optional_segments debug_out symbols ≡ 1 ∷ [] }
{}

/// What a segment refers to: a segment, the members of a group, or the segment of a public.
pub fn segments_referred_to()
    ensures segment { next (one_refers ∷ []) (0, 1) ≡ (0, 2) ∷ [] }
    ensures none { next (one_refers ∷ []) (0, 2) ≡ [] }
    ensures start { next (starts ∷ []) (0, 0) ≡ (0, 2) ∷ (0, 3) ∷ (0, 2) ∷ [] }
    ensures public { next (asks ∷ defines ∷ []) (0, 1) ≡ (1, 3) ∷ [] }
    ensures undefined { next (asks ∷ []) (0, 1) ≡ [] }
    ensures twice { next (asks ∷ defines ∷ defines ∷ []) (0, 1) ≡ [] }
{}

/// The segments that are left out, where these are reached.
pub fn segments_left_out()
    ensures third { unreached ((0, 0) ∷ (0, 1) ∷ (0, 2) ∷ []) 0 one_refers ≡ 3 ∷ [] }
    ensures others { unreached ((0, 0) ∷ (0, 1) ∷ (1, 3) ∷ []) 1 defines ≡ 1 ∷ 2 ∷ [] }
{}

//! Worked examples of the names that a module defines.

ghost use Rattle.std.specs.Prelude.{◌≡◌, [], ◌∷◌, codes, false};
ghost use Rattle.omf_library.specs.Rows.{alias_record, comment, communal};
ghost use Rattle.omf_lowering.specs.Marks.{mark_text};
ghost use Rattle.omf_making.specs.Names.{defined_names, entered, is_strong};
ghost use Rattle.omf_making.specs.Rows.{defined, public};
ghost use Rattle.omf_making.specs.declared.names.Kind.TheVariants.{Alias, Comdat, Communal, Public};

/// What a module defines: a PUBDEF that the mark of a COMDAT follows is of a COMDAT, other comments change nothing, and an LPUBDEF defines nothing for others.
pub fn names_of_comdats()
    ensures public { defined_names (public 0x90 (codes "P") ∷ communal 0xB0 (codes "C") ∷ []) ≡ defined Public (codes "P") ∷ defined Communal (codes "C") ∷ [] }
    ensures comdat { defined_names (public 0x90 (codes "P") ∷ public 0x90 (codes "X") ∷ comment 0xDC (mark_text 1) ∷ []) ≡ defined Public (codes "P") ∷ defined Comdat (codes "X") ∷ [] }
    ensures other_comment { defined_names (public 0x90 (codes "P") ∷ comment 0xDC (codes "COMDAT") ∷ []) ≡ defined Public (codes "P") ∷ [] }
    ensures other_class { defined_names (public 0x90 (codes "P") ∷ comment 0xDD (mark_text 1) ∷ []) ≡ defined Public (codes "P") ∷ [] }
    ensures mark_before { defined_names (comment 0xDC (mark_text 1) ∷ public 0x90 (codes "P") ∷ []) ≡ defined Public (codes "P") ∷ [] }
    ensures local { defined_names (public 0xB6 (codes "X") ∷ comment 0xDC (mark_text 1) ∷ []) ≡ [] }
    ensures communal { defined_names (communal 0xB0 (codes "C") ∷ comment 0xDC (mark_text 1) ∷ []) ≡ defined Communal (codes "C") ∷ [] }
{}

/// What an ALIAS defines: its aliases, after the names of all other records, and not its substitutes. None if its last name is cut. They have entries, as
/// publics have, and a public of the name counts before them.
pub fn names_of_aliases()
    ensures alias { defined_names (alias_record (1 ∷ 0x61 ∷ 2 ∷ 0x5F ∷ 0x61 ∷ []) ∷ []) ≡ defined Alias (codes "a") ∷ [] }
    ensures order { defined_names (alias_record (1 ∷ 0x61 ∷ 1 ∷ 0x62 ∷ 1 ∷ 0x63 ∷ 1 ∷ 0x64 ∷ []) ∷ public 0x90 (codes "P") ∷ []) ≡ defined Public (codes "P") ∷ defined Alias (codes "a") ∷ defined Alias (codes "c") ∷ [] }
    ensures left_over { defined_names (alias_record (1 ∷ 0x61 ∷ 1 ∷ 0x62 ∷ 1 ∷ 0x63 ∷ []) ∷ []) ≡ defined Alias (codes "a") ∷ [] }
    ensures cut { defined_names (alias_record (1 ∷ 0x61 ∷ 2 ∷ 0x62 ∷ []) ∷ []) ≡ [] }
    ensures mark { defined_names (alias_record (1 ∷ 0x61 ∷ 1 ∷ 0x62 ∷ []) ∷ comment 0xDC (mark_text 1) ∷ []) ≡ defined Alias (codes "a") ∷ [] }
    ensures both { defined_names (alias_record (1 ∷ 0x61 ∷ 1 ∷ 0x62 ∷ []) ∷ public 0x90 (codes "a") ∷ []) ≡ defined Public (codes "a") ∷ defined Alias (codes "a") ∷ [] }
    ensures entered { entered (defined Communal (codes "C") ∷ defined Alias (codes "a") ∷ []) ≡ defined Alias (codes "a") ∷ [] }
    ensures weak { is_strong Alias ≡ false }
{}
